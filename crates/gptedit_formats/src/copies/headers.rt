//! Headers as stored, and their faults.

use crate::copies::fault::Fault;
use crate::copies::found::{CopyKind, Spot};
use crate::copies::mend::{WrongByte, find_wrong_byte};
use gptman::GPTHeader;
use gptman::crc::crc32;
use std::alloc::{AllocError, Global};

// The number of bytes read of a header.
const LEAST_SIZE: u32 = 92;

// "EFI PART".
const SIGNATURE: [u8; 8] = *b"EFI PART";

// Revision 1.0.
const REVISION: [u8; 4] = [0, 0, 1, 0];

/// The contents of the sector of a header.
#[derive(Drop)]
pub enum Seen {
    /// Nothing like a header.
    Nothing,
    /// The read failed.
    Failure,
    /// A header and its faults.
    Header(GPTHeader, Vec<Fault>),
}

/// Decodes the header at the start of the sector, and corrects one wrong byte.
pub fn decode_header(alloc: Global, sector: &mut [u8], spot: Spot) -> Result<Seen, AllocError> {
    let Some(first) = sector.first_chunk::<92>() else {
        return Ok(Seen::Nothing);
    };
    let stored = GPTHeader::decode(first);
    if !is_like_header(&stored) {
        return Ok(Seen::Nothing);
    }
    let mut faults = Vec::new(alloc);
    let (header, wrong) = check_sum(stored, sector);
    note_form(&mut faults, &header, sector.len())?;
    if let Some(fault) = wrong {
        faults.push(fault)?;
    }
    note_places(&mut faults, &header, spot)?;
    Ok(Seen::Header(header, faults))
}

// Reports whether this looks like a header: by its signature, or by 7 bytes of it with revision 1.0 and size 92.
fn is_like_header(header: &GPTHeader) -> bool {
    if header.signature == SIGNATURE {
        return true;
    }
    let same = header
        .signature
        .iter()
        .zip(SIGNATURE.iter())
        .filter(|(byte, right)| *byte == *right)
        .count();
    same >= 7 && header.revision == REVISION && header.header_size == LEAST_SIZE
}

// Records faults in the form of a header in a sector of this length.
fn note_form(faults: &mut Vec<Fault>, header: &GPTHeader, len: usize) -> Result<(), AllocError> {
    if header.signature != SIGNATURE {
        faults.push(Fault::Signature)?;
    }
    if header.revision != REVISION {
        faults.push(Fault::Revision(header.revision))?;
    }
    let size = header.header_size;
    if size < LEAST_SIZE || size as usize > len {
        faults.push(Fault::HeaderSize(size))?;
    } else if size > LEAST_SIZE {
        faults.push(Fault::LongHeader(size))?;
    }
    Ok(())
}

// Returns the header, in which one wrong byte is corrected, and the fault of its checksum.
fn check_sum(header: GPTHeader, sector: &mut [u8]) -> (GPTHeader, Option<Fault>) {
    let stored = header.crc32_checksum;
    let size = header.header_size;
    let least = checksum_of(sector, LEAST_SIZE);
    let computed = if size > LEAST_SIZE && size as usize <= sector.len() {
        checksum_of(sector, size)
    } else {
        least
    };
    if stored == computed {
        return (header, None);
    }
    if let Some(wrong) = find_wrong_byte(LEAST_SIZE as usize, stored, least, is_summed) {
        if let Some((mended, fault)) = mend(header, sector, wrong) {
            return (mended, Some(fault));
        }
    }
    (header, Some(Fault::HeaderChecksum { stored, computed }))
}

// Reports whether the checksum of a header depends on the byte.
fn is_summed(index: usize) -> bool {
    index < 16 || index >= 20
}

// Returns the header with this byte corrected, and the fault. `sector` no longer has the stored checksum.
fn mend(header: GPTHeader, sector: &[u8], wrong: WrongByte) -> Option<(GPTHeader, Fault)> {
    let mut bytes = *sector.first_chunk::<92>()?;
    let index = wrong.index;
    if index >= 92 {
        return None;
    }
    let was = bytes[index];
    let is = was ^ wrong.bits;
    bytes[index] = is;
    let fault = Fault::HeaderByte { index, was, is };
    let mended = GPTHeader {
        crc32_checksum: header.crc32_checksum,
        ..GPTHeader::decode(&bytes)
    };
    Some((mended, fault))
}

// Returns the checksum of a header of this size, in which the stored one is zero. Sets that to zero in `sector`.
fn checksum_of(sector: &mut [u8], size: u32) -> u32 {
    for byte in sector.iter_mut().skip(16).take(4) {
        *byte = 0;
    }
    match sector.get(..size as usize) {
        Some(bytes) => crc32(bytes),
        None => 0,
    }
}

// Records sectors in a header that are wrong or unusual.
fn note_places(faults: &mut Vec<Fault>, header: &GPTHeader, spot: Spot) -> Result<(), AllocError> {
    if header.primary_lba != spot.lba {
        let said = header.primary_lba;
        faults.push(Fault::OtherSector { said })?;
    }
    let (said, sectors) = (header.backup_lba, spot.sectors);
    let usual = match spot.kind {
        CopyKind::Primary => sectors.saturating_sub(1),
        CopyKind::Backup => 1,
        CopyKind::Other => said,
    };
    if said != usual {
        faults.push(Fault::OtherCopy {
            said,
            usual,
            sectors,
        })?;
    }
    let (first, last) = (header.first_usable_lba, header.last_usable_lba);
    if first > last || last >= sectors {
        faults.push(Fault::Bounds { first, last })?;
    }
    Ok(())
}
