//! The signature `EFI PART` in sector 1 and in the last sector, for each sector size.

ghost use Rattle.std.specs.Prelude.{◌<◌, ◌/◌, SomeIff};
ghost use Rattle.gptman.specs.Answers.{HasCause};
ghost use Rattle.gptman.specs.Disk.{Reads};
ghost use Rattle.gptedit_look.specs.Wiped.{byte_of};

use crate::blocks::{has_at, read_block};
use gptman::sizes::SECTOR_SIZES;
use gptman::{Disk, Result};
use std::alloc::Global;

/// The signature of a header.
pub const SIGNATURE: [u8; 8] = *b"EFI PART";

/// One of the two places of a header.
#[derive(Clone, Copy, PartialEq, Eq)]
pub enum HeaderPlace {
    /// Sector 1.
    Start,
    /// The last whole sector.
    End,
}

/// A signature at the place of a header.
#[derive(Clone, Copy, PartialEq, Eq)]
pub struct Signature {
    /// The sector size in bytes for which this is such a place.
    pub sector_size: u64,
    /// The place.
    pub place: HeaderPlace,
    /// Its first byte.
    pub at: u64,
}

/// Returns the first byte of the header at this place. A disk of `size` bytes with fewer than 2 sectors has none.
pub fn place_at(place: HeaderPlace, sector_size: u64, size: u64) -> Option<u64>
    ensures { SomeIff result (1 < size / sector_size) (byte_of place sector_size size) }
{
    let sectors = size.checked_div(sector_size)?;
    match place {
        HeaderPlace::Start if sectors > 1 => Some(sector_size),
        HeaderPlace::End if sectors > 1 => (sectors - 1).checked_mul(sector_size),
        _ => None,
    }
}

/// Returns the signatures on the disk.
///
/// # Errors
/// `Io` if the disk fails, `OutOfMemory` if an allocation fails.
#[tactic(auto, using(gptman::proofs::Readers::both_read, gptman::proofs::Runs::rose_since))]
pub fn find_signatures<D: Disk>(alloc: Global, disk: &mut D) -> Result<Vec<Signature>>
    ensures reads { Reads (D.state disk.old) (D.state disk.new) }
    ensures cause { HasCause result (D.state disk.old) (D.state disk.new) }
{
    let mut signatures = Vec::new(alloc);
    for sector_size in SECTOR_SIZES {
        push_signature(
            alloc,
            disk,
            &mut signatures,
            sector_size,
            HeaderPlace::Start,
        )?;
        push_signature(alloc, disk, &mut signatures, sector_size, HeaderPlace::End)?;
    }
    Ok(signatures)
}

// Adds the signature at this place, if there is one.
fn push_signature<D: Disk>(
    alloc: Global,
    disk: &mut D,
    signatures: &mut Vec<Signature>,
    sector_size: u64,
    place: HeaderPlace,
) -> Result<()>
    ensures reads { Reads (D.state disk.old) (D.state disk.new) }
    ensures cause { HasCause result (D.state disk.old) (D.state disk.new) }
{
    if let Some(signature) = find_signature(alloc, disk, sector_size, place)? {
        signatures.push(signature)?;
    }
    Ok(())
}

#[tactic(auto, using(gptman::proofs::Readers::both_read, gptman::proofs::Runs::rose_since))]
fn find_signature<D: Disk>(
    alloc: Global,
    disk: &mut D,
    sector_size: u64,
    place: HeaderPlace,
) -> Result<Option<Signature>>
    ensures reads { Reads (D.state disk.old) (D.state disk.new) }
    ensures cause { HasCause result (D.state disk.old) (D.state disk.new) }
{
    let size = disk.seek_end()?;
    let Some(at) = place_at(place, sector_size, size) else {
        return Ok(None);
    };
    let bytes = read_block(alloc, disk, at, 8)?;
    if !has_at(&bytes, 0, &SIGNATURE) {
        return Ok(None);
    }
    Ok(Some(Signature {
        sector_size,
        place,
        at,
    }))
}
