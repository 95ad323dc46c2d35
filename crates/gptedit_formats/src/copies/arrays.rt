//! Arrays of entries, where a header places them and at their usual places.

use crate::copies::fault::Fault;
use crate::copies::found::{FoundEntry, Spot};
use crate::copies::mend::find_wrong_byte;
use gptman::crc::crc32;
use gptman::sizes::MAX_ENTRY_COUNT;
use gptman::{Error, GPTHeader, GPTPartitionEntry};
use std::alloc::{AllocError, Global};

// The usual entry size in bytes, and the usual number of entries.
const USUAL: u32 = 128;

// The maximum number of bytes read of an array.
const MAX_BYTES: u64 = 16 << 20;

/// An array of entries: its first sector, the number of entries, and the entry size in bytes.
#[derive(Clone, Copy, PartialEq, Eq)]
pub struct ArraySpan {
    pub lba: u64,
    pub count: u32,
    pub entry_size: u32,
}

impl ArraySpan {
    /// Returns the array of 128 entries at the usual place of a copy.
    pub fn usual(spot: Spot) -> ArraySpan {
        ArraySpan {
            lba: 0,
            count: USUAL,
            entry_size: USUAL,
        }
        .at_usual_place(spot)
    }

    /// Returns the array that a header describes. Impossible numbers are replaced by the usual ones.
    pub fn said_by(header: &GPTHeader) -> ArraySpan {
        let (count, entry_size) = (
            header.number_of_partition_entries,
            header.size_of_partition_entry,
        );
        ArraySpan {
            lba: header.partition_entry_lba,
            count: if count == 0 || count > MAX_ENTRY_COUNT {
                USUAL
            } else {
                count
            },
            entry_size: if is_entry_size(entry_size) {
                entry_size
            } else {
                USUAL
            },
        }
    }

    /// Returns this array at the usual place of a copy: after the header in sector 1, else before the header.
    pub fn at_usual_place(self, spot: Spot) -> ArraySpan {
        if spot.lba <= 1 {
            self.at(2)
        } else {
            self.before(spot.lba, spot.sector_size)
        }
    }

    /// Returns this array at the usual places of the other copy: before the backup header or after the usable sectors;
    /// after the primary header or before the usable sectors.
    pub fn at_places_of_other(self, spot: Spot, header: &GPTHeader) -> [ArraySpan; 3] {
        let (other, size) = (header.backup_lba, spot.sector_size);
        if spot.lba <= 1 {
            [
                self.before(other, size),
                self.before(spot.sectors.saturating_sub(1), size),
                self.at(header.last_usable_lba.saturating_add(1)),
            ]
        } else {
            [
                self.at(other.saturating_add(1)),
                self.at(2),
                self.before(header.first_usable_lba, size),
            ]
        }
    }

    fn at(self, lba: u64) -> ArraySpan {
        ArraySpan { lba, ..self }
    }

    // Returns this array right before this sector.
    fn before(self, lba: u64, sector_size: u64) -> ArraySpan {
        let sectors = self.len().div_ceil(sector_size.max(1));
        self.at(lba.saturating_sub(sectors))
    }

    /// Returns this array with the usual numbers.
    pub fn of_usual_size(self) -> ArraySpan {
        ArraySpan {
            count: USUAL,
            entry_size: USUAL,
            ..self
        }
    }

    /// Returns the length in bytes.
    pub fn len(self) -> u64 {
        u64::from(self.count) * u64::from(self.entry_size)
    }

    /// Returns the first byte.
    pub fn start(self, spot: Spot) -> u64 {
        self.lba.saturating_mul(spot.sector_size)
    }

    /// Returns the number of bytes to read: up to the end of the disk, at most 16 MiB.
    pub fn readable_len(self, spot: Spot) -> u64 {
        let end = spot.sectors.saturating_mul(spot.sector_size);
        self.len()
            .min(MAX_BYTES)
            .min(end.saturating_sub(self.start(spot)))
    }
}

// Reports whether entries of this size are read: a multiple of 128 bytes, at most 4096.
fn is_entry_size(size: u32) -> bool {
    size != 0 && size % USUAL == 0 && size <= 4096
}

/// An array that was read.
#[derive(Drop)]
pub struct Array {
    /// The array.
    pub span: ArraySpan,
    /// The bytes that were read.
    pub bytes: Vec<u8>,
    /// Their checksum.
    pub checksum: u32,
    /// The entries that have a type.
    pub entries: Vec<FoundEntry>,
    /// Whether it is at a usual place of the other copy.
    pub is_of_other: bool,
}

impl Array {
    /// Decodes the entries in the bytes that were read.
    pub fn decode(alloc: Global, span: ArraySpan, bytes: Vec<u8>) -> Result<Array, AllocError> {
        let entries = decode_all(alloc, &bytes, span.entry_size)?;
        Ok(Array {
            span,
            checksum: crc32(&bytes),
            bytes,
            entries,
            is_of_other: false,
        })
    }

    fn len(&self) -> u64 {
        self.bytes.len() as u64
    }

    /// Reports whether all of it was read.
    pub fn is_whole(&self) -> bool {
        self.len() == self.span.len()
    }

    // Returns the number of sensible entries.
    fn count_sensible(&self, sectors: u64) -> usize {
        self.entries
            .iter()
            .filter(|found| is_sensible(&found.entry, sectors))
            .count()
    }
}

// Reports whether the sectors of an entry are in order and on the disk.
fn is_sensible(entry: &GPTPartitionEntry, sectors: u64) -> bool {
    entry.starting_lba <= entry.ending_lba && entry.ending_lba < sectors
}

/// Reports whether most of the entries look like partitions.
pub fn is_likely(array: &Array, sectors: u64) -> bool {
    let likely = array
        .entries
        .iter()
        .filter(|found| is_likely_entry(&found.entry, sectors))
        .count();
    likely > array.entries.len() / 2
}

// Reports whether an entry looks like a partition: it is sensible, starts after sector 1, and has a GUID.
fn is_likely_entry(entry: &GPTPartitionEntry, sectors: u64) -> bool {
    is_sensible(entry, sectors) && entry.starting_lba > 1 && entry.unique_partition_guid != [0; 16]
}

/// Reports whether the entries match the checksum that the header stores.
pub fn is_sure(array: &Array, header: &GPTHeader) -> bool {
    array.is_whole() && array.checksum == header.partition_entry_array_crc32
}

/// Reports whether an array matches the checksum, or has more sensible entries than the other one.
pub fn is_better(array: &Array, other: &Array, header: &GPTHeader, sectors: u64) -> bool {
    is_sure(array, header) || array.count_sensible(sectors) > other.count_sensible(sectors)
}

// Decodes the entries that have a type, each from its first 128 bytes.
fn decode_all(alloc: Global, bytes: &[u8], entry_size: u32) -> Result<Vec<FoundEntry>, AllocError> {
    let mut entries = Vec::new(alloc);
    let mut rest = bytes;
    for number in 1..=MAX_ENTRY_COUNT {
        let Some(first) = rest.first_chunk::<128>() else {
            break;
        };
        if let Some(entry) = decode(alloc, first)? {
            entries.push(FoundEntry {
                number,
                entry,
                faults: Vec::new(alloc),
            })?;
        }
        rest = rest.get(entry_size as usize..).unwrap_or(&[]);
    }
    Ok(entries)
}

// Decodes the entry, if it has a type.
fn decode(alloc: Global, bytes: &[u8; 128]) -> Result<Option<GPTPartitionEntry>, AllocError> {
    if bytes.iter().take(16).all(|byte| *byte == 0) {
        return Ok(None);
    }
    match GPTPartitionEntry::decode(alloc, bytes) {
        Ok(entry) => Ok(Some(entry)),
        Err(Error::OutOfMemory) => Err(AllocError),
        Err(_) => Ok(None),
    }
}

/// Records the faults of the array of a header. Corrects one wrong byte of an entry that has a type.
pub fn note_array(
    alloc: Global,
    faults: &mut Vec<Fault>,
    header: &GPTHeader,
    array: &mut Array,
    spot: Spot,
) -> Result<(), AllocError> {
    note_numbers(faults, header, array.span)?;
    note_place(faults, header, array)?;
    note_length(faults, array, spot)?;
    let (stored, computed) = (header.partition_entry_array_crc32, array.checksum);
    if !array.is_whole() || stored == computed {
        return Ok(());
    }
    match mend(alloc, array, stored)? {
        Some(fault) => faults.push(fault)?,
        None => faults.push(Fault::EntriesChecksum { stored, computed })?,
    }
    Ok(())
}

// Corrects the only byte of an entry with a type that makes the array match its checksum, if there is one.
fn mend(alloc: Global, array: &mut Array, stored: u32) -> Result<Option<Fault>, AllocError> {
    let entry_size = array.span.entry_size as usize;
    let bytes = array.bytes.as_slice();
    let is_allowed = |index: usize| is_in_entry(bytes, entry_size, index);
    let Some(wrong) = find_wrong_byte(bytes.len(), stored, array.checksum, is_allowed) else {
        return Ok(None);
    };
    let Some(byte) = array.bytes.get_mut(wrong.index) else {
        return Ok(None);
    };
    let was = *byte;
    let is = was ^ wrong.bits;
    *byte = is;
    array.checksum = stored;
    array.entries = decode_all(alloc, &array.bytes, array.span.entry_size)?;
    let number = wrong.index.checked_div(entry_size).unwrap_or(0);
    Ok(Some(Fault::EntryByte {
        number: u32::try_from(number).unwrap_or(0).saturating_add(1),
        index: wrong.index.checked_rem(entry_size).unwrap_or(0),
        was,
        is,
    }))
}

// Reports whether the byte is in the first 128 of an entry that has a type.
fn is_in_entry(bytes: &[u8], entry_size: usize, index: usize) -> bool {
    let Some(place) = index.checked_rem(entry_size) else {
        return false;
    };
    let kind = bytes
        .get(index.saturating_sub(place)..)
        .and_then(|entry| entry.first_chunk::<16>());
    match kind {
        Some(kind) => place < 128 && kind.iter().any(|byte| *byte != 0),
        None => false,
    }
}

// Records numbers in a header that are not those of the array.
fn note_numbers(
    faults: &mut Vec<Fault>,
    header: &GPTHeader,
    span: ArraySpan,
) -> Result<(), AllocError> {
    let count = header.number_of_partition_entries;
    if count == 0 {
        faults.push(Fault::NoEntries)?;
    } else if count > MAX_ENTRY_COUNT {
        faults.push(Fault::TooMany(count))?;
    } else if count != span.count {
        faults.push(Fault::OtherCount {
            said: count,
            read: span.count,
        })?;
    }
    let size = header.size_of_partition_entry;
    if size != span.entry_size {
        faults.push(Fault::EntrySize(size))?;
    } else if size != USUAL {
        faults.push(Fault::LargeEntries(size))?;
    }
    Ok(())
}

// Records that the array is not where the header places it.
fn note_place(
    faults: &mut Vec<Fault>,
    header: &GPTHeader,
    array: &Array,
) -> Result<(), AllocError> {
    let (said, found) = (header.partition_entry_lba, array.span.lba);
    if array.is_of_other {
        faults.push(Fault::OtherEntries { said, found })?;
    } else if said != found {
        faults.push(Fault::MovedEntries { said, found })?;
    }
    Ok(())
}

/// Records that an array could not be read to its end.
pub fn note_length(faults: &mut Vec<Fault>, array: &Array, spot: Spot) -> Result<(), AllocError> {
    let start = array.span.start(spot);
    let end = spot.sectors.saturating_mul(spot.sector_size);
    let lba = array.span.lba;
    if start.saturating_add(array.span.len()) > end {
        faults.push(Fault::EntriesPastEnd { lba })?;
    } else if array.len() < array.span.len().min(MAX_BYTES) {
        let sectors = array.len() / spot.sector_size.max(1);
        let lba = lba.saturating_add(sectors);
        faults.push(Fault::Unreadable { lba })?;
    }
    Ok(())
}
