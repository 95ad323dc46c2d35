//! Reads backups of `sgdisk`.

use crate::Parsed;
use crate::error::{BackupPart, LayoutError, NotLayout};
use crate::table_header::{Form, Header};
use gptedit_core::layout_of;
use gptman::disk::plain::PlainDisk;
use gptman::sizes::{ENTRY_SIZE, MAX_ENTRY_COUNT, SECTOR_SIZES};
use gptman::{Disk, Error, GPT, GPTHeader};
use std::alloc::Global;

// The size of a block in bytes, whatever the size of a sector of the disk.
const BLOCK: u64 = 512;

// The first bytes of the headers.
const PRIMARY: usize = 512;

const BACKUP: usize = 1024;

// The block of the first entry.
const ENTRIES: u64 = 3;

/// Reports whether a file is a backup of `sgdisk`: its second or third block begins with the signature of a header.
pub fn is_backup(bytes: &[u8]) -> bool {
    has_signature(bytes, PRIMARY) || has_signature(bytes, BACKUP)
}

fn has_signature(bytes: &[u8], at: usize) -> bool {
    match bytes.get(at..) {
        Some(rest) => rest.starts_with(b"EFI PART"),
        None => false,
    }
}

/// Reads a backup as `sgdisk --backup` writes it: a block with the MBR, one with each header, and the entries. Its layout
/// has all fields of each used entry, and the GUID of the disk.
///
/// Fails with `Backup` if a header or the entries have a fault, and with `ManyEntries` before too many are read.
pub fn read_backup(alloc: Global, bytes: Vec<u8>) -> Result<Parsed, NotLayout> {
    read_parts(alloc, bytes).map_err(|error| NotLayout::of(alloc, error))
}

fn read_parts(alloc: Global, bytes: Vec<u8>) -> Result<Parsed, LayoutError> {
    let mut disk = PlainDisk::new(bytes);
    let primary = read_header(&mut disk, PRIMARY, BackupPart::Primary)?;
    let backup = read_header(&mut disk, BACKUP, BackupPart::Backup)?;
    let table = read_table(alloc, &mut disk, primary)?;
    let layout = match layout_of(alloc, &table) {
        Ok(layout) => layout,
        Err(_) => return Err(LayoutError::OutOfMemory),
    };
    Ok(Parsed {
        layout,
        header: Header {
            sector_size: sector_size_of(&backup),
            ..Header::of(&table)
        },
        form: Form::Backup,
        bootable: Vec::new(alloc),
        places: Vec::new(alloc),
    })
}

fn read_header(
    disk: &mut PlainDisk,
    at: usize,
    part: BackupPart,
) -> Result<GPTHeader, LayoutError> {
    let header = match disk.seek_start(at as u64) {
        Ok(_) => GPTHeader::read_from(disk),
        Err(error) => Err(Error::Io(error)),
    };
    header.map_err(|error| damaged(part, error))
}

// Reads the entries that the header counts.
fn read_table(alloc: Global, disk: &mut PlainDisk, primary: GPTHeader) -> Result<GPT, LayoutError> {
    let count = primary.number_of_partition_entries;
    if count > MAX_ENTRY_COUNT {
        return Err(LayoutError::ManyEntries(count));
    }
    let header = GPTHeader {
        partition_entry_lba: ENTRIES,
        ..primary
    };
    match header.read_partitions(alloc, disk, BLOCK) {
        Ok(entries) => Ok(GPT::from_parts(BLOCK, header, entries, 1)),
        Err(error) => Err(damaged(BackupPart::Entries, error)),
    }
}

fn damaged(part: BackupPart, error: Error) -> LayoutError {
    match error {
        Error::OutOfMemory => LayoutError::OutOfMemory,
        error => LayoutError::Backup { part, error },
    }
}

// Returns the only size of a sector in bytes with which the entries fill the sectors up to the backup header.
fn sector_size_of(backup: &GPTHeader) -> Option<u64> {
    let entries = u64::from(backup.number_of_partition_entries);
    let bytes = entries.saturating_mul(u64::from(ENTRY_SIZE));
    let sectors = backup.primary_lba.checked_sub(backup.partition_entry_lba)?;
    let mut found = None;
    for size in SECTOR_SIZES {
        if count_sectors(bytes, size) == Some(sectors) {
            if found.is_some() {
                return None;
            }
            found = Some(size);
        }
    }
    found
}

// Returns the number of sectors that these bytes take.
fn count_sectors(bytes: u64, size: u64) -> Option<u64> {
    let over = bytes.checked_add(size)?.checked_sub(1)?;
    over.checked_div(size)
}
