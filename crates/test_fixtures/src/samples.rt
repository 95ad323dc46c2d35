//! Disks, tables and images for tests.

use crate::calls::{apply, bytes_of, copy, entry_of, find, holding, new_on};
use crate::tables::{DISK_GUID, partition, read, write};
use gptman::disk::long::LongDisk;
use gptman::{Disk, Edit, Error, GPT, GPTHeader, MemoryDisk, PartitionName, Result};
use std::alloc::Global;

/// Returns a disk of `len` bytes, each of them `byte`.
pub fn disk_of(alloc: Global, byte: u8, len: usize) -> Result<MemoryDisk> {
    MemoryDisk::new(alloc, vec![in alloc; byte; len]?)
}

/// Returns a new header for 100 sectors of 512 bytes.
pub fn new_header(alloc: Global) -> Result<GPTHeader> {
    GPTHeader::new_from(&mut LongDisk::new(alloc, 51_200), 512, DISK_GUID)
}

/// Puts a used entry with this name, these sectors, and a GUID of 16 times this byte under the number. Its type is 16
/// bytes 0a.
pub fn put_entry(
    alloc: Global,
    table: &mut GPT,
    number: u32,
    (name, guid): (&str, u8),
    (from, to): (u64, u64),
) -> Result<()> {
    let entry = partition(alloc, name, [guid; 16], from, to)?;
    apply(table, Edit::Put(number, entry))
}

// Returns a table for 100 sectors, with "Foo" and "Bar" in these sectors.
fn foo_and_bar(alloc: Global, sector_size: u16, foo: (u64, u64), bar: (u64, u64)) -> Result<GPT> {
    let mut disk = disk_of(alloc, 0, 100 * usize::from(sector_size))?;
    let mut table = new_on(alloc, &mut disk, u64::from(sector_size))?;
    apply(&mut table, Edit::DiskGuid([0x0d; 16]))?;
    put_entry(alloc, &mut table, 1, ("Foo", 0x0b), foo)?;
    put_entry(alloc, &mut table, 2, ("Bar", 0x0c), bar)?;
    Ok(table)
}

/// Returns a table for 100 sectors of 512 bytes, with "Foo" in 34..43 and "Bar" in 48..52.
pub fn disk_1(alloc: Global) -> Result<GPT> {
    foo_and_bar(alloc, 512, (34, 43), (48, 52))
}

/// Returns a table for 100 sectors of 4096 bytes, with "Foo" in 6..15 and "Bar" in 70..79.
pub fn disk_2(alloc: Global) -> Result<GPT> {
    foo_and_bar(alloc, 4096, (6, 15), (70, 79))
}

/// Returns a new table for 100 sectors of 512 bytes with these bounds and alignment, and a used entry for each pair of
/// first and last sector.
pub fn table_within(
    alloc: Global,
    bounds: (u64, u64),
    align: u64,
    used: &[(u64, u64)],
) -> Result<GPT> {
    let mut table = new_on(alloc, &mut disk_of(alloc, 0, 51_200)?, 512)?;
    table.header.first_usable_lba = bounds.0;
    table.header.last_usable_lba = bounds.1;
    table.align = align;
    let mut number = 0_u8;
    for sectors in used {
        number = number.saturating_add(1);
        put_entry(alloc, &mut table, u32::from(number), ("", number), *sectors)?;
    }
    Ok(table)
}

/// Returns a name of these units, followed by zeros.
pub fn name_of_units(alloc: Global, first: &[u16]) -> Result<PartitionName> {
    let mut bytes = [0; 128];
    let mut at = 56_usize;
    for unit in first {
        put(&mut bytes, at, &unit.to_le_bytes())?;
        at = at.saturating_add(2);
    }
    Ok(entry_of(alloc, &bytes)?.partition_name)
}

/// Returns the backup form of a header in primary form. The checksums are unchanged.
pub fn backup_form(header: &GPTHeader) -> GPTHeader {
    GPTHeader {
        primary_lba: header.backup_lba,
        backup_lba: header.primary_lba,
        partition_entry_lba: header.last_usable_lba.saturating_add(1),
        ..*header
    }
}

/// Writes the table to a disk of `len` bytes, each of them `byte`, and returns the bytes.
pub fn image_on(alloc: Global, byte: u8, len: usize, table: &mut GPT) -> Result<Vec<u8>> {
    let mut disk = disk_of(alloc, byte, len)?;
    write(table, &mut disk)?;
    bytes_of(alloc, &disk)
}

/// Writes the table to a zero disk of 100 sectors, and returns the bytes.
pub fn image_with(alloc: Global, table: &GPT) -> Result<Vec<u8>> {
    let len = 100 * table.sector_size.min(4096) as usize;
    image_on(alloc, 0, len, &mut copy(table)?)
}

/// Writes a new table to 100 sectors of 512 bytes, each byte `byte`, and returns the bytes.
pub fn image_of_new(alloc: Global, byte: u8) -> Result<Vec<u8>> {
    let mut table = new_on(alloc, &mut disk_of(alloc, 0, 51_200)?, 512)?;
    image_on(alloc, byte, 51_200, &mut table)
}

/// Reads the table in these bytes.
pub fn read_image(alloc: Global, bytes: &[u8], sector_size: u64) -> Result<GPT> {
    read(alloc, &mut holding(alloc, bytes)?, sector_size)
}

/// Reads the table in these bytes, and detects the sector size.
pub fn find_image(alloc: Global, bytes: &[u8]) -> Result<GPT> {
    find(alloc, &mut holding(alloc, bytes)?)
}

/// Reports whether all bytes are `byte`.
pub fn are_all(bytes: &[u8], byte: u8) -> bool {
    bytes.iter().all(|it| *it == byte)
}

/// Overwrites bytes from `at` on. `Overflow` if `over` does not fit.
pub fn put(bytes: &mut [u8], at: usize, over: &[u8]) -> Result<()> {
    let len = bytes.len();
    if at > len || over.len() > len - at {
        return Err(Error::Overflow);
    }
    bytes[at..at + over.len()].copy_from_slice(over);
    Ok(())
}

// Returns the 16 bytes of the partition of a protective MBR with `count` sectors from sector 1 on.
fn mbr_partition(is_bootable: bool, count: u32) -> Result<[u8; 16]> {
    let status = if is_bootable { 0x80 } else { 0 };
    let mut bytes = [
        status, 0, 2, 0, 0xee, 0xff, 0xff, 0xff, 1, 0, 0, 0, 0, 0, 0, 0,
    ];
    put(&mut bytes, 12, &count.to_le_bytes())?;
    Ok(bytes)
}

/// Puts a protective MBR with `count` sectors from sector 1 on into these bytes.
pub fn put_mbr(bytes: &mut [u8], is_bootable: bool, count: u32) -> Result<()> {
    put(bytes, 446, &mbr_partition(is_bootable, count)?)?;
    put(bytes, 462, &[0; 48])?;
    put(bytes, 510, &[0x55, 0xaa])
}

/// Writes one of the two protective MBRs.
pub fn write_mbr<D: Disk>(disk: &mut D, sector_size: u64, is_bootable: bool) -> Result<()> {
    if sector_size == 0 {
        return Err(Error::Overflow);
    }
    if is_bootable {
        GPT::write_bootable_protective_mbr_into(disk, sector_size)
    } else {
        GPT::write_protective_mbr_into(disk, sector_size)
    }
}
