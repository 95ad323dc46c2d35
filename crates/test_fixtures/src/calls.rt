//! Calls of the library without `ensures`, so that proofs of their callers are fast. They return `Overflow` if a
//! precondition of the library does not hold.

use crate::tables::DISK_GUID;
use gptman::{
    Disk, Edit, Error, Fate, GPT, GPTHeader, GPTPartitionEntry, MemoryDisk, PartitionName, Result,
};
use std::alloc::Global;

/// Returns a new table for this disk.
pub fn new_on<D: Disk>(alloc: Global, disk: &mut D, sector_size: u64) -> Result<GPT> {
    if sector_size == 0 {
        return Err(Error::Overflow);
    }
    GPT::new_from(alloc, disk, sector_size, DISK_GUID)
}

/// Returns a new table with `count` entries for this disk, with sectors of 512 bytes.
pub fn new_of<D: Disk>(alloc: Global, disk: &mut D, count: u32) -> Result<GPT> {
    GPT::with_entries(alloc, disk, 512, DISK_GUID, count)
}

/// Reads the table on the disk, and detects the sector size.
pub fn find<D: Disk>(alloc: Global, disk: &mut D) -> Result<GPT> {
    GPT::find_from(alloc, disk)
}

/// Returns a clone of the table.
pub fn copy(table: &GPT) -> Result<GPT> {
    table.clone()
}

/// Reports whether the tables are equal.
pub fn are_equal(one: &GPT, other: &GPT) -> bool {
    one == other
}

/// Applies the edit to the table.
pub fn apply(table: &mut GPT, edit: Edit) -> Result<()> {
    table.apply(edit)
}

/// Removes the entry of this number.
pub fn remove(table: &mut GPT, number: u32) -> Result<()> {
    table.remove(number)
}

/// Sorts the entries.
pub fn sort(table: &mut GPT) -> Result<()> {
    table.sort()
}

/// Reports whether the header of the table is in primary form.
pub fn is_primary(table: &GPT) -> bool {
    table.is_primary()
}

/// Fits the header to this disk.
pub fn fit<D: Disk>(header: &mut GPTHeader, disk: &mut D, sector_size: u64) -> Result<()> {
    if sector_size == 0 {
        return Err(Error::Overflow);
    }
    header.update_from(disk, sector_size)
}

/// Reads the entry at byte `at`.
pub fn read_entry<D: Disk>(alloc: Global, disk: &mut D, at: u64) -> Result<GPTPartitionEntry> {
    disk.seek_start(at)?;
    GPTPartitionEntry::read_from(alloc, disk)
}

/// Returns the free ranges, each as first sector and length.
pub fn free_sectors(table: &GPT) -> Result<Vec<(u64, u64)>> {
    if table.align == 0 {
        return Err(Error::Overflow);
    }
    table.find_free_sectors()
}

/// Returns the first place for `size` sectors.
pub fn first_place(table: &GPT, size: u64) -> Result<Option<u64>> {
    if table.align == 0 {
        return Err(Error::Overflow);
    }
    table.find_first_place(size)
}

/// Returns the last place for `size` sectors.
pub fn last_place(table: &GPT, size: u64) -> Result<Option<u64>> {
    if table.align == 0 {
        return Err(Error::Overflow);
    }
    table.find_last_place(size)
}

/// Returns the place for `size` sectors in the shortest free range.
pub fn optimal_place(table: &GPT, size: u64) -> Result<Option<u64>> {
    if table.align == 0 {
        return Err(Error::Overflow);
    }
    table.find_optimal_place(size)
}

/// Returns the size of the largest partition that fits, in sectors.
pub fn maximum_size(table: &GPT) -> Result<u64> {
    if table.align == 0 {
        return Err(Error::Overflow);
    }
    table.get_maximum_partition_size()
}

/// Reports whether the first entry of the table is this one.
pub fn is_first(entry: &GPTPartitionEntry, table: &GPT) -> bool {
    match table.iter().next() {
        Some((number, first)) => number == 1 && first == entry,
        None => false,
    }
}

/// Decodes an entry.
pub fn entry_of(alloc: Global, bytes: &[u8; 128]) -> Result<GPTPartitionEntry> {
    GPTPartitionEntry::decode(alloc, bytes)
}

/// Reports whether the entries are equal.
pub fn are_equal_entries(one: &GPTPartitionEntry, other: &GPTPartitionEntry) -> bool {
    one == other
}

/// Returns a clone of the entry.
pub fn copy_entry(entry: &GPTPartitionEntry) -> Result<GPTPartitionEntry> {
    entry.clone()
}

/// Returns a clone of the name.
pub fn copy_name(name: &PartitionName) -> Result<PartitionName> {
    name.clone()
}

/// Reports whether the names are equal.
pub fn are_equal_names(one: &PartitionName, other: &PartitionName) -> bool {
    one == other
}

/// Returns the name of this text.
pub fn name_of(alloc: Global, text: &str) -> Result<PartitionName> {
    PartitionName::new(alloc, text)
}

/// Returns the name of these units.
pub fn name_of_units(alloc: Global, units: &[u16; 36]) -> Result<PartitionName> {
    PartitionName::from_units(alloc, *units)
}

/// Returns a disk of these bytes.
pub fn holding(alloc: Global, bytes: &[u8]) -> Result<MemoryDisk> {
    MemoryDisk::new(alloc, bytes.to_vec(alloc)?)
}

/// Returns a disk of these bytes that fails after this number of calls.
pub fn fused(alloc: Global, bytes: &[u8], calls: u64) -> Result<MemoryDisk> {
    MemoryDisk::with_fuse(alloc, bytes.to_vec(alloc)?, calls)
}

/// Syncs the disk.
pub fn store<D: Disk>(disk: &mut D) -> Result<()> {
    disk.sync()?;
    Ok(())
}

/// Returns the disk that a crash leaves. `fates` says what becomes of the pending writes.
pub fn stopped(disk: MemoryDisk, fates: &[Fate]) -> Result<MemoryDisk> {
    disk.stop(fates)
}

/// Returns the bytes of the disk.
pub fn bytes_of(alloc: Global, disk: &MemoryDisk) -> Result<Vec<u8>> {
    Ok(disk.bytes().to_vec(alloc)?)
}

/// Reports whether these are the bytes of the disk.
pub fn has_bytes(disk: &MemoryDisk, bytes: &[u8]) -> bool {
    disk.bytes() == bytes
}
