//! Tables and entries, and the calls that write them.
//!
//! Each call tests the preconditions of the library first, and returns `Overflow` if they do not hold.

use crate::calls::apply;
use crate::samples::disk_of;
use gptman::disk::long::LongDisk;
use gptman::{
    Disk, Edit, Error, GPT, GPTHeader, GPTPartitionEntry, MemoryDisk, PartitionName, Progress,
    Result,
};
use std::alloc::Global;

/// The GUID of each disk.
pub const DISK_GUID: [u8; 16] = [0xff; 16];

/// Returns a disk of `len` zero bytes.
pub fn zero_disk(alloc: Global, len: usize) -> Result<MemoryDisk> {
    disk_of(alloc, 0, len)
}

/// Returns a used entry with this name, unique GUID and place. Its type is 16 bytes 0a.
pub fn partition(
    alloc: Global,
    name: &str,
    unique_partition_guid: [u8; 16],
    starting_lba: u64,
    ending_lba: u64,
) -> Result<GPTPartitionEntry> {
    Ok(GPTPartitionEntry {
        partition_type_guid: [0x0a; 16],
        unique_partition_guid,
        starting_lba,
        ending_lba,
        attribute_bits: 0,
        partition_name: PartitionName::new(alloc, name)?,
    })
}

/// Returns a new table for 100 sectors of 512 bytes.
pub fn new_table(alloc: Global) -> Result<GPT> {
    GPT::new_from(alloc, &mut LongDisk::new(alloc, 51_200), 512, DISK_GUID)
}

/// Returns that table with these partitions, each given by number, name, first and last sector.
pub fn table_with(alloc: Global, partitions: &[(u8, &str, u64, u64)]) -> Result<GPT> {
    let mut table = new_table(alloc)?;
    for (number, name, from, to) in partitions {
        let entry = partition(alloc, name, [*number; 16], *from, *to)?;
        apply(&mut table, Edit::Put(u32::from(*number), entry))?;
    }
    Ok(table)
}

/// Returns that table with "Foo" in 34..43, "Bar" in 48..52, and under number 10 "Baz" in 44..47.
pub fn unsorted_table(alloc: Global) -> Result<GPT> {
    table_with(
        alloc,
        &[(1, "Foo", 34, 43), (2, "Bar", 48, 52), (10, "Baz", 44, 47)],
    )
}

/// Writes both copies of the table.
pub fn write<D: Disk>(table: &mut GPT, disk: &mut D) -> Result<GPTHeader> {
    if table.sector_size == 0 || !table.is_coherent() {
        return Err(Error::Overflow);
    }
    table.write_into(disk)
}

/// Applies the edits in order, and writes the table after each.
pub fn commit<D: Disk>(table: &mut GPT, disk: &mut D, edits: Vec<Edit>) -> Result<Progress> {
    if table.sector_size == 0 || !table.is_coherent() {
        return Err(Error::Overflow);
    }
    Ok(table.commit_all(disk, edits))
}

/// Writes the header and these entries as one copy.
pub fn write_copy<D: Disk>(
    header: &mut GPTHeader,
    disk: &mut D,
    sector_size: u64,
    entries: &[GPTPartitionEntry],
) -> Result<()> {
    let is_coherent = header.header_size == 92
        && (header.size_of_partition_entry == 128 || entries.is_empty())
        && entries.len() == header.number_of_partition_entries as usize;
    if sector_size == 0 || !is_coherent {
        return Err(Error::Overflow);
    }
    header.write_into(disk, sector_size, entries)
}

/// Reads the table on the disk.
pub fn read<D: Disk>(alloc: Global, disk: &mut D, sector_size: u64) -> Result<GPT> {
    if sector_size == 0 {
        return Err(Error::Overflow);
    }
    GPT::read_from(alloc, disk, sector_size)
}

/// Writes these bytes from byte `at` on. `Overflow` if they pass the end.
pub fn write_at<D: Disk>(disk: &mut D, at: u64, bytes: &[u8]) -> Result<()> {
    let len = disk.seek_end()?;
    disk.seek_start(at)?;
    if at > len || len - at < bytes.len() as u64 {
        return Err(Error::Overflow);
    }
    disk.write_all(bytes)?;
    Ok(())
}

/// Writes this table to a zero disk of 100 sectors of 512 bytes, and returns the bytes.
pub fn image_of(alloc: Global, table: &mut GPT) -> Result<Vec<u8>> {
    let mut disk = LongDisk::new(alloc, 51_200);
    write(table, &mut disk)?;
    disk.into_bytes()
}

/// Complements the byte at each of these places.
pub fn complement(bytes: &mut [u8], places: &[usize]) {
    for at in places {
        if let Some(byte) = bytes.get_mut(*at) {
            *byte = !*byte;
        }
    }
}

/// Reports whether these are the entries of the table.
pub fn are_those_of(entries: &[GPTPartitionEntry], table: &GPT) -> bool {
    let mut rest = entries.iter();
    for (_, entry) in table.iter() {
        if rest.next() != Some(entry) {
            return false;
        }
    }
    rest.next().is_none()
}

/// Reports whether both tables have the same entries.
pub fn have_same_entries(one: &GPT, other: &GPT) -> bool {
    one.iter().eq(other.iter())
}

/// Reports whether the entry of this number is used and has this name.
pub fn has_entry(table: &GPT, number: u32, name: &str) -> bool {
    for (at, entry) in table.iter() {
        if at == number {
            return entry.is_used() && entry.partition_name.as_str() == name;
        }
    }
    false
}
