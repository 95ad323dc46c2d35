//! Calls of the library on tables of many shapes, each made once with ample memory.

use crate::readings::have_wrong_checksums;
use gptman::{Edit, GPT, MemoryDisk, Result};
use std::alloc::Global;
use test_fixtures::calls::{
    apply, are_equal, copy, find, first_place, free_sectors, is_first, last_place, maximum_size,
    new_on, optimal_place, read_entry,
};
use test_fixtures::shape::Shape;
use test_fixtures::tables::{are_those_of, commit, complement, partition, read, write, zero_disk};

/// Reports whether each call has the right result, on a disk with such a table.
pub fn is_right(alloc: Global, shape: &Shape) -> Result<bool> {
    let mut disk = zero_disk(alloc, shape.bytes())?;
    let table = shape.write_to(alloc, &mut disk)?;
    are_right(alloc, shape, &mut disk, &table)
}

fn are_right(alloc: Global, shape: &Shape, disk: &mut MemoryDisk, table: &GPT) -> Result<bool> {
    Ok(
        has_all_entries(alloc, shape, table)?
            && are_readings_right(alloc, shape, disk, table)?
            && are_changes_right(alloc, shape, disk, table)?,
    )
}

fn are_readings_right(
    alloc: Global,
    shape: &Shape,
    disk: &mut MemoryDisk,
    table: &GPT,
) -> Result<bool> {
    Ok(
        is_read(alloc, shape, disk, table)?
            && are_parts_read(alloc, shape, disk, table)?
            && is_backup_read(alloc, shape, disk)?
            && is_neither_read(alloc, shape, disk)?,
    )
}

fn are_changes_right(
    alloc: Global,
    shape: &Shape,
    disk: &mut MemoryDisk,
    table: &GPT,
) -> Result<bool> {
    Ok(
        are_places_found(shape, copy(table)?)?
            && are_edits_made(alloc, shape, copy(table)?)?
            && are_edits_written(alloc, shape, disk, copy(table)?)?
            && is_made_anew(alloc, shape, disk)?,
    )
}

fn has_all_entries(alloc: Global, shape: &Shape, table: &GPT) -> Result<bool> {
    Ok(are_those_of(&shape.all_entries(alloc)?, table))
}

// Reading the table returns it, also if the sector size is detected.
fn is_read(alloc: Global, shape: &Shape, disk: &mut MemoryDisk, table: &GPT) -> Result<bool> {
    let is_read = table.is_primary() && are_equal(&read(alloc, disk, shape.size())?, table);
    if shape.sector_size != 512 && shape.sector_size != 4096 {
        return Ok(is_read);
    }
    Ok(is_read && are_equal(&find(alloc, disk)?, table))
}

// Reads the first entry separately, and the list of all.
fn are_parts_read(
    alloc: Global,
    shape: &Shape,
    disk: &mut MemoryDisk,
    table: &GPT,
) -> Result<bool> {
    let first = read_entry(alloc, disk, shape.size().saturating_mul(2))?;
    let entries = table.header.read_partitions(alloc, disk, shape.size())?;
    Ok(is_first(&first, table) && are_those_of(&entries, table))
}

// Returns the offset of a byte in each header.
fn in_headers(shape: &Shape, disk: &MemoryDisk) -> [usize; 2] {
    let size = shape.size() as usize;
    let backup = disk.bytes().len().saturating_sub(size);
    [size.saturating_add(24), backup.saturating_add(24)]
}

fn is_backup_read(alloc: Global, shape: &Shape, disk: &MemoryDisk) -> Result<bool> {
    let table = read_damaged(alloc, shape, disk, &in_headers(shape, disk)[..1])?;
    Ok(table.is_backup() && has_all_entries(alloc, shape, &table)?)
}

fn is_neither_read(alloc: Global, shape: &Shape, disk: &MemoryDisk) -> Result<bool> {
    match read_damaged(alloc, shape, disk, &in_headers(shape, disk)) {
        Ok(_) => Ok(false),
        Err(error) => Ok(have_wrong_checksums(&error)),
    }
}

// Reads the table of the disk with these bytes complemented.
fn read_damaged(alloc: Global, shape: &Shape, disk: &MemoryDisk, places: &[usize]) -> Result<GPT> {
    let mut image = disk.bytes().to_vec(alloc)?;
    complement(&mut image, places);
    read(alloc, &mut MemoryDisk::new(alloc, image)?, shape.size())
}

// Reports whether the free ranges and places with alignment 1 are right.
fn are_places_found(shape: &Shape, table: GPT) -> Result<bool> {
    let mut table = table;
    table.align = 1;
    let (gap, last) = (shape.gap(), shape.last().saturating_sub(1));
    let are_places = first_place(&table, 2)? == Some(gap)
        && last_place(&table, 2)? == Some(last)
        && optimal_place(&table, 2)? == Some(gap);
    Ok(are_places && are_slots(shape, &table)? && maximum_size(&table)? == 10)
}

// There is one free sector between two used ones, and ten at the end.
fn are_slots(shape: &Shape, table: &GPT) -> Result<bool> {
    let slots = free_sectors(table)?;
    Ok(slots.len() == shape.used as usize && slots.last() == Some(&(shape.gap(), 10)))
}

// Returns the edit that puts an entry in the last two sectors, which are free, under the last number.
fn put_at_end(alloc: Global, shape: &Shape) -> Result<Edit> {
    let (from, to) = (shape.last().saturating_sub(1), shape.last());
    let entry = partition(alloc, "Bar", [9; 16], from, to)?;
    Ok(Edit::Put(shape.entries, entry))
}

// Applies each edit in memory, the last three as a list.
fn are_edits_made(alloc: Global, shape: &Shape, table: GPT) -> Result<bool> {
    let mut table = table;
    apply(&mut table, put_at_end(alloc, shape)?)?;
    let is_put = table.find_at_sector(shape.last()) == Some(shape.entries);
    let edits = [
        Edit::Remove(shape.entries),
        Edit::DiskGuid([1; 16]),
        Edit::SortEntries,
    ];
    table.apply_all(&edits)?;
    Ok(is_put && is_sorted(shape, &table) && table.header.disk_guid == [1; 16])
}

// Reports whether the used entries are in the order of their sectors.
fn is_sorted(shape: &Shape, table: &GPT) -> bool {
    let mut sector = shape.first();
    for (_, entry) in table.iter() {
        if entry.is_used() {
            if entry.starting_lba != sector {
                return false;
            }
            sector = sector.saturating_add(2);
        }
    }
    sector == shape.gap().saturating_add(1)
}

// Writes a new entry after the used ones, then sorts.
fn are_edits_written(
    alloc: Global,
    shape: &Shape,
    disk: &mut MemoryDisk,
    table: GPT,
) -> Result<bool> {
    let mut table = table;
    let edits = vec![in alloc; put_at_end(alloc, shape)?, Edit::SortEntries]?;
    let progress = commit(&mut table, disk, edits)?;
    let is_done = progress.done == 2 && progress.fault.is_none();
    Ok(is_done && is_sorted_with_new(shape, &read(alloc, disk, shape.size())?))
}

// Reports whether the new entry is after the used ones, and all are sorted.
fn is_sorted_with_new(shape: &Shape, table: &GPT) -> bool {
    table.find_at_sector(shape.last()) == Some(shape.used.saturating_add(1))
        && table.find_at_sector(shape.first()) == Some(1)
}

// Writes a new table, which has 128 unused entries.
fn is_made_anew(alloc: Global, shape: &Shape, disk: &mut MemoryDisk) -> Result<bool> {
    let mut table = new_on(alloc, disk, shape.size())?;
    write(&mut table, disk)?;
    let read = read(alloc, disk, shape.size())?;
    Ok(is_unused(alloc, shape, &read)? && read.header == table.header)
}

// Reports whether the table has 128 unused entries.
fn is_unused(alloc: Global, shape: &Shape, table: &GPT) -> Result<bool> {
    let unused = Shape {
        entries: 128,
        used: 0,
        ..*shape
    };
    has_all_entries(alloc, &unused, table)
}
