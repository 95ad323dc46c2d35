//! Disks of the tests, and the tables that they hold.

use gptedit_core::Outcome;
use gptman::{MemoryDisk, Result};
use std::alloc::Global;
use test_fixtures::{calls, samples, tables, texts};

/// The size in bytes of a disk of 200 sectors.
pub(crate) const LONGER: usize = 102_400;

/// Returns a disk of `size` bytes that holds a table for 100 sectors.
pub(crate) fn disk_of(alloc: Global, size: usize) -> Result<MemoryDisk> {
    let mut image = samples::image_of_new(alloc, 0)?;
    image.resize(size, 0)?;
    calls::holding(alloc, &image)
}

/// Returns the text of the table on the disk.
pub(crate) fn shown(alloc: Global, disk: &mut MemoryDisk) -> Result<String> {
    let table = tables::read(alloc, disk, 512)?;
    texts::shown(alloc, &table)
}

/// Returns the number of entries of the table on the disk.
pub(crate) fn count_entries(alloc: Global, disk: &mut MemoryDisk) -> Result<u32> {
    let table = tables::read(alloc, disk, 512)?;
    Ok(table.header.number_of_partition_entries)
}

/// Returns what happened to the table, in a word.
pub(crate) fn word_of(outcome: Outcome) -> &'static str {
    match outcome {
        Outcome::Changed { .. } => "changed",
        Outcome::Unchanged { .. } => "unchanged",
        Outcome::Refused { .. } => "refused",
    }
}
