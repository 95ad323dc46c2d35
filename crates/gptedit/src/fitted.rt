//! Compares a table with the length of its disk.

use crate::failure::Failure;
use gptedit_look::Look;
use gptedit_report::Edges;
use gptman::GPT;

/// Reports whether the disk has the length of the table: the backup header is in its last sector.
pub fn ends_with_disk(table: &GPT, look: &Look) -> bool {
    let last = last_sector(table, look.size);
    table.header.primary_lba.max(table.header.backup_lba) == last
}

// Returns the last whole sector of a disk of `size` bytes.
fn last_sector(table: &GPT, size: u64) -> u64 {
    size.checked_div(table.sector_size)
        .unwrap_or(0)
        .saturating_sub(1)
}

/// Returns a table with the usable sectors, and the sectors of the headers, that it gets when it is fitted to a disk of
/// `size` bytes.
pub fn fit_bounds(table: &GPT, size: u64) -> Result<GPT, Failure> {
    let mut fitted = copy_of(table)?;
    let last = last_sector(table, size);
    if table.is_primary() {
        fitted.header.backup_lba = last;
    } else {
        fitted.header.primary_lba = last;
    }
    let edges = Edges::of(table, size);
    if edges.first < edges.least || edges.most < edges.first {
        fitted.header.first_usable_lba = edges.least;
    }
    fitted.header.last_usable_lba = edges.most;
    Ok(fitted)
}

/// Returns a copy of a table.
pub fn copy_of(table: &GPT) -> Result<GPT, Failure> {
    match table.clone() {
        Ok(table) => Ok(table),
        Err(_) => Err(Failure::OutOfMemory),
    }
}
