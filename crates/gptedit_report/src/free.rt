//! Prints free ranges.

use crate::columns::{Column, print_columns, push_cell};
use crate::json::free_values;
use gptedit_values::ByteCount;
use serde_json::Value;
use std::alloc::{AllocError, Global};
use std::io;
use std::io::Write;

// The columns of a free range.
const COLUMNS: [Column; 4] = [
    Column::Right("Start", 6),
    Column::Right("End", 6),
    Column::Right("Sectors", 0),
    Column::Right("Size", 7),
];

/// Free sectors between two others.
#[derive(Clone, Copy)]
pub struct FreeRange {
    /// The first sector.
    pub start: u64,
    /// The number of sectors.
    pub length: u64,
}

/// Prints free ranges, one line each under headings: first and last sector, length in sectors, and size. If there is
/// none, a line says so.
///
/// Returns the error of `out`, or `OutOfMemory`.
pub fn print_free<W: Write>(
    out: &mut W,
    alloc: Global,
    sector_size: u64,
    ranges: &[FreeRange],
) -> io::Result<()> {
    if ranges.is_empty() {
        return out.write_all(b"no free sectors\n");
    }
    let mut rows = Vec::with_capacity(alloc, ranges.len())?;
    for range in ranges {
        rows.push(row_of(alloc, sector_size, range)?)?;
    }
    print_columns(out, alloc, COLUMNS.as_slice(), &rows)
}

// Returns the cells of a range.
fn row_of(alloc: Global, sector_size: u64, range: &FreeRange) -> Result<Vec<String>, AllocError> {
    let end = range.start.saturating_add(range.length.saturating_sub(1));
    let size = ByteCount(range.length.saturating_mul(sector_size));
    let mut row = Vec::with_capacity(alloc, COLUMNS.len())?;
    push_cell(alloc, &mut row, &range.start)?;
    push_cell(alloc, &mut row, &end)?;
    push_cell(alloc, &mut row, &range.length)?;
    push_cell(alloc, &mut row, &size)?;
    Ok(row)
}

/// Returns free ranges as JSON: a list of `start_sectors` and `size_sectors`.
pub fn free_json(alloc: Global, ranges: &[FreeRange]) -> Result<String, AllocError> {
    Value::Array(free_values(alloc, ranges)?).to_string_pretty(alloc)
}
