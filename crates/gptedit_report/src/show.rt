//! Prints a table for people.

use crate::columns::{Column, print_columns, push_cell};
use crate::copies::CopiesState;
use crate::texts::{GuidText, NameText, SizeText, TypeText};
use gptedit_values::{AttributeNames, ByteCount, Escaped};
use gptman::{GPT, GPTPartitionEntry};
use std::alloc::{AllocError, Global};
use std::io;
use std::io::Write;

// The columns of a partition.
const COLUMNS: [Column; 8] = [
    Column::Right("#", 2),
    Column::Right("Start", 6),
    Column::Right("End", 6),
    Column::Right("Size", 7),
    Column::Left("Type", 0),
    Column::Left("Name", 0),
    Column::Left("GUID", 0),
    Column::Left("Attributes", 0),
];

/// Prints a table on a disk of `size` bytes and the state of its copies: two lines about the disk, and if there are
/// partitions, an empty line and a line for each under headings. Starts and ends are in sectors.
///
/// Returns the error of `out`, or `OutOfMemory`.
pub fn show_table<W: Write>(
    out: &mut W,
    alloc: Global,
    image: &str,
    size: u64,
    table: &GPT,
    state: &CopiesState<'_>,
) -> io::Result<()> {
    print_disk(out, image, size, table)?;
    print_usable(out, table, state)?;
    let rows = rows_of(alloc, table)?;
    if rows.is_empty() {
        return Ok(());
    }
    out.write_all(b"\n")?;
    print_columns(out, alloc, COLUMNS.as_slice(), &rows)
}

// Prints the size of the disk and its GUID.
fn print_disk<W: Write>(out: &mut W, image: &str, size: u64, table: &GPT) -> io::Result<()> {
    let sector_size = table.sector_size;
    let sectors = size.checked_div(sector_size).unwrap_or(0);
    let image = Escaped(image);
    write!(out, "{image}: {sectors} sectors of {sector_size} bytes")?;
    writeln!(
        out,
        " ({}), GUID {}",
        ByteCount(size),
        GuidText(&table.header.disk_guid)
    )
}

// Prints the usable sectors, the number of entries, and the state of the copies.
fn print_usable<W: Write>(out: &mut W, table: &GPT, state: &CopiesState<'_>) -> io::Result<()> {
    let (first, last) = (table.header.first_usable_lba, table.header.last_usable_lba);
    let count = table.header.number_of_partition_entries;
    writeln!(
        out,
        "usable sectors {first}..{last}, {count} entries; {state}"
    )
}

// Returns the cells of each used entry.
fn rows_of(alloc: Global, table: &GPT) -> Result<Vec<Vec<String>>, AllocError> {
    let mut rows = Vec::new(alloc);
    for (number, entry) in table.iter() {
        if entry.is_used() {
            rows.push(row_of(alloc, number, entry, table.sector_size)?)?;
        }
    }
    Ok(rows)
}

// Returns the cells of an entry.
fn row_of(
    alloc: Global,
    number: u32,
    entry: &GPTPartitionEntry,
    sector_size: u64,
) -> Result<Vec<String>, AllocError> {
    let mut row = Vec::with_capacity(alloc, COLUMNS.len())?;
    push_cell(alloc, &mut row, &number)?;
    push_cell(alloc, &mut row, &entry.starting_lba)?;
    push_cell(alloc, &mut row, &entry.ending_lba)?;
    push_cell(alloc, &mut row, &SizeText { entry, sector_size })?;
    push_cell(alloc, &mut row, &TypeText(&entry.partition_type_guid))?;
    push_cell(alloc, &mut row, &NameText(&entry.partition_name))?;
    push_cell(alloc, &mut row, &GuidText(&entry.unique_partition_guid))?;
    push_cell(alloc, &mut row, &AttributeNames(entry.attribute_bits))?;
    Ok(row)
}
