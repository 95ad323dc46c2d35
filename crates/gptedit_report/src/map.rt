//! Draws a map of a disk: its regions in the order of sectors, each at least one cell wide.

use crate::columns::{Column, print_columns, push_cell};
use crate::map::regions::{Owner, Region, TableDisk};
use crate::map::widths::{CELLS, widths_of};
use crate::texts::NameText;
use gptedit_values::{ByteCount, ShellWord};
use gptman::{BothCopies, GPT};
use std::alloc::{AllocError, Global};
use std::io;
use std::io::Write;

mod regions;
mod widths;

// The columns of the legend. The first one has the character of the map.
const COLUMNS: [Column; 6] = [
    Column::Left("", 1),
    Column::Right("Start", 6),
    Column::Right("End", 6),
    Column::Right("Size", 7),
    Column::Left("Region", 0),
    Column::Left("Name", 0),
];

// The last letter; `a` follows it.
const LAST_LETTER: u8 = b'Z';

/// Prints a map of a disk of `size` bytes: its cells in lines of 64, an empty line, and a legend with a line for each
/// region. If regions overlap or are not within the disk, a line says so instead.
///
/// Returns the error of `out`, or `OutOfMemory`.
pub fn print_map<W: Write>(
    out: &mut W,
    alloc: Global,
    image: &str,
    size: u64,
    table: &GPT,
    copies: &BothCopies,
) -> io::Result<()> {
    let disk = TableDisk::new(size, table, copies);
    let taken = disk.taken(alloc)?;
    if let Some(fault) = disk.fault(&taken) {
        let image = ShellWord(image);
        return writeln!(out, "no map: {fault}; see `gptedit check {image}`");
    }
    let regions = disk.regions(alloc, &taken)?;
    let marks = marks_of(alloc, &regions)?;
    print_cells(out, &cells_of(alloc, &regions, &marks)?)?;
    out.write_all(b"\n")?;
    let rows = rows_of(alloc, &regions, &marks, table.sector_size)?;
    print_columns(out, alloc, COLUMNS.as_slice(), &rows)
}

// Returns the character of each region. A partition has the digit of its number, or the next letter if that is above 9.
fn marks_of(alloc: Global, regions: &[Region<'_>]) -> Result<Vec<char>, AllocError> {
    let mut marks = Vec::with_capacity(alloc, regions.len())?;
    let mut letter = LAST_LETTER;
    for region in regions {
        let mark = match region.owner {
            Owner::Table(_) => '#',
            Owner::Free => '.',
            Owner::Unusable => '-',
            Owner::Partition(number, _) => match char::from_digit(number, 10) {
                Some(digit) => digit,
                None => {
                    letter = letter_after(letter);
                    char::from(letter)
                }
            },
        };
        marks.push(mark)?;
    }
    Ok(marks)
}

// Returns the letter after this one: from `a` to `z`, then from `A` to `Z`, and then again.
fn letter_after(letter: u8) -> u8 {
    match letter {
        b'z' => b'A',
        LAST_LETTER => b'a',
        _ => letter.wrapping_add(1),
    }
}

// Returns the cells of the map.
fn cells_of(alloc: Global, regions: &[Region<'_>], marks: &[char]) -> Result<String, AllocError> {
    let mut lengths = Vec::with_capacity(alloc, regions.len())?;
    for region in regions {
        lengths.push(region.end.saturating_sub(region.first))?;
    }
    let widths = widths_of(alloc, &lengths)?;
    let mut cells = String::new(alloc);
    for (mark, width) in marks.iter().zip(widths.iter()) {
        for _ in 0..*width {
            cells.push(*mark)?;
        }
    }
    Ok(cells)
}

// Prints cells in lines.
fn print_cells<W: Write>(out: &mut W, cells: &str) -> io::Result<()> {
    for line in cells.as_bytes().chunks(CELLS) {
        out.write_all(b"[")?;
        out.write_all(line)?;
        out.write_all(b"]\n")?;
    }
    Ok(())
}

// Returns the lines of the legend.
fn rows_of(
    alloc: Global,
    regions: &[Region<'_>],
    marks: &[char],
    sector_size: u64,
) -> Result<Vec<Vec<String>>, AllocError> {
    let mut rows = Vec::with_capacity(alloc, regions.len())?;
    for (region, mark) in regions.iter().zip(marks.iter()) {
        rows.push(row_of(alloc, region, *mark, sector_size)?)?;
    }
    Ok(rows)
}

// Returns the cells of a line of the legend.
fn row_of(
    alloc: Global,
    region: &Region<'_>,
    mark: char,
    sector_size: u64,
) -> Result<Vec<String>, AllocError> {
    let Region { first, end, owner } = *region;
    let size = end.saturating_sub(first).saturating_mul(sector_size);
    let mut row = Vec::with_capacity(alloc, COLUMNS.len())?;
    push_cell(alloc, &mut row, &mark)?;
    push_cell(alloc, &mut row, &first)?;
    push_cell(alloc, &mut row, &end.saturating_sub(1))?;
    push_cell(alloc, &mut row, &ByteCount(size))?;
    push_cell(alloc, &mut row, &owner)?;
    if let Owner::Partition(_, entry) = owner {
        push_cell(alloc, &mut row, &NameText(&entry.partition_name))?;
    }
    Ok(row)
}
