//! Prints a table in at most 80 columns.

use crate::columns::{Column, print_columns, push_cell, total_width, widest, width_of};
use crate::copies::CopiesState;
use crate::texts::{NameText, SizeText};
use gptedit_values::ByteCount;
use gptguid_core::{name_of, text_of};
use gptman::{GPT, GPTPartitionEntry};
use std::alloc::{AllocError, Global};
use std::io::Write;
use std::{fmt, io};

// The maximum width of a line, in columns of a terminal.
const LINE_WIDTH: usize = 80;

// The number of spaces between two columns.
const GAP: usize = 2;

// What replaces the end of a text that is too long.
const DOTS: &str = "..";

// The number of characters that are shown of the GUID of a type without a name.
const GUID_WIDTH: usize = 8;

// The columns that are never shortened.
const NUMBERS: [Column; 4] = [
    Column::Right("#", 2),
    Column::Right("Start", 6),
    Column::Right("End", 6),
    Column::Right("Size", 7),
];

// All columns.
const COLUMNS: [Column; 6] = [
    Column::Right("#", 2),
    Column::Right("Start", 6),
    Column::Right("End", 6),
    Column::Right("Size", 7),
    Column::Left("Type", 0),
    Column::Left("Name", 0),
];

/// Prints a table on a disk of `size` bytes and the state of its copies, without GUIDs and attributes: two lines about
/// the disk, and if there are partitions, an empty line and a line for each under headings. Starts and ends are in
/// sectors.
///
/// A line takes at most 80 columns of a terminal: a longer type or name ends with two dots. Returns the error of `out`,
/// or `OutOfMemory`.
pub fn show_short<W: Write>(
    out: &mut W,
    alloc: Global,
    size: u64,
    table: &GPT,
    state: &CopiesState<'_>,
) -> io::Result<()> {
    let sector_size = table.sector_size;
    let sectors = size.checked_div(sector_size).unwrap_or(0);
    let bytes = ByteCount(size);
    writeln!(out, "{sectors} sectors of {sector_size} bytes ({bytes})")?;
    writeln!(out, "{state}")?;
    let texts = texts_of(alloc, table)?;
    if texts.kinds.is_empty() {
        return Ok(());
    }
    let rows = rows_of(alloc, texts)?;
    out.write_all(b"\n")?;
    print_columns(out, alloc, COLUMNS.as_slice(), &rows)
}

// The texts of the used entries.
#[derive(Drop)]
struct Texts {
    // The cells of `NUMBERS`.
    numbers: Vec<Vec<String>>,
    kinds: Vec<String>,
    names: Vec<String>,
}

fn texts_of(alloc: Global, table: &GPT) -> Result<Texts, AllocError> {
    let mut numbers = Vec::new(alloc);
    let mut kinds = Vec::new(alloc);
    let mut names = Vec::new(alloc);
    for (number, entry) in table.iter() {
        if entry.is_used() {
            numbers.push(numbers_of(alloc, number, entry, table.sector_size)?)?;
            push_cell(alloc, &mut kinds, &KindText(&entry.partition_type_guid))?;
            push_cell(alloc, &mut names, &NameText(&entry.partition_name))?;
        }
    }
    Ok(Texts {
        numbers,
        kinds,
        names,
    })
}

// Returns the cells of an entry in `NUMBERS`.
fn numbers_of(
    alloc: Global,
    number: u32,
    entry: &GPTPartitionEntry,
    sector_size: u64,
) -> Result<Vec<String>, AllocError> {
    let mut row = Vec::with_capacity(alloc, COLUMNS.len())?;
    push_cell(alloc, &mut row, &number)?;
    push_cell(alloc, &mut row, &entry.starting_lba)?;
    push_cell(alloc, &mut row, &entry.ending_lba)?;
    push_cell(alloc, &mut row, &SizeText { entry, sector_size })?;
    Ok(row)
}

// Returns the cells of each row, of which the types and names fit into the line.
fn rows_of(alloc: Global, texts: Texts) -> Result<Vec<Vec<String>>, AllocError> {
    let Texts {
        numbers,
        kinds,
        names,
    } = texts;
    let mut rows = numbers;
    let used = total_width(alloc, NUMBERS.as_slice(), &rows, GAP)?;
    let room = LINE_WIDTH.saturating_sub(used).saturating_sub(GAP);
    let widths = share(widest("Type", &kinds), widest("Name", &names), room);
    for ((row, kind), name) in rows.iter_mut().zip(kinds.iter()).zip(names.iter()) {
        row.push(cut(alloc, kind.as_str(), widths.kind)?)?;
        row.push(cut(alloc, name.as_str(), widths.name)?)?;
    }
    Ok(rows)
}

// The widths of two columns.
#[derive(Clone, Copy)]
struct Widths {
    kind: usize,
    name: usize,
}

// Divides the room between two columns that need these widths. If both do not fit, a column that needs more than half
// of the room gets what the other leaves, and at least half.
fn share(kind: usize, name: usize, room: usize) -> Widths {
    let half = room / 2;
    let kind = kind.min(room.saturating_sub(name.min(half)));
    Widths {
        kind,
        name: name.min(room.saturating_sub(kind)),
    }
}

// Returns a text of at most this width. A longer text ends with dots.
fn cut(alloc: Global, text: &str, width: usize) -> Result<String, AllocError> {
    if width_of(text) <= width {
        return String::from_str(alloc, text);
    }
    let room = width.saturating_sub(DOTS.len());
    let mut short = String::new(alloc);
    for c in text.chars() {
        short.push(c)?;
        if width_of(short.as_str()) > room {
            short.pop();
            break;
        }
    }
    short.push_str(DOTS)?;
    Ok(short)
}

// The name of a type, or the first characters of its GUID in lower case.
#[derive(Clone, Copy)]
struct KindText<'a>(&'a [u8; 16]);

impl fmt::Display for KindText<'_> {
    fn fmt<W: fmt::Write>(&self, f: &mut fmt::Formatter<W>) -> fmt::Result {
        if let Some(name) = name_of(self.0) {
            return f.write_str(name);
        }
        let mut buffer = [0; 36];
        for c in text_of(self.0, &mut buffer).chars().take(GUID_WIDTH) {
            f.write_char(c.to_ascii_lowercase())?;
        }
        f.write_str(DOTS)
    }
}
