//! Prints cells in columns under headings, each column as wide as its widest cell.

use std::alloc::{AllocError, Global};
use std::io::Write;
use std::{fmt, io};
use unicode_width::UnicodeWidthStr;

/// A column: its heading, and its minimum width. Its cells are aligned left or right.
///
/// Widths are in columns of a terminal, of which a character takes two, one or none.
#[derive(Clone, Copy)]
pub(crate) enum Column {
    Left(&'static str, usize),
    Right(&'static str, usize),
}

impl Column {
    fn heading(self) -> &'static str {
        match self {
            Column::Left(heading, _) | Column::Right(heading, _) => heading,
        }
    }

    // Returns the width.
    fn width(self) -> usize {
        match self {
            Column::Left(_, width) | Column::Right(_, width) => width,
        }
    }

    // Returns the column with a width of at least `least`.
    fn at_least(self, least: usize) -> Column {
        match self {
            Column::Left(heading, width) => Column::Left(heading, width.max(least)),
            Column::Right(heading, width) => Column::Right(heading, width.max(least)),
        }
    }
}

/// Prints the headings, then each row, one line each, without trailing spaces.
pub(crate) fn print_columns<W: Write>(
    out: &mut W,
    alloc: Global,
    columns: &[Column],
    rows: &[Vec<String>],
) -> io::Result<()> {
    let columns = widen(alloc, columns, rows)?;
    let mut headings = Vec::new(alloc);
    for column in columns.iter() {
        headings.push(String::from_str(alloc, column.heading())?)?;
    }
    print_row(out, alloc, &columns, &headings)?;
    for row in rows {
        print_row(out, alloc, &columns, row)?;
    }
    Ok(())
}

/// Adds a cell to a row.
pub(crate) fn push_cell<D: fmt::Display>(
    alloc: Global,
    row: &mut Vec<String>,
    cell: &D,
) -> Result<(), AllocError> {
    let text = format!(in alloc; "{cell}")?;
    row.push(text)?;
    Ok(())
}

/// Returns the sum of the widths of columns, each as wide as its heading and cells, with `gap` spaces after each.
pub(crate) fn total_width(
    alloc: Global,
    columns: &[Column],
    rows: &[Vec<String>],
    gap: usize,
) -> Result<usize, AllocError> {
    let mut total: usize = 0;
    for column in widen(alloc, columns, rows)?.iter() {
        total = total.saturating_add(column.width()).saturating_add(gap);
    }
    Ok(total)
}

/// Returns the width of a column with this heading and these cells.
pub(crate) fn widest(heading: &str, cells: &[String]) -> usize {
    let mut width = width_of(heading);
    for cell in cells {
        width = width.max(width_of(cell.as_str()));
    }
    width
}

// Returns the columns, each as wide as its heading and cells.
fn widen(
    alloc: Global,
    columns: &[Column],
    rows: &[Vec<String>],
) -> Result<Vec<Column>, AllocError> {
    let mut wide = Vec::with_capacity(alloc, columns.len())?;
    for column in columns {
        wide.push(column.at_least(width_of(column.heading())))?;
    }
    for row in rows {
        for (column, cell) in wide.iter_mut().zip(row.iter()) {
            *column = column.at_least(width_of(cell.as_str()));
        }
    }
    Ok(wide)
}

/// Returns the number of columns that a text takes in a terminal.
pub(crate) fn width_of(text: &str) -> usize {
    text.width()
}

fn print_row<W: Write>(
    out: &mut W,
    alloc: Global,
    columns: &[Column],
    cells: &[String],
) -> io::Result<()> {
    let mut line = String::new(alloc);
    for (column, cell) in columns.iter().zip(cells.iter()) {
        let space = column.width().saturating_sub(width_of(cell.as_str()));
        let none = "";
        match column {
            Column::Left(_, _) => write!(line, "{cell}{none:<space$}  ")?,
            Column::Right(_, _) => write!(line, "{none:<space$}{cell}  ")?,
        }
    }
    writeln!(out, "{}", line.trim_end())
}
