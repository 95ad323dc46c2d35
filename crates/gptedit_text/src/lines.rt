//! Finds the line of an error in a TOML text.

use crate::error::{LayoutError, Section, TextPlace};
use std::str::Lines;

/// Returns the error with the line of its key, if the line is found.
pub fn with_line(error: LayoutError, text: &str) -> LayoutError {
    match error {
        LayoutError::Unknown { place, key } => LayoutError::Unknown {
            place: find_place(text, place.section, key.as_str()),
            key,
        },
        LayoutError::Fault { place, key, fault } => LayoutError::Fault {
            place: find_place(text, place.section, key),
            key,
            fault,
        },
        other => other,
    }
}

/// Returns the line and the column, from 1, of the byte at this index. A column counts characters.
pub fn position_of(text: &str, at: usize) -> (usize, usize) {
    let mut line = 1usize;
    let mut column = 1usize;
    for byte in text.bytes().take(at) {
        if byte == b'\n' {
            line = line.saturating_add(1);
            column = 1;
        } else if byte & 0xC0 != 0x80 {
            column = column.saturating_add(1);
        }
    }
    (line, column)
}

// Returns the line of the key, or else that of the header of its section.
fn find_place(text: &str, section: Section, key: &str) -> TextPlace {
    let line = match find_key(text, section, key) {
        Some(line) => Some(line),
        None => find_header(text, section),
    };
    TextPlace { line, section }
}

// The headers before a line: its section, and the number of partitions so far.
#[derive(Clone, Copy)]
struct Passed {
    section: Option<Section>,
    partitions: usize,
}

impl Passed {
    fn new() -> Passed {
        Passed {
            section: Some(Section::File),
            partitions: 0,
        }
    }

    // Passes a line, and reports whether it is a header.
    fn pass(&mut self, line: &str) -> bool {
        let Some(name) = line.strip_prefix('[') else {
            return false;
        };
        self.section = match name.strip_prefix('[') {
            Some(name) if is_closed(name, "partition") => {
                self.partitions = self.partitions.saturating_add(1);
                Some(Section::Partition(self.partitions))
            }
            None if is_closed(name, "disk") => Some(Section::Disk),
            _ => None,
        };
        true
    }
}

// Returns the line of the header of this section.
fn find_header(text: &str, section: Section) -> Option<usize> {
    let mut passed = Passed::new();
    for (index, line) in plain_lines(text).enumerate() {
        if passed.pass(line.trim()) && passed.section == Some(section) {
            return index.checked_add(1);
        }
    }
    None
}

// Returns the line that begins with the key in this section. A key of the whole text may also be in a header.
fn find_key(text: &str, section: Section, key: &str) -> Option<usize> {
    let mut passed = Passed::new();
    for (index, line) in plain_lines(text).enumerate() {
        let line = line.trim();
        let is_header = passed.pass(line);
        let is_there = match section {
            Section::File => is_header || passed.section == Some(section),
            _ => !is_header && passed.section == Some(section),
        };
        if is_there && begins_with(line, key) {
            return index.checked_add(1);
        }
    }
    None
}

// Returns no lines if the text has a multi-line string, since a line inside it could look like a header or a key.
fn plain_lines(text: &str) -> Lines<'_> {
    if text.contains("\"\"\"") || text.contains("'''") {
        "".lines()
    } else {
        text.trim_start_matches('\u{feff}').lines()
    }
}

// Reports whether the text is this name and a closing bracket.
fn is_closed(text: &str, name: &str) -> bool {
    match text.trim_start().strip_prefix(name) {
        Some(rest) => rest.trim_start().starts_with(']'),
        None => false,
    }
}

// Reports whether the line is the key, maybe in brackets, followed by `=`, `.` or `]`.
fn begins_with(line: &str, key: &str) -> bool {
    match line.trim_start_matches('[').trim_start().strip_prefix(key) {
        Some(rest) => rest.trim_start().starts_with(&['=', '.', ']']),
        None => false,
    }
}
