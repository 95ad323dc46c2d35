//! Parts of a table as texts for people.

use gptedit_values::{ByteCount, EscapedChar, EscapedCode};
use gptguid_core::{name_of, text_of};
use gptman::{GPTPartitionEntry, PartitionName};
use std::char::decode_utf16;
use std::fmt;

/// A name as stored on the disk. Hidden characters and unpaired surrogates are written as `\u{..}`.
#[derive(Clone, Copy)]
pub(crate) struct NameText<'a>(pub(crate) &'a PartitionName);

impl fmt::Display for NameText<'_> {
    fn fmt<W: fmt::Write>(&self, f: &mut fmt::Formatter<W>) -> fmt::Result {
        for read in decode_utf16(self.0.units().iter().copied()) {
            match read {
                Ok('\0') => return Ok(()),
                Ok(c) => write!(f, "{}", EscapedChar(c))?,
                Err(error) => write_surrogate(f, error.unpaired_surrogate())?,
            }
        }
        Ok(())
    }
}

/// A name in quotes, as `NameText` writes it, with a backslash before each quote and backslash.
#[derive(Clone, Copy)]
pub(crate) struct QuotedName<'a>(pub(crate) &'a PartitionName);

impl fmt::Display for QuotedName<'_> {
    fn fmt<W: fmt::Write>(&self, f: &mut fmt::Formatter<W>) -> fmt::Result {
        f.write_char('"')?;
        for read in decode_utf16(self.0.units().iter().copied()) {
            match read {
                Ok('\0') => break,
                Ok(c) => write_quoted_char(f, c)?,
                Err(error) => write_surrogate(f, error.unpaired_surrogate())?,
            }
        }
        f.write_char('"')
    }
}

/// A text in quotes. Hidden characters are written as `\u{..}`, and a backslash before each quote and backslash.
#[derive(Clone, Copy)]
pub(crate) struct QuotedText<'a>(pub(crate) &'a str);

impl fmt::Display for QuotedText<'_> {
    fn fmt<W: fmt::Write>(&self, f: &mut fmt::Formatter<W>) -> fmt::Result {
        f.write_char('"')?;
        for c in self.0.chars() {
            write_quoted_char(f, c)?;
        }
        f.write_char('"')
    }
}

// Writes a character of a text in quotes.
fn write_quoted_char<W: fmt::Write>(f: &mut fmt::Formatter<W>, c: char) -> fmt::Result {
    match c {
        '"' => f.write_str("\\\""),
        '\\' => f.write_str("\\\\"),
        c => write!(f, "{}", EscapedChar(c)),
    }
}

// Writes an unpaired surrogate.
fn write_surrogate<W: fmt::Write>(f: &mut fmt::Formatter<W>, unit: u16) -> fmt::Result {
    write!(f, "{}", EscapedCode(u32::from(unit)))
}

/// The text of a GUID, in lower case.
#[derive(Clone, Copy)]
pub(crate) struct GuidText<'a>(pub(crate) &'a [u8; 16]);

impl fmt::Display for GuidText<'_> {
    fn fmt<W: fmt::Write>(&self, f: &mut fmt::Formatter<W>) -> fmt::Result {
        let mut buffer = [0; 36];
        for c in text_of(self.0, &mut buffer).chars() {
            f.write_char(c.to_ascii_lowercase())?;
        }
        Ok(())
    }
}

/// The name of a type, or its GUID if it has none.
#[derive(Clone, Copy)]
pub(crate) struct TypeText<'a>(pub(crate) &'a [u8; 16]);

impl fmt::Display for TypeText<'_> {
    fn fmt<W: fmt::Write>(&self, f: &mut fmt::Formatter<W>) -> fmt::Result {
        match name_of(self.0) {
            Some(name) => f.write_str(name),
            None => write!(f, "{}", GuidText(self.0)),
        }
    }
}

/// The size of a partition for people, or nothing if it ends before it starts.
#[derive(Clone, Copy)]
pub(crate) struct SizeText<'a> {
    pub(crate) entry: &'a GPTPartitionEntry,
    pub(crate) sector_size: u64,
}

impl fmt::Display for SizeText<'_> {
    fn fmt<W: fmt::Write>(&self, f: &mut fmt::Formatter<W>) -> fmt::Result {
        match self.entry.size() {
            Ok(sectors) => write!(f, "{}", ByteCount(sectors.saturating_mul(self.sector_size))),
            Err(_) => Ok(()),
        }
    }
}

/// The first and last sector of an entry, and its size.
#[derive(Clone, Copy)]
pub(crate) struct SectorsText<'a> {
    pub(crate) entry: &'a GPTPartitionEntry,
    pub(crate) sector_size: u64,
}

impl fmt::Display for SectorsText<'_> {
    fn fmt<W: fmt::Write>(&self, f: &mut fmt::Formatter<W>) -> fmt::Result {
        let entry = self.entry;
        let size = SizeText {
            entry,
            sector_size: self.sector_size,
        };
        write!(f, "{}..{} {size}", entry.starting_lba, entry.ending_lba)
    }
}

/// An entry on one line: its sectors, its size, its type, and its name in quotes.
#[derive(Clone, Copy)]
pub(crate) struct EntryText<'a> {
    pub(crate) entry: &'a GPTPartitionEntry,
    pub(crate) sector_size: u64,
}

impl fmt::Display for EntryText<'_> {
    fn fmt<W: fmt::Write>(&self, f: &mut fmt::Formatter<W>) -> fmt::Result {
        let entry = self.entry;
        let sectors = SectorsText {
            entry,
            sector_size: self.sector_size,
        };
        let (kind, name) = (&entry.partition_type_guid, &entry.partition_name);
        write!(f, "{sectors} {} {}", TypeText(kind), QuotedName(name))
    }
}
