//! Writes layouts as TOML.

use crate::table_header::Header;
use gptedit_core::{Asked, RequestedLayout};
use gptedit_values::{AmountText, AttributeName, SizeText, TomlText, UnitsText};
use gptman::PartitionName;
use std::alloc::{AllocError, Global};
use std::fmt;

/// Writes a layout and its header as TOML, from which `read_layout` reads the same layout and header. A type is
/// written by its name, if it has one.
///
/// A name is written as its UTF-16 units if its text does not encode to the same 36 units, as with half a surrogate
/// pair or units after a zero. Hidden characters of a name are escaped.
pub fn write_layout(
    alloc: Global,
    layout: &RequestedLayout,
    header: &Header,
) -> Result<String, AllocError> {
    format!(in alloc; "{}", LayoutText { layout, header })
}

#[derive(Clone, Copy)]
struct LayoutText<'a> {
    layout: &'a RequestedLayout,
    header: &'a Header,
}

impl fmt::Display for LayoutText<'_> {
    fn fmt<W: fmt::Write>(&self, f: &mut fmt::Formatter<W>) -> fmt::Result {
        f.write_str("[disk]\n")?;
        if let Some(guid) = &self.layout.disk_guid {
            write_text(f, "guid", &GuidText(guid))?;
        }
        write_text(f, "align", &AmountText(self.layout.align))?;
        write_header(f, self.header)?;
        for asked in self.layout.asked.iter() {
            write_partition(f, asked)?;
        }
        Ok(())
    }
}

fn write_header<W: fmt::Write>(f: &mut fmt::Formatter<W>, header: &Header) -> fmt::Result {
    if let Some(size) = header.sector_size {
        writeln!(f, "sector-size = \"{size}B\"")?;
    }
    if let Some(count) = header.entries {
        writeln!(f, "entries = {count}")?;
    }
    if let Some(sector) = header.first_usable {
        writeln!(f, "first-usable = \"{sector}s\"")?;
    }
    if let Some(sector) = header.last_usable {
        writeln!(f, "last-usable = \"{sector}s\"")?;
    }
    Ok(())
}

// Writes the request for one entry.
fn write_partition<W: fmt::Write>(f: &mut fmt::Formatter<W>, asked: &Asked) -> fmt::Result {
    f.write_str("\n[[partition]]\n")?;
    if let Some(number) = asked.number {
        writeln!(f, "number = {number}")?;
    }
    if let Some(name) = &asked.name {
        write_name(f, name)?;
    }
    if let Some(guid) = &asked.type_guid {
        write_text(f, "type", &TypeText(guid))?;
    }
    if let Some(start) = asked.start {
        write_text(f, "start", &AmountText(start))?;
    }
    if let Some(size) = asked.size {
        write_text(f, "size", &SizeText(size))?;
    }
    if let Some(guid) = &asked.unique_guid {
        write_text(f, "guid", &GuidText(guid))?;
    }
    match asked.attributes {
        Some(bits) => write_attributes(f, bits),
        None => Ok(()),
    }
}

// Writes a key and a text in which no character has to be escaped.
fn write_text<W: fmt::Write, D: fmt::Display>(
    f: &mut fmt::Formatter<W>,
    key: &str,
    text: &D,
) -> fmt::Result {
    writeln!(f, "{key} = \"{text}\"")
}

fn write_name<W: fmt::Write>(f: &mut fmt::Formatter<W>, name: &PartitionName) -> fmt::Result {
    if has_whole_text(name) {
        writeln!(f, "name = {}", TomlText(name.as_str()))
    } else {
        write_text(f, "name-utf16", &UnitsText(name.units()))
    }
}

/// Reports whether the text of a name encodes to its 36 units. It does not after half a surrogate pair, or with units
/// after a zero.
pub fn has_whole_text(name: &PartitionName) -> bool {
    let mut units = name.units().iter();
    for unit in name.as_str().encode_utf16() {
        if unit == 0 || units.next() != Some(&unit) {
            return false;
        }
    }
    units.all(|unit| *unit == 0)
}

// Writes each attribute by its name, or by the number of its bit.
fn write_attributes<W: fmt::Write>(f: &mut fmt::Formatter<W>, bits: u64) -> fmt::Result {
    f.write_str("attributes = [")?;
    let mut comma = "";
    for bit in 0..64 {
        if bits >> bit & 1 == 1 {
            let name = AttributeName(bit);
            write!(f, "{comma}\"{name}\"")?;
            comma = ", ";
        }
    }
    f.write_str("]\n")
}

// The name of a type, or its GUID.
#[derive(Clone, Copy)]
struct TypeText<'a>(&'a [u8; 16]);

impl fmt::Display for TypeText<'_> {
    fn fmt<W: fmt::Write>(&self, f: &mut fmt::Formatter<W>) -> fmt::Result {
        match gptguid_core::name_of(self.0) {
            Some(name) => f.write_str(name),
            None => GuidText(self.0).fmt(f),
        }
    }
}

// The text of a GUID in lower case.
#[derive(Clone, Copy)]
struct GuidText<'a>(&'a [u8; 16]);

impl fmt::Display for GuidText<'_> {
    fn fmt<W: fmt::Write>(&self, f: &mut fmt::Formatter<W>) -> fmt::Result {
        let mut buffer = [0; 36];
        for c in gptguid_core::text_of(self.0, &mut buffer).chars() {
            f.write_char(c.to_ascii_lowercase())?;
        }
        Ok(())
    }
}
