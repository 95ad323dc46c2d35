//! Tables as scripts of `sfdisk`.

use crate::sfdisk::{Attributes, NodePrefix};
use gptedit_values::Escaped;
use gptguid_core::text_of;
use gptman::sizes::DEFAULT_ENTRY_COUNT;
use gptman::{GPT, GPTPartitionEntry, PartitionName};
use std::alloc::{AllocError, Global};
use std::char::decode_utf16;
use std::fmt;

// The greatest length in bytes, in whole sectors, of a disk on which `sfdisk` aligns to sectors.
const SMALL: u64 = 4 << 20;

/// Returns a table on a disk of `size` bytes as a script, as `sfdisk --dump` prints it for the same path. Hidden
/// characters in the path are escaped.
///
/// [`find_losses`](crate::loss::find_losses) lists what it does not hold.
pub fn script_text(
    alloc: Global,
    image: &str,
    size: u64,
    table: &GPT,
) -> Result<String, AllocError> {
    let path = format!(in alloc; "{}", Escaped(image))?;
    let script = ScriptText {
        path: path.as_str(),
        size,
        table,
    };
    format!(in alloc; "{script}")
}

#[derive(Clone, Copy)]
struct ScriptText<'a> {
    path: &'a str,
    size: u64,
    table: &'a GPT,
}

impl fmt::Display for ScriptText<'_> {
    fn fmt<W: fmt::Write>(&self, f: &mut fmt::Formatter<W>) -> fmt::Result {
        self.write_headers(f)?;
        let prefix = NodePrefix::of(self.path);
        let mut is_first = true;
        for (number, entry) in self.table.iter() {
            if entry.is_used() {
                if is_first {
                    f.write_str("\n")?;
                    is_first = false;
                }
                writeln!(f, "{prefix}{number} : {}", EntryLine(entry))?;
            }
        }
        Ok(())
    }
}

impl ScriptText<'_> {
    fn write_headers<W: fmt::Write>(&self, f: &mut fmt::Formatter<W>) -> fmt::Result {
        let header = &self.table.header;
        f.write_str("label: gpt\n")?;
        writeln!(f, "label-id: {}", UpperGuid(&header.disk_guid))?;
        writeln!(f, "device: {}", self.path)?;
        f.write_str("unit: sectors\n")?;
        writeln!(f, "first-lba: {}", header.first_usable_lba)?;
        writeln!(f, "last-lba: {}", header.last_usable_lba)?;
        let count = header.number_of_partition_entries;
        if count != DEFAULT_ENTRY_COUNT {
            writeln!(f, "table-length: {count}")?;
        }
        let sector_size = self.table.sector_size;
        if self.is_small() {
            writeln!(f, "grain: {sector_size}")?;
        }
        writeln!(f, "sector-size: {sector_size}")
    }

    // Reports whether `sfdisk` aligns to sectors on this disk.
    fn is_small(&self) -> bool {
        self.size.saturating_sub(SMALL) < self.table.sector_size
    }
}

// The fields of an entry.
#[derive(Clone, Copy)]
struct EntryLine<'a>(&'a GPTPartitionEntry);

impl fmt::Display for EntryLine<'_> {
    fn fmt<W: fmt::Write>(&self, f: &mut fmt::Formatter<W>) -> fmt::Result {
        let entry = self.0;
        let sectors = entry.size().unwrap_or(0);
        write!(f, "start={:12}, size={sectors:12}", entry.starting_lba)?;
        write!(f, ", type={}", UpperGuid(&entry.partition_type_guid))?;
        write!(f, ", uuid={}", UpperGuid(&entry.unique_partition_guid))?;
        if !is_empty(&entry.partition_name) {
            write!(f, ", name=\"{}\"", ScriptName(&entry.partition_name))?;
        }
        if entry.attribute_bits != 0 {
            write!(f, ", attrs=\"{}\"", Attributes(entry.attribute_bits))?;
        }
        Ok(())
    }
}

fn is_empty(name: &PartitionName) -> bool {
    match name.units().iter().next() {
        Some(unit) => *unit == 0,
        None => true,
    }
}

// The text of a GUID in upper case.
#[derive(Clone, Copy)]
struct UpperGuid<'a>(&'a [u8; 16]);

impl fmt::Display for UpperGuid<'_> {
    fn fmt<W: fmt::Write>(&self, f: &mut fmt::Formatter<W>) -> fmt::Result {
        let mut buffer = [0; 36];
        f.write_str(text_of(self.0, &mut buffer))
    }
}

// A name in UTF-8, in which a byte is written as `\x22` if it is not printable ASCII, or has a meaning in a shell's
// quotes. An unpaired surrogate becomes the three bytes of its code.
#[derive(Clone, Copy)]
struct ScriptName<'a>(&'a PartitionName);

impl fmt::Display for ScriptName<'_> {
    fn fmt<W: fmt::Write>(&self, f: &mut fmt::Formatter<W>) -> fmt::Result {
        for read in decode_utf16(self.0.units().iter().copied()) {
            match read {
                Ok('\0') => return Ok(()),
                Ok(c) => write_char(f, c)?,
                Err(error) => write_surrogate(f, error.unpaired_surrogate())?,
            }
        }
        Ok(())
    }
}

fn write_char<W: fmt::Write>(f: &mut fmt::Formatter<W>, c: char) -> fmt::Result {
    if matches!(c, ' '..='~') && !matches!(c, '"' | '\\' | '`' | '$') {
        return f.write_char(c);
    }
    let mut buffer = [0; 4];
    for byte in c.encode_utf8(&mut buffer).bytes() {
        write!(f, "\\x{byte:02x}")?;
    }
    Ok(())
}

fn write_surrogate<W: fmt::Write>(f: &mut fmt::Formatter<W>, unit: u16) -> fmt::Result {
    let (middle, low) = (0x80 | (unit >> 6 & 0x3f), 0x80 | (unit & 0x3f));
    write!(f, "\\xed\\x{middle:02x}\\x{low:02x}")
}
