//! Tables as JSON.

use crate::copies::CopiesState;
use crate::free::FreeRange;
use crate::members::Members;
use crate::sfdisk::{Attributes, NodePrefix};
use gptedit_values::is_hidden;
use gptman::sizes::DEFAULT_ENTRY_COUNT;
use gptman::{Error, GPT, GPTPartitionEntry};
use serde_json::Value;
use std::alloc::{AllocError, Global};
use std::fmt;

// The first code point that takes two UTF-16 units.
const PAIRS: u32 = 0x1_0000;

/// Returns a table as JSON: `partitiontable` as in `sfdisk --json`, and `gptman` with the copy that was read (`form`),
/// the state of both copies, the size of the disk in bytes, the alignment in sectors, and the free ranges.
pub fn table_json(
    alloc: Global,
    image: &str,
    size: u64,
    table: &GPT,
    state: &CopiesState<'_>,
    free: &[FreeRange],
) -> Result<String, AllocError> {
    let members = table_members(alloc, image, size, table, state, free)?;
    print_json(alloc, &members.into_value())
}

/// Returns `partitiontable` and `gptman`.
pub(crate) fn table_members(
    alloc: Global,
    image: &str,
    size: u64,
    table: &GPT,
    state: &CopiesState<'_>,
    free: &[FreeRange],
) -> Result<Members, AllocError> {
    let mut members = Members::new(alloc);
    members.put("partitiontable", standard_value(alloc, image, table)?)?;
    members.put("gptman", own_value(alloc, size, table, state, free)?)?;
    Ok(members)
}

// Returns the part that sfdisk also prints.
fn standard_value(alloc: Global, image: &str, table: &GPT) -> Result<Value, AllocError> {
    let mut members = Members::new(alloc);
    members.put_text("label", "gpt")?;
    members.put_guid("id", &table.header.disk_guid)?;
    members.put_text("device", image)?;
    members.put_text("unit", "sectors")?;
    members.put_number("firstlba", table.header.first_usable_lba)?;
    members.put_number("lastlba", table.header.last_usable_lba)?;
    members.put_number("sectorsize", table.sector_size)?;
    members.put_list("partitions", partition_values(alloc, image, table)?)?;
    let count = table.header.number_of_partition_entries;
    if count != DEFAULT_ENTRY_COUNT {
        members.put_text("table-length", format!(in alloc; "{count}")?.as_str())?;
    }
    Ok(members.into_value())
}

// Returns the used entries.
fn partition_values(alloc: Global, image: &str, table: &GPT) -> Result<Vec<Value>, AllocError> {
    let prefix = NodePrefix::of(image);
    let mut partitions = Vec::new(alloc);
    for (number, entry) in table.iter() {
        if entry.is_used() {
            let node = format!(in alloc; "{prefix}{number}")?;
            partitions.push(partition_value(alloc, node.as_str(), entry)?)?;
        }
    }
    Ok(partitions)
}

// Returns an entry. An empty name, or no attributes, are left out.
fn partition_value(
    alloc: Global,
    node: &str,
    entry: &GPTPartitionEntry,
) -> Result<Value, AllocError> {
    let mut members = Members::new(alloc);
    members.put_text("node", node)?;
    members.put_number("start", entry.starting_lba)?;
    members.put_number("size", entry.size().unwrap_or(0))?;
    members.put_guid("type", &entry.partition_type_guid)?;
    members.put_guid("uuid", &entry.unique_partition_guid)?;
    members.put_some_text("name", entry.partition_name.as_str())?;
    let attributes = format!(in alloc; "{}", Attributes(entry.attribute_bits))?;
    members.put_some_text("attrs", attributes.as_str())?;
    Ok(members.into_value())
}

// Returns the part that sfdisk does not print.
fn own_value(
    alloc: Global,
    size: u64,
    table: &GPT,
    state: &CopiesState<'_>,
    free: &[FreeRange],
) -> Result<Value, AllocError> {
    let mut members = Members::new(alloc);
    members.put_text("form", form_name(table))?;
    put_copies(&mut members, state)?;
    members.put_number("size_bytes", size)?;
    members.put_number("align_sectors", table.align)?;
    members.put_list("free", free_values(alloc, free)?)?;
    Ok(members.into_value())
}

/// Adds the state of each copy, good or the name of its fault, and whether both are one table.
pub(crate) fn put_copies(members: &mut Members, state: &CopiesState<'_>) -> Result<(), AllocError> {
    members.put_text("primary", copy_name(state.primary_fault()))?;
    members.put_text("backup", copy_name(state.backup_fault()))?;
    members.put("same", Value::Bool(state.is_good()))
}

// Returns the copy that was read.
fn form_name(table: &GPT) -> &'static str {
    if table.is_primary() {
        "primary"
    } else {
        "backup"
    }
}

// Returns the state of a copy: good, or the name of its fault.
fn copy_name(fault: Option<&Error>) -> &'static str {
    match fault {
        Some(fault) => fault.name(),
        None => "good",
    }
}

/// Returns free ranges as `start_sectors` and `size_sectors`.
pub(crate) fn free_values(alloc: Global, ranges: &[FreeRange]) -> Result<Vec<Value>, AllocError> {
    let mut values = Vec::with_capacity(alloc, ranges.len())?;
    for range in ranges {
        values.push(free_value(alloc, range)?)?;
    }
    Ok(values)
}

fn free_value(alloc: Global, range: &FreeRange) -> Result<Value, AllocError> {
    let mut members = Members::new(alloc);
    members.put_number("start_sectors", range.start)?;
    members.put_number("size_sectors", range.length)?;
    Ok(members.into_value())
}

/// Returns a value as JSON on several lines. Hidden characters in strings are escaped: a terminal shows them, and a
/// JSON reader reads the same strings.
pub fn print_json(alloc: Global, value: &Value) -> Result<String, AllocError> {
    let text = value.to_string_pretty(alloc)?;
    format!(in alloc; "{}", EscapedJson(text.as_str()))
}

// JSON in which the hidden characters from U+007F on are escaped, which the JSON writer does not escape. They occur
// only in strings.
#[derive(Clone, Copy)]
struct EscapedJson<'a>(&'a str);

impl fmt::Display for EscapedJson<'_> {
    fn fmt<W: fmt::Write>(&self, f: &mut fmt::Formatter<W>) -> fmt::Result {
        for c in self.0.chars() {
            if c >= '\u{7f}' && is_hidden(c) {
                write_json_escape(f, u32::from(c))?;
            } else {
                f.write_char(c)?;
            }
        }
        Ok(())
    }
}

// Writes a code point as JSON escapes of its UTF-16 units.
fn write_json_escape<W: fmt::Write>(f: &mut fmt::Formatter<W>, code: u32) -> fmt::Result {
    if code < PAIRS {
        return write!(f, "\\u{code:04x}");
    }
    let above = code - PAIRS;
    let (high, low) = (0xd800 + (above >> 10), 0xdc00 + (above & 0x3ff));
    write!(f, "\\u{high:04x}\\u{low:04x}")
}
