//! Tables and errors as text.

use gptman::{Error, GPT, GPTPartitionEntry, Result};
use std::alloc::Global;

/// Returns the text of an error.
pub fn text_of(alloc: Global, error: &Error) -> Result<String> {
    Ok(error.to_string(alloc)?)
}

/// Returns "ok", or the text of the error.
pub fn said<T>(alloc: Global, outcome: &Result<T>) -> Result<String> {
    match outcome {
        Ok(_) => Ok(String::from_str(alloc, "ok")?),
        Err(error) => text_of(alloc, error),
    }
}

// Appends a comma, and the number, name and sectors of the entry.
fn push_entry(
    alloc: Global,
    text: &mut String,
    number: u32,
    entry: &GPTPartitionEntry,
) -> Result<()> {
    let (name, start, end) = (&entry.partition_name, entry.starting_lba, entry.ending_lba);
    let more = format!(in alloc; ", {number} {name} {start}..{end}")?;
    Ok(text.push_str(more.as_str())?)
}

/// Returns the number, name and sectors of each used entry, with a comma before each.
pub fn used(alloc: Global, table: &GPT) -> Result<String> {
    let mut used = String::new(alloc);
    for (number, entry) in table.iter() {
        if entry.is_used() {
            push_entry(alloc, &mut used, number, entry)?;
        }
    }
    Ok(used)
}

/// Returns the table as text: the sector size; the sectors of its header, the other header and its entries; the usable
/// sectors; the alignment; and the used entries.
pub fn shown(alloc: Global, table: &GPT) -> Result<String> {
    let (size, align, header) = (table.sector_size, table.align, &table.header);
    let (own, other) = (header.primary_lba, header.backup_lba);
    let (entries, used) = (header.partition_entry_lba, used(alloc, table)?);
    let (first, last) = (header.first_usable_lba, header.last_usable_lba);
    let text = format!(in alloc;
        "{size} {own}/{other}/{entries} {first}..{last} align {align}{used}"
    );
    Ok(text?)
}

/// Returns the text of the table, or of the error.
pub fn text_of_result(alloc: Global, outcome: &Result<GPT>) -> Result<String> {
    match outcome {
        Ok(table) => shown(alloc, table),
        Err(error) => text_of(alloc, error),
    }
}
