//! The changes of a table as JSON.

use crate::compare::{EntryChange, compare};
use crate::copies::CopiesState;
use crate::free::FreeRange;
use crate::json::{print_json, table_members};
use crate::matched::Matched;
use crate::members::Members;
use crate::query::{Partition, partition_value};
use gptedit_core::{EntryMatch, MatchedBy};
use gptman::{GPT, GPTHeader};
use serde_json::Value;
use std::alloc::{AllocError, Global};

/// A change of a disk that was made, or in a dry run would be.
#[derive(Clone, Copy)]
pub struct TableChange<'a> {
    /// The table before the change, if one was read.
    pub was: Option<&'a GPT>,
    /// The table after the change, unless it is cleared.
    pub next: Option<&'a GPT>,
    /// The entries that a layout means.
    pub matches: &'a [EntryMatch],
    /// Whether anything is written, the MBR included.
    pub is_needed: bool,
    /// Whether it is a dry run.
    pub is_dry: bool,
}

/// Returns the table after a change as JSON, as [`table_json`](crate::table_json) does, and the change: `changed`,
/// `dry_run`, `header` and `changes`.
pub fn changed_json(
    alloc: Global,
    image: &str,
    size: u64,
    table: &GPT,
    state: &CopiesState<'_>,
    free: &[FreeRange],
    change: TableChange<'_>,
) -> Result<String, AllocError> {
    let mut members = table_members(alloc, image, size, table, state, free)?;
    put_change(alloc, &mut members, change)?;
    print_json(alloc, &members.into_value())
}

/// Adds a change: `changed`, whether anything is written or in a dry run would be; `dry_run`; `header`, the fields of
/// the header before and after if they differ, else null; and `changes`, an object for each partition that differs, with how
/// the layout means it (`matched`) or null.
pub(crate) fn put_change(
    alloc: Global,
    members: &mut Members,
    change: TableChange<'_>,
) -> Result<(), AllocError> {
    members.put("changed", Value::Bool(change.is_needed))?;
    members.put("dry_run", Value::Bool(change.is_dry))?;
    members.put("header", header_change(alloc, change)?)?;
    members.put_list("changes", change_values(alloc, change)?)
}

// Returns the fields of the header before and after, or null if they are equal.
fn header_change(alloc: Global, change: TableChange<'_>) -> Result<Value, AllocError> {
    let (was, next) = (change.was.map(fields_of), change.next.map(fields_of));
    if was == next {
        return Ok(Value::Null);
    }
    let mut members = Members::new(alloc);
    members.put("before", header_value(alloc, was)?)?;
    members.put("after", header_value(alloc, next)?)?;
    Ok(members.into_value())
}

// The fields of a header that a command can change.
#[derive(Clone, Copy, PartialEq, Eq)]
struct HeaderFields {
    disk_guid: [u8; 16],
    first_usable: u64,
    last_usable: u64,
    entries: u32,
}

fn fields_of(table: &GPT) -> HeaderFields {
    let GPTHeader {
        disk_guid,
        first_usable_lba,
        last_usable_lba,
        number_of_partition_entries,
        ..
    } = table.header;
    HeaderFields {
        disk_guid,
        first_usable: first_usable_lba,
        last_usable: last_usable_lba,
        entries: number_of_partition_entries,
    }
}

fn header_value(alloc: Global, fields: Option<HeaderFields>) -> Result<Value, AllocError> {
    let Some(fields) = fields else {
        return Ok(Value::Null);
    };
    let mut members = Members::new(alloc);
    members.put_guid("disk_guid", &fields.disk_guid)?;
    members.put_number("first_usable_sector", fields.first_usable)?;
    members.put_number("last_usable_sector", fields.last_usable)?;
    members.put_number("entries", u64::from(fields.entries))?;
    Ok(members.into_value())
}

// Returns the partitions that differ.
fn change_values(alloc: Global, change: TableChange<'_>) -> Result<Vec<Value>, AllocError> {
    let matched = Matched::new(alloc, change.matches)?;
    let mut values = Vec::new(alloc);
    for entry in find_changes(alloc, change)?.iter() {
        values.push(change_value(alloc, change, *entry, matched.by(*entry))?)?;
    }
    Ok(values)
}

fn find_changes(alloc: Global, change: TableChange<'_>) -> Result<Vec<EntryChange>, AllocError> {
    let mut changes = Vec::new(alloc);
    match (change.was, change.next) {
        (Some(was), Some(next)) => return compare(alloc, was, next),
        (Some(was), None) => {
            for (number, entry) in was.iter() {
                if entry.is_used() {
                    changes.push(EntryChange::Removed { number })?;
                }
            }
        }
        (None, Some(next)) => {
            for (number, entry) in next.iter() {
                if entry.is_used() {
                    changes.push(EntryChange::Added { number })?;
                }
            }
        }
        (None, None) => (),
    }
    Ok(changes)
}

// Returns the change of an entry.
fn change_value(
    alloc: Global,
    change: TableChange<'_>,
    entry: EntryChange,
    by: Option<MatchedBy>,
) -> Result<Value, AllocError> {
    let (kind, from, to) = match entry {
        EntryChange::Removed { number } => ("removed", Some(number), None),
        EntryChange::Added { number } => ("added", None, Some(number)),
        EntryChange::Kept { from, to } if from == to => ("changed", Some(from), Some(to)),
        EntryChange::Kept { from, to } => ("renumbered", Some(from), Some(to)),
    };
    let mut members = Members::new(alloc);
    if let Some(number) = to.or(from) {
        members.put_number("number", u64::from(number))?;
    }
    members.put_text("kind", kind)?;
    members.put("before", partition_at(alloc, change.was, from)?)?;
    members.put("after", partition_at(alloc, change.next, to)?)?;
    match by {
        Some(by) => members.put_text("matched", code_of(by))?,
        None => members.put("matched", Value::Null)?,
    }
    Ok(members.into_value())
}

// Returns the code of a way to mean an entry.
fn code_of(by: MatchedBy) -> &'static str {
    match by {
        MatchedBy::Number => "number",
        MatchedBy::Guid => "guid",
        MatchedBy::Name => "name",
        MatchedBy::Type => "type",
        MatchedBy::New => "new",
    }
}

// Returns the fields of the partition of this number and the units of its name, or null without one.
fn partition_at(
    alloc: Global,
    table: Option<&GPT>,
    number: Option<u32>,
) -> Result<Value, AllocError> {
    let (Some(table), Some(number)) = (table, number) else {
        return Ok(Value::Null);
    };
    let Some(entry) = table.get(number) else {
        return Ok(Value::Null);
    };
    let partition = Partition {
        number,
        entry,
        sector_size: table.sector_size,
    };
    partition_value(alloc, &partition)
}
