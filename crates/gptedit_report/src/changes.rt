//! Prints the changes of a table.

use crate::compare::{EntryChange, compare};
use crate::matched::Matched;
use crate::texts::{EntryText, GuidText, QuotedName, SectorsText, TypeText};
use gptedit_core::{EntryMatch, MatchedBy};
use gptedit_values::AttributeNames;
use gptman::{GPT, GPTHeader, GPTPartitionEntry};
use std::alloc::Global;
use std::io::Write;
use std::{fmt, io};

/// Prints the differences between two tables: a line each for the disk GUID, the usable sectors and the number of
/// entries if they differ, and a line for each partition that differs, by number. `+` begins an added partition, `-` a
/// removed one, `~` a changed one, and `2 -> 1` one that has another number. A line says how the layout means the entry, if it
/// does so without the number. If none of these differs, a line says that unused entries are cleared.
///
/// Takes O(n log n) time for n entries. Returns the error of `out`, or `OutOfMemory`.
pub fn print_changes<W: Write>(
    out: &mut W,
    alloc: Global,
    was: &GPT,
    next: &GPT,
    matches: &[EntryMatch],
) -> io::Result<()> {
    let changes = compare(alloc, was, next)?;
    let matched = Matched::new(alloc, matches)?;
    let header = HeaderChange { was, next };
    if changes.is_empty() && !header.is_any() {
        return out.write_all(b"entries that are not used are cleared\n");
    }
    write!(out, "{header}")?;
    for change in changes.iter() {
        let change = *change;
        let text = ChangeText { was, next, change };
        match matched.by(change).and_then(|by| way_in_words(by)) {
            Some(way) => writeln!(out, "{text} (by {way})")?,
            None => writeln!(out, "{text}")?,
        }
    }
    Ok(())
}

// Returns how a request means an entry that was there, if it does so without the number.
fn way_in_words(by: MatchedBy) -> Option<&'static str> {
    match by {
        MatchedBy::Guid => Some("GUID"),
        MatchedBy::Name => Some("name"),
        MatchedBy::Type => Some("type"),
        MatchedBy::Number | MatchedBy::New => None,
    }
}

// The changes of a header.
#[derive(Clone, Copy)]
struct HeaderChange<'a> {
    was: &'a GPT,
    next: &'a GPT,
}

impl HeaderChange<'_> {
    // Reports whether there is anything to print.
    fn is_any(&self) -> bool {
        let (was, next) = (&self.was.header, &self.next.header);
        was.disk_guid != next.disk_guid
            || have_other_bounds(was, next)
            || was.number_of_partition_entries != next.number_of_partition_entries
    }
}

impl fmt::Display for HeaderChange<'_> {
    fn fmt<W: fmt::Write>(&self, f: &mut fmt::Formatter<W>) -> fmt::Result {
        let (was, next) = (&self.was.header, &self.next.header);
        if was.disk_guid != next.disk_guid {
            let (before, after) = (GuidText(&was.disk_guid), GuidText(&next.disk_guid));
            writeln!(f, "disk GUID {before} -> {after}")?;
        }
        if have_other_bounds(was, next) {
            write_bounds(f, was, next)?;
        }
        let before = was.number_of_partition_entries;
        let after = next.number_of_partition_entries;
        if before != after {
            writeln!(f, "entries {before} -> {after}")?;
        }
        Ok(())
    }
}

// Reports whether two headers have different usable sectors.
fn have_other_bounds(was: &GPTHeader, next: &GPTHeader) -> bool {
    was.first_usable_lba != next.first_usable_lba || was.last_usable_lba != next.last_usable_lba
}

// Writes the usable sectors before and after.
fn write_bounds<W: fmt::Write>(
    f: &mut fmt::Formatter<W>,
    was: &GPTHeader,
    next: &GPTHeader,
) -> fmt::Result {
    let (first, last) = (was.first_usable_lba, was.last_usable_lba);
    write!(f, "usable sectors {first}..{last} -> ")?;
    let (first, last) = (next.first_usable_lba, next.last_usable_lba);
    writeln!(f, "{first}..{last}")
}

// The change of an entry, on one line.
#[derive(Clone, Copy)]
struct ChangeText<'a> {
    was: &'a GPT,
    next: &'a GPT,
    change: EntryChange,
}

impl fmt::Display for ChangeText<'_> {
    fn fmt<W: fmt::Write>(&self, f: &mut fmt::Formatter<W>) -> fmt::Result {
        match self.change {
            EntryChange::Removed { number } => write_whole(f, "-", self.was, number),
            EntryChange::Added { number } => write_whole(f, "+", self.next, number),
            EntryChange::Kept { from, to } => {
                if from == to {
                    write!(f, "~ {to}")?;
                } else {
                    write!(f, "{from} -> {to}")?;
                }
                match (self.was.get(from), self.next.get(to)) {
                    (Some(was), Some(next)) => write_fields(f, was, next, self.was.sector_size),
                    _ => Ok(()),
                }
            }
        }
    }
}

// Writes a sign, a number, and the complete entry of that number.
fn write_whole<W: fmt::Write>(
    f: &mut fmt::Formatter<W>,
    sign: &str,
    table: &GPT,
    number: u32,
) -> fmt::Result {
    write!(f, "{sign} {number}")?;
    match table.get(number) {
        Some(entry) => {
            let sector_size = table.sector_size;
            write!(f, " {}", EntryText { entry, sector_size })
        }
        None => Ok(()),
    }
}

// Writes the fields that differ, each before and after.
fn write_fields<W: fmt::Write>(
    f: &mut fmt::Formatter<W>,
    was: &GPTPartitionEntry,
    next: &GPTPartitionEntry,
    sector_size: u64,
) -> fmt::Result {
    let mut comma = "";
    if was.partition_name.units() != next.partition_name.units() {
        let (before, after) = (&was.partition_name, &next.partition_name);
        write_field(f, comma, "name", &QuotedName(before), &QuotedName(after))?;
        comma = ",";
    }
    if was.partition_type_guid != next.partition_type_guid {
        let (before, after) = (&was.partition_type_guid, &next.partition_type_guid);
        write_field(f, comma, "type", &TypeText(before), &TypeText(after))?;
        comma = ",";
    }
    if was.starting_lba != next.starting_lba || was.ending_lba != next.ending_lba {
        let before = SectorsText {
            entry: was,
            sector_size,
        };
        let after = SectorsText {
            entry: next,
            sector_size,
        };
        write_field(f, comma, "sectors", &before, &after)?;
        comma = ",";
    }
    if was.attribute_bits != next.attribute_bits {
        let (before, after) = (was.attribute_bits, next.attribute_bits);
        write_field(
            f,
            comma,
            "attributes",
            &SomeAttributes(before),
            &SomeAttributes(after),
        )?;
        comma = ",";
    }
    if was.unique_partition_guid != next.unique_partition_guid {
        let (before, after) = (&was.unique_partition_guid, &next.unique_partition_guid);
        write_field(f, comma, "GUID", &GuidText(before), &GuidText(after))?;
    }
    Ok(())
}

// Writes a field before and after.
fn write_field<W: fmt::Write, D: fmt::Display>(
    f: &mut fmt::Formatter<W>,
    comma: &str,
    name: &str,
    before: &D,
    after: &D,
) -> fmt::Result {
    write!(f, "{comma} {name} {before} -> {after}")
}

// The names of attributes, or `none`.
#[derive(Clone, Copy)]
struct SomeAttributes(u64);

impl fmt::Display for SomeAttributes {
    fn fmt<W: fmt::Write>(&self, f: &mut fmt::Formatter<W>) -> fmt::Result {
        if self.0 == 0 {
            f.write_str("none")
        } else {
            write!(f, "{}", AttributeNames(self.0))
        }
    }
}
