//! Calls on whole tables.

use crate::answer::{Answer, Answered, Fault};
use crate::bench::{Bench, held};
use crate::row::Row;
use gptman::{Disk, GPT, GPTPartitionEntry};
use std::alloc::Global;

/// new T on= sector= guid= [count=]; read T on= sector=; find T on=; clone T of=; parts T of= length= [sector=] [align=]
pub(crate) fn make(bench: &mut Bench, row: Row) -> Answered {
    let table = made(bench, row)?;
    bench.keep_table(row, table)
}

fn made(bench: &mut Bench, row: Row) -> Result<GPT, Fault> {
    let alloc = bench.alloc;
    match row.call() {
        "clone" => Ok(held(&mut bench.tables, row.slot_of("of")?)?.clone()?),
        "parts" => parts(alloc, held(&mut bench.tables, row.slot_of("of")?)?, row),
        _ => on_disk(alloc, bench.disk(row, "on")?, row),
    }
}

fn on_disk<D: Disk>(alloc: Global, disk: &mut D, row: Row) -> Result<GPT, Fault> {
    if row.call() == "find" {
        return Ok(GPT::find_from(alloc, disk)?);
    }
    let sector_size = row.number("sector")?;
    if sector_size == 0 {
        return Err(Fault::Requires);
    }
    if row.call() == "read" {
        return Ok(GPT::read_from(alloc, disk, sector_size)?);
    }
    let guid = row.guid("guid")?;
    if !row.has("count") {
        return Ok(GPT::new_from(alloc, disk, sector_size, guid)?);
    }
    Ok(GPT::with_entries(alloc, disk, sector_size, guid, row.short("count")?)?)
}

// Returns a table with the header of this one and `length` empty entries.
fn parts(alloc: Global, table: &GPT, row: Row) -> Result<GPT, Fault> {
    let length = row.short("length")?;
    let mut entries = Vec::new(alloc);
    for _ in 0..length {
        entries.push(GPTPartitionEntry::empty(alloc))?;
    }
    if entries.len() > u32::MAX as usize {
        return Err(Fault::Requires);
    }
    let sector_size = row.number_or("sector", table.sector_size)?;
    let align = row.number_or("align", table.align)?;
    Ok(GPT::from_parts(sector_size, table.header, entries, align))
}

/// show T; used T; is T; equal T as=; fits T size=; layout T size=; write T on=
pub(crate) fn answer(bench: &mut Bench, row: Row) -> Answered {
    let alloc = bench.alloc;
    match row.call() {
        "equal" => equal(bench, row),
        "write" => write(bench, row),
        "show" => show(alloc, bench.table(row)?),
        "used" => used(alloc, bench.table(row)?),
        "is" => kind(alloc, bench.table(row)?),
        "fits" => {
            bench.table(row)?.check_write(row.number("size")?)?;
            Ok(Answer::Done)
        }
        _ => Ok(Answer::Truth(bench.table(row)?.has_layout(row.number("size")?))),
    }
}

// Reports whether two tables are equal.
fn equal(bench: &mut Bench, row: Row) -> Answered {
    let one = bench.table(row)?.clone()?;
    let other = held(&mut bench.tables, row.slot_of("as")?)?;
    Ok(Answer::Truth(one == *other))
}

// Writes the table. Returns the sectors of the other header, the own header and the other entries.
fn write(bench: &mut Bench, row: Row) -> Answered {
    let alloc = bench.alloc;
    let disk = held(&mut bench.disks, row.slot_of("on")?)?;
    let table = held(&mut bench.tables, row.slot()?)?;
    if table.sector_size == 0 || !table.is_coherent() {
        return Err(Fault::Requires);
    }
    let other = table.write_into(disk)?;
    let (own, backup, entries) = (
        other.primary_lba,
        other.backup_lba,
        other.partition_entry_lba,
    );
    Ok(Answer::Text(format!(in alloc; "{own}/{backup}/{entries}")?))
}

// Returns the sector size; the sectors of the header, the other header and the entries; the usable sectors; and the
// alignment.
fn show(alloc: Global, table: &GPT) -> Answered {
    let (size, align, header) = (table.sector_size, table.align, &table.header);
    let (own, other) = (header.primary_lba, header.backup_lba);
    let entries = header.partition_entry_lba;
    let (first, last) = (header.first_usable_lba, header.last_usable_lba);
    let text = format!(in alloc; "{size} {own}/{other}/{entries} {first}..{last} align {align}");
    Ok(Answer::Text(text?))
}

// Returns the number of entries, and the number, name and sectors of each used one.
fn used(alloc: Global, table: &GPT) -> Answered {
    let mut text = String::new(alloc);
    let mut count = 0;
    for (number, entry) in table.iter() {
        count = number;
        if entry.is_used() {
            push_entry(alloc, &mut text, number, entry)?;
        }
    }
    Ok(Answer::Text(format!(in alloc; "{count}:{text}")?))
}

fn push_entry(
    alloc: Global,
    text: &mut String,
    number: u32,
    entry: &GPTPartitionEntry,
) -> Result<(), Fault> {
    let (name, first, last) = (&entry.partition_name, entry.starting_lba, entry.ending_lba);
    let more = format!(in alloc; " {number} {name} {first}..{last}")?;
    text.push_str(more.as_str())?;
    Ok(())
}

// Returns the form of the header, and whether it describes the list of entries.
fn kind(alloc: Global, table: &GPT) -> Answered {
    let form = match (table.is_primary(), table.is_backup()) {
        (true, false) => "primary",
        (false, true) => "backup",
        _ => "neither",
    };
    let list = if table.is_coherent() {
        "coherent"
    } else {
        "not coherent"
    };
    Ok(Answer::Text(format!(in alloc; "{form} {list}")?))
}
