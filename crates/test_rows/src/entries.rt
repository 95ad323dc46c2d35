//! Calls on the entries of a table.

use crate::answer::{Answer, Answered, Fault, hex_of};
use crate::bench::{Bench, held};
use crate::row::Row;
use gptman::{Disk, Edit, GPT, GPTPartitionEntry, PartitionName};
use std::alloc::Global;

/// entry T number=; index T number=; size T number=; sectors T number=; range T number=; encode T number=; at T sector=
pub(crate) fn answer(bench: &mut Bench, row: Row) -> Answered {
    let alloc = bench.alloc;
    let table = bench.table(row)?;
    match row.call() {
        "at" => Ok(Answer::Place(table.find_at_sector(row.number("sector")?).map(u64::from))),
        "range" => byte_range(alloc, table, row.short("number")?),
        "index" => index(alloc, table, row.short("number")?),
        _ => match table.get(row.short("number")?) {
            Some(entry) => of_entry(alloc, entry, row),
            None => Ok(Answer::Place(None)),
        },
    }
}

fn of_entry(alloc: Global, entry: &GPTPartitionEntry, row: Row) -> Answered {
    match row.call() {
        "entry" => shown(alloc, entry),
        "size" => Ok(Answer::Number(entry.size()?)),
        "sectors" => {
            let sectors = entry.range()?;
            Ok(Answer::Text(format!(in alloc; "{sectors:?}")?))
        }
        _ => Ok(Answer::Bytes(entry.encode().to_vec(alloc)?)),
    }
}

// Returns all fields, and whether the entry is equal to its clone.
fn shown(alloc: Global, entry: &GPTPartitionEntry) -> Answered {
    let (first, last) = (entry.starting_lba, entry.ending_lba);
    let (attributes, name) = (entry.attribute_bits, entry.partition_name.as_str());
    let (state, guids, same) = (state_of(entry), guids_of(alloc, entry)?, compared(entry)?);
    let text = format!(in alloc; "{state} {guids} {first}..{last} {attributes} {name:?} {same}");
    Ok(Answer::Text(text?))
}

fn state_of(entry: &GPTPartitionEntry) -> &'static str {
    match (entry.is_used(), entry.is_unused()) {
        (true, false) => "used",
        (false, true) => "unused",
        _ => "neither",
    }
}

fn guids_of(alloc: Global, entry: &GPTPartitionEntry) -> Result<String, Fault> {
    let kind = hex_of(alloc, &entry.partition_type_guid)?;
    let guid = hex_of(alloc, &entry.unique_partition_guid)?;
    Ok(format!(in alloc; "{kind} {guid}")?)
}

// Reports whether the entry is equal to its clone.
fn compared(entry: &GPTPartitionEntry) -> Result<&'static str, Fault> {
    if entry.clone()? == *entry {
        Ok("equal")
    } else {
        Ok("not equal")
    }
}

fn byte_range(alloc: Global, table: &GPT, number: u32) -> Answered {
    if table.sector_size == 0 {
        return Err(Fault::Requires);
    }
    let bytes = table.get_partition_byte_range(number)?;
    Ok(Answer::Text(format!(in alloc; "{bytes:?}")?))
}

// Returns the entry through the index operator.
fn index(alloc: Global, table: &GPT, number: u32) -> Answered {
    if table.get(number).is_none() {
        return Err(Fault::Requires);
    }
    shown(alloc, &table[number])
}

/// put T number= KEY= ..; change T number= KEY= ..; swap T number= other=; give T number= from= other=; decode T number=
/// bytes=; each T attributes=; remove T number=; free_at T sector=; sort T; read_entry T number= on= at=
pub(crate) fn change(bench: &mut Bench, row: Row) -> Answered {
    match row.call() {
        "give" | "read_entry" => {
            let entry = other_entry(bench, row)?;
            put_at(bench.table(row)?, row.short("number")?, entry)?;
        }
        _ => change_in(bench.alloc, bench.table(row)?, row)?,
    }
    Ok(Answer::Done)
}

// Returns an entry of another table, or one that is read from a disk.
fn other_entry(bench: &mut Bench, row: Row) -> Result<GPTPartitionEntry, Fault> {
    let alloc = bench.alloc;
    if row.call() == "read_entry" {
        return read_entry(alloc, bench.disk(row, "on")?, row.number("at")?);
    }
    let table = held(&mut bench.tables, row.slot_of("from")?)?;
    copy_of(table, row.short("other")?, Fault::Row)
}

// Returns a copy of the entry, or the fault if there is none.
fn copy_of(table: &GPT, number: u32, missing: Fault) -> Result<GPTPartitionEntry, Fault> {
    match table.get(number) {
        Some(entry) => Ok(entry.clone()?),
        None => Err(missing),
    }
}

fn change_in(alloc: Global, table: &mut GPT, row: Row) -> Result<(), Fault> {
    match row.call() {
        "put" => put(alloc, table, row),
        "decode" => decode(alloc, table, row),
        "change" => set(alloc, entry_at(table, row.short("number")?)?, row),
        "swap" => swap(table, row),
        _ => change_list(table, row),
    }
}

// Makes `remove`, `free_at`, `sort` or `each`.
fn change_list(table: &mut GPT, row: Row) -> Result<(), Fault> {
    match row.call() {
        "remove" => table.remove(row.short("number")?)?,
        "free_at" => table.remove_at_sector(row.number("sector")?)?,
        "sort" => table.sort()?,
        _ => each(table, row.number("attributes")?),
    }
    Ok(())
}

fn put(alloc: Global, table: &mut GPT, row: Row) -> Result<(), Fault> {
    let edit = Edit::Put(row.short("number")?, partition(alloc, row)?);
    Ok(table.apply(edit)?)
}

fn decode(alloc: Global, table: &mut GPT, row: Row) -> Result<(), Fault> {
    let entry = decoded(alloc, &row.bytes(alloc, "bytes")?)?;
    put_at(table, row.short("number")?, entry)
}

// Returns the entry through the mutable index operator.
fn entry_at(table: &mut GPT, number: u32) -> Result<&mut GPTPartitionEntry, Fault> {
    if table.get(number).is_none() {
        return Err(Fault::Requires);
    }
    Ok(&mut table[number])
}

// Replaces the entry through the mutable index operator.
fn put_at(table: &mut GPT, number: u32, entry: GPTPartitionEntry) -> Result<(), Fault> {
    *entry_at(table, number)? = entry;
    Ok(())
}

fn swap(table: &mut GPT, row: Row) -> Result<(), Fault> {
    let (one, other) = (row.short("number")?, row.short("other")?);
    let first = copy_of(table, one, Fault::Requires)?;
    let second = copy_of(table, other, Fault::Requires)?;
    put_at(table, one, second)?;
    put_at(table, other, first)
}

// Sets the attributes of each used entry.
fn each(table: &mut GPT, attributes: u64) {
    for (_, entry) in table.iter_mut() {
        if entry.is_used() {
            entry.attribute_bits = attributes;
        }
    }
}

fn decoded(alloc: Global, bytes: &[u8]) -> Result<GPTPartitionEntry, Fault> {
    let mut whole = [0; 128];
    if bytes.len() != 128 {
        return Err(Fault::Row);
    }
    whole.copy_from_slice(bytes);
    Ok(GPTPartitionEntry::decode(alloc, &whole)?)
}

fn read_entry<D: Disk>(alloc: Global, disk: &mut D, at: u64) -> Result<GPTPartitionEntry, Fault> {
    disk.seek_start(at).map_err(gptman::Error::Io)?;
    Ok(GPTPartitionEntry::read_from(alloc, disk)?)
}

/// Returns an entry of these keys: type= guid= first= last= [attributes=] [text=].
pub(crate) fn partition(alloc: Global, row: Row) -> Result<GPTPartitionEntry, Fault> {
    let mut entry = GPTPartitionEntry::empty(alloc);
    set(alloc, &mut entry, row)?;
    Ok(entry)
}

// Sets the fields that the row has.
fn set(alloc: Global, entry: &mut GPTPartitionEntry, row: Row) -> Result<(), Fault> {
    if row.has("type") {
        entry.partition_type_guid = row.guid("type")?;
    }
    if row.has("guid") {
        entry.unique_partition_guid = row.guid("guid")?;
    }
    entry.starting_lba = row.number_or("first", entry.starting_lba)?;
    entry.ending_lba = row.number_or("last", entry.ending_lba)?;
    entry.attribute_bits = row.number_or("attributes", entry.attribute_bits)?;
    if row.has("text") {
        let text = row.text(alloc)?;
        entry.partition_name = PartitionName::new(alloc, text.as_str())?;
    }
    Ok(())
}
