//! Names, entries and tables in memory.

use crate::memory::Memory;
use crate::verdict::{Verdict, of_call};
use gptman::{Edit, GPT, GPTPartitionEntry, PartitionName, Result};
use std::alloc::Global;
use test_fixtures::calls::{
    are_equal, are_equal_entries, are_equal_names, copy as copy_table, copy_entry, copy_name,
    entry_of, name_of, name_of_units,
};
use test_fixtures::tables::{has_entry, partition, unsorted_table};

/// Makes the call of this name, or returns `None` if it is not one of these.
pub fn try_call(name: &str, memory: &mut Memory) -> Option<Result<Verdict>> {
    match name {
        "name_new" | "name_units" | "name_clone" | "entry_clone" | "entry_decode" | "table_clone" =>
            Some(copy(name, memory)),
        "table_sort" | "table_apply_sort" | "table_apply_put" | "table_apply_all" => {
            Some(change(name, memory))
        }
        _ => None,
    }
}

fn copy(name: &str, memory: &mut Memory) -> Result<Verdict> {
    let entry = partition(memory.alloc(), "Foo", [1; 16], 34, 43)?;
    let table = unsorted_table(memory.alloc())?;
    memory.begin();
    let outcome = is_copied(name, memory.alloc(), &entry, &table);
    memory.end();
    Ok(of_call(&outcome, true))
}

// Reports whether the copy is equal to its source.
fn is_copied(name: &str, alloc: Global, entry: &GPTPartitionEntry, table: &GPT) -> Result<bool> {
    match name {
        "name_new" => is_name(name_of(alloc, "Foo"), entry),
        "name_units" => is_name(name_of_units(alloc, entry.partition_name.units()), entry),
        "name_clone" => is_name(copy_name(&entry.partition_name), entry),
        "entry_clone" => is_entry(copy_entry(entry), entry),
        "entry_decode" => is_entry(entry_of(alloc, &entry.encode()), entry),
        _ => Ok(are_equal(&copy_table(table)?, table)),
    }
}

fn is_name(made: Result<PartitionName>, entry: &GPTPartitionEntry) -> Result<bool> {
    Ok(are_equal_names(&made?, &entry.partition_name))
}

fn is_entry(made: Result<GPTPartitionEntry>, entry: &GPTPartitionEntry) -> Result<bool> {
    Ok(are_equal_entries(&made?, entry))
}

fn change(name: &str, memory: &mut Memory) -> Result<Verdict> {
    let mut table = unsorted_table(memory.alloc())?;
    let entry = partition(memory.alloc(), "New", [4; 16], 60, 61)?;
    memory.begin();
    let outcome = is_changed(name, &mut table, entry);
    memory.end();
    let is_kept = are_equal(&table, &unsorted_table(memory.alloc())?);
    Ok(of_call(&outcome, is_kept))
}

// Reports whether the change of this name has the right effect on the table.
fn is_changed(name: &str, table: &mut GPT, entry: GPTPartitionEntry) -> Result<bool> {
    match name {
        "table_sort" => table.sort()?,
        "table_apply_sort" => table.apply(Edit::SortEntries)?,
        "table_apply_put" => {
            table.apply(Edit::Put(3, entry))?;
            return Ok(has_entry(table, 3, "New"));
        }
        _ => {
            table.apply_all(&[Edit::Put(3, entry), Edit::SortEntries])?;
            return Ok(is_sorted(table) && has_entry(table, 4, "New"));
        }
    }
    Ok(is_sorted(table))
}

// Reports whether the entries of the table are sorted.
fn is_sorted(table: &GPT) -> bool {
    has_entry(table, 1, "Foo") && has_entry(table, 2, "Baz") && has_entry(table, 3, "Bar")
}
