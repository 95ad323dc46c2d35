//! Free sectors and places. Of sectors 34..66, those up to 38 and from 62 on are free.

use crate::memory::Memory;
use crate::verdict::{Verdict, of_call};
use gptman::{GPT, Result};
use test_fixtures::calls::{first_place, free_sectors, last_place, maximum_size, optimal_place};
use test_fixtures::tables::table_with;

/// Makes the call of this name, or returns `None` if it is not one of these.
pub fn try_call(name: &str, memory: &mut Memory) -> Option<Result<Verdict>> {
    match name {
        "free_sectors" | "first_place" | "last_place" | "optimal_place" | "maximum_size" => {
            Some(find(name, memory))
        }
        _ => None,
    }
}

fn find(name: &str, memory: &mut Memory) -> Result<Verdict> {
    let mut table = table_with(memory.alloc(), &[(1, "Foo", 39, 50), (2, "Bar", 45, 61)])?;
    table.align = 1;
    memory.begin();
    let outcome = is_found(name, &table);
    memory.end();
    Ok(of_call(&outcome, true))
}

// Reports whether the call of this name returns the right result with alignment 1.
fn is_found(name: &str, table: &GPT) -> Result<bool> {
    match name {
        "free_sectors" => are_slots(table),
        "first_place" => Ok(first_place(table, 5)? == Some(34)),
        "last_place" => Ok(last_place(table, 5)? == Some(62)),
        "optimal_place" => Ok(optimal_place(table, 5)? == Some(34)),
        _ => Ok(maximum_size(table)? == 5),
    }
}

fn are_slots(table: &GPT) -> Result<bool> {
    let slots = free_sectors(table)?;
    Ok(slots.as_slice() == [(34, 5), (62, 5)].as_slice())
}
