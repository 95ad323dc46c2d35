//! A name of 100 letters.

use crate::verdict::{Verdict, of_answer};
use gptman::{PartitionName, Result};
use std::alloc::Global;
use test_fixtures::calls::{are_equal_names, copy_name, entry_of, name_of};
use test_fixtures::tables::partition;

/// Makes the call of this name, or returns `None` if it is not one of these.
pub fn try_call(name: &str, alloc: Global) -> Option<Result<Verdict>> {
    match name {
        "large_name" => Some(name_in_memory(alloc)),
        "large_name_written" => Some(name_on_disk(alloc)),
        _ => None,
    }
}

const LETTERS: &str =
    "aaaaaaaaaabbbbbbbbbbccccccccccddddddddddeeeeeeeeeeffffffffffgggggggggghhhhhhhhhhiiiiiiiiiijjjjjjjjjj";

// The first 36 letters.
const KEPT: &str = "aaaaaaaaaabbbbbbbbbbccccccccccdddddd";

// In memory the name is complete.
fn name_in_memory(alloc: Global) -> Result<Verdict> {
    let name = name_of(alloc, LETTERS)?;
    let again = copy_name(&name)?;
    let is_whole = again.as_str() == LETTERS && are_equal_names(&again, &name);
    Ok(of_answer(is_whole && has_kept_units(&again)))
}

// Reports whether the units are those of the first 36 letters.
fn has_kept_units(name: &PartitionName) -> bool {
    let mut letters = KEPT.bytes();
    for unit in name.units() {
        if letters.next() != u8::try_from(*unit).ok() {
            return false;
        }
    }
    letters.next().is_none()
}

// The disk has only the first 36 letters.
fn name_on_disk(alloc: Global) -> Result<Verdict> {
    let entry = partition(alloc, LETTERS, [1; 16], 300, 301)?;
    let read = entry_of(alloc, &entry.encode())?;
    Ok(of_answer(is_cut(&read.partition_name)))
}

fn is_cut(name: &PartitionName) -> bool {
    name.as_str() == KEPT && has_kept_units(name)
}
