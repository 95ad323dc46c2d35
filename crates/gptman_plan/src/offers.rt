//! Finds free places for a partition.

ghost use Rattle.std.specs.Prelude.{◌≡◌, ◌≤◌, ◌<◌, ◌^◌, length, IfErr, IfOk};
ghost use Rattle.gptman.specs.Fault.{fault_of, out_of_memory};
ghost use Rattle.gptman_plan.specs.Crossing.{IsOffer};

use crate::partitions::entries_of;
use crate::records::{Partition, Table};
use gptman::{GPT, GPTHeader, Result};
use std::alloc::Global;

/// Returns the chosen place for `size` sectors, if there is one: 1 is the first, 2 the last, and 3 the one in the
/// smallest free range that is large enough.
///
/// # Errors
///
/// `OutOfMemory` if an allocation fails.
pub fn find_place(
    alloc: Global,
    table: &Table,
    partitions: &[Partition],
    size: u64,
    choice: u32,
) -> Result<Option<u64>>
    requires aligned { 0 < table.now.align }
    requires few { length partitions.now < 2 ^ 32 }
    requires choice { choice ≤ 3 }
    ensures value { IfOk result (IsOffer table.now partitions.now choice size) }
    ensures refused { IfErr result (λ e. fault_of e ≡ out_of_memory) }
{
    let entries = entries_of(alloc, partitions)?;
    let held = GPT::from_parts(1, bounds_of(table), entries, table.align);
    match choice {
        1 => held.find_first_place(size),
        2 => held.find_last_place(size),
        _ => held.find_optimal_place(size),
    }
}

// Returns a header with these bounds, and no other valid field.
fn bounds_of(table: &Table) -> GPTHeader
    ensures low { result.first_usable_lba ≡ table.now.first_usable_lba }
    ensures high { result.last_usable_lba ≡ table.now.last_usable_lba }
{
    GPTHeader {
        first_usable_lba: table.first_usable_lba,
        last_usable_lba: table.last_usable_lba,
        ..GPTHeader::decode(&[0; 92])
    }
}
