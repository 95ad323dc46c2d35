//! Sorts a table's entries.

ghost use Rattle.std.specs.Prelude.{◌≡◌, [], IsOk, OnOk, OnErr, IfErr};
ghost use Rattle.std.specs.List.Sorted.{IsPermutation, IsNonDecreasingBy, IsStableByKey};
ghost use Rattle.std.specs.Ordering.{nat_cmp};
ghost use Rattle.gptman_disk.specs.Fault.{fault_of, out_of_memory};
ghost use Rattle.gptman.specs.Number.{with_entries};
ghost use Rattle.gptman.specs.Order.{rank, by_rank};
ghost use Rattle.gptman.specs.Table.{entries_in};

use crate::table::GPT;
use crate::{GPTPartitionEntry, Result};
use std::alloc::{AllocError, Global};

impl GPT {
    /// Sorts the entries: used ones by their first sector, then unused ones. The sort is stable, and takes O(n
    /// log n) time.
    ///
    /// `OutOfMemory` if an allocation fails; the table is then unchanged. An empty list needs no memory.
    #[tactic(auto, using(crate::proofs::WrittenOver::written_over_same))]
    pub fn sort(&mut self) -> Result<()>
        ensures refused { IfErr result (λ e. fault_of e ≡ out_of_memory) }
        ensures value { OnOk result (self.new ≡ with_entries self.old (by_rank rank (entries_in self.old))) }
        ensures kept { OnErr result (self.new ≡ self.old) }
        ensures empty { entries_in self.old ≡ [] → IsOk result }
    {
        let alloc = self.partitions.alloc();
        let entries = self.entries_mut();
        sort_list(alloc, entries)?;
        Ok(())
    }
}

// Sorts the list by rank.
fn sort_list(
    alloc: Global,
    entries: &mut [GPTPartitionEntry],
) -> std::result::Result<(), AllocError>
    ensures value { OnOk result (entries.new ≡ by_rank rank entries.old) }
    ensures kept { OnErr result (entries.new ≡ entries.old) }
    ensures empty { entries.old ≡ [] → IsOk result }
{
    sort_stably(alloc, entries)
}

// Sorts the list by rank, stably.
fn sort_stably(
    alloc: Global,
    entries: &mut [GPTPartitionEntry],
) -> std::result::Result<(), AllocError>
    ensures whole { IsPermutation entries.old entries.new }
    ensures sorted { OnOk result (IsNonDecreasingBy rank entries.new) }
    ensures stable { IsStableByKey rank nat_cmp entries.old entries.new }
    ensures kept { OnErr result (entries.new ≡ entries.old) }
    ensures empty { entries.old ≡ [] → IsOk result }
{
    entries.sort_by_key(alloc, |entry| rank(entry))
}

// Returns the sort key of an entry. Unused entries sort after every sector.
fn rank(entry: &GPTPartitionEntry) -> u128
    ensures { result ≡ rank entry.now }
{
    if entry.is_used() {
        u128::from(entry.starting_lba)
    } else {
        1 << 64
    }
}
