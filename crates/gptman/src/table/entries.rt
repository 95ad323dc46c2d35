//! The entries of a table. Contracts see only a list of them.

ghost use Rattle.std.specs.Prelude.{◌≡◌, ◌↔◌, ◌<◌, ◌^◌, Some, length, slice_get, vec_len, IsTrue, IfOk};
ghost use Rattle.std.specs.Prelude.{[], IfErr, IsOk};
ghost use Rattle.std.specs.Borrow.{sem};
ghost use Rattle.std.specs.Cmp.{partial_equiv_from_equiv};
ghost use Rattle.std.specs.Cmp.Lexicographic.{lists_equiv};
ghost use Rattle.gptman.specs.Coding.{empty_entry};
ghost use Rattle.gptman_disk.specs.Fault.{fault_of, out_of_memory};
ghost use Rattle.gptman.specs.contracts.codec.entry.GPTPartitionEntryEq.TheImpl.Laws.{laws-law};
ghost use lib.Pointwise.{pointwise};

use crate::{GPTPartitionEntry, Result};
use std::alloc::Global;
use std::marker::Model;

/// The entries of a table, in order. There are fewer than 2^32.
#[derive(Drop, Debug)]
pub struct Entries {
    items: Vec<GPTPartitionEntry>,
}

impl Model for Entries {
    ghost use Rattle.std.specs.Prelude.{List, ◌<◌, ◌^◌, length};
    ghost use Rattle.gptman.specs.declared.codec.entry.GPTPartitionEntry.{GPTPartitionEntry};

    ghost Value = { List GPTPartitionEntry };

    ghost view = { λ a. a.items.items };

    ghost invariant = { λ a. length a.items.items < 2 ^ 32 };
}

impl Entries {
    ghost use Rattle.gptman.specs.Lending.{LendsItem, LendsItems};

    /// Returns the list of these entries, without allocating.
    pub(crate) fn new(items: Vec<GPTPartitionEntry>) -> Self
        requires { vec_len items < 2 ^ 32 }
        ensures { result ≡ items.items }
    {
        Entries { items }
    }

    /// Returns the entries as a slice.
    pub(crate) fn as_slice(&self) -> &[GPTPartitionEntry]
        ensures items { result.now ≡ self.now }
        ensures few { length self.now < 2 ^ 32 }
    {
        self.items.as_slice()
    }

    /// Returns the entries as a mutable slice.
    pub(crate) fn as_mut_slice(&mut self) -> &mut [GPTPartitionEntry]
        ensures* writes_back { sem 𝓛 (LendsItems self.entry result) }
        ensures items { result.now ≡ self.old }
        ensures few { length self.old < 2 ^ 32 }
    {
        self.items.as_mut_slice()
    }

    /// Returns the entry at index `k`, from 0, as a mutable reference.
    pub(crate) fn at_mut(&mut self, k: usize) -> &mut GPTPartitionEntry
        requires { k < length self.old }
        ensures* writes_back { sem 𝓛 (LendsItem self.entry k result) }
        ensures value { slice_get self.old k ≡ Some result.now }
    {
        &mut self.items[k]
    }

    /// How many entries there are.
    pub(crate) fn len(&self) -> u32
        ensures { result ≡ length self.now }
    {
        self.items.len() as u32
    }

    /// Returns the allocator of the list.
    pub(crate) fn alloc(&self) -> Global {
        *self.items.allocator()
    }

    /// Returns the unused entry, without allocating.
    pub(crate) fn empty_entry(&self) -> GPTPartitionEntry
        ensures { result ≡ empty_entry }
    {
        GPTPartitionEntry::empty(self.alloc())
    }

    /// Returns a copy of the list. An empty list needs no memory.
    pub(crate) fn clone(&self) -> Result<Self>
        ensures ok { IfOk result (λ es. es ≡ self.now) }
        ensures refused { IfErr result (λ e. fault_of e ≡ out_of_memory) }
        ensures empty { self.now ≡ [] → IsOk result }
    {
        let items = clone_all(self.alloc(), self.items.as_slice())?;
        Ok(Entries { items })
    }
}

// Copies the entries.
fn clone_all(alloc: Global, entries: &[GPTPartitionEntry]) -> Result<Vec<GPTPartitionEntry>>
    ensures ok { IfOk result (λ v. v.items ≡ entries.now) }
    ensures refused { IfErr result (λ e. fault_of e ≡ out_of_memory) }
    ensures empty { entries.now ≡ [] → IsOk result }
{
    let mut all = Vec::with_capacity(alloc, entries.len())?;
    for entry in entries {
        all.push(entry.clone()?)?;
    }
    Ok(all)
}

/// Lists are equal if all their entries are.
impl PartialEq for Entries {
    ghost eq = { pointwise ⟦<GPTPartitionEntry as PartialEq>⟧.eq };

    ghost laws = { partial_equiv_from_equiv (lists_equiv laws-law) };

    fn eq(&self, other: &Self) -> bool {
        same_entries(self.items.as_slice(), other.items.as_slice())
    }
}

impl Eq for Entries {
    ghost laws = { lists_equiv laws-law };
}

// Reports whether two lists of entries are equal.
fn same_entries(a: &[GPTPartitionEntry], b: &[GPTPartitionEntry]) -> bool
    ensures eq { result ≡ pointwise ⟦<GPTPartitionEntry as PartialEq>⟧.eq a.now b.now }
    ensures decides { IsTrue result ↔ (a.now ≡ b.now) }
{
    a == b
}
