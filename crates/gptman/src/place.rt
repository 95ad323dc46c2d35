//! Finds free sectors and places for new partitions, from the list of entries and the header's bounds only.
//!
//! A sector is free if it is usable, is not sector 0, and no used entry covers it. A run is a maximal range of
//! free sectors. An aligned slot is a run from its first multiple of `align` to its end; a run without a
//! multiple has none. Entries may overlap, be out of bounds or end before they start, and the bounds may be in
//! any order.

ghost use Rattle.std.specs.Prelude.{◌≡◌, ◌⊎◌, ◌<◌, ◌≤◌, ◌+◌, ◌^◌, All, IfErr, IfOk};
ghost use Rattle.gptman.specs.Answers.{Refuses};
ghost use Rattle.gptman_disk.specs.Fault.{fault_of, no_space_left, out_of_memory};
ghost use Rattle.gptman.specs.Place.{AreSlots, EndsIn64Bits, FindsPlace, HasNoSlot, IsBestPlace};
ghost use Rattle.gptman.specs.Place.{IsFirstPlace};
ghost use Rattle.gptman.specs.Place.{IsFreeIn, IsLastPlace, IsMaximumSize};

use crate::place::choose::{first_slot, greatest_size, last_slot, shortest_slot};
use crate::place::sweep::sweep;
use crate::table::GPT;
use crate::table::covered::sorted_ranges;
use crate::{Error, Result};

mod choose;
pub mod laws;
mod sweep;

impl GPT {
    /// Returns all aligned slots as (start, length) in sectors, by ascending start. A slot is a run of free
    /// sectors, from its first multiple of `align` on. The last sector of each, start + length - 1, fits in 64
    /// bits. Takes O(n log n) time for n entries, whatever the size of the disk. `align` must be above 0.
    ///
    /// `OutOfMemory` if an allocation fails.
    pub fn find_free_sectors(&self) -> Result<Vec<(u64, u64)>>
        requires { 0 < self.now.align }
        ensures refused { IfErr result (λ e. fault_of e ≡ out_of_memory) }
        ensures value { IfOk result (λ v. AreSlots (IsFreeIn self.now) self.now.align v.items) }
        ensures fits { IfOk result (λ v. All (λ s. s.0 + s.1 ≤ 2 ^ 64) v.items) }
    {
        let alloc = self.partitions.alloc();
        let ranges = sorted_ranges(alloc, self.partitions.as_slice())?;
        let (slots, _turns) = sweep(alloc, &self.header, self.align, &ranges)?;
        Ok(slots)
    }

    /// Returns the lowest sector, a multiple of `align`, from which `size` sectors are free, or `None` if there
    /// is none. A size of 0 is treated as 1. `align` must be above 0.
    ///
    ///     if let Some(start) = table.find_first_place(2048)? {
    ///         // sectors start to start + 2047 are free
    ///     }
    ///
    /// `OutOfMemory` if an allocation fails.
    pub fn find_first_place(&self, size: u64) -> Result<Option<u64>>
        requires { 0 < self.now.align }
        ensures refused { IfErr result (λ e. fault_of e ≡ out_of_memory) }
        ensures value { IfOk result (FindsPlace IsFirstPlace self.now size) }
        ensures fits { IfOk result (EndsIn64Bits size) }
    {
        let size = size.max(1);
        let slots = self.find_free_sectors()?;
        match first_slot(&slots, size) {
            Some((start, _)) => Ok(Some(start)),
            None => Ok(None),
        }
    }

    /// Returns the highest sector, a multiple of `align`, from which `size` sectors are free, or `None` if
    /// there is none. A size of 0 is treated as 1. `align` must be above 0.
    ///
    /// `OutOfMemory` if an allocation fails.
    pub fn find_last_place(&self, size: u64) -> Result<Option<u64>>
        requires { 0 < self.now.align }
        ensures refused { IfErr result (λ e. fault_of e ≡ out_of_memory) }
        ensures value { IfOk result (FindsPlace IsLastPlace self.now size) }
        ensures fits { IfOk result (EndsIn64Bits size) }
    {
        let size = size.max(1);
        let align = self.align;
        let slots = self.find_free_sectors()?;
        match last_slot(&slots, size) {
            Some((start, length)) => Ok(Some(start + (length - size) / align * align)),
            None => Ok(None),
        }
    }

    /// Returns the start of the shortest aligned slot of at least `size` sectors, the leftmost if several are
    /// as short, or `None` if there is none. A size of 0 is treated as 1. `align` must be above 0.
    ///
    /// `OutOfMemory` if an allocation fails.
    pub fn find_optimal_place(&self, size: u64) -> Result<Option<u64>>
        requires { 0 < self.now.align }
        ensures refused { IfErr result (λ e. fault_of e ≡ out_of_memory) }
        ensures value { IfOk result (FindsPlace IsBestPlace self.now size) }
        ensures fits { IfOk result (EndsIn64Bits size) }
    {
        let size = size.max(1);
        let slots = self.find_free_sectors()?;
        match shortest_slot(&slots, size) {
            Some(shortest) => Ok(Some(shortest.0)),
            None => Ok(None),
        }
    }

    /// Returns the largest multiple of `align`, in sectors, that an aligned slot has room for. It may be 0.
    /// `align` must be above 0.
    ///
    /// `NoSpaceLeft` if there is no aligned slot, `OutOfMemory` if an allocation fails.
    pub fn get_maximum_partition_size(&self) -> Result<u64>
        requires { 0 < self.now.align }
        ensures refused { IfErr result (λ e. (fault_of e ≡ no_space_left) ⊎ (fault_of e ≡ out_of_memory)) }
        ensures full { Refuses result no_space_left → HasNoSlot (IsFreeIn self.now) self.now.align }
        ensures value { IfOk result (IsMaximumSize (IsFreeIn self.now) self.now.align) }
    {
        let slots = self.find_free_sectors()?;
        match greatest_size(&slots, self.align) {
            Some(size) => Ok(size),
            None => Err(Error::NoSpaceLeft),
        }
    }
}
