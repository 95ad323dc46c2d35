//! Finds aligned slots in one pass over the covered ranges in order.

ghost use Rattle.std.specs.Prelude.{◌<◌, ◌≤◌, ◌+◌, ◌^◌, length, All, IfOk, MatchOption, OnOk};
ghost use Rattle.std.specs.List.Sorted.{IsNonDecreasingBy};
ghost use Rattle.gptman.specs.Place.{AreSlots};
ghost use Rattle.gptman.specs.Sweep.{AddsGap, AddsSlot, HasNoMultiple, IsOutside, IsSlotOf};

use crate::GPTHeader;
use std::alloc::{AllocError, Global};

/// Returns the aligned slots of the usable sectors outside the ranges, as (start, length) in sectors by
/// ascending start, and the number of iterations of the loop. A range is (first, last).
pub(crate) fn sweep(
    alloc: Global,
    header: &GPTHeader,
    align: u64,
    ranges: &[(u64, u64)],
) -> Result<(Vec<(u64, u64)>, usize), AllocError>
    requires aligned { 0 < align }
    requires sorted { IsNonDecreasingBy (λ r. r.0) ranges.now }
    requires ordered { All (λ r. r.0 ≤ r.1) ranges.now }
    ensures slots { IfOk result (λ r. AreSlots (IsOutside header.now ranges.now) align r.0.items) }
    ensures fits { IfOk result (λ r. All (λ s. s.0 + s.1 ≤ 2 ^ 64) r.0.items) }
    ensures iterations { IfOk result (λ r. r.1 ≤ length ranges.now) }
{
    let mut slots = Vec::new(alloc);
    let mut iterations = 0;
    // Sectors up to this one are done. It is at least 0, so sector 0 is never offered.
    let mut passed = header.first_usable_lba.saturating_sub(1);
    for range in ranges {
        let to = header.last_usable_lba.min(range.0.saturating_sub(1));
        push_gap(&mut slots, passed, to, align)?;
        passed = passed.max(range.1);
        iterations += 1;
    }
    push_gap(&mut slots, passed, header.last_usable_lba, align)?;
    Ok((slots, iterations))
}

// Appends the aligned slot of the sectors after `passed` up to `to`, if there is one.
fn push_gap(slots: &mut Vec<(u64, u64)>, passed: u64, to: u64, align: u64) -> Result<(), AllocError>
    requires { 0 < align }
    ensures { OnOk result (AddsGap align passed to slots.old.items slots.new.items) }
{
    if passed < to {
        push_slot(slots, passed + 1, to, align)?;
    }
    Ok(())
}

// Appends the aligned slot of the sectors `from..=to`, if there is one.
fn push_slot(slots: &mut Vec<(u64, u64)>, from: u64, to: u64, align: u64) -> Result<(), AllocError>
    requires ordered { from ≤ to }
    requires positive { 1 ≤ from }
    requires aligned { 0 < align }
    ensures { OnOk result (AddsSlot align from to slots.old.items slots.new.items) }
{
    if let Some(slot) = slot_of(from, to, align) {
        slots.push(slot)?;
    }
    Ok(())
}

// Returns the aligned slot of the sectors `from..=to`, as (start, length).
fn slot_of(from: u64, to: u64, align: u64) -> Option<(u64, u64)>
    requires ordered { from ≤ to }
    requires positive { 1 ≤ from }
    requires aligned { 0 < align }
    ensures { MatchOption result (HasNoMultiple align from to) (λ slot. IsSlotOf align from to slot) }
{
    let over = from % align;
    let skip = if over == 0 { 0 } else { align - over };
    if skip <= to - from {
        let start = from + skip;
        Some((start, to - start + 1))
    } else {
        None
    }
}
