//! The free slots of a table, kept up to date while partitions are put into it.

ghost use Rattle.std.specs.Prelude.{◌≡◌, ◌≢◌, ◌≤◌, ◌<◌, ◌+◌, ◌++◌, drop, length, option_map, slice_index_or, take, vec_len, IfErr, IfOk, IfSome, IsSomeAnd};
ghost use Rattle.std.specs.Prelude.{IsTrue, MatchBool, MatchOption, None, OnOk};
ghost use Rattle.std.specs.List.{flat_map};
ghost use Rattle.std.specs.Option.{option_to_list};
ghost use Rattle.gptman.specs.Chosen.{AreShort, IsBestSlot};
ghost use Rattle.gptman.specs.Entry.{is_unused};
ghost use Rattle.gptman.specs.Fault.{fault_of, out_of_memory};
ghost use Rattle.gptman.specs.Number.{entry_at, with_entry, IsNumber};
ghost use Rattle.gptedit_core.specs.Placing.{FindsSpan};
ghost use Rattle.gptedit_core.specs.Sectors.{pair_of, pairs_of};
ghost use Rattle.gptedit_core.specs.Slots.{before_of, behind_of, rest_of, start_in, AreKept, AreSlotsOf, HasSpan, IsNoWorse};
ghost use Rattle.gptedit_core.specs.declared.asked.Choice.TheVariants.{Longest as InLongest};
ghost use Rattle.gptedit_core.specs.declared.place.Place.TheVariants.{Free};
ghost use Rattle.gptman.specs.declared.table.GPT.{GPT};

use crate::asked::Choice;
use crate::place::{Place, find_runs, find_slots, skip};
use crate::sectors::{SectorRange, Slot};
use gptman::{GPT, GPTPartitionEntry, Result};
use std::alloc::AllocError;

/// The free slots of a table, at multiples of its alignment, and its runs of free sectors. `None` means not computed
/// yet.
#[derive(Drop, Debug)]
pub struct Slots {
    slots: Option<Vec<Slot>>,
    runs: Option<Vec<Slot>>,
}

impl Slots {
    /// Returns a value in which no slot is computed. It is right for any table.
    pub fn unknown() -> Slots
        ensures slots { result.slots ≡ None }
        ensures runs { result.runs ≡ None }
    {
        Slots {
            slots: None,
            runs: None,
        }
    }

    /// Returns the sectors of the place in the table, or `None` if there is no room for it.
    ///
    /// Fails only with `OutOfMemory`.
    pub fn find(&mut self, table: &GPT, place: Place) -> Result<Option<SectorRange>>
        requires aligned { 0 < table.now.align }
        requires kept { AreKept self.old table.now }
        ensures refused { IfErr result (λ e. fault_of e ≡ out_of_memory) }
        ensures value { IfOk result (FindsSpan place table.now) }
        ensures kept { OnOk result (AreKept self.new table.now) }
    {
        let Place::Free { size, choice } = place else {
            return place.find(table);
        };
        match choice {
            Choice::Longest => self.find_in_longest(table, size.max(1)),
            Choice::First => self.find_chosen(table, size.max(1), choice),
            Choice::Last => self.find_chosen(table, size.max(1), choice),
            Choice::Best => self.find_chosen(table, size.max(1), choice),
        }
    }

    // Returns `size` sectors at the chosen place in the slots.
    fn find_chosen(&mut self, table: &GPT, size: u64, choice: Choice) -> Result<Option<SectorRange>>
        requires aligned { 0 < table.now.align }
        requires sized { 0 < size }
        requires chosen { choice ≢ InLongest }
        requires kept { AreKept self.old table.now }
        ensures refused { IfErr result (λ e. fault_of e ≡ out_of_memory) }
        ensures value { IfOk result (FindsSpan (Free size choice) table.now) }
        ensures kept { OnOk result (AreKept self.new table.now) }
    {
        let slots = match self.slots.take() {
            Some(slots) => slots,
            None => find_slots(table)?,
        };
        let found = span_in(&slots, table, size, choice);
        self.slots = Some(slots);
        Ok(found)
    }

    // Returns `size` sectors in the longest run.
    fn find_in_longest(&mut self, table: &GPT, size: u64) -> Result<Option<SectorRange>>
        requires aligned { 0 < table.now.align }
        requires sized { 0 < size }
        requires kept { AreKept self.old table.now }
        ensures refused { IfErr result (λ e. fault_of e ≡ out_of_memory) }
        ensures value { IfOk result (FindsSpan (Free size InLongest) table.now) }
        ensures kept { OnOk result (AreKept self.new table.now) }
    {
        let runs = match self.runs.take() {
            Some(runs) => runs,
            None => find_runs(table)?,
        };
        let found = span_in_longest(&runs, table, size);
        self.runs = Some(runs);
        Ok(found)
    }

    /// Updates the slots for the table in which this entry replaces the unused one of this number.
    ///
    /// Fails only with `OutOfMemory`.
    pub fn leave_out(&mut self, table: &GPT, number: u32, entry: &GPTPartitionEntry) -> Result<()>
        requires aligned { 0 < table.now.align }
        requires kept { AreKept self.old table.now }
        requires number { IsNumber table.now number }
        requires unused { IsTrue (is_unused (entry_at table.now number)) }
        ensures refused { IfErr result (λ e. fault_of e ≡ out_of_memory) }
        ensures kept { OnOk result (AreKept self.new (with_entry table.now number entry.now)) }
    {
        self.slots = leave_out(self.slots.take(), table.align, table, number, entry)?;
        self.runs = leave_out(self.runs.take(), 1, table, number, entry)?;
        Ok(())
    }
}

// Returns the slots of the table with this entry, or `None` if they have to be computed again.
fn leave_out(
    slots: Option<Vec<Slot>>,
    align: u64,
    table: &GPT,
    number: u32,
    entry: &GPTPartitionEntry,
) -> std::result::Result<Option<Vec<Slot>>, AllocError>
    requires aligned { 0 < align }
    requires kept { IfSome slots (λ v. AreSlotsOf table.now align v.items) }
    requires number { IsNumber table.now number }
    requires unused { IsTrue (is_unused (entry_at table.now number)) }
    ensures { IfOk result (λ kept. IfSome kept (λ v. AreSlotsOf (with_entry table.now number entry.now) align v.items)) }
{
    let Some(slots) = slots else {
        return Ok(None);
    };
    let (first, last) = (entry.starting_lba, entry.ending_lba);
    if entry.is_unused() || first > last {
        return Ok(None);
    }
    Ok(Some(cut(slots, align, first, last)?))
}

// Returns the slots without the sectors from `first` to `last`.
fn cut(
    slots: Vec<Slot>,
    align: u64,
    first: u64,
    last: u64,
) -> std::result::Result<Vec<Slot>, AllocError>
    requires aligned { 0 < align }
    requires ordered { first ≤ last }
    requires kept { (table : GPT) × AreSlotsOf table align slots.items }
    ensures { IfOk result (λ v. pairs_of v.items ≡ flat_map (rest_of align first last) (pairs_of slots.items)) }
{
    match index_with(&slots, first, last) {
        Some(i) => cut_at(slots, i, align, first, last),
        None => cut_all(&slots, align, first, last),
    }
}

// Returns the index of a slot that contains all these sectors.
#[tactic(auto, using(crate::proofs::Cuts::has_span))]
fn index_with(slots: &[Slot], first: u64, last: u64) -> Option<usize>
    requires { first ≤ last }
    ensures { IfSome result (λ i. (i < length slots.now)
        × HasSpan first last (slice_index_or (pairs_of slots.now) i (0, 0))) }
{
    for before in 0..slots.len() {
        let i = slots.len() - 1 - before;
        let slot = slots[i];
        if slot.start <= first && last - slot.start < slot.length {
            return Some(i);
        }
    }
    None
}

// Removes the sectors from the slot that contains them.
fn cut_at(
    mut slots: Vec<Slot>,
    i: usize,
    align: u64,
    first: u64,
    last: u64,
) -> std::result::Result<Vec<Slot>, AllocError>
    requires within { i < vec_len slots }
    requires aligned { 0 < align }
    ensures { IfOk result (λ v. pairs_of v.items ≡ take i (pairs_of slots.items)
        ++ (rest_of align first last (slice_index_or (pairs_of slots.items) i (0, 0)) ++ drop (i + 1) (pairs_of slots.items))) }
{
    let slot = slots.remove(i);
    insert_some(&mut slots, i, behind(slot, align, last))?;
    insert_some(&mut slots, i, before(slot, first))?;
    Ok(slots)
}

fn insert_some(
    slots: &mut Vec<Slot>,
    i: usize,
    slot: Option<Slot>,
) -> std::result::Result<(), AllocError>
    requires { i ≤ vec_len slots.old }
    ensures items { OnOk result (slots.new.items ≡ take i slots.old.items ++ (option_to_list slot ++ drop i slots.old.items)) }
    ensures len { OnOk result (vec_len slots.old ≤ vec_len slots.new) }
{
    if let Some(slot) = slot {
        slots.insert(i, slot)?;
    }
    Ok(())
}

// Removes the sectors from each slot.
fn cut_all(
    slots: &Vec<Slot>,
    align: u64,
    first: u64,
    last: u64,
) -> std::result::Result<Vec<Slot>, AllocError>
    requires aligned { 0 < align }
    ensures { IfOk result (λ v. pairs_of v.items ≡ flat_map (rest_of align first last) (pairs_of slots.now.items)) }
{
    let mut rest = Vec::new(*slots.allocator());
    for slot in slots {
        push_some(&mut rest, before(*slot, first))?;
        push_some(&mut rest, behind(*slot, align, last))?;
    }
    Ok(rest)
}

fn push_some(slots: &mut Vec<Slot>, slot: Option<Slot>) -> std::result::Result<(), AllocError>
    ensures { OnOk result (slots.new.items ≡ slots.old.items ++ option_to_list slot) }
{
    if let Some(slot) = slot {
        slots.push(slot)?;
    }
    Ok(())
}

// Returns the part of the slot before sector `first`.
fn before(slot: Slot, first: u64) -> Option<Slot>
    ensures { option_map pair_of result ≡ before_of first (pair_of slot) }
{
    if slot.start < first {
        Some(Slot {
            start: slot.start,
            length: slot.length.min(first - slot.start),
        })
    } else {
        None
    }
}

// Returns the slot in the part after sector `last`.
fn behind(slot: Slot, align: u64, last: u64) -> Option<Slot>
    requires aligned { 0 < align }
    ensures { option_map pair_of result ≡ behind_of align last (pair_of slot) }
{
    let end = slot.last();
    if end <= last {
        return None;
    }
    let from = slot.start.max(last + 1);
    let skipped = skip(align, from);
    if skipped <= end - from {
        Some(Slot {
            start: from + skipped,
            length: end - from - skipped + 1,
        })
    } else {
        None
    }
}

// Returns `size` sectors in the chosen slot.
fn span_in(slots: &[Slot], table: &GPT, size: u64, choice: Choice) -> Option<SectorRange>
    requires aligned { 0 < table.now.align }
    requires sized { 0 < size }
    requires chosen { choice ≢ InLongest }
    requires slots { AreSlotsOf table.now table.now.align slots.now }
    ensures { FindsSpan (Free size choice) table.now result }
{
    let Some(slot) = pick(slots, size, choice) else {
        return None;
    };
    let first = start_in(slot, table.align, size, choice);
    Some(SectorRange {
        first,
        last: first + (size - 1),
    })
}

// Returns where `size` sectors start in the chosen slot.
fn start_in(slot: Slot, align: u64, size: u64, choice: Choice) -> u64
    requires aligned { 0 < align }
    requires within { size ≤ slot.length }
    requires sized { 0 < size }
    ensures { result ≡ start_in choice align size (pair_of slot) }
{
    match choice {
        Choice::Last => slot.start + (slot.length - size) / align * align,
        Choice::First => slot.start,
        Choice::Best => slot.start,
        Choice::Longest => slot.start,
    }
}

// Returns `size` sectors in the longest run, from the first multiple of the alignment in it.
fn span_in_longest(runs: &[Slot], table: &GPT, size: u64) -> Option<SectorRange>
    requires aligned { 0 < table.now.align }
    requires sized { 0 < size }
    requires runs { AreSlotsOf table.now 1 runs.now }
    ensures { FindsSpan (Free size InLongest) table.now result }
{
    let Some(run) = pick(runs, 1, Choice::Longest) else {
        return None;
    };
    let skipped = skip(table.align, run.start);
    if skipped <= run.length && size <= run.length - skipped {
        let first = run.start + skipped;
        Some(SectorRange {
            first,
            last: first + (size - 1),
        })
    } else {
        None
    }
}

// Returns the chosen one of the slots with at least `size` sectors.
fn pick(slots: &[Slot], size: u64, choice: Choice) -> Option<Slot>
    ensures { MatchOption result (AreShort size (pairs_of slots.now))
        (λ s. IsBestSlot (IsNoWorse choice) size (pairs_of slots.now) (pair_of s)) }
{
    let mut found = None;
    for slot in slots {
        if is_taken(*slot, found, size, choice) {
            found = Some(*slot);
        }
    }
    found
}

// Reports whether the slot has at least `size` sectors and is chosen over the one found so far.
fn is_taken(slot: Slot, found: Option<Slot>, size: u64, choice: Choice) -> bool
    ensures { MatchBool result (size ≤ slot.length × IfSome found (λ s. IsNoWorse choice (pair_of slot) (pair_of s)))
        (size ≤ slot.length → IsSomeAnd found (λ s. IsNoWorse choice (pair_of s) (pair_of slot))) }
{
    slot.length >= size
        && match found {
            Some(other) => is_better(slot, other, choice),
            None => true,
        }
}

// Reports whether the slot is chosen over the other.
fn is_better(slot: Slot, other: Slot, choice: Choice) -> bool
    ensures { MatchBool result (IsNoWorse choice (pair_of slot) (pair_of other))
        (IsNoWorse choice (pair_of other) (pair_of slot)) }
{
    let is_earlier = slot.start < other.start;
    match choice {
        Choice::First => is_earlier,
        Choice::Last => slot.start > other.start,
        Choice::Best => slot.length < other.length || (slot.length == other.length && is_earlier),
        Choice::Longest => {
            slot.length > other.length || (slot.length == other.length && is_earlier)
        }
    }
}
