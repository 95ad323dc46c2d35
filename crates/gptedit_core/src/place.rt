//! The requested place of a partition, and the sectors that it gets.

ghost use Rattle.std.specs.Prelude.{◌≡◌, ◌≢◌, ◌≤◌, ◌<◌, ℕ, ◌+◌, ◌^◌, All, Contains, IfErr, IfOk};
ghost use Rattle.std.specs.Prelude.{IsTrue, MatchOption};
ghost use Rattle.gptman.specs.Entry.{covers};
ghost use Rattle.gptman.specs.Fault.{fault_of, out_of_memory};
ghost use Rattle.gptman.specs.Place.{EndsIn64Bits, HasNoSlot, IsFirstMultiple, IsFreeIn};
ghost use Rattle.gptman.specs.Table.{entries_in};
ghost use Rattle.gptedit_core.specs.Placing.{trimmed, AreFreeBehind, FindsSpan, HasNoEnd, HasNoLongestPlace};
ghost use Rattle.gptedit_core.specs.Placing.{HasSector, IsFurthestEnd, IsLastEnd, IsLongestPlace, IsLongestRun};
ghost use Rattle.gptedit_core.specs.Sectors.{pairs_of};
ghost use Rattle.gptedit_core.specs.Slots.{AreSlotsOf};
ghost use Rattle.gptedit_core.specs.declared.place.Place.TheVariants.{Free, From, Longest};

use crate::asked::Choice;
use crate::sectors::{SectorRange, Slot};
use gptman::{Error, GPT, GPTPartitionEntry, Result};
use std::alloc::AllocError;

/// The requested place of a partition, in sectors.
#[derive(Clone, Copy, PartialEq, Eq, Debug)]
pub enum Place {
    /// From `first` to `last`.
    At { first: u64, last: u64 },
    /// From `first` to the end of the free range there.
    From { first: u64 },
    /// `size` sectors, but at least one, at a chosen place.
    Free { size: u64, choice: Choice },
    /// As many sectors as the longest free range has room for, rounded down to a multiple of the alignment.
    Longest,
}

impl Place {
    /// Returns the sectors of this place in the table, or `None` if there is no room for it. A place without a size
    /// ends before a multiple of the alignment, if it can.
    ///
    /// Fails only with `OutOfMemory`.
    pub fn find(self, table: &GPT) -> Result<Option<SectorRange>>
        requires aligned { 0 < table.now.align }
        ensures refused { IfErr result (λ e. fault_of e ≡ out_of_memory) }
        ensures value { IfOk result (FindsSpan self table.now) }
    {
        match self {
            Place::At { first, last } => Ok(Some(SectorRange { first, last })),
            Place::From { first } => find_rest(table, first),
            Place::Free { size, choice } => find_free(table, size.max(1), choice),
            Place::Longest => find_longest(table),
        }
    }
}

#[tactic(auto, using(crate::proofs::Runs::run_at, crate::proofs::Runs::no_run))]
fn find_rest(table: &GPT, first: u64) -> Result<Option<SectorRange>>
    requires aligned { 0 < table.now.align }
    ensures refused { IfErr result (λ e. fault_of e ≡ out_of_memory) }
    ensures value { IfOk result (FindsSpan (From first) table.now) }
{
    let runs = find_runs(table)?;
    match run_with(&runs, first) {
        Some(run) => {
            let end = run.last();
            let last = trim(table.align, first, end);
            Ok(Some(SectorRange { first, last }))
        }
        None => Ok(None),
    }
}

// Returns where a partition ends that is lengthened over the free sectors after it: before a multiple of the
// alignment, or where it ended.
pub(crate) fn find_end(table: &GPT, first: u64, last: u64) -> u64
    requires aligned { 0 < table.now.align }
    ensures { IsFurthestEnd (IsFreeIn table.now) table.now.align first last result }
{
    if first > last {
        return last;
    }
    match last_end(table.align, find_far(table, last)) {
        Some(end) => end.max(last),
        None => last,
    }
}

// Returns the last of the free sectors that directly follow this one, or this one if the next is not free.
fn find_far(table: &GPT, last: u64) -> u64
    ensures kept { last ≤ result }
    ensures free { AreFreeBehind (IsFreeIn table.now) last result }
    ensures ends { ¬ IsFreeIn table.now (result + 1) }
{
    let mut far = last;
    if table.header.first_usable_lba.saturating_sub(1) <= last {
        far = last.max(table.header.last_usable_lba);
    }
    for (_, entry) in table.iter() {
        far = far_before(entry, last, far);
    }
    far
}

// Returns `far`, or the last sector before an entry after `last` if that is lower, but at least `last`.
fn far_before(entry: &GPTPartitionEntry, last: u64, far: u64) -> u64
    requires { last ≤ far }
    ensures low { last ≤ result }
    ensures high { result ≤ far }
    ensures free { (x : ℕ) → last < x → x ≤ result → ¬ IsTrue (covers x entry.now) }
    ensures ends { result ≢ far → IsTrue (covers (result + 1) entry.now) }
{
    let (start, end) = (entry.starting_lba, entry.ending_lba);
    if entry.is_used() && start <= end && start <= far && last < end {
        last.max(start.saturating_sub(1))
    } else {
        far
    }
}

// Returns the last sector up to `far` that is followed by a multiple of the alignment.
#[tactic(auto, using(crate::proofs::Ends::last_here, crate::proofs::Ends::last_before, crate::proofs::Ends::none_before))]
fn last_end(align: u64, far: u64) -> Option<u64>
    requires { 0 < align }
    ensures { MatchOption result (HasNoEnd align far) (IsLastEnd align far) }
{
    let over = far % align + 1;
    if over == align {
        return Some(far);
    }
    if far < over {
        return None;
    }
    Some(far - over)
}

// Returns the free slots, at multiples of the alignment.
pub(crate) fn find_slots(table: &GPT) -> Result<Vec<Slot>>
    requires { 0 < table.now.align }
    ensures refused { IfErr result (λ e. fault_of e ≡ out_of_memory) }
    ensures value { IfOk result (λ v. AreSlotsOf table.now table.now.align v.items) }
{
    let pairs = table.find_free_sectors()?;
    Ok(name_slots(&pairs)?)
}

// Returns the runs of free sectors.
pub(crate) fn find_runs(table: &GPT) -> Result<Vec<Slot>>
    ensures refused { IfErr result (λ e. fault_of e ≡ out_of_memory) }
    ensures value { IfOk result (λ v. AreSlotsOf table.now 1 v.items) }
{
    let mut table = table.clone()?;
    table.align = 1;
    find_slots(&table)
}

// Returns the slots that the library lists as (start, length).
fn name_slots(pairs: &Vec<(u64, u64)>) -> std::result::Result<Vec<Slot>, AllocError>
    requires some { All (λ s. 0 < s.1) pairs.now.items }
    requires fits { All (λ s. s.0 + s.1 ≤ 2 ^ 64) pairs.now.items }
    ensures { IfOk result (λ v. pairs_of v.items ≡ pairs.now.items) }
{
    let mut slots = Vec::with_capacity(*pairs.allocator(), pairs.len())?;
    for pair in pairs {
        let slot = Slot::of(pair.0, pair.1);
        slots.push(slot)?;
    }
    Ok(slots)
}

// Returns the run that contains this sector.
fn run_with(runs: &[Slot], sector: u64) -> Option<Slot>
    ensures { MatchOption result (All (λ r. ¬ HasSector sector r.start r.length) runs.now)
        (λ r. Contains runs.now r × HasSector sector r.start r.length) }
{
    runs.iter().copied().find(|run| run.start <= sector && sector - run.start < run.length)
}

fn find_free(table: &GPT, size: u64, choice: Choice) -> Result<Option<SectorRange>>
    requires aligned { 0 < table.now.align }
    requires sized { 0 < size }
    ensures refused { IfErr result (λ e. fault_of e ≡ out_of_memory) }
    ensures value { IfOk result (FindsSpan (Free size choice) table.now) }
{
    let found = match choice {
        Choice::First => table.find_first_place(size),
        Choice::Last => table.find_last_place(size),
        Choice::Best => table.find_optimal_place(size),
        Choice::Longest => find_in_longest(table, size),
    };
    match found? {
        Some(first) => Ok(Some(SectorRange {
            first,
            last: first + (size - 1),
        })),
        None => Ok(None),
    }
}

// Returns the first multiple of the alignment in the longest run, if at least `size` sectors of the run are left from
// there.
fn find_in_longest(table: &GPT, size: u64) -> Result<Option<u64>>
    requires aligned { 0 < table.now.align }
    requires sized { 0 < size }
    ensures refused { IfErr result (λ e. fault_of e ≡ out_of_memory) }
    ensures value { IfOk result (λ found. MatchOption found (HasNoLongestPlace (IsFreeIn table.now) table.now.align size)
        (IsLongestPlace (IsFreeIn table.now) table.now.align size)) }
    ensures fits { IfOk result (EndsIn64Bits size) }
{
    let Some(run) = find_longest_run(table)? else {
        return Ok(None);
    };
    let skipped = skip(table.align, run.start);
    if skipped <= run.length && size <= run.length - skipped {
        Ok(Some(run.start + skipped))
    } else {
        Ok(None)
    }
}

// Returns the longest run of free sectors, the first of equals.
#[tactic(auto, using(crate::proofs::Runs::longest_some))]
fn find_longest_run(table: &GPT) -> Result<Option<Slot>>
    ensures refused { IfErr result (λ e. fault_of e ≡ out_of_memory) }
    ensures value { IfOk result (λ found. MatchOption found (HasNoSlot (IsFreeIn table.now) 1)
        (λ r. IsLongestRun (IsFreeIn table.now) r.start r.length)) }
{
    let mut table = table.clone()?;
    table.align = 1;
    match table.get_maximum_partition_size() {
        Ok(length) => match table.find_optimal_place(length)? {
            Some(start) => Ok(Some(Slot { start, length })),
            None => Ok(None),
        },
        Err(Error::NoSpaceLeft) => Ok(None),
        Err(error) => Err(error),
    }
}

// Returns the number of sectors from this one to the next multiple of the alignment.
pub(crate) fn skip(align: u64, sector: u64) -> u64
    requires { 0 < align }
    ensures { IsFirstMultiple align sector (sector + result) }
{
    match sector % align {
        0 => 0,
        over => align - over,
    }
}

// Returns the longest free range, rounded down to a multiple of the alignment.
fn find_longest(table: &GPT) -> Result<Option<SectorRange>>
    requires aligned { 0 < table.now.align }
    ensures refused { IfErr result (λ e. fault_of e ≡ out_of_memory) }
    ensures value { IfOk result (FindsSpan Longest table.now) }
{
    match table.get_maximum_partition_size() {
        Ok(0) => Ok(None),
        Ok(size) => find_free(table, size, Choice::Best),
        Err(Error::NoSpaceLeft) => Ok(None),
        Err(error) => Err(error),
    }
}

// Moves `last` down to the sector before a multiple of the alignment, unless no sector would be left.
fn trim(align: u64, first: u64, last: u64) -> u64
    requires { 0 < align }
    ensures { result ≡ trimmed align first last }
{
    let spare = last % align + 1;
    if spare < align && spare <= last && first <= last - spare {
        last - spare
    } else {
        last
    }
}
