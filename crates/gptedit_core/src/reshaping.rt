//! A request for a table that gets another number of entries or other usable sectors, in the same write.

ghost use Rattle.std.specs.Prelude.{◌≡◌, ◌<◌, ◌+◌, ◌-◌, ◌^◌, ℕ, None, Some, IfErr, IfOk, IsOk, vec_len};
ghost use Rattle.gptman.specs.Fault.{fault_of, out_of_memory};
ghost use Rattle.gptman.specs.Layout.{HasLayout};
ghost use Rattle.gptman.specs.Table.{entries_in};
ghost use Rattle.gptedit_core.specs.Applying.{IsStopOf};
ghost use Rattle.gptedit_core.specs.Making.{copy_place_of, usable_of, AreBounds, IsEmptyFor};
ghost use Rattle.gptedit_core.specs.Planning.{IsMemoryFault, MayAsk, RefusesJob};
ghost use Rattle.gptedit_core.specs.Reshaping.{cut, entries_sector, has_random_reshaped, kept_first, kept_last};
ghost use Rattle.gptedit_core.specs.Reshaping.{lowest_above, padded, sectors_of_entries, shape_of, widened};
ghost use Rattle.gptedit_core.specs.Reshaping.{HasBoundsAt, HasRoomAt, IsDoneAt, IsLeftReshaped, IsReshaped, IsWrittenReshaped, RefusesReshaped};
ghost use Rattle.gptedit_core.specs.declared.refusal.Refusal.TheVariants.{NoEntry, OutOfBounds};

use crate::growth::refuse;
use crate::making::{are_bounds, make_empty};
use crate::order::has_order;
use crate::plan::{Outcome, Request, check, decide, do_job, is_needed};
use crate::refusal::{Refusal, Stop};
use crate::sectors::SectorRange;
use gptman::sizes::ENTRY_SIZE;
use gptman::{Disk, GPT, GPTPartitionEntry};
use gptman_change::{Plan, Planned};
use std::alloc::Global;

/// The number of entries of a table, and its usable sectors.
#[derive(Clone, Copy, PartialEq, Eq, Debug)]
pub struct Shape {
    /// The number of entries.
    pub entries: u32,
    /// The first usable sector.
    pub first_usable: u64,
    /// The last usable sector.
    pub last_usable: u64,
}

/// What is stated of a shape. `None` means that the value of the table is kept.
#[derive(Clone, Copy, Debug)]
pub struct StatedShape {
    /// The number of entries.
    pub entries: Option<u32>,
    /// The first usable sector.
    pub first_usable: Option<u64>,
    /// The last usable sector.
    pub last_usable: Option<u64>,
}

/// A request for a table that gets this shape in the same write.
#[derive(Drop, Debug)]
pub struct ReshapedRequest {
    /// The request.
    pub request: Request,
    /// The number of entries and the usable sectors of the new table.
    pub shape: Shape,
    /// If true, a crash during the write may leave neither the old table nor the new one.
    pub may_lose: bool,
}

impl StatedShape {
    /// Returns the shape of the table with the stated values. With another number of entries, a usable sector that is
    /// not stated stays next to the entries if it was, and else moves only as far as they need.
    pub fn complete(self, table: &GPT) -> Shape
        ensures { result ≡ shape_of table.now self }
    {
        let header = &table.header;
        let entries = self.entries.unwrap_or(header.number_of_partition_entries);
        let old = count_sectors(header.number_of_partition_entries, table.sector_size);
        let new = count_sectors(entries, table.sector_size);
        let last = header.primary_lba.max(header.backup_lba);
        Shape {
            entries,
            first_usable: match self.first_usable {
                Some(sector) => sector,
                None => keep_first(header.first_usable_lba, old, new),
            },
            last_usable: match self.last_usable {
                Some(sector) => sector,
                None => keep_last(header.last_usable_lba, last, old, new),
            },
        }
    }
}

// Returns the number of sectors that entries take.
fn count_sectors(entries: u32, sector_size: u64) -> u64
    ensures value { result ≡ sectors_of_entries entries sector_size }
    ensures few { result < 2 ^ 40 }
{
    (u64::from(entries) * u64::from(ENTRY_SIZE)).div_ceil(sector_size.max(1))
}

// Returns the first usable sector if entries that took `old` sectors take `new` ones.
fn keep_first(first: u64, old: u64, new: u64) -> u64
    requires old { old < 2 ^ 40 }
    requires new { new < 2 ^ 40 }
    ensures { result ≡ kept_first first old new }
{
    if old == new {
        first
    } else if first == 2 + old {
        2 + new
    } else {
        first.max(2 + new)
    }
}

// Returns the last usable sector if entries that took `old` sectors take `new` ones. The disk ends with sector `end`.
fn keep_last(last: u64, end: u64, old: u64, new: u64) -> u64
    ensures { result ≡ kept_last last end old new }
{
    if old == new {
        last
    } else if last == before_entries(end, old) {
        before_entries(end, new)
    } else {
        last.min(before_entries(end, new))
    }
}

// Returns the sector before entries that take this number of sectors before sector `end`.
fn before_entries(end: u64, sectors: u64) -> u64
    ensures { result ≡ end - sectors - 1 }
{
    end.saturating_sub(sectors).saturating_sub(1)
}

impl Shape {
    /// Returns the table with these usable sectors, and with unused entries after its own up to this number. It may have
    /// more entries. No sector is tested.
    ///
    /// Fails only with `OutOfMemory`.
    pub fn widen(self, alloc: Global, table: &GPT) -> gptman::Result<GPT>
        ensures value { IfOk result (λ next. next ≡ widened self table.now) }
        ensures refused { IfErr result (λ e. fault_of e ≡ out_of_memory) }
    {
        let mut header = table.header;
        header.first_usable_lba = self.first_usable;
        header.last_usable_lba = self.last_usable;
        let entries = pad(alloc, table, self.entries)?;
        Ok(GPT::from_parts(table.sector_size, header, entries, table.align))
    }

    // Returns the table with this number of entries, if those after them are unused. It must have these usable sectors.
    fn cut(self, alloc: Global, table: &GPT) -> Result<GPT, Stop>
        requires last { self.last_usable + 1 < 2 ^ 64 }
        ensures value { IfOk result (λ next. next ≡ cut self table.now) }
        ensures spare { IsOk result → lowest_above self.entries table.now ≡ None }
        ensures refused { IfErr result (IsStopOf (λ r. (i : ℕ)
            × (lowest_above self.entries table.now ≡ Some i) × (r ≡ NoEntry i))) }
    {
        if let Some(number) = find_above(table, self.entries) {
            return Err(Stop::Refused(Refusal::NoEntry(number)));
        }
        let mut header = table.header;
        header.number_of_partition_entries = self.entries;
        header.partition_entry_lba = self.entries_sector(table);
        let mut entries = copy_entries(alloc, table)?;
        entries.truncate(self.entries as usize);
        Ok(GPT::from_parts(table.sector_size, header, entries, table.align))
    }

    // Returns the first sector of the entries of the copy that the table is.
    fn entries_sector(self, table: &GPT) -> u64
        requires { self.last_usable + 1 < 2 ^ 64 }
        ensures { result ≡ entries_sector (copy_place_of table.now.header) self.last_usable }
    {
        if table.is_primary() {
            2
        } else {
            self.last_usable + 1
        }
    }
}

// Returns the lowest number above `count` of a used entry.
fn find_above(table: &GPT, count: u32) -> Option<u32>
    ensures { result ≡ lowest_above count table.now }
{
    for (number, entry) in table.iter() {
        if number > count && entry.is_used() {
            return Some(number);
        }
    }
    None
}

// Returns the entries of the table, and unused ones after them up to `count`.
fn pad(alloc: Global, table: &GPT, count: u32) -> gptman::Result<Vec<GPTPartitionEntry>>
    ensures value { IfOk result (λ entries. entries.items ≡ padded count (entries_in table.now)) }
    ensures few { IfOk result (λ entries. vec_len entries < 2 ^ 32) }
    ensures refused { IfErr result (λ e. fault_of e ≡ out_of_memory) }
{
    let mut entries = copy_entries(alloc, table)?;
    let spare = (count as usize).saturating_sub(entries.len());
    for _ in 0..spare {
        entries.push(GPTPartitionEntry::empty(alloc))?;
    }
    Ok(entries)
}

// Returns the entries of the table.
fn copy_entries(alloc: Global, table: &GPT) -> gptman::Result<Vec<GPTPartitionEntry>>
    ensures value { IfOk result (λ entries. entries.items ≡ entries_in table.now) }
    ensures few { IfOk result (λ entries. vec_len entries < 2 ^ 32) }
    ensures refused { IfErr result (λ e. fault_of e ≡ out_of_memory) }
{
    let mut entries = Vec::new(alloc);
    for (_, entry) in table.iter() {
        entries.push(entry.clone()?)?;
    }
    Ok(entries)
}

/// The plan refuses a disk without room for two copies of the new table, usable sectors that are not between them, and a
/// used entry that the new table would not have. Otherwise it refuses what the request refuses for the table with these
/// usable sectors, and, unless `may_lose` is set, a table whose copy would be overwritten first.
impl Plan for ReshapedRequest {
    type Answer = Outcome;

    ghost ready = { has_random_reshaped };

    ghost makes = { IsWrittenReshaped };

    ghost leaves = { IsLeftReshaped };

    ghost refuses = { IsMemoryFault };

    ghost asks = { MayAsk };

    /// Fails with `Io` if the length of the disk cannot be read, and with `OutOfMemory`.
    fn change<D: Disk>(
        &self,
        alloc: Global,
        disk: &mut D,
        table: &mut GPT,
    ) -> gptman::Result<Planned<Outcome>> {
        let guid = table.header.disk_guid;
        let entries = self.shape.entries;
        let (size, empty) = make_empty(alloc, disk, table.sector_size, guid, entries)?;
        match make_reshaped(self, alloc, table, size, empty) {
            Ok(next) => {
                let is_needed = is_needed(&self.request.job, table, &next);
                decide(table, next, is_needed, self.request.is_dry)
            }
            Err(Stop::Refused(refusal)) => refuse(table, refusal),
            Err(Stop::Failed(error)) => Err(error),
        }
    }
}

/// Makes the new table. `empty` is the new table without partitions on a disk of `size` bytes, if there is room for it.
pub(crate) fn make_reshaped(
    reshaped: &ReshapedRequest,
    alloc: Global,
    was: &GPT,
    size: u64,
    empty: Option<GPT>,
) -> Result<GPT, Stop>
    requires ready { has_random_reshaped reshaped.now }
    requires sector { 0 < was.now.sector_size }
    requires empty { IsEmptyFor reshaped.now.shape.entries was.now.header.disk_guid was.now.sector_size size empty }
    ensures planned { IfOk result (IsReshaped reshaped.now size was.now) }
    ensures refused { IfErr result (IsStopOf (RefusesReshaped reshaped.now size was.now)) }
{
    if !was.has_layout(size) {
        return Err(Stop::Refused(Refusal::NotLaidOut));
    }
    let shape = reshaped.shape;
    let Some(empty) = empty else {
        return Err(Stop::Refused(Refusal::TooSmallFor(shape.entries)));
    };
    refuse_bounds(shape, &empty)?;
    let mid = do_reshaped(reshaped, alloc, was)?;
    finish(reshaped, alloc, was, size, &mid)
}

// Does the job on the table with the usable sectors and the entries of the shape.
fn do_reshaped(reshaped: &ReshapedRequest, alloc: Global, was: &GPT) -> Result<GPT, Stop>
    requires ready { has_random_reshaped reshaped.now }
    requires sector { 0 < was.now.sector_size }
    ensures done { IfOk result (IsDoneAt reshaped.now was.now) }
    ensures refused { IfErr result (IsStopOf (RefusesJob reshaped.now.request.job
        reshaped.now.request.random.items (widened reshaped.now.shape was.now))) }
{
    let mut table = reshaped.shape.widen(alloc, was)?;
    do_job(
        alloc,
        &reshaped.request.job,
        &reshaped.request.random,
        &mut table,
    )?;
    Ok(table)
}

// Returns the new table, of which `mid` is the result of the job.
fn finish(
    reshaped: &ReshapedRequest,
    alloc: Global,
    was: &GPT,
    size: u64,
    mid: &GPT,
) -> Result<GPT, Stop>
    requires layout { HasLayout was.now size }
    requires room { HasRoomAt reshaped.now.shape was.now size }
    requires bounds { HasBoundsAt reshaped.now.shape was.now size }
    requires done { IsDoneAt reshaped.now was.now mid.now }
    ensures planned { IfOk result (IsReshaped reshaped.now size was.now) }
    ensures refused { IfErr result (IsStopOf (RefusesReshaped reshaped.now size was.now)) }
{
    let next = reshaped.shape.cut(alloc, mid)?;
    check(&next, size)?;
    if !has_order(reshaped.may_lose, was, &next, size) {
        return Err(Stop::Refused(Refusal::NoSafeOrder));
    }
    Ok(next)
}

// Refuses usable sectors that are not between the copies of the empty table.
fn refuse_bounds(shape: Shape, empty: &GPT) -> Result<(), Stop>
    ensures bounds { IsOk result → AreBounds empty.now.header.first_usable_lba empty.now.header.last_usable_lba
        shape.first_usable shape.last_usable }
    ensures refused { IfErr result (IsStopOf (λ r. (¬ AreBounds empty.now.header.first_usable_lba
        empty.now.header.last_usable_lba shape.first_usable shape.last_usable)
        × (r ≡ OutOfBounds (usable_of empty.now)))) }
{
    let usable = SectorRange {
        first: empty.header.first_usable_lba,
        last: empty.header.last_usable_lba,
    };
    if are_bounds(usable, shape.first_usable, shape.last_usable) {
        Ok(())
    } else {
        Err(Stop::Refused(Refusal::OutOfBounds(usable)))
    }
}
