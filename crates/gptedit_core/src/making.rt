//! Makes a new table, and writes it once: over an old table, or without reading one.

ghost use Rattle.std.specs.Prelude.{◌≡◌, ◌⊎◌, ◌<◌, ◌↔◌, true, false, IfErr, IfOk, IfSome, IsTrue, OnErr, OnOk};
ghost use Rattle.gptman.specs.Answers.{HasCause, IsFailure, ReportsFailure};
ghost use Rattle.gptman.specs.Disk.{FailedOrUntouched, IsHonest, Keeps, OnlyRead};
ghost use Rattle.gptman.specs.Disk.{Reads};
ghost use Rattle.gptman.specs.Fault.{fault_of, out_of_memory};
ghost use Rattle.gptman.specs.Table.{Table};
ghost use Rattle.gptman_change.specs.Changes.{AnswersChange, IsSafe, LeavesChange, RefusesChange};
ghost use Rattle.gptman_change.specs.Changes.{StartsGoodFor};
ghost use Rattle.gptman_change.specs.Reads.{size_for};
ghost use Rattle.gptedit_core.specs.Applying.{IsStopOf};
ghost use Rattle.gptedit_core.specs.Making.{bounded, copy_place_of, empty_of, has_random_in, put_at, usable_of};
ghost use Rattle.gptedit_core.specs.Making.{AnswersMaking, AreBounds, HasBounds, HasRoomOf, IsEmpty, IsEmptyFor, IsFitted};
ghost use Rattle.gptedit_core.specs.Making.{IsLeftAnew, IsNew};
ghost use Rattle.gptedit_core.specs.Making.{IsRemade, IsWrittenAnew, LeavesMaking, RefusesMaking, RefusesNew};
ghost use Rattle.gptedit_core.specs.Making.{IsAppliedIf, IsPlannedNew, KeepsLaidOut, MayBeReplaced, RefusesAskedIf, RefusesRemaking};
ghost use Rattle.gptman.specs.Write.{has_other_header};
ghost use Rattle.gptedit_core.specs.Planning.{IsMemoryFault, MayAsk};
ghost use Rattle.gptedit_core.specs.declared.refusal.Refusal.TheVariants.{OutOfBounds};

use crate::applying::apply_layout;
use crate::asked::RequestedLayout;
use crate::order::has_order;
use crate::plan::{Outcome, check, decide};
use crate::refusal::{Refusal, Stop};
use crate::sectors::SectorRange;
use gptman::{Disk, Error, GPT};
use gptman_change::{Plan, Planned, change_table};
use std::alloc::Global;

/// A new table, and how it is written.
#[derive(Drop, Debug)]
pub struct Creation {
    /// The GUID of the disk, unless the layout has one.
    pub guid: [u8; 16],
    /// The number of entries.
    pub entries: u32,
    /// The first usable sector. `None` means the first one after the primary copy.
    pub first_usable: Option<u64>,
    /// The last usable sector. `None` means the last one before the backup copy.
    pub last_usable: Option<u64>,
    /// The partitions of the new table, if any.
    pub layout: Option<RequestedLayout>,
    /// Random GUIDs, at least one for each entry that the layout names.
    pub random: Vec<[u8; 16]>,
    /// If true, a crash during the write may leave neither the old table nor the new one.
    pub may_lose: bool,
    /// If true, nothing is written.
    pub is_dry: bool,
}

/// The outcome of `make`.
#[derive(Drop, Debug)]
pub enum Made {
    /// The new table. It was written, unless `is_dry` is set.
    New { next: GPT },
    /// Why there is no new table. Nothing was written.
    Refused { refusal: Refusal },
}

/// Reads the table on the disk, and writes a new one with the same sector size over it, to both places in one write.
/// Writes nothing if the creation is a dry run or is refused. The new table is written in the form of the copy that
/// was read, so that this copy is overwritten last. `sector_size` is as for `edit`.
///
/// # Errors
///
/// Those of `edit`.
pub fn remake<D: Disk>(
    alloc: Global,
    disk: &mut D,
    sector_size: Option<u64>,
    creation: &Creation,
) -> gptman::Result<Outcome>
    requires sector { IfSome sector_size (λ size. 0 < size) }
    requires random { has_random_in creation.now }
    ensures keeps { Keeps (D.state disk.old) (D.state disk.new) }

    // After `Ok` both places hold the new table, and each copy by itself is read as it; or the disk was only read,
    // and the outcome says why nothing was written.
    ensures done { IsHonest (D.state disk.old) → IfOk result (λ outcome. AnswersChange
        (IsWrittenAnew creation.now (D.state disk.old).size) (IsLeftAnew creation.now (D.state disk.old).size)
        sector_size outcome (D.state disk.old) (D.state disk.new)) }

    // After an error the disk is unchanged, unless the disk failed.
    ensures refused { IsHonest (D.state disk.old) → IfErr result (λ e. RefusesChange
        (IsWrittenAnew creation.now (D.state disk.old).size)
        (IsMemoryFault creation.now (D.state disk.old).size)
        (MayAsk creation.now) sector_size (fault_of e) (D.state disk.old) (D.state disk.new)) }
    ensures cause { HasCause result (D.state disk.old) (D.state disk.new) }
    ensures kept { IsHonest (D.state disk.old)
        → OnErr result (FailedOrUntouched (D.state disk.old) (D.state disk.new)) }

    // A dry run only reads.
    ensures dry { IsHonest (D.state disk.old) → creation.now.is_dry ≡ true
        → OnlyRead (D.state disk.old) (D.state disk.new) }

    // Unless `may_lose` is set: if at least one copy is good, all good copies are of one table, and nothing was
    // unsynced before, a crash or disk fault at any moment leaves that table or the new one. The numbers of entries
    // may differ.
    ensures safe { creation.now.may_lose ≡ false → (was : Table)
        → StartsGoodFor (D.state disk.old) sector_size was
        → IsSafe (IsWrittenAnew creation.now (D.state disk.old).size)
        (size_for (D.state disk.old).view sector_size) was (D.state disk.old) (D.state disk.new) }

    // Also if `may_lose` is set: if one good copy is clear of the ranges written first, and nothing was unsynced
    // before, a crash or disk fault leaves its table or the new one. The law `safe_orders_keep_a_copy` says when the
    // copy that was read is clear of them.
    ensures leaves { IsHonest (D.state disk.old) → LeavesChange
        (IsWrittenAnew creation.now (D.state disk.old).size) sector_size
        (D.state disk.old) (D.state disk.new) }
{
    change_table(alloc, disk, sector_size, creation)
}

/// Writes a new table without reading an old one: the backup copy, then the primary copy, with a sync after each.
/// Writes nothing if the creation is a dry run or is refused; it is refused before the first write. `sector_size` is
/// in bytes.
///
/// # Errors
///
/// Those of `GPT::write_into`, `Io` if the length of the disk cannot be read, and `OutOfMemory`. After any error
/// other than `Io` the disk is unchanged.
pub fn make<D: Disk>(
    alloc: Global,
    disk: &mut D,
    sector_size: u64,
    creation: &Creation,
) -> gptman::Result<Made>
    requires sector { 0 < sector_size }
    requires random { has_random_in creation.now }
    ensures keeps { Keeps (D.state disk.old) (D.state disk.new) }

    // After `Ok` both places hold the new table, and each copy by itself is read as it; or it was a dry run; or the
    // table is refused. In the last two cases nothing was written.
    ensures done { IsHonest (D.state disk.old) → IfOk result (λ made. AnswersMaking creation.now sector_size
        made (D.state disk.old) (D.state disk.new)) }

    // After an error the disk is unchanged, unless it failed during the write of the table.
    ensures refused { IsHonest (D.state disk.old) → IfErr result (λ e. RefusesMaking creation.now sector_size
        (fault_of e) (D.state disk.old) (D.state disk.new)) }
    ensures cause { HasCause result (D.state disk.old) (D.state disk.new) }
    ensures kept { IsHonest (D.state disk.old)
        → OnErr result (FailedOrUntouched (D.state disk.old) (D.state disk.new)) }

    // A dry run only reads.
    ensures dry { IsHonest (D.state disk.old) → creation.now.is_dry ≡ true
        → OnlyRead (D.state disk.old) (D.state disk.new) }

    // At no moment does a byte outside the four ranges of the new table change.
    ensures leaves { IsHonest (D.state disk.old) → LeavesMaking creation.now sector_size
        (D.state disk.old) (D.state disk.new) }
{
    let next = match plan(alloc, disk, sector_size, creation)? {
        Made::New { next } => next,
        Made::Refused { refusal } => return Ok(Made::Refused { refusal }),
    };
    if creation.is_dry {
        return Ok(Made::New { next });
    }
    let mut written = next.clone()?;
    written.write_into(disk)?;
    Ok(Made::New { next })
}

/// The plan replaces an old table. Unless `may_lose` is set, it refuses an old table that does not have the stated
/// layout, and one whose copy would be overwritten first.
impl Plan for Creation {
    type Answer = Outcome;

    ghost ready = { has_random_in };

    ghost makes = { IsWrittenAnew };

    ghost leaves = { IsLeftAnew };

    ghost refuses = { IsMemoryFault };

    ghost asks = { MayAsk };

    /// Fails with `Io` if the length of the disk cannot be read, and with `OutOfMemory`.
    fn change<D: Disk>(
        &self,
        alloc: Global,
        disk: &mut D,
        table: &mut GPT,
    ) -> gptman::Result<Planned<Outcome>> {
        let size = table.sector_size;
        let (size, empty) = make_empty(alloc, disk, size, self.guid, self.entries)?;
        match replace(self, alloc, size, table, empty) {
            Ok(next) => decide(table, next, true, self.is_dry),
            Err(Stop::Failed(error)) => Err(error),
            Err(Stop::Refused(refusal)) => Ok(Planned::Leave(Outcome::Refused {
                table: table.clone()?,
                refusal,
            })),
        }
    }
}

// Plans the new table, in primary form.
fn plan<D: Disk>(
    alloc: Global,
    disk: &mut D,
    sector_size: u64,
    creation: &Creation,
) -> gptman::Result<Made>
    requires sector { 0 < sector_size }
    requires random { has_random_in creation.now }
    ensures reads { Reads (D.state disk.old) (D.state disk.new) }
    ensures refused { IfErr result (λ e. (fault_of e ≡ out_of_memory)
        ⊎ IsFailure (fault_of e) (D.state disk.old) (D.state disk.new)) }
    ensures cause { HasCause result (D.state disk.old) (D.state disk.new) }
    ensures value { IfOk result (IsPlannedNew creation.now sector_size (D.state disk.old).size) }
{
    let (guid, entries) = (creation.guid, creation.entries);
    let (size, empty) = make_empty(alloc, disk, sector_size, guid, entries)?;
    let Some(empty) = empty else {
        let refusal = Refusal::TooSmallFor(creation.entries);
        return Ok(Made::Refused { refusal });
    };
    match fill(creation, alloc, size, empty) {
        Ok(next) => Ok(Made::New { next }),
        Err(Stop::Refused(refusal)) => Ok(Made::Refused { refusal }),
        Err(Stop::Failed(error)) => Err(error),
    }
}

/// Returns the length of the disk and a table without partitions that is fitted to it, or `None` in its place if the
/// disk has no room for two copies.
pub(crate) fn make_empty<D: Disk>(
    alloc: Global,
    disk: &mut D,
    sector_size: u64,
    guid: [u8; 16],
    entries: u32,
) -> gptman::Result<(u64, Option<GPT>)>
    requires { 0 < sector_size }
    ensures reads { Reads (D.state disk.old) (D.state disk.new) }
    ensures failure { ReportsFailure result (D.state disk.old) (D.state disk.new) }
    ensures refused { IfErr result (λ e. (fault_of e ≡ out_of_memory)
        ⊎ IsFailure (fault_of e) (D.state disk.old) (D.state disk.new)) }
    ensures size { IfOk result (λ made. made.0 ≡ (D.state disk.old).size) }
    ensures value { IfOk result (λ made. IsEmptyFor entries guid sector_size made.0 made.1) }
{
    let size = disk.seek_end()?;
    let table = fit_new(alloc, disk, sector_size, guid, entries)?;
    Ok((size, keep_laid_out(table, size)))
}

// Returns a table without partitions that is fitted to the disk, or `None` if its header cannot be fitted.
fn fit_new<D: Disk>(
    alloc: Global,
    disk: &mut D,
    sector_size: u64,
    guid: [u8; 16],
    entries: u32,
) -> gptman::Result<Option<GPT>>
    requires { 0 < sector_size }
    ensures reads { Reads (D.state disk.old) (D.state disk.new) }
    ensures failure { ReportsFailure result (D.state disk.old) (D.state disk.new) }
    ensures refused { IfErr result (λ e. (fault_of e ≡ out_of_memory)
        ⊎ IsFailure (fault_of e) (D.state disk.old) (D.state disk.new)) }
    ensures value { IfOk result (IsFitted entries guid sector_size (D.state disk.old).size) }
{
    match GPT::with_entries(alloc, disk, sector_size, guid, entries) {
        Ok(table) => Ok(Some(table)),
        Err(Error::Overflow) => Ok(None),
        Err(error) => Err(error),
    }
}

// Returns the table if it has the stated layout on a disk of `size` bytes.
fn keep_laid_out(table: Option<GPT>, size: u64) -> Option<GPT>
    ensures { KeepsLaidOut table size result }
{
    match table {
        Some(table) if table.has_layout(size) => Some(table),
        _ => None,
    }
}

// Plans the new table in the form of the one that was read.
fn replace(
    creation: &Creation,
    alloc: Global,
    size: u64,
    was: &GPT,
    empty: Option<GPT>,
) -> Result<GPT, Stop>
    requires random { has_random_in creation.now }
    requires sector { 0 < was.now.sector_size }
    requires empty { IsEmpty creation.now was.now.sector_size size empty }
    ensures planned { IfOk result (IsRemade creation.now size was.now) }
    ensures refused { IfErr result (IsStopOf (RefusesRemaking creation.now size was.now)) }
{
    if !may_be_replaced(creation, was, size) {
        return Err(Stop::Refused(Refusal::NotLaidOut));
    }
    let Some(empty) = empty else {
        return Err(Stop::Refused(Refusal::TooSmallFor(creation.entries)));
    };
    let made = fill(creation, alloc, size, empty)?;
    let next = put_in_form(was, made);
    if !has_order(creation.may_lose, was, &next, size) {
        return Err(Stop::Refused(Refusal::NoSafeOrder));
    }
    Ok(next)
}

fn may_be_replaced(creation: &Creation, was: &GPT, size: u64) -> bool
    ensures { IsTrue result ↔ MayBeReplaced creation.now was.now size }
{
    creation.may_lose || was.has_layout(size)
}

// Makes the new table, in primary form, from one without partitions.
fn fill(creation: &Creation, alloc: Global, size: u64, empty: GPT) -> Result<GPT, Stop>
    requires random { has_random_in creation.now }
    requires room { HasRoomOf creation.now empty.sector_size size }
    requires empty { empty ≡ empty_of creation.now empty.sector_size size }
    ensures planned { IfOk result (IsNew creation.now empty.sector_size size) }
    ensures refused { IfErr result (IsStopOf (RefusesNew creation.now empty.sector_size size)) }
{
    let mut table = empty;
    bound(creation, &mut table)?;
    put_layout(creation, alloc, &mut table)?;
    check(&table, size)?;
    Ok(table)
}

// Sets the requested bounds, if they are within those of the table.
fn bound(creation: &Creation, table: &mut GPT) -> Result<(), Refusal>
    ensures bounds { OnOk result (HasBounds creation.now table.old) }
    ensures value { OnOk result (table.new ≡ bounded creation.now table.old) }
    ensures refused { IfErr result (λ r. (¬ HasBounds creation.now table.old)
        × (r ≡ OutOfBounds (usable_of table.old))) }
{
    let usable = SectorRange {
        first: table.header.first_usable_lba,
        last: table.header.last_usable_lba,
    };
    let first = creation.first_usable.unwrap_or(usable.first);
    let last = creation.last_usable.unwrap_or(usable.last);
    if !are_bounds(usable, first, last) {
        return Err(Refusal::OutOfBounds(usable));
    }
    table.header.first_usable_lba = first;
    table.header.last_usable_lba = last;
    Ok(())
}

/// Reports whether the sectors from `first` to `last` are within the usable ones, and in order. There may be none.
pub(crate) fn are_bounds(usable: SectorRange, first: u64, last: u64) -> bool
    ensures { IsTrue result ↔ AreBounds usable.first usable.last first last }
{
    usable.first <= first && last <= usable.last && first.saturating_sub(1) <= last
}

fn put_layout(creation: &Creation, alloc: Global, table: &mut GPT) -> Result<(), Stop>
    requires random { has_random_in creation.now }
    requires sector { 0 < table.old.sector_size }
    ensures applied { OnOk result
        (IsAppliedIf creation.now.layout creation.now.random.items table.old table.new) }
    ensures refused { IfErr result
        (IsStopOf (RefusesAskedIf creation.now.layout creation.now.random.items table.old)) }
{
    match &creation.layout {
        Some(layout) => apply_layout(alloc, table, layout, &creation.random),
        None => Ok(()),
    }
}

// Puts the new table, which is in primary form, into the form of the old one.
fn put_in_form(was: &GPT, next: GPT) -> GPT
    requires { has_other_header next.header ≡ true }
    ensures { result ≡ put_at (copy_place_of was.now.header) next }
{
    let mut next = next;
    if was.is_primary() {
        return next;
    }
    if let Some(other) = next.header.other() {
        next.header = other;
    }
    next
}
