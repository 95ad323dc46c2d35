//! A plan that fits a table to the length of its disk, or sets its usual bounds.

ghost use Rattle.std.specs.Prelude.{◌≡◌, ◌↔◌, ◌⊎◌, ◌<◌, None, Some, IfErr, IfOk, IsTrue, OnOk};
ghost use Rattle.gptman.specs.Answers.{IsFailure, ReportsFailure};
ghost use Rattle.gptman.specs.Disk.{Reads};
ghost use Rattle.gptman.specs.Fault.{fault_of, out_of_memory, overflow};
ghost use Rattle.gptman.specs.Fit.{fit_fault};
ghost use Rattle.gptman.specs.Layout.{HasLayout};
ghost use Rattle.gptman.specs.Table.{grow_to};
ghost use Rattle.gptman.specs.TableWrites.{MayBeWritten};
ghost use Rattle.gptedit_core.specs.Growing.{with_first, EndsAt, IsFitted, IsGrown, IsKeptFirst};
ghost use Rattle.gptedit_core.specs.Growing.{IsLeftGrown, IsWrittenGrown, RefusesGrowth, RefusesGrown};
ghost use Rattle.gptedit_core.specs.Applying.{IsStopOf};
ghost use Rattle.gptedit_core.specs.Planning.{IsMemoryFault, MayAsk};
ghost use Rattle.gptedit_core.specs.declared.growth.Bounds.TheVariants.{Usual};
ghost use Rattle.gptedit_core.specs.declared.plan.Outcome.TheVariants.{Refused};
ghost use Rattle.gptedit_core.specs.declared.refusal.Refusal.TheVariants.{NotLaidOut};
ghost use Rattle.gptman_change.specs.declared.Planned.TheVariants.{Leave};

use crate::plan::{Outcome, check, decide, is_same};
use crate::refusal::{Refusal, Stop};
use gptman::{Disk, Error, GPT};
use gptman_change::{Plan, Planned};
use std::alloc::Global;

/// Which sectors become usable.
#[derive(Clone, Copy, PartialEq, Eq, Debug)]
pub enum Bounds {
    /// On a disk of another length the last usable sector follows the end, and the first one stays if it can. On a
    /// disk of the table's own length both stay.
    Kept,
    /// All sectors between the two copies. The table must already end where the disk does.
    Usual,
}

/// A change of a table to the length of the disk, or to its usual bounds there.
#[derive(Clone, Copy, PartialEq, Eq, Debug)]
pub struct Growth {
    /// Which sectors become usable.
    pub bounds: Bounds,
    /// If true, nothing is written.
    pub is_dry: bool,
}

/// The plan refuses a disk that is too small, a table that would not have the stated layout afterwards or may not be
/// written, and `Bounds::Usual` if the table does not end at the last whole sector of the disk.
impl Plan for Growth {
    type Answer = Outcome;

    ghost makes = { IsWrittenGrown };

    ghost leaves = { IsLeftGrown };

    ghost refuses = { IsMemoryFault };

    ghost asks = { MayAsk };

    /// Fails with `Io` if the length of the disk cannot be read, and with `OutOfMemory`.
    fn change<D: Disk>(
        &self,
        alloc: Global,
        disk: &mut D,
        table: &mut GPT,
    ) -> gptman::Result<Planned<Outcome>> {
        let mut next = table.clone()?;
        let size = match fit(disk, &mut next) {
            Ok(size) => size,
            Err(Error::Overflow) => return refuse(table, Refusal::TooSmall),
            Err(error) => return Err(error),
        };
        match settle(self.bounds, table, size, &mut next) {
            Ok(()) => {
                let is_needed = !is_same(table, &next);
                decide(table, next, is_needed, self.is_dry)
            }
            Err(Stop::Refused(refusal)) => refuse(table, refusal),
            Err(Stop::Failed(error)) => Err(error),
        }
    }
}

/// Fits the header to the disk, and returns the length of the disk in bytes.
///
/// Fails with `Overflow` if the disk is too small, and with `Io`.
pub(crate) fn fit<D: Disk>(disk: &mut D, table: &mut GPT) -> gptman::Result<u64>
    requires sector { 0 < table.old.sector_size }
    ensures reads { Reads (D.state disk.old) (D.state disk.new) }
    ensures failure { ReportsFailure result (D.state disk.old) (D.state disk.new) }
    ensures refused { IfErr result (λ e. ((fault_of e ≡ overflow)
        × (fit_fault table.old.header table.old.sector_size (D.state disk.old).size ≡ Some overflow))
        ⊎ IsFailure (fault_of e) (D.state disk.old) (D.state disk.new)) }
    ensures size { IfOk result (λ size. size ≡ (D.state disk.old).size) }
    ensures fits { OnOk result (fit_fault table.old.header table.old.sector_size (D.state disk.old).size ≡ None) }
    ensures value { OnOk result (table.new ≡ grow_to table.old (D.state disk.old).size) }
{
    let size = disk.seek_end()?;
    let sector_size = table.sector_size;
    table.header.update_from(disk, sector_size)?;
    Ok(size)
}

// Sets the bounds of a table that was fitted to a disk of `size` bytes, and refuses it if it may not be written.
fn settle(bounds: Bounds, was: &GPT, size: u64, table: &mut GPT) -> Result<(), Stop>
    requires sector { 0 < was.now.sector_size }
    requires fits { fit_fault was.now.header was.now.sector_size size ≡ None }
    requires fitted { table.old ≡ grow_to was.now size }
    ensures grown { OnOk result (IsGrown bounds size was.now table.new) }
    ensures refused { IfErr result (IsStopOf (RefusesGrowth bounds size was.now)) }
{
    set_bounds(bounds, was, size, table)?;
    check_grown(table, size)
}

/// Sets the bounds of a table that was fitted to a disk of `size` bytes. `was` is the table before.
pub(crate) fn set_bounds(
    bounds: Bounds,
    was: &GPT,
    size: u64,
    table: &mut GPT,
) -> Result<(), Refusal>
    requires sector { 0 < was.now.sector_size }
    requires fitted { table.old ≡ grow_to was.now size }
    ensures value { OnOk result (IsFitted bounds size was.now table.new) }
    ensures refused { IfErr result (λ r. (r ≡ NotLaidOut) × (bounds ≡ Usual) × ¬ EndsAt size was.now) }
{
    let ends = ends_at(was, size);
    match bounds {
        Bounds::Kept if ends => table.header = was.header,
        Bounds::Kept => keep_first(table, was.header.first_usable_lba),
        Bounds::Usual if ends => {}
        Bounds::Usual => return Err(Refusal::NotLaidOut),
    }
    Ok(())
}

// Keeps the old first usable sector, if it is within the new bounds.
fn keep_first(table: &mut GPT, was: u64)
    ensures kept { IsKeptFirst was table.old.header.first_usable_lba table.old.header.last_usable_lba
        table.new.header.first_usable_lba }
    ensures rest { table.new ≡ with_first table.new.header.first_usable_lba table.old }
{
    let header = &mut table.header;
    if header.first_usable_lba <= was && was <= header.last_usable_lba {
        header.first_usable_lba = was;
    }
}

// Reports whether the headers are in sector 1 and the last whole sector of a disk of `size` bytes.
fn ends_at(table: &GPT, size: u64) -> bool
    requires { 0 < table.now.sector_size }
    ensures { IsTrue result ↔ EndsAt size table.now }
{
    let header = &table.header;
    let last = (size / table.sector_size).saturating_sub(1);
    header.primary_lba.min(header.backup_lba) == last.min(1)
        && header.primary_lba.max(header.backup_lba) == last.max(1)
}

// Refuses a table that does not have the stated layout on a disk of `size` bytes, or may not be written to it.
fn check_grown(table: &GPT, size: u64) -> Result<(), Stop>
    ensures may { OnOk result (HasLayout table.now size × MayBeWritten table.now size) }
    ensures refused { IfErr result (IsStopOf (RefusesGrown table.now size)) }
{
    if !table.has_layout(size) {
        return Err(Stop::Refused(Refusal::NotLaidOut));
    }
    check(table, size)
}

/// Returns the outcome of a refusal.
///
/// Fails only with `OutOfMemory`.
pub(crate) fn refuse(table: &GPT, refusal: Refusal) -> gptman::Result<Planned<Outcome>>
    ensures outcome { IfOk result (λ planned. planned ≡ Leave (Refused table.now refusal)) }
    ensures refused { IfErr result (λ e. fault_of e ≡ out_of_memory) }
{
    Ok(Planned::Leave(Outcome::Refused {
        table: table.clone()?,
        refusal,
    }))
}
