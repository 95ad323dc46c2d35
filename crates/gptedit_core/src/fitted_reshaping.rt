//! A request for a table that is first fitted to the length of its disk and then gets another shape, in the same write.

ghost use Rattle.std.specs.Prelude.{◌≡◌, ◌⊎◌, ◌<◌, None, Some, IfErr, IfOk, OnOk};
ghost use Rattle.gptman.specs.Answers.{IsFailure, ReportsFailure};
ghost use Rattle.gptman.specs.Disk.{Reads};
ghost use Rattle.gptman.specs.Fault.{fault_of, out_of_memory, overflow};
ghost use Rattle.gptman.specs.Fit.{fit_fault};
ghost use Rattle.gptman.specs.Table.{grow_to};
ghost use Rattle.gptedit_core.specs.Applying.{IsStopOf};
ghost use Rattle.gptedit_core.specs.FittedReshaping.{has_random_both, IsBoth, IsLeftBoth, IsWrittenBoth, RefusesBoth};
ghost use Rattle.gptedit_core.specs.Making.{IsEmptyFor};
ghost use Rattle.gptedit_core.specs.Planning.{IsMemoryFault, MayAsk};
ghost use Rattle.gptedit_core.specs.Reshaping.{has_random_reshaped};

use crate::growth::{Bounds, fit, refuse, set_bounds};
use crate::making::make_empty;
use crate::plan::{Outcome, decide, is_needed};
use crate::refusal::{Refusal, Stop};
use crate::reshaping::{ReshapedRequest, make_reshaped};
use gptman::{Disk, Error, GPT};
use gptman_change::{Plan, Planned};
use std::alloc::Global;

/// A request for a table that is first fitted to the length of its disk, as `Growth` with `Bounds::Kept` fits it, and then
/// gets a shape.
#[derive(Drop, Debug)]
pub struct FittedReshapedRequest {
    /// The request, and the shape of the new table.
    pub reshaped: ReshapedRequest,
}

/// The plan refuses a disk that is too small. Otherwise it refuses what the reshaped request refuses for the fitted table.
impl Plan for FittedReshapedRequest {
    type Answer = Outcome;

    ghost ready = { has_random_both };

    ghost makes = { IsWrittenBoth };

    ghost leaves = { IsLeftBoth };

    ghost refuses = { IsMemoryFault };

    ghost asks = { MayAsk };

    /// Fails with `Io` if the length of the disk cannot be read, and with `OutOfMemory`.
    fn change<D: Disk>(
        &self,
        alloc: Global,
        disk: &mut D,
        table: &mut GPT,
    ) -> gptman::Result<Planned<Outcome>> {
        let mut fitted = table.clone()?;
        let entries = self.reshaped.shape.entries;
        let (size, empty) = match fit_with_empty(alloc, disk, &mut fitted, entries) {
            Ok(made) => made,
            Err(Error::Overflow) => return refuse(table, Refusal::TooSmall),
            Err(error) => return Err(error),
        };
        match make_both(&self.reshaped, alloc, table, size, &mut fitted, empty) {
            Ok(next) => {
                let request = &self.reshaped.request;
                let is_needed = is_needed(&request.job, table, &next);
                decide(table, next, is_needed, request.is_dry)
            }
            Err(Stop::Refused(refusal)) => refuse(table, refusal),
            Err(Stop::Failed(error)) => Err(error),
        }
    }
}

// Fits the table to the disk. Returns the length of the disk in bytes, and a table of so many entries without partitions
// that is fitted to it, or `None` in its place if there is no room for two copies.
//
// Fails with `Overflow` if the disk is too small for the table, and with `Io` and `OutOfMemory`.
fn fit_with_empty<D: Disk>(
    alloc: Global,
    disk: &mut D,
    table: &mut GPT,
    entries: u32,
) -> gptman::Result<(u64, Option<GPT>)>
    requires sector { 0 < table.old.sector_size }
    ensures reads { Reads (D.state disk.old) (D.state disk.new) }
    ensures failure { ReportsFailure result (D.state disk.old) (D.state disk.new) }
    ensures refused { IfErr result (λ e. ((fault_of e ≡ overflow)
        × (fit_fault table.old.header table.old.sector_size (D.state disk.old).size ≡ Some overflow))
        ⊎ ((fault_of e ≡ out_of_memory) ⊎ IsFailure (fault_of e) (D.state disk.old) (D.state disk.new))) }
    ensures size { IfOk result (λ made. made.0 ≡ (D.state disk.old).size) }
    ensures fits { OnOk result (fit_fault table.old.header table.old.sector_size (D.state disk.old).size ≡ None) }
    ensures value { OnOk result (table.new ≡ grow_to table.old (D.state disk.old).size) }
    ensures empty { IfOk result (λ made.
        IsEmptyFor entries table.old.header.disk_guid table.old.sector_size made.0 made.1) }
{
    let (sector_size, guid) = (table.sector_size, table.header.disk_guid);
    fit(disk, table)?;
    make_empty(alloc, disk, sector_size, guid, entries)
}

// Makes the new table of one that was fitted to a disk of `size` bytes. `was` is the table before it was fitted. `empty` is
// the new table without partitions, if there is room for it.
fn make_both(
    reshaped: &ReshapedRequest,
    alloc: Global,
    was: &GPT,
    size: u64,
    fitted: &mut GPT,
    empty: Option<GPT>,
) -> Result<GPT, Stop>
    requires ready { has_random_reshaped reshaped.now }
    requires sector { 0 < was.now.sector_size }
    requires fits { fit_fault was.now.header was.now.sector_size size ≡ None }
    requires fitted { fitted.old ≡ grow_to was.now size }
    requires empty { IsEmptyFor reshaped.now.shape.entries was.now.header.disk_guid was.now.sector_size size empty }
    ensures planned { IfOk result (IsBoth reshaped.now size was.now) }
    ensures refused { IfErr result (IsStopOf (RefusesBoth reshaped.now size was.now)) }
{
    set_bounds(Bounds::Kept, was, size, fitted)?;
    make_reshaped(reshaped, alloc, fitted, size, empty)
}
