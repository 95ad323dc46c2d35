//! A request for a table that is first fitted to the length of its disk.

ghost use Rattle.std.specs.Prelude.{◌≡◌, ◌<◌, IfErr, None, OnOk};
ghost use Rattle.gptman.specs.Fit.{fit_fault};
ghost use Rattle.gptman.specs.Table.{grow_to};
ghost use Rattle.gptedit_core.specs.Applying.{IsStopOf};
ghost use Rattle.gptedit_core.specs.Fitting.{has_random_fitted, IsLeftFitted, IsPlannedFitted};
ghost use Rattle.gptedit_core.specs.Fitting.{IsWrittenFitted, RefusesFitted};
ghost use Rattle.gptedit_core.specs.Planning.{has_random, IsMemoryFault, MayAsk};

use crate::growth::{Bounds, fit, refuse, set_bounds};
use crate::plan::{Outcome, Request, decide, is_needed, make};
use crate::refusal::{Refusal, Stop};
use gptman::{Disk, Error, GPT};
use gptman_change::{Plan, Planned};
use std::alloc::Global;

/// A request for a table that is first fitted to the length of its disk, as `Growth` with `Bounds::Kept` fits it.
#[derive(Drop, Debug)]
pub struct FittedRequest {
    /// The request.
    pub request: Request,
}

/// The plan refuses a disk that is too small. Otherwise it refuses what the request refuses for the fitted table.
impl Plan for FittedRequest {
    type Answer = Outcome;

    ghost ready = { has_random_fitted };

    ghost makes = { IsWrittenFitted };

    ghost leaves = { IsLeftFitted };

    ghost refuses = { IsMemoryFault };

    ghost asks = { MayAsk };

    /// Fails with `Io` if the length of the disk cannot be read, and with `OutOfMemory`.
    fn change<D: Disk>(
        &self,
        alloc: Global,
        disk: &mut D,
        table: &mut GPT,
    ) -> gptman::Result<Planned<Outcome>> {
        let mut next = table.clone()?;
        let size = match fit(disk, &mut next) {
            Ok(size) => size,
            Err(Error::Overflow) => return refuse(table, Refusal::TooSmall),
            Err(error) => return Err(error),
        };
        match make_fitted(&self.request, alloc, table, size, &mut next) {
            Ok(()) => {
                let is_needed = is_needed(&self.request.job, table, &next);
                decide(table, next, is_needed, self.request.is_dry)
            }
            Err(Stop::Refused(refusal)) => refuse(table, refusal),
            Err(Stop::Failed(error)) => Err(error),
        }
    }
}

// Changes a table as requested that was fitted to a disk of `size` bytes. `was` is the table before it was fitted.
fn make_fitted(
    request: &Request,
    alloc: Global,
    was: &GPT,
    size: u64,
    table: &mut GPT,
) -> Result<(), Stop>
    requires ready { has_random request.now }
    requires sector { 0 < was.now.sector_size }
    requires fits { fit_fault was.now.header was.now.sector_size size ≡ None }
    requires fitted { table.old ≡ grow_to was.now size }
    ensures planned { OnOk result (IsPlannedFitted request.now size was.now table.new) }
    ensures refused { IfErr result (IsStopOf (RefusesFitted request.now size was.now)) }
{
    set_bounds(Bounds::Kept, was, size, table)?;
    make(request, alloc, size, table)
}
