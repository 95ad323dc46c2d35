//! A request for a change of a table, as a plan.

ghost use Rattle.std.specs.Prelude.{◌≡◌, ◌↔◌, ◌<◌, ◌≤◌, IfErr, IfOk, IsTrue, OnOk, length};
ghost use Rattle.gptman.specs.Copy.{IsCoherent};
ghost use Rattle.gptman.specs.Fault.{fault_of, out_of_memory};
ghost use Rattle.gptman.specs.Layout.{HasLayout};
ghost use Rattle.gptman.specs.Table.{entries_in};
ghost use Rattle.gptman.specs.TableWrites.{MayBeWritten};
ghost use Rattle.gptedit_core.specs.Applying.{IsStopOf};
ghost use Rattle.gptedit_core.specs.Planning.{asks_random, has_random, IsDone, IsLeft, IsMemoryFault, IsNeeded};
ghost use Rattle.gptedit_core.specs.Planning.{IsPlanned, IsWritten, MayAsk, RefusesCheck, RefusesJob};
ghost use Rattle.gptedit_core.specs.Planning.{IsDecided, RefusesRequest};

use crate::applying::apply_layout;
use crate::asked::RequestedLayout;
use crate::refusal::{Refusal, Stop};
use gptman::{Disk, Error, GPT};
use gptman_change::{Plan, Planned};
use std::alloc::Global;

/// A kind of change.
#[derive(Drop, Debug)]
pub enum Job {
    /// The layout is applied to it.
    Apply(RequestedLayout),
    /// Its entries are sorted by their first sectors.
    Sort,
    /// It is written unchanged.
    Rewrite,
}

/// A change of a table.
#[derive(Drop, Debug)]
pub struct Request {
    /// The kind of change.
    pub job: Job,
    /// Random GUIDs, at least one for each entry that the layout names.
    pub random: Vec<[u8; 16]>,
    /// If true, nothing is written.
    pub is_dry: bool,
}

/// The outcome of a request.
#[derive(Drop, Debug)]
pub enum Outcome {
    /// The old and the new table. The new one was written, unless `is_dry` is set.
    Changed { was: GPT, next: GPT },
    /// The table, which is already as requested.
    Unchanged { table: GPT },
    /// The unchanged table, and why the request was refused.
    Refused { table: GPT, refusal: Refusal },
}

/// The plan keeps the places of a table, and refuses one that does not have the stated layout.
impl Plan for Request {
    type Answer = Outcome;

    ghost ready = { has_random };

    ghost makes = { IsWritten };

    ghost leaves = { IsLeft };

    ghost refuses = { IsMemoryFault };

    ghost asks = { MayAsk };

    /// Fails with `Io` if the length of the disk cannot be read, and with `OutOfMemory`.
    fn change<D: Disk>(
        &self,
        alloc: Global,
        disk: &mut D,
        table: &mut GPT,
    ) -> gptman::Result<Planned<Outcome>> {
        let size = disk.seek_end()?;
        let mut next = table.clone()?;
        match make(self, alloc, size, &mut next) {
            Ok(()) => {
                let is_needed = is_needed(&self.job, table, &next);
                decide(table, next, is_needed, self.is_dry)
            }
            Err(Stop::Failed(error)) => Err(error),
            Err(Stop::Refused(refusal)) => Ok(Planned::Leave(Outcome::Refused {
                table: table.clone()?,
                refusal,
            })),
        }
    }
}

/// Changes the table as requested. Refuses a table without the stated layout on a disk of `size` bytes, and one that
/// may not be written to it afterwards.
///
/// Fails only with `OutOfMemory`.
pub(crate) fn make(request: &Request, alloc: Global, size: u64, table: &mut GPT) -> Result<(), Stop>
    requires ready { has_random request.now }
    requires sector { 0 < table.old.sector_size }
    ensures planned { OnOk result (IsPlanned request.now size table.old table.new) }
    ensures refused { IfErr result (IsStopOf (RefusesRequest request.now size table.old)) }
{
    if !table.has_layout(size) {
        return Err(Stop::Refused(Refusal::NotLaidOut));
    }
    do_job(alloc, &request.job, &request.random, table)?;
    check(table, size)
}

/// Does the job on the table. Fails only with `OutOfMemory`.
pub(crate) fn do_job(
    alloc: Global,
    job: &Job,
    random: &[[u8; 16]],
    table: &mut GPT,
) -> Result<(), Stop>
    requires sector { 0 < table.old.sector_size }
    requires ready { asks_random job.now (length random.now) }
    ensures done { OnOk result (IsDone job.now random.now table.old table.new) }
    ensures refused { IfErr result (IsStopOf (RefusesJob job.now random.now table.old)) }
{
    match job {
        Job::Apply(layout) => apply_layout(alloc, table, layout, random),
        Job::Sort => Ok(table.sort()?),
        Job::Rewrite => Ok(()),
    }
}

/// Refuses a table that may not be written to a disk of `size` bytes, with `SharedGuid` or `BadBoundaries`.
///
/// Fails only with `OutOfMemory`.
pub fn check(table: &GPT, size: u64) -> Result<(), Stop>
    requires { HasLayout table.now size }
    ensures may { OnOk result (MayBeWritten table.now size) }
    ensures refused { IfErr result (IsStopOf (RefusesCheck table.now)) }
{
    match table.check_write(size) {
        Ok(()) => Ok(()),
        Err(Error::ConflictPartitionGUID) => Err(Stop::Refused(Refusal::SharedGuid)),
        Err(Error::InvalidPartitionBoundaries) => Err(Stop::Refused(Refusal::BadBoundaries)),
        Err(error) => Err(Stop::Failed(error)),
    }
}

/// Returns the outcome of a change from `table` to `next`. Sets `table` to `next` only if the change is needed and is
/// not a dry run.
///
/// Fails only with `OutOfMemory`.
pub fn decide(
    table: &mut GPT,
    next: GPT,
    is_needed: bool,
    is_dry: bool,
) -> gptman::Result<Planned<Outcome>>
    ensures outcome { IfOk result (IsDecided is_needed is_dry table.old next table.new) }
    ensures refused { IfErr result (λ e. fault_of e ≡ out_of_memory) }
{
    let was = table.clone()?;
    if !is_needed {
        return Ok(Planned::Leave(Outcome::Unchanged { table: was }));
    }
    if is_dry {
        return Ok(Planned::Leave(Outcome::Changed { was, next }));
    }
    *table = next.clone()?;
    Ok(Planned::Write(Outcome::Changed { was, next }))
}

/// Reports whether there is something to write.
pub(crate) fn is_needed(job: &Job, was: &GPT, next: &GPT) -> bool
    ensures { IsTrue result ↔ IsNeeded job.now was.now next.now }
{
    match job {
        Job::Rewrite => true,
        Job::Apply(_) => !is_same(was, next),
        Job::Sort => !is_same(was, next),
    }
}

/// Reports whether the two tables are equal.
pub fn is_same(was: &GPT, next: &GPT) -> bool
    ensures { IsTrue result ↔ (was.now ≡ next.now) }
{
    was == next
}
