//! Plans a write of the table on a disk, fitted to the present length.

ghost use Rattle.std.specs.Prelude.{◌≡◌, ◌≤◌, ◌<◌, ◌+◌, ℕ, List, length, IfErr, IfOk, None};
ghost use Rattle.gptman.specs.Copy.{IsCoherent};
ghost use Rattle.gptman.specs.Fit.{fit_fault};
ghost use Rattle.gptman.specs.Table.{entries_in, grow_to};
ghost use Rattle.gptman_plan.specs.Asking.{fit_ranges, AsksAmong, AsksNothing};
ghost use Rattle.gptman_plan.specs.Plan.{acts_of};
ghost use Rattle.gptman_plan.specs.Planning.{IsFitPlan, IsFitRefusal, IsSizeRefusal};
ghost use Rattle.gptman_plan.specs.Reading.{OfEvery};

use crate::ends::Ends;
use crate::layout::is_of_side;
use crate::planning::PlanError;
use crate::reader::EndsReader;
use crate::reading::{Reading, read};
use crate::record::Record;
use crate::tables::plan_table;
use gptman::GPT;
use std::alloc::Global;

/// Returns the steps that write the table in the ends, fitted to a disk of their size. The sector size is in bytes.
pub fn plan_fit(alloc: Global, ends: &Ends, sector_size: u64) -> Result<Record, PlanError>
    requires sector { 0 < sector_size }
    ensures plan { IfOk result (λ plan. OfEvery ends.now
        (λ b. IsFitPlan b sector_size (acts_of plan.bytes.items plan.steps.items))) }
    ensures size { IfOk result (λ plan. plan.size ≡ ends.now.size) }
    ensures refused { IfErr result (IsFitRefusal ends.now sector_size) }
    ensures asked { IfErr result (AsksAmong (λ b. fit_ranges b sector_size) ends.now) }
{
    let (table, is_backup) = match read(alloc, ends, sector_size) {
        Reading::Table { table, is_backup } => (table, is_backup),
        Reading::Fault(fault) => return Err(PlanError::Refused(fault)),
        Reading::Lacks(lack) => return Err(PlanError::Lacks(lack)),
    };
    if !is_of_side(&table.header, is_backup) {
        return Err(PlanError::OtherLayout);
    }
    let fitted = fit(ends, table)?;
    plan_table(alloc, ends, fitted)
}

// Returns the table with its header fitted to the size of the disk.
fn fit(ends: &Ends, mut table: GPT) -> Result<GPT, PlanError>
    requires sector { 0 < table.sector_size }
    ensures value { IfOk result (λ g. g ≡ grow_to table ends.now.size) }
    ensures fits { IfOk result (λ _. fit_fault table.header table.sector_size ends.now.size ≡ None) }
    ensures refused { IfErr result (IsSizeRefusal ends.now table) }
    ensures asked { IfErr result AsksNothing }
{
    let mut disk = EndsReader::new(ends);
    let sector_size = table.sector_size;
    match table.header.update_from(&mut disk, sector_size) {
        Ok(()) => Ok(table),
        Err(fault) => Err(PlanError::Refused(fault)),
    }
}
