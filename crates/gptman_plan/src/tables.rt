//! Plans a write of a given table.

ghost use Rattle.std.specs.Prelude.{◌≡◌, ◌≤◌, ◌<◌, ◌+◌, ℕ, List, length, IfErr, IfOk};
ghost use Rattle.gptman.specs.Copy.{IsCoherent};
ghost use Rattle.gptman.specs.Layout.{HasLayout};
ghost use Rattle.gptman.specs.Reading.{CopyPlace};
ghost use Rattle.gptman.specs.Table.{entries_in, table_in, IsHeaderForm};
ghost use Rattle.gptman_plan.specs.Asking.{value_ranges, AsksAmong, AsksNothing};
ghost use Rattle.gptman_plan.specs.Ends.{zeroed};
ghost use Rattle.gptman_plan.specs.Plan.{acts_of};
ghost use Rattle.gptman_plan.specs.Planning.{ComesInOrder, IsTablePlan, IsTableRefusal, IsWrittenPlan};
ghost use Rattle.gptman_plan.specs.Reading.{OfEvery};

use crate::ends::Ends;
use crate::places::lack_of_places;
use crate::planning::PlanError;
use crate::record::Record;
use crate::recording::Recorder;
use gptman::{Error, GPT};
use std::alloc::Global;

/// Returns the steps that write this table to a disk with these ends. Refuses a table without the stated layout there.
pub fn plan_table(alloc: Global, ends: &Ends, table: GPT) -> Result<Record, PlanError>
    requires sector { 0 < table.sector_size }
    requires room { table.sector_size ≤ ends.now.size }
    requires count { 0 < table.header.number_of_partition_entries }
    requires coherent { IsCoherent table.header (entries_in table) }
    ensures plan { IfOk result (λ plan. OfEvery ends.now
        (λ b. IsTablePlan b table (acts_of plan.bytes.items plan.steps.items))) }
    ensures size { IfOk result (λ plan. plan.size ≡ ends.now.size) }
    ensures refused { IfErr result (IsTableRefusal ends.now table) }
    ensures asked { IfErr result (AsksAmong (λ _. value_ranges table ends.now.size) ends.now) }
{
    let lack = lack_of_places(ends, &table);
    let is_laid_out = table.has_layout(ends.size);
    let plan = record_table(alloc, ends, table)?;
    if !is_laid_out {
        return Err(PlanError::OtherLayout);
    }
    if let Some(lack) = lack {
        return Err(PlanError::Lacks(lack));
    }
    Ok(plan)
}

// Returns the steps that write this table to the disk with zeros between its ends.
fn record_table(alloc: Global, ends: &Ends, mut table: GPT) -> Result<Record, PlanError>
    requires sector { 0 < table.sector_size }
    requires coherent { IsCoherent table.header (entries_in table) }
    ensures size { IfOk result (λ plan. plan.size ≡ ends.now.size) }
    ensures refused { IfErr result (IsTableRefusal ends.now table) }
    ensures asked { IfErr result AsksNothing }
    ensures written { IfOk result (λ plan. HasLayout table ends.now.size
        → IsWrittenPlan (zeroed ends.now) table.sector_size (table_in table)
        (acts_of plan.bytes.items plan.steps.items)) }
    ensures order { IfOk result (λ plan. HasLayout table ends.now.size
        → (side : CopyPlace) → IsHeaderForm side table.header
        → ComesInOrder side (zeroed ends.now) table.sector_size (table_in table)
        (acts_of plan.bytes.items plan.steps.items)) }
{
    let mut disk = Recorder::new(alloc, ends);
    let written = table.write_into(&mut disk);
    if disk.failures != 0 {
        return Err(PlanError::Refused(Error::OutOfMemory));
    }
    match written {
        Ok(_header) => Ok(disk.into_plan()),
        Err(fault) => Err(PlanError::Refused(fault)),
    }
}
