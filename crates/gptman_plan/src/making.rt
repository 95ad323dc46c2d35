//! Plans a write of a new table.

ghost use Rattle.std.specs.Prelude.{◌≡◌, ◌≤◌, ◌<◌, ◌+◌, ℕ, List, length, IfErr, IfOk};
ghost use Rattle.gptman.specs.Table.{new_table_of};
ghost use Rattle.gptman_plan.specs.Asking.{value_ranges, AsksAmong, AsksNothing};
ghost use Rattle.gptman_plan.specs.Plan.{acts_of};
ghost use Rattle.gptman_plan.specs.Planning.{IsNewPlan, IsNewRefusal};
ghost use Rattle.gptman_plan.specs.Reading.{OfEvery};

use crate::ends::Ends;
use crate::planning::PlanError;
use crate::reader::EndsReader;
use crate::record::Record;
use crate::tables::plan_table;
use gptman::GPT;
use std::alloc::Global;

/// Returns the steps that write a new table of `count` unused entries to a disk with these ends. The sector size is in
/// bytes.
pub fn plan_new(
    alloc: Global,
    ends: &Ends,
    sector_size: u64,
    disk_guid: [u8; 16],
    count: u32,
) -> Result<Record, PlanError>
    requires sector { 0 < sector_size }
    ensures plan { IfOk result (λ plan. OfEvery ends.now (λ b. IsNewPlan b
        (new_table_of count disk_guid sector_size ends.now.size)
        (acts_of plan.bytes.items plan.steps.items))) }
    ensures size { IfOk result (λ plan. plan.size ≡ ends.now.size) }
    ensures refused { IfErr result (IsNewRefusal ends.now sector_size count disk_guid) }
    ensures asked { IfErr result (AsksAmong
        (λ _. value_ranges (new_table_of count disk_guid sector_size ends.now.size) ends.now.size) ends.now) }
{
    if count == 0 || ends.size < sector_size {
        return Err(PlanError::BadArgument);
    }
    let table = make(alloc, ends, sector_size, disk_guid, count)?;
    plan_table(alloc, ends, table)
}

// Returns a new table for a disk of this size.
fn make(
    alloc: Global,
    ends: &Ends,
    sector_size: u64,
    disk_guid: [u8; 16],
    count: u32,
) -> Result<GPT, PlanError>
    requires sector { 0 < sector_size }
    ensures value { IfOk result (λ g. g ≡ new_table_of count disk_guid sector_size ends.now.size) }
    ensures refused { IfErr result (IsNewRefusal ends.now sector_size count disk_guid) }
    ensures asked { IfErr result AsksNothing }
{
    let mut disk = EndsReader::new(ends);
    match GPT::with_entries(alloc, &mut disk, sector_size, disk_guid, count) {
        Ok(table) => Ok(table),
        Err(fault) => Err(PlanError::Refused(fault)),
    }
}
