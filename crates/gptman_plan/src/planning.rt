//! Plans a write of the table that was read from the ends, with other entries.

ghost use Rattle.std.specs.Prelude.{◌≡◌, ◌≤◌, ◌<◌, ◌+◌, ℕ, List, length, IfErr, IfOk};
ghost use Rattle.gptman_plan.specs.Asking.{plan_ranges, AsksAmong};
ghost use Rattle.gptman_plan.specs.Plan.{acts_of};
ghost use Rattle.gptman_plan.specs.Planning.{IsPlan, IsPlanRefusal};
ghost use Rattle.gptman_plan.specs.Reading.{IsStatedTable, OfEvery};
ghost use Rattle.gptman_plan.specs.Rounds.{reading_ranges};
ghost use Rattle.gptman_plan.specs.declared.records.Partition.{Partition};

use crate::ends::Ends;
use crate::layout::{is_made_for, is_stated};
use crate::partitions::entries_of;
use crate::places::lack_of_places;
use crate::reading::{Lack, Reading, read};
use crate::record::Record;
use crate::records::Partition;
use crate::tables::plan_table;
use gptman::{Error, GPT};
use std::alloc::Global;

/// The reason why there is no plan.
#[derive(Drop)]
pub enum PlanError {
    BadArgument,
    Refused(Error),
    Lacks(Lack),
    OtherLength,
    OtherLayout,
}

/// Returns the steps that write the table in the ends with these entries. The sector size is in bytes.
pub fn plan(
    alloc: Global,
    ends: &Ends,
    sector_size: u64,
    partitions: &[Partition],
) -> Result<Record, PlanError>
    requires sector { 0 < sector_size }
    ensures plan { IfOk result (λ plan. OfEvery ends.now
        (λ b. IsPlan b sector_size partitions.now (acts_of plan.bytes.items plan.steps.items))) }
    ensures size { IfOk result (λ plan. plan.size ≡ ends.now.size) }
    ensures refused { IfErr result (IsPlanRefusal ends.now sector_size partitions.now) }
    ensures asked { IfErr result (AsksAmong (λ b. plan_ranges b sector_size) ends.now) }
{
    let table = read_stated(alloc, ends, sector_size)?;
    let header = &table.header;
    let count = u64::from(header.number_of_partition_entries);
    if count == 0 || partitions.len() as u64 != count || ends.size < sector_size {
        return Err(PlanError::BadArgument);
    }
    // Bytes are asked for before the entries are judged.
    if let Some(lack) = lack_of_places(ends, &table) {
        return Err(PlanError::Lacks(lack));
    }
    let Ok(entries) = entries_of(alloc, partitions) else {
        return Err(PlanError::Refused(Error::OutOfMemory));
    };
    let next = GPT::from_parts(sector_size, table.header, entries, table.align);
    plan_table(alloc, ends, next)
}

// Reads the table in the ends, which must have the stated layout.
fn read_stated(alloc: Global, ends: &Ends, sector_size: u64) -> Result<GPT, PlanError>
    requires sector { 0 < sector_size }
    ensures table { IfOk result (IsStatedTable ends.now sector_size) }
    ensures refused { (partitions : List Partition)
        → IfErr result (IsPlanRefusal ends.now sector_size partitions) }
    ensures asked { IfErr result (AsksAmong (λ b. reading_ranges b sector_size) ends.now) }
{
    let (table, is_backup) = match read(alloc, ends, sector_size) {
        Reading::Table { table, is_backup } => (table, is_backup),
        Reading::Fault(fault) => return Err(PlanError::Refused(fault)),
        Reading::Lacks(lack) => return Err(PlanError::Lacks(lack)),
    };
    if !is_made_for(&table, ends.size) {
        return Err(PlanError::OtherLength);
    }
    if !is_stated(&table, is_backup, ends.size) {
        return Err(PlanError::OtherLayout);
    }
    Ok(table)
}
