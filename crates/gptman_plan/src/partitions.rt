//! Entries in the form of C.

ghost use Rattle.std.specs.Prelude.{◌≡◌, ◌≤◌, IfErr, IfOk, length, map, take};
ghost use Rattle.gptman.specs.Fault.{fault_of, out_of_memory};
ghost use Rattle.gptman.specs.Table.{entries_in, table_in};
ghost use Rattle.gptman_plan.specs.Crossing.{content_in, content_of, partition_of};

use crate::records::Partition;
use gptman::{GPT, GPTPartitionEntry, PartitionName, Result};
use std::alloc::Global;

/// Converts an entry to the form of C.
pub fn partition_of(entry: &GPTPartitionEntry) -> Partition
    ensures { result ≡ partition_of entry.now }
{
    Partition {
        type_guid: entry.partition_type_guid,
        unique_guid: entry.unique_partition_guid,
        first_lba: entry.starting_lba,
        last_lba: entry.ending_lba,
        attributes: entry.attribute_bits,
        name: *entry.partition_name.units(),
    }
}

/// Stores the entries of the table at the start of the array, which must be long enough.
#[tactic(auto, using(crate::proofs::Numbered::map_numbered))]
pub fn fill(table: &GPT, partitions: &mut [Partition])
    requires { length (entries_in table.now) ≤ length partitions.old }
    ensures filled { take (length (entries_in table.now)) partitions.new ≡ map partition_of (entries_in table.now) }
    ensures len { length partitions.new ≡ length partitions.old }
{
    let mut i = 0usize;
    for (_, entry) in table.iter() {
        partitions[i] = partition_of(entry);
        i += 1;
    }
}

/// Converts partitions to entries, with all units of their names.
///
/// # Errors
///
/// `OutOfMemory` if an allocation fails.
pub fn entries_of(alloc: Global, partitions: &[Partition]) -> Result<Vec<GPTPartitionEntry>>
    ensures entries { IfOk result (λ v. map content_in v.items ≡ map content_of partitions.now) }
    ensures len { IfOk result (λ v. length v.items ≡ length partitions.now) }
    ensures refused { IfErr result (λ e. fault_of e ≡ out_of_memory) }
{
    let mut entries = Vec::with_capacity(alloc, partitions.len())?;
    for partition in partitions {
        entries.push(entry_of(alloc, partition)?)?;
    }
    Ok(entries)
}

// Converts a partition to an entry.
fn entry_of(alloc: Global, partition: &Partition) -> Result<GPTPartitionEntry>
    ensures content { IfOk result (λ e. content_in e ≡ content_of partition.now) }
    ensures refused { IfErr result (λ e. fault_of e ≡ out_of_memory) }
{
    Ok(GPTPartitionEntry {
        partition_type_guid: partition.type_guid,
        unique_partition_guid: partition.unique_guid,
        starting_lba: partition.first_lba,
        ending_lba: partition.last_lba,
        attribute_bits: partition.attributes,
        partition_name: PartitionName::from_units(alloc, partition.name)?,
    })
}
