//! Adds a partition of 10 sectors to the table of a disk image: `example_plan IMAGE`.
#![tactic(auto)]

ghost use Rattle.std.specs.Prelude.{◌<◌, IfErr, IfNone, IfOk, IfSome, OnErr, Some};
ghost use Rattle.gptman.specs.Disk.{FailedOrUntouched, IsHonest, Keeps};
ghost use Rattle.gptman.specs.Fault.{fault_of};
ghost use Rattle.gptman.specs.Table.{Table};
ghost use Rattle.gptman_change.specs.Changes.{IsSafe, MakesChange, RefusesChange, StartsGood};
ghost use Rattle.example_plan.specs.Adding.{AreAllUsed, HasNoRoom, IsFirstUnused, IsWith};

use gptman::table::laws::what_is_read_is_kept;
use gptman::{Disk, Error, FileDisk, GPT, GPTPartitionEntry, PartitionName, Result};
use gptman_change::{Plan, Planned, change_table};
use std::alloc::Global;
use std::env;
use std::fs::File;
use std::process::ExitCode;
use std::rt::Files;

/// A partition of `size` sectors, for the first unused entry and the first free place.
#[derive(Drop)]
pub struct NewPartition {
    /// The number of sectors, above 0.
    pub size: u64,
    /// The other fields.
    pub partition: GPTPartitionEntry,
}

impl Plan for NewPartition {
    /// The first sector of the partition.
    type Answer = u64;

    ghost ready = { λ new. 0 < new.size };

    ghost makes = { λ new len table next first. IsWith new.partition new.size table next first };

    ghost refuses = { λ new len table fault. HasNoRoom new.size table fault };

    ghost asks = { λ new. ⊥ };

    fn change<D: Disk>(
        &self,
        _alloc: Global,
        _disk: &mut D,
        table: &mut GPT,
    ) -> Result<Planned<u64>> {
        let Some(number) = first_unused(table) else {
            return Err(Error::NoSpaceLeft);
        };
        let Some(first) = table.find_first_place(self.size)? else {
            return Err(Error::NoSpaceLeft);
        };
        table[number] = GPTPartitionEntry {
            starting_lba: first,
            ending_lba: first + (self.size - 1),
            ..self.partition.clone()?
        };
        Ok(Planned::Write(first))
    }
}

/// Adds the partition to the table on a disk with sectors of 512 bytes, and returns its first sector.
///
/// # Errors
///
/// `NoSpaceLeft` if no entry is unused or no free range is large enough, and those of `change_table`.
pub fn add_partition<D: Disk>(alloc: Global, disk: &mut D, new: &NewPartition) -> Result<u64>
    requires { 0 < new.now.size }
    ensures keeps { Keeps (D.state disk.old) (D.state disk.new) }

    // After Ok the sectors were free before, and the table with the partition was written to both places.
    ensures added { IsHonest (D.state disk.old) → IfOk result (λ first. MakesChange
        (IsWith new.now.partition new.now.size) (Some 512) first
        (D.state disk.old) (D.state disk.new)) }

    // An error has its reason. Unless the disk failed, nothing was written.
    ensures refused { IsHonest (D.state disk.old) → IfErr result (λ e. RefusesChange
        (IsWith new.now.partition new.now.size) (HasNoRoom new.now.size) ⊥ (Some 512) (fault_of e)
        (D.state disk.old) (D.state disk.new)) }
    ensures kept { IsHonest (D.state disk.old)
        → OnErr result (FailedOrUntouched (D.state disk.old) (D.state disk.new)) }

    // If all good copies are of one table, a crash or fault at any moment leaves that table or the one with the
    // partition.
    ensures safe { (was : Table) → StartsGood (D.state disk.old) 512 was
        → IsSafe (IsWith new.now.partition new.now.size) 512 was
        (D.state disk.old) (D.state disk.new) }
{
    what_is_read_is_kept(disk); // a law, for the proof: an edit keeps the places of a table
    change_table(alloc, disk, Some(512), new)
}

// Returns the number of the first unused entry.
fn first_unused(table: &GPT) -> Option<u32>
    ensures found { IfSome result (IsFirstUnused table.now) }
    ensures none { IfNone result (AreAllUsed table.now) }
{
    let (number, _) = table.iter().find(|(_, entry)| entry.is_unused())?;
    Some(number)
}

fn main(rt: HostRuntime) -> Result<ExitCode> {
    let Some(image) = env::args(&rt)?.nth(1) else {
        println!(rt; "usage: example_plan IMAGE")?;
        return Ok(ExitCode::FAILURE);
    };
    let first = add_to_image(&rt, rt.alloc(), image.as_str())?;
    println!(rt; "added 10 sectors from sector {first} on")?;
    Ok(ExitCode::SUCCESS)
}

// Closes the image before it returns, so that nothing is printed while it is open: with a closed standard output, the
// line would go into the image.
fn add_to_image<R: Files<File = File>>(files: &R, alloc: Global, image: &str) -> Result<u64> {
    // Other programs that take this lock wait until it is released, when this returns.
    let turn = File::open(files, image)?;
    turn.lock()?;
    let mut disk = FileDisk::open(files, image)?;
    let partition = GPTPartitionEntry {
        partition_type_guid: *b"\xa2\xa0\xd0\xeb\xe5\xb9\x33\x44\x87\xc0\x68\xb6\xb7\x26\x99\xc7",
        unique_partition_guid: [0x33; 16], // a real program makes a new one each time
        partition_name: PartitionName::new(alloc, "Data")?,
        ..GPTPartitionEntry::empty(alloc)
    };
    add_partition(
        alloc,
        &mut disk,
        &NewPartition {
            size: 10,
            partition,
        },
    )
}
