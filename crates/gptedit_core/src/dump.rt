//! The layout that describes a table.

ghost use Rattle.std.specs.Prelude.{◌≡◌, IfErr, IfOk};
ghost use Rattle.std.specs.List.{enumerate_from};
ghost use Rattle.gptman.specs.Fault.{fault_of, out_of_memory};
ghost use Rattle.gptman.specs.Table.{entries_in};
ghost use Rattle.gptedit_core.specs.Dumping.{asked_of, asked_of_all, more_sectors, IsLayoutOf};

use crate::amount::Amount;
use crate::asked::{Asked, Choice, Mode, RequestedLayout, Size};
use gptman::{GPT, GPTPartitionEntry, Result};
use std::alloc::Global;

/// Returns the layout that describes the table: the GUID of the disk, and each used entry with all its fields and its
/// number. Applying it to the same table changes nothing. It is not refused there if the table has the stated layout
/// and may be written, its alignment is above 0, and there is a random GUID for each entry.
///
/// Fails only with `OutOfMemory`.
pub fn layout_of(alloc: Global, table: &GPT) -> Result<RequestedLayout>
    ensures value { IfOk result (IsLayoutOf table.now) }
    ensures refused { IfErr result (λ e. fault_of e ≡ out_of_memory) }
{
    let asked = ask_for_all(alloc, table)?;
    Ok(RequestedLayout {
        mode: Mode::Become { replace: false },
        disk_guid: Some(table.header.disk_guid),
        align: Amount::Sectors(table.align),
        removed: Vec::new(alloc),
        asked,
    })
}

// Returns a request for each used entry that leaves it unchanged.
fn ask_for_all(alloc: Global, table: &GPT) -> Result<Vec<Asked>>
    ensures value { IfOk result (λ asked. asked.items
        ≡ asked_of_all (enumerate_from 1 (entries_in table.now))) }
    ensures refused { IfErr result (λ e. fault_of e ≡ out_of_memory) }
{
    let mut asked = Vec::new(alloc);
    for (number, entry) in table.iter() {
        if entry.is_used() {
            asked.push(ask_for(number, entry)?)?;
        }
    }
    Ok(asked)
}

/// Returns a request that leaves this entry unchanged.
pub(crate) fn ask_for(number: u32, entry: &GPTPartitionEntry) -> Result<Asked>
    ensures value { IfOk result (λ a. a ≡ asked_of number entry.now) }
    ensures refused { IfErr result (λ e. fault_of e ≡ out_of_memory) }
{
    let sectors = count_sectors(entry.starting_lba, entry.ending_lba);
    Ok(Asked {
        number: Some(number),
        type_guid: Some(entry.partition_type_guid),
        unique_guid: Some(entry.unique_partition_guid),
        attributes: Some(entry.attribute_bits),
        name: Some(entry.partition_name.clone()?),
        start: Some(Amount::Sectors(entry.starting_lba)),
        size: Some(Size::Exactly(Amount::Sectors(sectors))),
        choice: Choice::First,
    })
}

// Returns the number of sectors from `first` to `last`, or 0 if there are none or if the number exceeds 64 bits.
fn count_sectors(first: u64, last: u64) -> u64
    ensures { result ≡ more_sectors first last }
{
    if first <= last && last - first < u64::MAX {
        last - first + 1
    } else {
        0
    }
}
