//! Changes of a table in memory.

ghost use Rattle.std.specs.Prelude.{◌≡◌, ◌⊎◌, ◌<◌, ℕ, false, None, Some, IfErr, IfOk, IsTrue, OnOk};
ghost use Rattle.gptman.specs.Answers.{IsFailure, ReportsFailure};
ghost use Rattle.gptman.specs.Coding.{empty_entry};
ghost use Rattle.gptman.specs.Copy.{IsCoherent};
ghost use Rattle.gptman.specs.Disk.{Reads};
ghost use Rattle.gptman.specs.Entry.{is_unused};
ghost use Rattle.gptman.specs.Fault.{fault_of, invalid_partition_number, out_of_memory};
ghost use Rattle.gptman.specs.Fit.{fit_fault};
ghost use Rattle.gptman.specs.Number.{entry_at, number_fault, with_entries, with_entry, IsNumber};
ghost use Rattle.gptman.specs.Order.{by_rank, rank};
ghost use Rattle.gptman.specs.Place.{EndsIn64Bits, FindsPlace};
ghost use Rattle.gptman.specs.Table.{entries_in};
ghost use Rattle.gptimg_core.specs.Changes.{report_of, IsAdded, IsChanged, IsChosenPlace, IsMade};
ghost use Rattle.gptimg_core.specs.Refusals.{AsksDisk, RefusesAddition, RefusesMaking};
ghost use Rattle.gptimg_core.specs.Words.{IsSizedAddition, IsSizedChange};
ghost use Rattle.gptimg_core.specs.declared.commands.Report.TheVariants.{Done};
ghost use Rattle.gptimg_core.specs.declared.words.Change.TheVariants.{Add, Grow};

use crate::commands::Report;
use crate::words::{Addition, Change, Choice};
use gptman::{Disk, Error, GPT, GPTPartitionEntry, PartitionName, Result};
use gptman_change::{Plan, Planned};
use std::alloc::Global;

/// A change is a plan whose answer is the report.
impl Plan for Change<'_> {
    type Answer = Report;

    ghost ready = { IsSizedChange };

    ghost makes = { IsMade };

    ghost refuses = { RefusesMaking };

    ghost asks = { AsksDisk };

    /// Changes the table. The errors are those of removing, sorting, fitting and adding.
    fn change<D: Disk>(
        &self,
        alloc: Global,
        disk: &mut D,
        table: &mut GPT,
    ) -> Result<Planned<Report>> {
        match self {
            Change::Add(addition) => Ok(Planned::Write(add(alloc, table, addition)?)),
            Change::Remove(number) => Ok(Planned::Write(remove(table, *number)?)),
            Change::Sort => Ok(Planned::Write(sort(table)?)),
            Change::Grow => Ok(Planned::Write(fit(disk, table)?)),
        }
    }
}

// Removes an entry.
fn remove(table: &mut GPT, number: u32) -> Result<Report>
    requires coherent { IsCoherent table.old.header (entries_in table.old) }
    ensures outcome { IfOk result (λ report. report ≡ Done) }
    ensures refused { IfErr result (λ e. number_fault table.old number ≡ Some (fault_of e)) }
    ensures value { OnOk result ((number_fault table.old number ≡ None)
        × (table.new ≡ with_entry table.old number empty_entry)) }
    ensures coherent { OnOk result (IsCoherent table.new.header (entries_in table.new)) }
{
    table.remove(number)?;
    Ok(Report::Done)
}

// Sorts the entries.
fn sort(table: &mut GPT) -> Result<Report>
    requires coherent { IsCoherent table.old.header (entries_in table.old) }
    ensures outcome { IfOk result (λ report. report ≡ Done) }
    ensures refused { IfErr result (λ e. fault_of e ≡ out_of_memory) }
    ensures value { OnOk result (table.new
        ≡ with_entries table.old (by_rank rank (entries_in table.old))) }
    ensures coherent { OnOk result (IsCoherent table.new.header (entries_in table.new)) }
{
    table.sort()?;
    Ok(Report::Done)
}

// Fits the header of the table to the length of the disk.
fn fit<D: Disk>(disk: &mut D, table: &mut GPT) -> Result<Report>
    requires sector { 0 < table.old.sector_size }
    requires coherent { IsCoherent table.old.header (entries_in table.old) }
    ensures reads { Reads (D.state disk.old) (D.state disk.new) }
    ensures failure { ReportsFailure result (D.state disk.old) (D.state disk.new) }
    ensures outcome { IfOk result (λ report. report ≡ Done) }
    ensures refused { IfErr result (λ e.
        (fit_fault table.old.header table.old.sector_size (D.state disk.old).size ≡ Some (fault_of e))
        ⊎ IsFailure (fault_of e) (D.state disk.old) (D.state disk.new)) }
    ensures value { OnOk result (IsChanged (D.state disk.old).size Grow table.old table.new) }
    ensures coherent { OnOk result (IsCoherent table.new.header (entries_in table.new)) }
{
    let sector_size = table.sector_size;
    table.header.update_from(disk, sector_size)?;
    Ok(Report::Done)
}

// Adds a partition at a free place, with the number of an unused entry.
//
// `InvalidPartitionNumber` if no entry has this number, or it is used; `NoSpaceLeft` if there is no place.
fn add(alloc: Global, table: &mut GPT, addition: &Addition) -> Result<Report>
    requires coherent { IsCoherent table.old.header (entries_in table.old) }
    requires sized { IsSizedAddition addition.now }
    ensures outcome { IfOk result (λ report. report ≡ report_of (Add addition.now) table.new) }
    ensures refused { IfErr result (λ e. RefusesAddition addition.now table.old (fault_of e)) }
    ensures value { OnOk result (IsAdded addition.now table.old table.new) }
    ensures coherent { OnOk result (IsCoherent table.new.header (entries_in table.new)) }
{
    let number = addition.number;
    if !has_unused(table, number) {
        return Err(Error::InvalidPartitionNumber(number));
    }
    let partition_name = PartitionName::new(alloc, addition.name.as_str())?;
    table.align = addition.align;
    let Some(first) = find_place(table, addition.choice, addition.size)? else {
        return Err(Error::NoSpaceLeft);
    };
    let last = first + (addition.size - 1);
    table[number] = GPTPartitionEntry {
        partition_type_guid: addition.type_guid,
        unique_partition_guid: addition.unique_guid,
        starting_lba: first,
        ending_lba: last,
        attribute_bits: 0,
        partition_name,
    };
    Ok(Report::Added {
        number,
        first,
        last,
    })
}

// Reports whether the entry with this number exists and is unused.
fn has_unused(table: &GPT, number: u32) -> bool
    requires { IsCoherent table.now.header (entries_in table.now) }
    ensures number { IsTrue result → (number_fault table.now number ≡ None) × IsNumber table.now number }
    ensures unused { IsTrue result → IsTrue (is_unused (entry_at table.now number)) }
    ensures neither { result ≡ false
        → (number_fault table.now number ≡ Some (invalid_partition_number number))
        ⊎ ((number_fault table.now number ≡ None) × ¬ IsTrue (is_unused (entry_at table.now number))) }
{
    number >= 1 && number <= table.header.number_of_partition_entries && table[number].is_unused()
}

// Returns the chosen place for `size` sectors, if there is one.
fn find_place(table: &GPT, choice: Choice, size: u64) -> Result<Option<u64>>
    requires aligned { 0 < table.now.align }
    ensures refused { IfErr result (λ e. fault_of e ≡ out_of_memory) }
    ensures value { IfOk result (FindsPlace (IsChosenPlace choice) table.now size) }
    ensures fits { IfOk result (EndsIn64Bits size) }
{
    match choice {
        Choice::First => table.find_first_place(size),
        Choice::Last => table.find_last_place(size),
        Choice::Best => table.find_optimal_place(size),
    }
}
