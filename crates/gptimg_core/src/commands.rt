//! Runs commands on a disk. Prints nothing.

ghost use Rattle.std.specs.Prelude.{◌≡◌, ◌⊎◌, ◌<◌, ◌∷◌, [], false, IfErr, IfOk, IfSome, IsTrue, OnErr, OnOk};
ghost use Rattle.gptman.specs.Answers.{HasCause, IsFailure, ReportsFailure};
ghost use Rattle.gptman.specs.Crash.{StartsLaidOut};
ghost use Rattle.gptman.specs.Disk.{FailedOrUntouched, IsHonest, Keeps, OnlyRead};
ghost use Rattle.gptman.specs.Disk.{Reads, Writes};
ghost use Rattle.gptman.specs.Fault.{fault_of, out_of_memory};
ghost use Rattle.gptman.specs.Mbr.{mbr_range, IsMbrStored, WritesMbr};
ghost use Rattle.gptman.specs.Stop.{IsStored};
ghost use Rattle.gptman.specs.Table.{new_table, table_in};
ghost use Rattle.gptman.specs.TableWrites.{table_ranges};
ghost use Rattle.gptman_change.specs.Reads.{RefusesReading};
ghost use Rattle.gptimg_core.specs.Asks.{writes};
ghost use Rattle.gptimg_core.specs.Changes.{ReplacesTable};
ghost use Rattle.gptimg_core.specs.Checks.{is_good, ReportsCopies};
ghost use Rattle.gptimg_core.specs.Does.{Does};
ghost use Rattle.gptimg_core.specs.Reads.{AreSlotsIn, ReportsTable};
ghost use Rattle.gptimg_core.specs.Refusals.{RefusesMbr, RefusesNew};
ghost use Rattle.gptimg_core.specs.Words.{IsSized};
ghost use Rattle.gptimg_core.specs.declared.commands.Report.TheVariants.{Done, Table};

use crate::words::Command;
use gptman::{BothCopies, Disk, GPT, Result, check};
use gptman_change::{change_table, read_table};
use std::alloc::Global;

pub mod change;

/// The result of a command, to be printed.
#[derive(Drop)]
pub enum Report {
    /// Done, without a value.
    Done,
    /// The table on the disk.
    Table(GPT),
    /// The free ranges, each with its first sector and its length in sectors.
    Slots(Vec<(u64, u64)>),
    /// A partition was added with this number, from its first sector to its last.
    Added { number: u32, first: u64, last: u64 },
    /// Both copies of the table, or their faults.
    Copies(BothCopies),
}

/// Runs a command.
///
/// # Errors
///
/// Those of making, reading, changing and writing a table, and of writing an MBR.
pub fn perform<D: Disk>(alloc: Global, command: &Command, disk: &mut D) -> Result<Report>
    requires { IsSized command.now }
    ensures keeps { Keeps (D.state disk.old) (D.state disk.new) }
    ensures does { Does command.now result (D.state disk.old) (D.state disk.new) }
    ensures reads { IsHonest (D.state disk.old) → writes command.now ≡ false
        → OnlyRead (D.state disk.old) (D.state disk.new) }
{
    match command {
        Command::New { sector_size, guid } => write_new(alloc, disk, *sector_size, *guid),
        Command::Mbr {
            sector_size,
            bootable,
        } => write_mbr(disk, *sector_size, *bootable),
        Command::Check { sector_size } => look_at_copies(alloc, disk, *sector_size),
        Command::Show { sector_size } => show_table(alloc, disk, *sector_size),
        Command::Free { sector_size, align } => list_free(alloc, disk, *sector_size, *align),
        Command::Change {
            sector_size,
            change,
        } => change_table(alloc, disk, *sector_size, change),
    }
}

// Checks both copies of the table. The sector size is in bytes.
fn look_at_copies<D: Disk>(alloc: Global, disk: &mut D, sector_size: u64) -> Result<Report>
    requires { 0 < sector_size }
    ensures reads { Reads (D.state disk.old) (D.state disk.new) }
    ensures refused { IfErr result (λ e. (fault_of e ≡ out_of_memory)
        ⊎ IsFailure (fault_of e) (D.state disk.old) (D.state disk.new)) }
    ensures copies { IsHonest (D.state disk.old)
        → IfOk result (ReportsCopies sector_size (D.state disk.old) (D.state disk.new)) }
{
    Ok(Report::Copies(check(alloc, disk, sector_size)?))
}

// Reads the table on the disk. Without a sector size it finds one.
fn show_table<D: Disk>(alloc: Global, disk: &mut D, sector_size: Option<u64>) -> Result<Report>
    requires { IfSome sector_size (λ size. 0 < size) }
    ensures reads { Reads (D.state disk.old) (D.state disk.new) }
    ensures refused { IsHonest (D.state disk.old)
        → IfErr result (λ e. RefusesReading sector_size (fault_of e) (D.state disk.old) (D.state disk.new)) }
    ensures cause { HasCause result (D.state disk.old) (D.state disk.new) }
    ensures good { IfOk result (λ report. IsTrue (is_good report)) }
    ensures shown { IsHonest (D.state disk.old)
        → IfOk result (λ report. ReportsTable (λ g. report ≡ Table g) sector_size
        (D.state disk.old) (D.state disk.new)) }
{
    Ok(Report::Table(read_table(alloc, disk, sector_size)?))
}

// Lists the free ranges, each from its first multiple of `align` sectors.
fn list_free<D: Disk>(
    alloc: Global,
    disk: &mut D,
    sector_size: Option<u64>,
    align: u64,
) -> Result<Report>
    requires sized { IfSome sector_size (λ size. 0 < size) }
    requires aligned { 0 < align }
    ensures reads { Reads (D.state disk.old) (D.state disk.new) }
    ensures refused { IsHonest (D.state disk.old)
        → IfErr result (λ e. RefusesReading sector_size (fault_of e) (D.state disk.old) (D.state disk.new)) }
    ensures cause { HasCause result (D.state disk.old) (D.state disk.new) }
    ensures good { IfOk result (λ report. IsTrue (is_good report)) }
    ensures slots { IsHonest (D.state disk.old)
        → IfOk result (λ report. ReportsTable (λ g. AreSlotsIn g align report) sector_size
        (D.state disk.old) (D.state disk.new)) }
{
    let mut table = read_table(alloc, disk, sector_size)?;
    table.align = align;
    Ok(Report::Slots(table.find_free_sectors()?))
}

// Writes a new table to both places of the disk.
fn write_new<D: Disk>(
    alloc: Global,
    disk: &mut D,
    sector_size: u64,
    guid: [u8; 16],
) -> Result<Report>
    requires { 0 < sector_size }
    ensures keeps { Keeps (D.state disk.old) (D.state disk.new) }
    ensures failure { ReportsFailure result (D.state disk.old) (D.state disk.new) }
    ensures refused { IfErr result (λ e. RefusesNew guid sector_size (fault_of e)
        (D.state disk.old) (D.state disk.new)) }
    ensures kept { IsHonest (D.state disk.old) → OnErr result
        (FailedOrUntouched (D.state disk.old) (D.state disk.new)) }
    ensures made { IfOk result (λ report. report ≡ Done) }
    ensures wrote { Writes (table_ranges (new_table guid sector_size (D.state disk.old).size))
        (D.state disk.old) (D.state disk.new) }
    ensures stored { let table = new_table guid sector_size (D.state disk.old).size in
        StartsLaidOut (D.state disk.old) table
        → OnOk result (IsStored (D.state disk.new) sector_size (table_in table)) }
    ensures replaces { ReplacesTable (new_table guid sector_size (D.state disk.old).size)
        (D.state disk.old) (D.state disk.new) }
{
    let mut table = GPT::new_from(alloc, disk, sector_size, guid)?;
    table.write_into(disk)?;
    Ok(Report::Done)
}

// Writes a protective MBR and syncs it.
fn write_mbr<D: Disk>(disk: &mut D, sector_size: u64, bootable: bool) -> Result<Report>
    requires { 0 < sector_size }
    ensures keeps { Keeps (D.state disk.old) (D.state disk.new) }
    ensures failure { ReportsFailure result (D.state disk.old) (D.state disk.new) }
    ensures refused { IfErr result (λ e. RefusesMbr sector_size (fault_of e)
        (D.state disk.old) (D.state disk.new)) }
    ensures kept { IsHonest (D.state disk.old) → OnErr result
        (FailedOrUntouched (D.state disk.old) (D.state disk.new)) }
    ensures made { IfOk result (λ report. report ≡ Done) }
    ensures wrote { Writes (mbr_range ∷ []) (D.state disk.old) (D.state disk.new) }
    ensures stored { IsHonest (D.state disk.old)
        → OnOk result (IsMbrStored bootable sector_size (D.state disk.old) (D.state disk.new)) }
{
    write_unsynced_mbr(disk, sector_size, bootable)?;
    disk.sync()?;
    Ok(Report::Done)
}

// Writes a protective MBR, without a sync.
fn write_unsynced_mbr<D: Disk>(disk: &mut D, sector_size: u64, bootable: bool) -> Result<()>
    requires { 0 < sector_size }
    ensures keeps { Keeps (D.state disk.old) (D.state disk.new) }
    ensures failure { ReportsFailure result (D.state disk.old) (D.state disk.new) }
    ensures refused { IfErr result (λ e. RefusesMbr sector_size (fault_of e)
        (D.state disk.old) (D.state disk.new)) }
    ensures kept { IsHonest (D.state disk.old) → OnErr result
        (FailedOrUntouched (D.state disk.old) (D.state disk.new)) }
    ensures wrote { Writes (mbr_range ∷ []) (D.state disk.old) (D.state disk.new) }
    ensures contents { WritesMbr bootable sector_size result (D.state disk.old) (D.state disk.new) }
{
    if bootable {
        GPT::write_bootable_protective_mbr_into(disk, sector_size)
    } else {
        GPT::write_protective_mbr_into(disk, sector_size)
    }
}
