//! Reads both copies of a table, one by one.

ghost use Rattle.std.specs.Prelude.{◌≡◌, ◌↔◌, ◌⊎◌, ◌<◌, IfErr, IfOk, IsTrue};
ghost use Rattle.gptman.specs.Answers.{answer_of, AnswersInMemory, IsFailure};
ghost use Rattle.gptman.specs.Copy.{copy_at, copy_of_whole};
ghost use Rattle.gptman_disk.specs.Disk.{IsHonest, Reads};
ghost use Rattle.gptman_disk.specs.Fault.{fault_of, out_of_memory};
ghost use Rattle.gptman.specs.Reading.{primary as at_primary, backup as at_backup, copy_in};
ghost use Rattle.gptman.specs.Table.{IsHeaderForm};
ghost use Rattle.gptman.specs.Copies.{with_sectors_exchanged, AreBothForms, AreFoundSame, AreOneTable};
ghost use Rattle.gptman.specs.Copies.{IsChecked, IsSeenAs};

use crate::copy::{WholeCopy, last_sector, read_copy};
use crate::{Disk, Error, GPTHeader, GPTPartitionEntry, Result};
use std::alloc::Global;

/// Both copies of a table: each copy, or its fault.
#[derive(Drop)]
pub struct BothCopies {
    /// The copy in sector 1.
    pub primary: Result<WholeCopy>,
    /// The copy in the last whole sector.
    pub backup: Result<WholeCopy>,
    /// Whether both places hold the same table, each in the form of its place.
    pub are_same: bool,
}

/// Reads both copies, and reports the fault of each. `sector_size` is in bytes, and must be above 0. A disk
/// shorter than a sector has no backup copy; the fault is then `InvalidSignature`.
///
/// `Io` if the length of the disk cannot be determined, `OutOfMemory` if the entries cannot be allocated.
pub fn check<D: Disk>(alloc: Global, disk: &mut D, sector_size: u64) -> Result<BothCopies>
    requires { 0 < sector_size }
    ensures reads { Reads (D.state disk.old) (D.state disk.new) }
    ensures refused { IfErr result (λ e. (fault_of e ≡ out_of_memory)
        ⊎ IsFailure (fault_of e) (D.state disk.old) (D.state disk.new)) }
    ensures value { IsHonest (D.state disk.old)
        → IfOk result (IsChecked sector_size (D.state disk.old) (D.state disk.new)) }
{
    let size = disk.seek_end()?;
    let primary = look_at(alloc, disk, sector_size, sector_size)?;
    let backup = look_at_backup(alloc, disk, sector_size, size)?;
    let are_same = are_same(&primary, &backup);
    Ok(BothCopies {
        primary,
        backup,
        are_same,
    })
}

// Reads the copy in the last whole sector of a disk of `size` bytes.
fn look_at_backup<D: Disk>(
    alloc: Global,
    disk: &mut D,
    sector_size: u64,
    size: u64,
) -> Result<Result<WholeCopy>>
    requires sector { 0 < sector_size }
    requires whole { size ≡ (D.state disk.old).size }
    ensures reads { Reads (D.state disk.old) (D.state disk.new) }
    ensures refused { IfErr result (λ e. fault_of e ≡ out_of_memory) }
    ensures value { IsHonest (D.state disk.old) → IfOk result (IsSeenAs
        (copy_in at_backup (D.state disk.old).view sector_size) (D.state disk.old) (D.state disk.new)) }
{
    if size < sector_size {
        return Ok(Err(Error::InvalidSignature));
    }
    look_at(alloc, disk, sector_size, last_sector(size, sector_size))
}

// Reads the copy whose header is at byte `at`. Allocation failure is an error, not a fault of the copy.
fn look_at<D: Disk>(
    alloc: Global,
    disk: &mut D,
    sector_size: u64,
    at: u64,
) -> Result<Result<WholeCopy>>
    requires { 0 < sector_size }
    ensures reads { Reads (D.state disk.old) (D.state disk.new) }
    ensures refused { IfErr result (λ e. fault_of e ≡ out_of_memory) }
    ensures value { IsHonest (D.state disk.old) → IfOk result (IsSeenAs
        (copy_at (D.state disk.old).view at sector_size) (D.state disk.old) (D.state disk.new)) }
{
    match read_at(alloc, disk, sector_size, at) {
        Err(Error::OutOfMemory) => Err(Error::OutOfMemory),
        found => Ok(found),
    }
}

// Reads the copy whose header is at byte `at`.
fn read_at<D: Disk>(alloc: Global, disk: &mut D, sector_size: u64, at: u64) -> Result<WholeCopy>
    requires { 0 < sector_size }
    ensures reads { Reads (D.state disk.old) (D.state disk.new) }
    ensures answer { AnswersInMemory copy_of_whole (copy_at (D.state disk.old).view at sector_size) result
        (D.state disk.old) (D.state disk.new) }
{
    disk.seek_start(at)?;
    read_copy(alloc, disk, sector_size)
}

// Reports whether both copies were found and are the same table.
fn are_same(primary: &Result<WholeCopy>, backup: &Result<WholeCopy>) -> bool
    ensures { IsTrue result ↔ AreFoundSame (answer_of copy_of_whole primary.now)
        (answer_of copy_of_whole backup.now) }
{
    match (primary, backup) {
        (Ok(primary), Ok(backup)) => are_one_table(primary, backup),
        _ => false,
    }
}

// Reports whether the copies are the same table, the first in primary form and the second in backup form.
fn are_one_table(primary: &WholeCopy, backup: &WholeCopy) -> bool
    ensures { IsTrue result ↔ AreOneTable (copy_of_whole primary.now) (copy_of_whole backup.now) }
{
    are_both_forms(&primary.header, &backup.header)
        && are_same_entries(&primary.entries, &backup.entries)
}

// Reports whether the headers belong to the same table, the first in primary form and the second in backup
// form.
fn are_both_forms(primary: &GPTHeader, backup: &GPTHeader) -> bool
    ensures { IsTrue result ↔ AreBothForms primary.now backup.now }
{
    is_in_primary_form(primary)
        && is_in_backup_form(backup)
        && has_sectors_exchanged(primary, backup)
}

// Reports whether the header is in sector 1, and its entries begin in sector 2.
fn is_in_primary_form(header: &GPTHeader) -> bool
    ensures { IsTrue result ↔ IsHeaderForm at_primary header.now }
{
    header.primary_lba == 1 && header.partition_entry_lba == 2
}

// Reports whether the other header is in sector 1, and the entries begin after the last usable sector.
fn is_in_backup_form(header: &GPTHeader) -> bool
    ensures { IsTrue result ↔ IsHeaderForm at_backup header.now }
{
    header.backup_lba == 1
        && header.partition_entry_lba.checked_sub(1) == Some(header.last_usable_lba)
}

// Reports whether the second header is the first with its two sectors exchanged. Checksums and the place of the
// entries are not compared, because each copy has its own.
fn has_sectors_exchanged(primary: &GPTHeader, backup: &GPTHeader) -> bool
    ensures { IsTrue result ↔ (backup.now ≡ with_sectors_exchanged primary.now backup.now) }
{
    let other = GPTHeader {
        crc32_checksum: backup.crc32_checksum,
        primary_lba: primary.backup_lba,
        backup_lba: primary.primary_lba,
        partition_entry_lba: backup.partition_entry_lba,
        partition_entry_array_crc32: backup.partition_entry_array_crc32,
        ..*primary
    };
    *backup == other
}

fn are_same_entries(a: &[GPTPartitionEntry], b: &[GPTPartitionEntry]) -> bool
    ensures { IsTrue result ↔ (a.now ≡ b.now) }
{
    a == b
}
