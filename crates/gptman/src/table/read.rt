//! Makes a table for a disk, and reads the table of a disk.

ghost use Rattle.std.specs.Prelude.{◌≡◌, ◌≢◌, ◌≤◌, ◌<◌, ◌⊎◌, Ok, replicate, IfErr, IfOk, IsTrue, OnOk};
ghost use Rattle.gptman.specs.Answers.{answer_of, is_copy_fault, is_damage};
ghost use Rattle.gptman.specs.Answers.{AnswersInMemory, CountsFailure, HasCause, Refuses, RefusesOnly};
ghost use Rattle.gptman.specs.Answers.{Settles};
ghost use Rattle.gptman.specs.Coding.{empty_entry};
ghost use Rattle.gptman.specs.Copy.{copy_at};
ghost use Rattle.gptman_disk.specs.Disk.{HasFailedAsOften, HasFailedOnceAtMost, IsHonest, Reads, Rose};
ghost use Rattle.gptman_disk.specs.Fault.{fault_of, io as io_fault, invalid_signature, out_of_memory, overflow};
ghost use Rattle.gptman.specs.Fit.{fit_fault, new_header, new_header_of};
ghost use Rattle.gptman.specs.Reading.{both, copy_in, found_sector_size, primary, reading_of};
ghost use Rattle.gptman.specs.Table.{new_table, new_table_of};
ghost use Rattle.gptman.specs.TableReads.{copy_of, is_reading_fault, AnswersReading, CountsReading, FallsBack};
ghost use Rattle.gptman.specs.TableReads.{IsAsRead, IsReadingFault, MayBeRead, ShowsNoSignature};

use crate::copy::{last_sector, read_copy};
use crate::sizes::DEFAULT_ENTRY_COUNT;
use crate::table::GPT;
use crate::table::align::{DEFAULT_ALIGN, find_alignment};
use crate::table::entries::Entries;
use crate::{Disk, Error, GPTHeader, GPTPartitionEntry, Result};
use std::alloc::Global;

impl GPT {
    /// Returns a new table of 128 unused entries, in primary form, fitted to the disk. Nothing is written.
    /// `sector_size` is in bytes, and must be above 0; `disk_guid` has the 16 bytes in their order on the disk.
    ///
    ///     let mut disk = FileDisk::open(&rt, "disk.img")?;
    ///     let mut table = GPT::new_from(rt.alloc(), &mut disk, 512, [0xff; 16])?;
    ///     table.write_into(&mut disk)?;
    ///
    /// `Io` if the disk fails, `Overflow` if it has fewer than two sectors besides one entry array,
    /// `OutOfMemory` if the entries cannot be allocated.
    pub fn new_from<D: Disk>(
        alloc: Global,
        disk: &mut D,
        sector_size: u64,
        disk_guid: [u8; 16],
    ) -> Result<GPT>
        requires { 0 < sector_size }
        ensures reads { Reads (D.state disk.old) (D.state disk.new) }
        ensures counts { CountsFailure result (D.state disk.old) (D.state disk.new) }
        ensures answer { Refuses result out_of_memory
            ⊎ Settles (fit_fault (new_header disk_guid) sector_size (D.state disk.old).size) result
            (D.state disk.old) (D.state disk.new) }
        ensures value { IfOk result (λ g. g ≡ new_table disk_guid sector_size (D.state disk.old).size) }
    {
        GPT::with_entries(alloc, disk, sector_size, disk_guid, DEFAULT_ENTRY_COUNT)
    }

    /// Returns a new table like `new_from`, but of `count` unused entries. These take as few sectors as
    /// possible, so with fewer entries the first usable sector is lower. Linux reads tables of at most 32768
    /// entries.
    ///
    /// `Overflow` if `count` is 0, then `Io` if the disk fails, then `Overflow` if it has fewer than two
    /// sectors besides one entry array, `OutOfMemory` if the entries cannot be allocated.
    pub fn with_entries<D: Disk>(
        alloc: Global,
        disk: &mut D,
        sector_size: u64,
        disk_guid: [u8; 16],
        count: u32,
    ) -> Result<GPT>
        requires { 0 < sector_size }
        ensures reads { Reads (D.state disk.old) (D.state disk.new) }
        ensures counts { CountsFailure result (D.state disk.old) (D.state disk.new) }
        ensures at_once { count ≡ 0 → Refuses result overflow }
        ensures answer { Refuses result out_of_memory
            ⊎ Settles (fit_fault (new_header_of count disk_guid) sector_size (D.state disk.old).size) result
            (D.state disk.old) (D.state disk.new) }
        ensures value { IfOk result (λ g. g
            ≡ new_table_of count disk_guid sector_size (D.state disk.old).size) }
    {
        let header = GPTHeader::with_entries(disk, sector_size, disk_guid, count)?;
        let partitions = empty_entries(alloc, count)?;
        Ok(GPT {
            sector_size,
            header,
            partitions: Entries::new(partitions),
            align: DEFAULT_ALIGN,
        })
    }

    /// Reads the table of the disk: the primary copy, in sector 1, or, if that has a fault, the backup copy, in
    /// the last whole sector. `sector_size` is in bytes, and must be above 0. The value has the header and the
    /// entries of that copy, and the alignment derived from them.
    ///
    ///     let mut disk = FileDisk::open_read(&rt, "disk.img")?;
    ///     let table = GPT::read_from(rt.alloc(), &mut disk, 512)?;
    ///     for (number, entry) in table.iter() {
    ///         // numbers count from 1
    ///     }
    ///
    /// # Errors
    /// If both copies have a fault, `InvalidSignature` if it is the fault of both or the disk is shorter than a
    /// sector, else `ReadError` with both. The fault of a copy is the first test that fails: `Io` if the disk
    /// fails or ends before; of the header `InvalidSignature`, `InvalidRevision`, `InvalidHeaderSize`,
    /// `InvalidChecksum`; of the entries `InvalidPartitionEntrySize`, `Overflow`, `Io`,
    /// `InvalidPartitionEntryArrayChecksum`.
    ///
    /// `Io` if the disk's length cannot be determined, or the seek to the backup copy fails. `OutOfMemory`, at
    /// once, if the entries or the two faults cannot be allocated.
    pub fn read_from<D: Disk>(alloc: Global, disk: &mut D, sector_size: u64) -> Result<GPT>
        requires { 0 < sector_size }
        ensures reads { Reads (D.state disk.old) (D.state disk.new) }

        // If the disk did not fail, the result is that of the read, or `OutOfMemory`.
        ensures answer { AnswersReading (reading_of (D.state disk.old).view sector_size) result
            (D.state disk.old) (D.state disk.new) }

        // If it failed and the result is `Ok`, it failed once, in the primary copy, and the backup copy was
        // read.
        ensures counts { IsHonest (D.state disk.old)
            → IfOk result (CountsReading (D.state disk.old) (D.state disk.new)) }
        ensures unsigned { Refuses result invalid_signature
            → HasFailedAsOften (D.state disk.old) (D.state disk.new)
            ⊎ ((D.state disk.old).size < sector_size) }

        // Even if it failed, the returned copy is accepted, and an error is `Io`, `OutOfMemory` or the fault of
        // the copies.
        ensures accepted { IsHonest (D.state disk.old)
            → IfOk result (λ g. MayBeRead (D.state disk.old) (D.state disk.new) sector_size (copy_of g)) }
        ensures refused { IsHonest (D.state disk.old)
            → IfErr result (λ e. IsReadingFault (D.state disk.old).view sector_size (fault_of e)) }
        ensures kinds { RefusesOnly is_reading_fault result }
        ensures cause { HasCause result (D.state disk.old) (D.state disk.new) }

        // The value: its header describes its entries, and its alignment is derived from them.
        ensures sector { IfOk result (λ g. g.sector_size ≡ sector_size) }
        ensures value { IfOk result IsAsRead }
    {
        let primary = match read_primary(alloc, disk, sector_size) {
            Ok(table) => return Ok(table),
            Err(primary) => primary,
        };
        if primary.is_out_of_memory() {
            return Err(primary);
        }
        read_backup(alloc, disk, sector_size, primary)
    }

    /// Reads the table of the disk as `read_from` does with sectors of 512 bytes or, if that returns
    /// `InvalidSignature`, of 4096 bytes.
    ///
    /// The errors are those of `read_from`.
    pub fn find_from<D: Disk>(alloc: Global, disk: &mut D) -> Result<GPT>
        ensures reads { Reads (D.state disk.old) (D.state disk.new) }

        // If the disk did not fail, the result is that of the read with one of the sizes, or `OutOfMemory`.
        ensures answer { AnswersReading
            (reading_of (D.state disk.old).view (found_sector_size (D.state disk.old).view))
            result (D.state disk.old) (D.state disk.new) }

        // If it failed and the result is `Ok`, it failed once, in the primary copy, and the backup copy was
        // read.
        ensures counts { IsHonest (D.state disk.old)
            → IfOk result (CountsReading (D.state disk.old) (D.state disk.new)) }

        // Even if it failed, 4096 is tried only if a read with 512 finds no signature.
        ensures accepted { IsHonest (D.state disk.old)
            → IfOk result (λ g. MayBeRead (D.state disk.old) (D.state disk.new) g.sector_size (copy_of g)) }
        ensures found { IsHonest (D.state disk.old) → Rose (D.state disk.old) (D.state disk.new)
            ⊎ IfOk result (λ g. g.sector_size ≡ found_sector_size (D.state disk.old).view) }
        ensures second { IsHonest (D.state disk.old) → IfOk result (λ g. (g.sector_size ≡ 512)
            ⊎ ((g.sector_size ≡ 4096) × ShowsNoSignature (D.state disk.old).view)) }
        ensures refused { IsHonest (D.state disk.old)
            → IfErr result (λ e. IsReadingFault (D.state disk.old).view 512 (fault_of e)
            ⊎ (ShowsNoSignature (D.state disk.old).view
            × IsReadingFault (D.state disk.old).view 4096 (fault_of e))) }
        ensures kinds { RefusesOnly is_reading_fault result }
        ensures cause { HasCause result (D.state disk.old) (D.state disk.new) }

        // The value: its header describes its entries, and its alignment is derived from them.
        ensures sector { IfOk result (λ g. (g.sector_size ≡ 512) ⊎ (g.sector_size ≡ 4096)) }
        ensures value { IfOk result IsAsRead }
    {
        let fault = match GPT::read_from(alloc, disk, 512) {
            Ok(table) => return Ok(table),
            Err(fault) => fault,
        };
        if !fault.is_invalid_signature() {
            return Err(fault);
        }
        GPT::read_from(alloc, disk, 4096)
    }
}

// Reads the copy at the primary place.
fn read_primary<D: Disk>(alloc: Global, disk: &mut D, sector_size: u64) -> Result<GPT>
    requires { 0 < sector_size }
    ensures reads { Reads (D.state disk.old) (D.state disk.new) }
    ensures counts { CountsFailure result (D.state disk.old) (D.state disk.new) }
    ensures answer { AnswersInMemory copy_of (copy_in primary (D.state disk.old).view sector_size) result
        (D.state disk.old) (D.state disk.new) }
    ensures refused { RefusesOnly is_copy_fault result }
    ensures sector { IfOk result (λ g. g.sector_size ≡ sector_size) }
    ensures value { IfOk result IsAsRead }
{
    disk.seek_start(sector_size)?;
    read_table(alloc, disk, sector_size)
}

// Reads the copy at the backup place, after the primary copy had this fault.
fn read_backup<D: Disk>(
    alloc: Global,
    disk: &mut D,
    sector_size: u64,
    primary: Error,
) -> Result<GPT>
    requires sector { 0 < sector_size }
    requires damage { IsTrue (is_damage (fault_of primary)) }
    ensures reads { Reads (D.state disk.old) (D.state disk.new) }
    ensures counts { OnOk result (HasFailedAsOften (D.state disk.old) (D.state disk.new)) }
    ensures once { HasFailedOnceAtMost (D.state disk.old) (D.state disk.new) }
    ensures answer { IsHonest (D.state disk.old)
        → FallsBack result copy_of (D.state disk.old).view sector_size
        (fault_of primary) (D.state disk.old) (D.state disk.new) }
    ensures unsigned { Refuses result invalid_signature
        → HasFailedAsOften (D.state disk.old) (D.state disk.new)
        × (((D.state disk.old).size < sector_size) ⊎ (fault_of primary ≡ invalid_signature)) }
    ensures kinds { RefusesOnly is_reading_fault result }
    ensures cause { HasCause result (D.state disk.old) (D.state disk.new) }
    ensures sector { IfOk result (λ g. g.sector_size ≡ sector_size) }
    ensures value { IfOk result IsAsRead }
{
    let size = disk.seek_end()?;
    if size < sector_size {
        return Err(Error::InvalidSignature);
    }
    disk.seek_start(last_sector(size, sector_size))?;
    let backup = read_table(alloc, disk, sector_size);
    settle(alloc, primary, backup)
}

// Returns the backup copy, or the error for both faults.
fn settle(alloc: Global, primary: Error, backup: Result<GPT>) -> Result<GPT>
    requires damage { IsTrue (is_damage (fault_of primary)) }
    requires faults { RefusesOnly is_copy_fault backup }
    ensures answer { Refuses result out_of_memory
        ⊎ (answer_of copy_of result ≡ elim (answer_of copy_of backup)
        [ Ok copy ↦ Ok copy | Err second ↦ Err (both (fault_of primary) second) ]) }
    ensures kinds { IfErr result (λ e. (fault_of e ≢ io_fault) × IsTrue (is_reading_fault (fault_of e))) }
    ensures memory { Refuses backup out_of_memory → Refuses result out_of_memory }
    ensures unsigned { Refuses result invalid_signature
        → (fault_of primary ≡ invalid_signature) × Refuses backup invalid_signature }
    ensures same { IfOk result (λ g. backup ≡ Ok g) }
{
    let backup = match backup {
        Ok(table) => return Ok(table),
        Err(backup) => backup,
    };
    if backup.is_out_of_memory() {
        return Err(backup);
    }
    Err(both(alloc, primary, backup)?)
}

// Reads the copy whose header is at the disk's position, and derives the alignment.
fn read_table<D: Disk>(alloc: Global, disk: &mut D, sector_size: u64) -> Result<GPT>
    requires { 0 < sector_size }
    ensures reads { Reads (D.state disk.old) (D.state disk.new) }
    ensures counts { CountsFailure result (D.state disk.old) (D.state disk.new) }
    ensures answer { AnswersInMemory copy_of
        (copy_at (D.state disk.old).view (D.state disk.old).position sector_size)
        result (D.state disk.old) (D.state disk.new) }
    ensures refused { RefusesOnly is_copy_fault result }
    ensures sector { IfOk result (λ g. g.sector_size ≡ sector_size) }
    ensures value { IfOk result IsAsRead }
{
    let copy = read_copy(alloc, disk, sector_size)?;
    let align = find_alignment(&copy.entries, copy.header.first_usable_lba);
    Ok(GPT {
        sector_size,
        header: copy.header,
        partitions: Entries::new(copy.entries),
        align,
    })
}

// Returns one error for the two faults.
fn both(alloc: Global, primary: Error, backup: Error) -> Result<Error>
    ensures both { IfOk result (λ e. fault_of e ≡ both (fault_of primary) (fault_of backup)) }
    ensures refused { IfErr result (λ e. fault_of e ≡ out_of_memory) }
{
    if primary.is_invalid_signature() && backup.is_invalid_signature() {
        return Ok(Error::InvalidSignature);
    }
    let primary = Box::new(alloc, primary)?;
    let backup = Box::new(alloc, backup)?;
    Ok(Error::ReadError(primary, backup))
}

// Returns `count` unused entries.
fn empty_entries(alloc: Global, count: u32) -> Result<Vec<GPTPartitionEntry>>
    ensures entries { IfOk result (λ v. v.items ≡ replicate count empty_entry) }
    ensures refused { IfErr result (λ e. fault_of e ≡ out_of_memory) }
{
    let mut partitions = Vec::with_capacity(alloc, count as usize)?;
    for _ in 0..count {
        partitions.push(GPTPartitionEntry::empty(alloc))?;
    }
    Ok(partitions)
}
