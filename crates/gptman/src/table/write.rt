//! Writes a table: checks first, then the other copy, then the own copy.
//!
//! Each copy is synced before the next is written, so at any moment at least one of them is complete.

ghost use Rattle.std.specs.Prelude.{◌≡◌, ◌<◌, ◌⊎◌, [], ◌∷◌, None, Some, if◌then◌else◌};
ghost use Rattle.std.specs.Prelude.{IfErr, IfOk, IsTrue, OnErr, OnOk};
ghost use Rattle.gptman.specs.Answers.{refusal_of, CountsFailure, FailsPending, IsFailure, ReportsFailure};
ghost use Rattle.gptman.specs.Answers.{Settles};
ghost use Rattle.gptman.specs.Coding.{array_bytes};
ghost use Rattle.gptman.specs.Copy.{with_checksums, IsCoherent};
ghost use Rattle.gptman.specs.Crc.{crc_of};
ghost use Rattle.gptman_disk.specs.Disk.{IsHonest, Keeps, Reads, Writes};
ghost use Rattle.gptman_disk.specs.Fault.{fault_of, io as io_fault, overflow};
ghost use Rattle.gptman_disk.specs.Ranges.{AreApart};
ghost use Rattle.gptman.specs.Write.{copy_write_fault, header_range, other_header, copy_ranges};
ghost use Rattle.gptman.specs.Write.{FitsCopy, SameButSums, WritesCopy};
ghost use Rattle.gptman.specs.Crash.{AreReadFromEachCopy, BothPlacesAfter, StopsComeInOrder, StopsKeepOthers};
ghost use Rattle.gptman.specs.Crash.{StartsFromOne, StartsLaidOut, StartsStored, StartsSynced};
ghost use Rattle.gptman.specs.Layout.{HasLayout};
ghost use Rattle.gptman.specs.Stop.{IsStored, StopsAreReadAs, StopsHold};
ghost use Rattle.gptman.specs.Table.{entries_in, table_in, Table};
ghost use Rattle.gptman.specs.TableWrites.{is_addressable_table, other_with_checksums, table_ranges};
ghost use Rattle.gptman.specs.TableWrites.{table_write_fault, value_with_checksums};
ghost use Rattle.gptman.specs.TableWrites.{HasBothCopies, HasRoomOn, IsButSums, IsFailureOrMemory};
ghost use Rattle.gptman.specs.TableWrites.{MayBeWritten, RefusesAtOnce, RefusesTable, RefusesUnwritten};
ghost use Rattle.gptman.specs.TableWrites.{RefusesWrite};
ghost use Rattle.gptman.specs.Valid.{IsValid};

use crate::copy::write_summed;
use crate::table::GPT;
use crate::table::checks::check;
use crate::{Disk, Error, GPTHeader, GPTPartitionEntry, Result};

impl GPT {
    /// Writes both copies of the table, the other copy first, with a sync after each, and returns the header of
    /// the other copy as written. The own copy is the one whose header the value has.
    ///
    /// The sector size must be above 0, and the table coherent (`is_coherent`). A table that was made or read
    /// is coherent, but changes to the public fields of its header can break this.
    ///
    /// # Errors
    /// Before anything is written: `ConflictPartitionGUID` if two used entries have the same unique GUID; else
    /// `InvalidPartitionBoundaries` if an entry, used or not, ends before it starts, two used ones overlap, one
    /// is outside of the usable sectors, or the first usable sector is above the last one plus 1; `Overflow` if
    /// a sector or byte to be written does not fit in 64 bits; `Io` if the disk's length cannot be determined;
    /// `NoSpaceLeft` if a copy ends past the disk. `OutOfMemory` if the checks of the entries run out of
    /// memory; later steps do not allocate.
    ///
    /// Afterwards only `Io`, if the disk fails: open it again. At most the two checksums of the value's header
    /// differ. On an honest disk of the stated layout, if the own place held a table before the write, nothing
    /// was unsynced and the other copy's ranges do not overlap it, at least one place still holds that table or
    /// the new one.
    pub fn write_into<D: Disk>(&mut self, disk: &mut D) -> Result<GPTHeader>
        requires sector { 0 < self.old.sector_size }
        requires coherent { IsCoherent self.old.header (entries_in self.old) }
        ensures keeps { Keeps (D.state disk.old) (D.state disk.new) }
        ensures failure { ReportsFailure result (D.state disk.old) (D.state disk.new) }

        // The result. A write of a valid table in the stated layout fails only if the disk fails or memory runs
        // out.
        ensures answer { OnOk result (MayBeWritten self.old (D.state disk.old).size) }
        ensures refused { IfErr result
            (λ e. RefusesWrite self.old (fault_of e) (D.state disk.old) (D.state disk.new)) }
        ensures room { HasLayout self.old (D.state disk.old).size
            → IsValid self.old.header (entries_in self.old)
            → IfErr result (λ e. IsFailureOrMemory (fault_of e) (D.state disk.old) (D.state disk.new)) }

        // The value, and the other header: both have their checksums after `Ok`; at most the checksums of the
        // value change.
        ensures value { OnOk result (self.new ≡ value_with_checksums self.old) }
        ensures kept { IfErr result (λ e. (fault_of e ≡ io_fault) ⊎ (self.new ≡ self.old)) }
        ensures sums { IsButSums self.old self.new }
        ensures other { IfOk result (λ h. h ≡ other_with_checksums self.old) }

        // The disk, in the stated layout or not. An error other than `Io` wrote nothing.
        ensures wrote { Writes (table_ranges self.old) (D.state disk.old) (D.state disk.new) }
        ensures synced { IsHonest (D.state disk.old) → OnOk result ((D.state disk.new).pending ≡ []) }
        ensures contents { IsHonest (D.state disk.old) → AreApart (table_ranges self.old)
            → IfOk result (HasBothCopies (D.state disk.new).view self.new) }
        ensures untouched { RefusesUnwritten result (D.state disk.old) (D.state disk.new) }

        // After `Ok`, in the stated layout, both places hold the table, and each copy by itself is read as the
        // table.
        ensures stored { StartsLaidOut (D.state disk.old) self.old
            → OnOk result (IsStored (D.state disk.new) self.old.sector_size (table_in self.old)) }
        ensures each_copy { StartsLaidOut (D.state disk.old) self.old
            → OnOk result (AreReadFromEachCopy (D.state disk.new).view self.old) }

        // A crash at any moment leaves all bytes outside the other copy unchanged, or that copy complete. So
        // from one good copy it leaves the old or the new table in at least one place, and all bytes outside
        // the four ranges unchanged.
        ensures order { StartsSynced (D.state disk.old) self.old
            → StopsComeInOrder (D.state disk.old) (D.state disk.new) self.old }
        ensures one_good { (was : Table) → StartsFromOne (D.state disk.old) self.old was
            → StopsHold (D.state disk.old) (D.state disk.new) self.old.sector_size
            (was ∷ table_in self.old ∷ []) }
        ensures outside { StartsSynced (D.state disk.old) self.old
            → StopsKeepOthers (D.state disk.old) (D.state disk.new) self.old }

        // So the disk is read as one of the two tables, unless the read returns a foreign copy.
        ensures read { (was : Table) → StartsFromOne (D.state disk.old) self.old was
            → StopsAreReadAs (D.state disk.old) (D.state disk.new) self.old.sector_size
            (was ∷ table_in self.old ∷ []) }

        // After an error each place is unchanged, or holds the new table whatever a crash leaves, or has an
        // unsynced header.
        ensures after { StartsSynced (D.state disk.old) self.old
            → OnErr result (BothPlacesAfter self.old (D.state disk.old) (D.state disk.new)) }

        // On an honest disk of the stated layout whose two synced copies hold one valid table, after any
        // edits that keep the layout and any acknowledged writes, a stop or disk fault at any moment of
        // the next `write_into` leaves a disk from which `read_from` with the same sector size gives the
        // last acknowledged table or the one being written; after Ok each copy alone gives the new one.
        ensures crash_safe { (was : Table) → StartsStored (D.state disk.old) self.old was
            → StopsAreReadAs (D.state disk.old) (D.state disk.new) self.old.sector_size
            (was ∷ table_in self.old ∷ []) }
    {
        let alloc = self.partitions.alloc();
        check(alloc, &self.header, self.partitions.as_slice())?;

        // Nothing is allocated from here on.
        let other = self.writable_other(disk)?;
        self.write_both(disk, other)
    }

    /// Checks the table as `write_into` does, for a disk of `size` bytes. After `Ok`, a write of this table to
    /// such a disk fails only if the disk fails or memory runs out.
    ///
    /// The errors are those of `write_into` except `Io`, in the same order.
    pub fn check_write(&self, size: u64) -> Result<()>
        ensures answer { OnOk result (MayBeWritten self.now size) }
        ensures refused { IfErr result (λ e. RefusesTable self.now size (fault_of e)) }
    {
        check(
            self.partitions.alloc(),
            &self.header,
            self.partitions.as_slice(),
        )?;
        let other = self.addressable_other()?;
        self.check_room(&other, size)
    }

    // Writes the other copy, with the header `other`, and then the own copy. There must be room for both.
    fn write_both<D: Disk>(&mut self, disk: &mut D, mut other: GPTHeader) -> Result<GPTHeader>
        requires sector { 0 < self.old.sector_size }
        requires coherent { IsCoherent self.old.header (entries_in self.old) }
        requires other { other ≡ other_header self.old.header }
        requires room { HasRoomOn self.old (D.state disk.old).size }
        ensures keeps { Keeps (D.state disk.old) (D.state disk.new) }
        ensures counts { CountsFailure result (D.state disk.old) (D.state disk.new) }
        ensures refused { IfErr result (λ e. IsFailure (fault_of e) (D.state disk.old) (D.state disk.new)) }
        ensures value { OnOk result (self.new ≡ value_with_checksums self.old) }
        ensures sums { IsButSums self.old self.new }
        ensures other { IfOk result (λ h. h ≡ other_with_checksums self.old) }
        ensures wrote { Writes (table_ranges self.old) (D.state disk.old) (D.state disk.new) }
        ensures synced { IsHonest (D.state disk.old) → OnOk result ((D.state disk.new).pending ≡ []) }
        ensures contents { IsHonest (D.state disk.old) → AreApart (table_ranges self.old)
            → IfOk result (HasBothCopies (D.state disk.new).view self.new) }
        ensures stored { StartsLaidOut (D.state disk.old) self.old
            → OnOk result (IsStored (D.state disk.new) self.old.sector_size (table_in self.old)) }
        ensures order { StartsSynced (D.state disk.old) self.old
            → StopsComeInOrder (D.state disk.old) (D.state disk.new) self.old }
        ensures after { StartsSynced (D.state disk.old) self.old
            → OnErr result (BothPlacesAfter self.old (D.state disk.old) (D.state disk.new)) }
    {
        let sector_size = self.sector_size;
        let entries = self.partitions.as_slice();
        let checksum = self.header.generate_partition_entry_array_crc32(entries);
        write_and_sync(disk, &mut other, sector_size, entries, checksum)?;
        write_and_sync(disk, &mut self.header, sector_size, entries, checksum)?;
        Ok(other)
    }

    // Returns the other header, if both copies may be written to the disk.
    fn writable_other<D: Disk>(&self, disk: &mut D) -> Result<GPTHeader>
        ensures reads { Reads (D.state disk.old) (D.state disk.new) }
        ensures failure { ReportsFailure result (D.state disk.old) (D.state disk.new) }
        ensures at_once { RefusesAtOnce (table_write_fault self.now (D.state disk.old).size) result }
        ensures answer { Settles (table_write_fault self.now (D.state disk.old).size) result
            (D.state disk.old) (D.state disk.new) }
        ensures value { IfOk result (λ h. h ≡ other_header self.now.header) }
    {
        let other = self.addressable_other()?;
        let size = disk.seek_end()?;
        self.check_room(&other, size)?;
        Ok(other)
    }

    // Returns the other header, if both copies start and end below byte 2^64.
    fn addressable_other(&self) -> Result<GPTHeader>
        ensures answer { refusal_of result
            ≡ (if is_addressable_table self.now then None else Some overflow) }
        ensures value { IfOk result (λ h. h ≡ other_header self.now.header) }
    {
        let own = &self.header;
        let Some(other) = own.other() else {
            return Err(Error::Overflow);
        };
        if !own.is_addressable(self.sector_size) || !other.is_addressable(self.sector_size) {
            return Err(Error::Overflow);
        }
        Ok(other)
    }

    // Returns `NoSpaceLeft` if a copy ends past `size` bytes.
    fn check_room(&self, other: &GPTHeader, size: u64) -> Result<()>
        requires other { other.now ≡ other_header self.now.header }
        requires addressable { IsTrue (is_addressable_table self.now) }
        ensures answer { refusal_of result ≡ table_write_fault self.now size }
    {
        let own = &self.header;
        if !own.is_inside(self.sector_size, size) || !other.is_inside(self.sector_size, size) {
            return Err(Error::NoSpaceLeft);
        }
        Ok(())
    }
}

// Writes one copy, with `checksum` as that of its entries, and syncs it. After an error nothing was written, or
// the header's range is unsynced.
fn write_and_sync<D: Disk>(
    disk: &mut D,
    header: &mut GPTHeader,
    sector_size: u64,
    partitions: &[GPTPartitionEntry],
    checksum: u32,
) -> Result<()>
    requires sector { 0 < sector_size }
    requires coherent { IsCoherent header.old partitions.now }
    requires checksum { checksum ≡ crc_of (array_bytes partitions.now) }
    requires allowed { copy_write_fault header.old sector_size (D.state disk.old).size ≡ None }
    ensures keeps { Keeps (D.state disk.old) (D.state disk.new) }
    ensures counts { CountsFailure result (D.state disk.old) (D.state disk.new) }
    ensures refused { IfErr result (λ e. IsFailure (fault_of e) (D.state disk.old) (D.state disk.new)) }
    ensures value { OnOk result (header.new ≡ with_checksums header.old partitions.now) }
    ensures fits { OnOk result (FitsCopy header.new partitions.now) }
    ensures sums { SameButSums header.old header.new }
    ensures wrote { Writes (copy_ranges header.old sector_size) (D.state disk.old) (D.state disk.new) }
    ensures synced { IsHonest (D.state disk.old) → OnOk result ((D.state disk.new).pending ≡ []) }
    ensures contents { WritesCopy header.new partitions.now sector_size result
        (D.state disk.old) (D.state disk.new) }
    ensures failed { FailsPending (header_range header.old sector_size) result
        (D.state disk.old) (D.state disk.new) }
{
    write_summed(disk, header, sector_size, partitions, checksum)?;
    disk.sync()?;
    Ok(())
}
