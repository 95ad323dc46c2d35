//! Writes one copy: the header with both checksums, then its entries in blocks of up to 32.

ghost use Rattle.std.specs.Prelude.{◌≡◌, ◌≤◌, ◌<◌, ◌+◌, ◌*◌, ◌⊎◌, ◌∷◌, [], nat_eq, if◌then◌else◌, length};
ghost use Rattle.std.specs.Prelude.{take};
ghost use Rattle.std.specs.Prelude.{true, false, Some, All, IfErr, IsTrue, MatchOption, OnErr};
ghost use Rattle.std.specs.Prelude.{OnOk};
ghost use Rattle.std.specs.List.{list_all};
ghost use Rattle.gptman.specs.Answers.{FailsPending, Refuses, RefusesUntouched, ReportsFailure, Settles};
ghost use Rattle.gptman.specs.Coding.{array_bytes, FitsEntry};
ghost use Rattle.gptman.specs.Copy.{with_checksums, IsCoherent};
ghost use Rattle.gptman.specs.Crc.{crc_of};
ghost use Rattle.gptman_disk.specs.Disk.{HasFailedAsOften, HasFailedOnce};
ghost use Rattle.gptman_disk.specs.Disk.{next_range, HasNext, IsHonest, IsPending, Keeps, Moves, Overlays};
ghost use Rattle.gptman_disk.specs.Disk.{StaysPending, Writes};
ghost use Rattle.gptman_disk.specs.Fault.{fault_of, io as io_fault, overflow};
ghost use Rattle.gptman.specs.Write.{copy_write_fault, has_other_header, header_range, other_header};
ghost use Rattle.gptman.specs.Write.{copy_ranges};
ghost use Rattle.gptman.specs.Write.{is_addressable as is_range_addressable};
ghost use Rattle.gptman.specs.Write.{is_inside as is_range_inside};
ghost use Rattle.gptman.specs.Write.{FitsCopy, SameButSums, WritesCopy};

use crate::cells::put;
use crate::codec::entry::GPTPartitionEntry;
use crate::codec::header::GPTHeader;
use crate::disk::Disk;
use crate::error::{Error, Result};
use std::io;

impl GPTHeader {
    /// Computes both checksums, and writes the header at byte `primary_lba * sector_size`, then the entries
    /// from byte `partition_entry_lba * sector_size` on. Does not sync or allocate.
    ///
    /// `sector_size` is in bytes, and must be above 0. The header must describe the entries: its size is 92,
    /// its count their number, and its entry size 128 unless there are none.
    ///
    /// # Errors
    /// `Overflow` if one of the two ranges does not fit in 64 bits, then `Io` if the disk's length cannot be
    /// determined, then `NoSpaceLeft` if a range ends past the disk. So far at most the disk's position has
    /// changed. Then `Io` if a write fails: at most the header's two checksums have changed, and nothing was
    /// written or the header's range is unsynced.
    pub fn write_into<D: Disk>(
        &mut self,
        disk: &mut D,
        sector_size: u64,
        partitions: &[GPTPartitionEntry],
    ) -> Result<()>
        requires sector { 0 < sector_size }
        requires coherent { IsCoherent self.old partitions.now }
        ensures keeps { Keeps (D.state disk.old) (D.state disk.new) }
        ensures failure { ReportsFailure result (D.state disk.old) (D.state disk.new) }

        // The result.
        ensures at_once { copy_write_fault self.old sector_size (D.state disk.old).size ≡ Some overflow
            → Refuses result overflow }
        ensures answer { Settles (copy_write_fault self.old sector_size (D.state disk.old).size) result
            (D.state disk.old) (D.state disk.new) }

        // The header: it has both checksums after `Ok`, and is unchanged after an error other than `Io`.
        ensures value { OnOk result (self.new ≡ with_checksums self.old partitions.now) }
        ensures fits { OnOk result (FitsCopy self.new partitions.now) }
        ensures kept { IfErr result (λ e. (fault_of e ≡ io_fault) ⊎ (self.new ≡ self.old)) }
        ensures sums { SameButSums self.old self.new }

        // The disk: the copy is written and unsynced after `Ok`, and nothing is written after an error other
        // than `Io`.
        ensures wrote { Writes (copy_ranges self.old sector_size) (D.state disk.old) (D.state disk.new) }
        ensures contents { WritesCopy self.new partitions.now sector_size result
            (D.state disk.old) (D.state disk.new) }
        ensures pending { IsHonest (D.state disk.old)
            → OnOk result (IsPending (header_range self.old sector_size) (D.state disk.new)) }
        ensures untouched { RefusesUntouched result (D.state disk.old) (D.state disk.new) }
        ensures failed { FailsPending (header_range self.old sector_size) result
            (D.state disk.old) (D.state disk.new) }
    {
        if !self.is_addressable(sector_size) {
            return Err(Error::Overflow);
        }
        let size = disk.seek_end()?;
        if !self.is_inside(sector_size, size) {
            return Err(Error::NoSpaceLeft);
        }
        let checksum = self.generate_partition_entry_array_crc32(partitions);
        write_summed(disk, self, sector_size, partitions, checksum)?;
        Ok(())
    }

    /// Returns the header of the other copy, or `None` if its first entry sector does not fit in 64 bits.
    pub fn other(&self) -> Option<GPTHeader>
        ensures { MatchOption result (has_other_header self.now ≡ false)
            (λ h. (has_other_header self.now ≡ true) × (h ≡ other_header self.now)) }
    {
        let entries = if self.partition_entry_lba == 2 {
            self.last_usable_lba.checked_add(1)?
        } else {
            2
        };
        Some(GPTHeader {
            primary_lba: self.backup_lba,
            backup_lba: self.primary_lba,
            partition_entry_lba: entries,
            ..*self
        })
    }

    /// Reports whether the ranges of this copy, its header and its entries, start and end below byte 2^64.
    pub fn is_addressable(&self, sector_size: u64) -> bool
        ensures { result ≡ list_all is_range_addressable (copy_ranges self.now sector_size) }
    {
        self.end_of_header(sector_size) < 1 << 64 && self.end_of_entries(sector_size) < 1 << 64
    }

    /// Reports whether the ranges of this copy end within `size` bytes.
    pub fn is_inside(&self, sector_size: u64, size: u64) -> bool
        ensures { result ≡ list_all (is_range_inside size) (copy_ranges self.now sector_size) }
    {
        self.end_of_header(sector_size) <= u128::from(size)
            && self.end_of_entries(sector_size) <= u128::from(size)
    }

    // Returns the byte after the header.
    fn end_of_header(&self, sector_size: u64) -> u128
        ensures { result ≡ self.now.primary_lba * sector_size + 92 }
    {
        u128::from(self.primary_lba) * u128::from(sector_size) + 92
    }

    /// Returns the byte after the entries, or 0 if there are none.
    pub(crate) fn end_of_entries(&self, sector_size: u64) -> u128
        ensures { result ≡ (if nat_eq self.now.number_of_partition_entries 0 then 0
            else self.now.partition_entry_lba * sector_size + 128 * self.now.number_of_partition_entries) }
    {
        if self.number_of_partition_entries == 0 {
            return 0;
        }
        let start = u128::from(self.partition_entry_lba) * u128::from(sector_size);
        start + 128 * u128::from(self.number_of_partition_entries)
    }
}

/// Computes the header's checksum, with `checksum` as that of its entries, and writes the header at byte
/// `primary_lba * sector_size`, then the entries from byte `partition_entry_lba * sector_size` on. Does not
/// sync or allocate. Two copies with the same entries share one `checksum`.
///
/// The header must describe the entries, as for `GPTHeader::write_into`, `checksum` must be that of the
/// entries, and both ranges must end within the disk.
///
/// An error is returned only if the disk fails: nothing was written, or the header's range is unsynced.
pub fn write_summed<D: Disk>(
    disk: &mut D,
    header: &mut GPTHeader,
    sector_size: u64,
    partitions: &[GPTPartitionEntry],
    checksum: u32,
) -> io::Result<()>
    requires coherent { IsCoherent header.old partitions.now }
    requires checksum { checksum ≡ crc_of (array_bytes partitions.now) }
    requires inside { IsTrue (list_all (is_range_inside (D.state disk.old).size)
        (copy_ranges header.old sector_size)) }
    ensures keeps { Keeps (D.state disk.old) (D.state disk.new) }
    ensures counts { OnOk result (HasFailedAsOften (D.state disk.old) (D.state disk.new)) }
    ensures once { OnErr result (HasFailedOnce (D.state disk.old) (D.state disk.new)) }
    ensures value { header.new ≡ with_checksums header.old partitions.now }
    ensures fits { OnOk result (FitsCopy header.new partitions.now) }
    ensures sums { SameButSums header.old header.new }
    ensures wrote { Writes (copy_ranges header.old sector_size) (D.state disk.old) (D.state disk.new) }
    ensures contents { WritesCopy header.new partitions.now sector_size result
        (D.state disk.old) (D.state disk.new) }
    ensures pending { IsHonest (D.state disk.old)
        → OnOk result (IsPending (header_range header.old sector_size) (D.state disk.new)) }
    ensures failed { FailsPending (header_range header.old sector_size) result
        (D.state disk.old) (D.state disk.new) }
{
    header.partition_entry_array_crc32 = checksum;
    header.update_crc32_checksum();
    write_copy(disk, header, sector_size, partitions)
}

// Writes the header, then the entries. After an error nothing was written, or the header's range is unsynced.
fn write_copy<D: Disk>(
    disk: &mut D,
    header: &GPTHeader,
    sector_size: u64,
    partitions: &[GPTPartitionEntry],
) -> io::Result<()>
    requires count { length partitions.now ≡ header.now.number_of_partition_entries }
    requires inside { IsTrue (list_all (is_range_inside (D.state disk.old).size)
        (copy_ranges header.now sector_size)) }
    ensures keeps { Keeps (D.state disk.old) (D.state disk.new) }
    ensures counts { OnOk result (HasFailedAsOften (D.state disk.old) (D.state disk.new)) }
    ensures once { OnErr result (HasFailedOnce (D.state disk.old) (D.state disk.new)) }
    ensures fits { OnOk result (FitsCopy header.now partitions.now) }
    ensures wrote { Writes (copy_ranges header.now sector_size) (D.state disk.old) (D.state disk.new) }
    ensures contents { WritesCopy header.now partitions.now sector_size result
        (D.state disk.old) (D.state disk.new) }
    ensures pending { IsHonest (D.state disk.old)
        → OnOk result (IsPending (header_range header.now sector_size) (D.state disk.new)) }
    ensures failed { FailsPending (header_range header.now sector_size) result
        (D.state disk.old) (D.state disk.new) }
{
    disk.seek_start(header.primary_lba * sector_size)?;
    disk.write_all(&header.encode())?;
    if partitions.is_empty() {
        return Ok(());
    }
    disk.seek_start(header.partition_entry_lba * sector_size)?;
    write_entries(disk, partitions)
}

// Writes the entries at the disk's position.
fn write_entries<D: Disk>(disk: &mut D, partitions: &[GPTPartitionEntry]) -> io::Result<()>
    requires { HasNext (D.state disk.old) (128 * length partitions.now) }
    ensures keeps { Keeps (D.state disk.old) (D.state disk.new) }
    ensures counts { OnOk result (HasFailedAsOften (D.state disk.old) (D.state disk.new)) }
    ensures once { OnErr result (HasFailedOnce (D.state disk.old) (D.state disk.new)) }
    ensures fits { OnOk result (All FitsEntry partitions.now) }
    ensures wrote { Writes (next_range (D.state disk.old) (128 * length partitions.now) ∷ [])
        (D.state disk.old) (D.state disk.new) }
    ensures contents { IsHonest (D.state disk.old)
        → OnOk result (Overlays (array_bytes partitions.now) (D.state disk.old) (D.state disk.new)) }
    ensures still_pending { IsHonest (D.state disk.old)
        → StaysPending (D.state disk.old) (D.state disk.new) }
{
    let mut bytes = [0; 4096];
    let mut done = 0;
    while done < partitions.len() {
        let end = partitions.len().min(done + 32);
        write_block(disk, &mut bytes, &partitions[done..end])?;
        done = end;
    }
    Ok(())
}

// Writes up to 32 entries at the disk's position, through the buffer `bytes` and in one call.
fn write_block<D: Disk>(
    disk: &mut D,
    bytes: &mut [u8; 4096],
    block: &[GPTPartitionEntry],
) -> io::Result<()>
    requires few { length block.now ≤ 32 }
    requires room { HasNext (D.state disk.old) (128 * length block.now) }
    ensures keeps { Keeps (D.state disk.old) (D.state disk.new) }
    ensures counts { OnOk result (HasFailedAsOften (D.state disk.old) (D.state disk.new)) }
    ensures once { OnErr result (HasFailedOnce (D.state disk.old) (D.state disk.new)) }
    ensures fits { All FitsEntry block.now }
    ensures moves { OnOk result (Moves (D.state disk.old) (D.state disk.new) (128 * length block.now)) }
    ensures wrote { Writes (next_range (D.state disk.old) (128 * length block.now) ∷ [])
        (D.state disk.old) (D.state disk.new) }
    ensures contents { IsHonest (D.state disk.old)
        → OnOk result (Overlays (array_bytes block.now) (D.state disk.old) (D.state disk.new)) }
    ensures still_pending { IsHonest (D.state disk.old)
        → StaysPending (D.state disk.old) (D.state disk.new) }
{
    encode_block(bytes, block);
    disk.write_all(&bytes[..128 * block.len()])
}

// Encodes the entries into the first bytes.
fn encode_block(bytes: &mut [u8], block: &[GPTPartitionEntry])
    requires { 128 * length block.now ≤ length bytes.old }
    ensures bytes { take (128 * length block.now) bytes.new ≡ array_bytes block.now }
    ensures fits { All FitsEntry block.now }
{
    for (k, partition) in block.iter().enumerate() {
        put(bytes, 128 * k, &partition.encode());
    }
}
