//! Reads one copy, the header and its entries, and tests it.
//!
//! Entries are read in blocks of up to 32, into a fixed array. No memory is allocated in advance for the
//! header's count.

ghost use Rattle.std.specs.Prelude.{◌≡◌, ◌≢◌, ◌≤◌, ◌<◌, ◌+◌, ◌*◌, ◌⊎◌, ◌++◌, ℕ, List, [], length};
ghost use Rattle.std.specs.Prelude.{IfOk, IfErr, OnOk, OnErr};
ghost use Rattle.gptman.specs.Answers.{answer_of, is_array_fault, is_header_fault};
ghost use Rattle.gptman.specs.Answers.{Answers, AnswersInMemory, CountsFailure, Refuses};
ghost use Rattle.gptman.specs.Answers.{RefusesOnly, ReportsFailureOrEnd};
ghost use Rattle.gptman.specs.Coding.{header_bytes, units_at};
ghost use Rattle.gptman.specs.Copy.{array_result, entries_of, entry_result, header_result, unless};
ghost use Rattle.gptman.specs.Copy.{value_tests};
ghost use Rattle.gptman.specs.Crc.{crc_of};
ghost use Rattle.gptman_disk.specs.Disk.{next_bytes, HasNext, IsHonest, Moves};
ghost use Rattle.gptman_disk.specs.Disk.{PassesEnd, Reads, Rose};
ghost use Rattle.gptman_disk.specs.Fault.{fault_of, first_failing, io as io_fault};
ghost use Rattle.gptman_disk.specs.Fault.{invalid_entry_size, out_of_memory, overflow};
ghost use Rattle.gptman.specs.Name.{text_of};
ghost use Rattle.gptman.specs.Reads.{BeginsTooFar, HasEntrySize, HasTooMany, HasWrongSize, IsBlockFault};
ghost use Rattle.gptman.specs.Reads.{IsReadyFor, IsSeekFault};
ghost use Rattle.gptman.specs.Reads.{PassTheEnd};
ghost use Rattle.gptman.specs.Register.{HasTaken};

use crate::cells::part_at;
use crate::codec::entry::GPTPartitionEntry;
use crate::codec::header::GPTHeader;
use crate::crc::Checksum;
use crate::disk::{Disk, past_end};
use crate::error::{Error, Result};
use crate::header::{REVISION, SIGNATURE};
use crate::sizes::{ENTRY_SIZE, HEADER_SIZE};
use std::alloc::Global;

impl GPTHeader {
    /// Reads the header in the 92 bytes at the disk's position, and advances the position.
    ///
    /// # Errors
    /// The first test that fails: `Io` if the disk fails or ends before, then `InvalidSignature`,
    /// `InvalidRevision`, `InvalidHeaderSize`, `InvalidChecksum`.
    pub fn read_from<D: Disk>(disk: &mut D) -> Result<GPTHeader>
        ensures reads { Reads (D.state disk.old) (D.state disk.new) }
        ensures failure { ReportsFailureOrEnd 92 result (D.state disk.old) (D.state disk.new) }
        ensures answer { Answers (λ h. h) (header_result (D.state disk.old).view (D.state disk.old).position)
            result (D.state disk.old) (D.state disk.new) }
        ensures refused { RefusesOnly is_header_fault result }
        ensures size { IfOk result (λ h. h.header_size ≡ 92) }
        ensures moves { OnOk result (Moves (D.state disk.old) (D.state disk.new) 92) }
    {
        let mut bytes = [0; 92];
        disk.read_exact(&mut bytes)?;
        GPTHeader::decode(&bytes).test()
    }

    // Returns the header if its values pass the tests.
    fn test(self) -> Result<GPTHeader>
        ensures answer { answer_of (λ h. h) result
            ≡ unless (first_failing (value_tests self (header_bytes self))) self }
        ensures refused { RefusesOnly is_header_fault result }
        ensures not_io { Refuses result io_fault → ⊥ }
        ensures size { IfOk result (λ h. h.header_size ≡ 92) }
    {
        if self.signature != SIGNATURE {
            return Err(Error::InvalidSignature);
        }
        if self.revision != REVISION {
            return Err(Error::InvalidRevision);
        }
        if self.header_size != HEADER_SIZE {
            return Err(Error::InvalidHeaderSize);
        }
        let computed = self.generate_crc32_checksum();
        if self.crc32_checksum != computed {
            return Err(Error::InvalidChecksum(self.crc32_checksum, computed));
        }
        Ok(self)
    }

    /// Reads all entries of this header: 128 bytes each, from byte `partition_entry_lba * sector_size` of the
    /// disk on. `sector_size` is in bytes, and must be above 0. The list grows as entries are read.
    ///
    /// # Errors
    /// The first test that fails: if there are entries, `InvalidPartitionEntrySize`, `Overflow` if that byte
    /// does not fit in 64 bits, `Io` if the disk fails or does not have them all; then
    /// `InvalidPartitionEntryArrayChecksum`. If the header counts entries past the end of the disk, none is
    /// read and nothing is allocated. `OutOfMemory` if the list or a name cannot be allocated; without entries
    /// nothing is.
    pub fn read_partitions<D: Disk>(
        &self,
        alloc: Global,
        disk: &mut D,
        sector_size: u64,
    ) -> Result<Vec<GPTPartitionEntry>>
        requires { 0 < sector_size }
        ensures reads { Reads (D.state disk.old) (D.state disk.new) }
        ensures counts { CountsFailure result (D.state disk.old) (D.state disk.new) }
        ensures wrong_size { HasWrongSize self.now
            → Refuses result (invalid_entry_size self.now.size_of_partition_entry) }
        ensures too_far { BeginsTooFar self.now sector_size → Refuses result overflow }
        ensures past_end { PassTheEnd self.now sector_size (D.state disk.old).size → Refuses result io_fault }
        ensures empty { self.now.number_of_partition_entries ≡ 0 → Refuses result out_of_memory → ⊥ }
        ensures answer { AnswersInMemory (λ v. v.items)
            (array_result (D.state disk.old).view sector_size self.now)
            result (D.state disk.old) (D.state disk.new) }
        ensures refused { RefusesOnly is_array_fault result }
        ensures cause { Refuses result io_fault → Rose (D.state disk.old) (D.state disk.new)
            ⊎ HasTooMany self.now sector_size (D.state disk.old).size }
        ensures count { IfOk result (λ v. length v.items ≡ self.now.number_of_partition_entries) }
        ensures entry_size { OnOk result (HasEntrySize self.now) }
    {
        self.seek_entries(disk, sector_size)?;
        let array = read_array(alloc, disk, self.number_of_partition_entries)?;
        if self.partition_entry_array_crc32 != array.checksum {
            return Err(Error::InvalidPartitionEntryArrayChecksum(
                self.partition_entry_array_crc32,
                array.checksum,
            ));
        }
        Ok(array.partitions)
    }

    // Seeks to the first entry, if there are entries and the disk has them all.
    fn seek_entries<D: Disk>(&self, disk: &mut D, sector_size: u64) -> Result<()>
        ensures reads { Reads (D.state disk.old) (D.state disk.new) }
        ensures counts { CountsFailure result (D.state disk.old) (D.state disk.new) }
        ensures wrong_size { HasWrongSize self.now
            → Refuses result (invalid_entry_size self.now.size_of_partition_entry) }
        ensures too_far { BeginsTooFar self.now sector_size → Refuses result overflow }
        ensures past_end { PassTheEnd self.now sector_size (D.state disk.old).size → Refuses result io_fault }
        ensures refused { IfErr result (λ e. IsSeekFault self.now sector_size (fault_of e)
            (D.state disk.old) (D.state disk.new)) }
        ensures ready { OnOk result (IsReadyFor self.now sector_size (D.state disk.new)) }
    {
        if self.number_of_partition_entries == 0 {
            return Ok(());
        }
        if self.size_of_partition_entry != ENTRY_SIZE {
            return Err(Error::InvalidPartitionEntrySize(self.size_of_partition_entry));
        }
        let Some(start) = self.partition_entry_lba.checked_mul(sector_size) else {
            return Err(Error::Overflow);
        };
        if self.end_of_entries(sector_size) > u128::from(disk.seek_end()?) {
            return Err(Error::Io(past_end()));
        }
        disk.seek_start(start)?;
        Ok(())
    }
}

impl GPTPartitionEntry {
    /// Reads the entry in the 128 bytes at the disk's position, and advances the position. The text of the name
    /// is decoded from its units. No value is tested.
    ///
    /// `Io` if the disk fails or ends before, `OutOfMemory` if the text cannot be allocated. The bytes are read
    /// before anything is allocated, and an empty name needs no memory.
    pub fn read_from<D: Disk>(alloc: Global, disk: &mut D) -> Result<GPTPartitionEntry>
        ensures reads { Reads (D.state disk.old) (D.state disk.new) }
        ensures failure { ReportsFailureOrEnd 128 result (D.state disk.old) (D.state disk.new) }
        ensures answer { AnswersInMemory (λ e. e)
            (entry_result (D.state disk.old).view (D.state disk.old).position)
            result (D.state disk.old) (D.state disk.new) }
        ensures refused { IfErr result (λ e. (fault_of e ≡ out_of_memory) ⊎ (fault_of e ≡ io_fault)) }
        ensures past_end { PassesEnd (D.state disk.old) 128 → Refuses result io_fault }
        ensures empty { IsHonest (D.state disk.old)
            → text_of (units_at (next_bytes (D.state disk.old) 128)) ≡ []
            → Refuses result out_of_memory → ⊥ }
        ensures moves { OnOk result (Moves (D.state disk.old) (D.state disk.new) 128) }
    {
        let mut bytes = [0; 128];
        disk.read_exact(&mut bytes)?;
        GPTPartitionEntry::decode(alloc, &bytes)
    }
}

// Entries that were read, and the checksum of their bytes.
#[derive(Drop)]
struct EntryArray {
    partitions: Vec<GPTPartitionEntry>,
    checksum: u32,
}

// Reads `count` entries at the disk's position.
fn read_array<D: Disk>(alloc: Global, disk: &mut D, count: u32) -> Result<EntryArray>
    ensures reads { Reads (D.state disk.old) (D.state disk.new) }
    ensures counts { CountsFailure result (D.state disk.old) (D.state disk.new) }
    ensures within { OnOk result ((count ≡ 0) ⊎ HasNext (D.state disk.old) (128 * count)) }
    ensures refused { IfErr result (λ e. IsBlockFault (128 * count) (fault_of e)
        (D.state disk.old) (D.state disk.new)) }
    ensures some { OnErr result (count ≢ 0) }
    ensures count { IfOk result (λ a. length a.partitions.items ≡ count) }
    ensures entries { IsHonest (D.state disk.old)
        → IfOk result (λ a. a.partitions.items
        ≡ entries_of (next_bytes (D.state disk.old) (128 * count)) count) }
    ensures checksum { IsHonest (D.state disk.old)
        → IfOk result (λ a. a.checksum ≡ crc_of (next_bytes (D.state disk.old) (128 * count))) }
{
    let mut partitions = Vec::new(alloc);
    let mut checksum = Checksum::new();
    let mut bytes = [0; 4096];
    let mut done = 0;
    while done < count {
        let block = (count - done).min(32);
        read_block(
            alloc,
            disk,
            &mut bytes,
            block,
            &mut partitions,
            &mut checksum,
        )?;
        done += block;
    }
    Ok(EntryArray {
        partitions,
        checksum: checksum.finish(),
    })
}

// Reads up to 32 entries at the disk's position, through the buffer `bytes`, and appends them to the list.
fn read_block<D: Disk>(
    alloc: Global,
    disk: &mut D,
    bytes: &mut [u8; 4096],
    count: u32,
    partitions: &mut Vec<GPTPartitionEntry>,
    checksum: &mut Checksum,
) -> Result<()>
    requires { count ≤ 32 }
    ensures reads { Reads (D.state disk.old) (D.state disk.new) }
    ensures counts { CountsFailure result (D.state disk.old) (D.state disk.new) }
    ensures within { OnOk result (HasNext (D.state disk.old) (128 * count)) }
    ensures refused { IfErr result (λ e. IsBlockFault (128 * count) (fault_of e)
        (D.state disk.old) (D.state disk.new)) }
    ensures count { OnOk result (length partitions.new.items ≡ length partitions.old.items + count) }
    ensures entries { IsHonest (D.state disk.old) → OnOk result (partitions.new.items
        ≡ partitions.old.items ++ entries_of (next_bytes (D.state disk.old) (128 * count)) count) }
    ensures checksum { IsHonest (D.state disk.old) → OnOk result ((m : List ℕ) → HasTaken checksum.old m
        → HasTaken checksum.new (m ++ next_bytes (D.state disk.old) (128 * count))) }
    ensures moves { OnOk result (Moves (D.state disk.old) (D.state disk.new) (128 * count)) }
{
    let block = &mut bytes[..128 * count as usize];
    disk.read_exact(block)?;
    checksum.update(block);
    decode_block(alloc, block, count, partitions)
}

// Decodes `count` entries, and appends them to the list.
fn decode_block(
    alloc: Global,
    bytes: &[u8],
    count: u32,
    partitions: &mut Vec<GPTPartitionEntry>,
) -> Result<()>
    requires { length bytes.now ≡ 128 * count }
    ensures entries { OnOk result
        (partitions.new.items ≡ partitions.old.items ++ entries_of bytes.now count) }
    ensures refused { IfErr result (λ e. fault_of e ≡ out_of_memory) }
{
    for k in 0..count as usize {
        let entry = GPTPartitionEntry::decode(alloc, &part_at(bytes, 128 * k))?;
        partitions.push(entry)?;
    }
    Ok(())
}
