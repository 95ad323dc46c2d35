//! The 128 bytes of a partition entry: five fields, and the 36 units of a name.

ghost use Rattle.std.specs.Prelude.{◌≡◌, ℕ, ◌^◌, ◌<◌, [], length, flat_map, slice_index, IfOk, IfErr, IsOk};
ghost use Rattle.byteorder.specs.Endian.{little_bytes};
ghost use Rattle.gptman_disk.specs.Bytes.{AreBytes};
ghost use Rattle.gptman.specs.Coding.{FitsEntry, IsEntryCoding, HasReadName, units_at, entry_bytes};
ghost use Rattle.gptman.specs.Coding.{empty_entry};
ghost use Rattle.gptman.specs.Answers.{answer_of};
ghost use Rattle.gptman.specs.Entry.{ends_of, is_unused, is_used, sectors_of, size_of};
ghost use Rattle.gptman_disk.specs.Fault.{fault_of, out_of_memory};
ghost use Rattle.gptman.specs.Name.{text_of};

use crate::cells::{note_bytes, part_at, put, put_u16, put_u64, u16_at, u64_at};
use crate::codec::name::PartitionName;
use crate::error::{Error, Result};
use byteorder::{ByteOrder, LittleEndian};
use std::alloc::Global;
use std::ops::RangeInclusive;

/// An entry of the table: a partition, or an unused entry. The fields fill the 128 bytes of the format's
/// partition entry, in this order and without gaps.
///
/// Sectors count from 0. Numbers are little endian on the disk. The comment of a field begins with its UEFI
/// name.
#[derive(Drop, PartialEq, Eq, Debug)]
pub struct GPTPartitionEntry {
    /// `PartitionTypeGUID`: the GUID of the partition's type, 16 bytes in their order on the disk; all zero in
    /// an unused entry.
    pub partition_type_guid: [u8; 16],
    /// `UniquePartitionGUID`: the GUID of this partition, 16 bytes in their order on the disk.
    pub unique_partition_guid: [u8; 16],
    /// `StartingLBA`: the first sector of the partition.
    pub starting_lba: u64,
    /// `EndingLBA`: the last sector of the partition, inclusive.
    pub ending_lba: u64,
    /// `Attributes`: the attribute bits.
    pub attribute_bits: u64,
    /// `PartitionName`: the name.
    pub partition_name: PartitionName,
}

impl GPTPartitionEntry {
    /// Returns the unused entry, 128 zero bytes on the disk, without allocating.
    pub fn empty(alloc: Global) -> GPTPartitionEntry
        ensures { result ≡ empty_entry }
    {
        GPTPartitionEntry {
            partition_type_guid: [0; 16],
            unique_partition_guid: [0; 16],
            starting_lba: 0,
            ending_lba: 0,
            attribute_bits: 0,
            partition_name: PartitionName::empty(alloc),
        }
    }

    /// Decodes an entry from the 128 bytes of the format. The text of the name is decoded from its units.
    ///
    /// `OutOfMemory` if the text cannot be allocated. An empty name needs no memory.
    pub fn decode(alloc: Global, bytes: &[u8; 128]) -> Result<Self>
        ensures coding { IfOk result (λ e. IsEntryCoding e bytes.now) }
        ensures name { IfOk result (λ e. HasReadName e) }
        ensures spelled { IfOk result (λ e. bytes.now ≡ entry_bytes e) }
        ensures refused { IfErr result (λ e. fault_of e ≡ out_of_memory) }
        ensures empty { text_of (units_at bytes.now) ≡ [] → IsOk result }
    {
        Ok(GPTPartitionEntry {
            partition_type_guid: part_at(bytes, 0),
            unique_partition_guid: part_at(bytes, 16),
            starting_lba: u64_at(bytes, 32),
            ending_lba: u64_at(bytes, 40),
            attribute_bits: u64_at(bytes, 48),
            partition_name: PartitionName::from_units(alloc, units_in(bytes))?,
        })
    }

    /// Encodes the entry as the 128 bytes of the format. Only the 36 units of the name are stored, not its
    /// text.
    pub fn encode(&self) -> [u8; 128]
        ensures spelled { result ≡ entry_bytes self.now }
        ensures coding { IsEntryCoding self.now result }
        ensures bytes { AreBytes result }
        ensures fits { FitsEntry self.now }
    {
        let mut bytes = [0; 128];
        put(&mut bytes, 0, &self.partition_type_guid);
        put(&mut bytes, 16, &self.unique_partition_guid);
        put_u64(&mut bytes, 32, self.starting_lba);
        put_u64(&mut bytes, 40, self.ending_lba);
        put_u64(&mut bytes, 48, self.attribute_bits);
        put(&mut bytes, 56, &bytes_of(self.partition_name.units()));
        note_bytes(&bytes);
        bytes
    }

    /// Reports whether the entry is unused: its type GUID is all zero.
    pub fn is_unused(&self) -> bool
        ensures { result ≡ is_unused self.now }
    {
        LittleEndian::read_u128(&self.partition_type_guid) == 0
    }

    /// Reports whether the entry is used: its type GUID is not all zero.
    pub fn is_used(&self) -> bool
        ensures { result ≡ is_used self.now }
    {
        !self.is_unused()
    }

    /// Returns the length of the partition in sectors, whether the entry is used or not.
    ///
    /// `InvalidPartitionBoundaries` if it ends before it starts, `Overflow` if the length is 2^64.
    pub fn size(&self) -> Result<u64>
        ensures { answer_of (λ n. n) result ≡ size_of self.now }
    {
        let Some(distance) = self.ending_lba.checked_sub(self.starting_lba) else {
            return Err(Error::InvalidPartitionBoundaries);
        };
        match distance.checked_add(1) {
            Some(size) => Ok(size),
            None => Err(Error::Overflow),
        }
    }

    /// Returns the sectors of the partition, from the first to the last.
    ///
    /// `UnusedPartition` if the entry is unused, else `InvalidPartitionBoundaries` if it ends before it starts.
    pub fn range(&self) -> Result<RangeInclusive<u64>>
        ensures { answer_of ends_of result ≡ sectors_of self.now }
    {
        if self.is_unused() {
            return Err(Error::UnusedPartition);
        }
        if self.ending_lba < self.starting_lba {
            return Err(Error::InvalidPartitionBoundaries);
        }
        Ok(self.starting_lba..=self.ending_lba)
    }

    /// Returns a copy of the entry.
    ///
    /// `OutOfMemory` if the text of the name cannot be allocated. An empty text needs no memory.
    pub fn clone(&self) -> Result<Self>
        ensures ok { IfOk result (λ e. e ≡ self.now) }
        ensures refused { IfErr result (λ e. fault_of e ≡ out_of_memory) }
        ensures empty { self.now.partition_name.text ≡ [] → IsOk result }
    {
        Ok(GPTPartitionEntry {
            partition_name: self.partition_name.clone()?,
            ..*self
        })
    }
}

// Decodes the 36 units at byte 56.
fn units_in(bytes: &[u8; 128]) -> [u16; 36]
    ensures { result ≡ units_at bytes.now }
{
    let mut units = [0; 36];
    for (k, unit) in units.iter_mut().enumerate() {
        *unit = u16_at(bytes, 56 + 2 * k);
    }
    units
}

// Encodes the units, two bytes each.
fn bytes_of(units: &[u16; 36]) -> [u8; 72]
    ensures bytes { result ≡ flat_map (little_bytes 2) units.now }
    ensures in_range { (k : ℕ) → slice_index units.now k < 2 ^ 16 }
    ensures len { length units.now ≡ 36 }
{
    let mut bytes = [0; 72];
    for (k, unit) in units.iter().enumerate() {
        put_u16(&mut bytes, 2 * k, *unit);
    }
    bytes
}
