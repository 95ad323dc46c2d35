//! The 92 bytes of a header: fourteen fields.

ghost use Rattle.std.specs.Prelude.{◌≡◌};
ghost use Rattle.gptman_disk.specs.Bytes.{AreBytes};
ghost use Rattle.gptman.specs.Coding.{FitsHeader, IsHeaderCoding, header_bytes};

use crate::cells::{note_bytes, part_at, put, put_u32, put_u64, u32_at, u64_at};

/// The header of one copy of a GUID partition table: the first 92 bytes of sector 1 or, in the backup copy, of
/// the last whole sector. The fields fill them in this order and without gaps.
///
/// Sectors count from 0. Numbers are little endian on the disk. The comment of a field begins with its UEFI
/// name.
#[derive(Clone, Copy, PartialEq, Eq, Debug)]
pub struct GPTHeader {
    /// `Signature`: the text "EFI PART".
    pub signature: [u8; 8],
    /// `Revision`: 00 00 01 00, for revision 1.0.
    pub revision: [u8; 4],
    /// `HeaderSize`: the size of the header, 92 bytes.
    pub header_size: u32,
    /// `HeaderCRC32`: the CRC-32 of the header's 92 bytes, computed with these four bytes as zero.
    pub crc32_checksum: u32,
    /// `Reserved`: four bytes without a meaning, zero in a new header and otherwise preserved.
    pub reserved: [u8; 4],
    /// `MyLBA`: the sector of this header.
    pub primary_lba: u64,
    /// `AlternateLBA`: the sector of the other header.
    pub backup_lba: u64,
    /// `FirstUsableLBA`: the first sector that a partition may use.
    pub first_usable_lba: u64,
    /// `LastUsableLBA`: the last sector that a partition may use.
    pub last_usable_lba: u64,
    /// `DiskGUID`: the GUID of the disk, 16 bytes in their order on the disk.
    pub disk_guid: [u8; 16],
    /// `PartitionEntryLBA`: the first sector of this copy's entries.
    pub partition_entry_lba: u64,
    /// `NumberOfPartitionEntries`: the number of entries, used or not.
    pub number_of_partition_entries: u32,
    /// `SizeOfPartitionEntry`: the size of an entry in bytes, 128 (any value if there are no entries).
    pub size_of_partition_entry: u32,
    /// `PartitionEntryArrayCRC32`: the CRC-32 of the bytes of all entries, in order.
    pub partition_entry_array_crc32: u32,
}

impl GPTHeader {
    /// Decodes a header from the 92 bytes of the format. No value is tested; `read_from` does that.
    pub fn decode(bytes: &[u8; 92]) -> Self
        ensures coding { IsHeaderCoding result bytes.now }
        ensures spelled { bytes.now ≡ header_bytes result }
    {
        GPTHeader {
            signature: part_at(bytes, 0),
            revision: part_at(bytes, 8),
            header_size: u32_at(bytes, 12),
            crc32_checksum: u32_at(bytes, 16),
            reserved: part_at(bytes, 20),
            primary_lba: u64_at(bytes, 24),
            backup_lba: u64_at(bytes, 32),
            first_usable_lba: u64_at(bytes, 40),
            last_usable_lba: u64_at(bytes, 48),
            disk_guid: part_at(bytes, 56),
            partition_entry_lba: u64_at(bytes, 72),
            number_of_partition_entries: u32_at(bytes, 80),
            size_of_partition_entry: u32_at(bytes, 84),
            partition_entry_array_crc32: u32_at(bytes, 88),
        }
    }

    /// Encodes the header as the 92 bytes of the format, from which `decode` returns this header again. No
    /// checksum is computed.
    pub fn encode(&self) -> [u8; 92]
        ensures spelled { result ≡ header_bytes self.now }
        ensures coding { IsHeaderCoding self.now result }
        ensures bytes { AreBytes result }
        ensures fits { FitsHeader self.now }
        ensures only { (h : GPTHeader) → IsHeaderCoding h result → h ≡ self.now }
    {
        let mut bytes = [0; 92];
        put(&mut bytes, 0, &self.signature);
        put(&mut bytes, 8, &self.revision);
        put_u32(&mut bytes, 12, self.header_size);
        put_u32(&mut bytes, 16, self.crc32_checksum);
        put(&mut bytes, 20, &self.reserved);
        put_u64(&mut bytes, 24, self.primary_lba);
        put_u64(&mut bytes, 32, self.backup_lba);
        put_u64(&mut bytes, 40, self.first_usable_lba);
        put_u64(&mut bytes, 48, self.last_usable_lba);
        put(&mut bytes, 56, &self.disk_guid);
        put_u64(&mut bytes, 72, self.partition_entry_lba);
        put_u32(&mut bytes, 80, self.number_of_partition_entries);
        put_u32(&mut bytes, 84, self.size_of_partition_entry);
        put_u32(&mut bytes, 88, self.partition_entry_array_crc32);
        note_bytes(&bytes);
        bytes
    }
}
