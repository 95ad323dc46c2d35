//! The header of one copy: its checksums, its form, and how it is fitted to a disk.
//!
//! This module knows one copy, header and entries, and only the header of the other.

ghost use Rattle.std.specs.Prelude.{◌≡◌, ◌<◌, ◌↔◌, ◌⊎◌, ℕ, if◌then◌else◌, IsTrue, IfOk, IfErr, OnOk, OnErr};
ghost use Rattle.gptman.specs.Answers.{CountsFailure};
ghost use Rattle.gptman_disk.specs.Disk.{Reads};
ghost use Rattle.gptman.specs.Coding.{header_bytes, array_bytes};
ghost use Rattle.gptman.specs.Crc.{crc_of};
ghost use Rattle.gptman.specs.Copy.{header_crc, IsCoherent};
ghost use Rattle.gptman_disk.specs.Fault.{fault_of, overflow};
ghost use Rattle.gptman.specs.Fit.{array_size, fit_fault, fit_header, fit_to_sectors, is_too_small};
ghost use Rattle.gptman.specs.Fit.{new_header, new_header_of};
ghost use Rattle.gptman.specs.Answers.{refusal_of, IsFailure, Refuses, Settles};

use crate::cells::{note_bytes, put};
use crate::codec::entry::GPTPartitionEntry;
use crate::codec::header::GPTHeader;
use crate::crc::{Checksum, crc32};
use crate::disk::Disk;
use crate::error::{Error, Result};
use crate::sizes::{DEFAULT_ENTRY_COUNT, ENTRY_SIZE, HEADER_SIZE};

mod read;
pub(crate) mod write;

/// "EFI PART".
pub(crate) const SIGNATURE: [u8; 8] = [0x45, 0x46, 0x49, 0x20, 0x50, 0x41, 0x52, 0x54];

/// Revision 1.0.
pub(crate) const REVISION: [u8; 4] = [0, 0, 1, 0];

impl GPTHeader {
    /// Returns a header in primary form for a new table of 128 entries, fitted to the disk. `sector_size` is in
    /// bytes, and must be above 0. Checksums and reserved bytes are zero.
    ///
    /// `Io` if the disk fails, `Overflow` if it has fewer than two sectors besides one entry array.
    pub fn new_from<D: Disk>(
        disk: &mut D,
        sector_size: u64,
        disk_guid: [u8; 16],
    ) -> Result<GPTHeader>
        requires { 0 < sector_size }
        ensures reads { Reads (D.state disk.old) (D.state disk.new) }
        ensures counts { CountsFailure result (D.state disk.old) (D.state disk.new) }
        ensures answer { Settles (fit_fault (new_header disk_guid) sector_size (D.state disk.old).size) result
            (D.state disk.old) (D.state disk.new) }
        ensures refused { IfErr result (λ e. (fault_of e ≡ overflow)
            ⊎ IsFailure (fault_of e) (D.state disk.old) (D.state disk.new)) }
        ensures value { IfOk result (λ h. h ≡ fit_header (new_header disk_guid) sector_size
            (D.state disk.old).size) }
    {
        GPTHeader::with_entries(disk, sector_size, disk_guid, DEFAULT_ENTRY_COUNT)
    }

    /// Returns a header in primary form for a new table of `count` entries, fitted to the disk. `sector_size`
    /// is in bytes, and must be above 0. Checksums and reserved bytes are zero.
    ///
    /// `Overflow` if `count` is 0, then `Io` if the disk fails, then `Overflow` if it has fewer than two
    /// sectors besides one entry array.
    pub fn with_entries<D: Disk>(
        disk: &mut D,
        sector_size: u64,
        disk_guid: [u8; 16],
        count: u32,
    ) -> Result<GPTHeader>
        requires { 0 < sector_size }
        ensures reads { Reads (D.state disk.old) (D.state disk.new) }
        ensures counts { CountsFailure result (D.state disk.old) (D.state disk.new) }
        ensures at_once { count ≡ 0 → Refuses result overflow }
        ensures answer { Settles (fit_fault (new_header_of count disk_guid) sector_size
            (D.state disk.old).size) result (D.state disk.old) (D.state disk.new) }
        ensures refused { IfErr result (λ e. (fault_of e ≡ overflow)
            ⊎ IsFailure (fault_of e) (D.state disk.old) (D.state disk.new)) }
        ensures value { IfOk result (λ h. h ≡ fit_header (new_header_of count disk_guid) sector_size
            (D.state disk.old).size) }
    {
        let mut header = GPTHeader {
            signature: SIGNATURE,
            revision: REVISION,
            header_size: HEADER_SIZE,
            crc32_checksum: 0,
            reserved: [0; 4],
            primary_lba: 1,
            backup_lba: 0,
            first_usable_lba: 0,
            last_usable_lba: 0,
            disk_guid,
            partition_entry_lba: 2,
            number_of_partition_entries: count,
            size_of_partition_entry: ENTRY_SIZE,
            partition_entry_array_crc32: 0,
        };
        header.update_from(disk, sector_size)?;
        Ok(header)
    }

    /// Fits the header to the disk: sets the usable sectors, the sector of the header that is not in sector 1,
    /// and the first sector of the entries unless it is 2. `sector_size` is in bytes, and must be above 0.
    ///
    /// `Overflow` if the entries have no bytes, then `Io` if the disk fails, then `Overflow` if it has fewer
    /// than two sectors besides one entry array. The header is then unchanged.
    pub fn update_from<D: Disk>(&mut self, disk: &mut D, sector_size: u64) -> Result<()>
        requires { 0 < sector_size }
        ensures reads { Reads (D.state disk.old) (D.state disk.new) }
        ensures counts { CountsFailure result (D.state disk.old) (D.state disk.new) }
        ensures at_once { array_size self.old ≡ 0 → Refuses result overflow }
        ensures answer { Settles (fit_fault self.old sector_size (D.state disk.old).size) result
            (D.state disk.old) (D.state disk.new) }
        ensures refused { IfErr result (λ e. (fault_of e ≡ overflow)
            ⊎ IsFailure (fault_of e) (D.state disk.old) (D.state disk.new)) }
        ensures value { OnOk result (self.new ≡ fit_header self.old sector_size (D.state disk.old).size) }
        ensures kept { OnErr result (self.new ≡ self.old) }
    {
        let array_size = u64::from(self.number_of_partition_entries)
            * u64::from(self.size_of_partition_entry);
        if array_size == 0 {
            return Err(Error::Overflow);
        }
        let sectors = disk.seek_end()? / sector_size;
        self.fit(sectors, array_size.div_ceil(sector_size))
    }

    // Fits the header to a disk of `sectors` sectors, with an entry array of `array_sectors` sectors.
    fn fit(&mut self, sectors: u64, array_sectors: u64) -> Result<()>
        ensures answer { refusal_of result
            ≡ (if is_too_small sectors array_sectors then Some overflow else None) }
        ensures value { OnOk result (self.new ≡ fit_to_sectors self.old sectors array_sectors) }
        ensures kept { OnErr result (self.new ≡ self.old) }
    {
        if sectors < 2 || sectors - 2 < array_sectors {
            return Err(Error::Overflow);
        }
        if self.primary_lba == 1 {
            self.backup_lba = sectors - 1;
        } else {
            self.primary_lba = sectors - 1;
        }
        self.first_usable_lba = 2 + array_sectors;
        self.last_usable_lba = sectors - 2 - array_sectors;
        if self.partition_entry_lba != 2 {
            self.partition_entry_lba = self.last_usable_lba + 1;
        }
        Ok(())
    }

    /// Reports whether this is the header of the primary copy: it is in sector 1.
    pub fn is_primary(&self) -> bool
        ensures { IsTrue result ↔ (self.now.primary_lba ≡ 1) }
    {
        self.primary_lba == 1
    }

    /// Reports whether this is the header of the backup copy: it is not in sector 1.
    pub fn is_backup(&self) -> bool
        ensures { IsTrue result ↔ (¬ (self.now.primary_lba ≡ 1)) }
    {
        !self.is_primary()
    }

    /// Returns the CRC-32 of the header's 92 bytes, computed with this checksum as zero. The header size must
    /// be 92.
    pub fn generate_crc32_checksum(&self) -> u32
        requires { self.now.header_size ≡ 92 }
        ensures { result ≡ header_crc (header_bytes self.now) }
    {
        let mut bytes = self.encode();
        put(&mut bytes, 16, &[0; 4]);
        note_bytes(&bytes);
        crc32(&bytes)
    }

    /// Sets the header's checksum to the result of `generate_crc32_checksum`. The header size must be 92.
    pub fn update_crc32_checksum(&mut self)
        requires { self.old.header_size ≡ 92 }
        ensures { self.new ≡ record self.old { crc32_checksum = header_crc (header_bytes self.old) } }
    {
        self.crc32_checksum = self.generate_crc32_checksum();
    }

    /// Returns the CRC-32 of the bytes of all entries, without allocating. The header must describe the
    /// entries: its size is 92, its count their number, and its entry size 128 unless there are none.
    pub fn generate_partition_entry_array_crc32(&self, partitions: &[GPTPartitionEntry]) -> u32
        requires { IsCoherent self.now partitions.now }
        ensures { result ≡ crc_of (array_bytes partitions.now) }
    {
        checksum_of(partitions)
    }

    /// Sets the checksum of the entries to the result of `generate_partition_entry_array_crc32`, with its
    /// precondition.
    pub fn update_partition_entry_array_crc32(&mut self, partitions: &[GPTPartitionEntry])
        requires { IsCoherent self.old partitions.now }
        ensures { self.new ≡ record self.old {
          partition_entry_array_crc32 = crc_of
              (array_bytes partitions.now);
        } }
    {
        self.partition_entry_array_crc32 = self.generate_partition_entry_array_crc32(partitions);
    }
}

// Returns the CRC-32 of the bytes of all entries.
fn checksum_of(partitions: &[GPTPartitionEntry]) -> u32
    ensures { result ≡ crc_of (array_bytes partitions.now) }
{
    let mut checksum = Checksum::new();
    for partition in partitions {
        checksum.update(&partition.encode());
    }
    checksum.finish()
}
