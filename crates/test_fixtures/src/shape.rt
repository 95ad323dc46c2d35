//! Tables of many shapes, with several sector sizes and any number of entries.
//!
//! The entries from number 1 on are used. Each has one sector with a free one after it, and the last one has more free
//! sectors after it.

ghost use Rattle.std.specs.Prelude.{◌<◌};

use crate::tables::{DISK_GUID, partition, read, write, write_copy};
use gptman::{Disk, GPT, GPTHeader, GPTPartitionEntry, Result};
use std::alloc::Global;

/// The parameters of a table.
#[derive(Clone, Copy)]
pub struct Shape {
    /// The sector size in bytes.
    pub sector_size: u16,
    /// The number of entries.
    pub entries: u32,
    /// The number of used entries.
    pub used: u32,
    /// The number of free sectors after the last used one.
    pub free: u64,
    /// Whether the entries are in the reverse order of their sectors.
    pub is_reversed: bool,
    /// The reserved bytes of the header.
    pub reserved: [u8; 4],
}

impl Shape {
    /// Returns the sector size in bytes.
    pub fn size(&self) -> u64
        ensures { 0 < result }
    {
        u64::from(self.sector_size).max(1)
    }

    // Returns the number of sectors of the entries.
    fn array(&self) -> u64 {
        (128 * u64::from(self.entries)).div_ceil(self.size())
    }

    /// Returns the first usable sector.
    pub fn first(&self) -> u64 {
        self.array().saturating_add(2)
    }

    /// Returns the first free sector at the end.
    pub fn gap(&self) -> u64 {
        let sectors = (2 * u64::from(self.used)).saturating_sub(1);
        self.first().saturating_add(sectors)
    }

    /// Returns the last usable sector.
    pub fn last(&self) -> u64 {
        self.gap().saturating_add(self.free).saturating_sub(1)
    }

    /// Returns the length of the disk in bytes: two sectors and the entries, the usable sectors, and the backup copy.
    pub fn bytes(&self) -> usize {
        let sectors = self.last().saturating_add(self.array()).saturating_add(2);
        sectors.saturating_mul(self.size()) as usize
    }

    // Returns the sector of the used entry of this number.
    fn sector_of(&self, number: u32) -> u64 {
        let place = if self.is_reversed {
            self.used.saturating_sub(number)
        } else {
            number.saturating_sub(1)
        };
        self.first().saturating_add(2 * u64::from(place))
    }

    // Returns the entry of this number.
    fn entry(&self, alloc: Global, number: u32) -> Result<GPTPartitionEntry> {
        if number > self.used {
            return Ok(GPTPartitionEntry::empty(alloc));
        }
        let guid = u128::from(number).to_le_bytes();
        let sector = self.sector_of(number);
        partition(alloc, "a partition", guid, sector, sector)
    }

    /// Returns all entries.
    pub fn all_entries(&self, alloc: Global) -> Result<Vec<GPTPartitionEntry>> {
        let mut entries = Vec::new(alloc);
        for number in 1..=self.entries {
            entries.push(self.entry(alloc, number)?)?;
        }
        Ok(entries)
    }

    // Returns the header of the primary copy.
    fn header<D: Disk>(&self, disk: &mut D) -> Result<GPTHeader> {
        Ok(GPTHeader {
            reserved: self.reserved,
            number_of_partition_entries: self.entries,
            first_usable_lba: self.first(),
            last_usable_lba: self.last(),
            ..GPTHeader::new_from(disk, self.size(), DISK_GUID)?
        })
    }

    /// Writes both copies of the table to a disk of `bytes()` bytes.
    pub fn write_to<D: Disk>(&self, alloc: Global, disk: &mut D) -> Result<GPT> {
        let mut header = self.header(disk)?;
        let entries = self.all_entries(alloc)?;
        write_copy(&mut header, disk, self.size(), &entries)?;
        let mut table = read(alloc, disk, self.size())?;
        write(&mut table, disk)?;
        Ok(table)
    }
}
