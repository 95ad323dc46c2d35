//! Entries by number, from 1, and by the sectors that they cover.

ghost use Rattle.std.specs.Prelude.{◌≡◌, ◌-◌, ◌<◌, ℕ, Some, length, option_map, position, slice_get};
ghost use Rattle.std.specs.Prelude.{IfSome, IsSome, IsTrue, OnOk, OnErr};
ghost use Rattle.std.specs.Borrow.{sem};
ghost use Rattle.gptman.specs.Answers.{answer_of, refusal_of};
ghost use Rattle.gptman.specs.Coding.{empty_entry};
ghost use Rattle.gptman.specs.Entry.{bytes_of, covers, ends_of};
ghost use Rattle.gptman.specs.Lending.{LendsEntry};
ghost use Rattle.gptman.specs.Number.{byte_range_in, entry_at, entry_of_number, has_number, number_at};
ghost use Rattle.gptman.specs.Number.{number_fault};
ghost use Rattle.gptman.specs.Number.{sector_fault, with_entry, without, IsNumber};
ghost use Rattle.gptman.specs.Table.{entries_in};
ghost use Rattle.gptman.specs.Valid.{IsValid};

use crate::table::GPT;
use crate::{Error, GPTPartitionEntry, Result};
use std::ops::{Index, IndexMut, RangeInclusive};

/// Returns the entry with a number, from 1 to the length of the list.
impl Index<u32> for GPT {
    type Output = GPTPartitionEntry;

    ghost can_index = { IsNumber };

    ghost index_gives = { λ g i e. slice_get (entries_in g) (i - 1) ≡ Some e };

    fn index(&self, i: u32) -> &GPTPartitionEntry {
        &self.partitions.as_slice()[i as usize - 1]
    }
}

/// Returns the entry with a number, from 1 to the length of the list, as a mutable reference.
impl IndexMut<u32> for GPT {
    fn index_mut(&mut self, i: u32) -> &mut GPTPartitionEntry
        requires { IsNumber self.old i }
        ensures* writes_back { sem 𝓛 (LendsEntry self.entry i result) }
        ensures value { slice_get (entries_in self.old) (i - 1) ≡ Some result.now }
    {
        self.partitions.at_mut(i as usize - 1)
    }
}

impl GPT {
    // Reports whether the number is at least 1, and within the header's count and the list.
    fn has_number(&self, i: u32) -> bool
        ensures { result ≡ has_number self.now i }
    {
        i >= 1 && i <= self.header.number_of_partition_entries && i <= self.partitions.len()
    }

    /// Returns entry number `i`, from 1, or `None` if the list has no such entry.
    pub fn get(&self, i: u32) -> Option<&GPTPartitionEntry>
        ensures value { option_map (λ e. e.now) result ≡ entry_of_number self.now i }
        ensures number { IsSome result → IsNumber self.now i }
    {
        let index = (i as usize).checked_sub(1)?;
        self.partitions.as_slice().get(index)
    }

    /// Returns the lowest number of a used entry that covers the sector, or `None` if there is none. In a table
    /// that may be written, at most one entry covers it.
    pub fn find_at_sector(&self, sector: u64) -> Option<u32>
        ensures lowest { result ≡ number_at sector (entries_in self.now) }
        ensures only { IsValid self.now.header (entries_in self.now) → (i : ℕ) → IsNumber self.now i
            → IsTrue (covers sector (entry_at self.now i)) → result ≡ Some i }
    {
        match index_at(self.partitions.as_slice(), sector) {
            Some(index) => Some(index as u32 + 1),
            None => None,
        }
    }

    /// Replaces entry number `i`.
    ///
    /// `InvalidPartitionNumber` if the number is 0, above the header's count or above the length of the list.
    /// The table is then unchanged.
    pub(crate) fn put(&mut self, i: u32, entry: GPTPartitionEntry) -> Result<()>
        ensures answer { refusal_of result ≡ number_fault self.old i }
        ensures value { OnOk result (self.new ≡ with_entry self.old i entry) }
        ensures kept { OnErr result (self.new ≡ self.old) }
    {
        if !self.has_number(i) {
            return Err(Error::InvalidPartitionNumber(i));
        }
        self[i] = entry;
        Ok(())
    }

    /// Replaces entry number `i` by the unused entry.
    ///
    /// `InvalidPartitionNumber` if the number is 0, above the header's count or above the length of the list.
    /// The table is then unchanged.
    pub fn remove(&mut self, i: u32) -> Result<()>
        ensures answer { refusal_of result ≡ number_fault self.old i }
        ensures value { OnOk result (self.new ≡ with_entry self.old i empty_entry) }
        ensures kept { OnErr result (self.new ≡ self.old) }
    {
        let empty = self.partitions.empty_entry();
        self.put(i, empty)
    }

    /// Replaces the entry that `find_at_sector` returns by the unused entry.
    ///
    /// `PartitionNotFound` if no used entry covers the sector, `InvalidPartitionNumber` if the number is above
    /// the header's count. The table is then unchanged.
    pub fn remove_at_sector(&mut self, sector: u64) -> Result<()>
        ensures answer { refusal_of result ≡ sector_fault self.old (number_at sector (entries_in self.old)) }
        ensures value { OnOk result (self.new ≡ without self.old (number_at sector (entries_in self.old))) }
        ensures kept { OnErr result (self.new ≡ self.old) }
    {
        match self.find_at_sector(sector) {
            Some(i) => self.remove(i),
            None => Err(Error::PartitionNotFound),
        }
    }

    /// Returns the bytes of partition `number`, from the first to the last, counted from the start of the disk.
    /// The sector size must be above 0.
    ///
    /// # Errors
    /// `InvalidPartitionNumber` if the number is 0, above the header's count or above the length of the list;
    /// then `UnusedPartition`; then `InvalidPartitionBoundaries` if it ends before it starts; then `Overflow`
    /// if its last byte does not fit in 64 bits.
    pub fn get_partition_byte_range(&self, number: u32) -> Result<RangeInclusive<u64>>
        requires { 0 < self.now.sector_size }
        ensures { answer_of ends_of result ≡ byte_range_in self.now number }
    {
        if !self.has_number(number) {
            return Err(Error::InvalidPartitionNumber(number));
        }
        byte_range(&self[number], self.sector_size)
    }
}

// Reports whether the entry is used and covers the sector.
fn is_at(entry: &GPTPartitionEntry, sector: u64) -> bool
    ensures { result ≡ covers sector entry.now }
{
    entry.is_used() && entry.starting_lba <= sector && sector <= entry.ending_lba
}

// Returns the index of the first entry that covers the sector.
fn index_at(entries: &[GPTPartitionEntry], sector: u64) -> Option<usize>
    ensures first { result ≡ position (covers sector) entries.now }
    ensures within { IfSome result (λ k. k < length entries.now) }
{
    entries.iter().position(|entry| is_at(entry, sector))
}

// Returns the bytes of an entry, from the first to the last.
fn byte_range(entry: &GPTPartitionEntry, sector_size: u64) -> Result<RangeInclusive<u64>>
    requires { 0 < sector_size }
    ensures { answer_of ends_of result ≡ bytes_of sector_size entry.now }
{
    let sectors = entry.range()?;
    let start = u128::from(*sectors.start()) * u128::from(sector_size);
    let last = u128::from(*sectors.end()) * u128::from(sector_size) + u128::from(sector_size - 1);
    if last < 1 << 64 {
        Ok(start as u64..=last as u64)
    } else {
        Err(Error::Overflow)
    }
}
