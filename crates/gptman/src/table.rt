//! The table: a header and its entries. A disk holds two copies of it.

ghost use Rattle.std.specs.Prelude.{◌≡◌, ◌↔◌, ◌<◌, ◌^◌, [], length, vec_len, IsTrue, IsOk, IfOk, IfErr};
ghost use Rattle.std.specs.Borrow.{sem};
ghost use Rattle.std.specs.List.{enumerate_from};
ghost use Rattle.gptman_disk.specs.Fault.{fault_of, out_of_memory};
ghost use Rattle.gptman.specs.Lending.{items_left, LendsEntries, LendsIter};
ghost use Rattle.gptman.specs.Table.{entries_in};
ghost use Rattle.gptman.specs.Copy.{IsCoherent};

use crate::sizes::{ENTRY_SIZE, HEADER_SIZE};
use crate::table::entries::Entries;
use crate::table::iter::{Iter, IterMut};
use crate::{GPTHeader, GPTPartitionEntry, Result};

mod align;
mod checks;
pub(crate) mod covered;
mod entries;
pub mod iter;
pub mod laws;
mod layout;
pub mod mbr;
mod numbers;
mod read;
mod sort;
mod write;

/// A GUID partition table: a header, its entries, and how they are placed on a disk.
#[derive(Drop, PartialEq, Eq, Debug)]
pub struct GPT {
    /// The size of a sector in bytes. It is not stored on the disk.
    pub sector_size: u64,
    /// The header of the own copy: the copy that was read, or the primary one of a new table.
    pub header: GPTHeader,
    pub(crate) partitions: Entries,
    /// The alignment of the places offered to new partitions, in sectors. It is not stored on the disk: a new
    /// table has 2048, and a read derives it from the starts of the partitions.
    pub align: u64,
}

impl GPT {
    /// Returns a table of these parts, without testing them or allocating. `is_coherent` reports whether the
    /// header describes the list, `check_write` whether the table may be written.
    ///
    /// There must be fewer than 2^32 entries.
    pub fn from_parts(
        sector_size: u64,
        header: GPTHeader,
        entries: Vec<GPTPartitionEntry>,
        align: u64,
    ) -> GPT
        requires { vec_len entries < 2 ^ 32 }
        ensures entries { entries_in result ≡ entries.items }
        ensures header { result.header ≡ header }
        ensures sector { result.sector_size ≡ sector_size }
        ensures align { result.align ≡ align }
    {
        GPT {
            sector_size,
            header,
            partitions: Entries::new(entries),
            align,
        }
    }

    /// Reports whether the header describes the list: its size is 92, its count the number of entries, and its
    /// entry size 128 unless there are none.
    pub fn is_coherent(&self) -> bool
        ensures { IsTrue result ↔ IsCoherent self.now.header (entries_in self.now) }
    {
        let count = self.partitions.as_slice().len();
        let header = &self.header;
        header.header_size == HEADER_SIZE
            && count == header.number_of_partition_entries as usize
            && (header.size_of_partition_entry == ENTRY_SIZE || count == 0)
    }

    /// Reports whether the header is that of the primary copy.
    pub fn is_primary(&self) -> bool
        ensures { IsTrue result ↔ (self.now.header.primary_lba ≡ 1) }
    {
        self.header.is_primary()
    }

    /// Reports whether the header is that of the backup copy.
    pub fn is_backup(&self) -> bool
        ensures { IsTrue result ↔ (¬ (self.now.header.primary_lba ≡ 1)) }
    {
        self.header.is_backup()
    }

    /// Returns a copy of the table.
    ///
    /// `OutOfMemory` if its entries cannot be allocated. A table without entries needs no memory.
    pub fn clone(&self) -> Result<GPT>
        ensures ok { IfOk result (λ g. g ≡ self.now) }
        ensures refused { IfErr result (λ e. fault_of e ≡ out_of_memory) }
        ensures empty { entries_in self.now ≡ [] → IsOk result }
    {
        Ok(GPT {
            sector_size: self.sector_size,
            header: self.header,
            partitions: self.partitions.clone()?,
            align: self.align,
        })
    }

    /// Returns an iterator over the entries in order, each with its number, from 1.
    #[tactic(auto, using(crate::proofs::Numbering::length_numbered))]
    pub fn iter(&self) -> Iter<'_>
        ensures items { result ≡ enumerate_from 1 (entries_in self.now) }
        ensures len { length result ≡ length (entries_in self.now) }
        ensures few { length result < 2 ^ 32 }
    {
        Iter::new(self.partitions.as_slice())
    }

    /// Returns a mutable iterator over the entries in order, each with its number, from 1. The length of the
    /// list cannot change.
    pub fn iter_mut(&mut self) -> IterMut<'_>
        ensures* writes_back { sem 𝓛 (LendsIter self.entry result) }
        ensures items { items_left result ≡ enumerate_from 1 (entries_in self.old) }
    {
        let entries = self.entries_mut();
        IterMut::new(entries)
    }

    // Returns the entries as a mutable slice.
    fn entries_mut(&mut self) -> &mut [GPTPartitionEntry]
        ensures* writes_back { sem 𝓛 (LendsEntries self.entry result) }
        ensures items { result.now ≡ entries_in self.old }
        ensures few { length result.now < 2 ^ 32 }
    {
        self.partitions.as_mut_slice()
    }
}
