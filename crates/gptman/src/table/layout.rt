//! The stated layout: where both copies of a table are on a disk.

ghost use Rattle.std.specs.Prelude.{◌≡◌, ◌≤◌, ◌<◌, ◌⊎◌, ◌↔◌, [], ◌∷◌, ◌+◌, ◌*◌, IsTrue};
ghost use Rattle.gptman_disk.specs.Ranges.{AreApart, AreInside};
ghost use Rattle.gptman.specs.Layout.{AreInPlace, HasLayout, HasRightMarks, HasRightSectors, HasRightSizes};
ghost use Rattle.gptman.specs.Reading.{backup, primary};
ghost use Rattle.gptman.specs.Table.{entries_in, table_in, IsHeaderForm, IsInForm};

use crate::byte_range::ByteRange;
use crate::sizes::{ENTRY_SIZE, HEADER_SIZE};
use crate::table::GPT;

impl GPT {
    /// Reports whether the table has the stated layout on a disk of `size` bytes: the right signature, revision
    /// and sizes, as many entries as it counts, one header in sector 1 with its entries from sector 2, the
    /// other in the last whole sector with its entries after the last usable one, and all four ranges on the
    /// disk and disjoint. A sector must have room for the 92 bytes of a header.
    pub fn has_layout(&self, size: u64) -> bool
        ensures { IsTrue result ↔ HasLayout self.now size }
    {
        self.has_right_header() && self.has_right_places(size)
    }

    // Reports whether signature, revision, form and sizes are right.
    fn has_right_header(&self) -> bool
        ensures { IsTrue result ↔ HasRightMarks self.now.header × IsInForm self.now.header
            × HasRightSizes self.now.header (entries_in self.now) self.now.sector_size }
    {
        self.has_right_marks() && self.is_in_form() && self.has_right_sizes()
    }

    // Reports whether both copies are at the places that such a disk has for them.
    fn has_right_places(&self, size: u64) -> bool
        requires { 0 < self.now.sector_size }
        ensures { IsTrue result ↔ HasRightSectors (table_in self.now) self.now.sector_size size
            × AreInPlace (table_in self.now) self.now.sector_size size }
    {
        self.has_right_sectors(size) && self.are_in_place(size)
    }

    // Reports whether signature and revision are right.
    fn has_right_marks(&self) -> bool
        ensures { IsTrue result ↔ HasRightMarks self.now.header }
    {
        self.header.signature == *b"EFI PART" && self.header.revision == [0, 0, 1, 0]
    }

    // Reports whether a sector has room for a header, and the header describes the list.
    fn has_right_sizes(&self) -> bool
        ensures { IsTrue result
            ↔ HasRightSizes self.now.header (entries_in self.now) self.now.sector_size }
    {
        let header = &self.header;
        self.sector_size >= u64::from(HEADER_SIZE)
            && header.header_size == HEADER_SIZE
            && header.size_of_partition_entry == ENTRY_SIZE
            && header.number_of_partition_entries as usize == self.partitions.as_slice().len()
    }

    // Reports whether the header is that of one of the two copies.
    fn is_in_form(&self) -> bool
        ensures { IsTrue result ↔ IsInForm self.now.header }
    {
        self.is_in_primary_form() || self.is_in_backup_form()
    }

    fn is_in_primary_form(&self) -> bool
        ensures { IsTrue result ↔ IsHeaderForm primary self.now.header }
    {
        self.header.primary_lba == 1 && self.header.partition_entry_lba == 2
    }

    fn is_in_backup_form(&self) -> bool
        ensures { IsTrue result ↔ IsHeaderForm backup self.now.header }
    {
        let entries = self.header.partition_entry_lba;
        self.header.backup_lba == 1 && entries > 0 && entries - 1 == self.header.last_usable_lba
    }

    // Reports whether the two headers are in sector 1 and in the last whole sector.
    fn has_right_sectors(&self, size: u64) -> bool
        requires { 0 < self.now.sector_size }
        ensures { IsTrue result ↔ HasRightSectors (table_in self.now) self.now.sector_size size }
    {
        let header = &self.header;
        let last = (size / self.sector_size).saturating_sub(1);
        header.primary_lba.min(header.backup_lba) == last.min(1)
            && header.primary_lba.max(header.backup_lba) == last.max(1)
    }

    // Reports whether the four ranges are on the disk and disjoint.
    fn are_in_place(&self, size: u64) -> bool
        requires { 0 < self.now.sector_size }
        ensures { IsTrue result ↔ AreInPlace (table_in self.now) self.now.sector_size size }
    {
        let Some(behind) = self.header.last_usable_lba.checked_add(1) else {
            return false;
        };
        let last = (size / self.sector_size).saturating_sub(1);
        let bytes = u64::from(ENTRY_SIZE) * u64::from(self.header.number_of_partition_entries);
        let first = ByteRange::at_sector(1, self.sector_size, u64::from(HEADER_SIZE));
        let entries = ByteRange::at_sector(2, self.sector_size, bytes);
        let second = ByteRange::at_sector(last, self.sector_size, u64::from(HEADER_SIZE));
        let others = ByteRange::at_sector(behind, self.sector_size, bytes);
        are_within(first, entries, second, others, size)
            && are_apart(first, entries, second, others)
    }
}

// Reports whether the ranges are within a disk of `size` bytes.
fn are_within(a: ByteRange, b: ByteRange, c: ByteRange, d: ByteRange, size: u64) -> bool
    ensures { IsTrue result ↔ AreInside ((a.start, a.length) ∷ (b.start, b.length)
        ∷ (c.start, c.length) ∷ (d.start, d.length) ∷ []) size }
{
    a.is_within(size) && b.is_within(size) && c.is_within(size) && d.is_within(size)
}

// Reports whether no two ranges overlap.
fn are_apart(a: ByteRange, b: ByteRange, c: ByteRange, d: ByteRange) -> bool
    ensures { IsTrue result ↔ AreApart ((a.start, a.length) ∷ (b.start, b.length)
        ∷ (c.start, c.length) ∷ (d.start, d.length) ∷ []) }
{
    a.is_apart(b)
        && a.is_apart(c)
        && a.is_apart(d)
        && b.is_apart(c)
        && b.is_apart(d)
        && c.is_apart(d)
}
