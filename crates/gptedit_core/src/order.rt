//! The order of writes when a new table replaces an old one.

ghost use Rattle.std.specs.Prelude.{◌≡◌, ◌↔◌, ◌⊎◌, ◌<◌, ◌≤◌, ◌+◌, ◌*◌, ◌∷◌, [], ℕ, if◌then◌else◌, IsTrue};
ghost use Rattle.gptman.specs.Layout.{copy_ranges_at, HasLayout};
ghost use Rattle.gptman.specs.Ranges.{AreClear};
ghost use Rattle.gptman.specs.Reading.{backup, primary};
ghost use Rattle.gptman.specs.Table.{table_in};
ghost use Rattle.gptedit_core.specs.Making.{ranges_of, AreOfOnePlace, HasOrder, IsSafeOrder, SafeOrdersKeepACopy};

use gptman::sizes::{ENTRY_SIZE, HEADER_SIZE};
use gptman::{ByteRange, Disk, GPT};

/// Reports whether a write of the new table over the old one that was read, on a disk of `size` bytes, keeps a good
/// copy at each moment: both have the stated layout and are in the form of the same place, and the other copy of the
/// new table, which is written first, does not overlap the old copy at that place.
pub fn has_safe_order(was: &GPT, next: &GPT, size: u64) -> bool
    ensures { IsTrue result ↔ IsSafeOrder was.now next.now size }
{
    if !are_of_one_place(was, next) {
        return false;
    }
    if !was.has_layout(size) {
        return false;
    }
    if !next.has_layout(size) {
        return false;
    }
    let is_primary = was.is_primary();
    let read = Copy::of(was, is_primary, size);
    let first = Copy::of(next, !is_primary, size);
    read.is_clear_of(first)
}

/// Reports whether the write has a safe order, or may lose both tables.
pub(crate) fn has_order(may_lose: bool, was: &GPT, next: &GPT, size: u64) -> bool
    ensures { IsTrue result ↔ HasOrder may_lose was.now next.now size }
{
    may_lose || has_safe_order(was, next, size)
}

fn are_of_one_place(was: &GPT, next: &GPT) -> bool
    ensures { IsTrue result ↔ AreOfOnePlace was.now next.now }
{
    was.sector_size == next.sector_size && was.is_primary() == next.is_primary()
}

/// A table that was read in the form of its place is one good copy for the write of a new one in a safe order, if
/// nothing is unsynced. This call does nothing; its clause states a theorem about the definitions.
pub fn safe_orders_keep_a_copy<D: Disk>(disk: &D)
    ensures { SafeOrdersKeepACopy (D.state disk.now) }
{}

// The byte ranges of a copy.
#[derive(Clone, Copy)]
struct Copy {
    header: ByteRange,
    entries: ByteRange,
}

impl Copy {
    // Returns the primary or the backup copy of a table with the stated layout on a disk of `size` bytes.
    fn of(table: &GPT, is_primary: bool, size: u64) -> Copy
        requires { HasLayout table.now size }
        ensures { ranges_of result ≡ copy_ranges_at (if is_primary then primary else backup)
            (table_in table.now) table.now.sector_size size }
    {
        let sector_size = table.sector_size;
        let bytes = u64::from(ENTRY_SIZE) * u64::from(table.header.number_of_partition_entries);
        let (header, entries) = if is_primary {
            (1, 2)
        } else {
            (size / sector_size - 1, table.header.last_usable_lba + 1)
        };
        Copy {
            header: ByteRange::at_sector(header, sector_size, u64::from(HEADER_SIZE)),
            entries: ByteRange::at_sector(entries, sector_size, bytes),
        }
    }

    // Reports whether the copies do not overlap.
    fn is_clear_of(self, other: Copy) -> bool
        ensures { IsTrue result ↔ AreClear (ranges_of self) (ranges_of other) }
    {
        self.header.is_apart(other.header)
            && self.header.is_apart(other.entries)
            && self.entries.is_apart(other.header)
            && self.entries.is_apart(other.entries)
    }
}
