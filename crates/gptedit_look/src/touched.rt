//! The bytes that a write of a table touches.

ghost use Rattle.std.specs.Prelude.{◌≡◌, ◌↔◌, ◌≤◌, ◌<◌, ◌+◌, ◌*◌, ◌^◌, ◌⊎◌, ℕ};
ghost use Rattle.gptman.specs.Ranges.{Inside};
ghost use Rattle.gptman.specs.Write.{copy_ranges, other_header};
ghost use Rattle.gptedit_look.specs.Guard.{IsIn, IsWritten};
ghost use Rattle.gptedit_look.specs.Touched.{EndsWithin, IsTouched, IsTouchedIn, IsTouchedOf};

use crate::bytes::{ENTRY_SIZE, HEADER_SIZE, start_after, start_of};
use gptman::{GPT, GPTHeader};

/// A range of bytes.
#[derive(Clone, Copy, PartialEq, Eq)]
pub struct Touched {
    /// Its first byte.
    pub start: u64,
    /// The byte after it.
    pub end: u64,
}

/// The ranges of one copy.
#[derive(Clone, Copy, PartialEq, Eq)]
pub struct TouchedCopy {
    /// Its header.
    pub header: Touched,
    /// Its entries.
    pub entries: Touched,
}

/// The ranges of both copies.
#[derive(Clone, Copy, PartialEq, Eq)]
pub struct TouchedTable {
    /// The own copy, whose header the table has.
    pub own: TouchedCopy,
    /// The other copy.
    pub other: TouchedCopy,
}

/// Returns the ranges that a write of this table touches, cut at the end of a disk of `size` bytes: the header and the
/// entries of both copies.
pub fn touched_by(next: &GPT, size: u64) -> TouchedTable
    ensures inside { (k : ℕ) → IsTouchedOf result k ↔ (IsWritten next.now k × (k < size)) }
    ensures own { EndsWithin result.own size }
    ensures other { EndsWithin result.other size }
{
    TouchedTable {
        own: own_of(&next.header, next.sector_size, size),
        other: other_of(&next.header, next.sector_size, size),
    }
}

// Returns the ranges of the copy with this header.
fn own_of(header: &GPTHeader, sector_size: u64, size: u64) -> TouchedCopy
    ensures inside { (k : ℕ) → IsTouchedIn result k ↔ (Inside (copy_ranges header.now sector_size) k × (k < size)) }
    ensures ends { EndsWithin result size }
{
    let count = u64::from(header.number_of_partition_entries);
    let start = u128::from(header.primary_lba) * u128::from(sector_size);
    let entries = u128::from(header.partition_entry_lba) * u128::from(sector_size);
    TouchedCopy {
        header: cut(start, HEADER_SIZE, size),
        entries: cut(entries, ENTRY_SIZE * count, size),
    }
}

// Returns the ranges of the other copy.
fn other_of(header: &GPTHeader, sector_size: u64, size: u64) -> TouchedCopy
    ensures inside { (k : ℕ)
        → IsTouchedIn result k ↔ (Inside (copy_ranges (other_header header.now) sector_size) k × (k < size)) }
    ensures ends { EndsWithin result size }
{
    let count = u64::from(header.number_of_partition_entries);
    let start = u128::from(header.backup_lba) * u128::from(sector_size);
    TouchedCopy {
        header: cut(start, HEADER_SIZE, size),
        entries: cut(
            start_of_others(header, sector_size),
            ENTRY_SIZE * count,
            size,
        ),
    }
}

// Returns the first byte of the other copy's entries.
fn start_of_others(header: &GPTHeader, sector_size: u64) -> u128
    ensures { result ≡ (other_header header.now).partition_entry_lba * sector_size }
{
    if header.partition_entry_lba == 2 {
        start_after(header.last_usable_lba, sector_size)
    } else {
        start_of(2, sector_size)
    }
}

// Returns `length` bytes from `start`, cut at the end of the disk.
fn cut(start: u128, length: u64, size: u64) -> Touched
    ensures inside { (k : ℕ) → (IsTouched result k ↔ (IsIn start length k × (k < size))) }
    ensures ends { result.end ≤ size }
{
    if start >= u128::from(size) {
        return Touched {
            start: size,
            end: size,
        };
    }
    let start = start as u64;
    Touched {
        start,
        end: start + length.min(size - start),
    }
}
