//! Tests whether the ends have the ranges that a write needs.

ghost use Rattle.std.specs.Prelude.{◌≡◌, ◌≤◌, ◌<◌, ◌⊎◌, ◌+◌, ◌++◌, [], ◌∷◌, length, IfSome, MatchOption};
ghost use Rattle.gptman.specs.Layout.{copy_ranges_at};
ghost use Rattle.gptman.specs.Ranges.{AreInside};
ghost use Rattle.gptman.specs.Reading.{primary, backup};
ghost use Rattle.gptman.specs.Table.{table_in};
ghost use Rattle.gptman_plan.specs.Asking.{value_ranges};
ghost use Rattle.gptman_plan.specs.Crossing.{four_ranges};
ghost use Rattle.gptman_plan.specs.Ends.{HaveRange, HaveRanges};
ghost use Rattle.gptman_plan.specs.Reading.{IsLack};
ghost use Rattle.gptman_plan.specs.Rounds.{IsAmong};

use crate::ends::Ends;
use crate::reading::{Lack, lack_of};
use gptman::GPT;
use gptman::copy::last_sector;
use gptman::disk::passes_end;

/// Returns the first of the four ranges of the table that is on the disk and that the ends do not have. A table that
/// passes the end of the disk is refused elsewhere.
pub fn lack_of_places(ends: &Ends, table: &GPT) -> Option<Lack>
    requires sector { 0 < table.now.sector_size }
    requires room { table.now.sector_size ≤ ends.now.size }
    requires count { 0 < table.now.header.number_of_partition_entries }
    ensures known { MatchOption result
        (AreInside (four_ranges (table_in table.now) table.now.sector_size ends.now.size) ends.now.size
        → HaveRanges ends.now
        (four_ranges (table_in table.now) table.now.sector_size ends.now.size))
        (IsLack ends.now) }
    ensures asked { IfSome result (λ lack. IsAmong (lack.from, lack.length) (value_ranges table.now ends.now.size)) }
{
    let sector_size = table.sector_size;
    let array = 128 * u64::from(table.header.number_of_partition_entries);
    let start = sector_size.checked_mul(2)?;
    let lack = lack_of_both(ends, sector_size, start, array);
    if lack.is_some() {
        return lack;
    }
    let start = table
        .header
        .last_usable_lba
        .checked_add(1)?
        .checked_mul(sector_size)?;
    let header = last_sector(ends.size, sector_size);
    lack_of_both(ends, header, start, array)
}

// Returns the header or the array, of `array` bytes, if it is on the disk and the ends do not have it.
fn lack_of_both(ends: &Ends, header: u64, start: u64, array: u64) -> Option<Lack>
    ensures known { MatchOption result
        ((header + 92 ≤ ends.now.size → HaveRange ends.now (header, 92))
        × (start + array ≤ ends.now.size → HaveRange ends.now (start, array)))
        (IsLack ends.now) }
    ensures asked { IfSome result
        (λ lack. IsAmong (lack.from, lack.length) ((header, 92) ∷ (start, array) ∷ [])) }
{
    let lack = lack_inside(ends, header, 92);
    if lack.is_some() {
        return lack;
    }
    lack_inside(ends, start, array)
}

// Returns the range if it is on the disk and the ends do not have it.
fn lack_inside(ends: &Ends, from: u64, len: u64) -> Option<Lack>
    ensures known { MatchOption result
        (from + len ≤ ends.now.size → HaveRange ends.now (from, len))
        (IsLack ends.now) }
    ensures asked { IfSome result (λ lack. (lack.from ≡ from) × (lack.length ≡ len)) }
{
    if passes_end(ends.size, from, len) {
        return None;
    }
    lack_of(ends, from, len)
}
