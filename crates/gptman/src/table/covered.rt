//! The sectors that used entries cover, in order.

ghost use Rattle.std.specs.Prelude.{◌≡◌, IfOk, filter_map};
ghost use Rattle.std.specs.List.Sorted.{IsNonDecreasingBy, IsPermutation};
ghost use Rattle.gptman.specs.Entry.{covered_range};

use crate::GPTPartitionEntry;
use std::alloc::{AllocError, Global};

/// Returns the first and the last sector of each used entry that does not end before it starts, by ascending
/// first sector. Entries may overlap.
pub(crate) fn sorted_ranges(
    alloc: Global,
    entries: &[GPTPartitionEntry],
) -> Result<Vec<(u64, u64)>, AllocError>
    ensures whole { IfOk result (λ v. IsPermutation (filter_map covered_range entries.now) v.items) }
    ensures sorted { IfOk result (λ v. IsNonDecreasingBy (λ r. r.0) v.items) }
{
    let mut ranges = covered_ranges(alloc, entries)?;
    ranges.sort_by_key(|range| range.0)?;
    Ok(ranges)
}

// Returns the same in the order of the entries. Only entries that cover a sector need memory.
#[tactic(auto, using(crate::proofs::Taken::one_kept, crate::proofs::Taken::one_left))]
fn covered_ranges(
    alloc: Global,
    entries: &[GPTPartitionEntry],
) -> Result<Vec<(u64, u64)>, AllocError>
    ensures { IfOk result (λ v. v.items ≡ filter_map covered_range entries.now) }
{
    let mut ranges = Vec::new(alloc);
    for entry in entries {
        if let Some(range) = covered_range(entry) {
            ranges.push(range)?;
        }
    }
    Ok(ranges)
}

// Returns the first and the last sector that the entry covers, if it covers any.
fn covered_range(entry: &GPTPartitionEntry) -> Option<(u64, u64)>
    ensures { result ≡ covered_range entry.now }
{
    if entry.is_used() && entry.starting_lba <= entry.ending_lba {
        Some((entry.starting_lba, entry.ending_lba))
    } else {
        None
    }
}
