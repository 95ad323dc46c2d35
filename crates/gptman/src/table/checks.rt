//! Checks a table before it is written, in O(n log n) time for n entries: unique GUIDs with a set, boundaries
//! in one pass over the entries by ascending start.

ghost use Rattle.std.specs.Prelude.{◌≡◌, ◌≢◌, ◌≤◌, ◌⊎◌, ◌↔◌, All, AllPairs, IfOk, IsTrue, filter_map};
ghost use Rattle.std.specs.List.Sorted.{IsNonDecreasingBy};
ghost use Rattle.std.specs.Ordering.{nat_cmp};
ghost use Rattle.std.specs.Cmp.Lexicographic.{slice_cmp};
ghost use Rattle.std.specs.BTreeSet.{IsFromIterResult};
ghost use Rattle.gptman.specs.Answers.{refusal_of, Refuses};
ghost use Rattle.gptman.specs.Entry.{used_guid};
ghost use Rattle.gptman_disk.specs.Fault.{out_of_memory};
ghost use Rattle.gptman.specs.Valid.{AreDisjoint, EndsBefore, HasGoodBoundaries, HasOwnGuids, IsValidity};
ghost use Rattle.gptman.specs.Valid.{LiesWithin};

use crate::table::covered::sorted_ranges;
use crate::{Error, GPTHeader, GPTPartitionEntry, Result};
use std::alloc::{AllocError, Global};
use std::collections::BTreeSet;

/// Checks whether a table may be written.
///
/// # Errors
/// `ConflictPartitionGUID` if two used entries have the same unique GUID; else `InvalidPartitionBoundaries` if
/// an entry ends before it starts, two used ones overlap, one is outside of the usable sectors, or the first
/// usable sector is above the last one plus 1. `OutOfMemory` if an allocation fails.
pub(crate) fn check(alloc: Global, header: &GPTHeader, entries: &[GPTPartitionEntry]) -> Result<()>
    ensures { Refuses result out_of_memory ⊎ IsValidity header.now entries.now (refusal_of result) }
{
    let own_guids = have_own_guids(alloc, entries)?;
    if !own_guids {
        return Err(Error::ConflictPartitionGUID);
    }
    let good_boundaries = have_good_boundaries(alloc, header, entries)?;
    if !good_boundaries {
        return Err(Error::InvalidPartitionBoundaries);
    }
    Ok(())
}

// Reports whether any two used entries have different unique GUIDs.
fn have_own_guids(
    alloc: Global,
    entries: &[GPTPartitionEntry],
) -> std::result::Result<bool, AllocError>
    ensures { IfOk result (λ own. IsTrue own ↔ HasOwnGuids entries.now) }
{
    let guids = used_guids(alloc, entries)?;
    are_distinct(alloc, &guids)
}

// Returns the unique GUIDs of the used entries. Only these need memory.
#[tactic(auto, using(crate::proofs::Taken::one_kept, crate::proofs::Taken::one_left))]
fn used_guids(
    alloc: Global,
    entries: &[GPTPartitionEntry],
) -> std::result::Result<Vec<[u8; 16]>, AllocError>
    ensures { IfOk result (λ guids. guids.items ≡ filter_map used_guid entries.now) }
{
    let mut guids = Vec::new(alloc);
    for entry in entries {
        if let Some(guid) = used_guid(entry) {
            guids.push(guid)?;
        }
    }
    Ok(guids)
}

// Returns the unique GUID of a used entry.
fn used_guid(entry: &GPTPartitionEntry) -> Option<[u8; 16]>
    ensures { result ≡ used_guid entry.now }
{
    if entry.is_used() {
        Some(entry.unique_partition_guid)
    } else {
        None
    }
}

// Reports whether no GUID occurs twice.
fn are_distinct(alloc: Global, guids: &[[u8; 16]]) -> std::result::Result<bool, AllocError>
    ensures { IfOk result (λ distinct. IsTrue distinct ↔ AllPairs (λ a b. a ≢ b) guids.now) }
{
    let set = guid_set(alloc, guids)?;
    Ok(set.len() == guids.len())
}

// Returns the GUIDs as a set.
fn guid_set(
    alloc: Global,
    guids: &[[u8; 16]],
) -> std::result::Result<BTreeSet<[u8; 16]>, AllocError>
    ensures { IfOk result (IsFromIterResult (slice_cmp nat_cmp) guids.now) }
{
    guids.iter().copied().collect(alloc)
}

// Reports whether the entries and the header's bounds are in order, and used entries do not overlap.
fn have_good_boundaries(
    alloc: Global,
    header: &GPTHeader,
    entries: &[GPTPartitionEntry],
) -> std::result::Result<bool, AllocError>
    ensures { IfOk result (λ good. IsTrue good ↔ HasGoodBoundaries header.now entries.now) }
{
    if header.first_usable_lba.saturating_sub(1) > header.last_usable_lba {
        return Ok(false);
    }
    if !are_ordered(entries) {
        return Ok(false);
    }
    if !all_lie_within(header, entries) {
        return Ok(false);
    }
    are_disjoint(alloc, entries)
}

// Reports whether every entry, used or not, starts at or before its end.
fn are_ordered(entries: &[GPTPartitionEntry]) -> bool
    ensures { IsTrue result ↔ All (λ e. e.starting_lba ≤ e.ending_lba) entries.now }
{
    entries
        .iter()
        .all(|entry| entry.starting_lba <= entry.ending_lba)
}

// Reports whether each used entry is within the usable sectors.
fn all_lie_within(header: &GPTHeader, entries: &[GPTPartitionEntry]) -> bool
    ensures { IsTrue result ↔ All (LiesWithin header.now) entries.now }
{
    entries.iter().all(|entry| lies_within(header, entry))
}

// Reports whether the entry, if used, is within the usable sectors.
fn lies_within(header: &GPTHeader, entry: &GPTPartitionEntry) -> bool
    ensures { IsTrue result ↔ LiesWithin header.now entry.now }
{
    !entry.is_used()
        || header.first_usable_lba <= entry.starting_lba
            && entry.ending_lba <= header.last_usable_lba
}

// Reports whether no sector is covered by two entries.
fn are_disjoint(
    alloc: Global,
    entries: &[GPTPartitionEntry],
) -> std::result::Result<bool, AllocError>
    ensures { IfOk result (λ disjoint. IsTrue disjoint ↔ AllPairs AreDisjoint entries.now) }
{
    let ranges = sorted_ranges(alloc, entries)?;
    Ok(end_before_next(&ranges))
}

// Reports whether each range ends before the next one begins.
fn end_before_next(ranges: &[(u64, u64)]) -> bool
    requires sorted { IsNonDecreasingBy (λ r. r.0) ranges.now }
    requires ordered { All (λ r. r.0 ≤ r.1) ranges.now }
    ensures { IsTrue result ↔ AllPairs EndsBefore ranges.now }
{
    for i in 1..ranges.len() {
        if ranges[i].0 <= ranges[i - 1].1 {
            return false;
        }
    }
    true
}
