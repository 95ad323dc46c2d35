//! Finds faults of the entries of a copy. The time is O(n log n) for n entries.

use crate::copies::fault::EntryFault;
use crate::copies::found::{FoundEntry, Spot};
use gptman::GPTHeader;
use std::alloc::{AllocError, Global};

/// Records the faults of each entry.
pub fn note_entries(
    alloc: Global,
    entries: &mut [FoundEntry],
    spot: Spot,
    header: Option<&GPTHeader>,
) -> Result<(), AllocError> {
    for found in entries.iter_mut() {
        note_range(found, spot.sectors, header)?;
    }
    note_overlaps(alloc, entries)?;
    note_shared(alloc, entries)
}

// Records faults in the sectors of an entry.
fn note_range(
    found: &mut FoundEntry,
    sectors: u64,
    header: Option<&GPTHeader>,
) -> Result<(), AllocError> {
    let (start, end) = (found.entry.starting_lba, found.entry.ending_lba);
    if end < start {
        found.faults.push(EntryFault::EndsBeforeStart)?;
        return Ok(());
    }
    if end >= sectors {
        found.faults.push(EntryFault::PastEnd)?;
    }
    let Some(header) = header else {
        return Ok(());
    };
    let (first, last) = (header.first_usable_lba, header.last_usable_lba);
    if start < first || end > last {
        found.faults.push(EntryFault::NotUsable { first, last })?;
    }
    Ok(())
}

// The sectors of an entry, and its index in the list.
#[derive(Clone, Copy)]
struct Range {
    start: u64,
    end: u64,
    number: u32,
    index: usize,
}

// Records overlaps for as few sensible entries as possible.
fn note_overlaps(alloc: Global, entries: &mut [FoundEntry]) -> Result<(), AllocError> {
    let mut ranges = Vec::new(alloc);
    for (index, found) in entries.iter().enumerate() {
        if found.is_sensible() {
            ranges.push(Range {
                start: found.entry.starting_lba,
                end: found.entry.ending_lba,
                number: found.number,
                index,
            })?;
        }
    }
    ranges.sort_by_key(|range| (range.start, range.number))?;
    let mut kept: Option<Range> = None;
    for range in ranges.iter() {
        kept = Some(match kept {
            Some(before) if range.start <= before.end => part(entries, before, *range)?,
            _ => *range,
        });
    }
    Ok(())
}

// Records an overlap for the entry that ends later. Returns the other entry.
fn part(entries: &mut [FoundEntry], before: Range, next: Range) -> Result<Range, AllocError> {
    let (kept, other) = if next.end < before.end {
        (next, before)
    } else {
        (before, next)
    };
    if let Some(found) = entries.get_mut(other.index) {
        found.faults.push(EntryFault::Overlaps(kept.number))?;
    }
    Ok(kept)
}

// Records GUIDs that an earlier entry has.
fn note_shared(alloc: Global, entries: &mut [FoundEntry]) -> Result<(), AllocError> {
    let mut guids = Vec::new(alloc);
    for (index, found) in entries.iter().enumerate() {
        let guid = found.entry.unique_partition_guid;
        guids.push((guid, found.number, index))?;
    }
    guids.sort_by_key(|guid| {
        let same = guid.0;
        (same, guid.1)
    })?;
    let mut same = [0; 16];
    let mut first = None;
    for (guid, number, index) in guids.iter() {
        match first {
            Some(first) if same == *guid => {
                if let Some(found) = entries.get_mut(*index) {
                    found.faults.push(EntryFault::SharesGuid(first))?;
                }
            }
            _ => {
                same = *guid;
                first = Some(*number);
            }
        }
    }
    Ok(())
}
