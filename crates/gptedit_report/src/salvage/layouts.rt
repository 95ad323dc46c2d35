//! The layout for a copy.

use gptedit_core::{Amount, Asked, DEFAULT_ALIGN, Mode, RequestedLayout, Size};
use gptedit_formats::copies::{EntryFault, FoundCopy, FoundEntry};
use gptedit_text::Header;
use gptman::GPTHeader;
use gptman::sizes::{DEFAULT_ENTRY_COUNT, MAX_ENTRY_COUNT};
use std::alloc::{AllocError, Global};

/// The header values of a layout, and the sectors for its partitions.
#[derive(Clone, Copy)]
pub struct Frame {
    /// The header values.
    pub header: Header,
    /// The first sector for partitions.
    pub first: u64,
    /// The last sector for partitions.
    pub last: u64,
}

impl Frame {
    /// Returns the frame of a copy. Leaves out header values that a new table cannot have here, or that contradict the
    /// entries.
    pub fn of(copy: &FoundCopy) -> Frame {
        let spot = copy.spot;
        let count = copy.header.as_ref().and_then(|header| count_of(header));
        let bytes = u64::from(count.unwrap_or(DEFAULT_ENTRY_COUNT)).saturating_mul(128);
        let array = bytes.div_ceil(spot.sector_size.max(1));
        let lowest = array.saturating_add(2);
        let highest = spot.sectors.saturating_sub(lowest);
        let first = first_of(copy).filter(|first| *first >= lowest && *first <= highest);
        let last = last_of(copy).filter(|last| *last >= lowest && *last <= highest);
        Frame {
            header: Header {
                sector_size: Some(spot.sector_size),
                entries: count,
                first_usable: first,
                last_usable: last,
            },
            first: first.unwrap_or(lowest),
            last: last.unwrap_or(highest),
        }
    }

    /// Reports whether a layout in this frame may have the entry.
    pub fn takes(&self, found: &FoundEntry) -> bool {
        self.has_room_for(found)
            && !found.faults.iter().any(|fault| fault.is_senseless()
                || matches!(fault, EntryFault::Overlaps(_)))
    }

    /// Reports whether the entry is between the first and the last sector.
    pub fn has_room_for(&self, found: &FoundEntry) -> bool {
        found.entry.starting_lba >= self.first && found.entry.ending_lba <= self.last
    }
}

// Returns the number of entries, if a table may have that many.
fn count_of(header: &GPTHeader) -> Option<u32> {
    let count = header.number_of_partition_entries;
    if count == 0 || count > MAX_ENTRY_COUNT {
        None
    } else {
        Some(count)
    }
}

// Returns the first usable sector, unless a sensible entry starts before it.
fn first_of(copy: &FoundCopy) -> Option<u64> {
    let first = copy.header.as_ref()?.first_usable_lba;
    let is_before = |found: &FoundEntry| found.is_sensible() && found.entry.starting_lba < first;
    if copy.entries.iter().any(is_before) {
        None
    } else {
        Some(first)
    }
}

// Returns the last usable sector, unless a sensible entry ends after it.
fn last_of(copy: &FoundCopy) -> Option<u64> {
    let last = copy.header.as_ref()?.last_usable_lba;
    let is_after = |found: &FoundEntry| found.is_sensible() && found.entry.ending_lba > last;
    if copy.entries.iter().any(is_after) {
        None
    } else {
        Some(last)
    }
}

/// Returns a layout of the entries that the frame permits.
pub fn layout_of(
    alloc: Global,
    copy: &FoundCopy,
    frame: &Frame,
) -> Result<RequestedLayout, AllocError> {
    let mut layout = empty_layout(alloc);
    layout.disk_guid = copy.header.as_ref().map(|header| header.disk_guid);
    for found in copy.entries.iter() {
        if frame.takes(found) {
            layout.asked.push(ask_for(found)?)?;
        }
    }
    Ok(layout)
}

/// Returns a layout of one entry.
pub fn layout_of_one(alloc: Global, found: &FoundEntry) -> Result<RequestedLayout, AllocError> {
    let mut layout = empty_layout(alloc);
    layout.asked.push(ask_for(found)?)?;
    Ok(layout)
}

fn empty_layout(alloc: Global) -> RequestedLayout {
    RequestedLayout {
        mode: Mode::Become { replace: false },
        disk_guid: None,
        align: DEFAULT_ALIGN,
        removed: Vec::new(alloc),
        asked: Vec::new(alloc),
    }
}

// Returns the request for an entry, without a GUID that an earlier entry has.
fn ask_for(found: &FoundEntry) -> Result<Asked, AllocError> {
    let entry = &found.entry;
    let is_shared = found
        .faults
        .iter()
        .any(|fault| matches!(fault, EntryFault::SharesGuid(_)));
    let Ok(name) = entry.partition_name.clone() else {
        return Err(AllocError);
    };
    Ok(Asked {
        type_guid: Some(entry.partition_type_guid),
        unique_guid: if is_shared {
            None
        } else {
            Some(entry.unique_partition_guid)
        },
        attributes: Some(entry.attribute_bits),
        name: Some(name),
        start: Some(Amount::Sectors(entry.starting_lba)),
        size: Some(Size::Exactly(Amount::Sectors(count_sectors(found)))),
        ..Asked::nothing(Some(found.number))
    })
}

// Returns the number of sectors of an entry, 0 if it ends before it starts.
fn count_sectors(found: &FoundEntry) -> u64 {
    match found.entry.ending_lba.checked_sub(found.entry.starting_lba) {
        Some(distance) => distance.saturating_add(1),
        None => 0,
    }
}
