//! Compares the entries of two tables.

use gptman::{GPT, GPTPartitionEntry};
use std::alloc::{AllocError, Global};
use std::collections::BTreeMap;

/// A change of a used entry.
#[derive(Clone, Copy)]
pub(crate) enum EntryChange {
    /// The entry is unused afterwards.
    Removed { number: u32 },
    /// The entry was unused before.
    Added { number: u32 },
    /// The entry has changed, or moved from the first number to the second.
    Kept { from: u32, to: u32 },
}

impl EntryChange {
    // Orders changes by the number afterwards, and a removal before an entry that replaces it.
    fn rank(self) -> (u32, u8) {
        match self {
            EntryChange::Removed { number } => (number, 0),
            EntryChange::Added { number } => (number, 1),
            EntryChange::Kept { to, .. } => (to, 1),
        }
    }
}

/// Returns the entries that differ, in the order of their numbers. Entries match if they have the same GUID, and under
/// the same number also if they have the same sectors, or the same first sector, type and name. Takes O(n log n) time
/// for n entries.
pub(crate) fn compare(
    alloc: Global,
    was: &GPT,
    next: &GPT,
) -> Result<Vec<EntryChange>, AllocError> {
    let mut changes = Vec::new(alloc);
    let mut gone = find_gone(alloc, was, next, &mut changes)?;
    let added = find_added(alloc, was, next, &mut gone, &mut changes)?;
    add_renamed(was, next, &added, &mut gone, &mut changes)?;
    for number in gone.values() {
        changes.push(EntryChange::Removed { number: *number })?;
    }
    changes.sort_by_key(|change| change.rank())?;
    Ok(changes)
}

// Maps the GUID of each used entry that its number no longer has to that number. If several share a GUID, all but the
// last are removed.
fn find_gone(
    alloc: Global,
    was: &GPT,
    next: &GPT,
    changes: &mut Vec<EntryChange>,
) -> Result<BTreeMap<[u8; 16], u32>, AllocError> {
    let mut gone = BTreeMap::new(alloc);
    for (number, entry) in was.iter() {
        if entry.is_used() && !has_guid(next, number, &entry.unique_partition_guid) {
            if let Some(number) = gone.insert(entry.unique_partition_guid, number)? {
                changes.push(EntryChange::Removed { number })?;
            }
        }
    }
    Ok(gone)
}

// Reports whether the entry of this number is used and has this GUID.
fn has_guid(table: &GPT, number: u32, guid: &[u8; 16]) -> bool {
    match used_at(table, number) {
        Some(entry) => entry.unique_partition_guid == *guid,
        None => false,
    }
}

/// Returns the entry of this number if it is used.
pub(crate) fn used_at(table: &GPT, number: u32) -> Option<&GPTPartitionEntry> {
    let entry = table.get(number)?;
    if entry.is_used() { Some(entry) } else { None }
}

// Returns the numbers of the entries with new GUIDs. The others are changes if they differ.
fn find_added(
    alloc: Global,
    was: &GPT,
    next: &GPT,
    gone: &mut BTreeMap<[u8; 16], u32>,
    changes: &mut Vec<EntryChange>,
) -> Result<Vec<u32>, AllocError> {
    let mut added = Vec::new(alloc);
    for (to, entry) in next.iter() {
        if entry.is_unused() {
            continue;
        }
        if has_guid(was, to, &entry.unique_partition_guid) {
            if was.get(to) != Some(entry) {
                changes.push(EntryChange::Kept { from: to, to })?;
            }
        } else if let Some(from) = gone.remove(&entry.unique_partition_guid) {
            changes.push(EntryChange::Kept { from, to })?;
        } else {
            added.push(to)?;
        }
    }
    Ok(added)
}

// Adds the entries that are new or have a new GUID.
fn add_renamed(
    was: &GPT,
    next: &GPT,
    added: &[u32],
    gone: &mut BTreeMap<[u8; 16], u32>,
    changes: &mut Vec<EntryChange>,
) -> Result<(), AllocError> {
    for number in added {
        let number = *number;
        let change = match same_place(was, next, number) {
            Some(before) if gone.get(&before) == Some(&number) => {
                gone.remove(&before);
                EntryChange::Kept {
                    from: number,
                    to: number,
                }
            }
            _ => EntryChange::Added { number },
        };
        changes.push(change)?;
    }
    Ok(())
}

// Returns the former GUID of an entry that was used and keeps its sectors, or its first sector, type and name.
fn same_place(was: &GPT, next: &GPT, number: u32) -> Option<[u8; 16]> {
    let before = used_at(was, number)?;
    let after = next.get(number)?;
    if before.starting_lba != after.starting_lba {
        return None;
    }
    if before.ending_lba == after.ending_lba || are_alike(before, after) {
        Some(before.unique_partition_guid)
    } else {
        None
    }
}

// Reports whether the entries have the same type and name.
fn are_alike(before: &GPTPartitionEntry, after: &GPTPartitionEntry) -> bool {
    before.partition_type_guid == after.partition_type_guid
        && before.partition_name.units() == after.partition_name.units()
}
