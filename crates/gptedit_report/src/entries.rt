//! Faults of the entries of a table.

use crate::way::Way;
use gptman::GPT;
use std::alloc::{AllocError, Global};
use std::collections::{BTreeMap, BTreeSet};
use std::fmt;

/// A fault of entries, by their numbers.
#[derive(Clone, Copy)]
pub enum EntryFault {
    /// A used entry ends before it starts.
    EndsBefore { number: u32, first: u64, last: u64 },
    /// An unused entry ends before it starts.
    UnusedEndsBefore { number: u32 },
    /// A partition is not within the usable sectors.
    Outside { number: u32, first: u64, last: u64 },
    /// Two partitions share a sector.
    Overlap { number: u32, other: u32 },
    /// Two partitions have the same GUID.
    SharedGuid { number: u32, other: u32 },
}

/// Returns the faults of the entries: first those of single entries, then overlaps, then shared GUIDs. Takes O(n log n)
/// time for n entries.
pub(crate) fn find_entry_faults(alloc: Global, table: &GPT) -> Result<Vec<EntryFault>, AllocError> {
    let mut faults = Vec::new(alloc);
    add_own(table, &mut faults)?;
    add_overlaps(alloc, table, &mut faults)?;
    add_shared(alloc, table, &mut faults)?;
    Ok(faults)
}

// Adds the faults of single entries.
fn add_own(table: &GPT, faults: &mut Vec<EntryFault>) -> Result<(), AllocError> {
    for (number, entry) in table.iter() {
        let (first, last) = (entry.starting_lba, entry.ending_lba);
        if last < first && entry.is_used() {
            faults.push(EntryFault::EndsBefore {
                number,
                first,
                last,
            })?;
        } else if last < first {
            faults.push(EntryFault::UnusedEndsBefore { number })?;
        } else if entry.is_used()
            && (first < table.header.first_usable_lba || last > table.header.last_usable_lba)
        {
            faults.push(EntryFault::Outside {
                number,
                first,
                last,
            })?;
        }
    }
    Ok(())
}

// Adds the partitions that overlap one that begins before them.
fn add_overlaps(
    alloc: Global,
    table: &GPT,
    faults: &mut Vec<EntryFault>,
) -> Result<(), AllocError> {
    let mut places = Vec::new(alloc);
    for (number, entry) in table.iter() {
        if entry.is_used() && entry.starting_lba <= entry.ending_lba {
            places.push((entry.starting_lba, entry.ending_lba, number))?;
        }
    }
    places.sort_by_key(|place| (place.0, place.2))?;
    let mut highest: Option<(u64, u32)> = None;
    for place in places.iter() {
        let (first, last, number) = *place;
        match highest {
            Some((end, other)) if first <= end => {
                faults.push(EntryFault::Overlap {
                    number: number.min(other),
                    other: number.max(other),
                })?;
                if last > end {
                    highest = Some((last, number));
                }
            }
            _ => highest = Some((last, number)),
        }
    }
    Ok(())
}

// Adds the partitions that have the GUID of one with a lower number.
fn add_shared(alloc: Global, table: &GPT, faults: &mut Vec<EntryFault>) -> Result<(), AllocError> {
    let mut numbers: BTreeMap<[u8; 16], u32> = BTreeMap::new(alloc);
    for (other, entry) in table.iter() {
        if entry.is_unused() {
            continue;
        }
        let guid = entry.unique_partition_guid;
        match numbers.get(&guid) {
            Some(number) => {
                let number = *number;
                faults.push(EntryFault::SharedGuid { number, other })?;
            }
            None => {
                numbers.insert(guid, other)?;
            }
        }
    }
    Ok(())
}

impl EntryFault {
    /// Reports whether two partitions have the same GUID.
    pub(crate) fn is_shared_guid(self) -> bool {
        matches!(self, EntryFault::SharedGuid { .. })
    }

    /// Adds the commands that may correct this fault if it is the only one.
    pub(crate) fn add_ways(self, alloc: Global, ways: &mut Vec<Way>) -> Result<(), AllocError> {
        match self {
            EntryFault::EndsBefore { number, .. } => ways.push(Way::remove(alloc, number)?)?,
            EntryFault::Outside { number, .. } => {
                ways.push(Way::RepairBounds)?;
                ways.push(Way::remove(alloc, number)?)?;
            }
            EntryFault::UnusedEndsBefore { number } => {
                ways.push(Way::remove(alloc, number)?)?;
                ways.push(Way::PutOver(number))?;
            }
            EntryFault::Overlap { number, other } => {
                ways.push(Way::remove(alloc, other)?)?;
                ways.push(Way::remove(alloc, number)?)?;
            }
            EntryFault::SharedGuid { other, .. } => ways.push(Way::SetGuid(other))?,
        }
        Ok(())
    }
}

impl fmt::Display for EntryFault {
    fn fmt<W: fmt::Write>(&self, f: &mut fmt::Formatter<W>) -> fmt::Result {
        match *self {
            EntryFault::EndsBefore {
                number,
                first,
                last,
            } => write!(
                f,
                "partition {number} (sectors {first}..{last}) ends before it starts"
            ),
            EntryFault::UnusedEndsBefore { number } => {
                write!(f, "unused entry {number} ends before it starts")
            }
            EntryFault::Outside {
                number,
                first,
                last,
            } => write!(
                f,
                "partition {number} (sectors {first}..{last}) reaches outside the usable sectors"
            ),
            EntryFault::Overlap { number, other } => {
                write!(f, "partitions {number} and {other} overlap")
            }
            EntryFault::SharedGuid { number, other } => {
                write!(f, "partitions {number} and {other} have the same GUID")
            }
        }
    }
}

/// The entries whose removal corrects all faults of entries.
#[derive(Drop)]
pub(crate) struct Removal {
    numbers: BTreeSet<u32>,
    is_possible: bool,
}

// The most entries that one command line names.
const MOST_NAMED: usize = 32;

impl Removal {
    /// Returns the entries to remove. Of two partitions, this is the one with the higher number, unless one of them is
    /// removed already.
    pub(crate) fn of(alloc: Global, faults: &[EntryFault]) -> Result<Removal, AllocError> {
        let mut numbers = BTreeSet::new(alloc);
        let mut is_possible = true;
        for fault in faults {
            match *fault {
                EntryFault::EndsBefore { number, .. } | EntryFault::Outside { number, .. } => {
                    numbers.insert(number)?;
                }
                EntryFault::UnusedEndsBefore { .. } => is_possible = false,
                EntryFault::Overlap { number, other } | EntryFault::SharedGuid { number, other } =>
                    {
                        if !numbers.contains(&number) && !numbers.contains(&other) {
                            numbers.insert(other)?;
                        }
                    }
            }
        }
        Ok(Removal {
            numbers,
            is_possible,
        })
    }

    /// Returns the command that removes them. There is none if no entry or too many are to be removed, or if an unused
    /// entry is faulty.
    pub(crate) fn way(&self, alloc: Global) -> Result<Option<Way>, AllocError> {
        let count = self.numbers.len();
        if !self.is_possible || count == 0 || count > MOST_NAMED {
            return Ok(None);
        }
        let mut numbers = Vec::with_capacity(alloc, count)?;
        for number in self.numbers.iter() {
            numbers.push(*number)?;
        }
        Ok(Some(Way::Remove(numbers)))
    }
}
