//! New tables that texts describe.

ghost use Rattle.std.specs.Prelude.{◌≡◌, false, unwrap_or, Some};

use crate::Parsed;
use gptedit_core::Creation;
use gptman::sizes::DEFAULT_ENTRY_COUNT;
use std::alloc::{AllocError, Global};
use std::collections::BTreeSet;

impl Parsed {
    /// Numbers the partitions without a number for a new table: each gets the lowest number that no other partition has.
    pub fn number_new(&mut self, alloc: Global) -> Result<(), AllocError> {
        let mut given = BTreeSet::new(alloc);
        for asked in self.layout.asked.iter() {
            if let Some(number) = asked.number {
                given.insert(number)?;
            }
        }
        let mut lowest = 1;
        for asked in self.layout.asked.iter_mut() {
            if asked.number.is_none() {
                lowest = lowest_from(lowest, &given);
                asked.number = Some(lowest);
                lowest = lowest.saturating_add(1);
            }
        }
        Ok(())
    }

    /// Returns the new table that the text describes. `may_lose` and `is_dry` are not set.
    ///
    /// Entries and bounds are those of the header, or 128 entries and the widest bounds. `guid` is the GUID of the
    /// disk, unless the text has one. `random` must have a GUID for each partition.
    pub fn into_creation(self, guid: [u8; 16], random: Vec<[u8; 16]>) -> Creation
        ensures guid { result.guid ≡ guid }
        ensures entries { result.entries ≡ unwrap_or self.header.entries 128 }
        ensures first { result.first_usable ≡ self.header.first_usable }
        ensures last { result.last_usable ≡ self.header.last_usable }
        ensures layout { result.layout ≡ Some self.layout }
        ensures random { result.random ≡ random }
        ensures careful { result.may_lose ≡ false }
        ensures real { result.is_dry ≡ false }
    {
        Creation {
            guid,
            entries: self.header.entries.unwrap_or(DEFAULT_ENTRY_COUNT),
            first_usable: self.header.first_usable,
            last_usable: self.header.last_usable,
            layout: Some(self.layout),
            random,
            may_lose: false,
            is_dry: false,
        }
    }
}

// Returns the lowest number from `first` on that is not given.
fn lowest_from(first: u32, given: &BTreeSet<u32>) -> u32 {
    (first..u32::MAX)
        .find(|number| !given.contains(number))
        .unwrap_or(u32::MAX)
}
