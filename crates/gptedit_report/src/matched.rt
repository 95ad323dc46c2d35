//! How a layout means the entries that change.

use crate::compare::EntryChange;
use gptedit_core::{EntryMatch, MatchedBy};
use std::alloc::{AllocError, Global};
use std::collections::BTreeMap;

/// How a layout means each entry.
#[derive(Drop)]
pub(crate) struct Matched {
    by_number: BTreeMap<u32, MatchedBy>,
}

impl Matched {
    /// Returns how a layout means its entries.
    pub(crate) fn new(alloc: Global, matches: &[EntryMatch]) -> Result<Matched, AllocError> {
        let mut by_number = BTreeMap::new(alloc);
        for found in matches {
            by_number.insert(found.number, found.by)?;
        }
        Ok(Matched { by_number })
    }

    /// Returns how the layout means the entry of the change; `None` if it does not.
    pub(crate) fn by(&self, change: EntryChange) -> Option<MatchedBy> {
        let number = match change {
            EntryChange::Removed { .. } => return None,
            EntryChange::Added { number } => number,
            EntryChange::Kept { to, .. } => to,
        };
        self.by_number.get(&number).copied()
    }
}
