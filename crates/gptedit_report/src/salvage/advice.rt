//! Advice on writing a salvaged layout.

use crate::salvage::layouts::Frame;
use gptedit_formats::copies::{FoundCopy, FoundEntry, Salvaged};
use std::fmt;

/// Advice on writing the layout.
#[derive(Clone, Copy)]
pub enum Advice {
    /// The layout has all entries that were found, and no others are known to be lost.
    Write,
    /// The layout may lack entries, which a write would overwrite.
    CopyFirst,
    /// The layout may lack entries, and has none.
    Keep,
}

impl Advice {
    /// Returns the advice for the layout of the best copy in this frame.
    pub fn of(salvaged: &Salvaged, best: &FoundCopy, frame: &Frame) -> Advice {
        let is_complete = salvaged.copies.iter().all(|copy| !copy.may_lack_entries()
            && count_missing(copy, best, frame) == 0);
        let is_empty = !best.entries.iter().any(|found| frame.takes(found));
        match (is_complete, is_empty) {
            (true, _) => Advice::Write,
            (false, false) => Advice::CopyFirst,
            (false, true) => Advice::Keep,
        }
    }
}

/// The advice as comments in a layout, without the last newline.
impl fmt::Display for Advice {
    fn fmt<W: fmt::Write>(&self, f: &mut fmt::Formatter<W>) -> fmt::Result {
        match self {
            Advice::Write => f.write_str(
                "# gptedit apply --create --overwrite IMAGE FILE writes this layout",
            ),
            Advice::CopyFirst => f.write_str(
                "# this layout may lack partitions: copy the disk before it is written, since\n\
                # gptedit apply --create --overwrite IMAGE FILE overwrites both copies of the table",
            ),
            Advice::Keep => f.write_str(
                "# this layout has no partitions: do not write it, since that overwrites both copies of the table\n\
                # and what may still be recovered of them; copy the disk before anything is written to it",
            ),
        }
    }
}

/// Returns the number of entries of a copy that are not in the layout.
pub fn count_missing(copy: &FoundCopy, best: &FoundCopy, frame: &Frame) -> usize {
    copy.entries
        .iter()
        .filter(|found| !is_in_layout(found, best, frame))
        .count()
}

/// Reports whether the layout has the entry under the same number.
pub fn is_in_layout(found: &FoundEntry, best: &FoundCopy, frame: &Frame) -> bool {
    let Ok(index) = best
        .entries
        .binary_search_by_key(&found.number, |other| other.number)
    else {
        return false;
    };
    match best.entries.get(index) {
        Some(other) => other.entry == found.entry && frame.takes(other),
        None => false,
    }
}
