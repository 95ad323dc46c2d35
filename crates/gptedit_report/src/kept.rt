//! Effects of a change on things that depend on partitions: their contents, and the entries of a hybrid MBR.

use crate::compare::used_at;
use crate::reason::{Lift, Reason};
use crate::report::Message;
use gptedit_look::{Content, FirstSector, Listed};
use gptman::{GPT, GPTPartitionEntry};
use std::alloc::{AllocError, Global};
use std::fmt;

/// A partition that becomes shorter in its place.
#[derive(Clone, Copy)]
pub struct Shortened {
    /// Its number.
    pub number: u32,
    /// Its first sector.
    pub first: u64,
    /// Its last sector before the change.
    pub last: u64,
    /// Its last sector after the change.
    pub next_last: u64,
}

/// Returns the partitions that become shorter in their places.
pub fn find_shortened(alloc: Global, was: &GPT, next: &GPT) -> Result<Vec<Shortened>, AllocError> {
    let mut found = Vec::new(alloc);
    for (number, entry) in was.iter() {
        let Some(after) = used_at(next, number) else {
            continue;
        };
        let is_shorter = after.ending_lba < entry.ending_lba;
        if entry.is_used() && after.starting_lba == entry.starting_lba && is_shorter {
            found.push(Shortened {
                number,
                first: entry.starting_lba,
                last: entry.ending_lba,
                next_last: after.ending_lba,
            })?;
        }
    }
    Ok(found)
}

/// Message: a partition would be shorter than its contents, and the remedy. Two lines, without the last newline.
#[derive(Clone, Copy)]
pub struct ShortenedText<'a> {
    /// The partition.
    pub shortened: Shortened,
    /// The contents.
    pub content: &'a Content,
    /// The sector size in bytes.
    pub sector_size: u64,
}

impl fmt::Display for ShortenedText<'_> {
    fn fmt<W: fmt::Write>(&self, f: &mut fmt::Formatter<W>) -> fmt::Result {
        let Shortened {
            number,
            first,
            next_last,
            ..
        } = self.shortened;
        let name = self.content.name;
        write!(
            f,
            "partition {number} would end at sector {next_last}, but contains {name}"
        )?;
        match self.content.end {
            Some(end) => {
                let sectors = end.div_ceil(self.sector_size.max(1));
                let last = sectors.saturating_sub(1).max(first);
                writeln!(f, " that ends at sector {last}")?;
                f.write_str("shrink that first; --overwrite writes the table anyway")
            }
            None => {
                writeln!(f, " of unknown length")?;
                f.write_str("shrink that first, then use --overwrite")
            }
        }
    }
}

impl Message for ShortenedText<'_> {
    fn reason(&self) -> Reason {
        Reason::ShorterThanContents
    }

    fn lifted_by(&self) -> Option<Lift> {
        Some(Lift::Overwrite)
    }
}

/// Returns the entries of a hybrid MBR whose partitions are moved, resized or removed.
pub fn find_unlisted(
    alloc: Global,
    first_sector: &FirstSector,
    was: &GPT,
    next: &GPT,
) -> Result<Vec<Listed>, AllocError> {
    let mut found = Vec::new(alloc);
    for listed in first_sector.listed.iter() {
        if is_listed(listed, was) && !is_listed(listed, next) {
            found.push(*listed)?;
        }
    }
    Ok(found)
}

// Reports whether an entry of an MBR has the sectors of a partition.
fn is_listed(listed: &Listed, table: &GPT) -> bool {
    table
        .iter()
        .any(|(_, entry)| entry.is_used() && is_at(listed, entry))
}

// Reports whether an entry of an MBR has the sectors of this entry.
fn is_at(listed: &Listed, entry: &GPTPartitionEntry) -> bool {
    let last = listed
        .first
        .saturating_add(listed.sectors.saturating_sub(1));
    listed.first == entry.starting_lba && last == entry.ending_lba
}

/// Message: the MBR still lists sectors that are no longer a partition. One line, without the newline.
#[derive(Clone, Copy)]
pub struct UnlistedText(pub Listed);

impl fmt::Display for UnlistedText {
    fn fmt<W: fmt::Write>(&self, f: &mut fmt::Formatter<W>) -> fmt::Result {
        let Listed {
            number,
            first,
            sectors,
            ..
        } = self.0;
        let last = first.saturating_add(sectors.saturating_sub(1));
        write!(
            f,
            "the hybrid MBR is kept, and still lists sectors {first}..{last} as its partition {number}"
        )
    }
}
