//! Names the command by which the kernel learns of a change.

use crate::image::Image;
use gptedit_values::ShellWord;
use gptman::{GPT, GPTPartitionEntry};
use std::alloc::{AllocError, Global};
use std::fmt;

/// Returns the line that names the command by which the kernel learns of a change of a block device; `None` for a file.
/// `was` is the table before the change, if one was read, and `next` the table after it, if there is one.
pub fn kernel_line(
    alloc: Global,
    image: &Image<'_>,
    was: Option<&GPT>,
    next: Option<&GPT>,
) -> Result<Option<String>, AllocError> {
    let Some(device) = &image.opened.device else {
        return Ok(None);
    };
    let told = Told {
        is_mapped: device.is_mapped(),
        name: ShellWord(image.name),
        was,
        next,
    };
    let line = format!(in alloc; "{told}")?;
    Ok(Some(line))
}

// A change that the kernel is told of.
#[derive(Clone, Copy)]
struct Told<'a> {
    is_mapped: bool,
    name: ShellWord<'a>,
    was: Option<&'a GPT>,
    next: Option<&'a GPT>,
}

impl fmt::Display for Told<'_> {
    fn fmt<W: fmt::Write>(&self, f: &mut fmt::Formatter<W>) -> fmt::Result {
        let name = self.name;
        let tool = if self.is_mapped { "kpartx" } else { "partx" };
        if self.count() == 0 {
            return write!(
                f,
                "run `{tool} -d {name}` so that the kernel forgets the partitions"
            );
        }
        f.write_str("run `")?;
        if self.is_mapped {
            write!(f, "{tool} -u {name}")?;
        } else {
            self.write_deletions(f)?;
            self.write_update(f)?;
        }
        f.write_str("` so that the kernel reads the new table")
    }
}

impl Told<'_> {
    // Writes the commands by which the kernel forgets the partitions that are gone or start elsewhere: all, if no table
    // was read.
    fn write_deletions<W: fmt::Write>(&self, f: &mut fmt::Formatter<W>) -> fmt::Result {
        let name = self.name;
        let Some(was) = self.was else {
            return write!(f, "partx -d {name}; ");
        };
        let is_all = self.last_kept() == 0;
        if is_all && was.iter().any(|(_, entry)| entry.is_used()) {
            return write!(f, "partx -d {name}; ");
        }
        for (number, entry) in was.iter() {
            if entry.is_used() && !self.is_kept(number, entry) {
                write!(f, "partx -d --nr {number} {name}; ")?;
            }
        }
        Ok(())
    }

    // Writes the command by which the kernel reads the table. Without a range it ends at the number of partitions, or
    // at the last number that the kernel knows.
    fn write_update<W: fmt::Write>(&self, f: &mut fmt::Formatter<W>) -> fmt::Result {
        let (name, last) = (self.name, self.last());
        if last > self.count().max(self.last_kept()) {
            write!(f, "partx -u --nr 1:{last} {name}")
        } else {
            write!(f, "partx -u {name}")
        }
    }

    // Reports whether the entry that had this number is still there, and starts at the same sector.
    fn is_kept(&self, number: u32, entry: &GPTPartitionEntry) -> bool {
        match self.next.and_then(|next| next.get(number)) {
            Some(kept) => kept.is_used() && kept.starting_lba == entry.starting_lba,
            None => false,
        }
    }

    // Returns the last number of an entry that is kept, or 0.
    fn last_kept(&self) -> u32 {
        let mut last = 0;
        if let Some(was) = self.was {
            for (number, entry) in was.iter() {
                if entry.is_used() && self.is_kept(number, entry) {
                    last = number;
                }
            }
        }
        last
    }

    // Returns the last number of a partition, or 0.
    fn last(&self) -> u32 {
        let mut last = 0;
        if let Some(next) = self.next {
            for (number, entry) in next.iter() {
                if entry.is_used() {
                    last = number;
                }
            }
        }
        last
    }

    // Returns the number of partitions.
    fn count(&self) -> u32 {
        let mut count: u32 = 0;
        if let Some(next) = self.next {
            for (_, entry) in next.iter() {
                if entry.is_used() {
                    count = count.saturating_add(1);
                }
            }
        }
        count
    }
}
