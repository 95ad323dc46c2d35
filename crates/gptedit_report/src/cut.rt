//! The refusal of partitions that do not fit on a shortened disk.

use crate::bounds::Edges;
use crate::layout::{LayoutState, length_to};
use crate::reason::Reason;
use crate::report::{Commands, Message};
use crate::way::{Truncate, write_longer_disk};
use gptedit_values::ShellWord;
use gptman::GPT;
use std::alloc::{AllocError, Global};
use std::fmt;

/// Message: partitions do not fit on a shortened disk, and the remedies. Three lines, without the last newline.
#[derive(Clone, Copy)]
pub struct CutText<'a> {
    table: &'a GPT,
    edges: Edges,
    restored: Restored<'a>,
}

impl<'a> CutText<'a> {
    /// Returns the message for a disk of `size` bytes, if it is shorter than its table and a partition does not fit.
    /// `is_device` says whether it is a block device, not an image file.
    pub fn of(table: &'a GPT, size: u64, is_device: bool, image: &'a str) -> Option<CutText<'a>> {
        let LayoutState::Cut(last) = LayoutState::of(table, size) else {
            return None;
        };
        let text = CutText {
            table,
            edges: Edges::of(table, size),
            restored: Restored::new(table, last, is_device, image),
        };
        if text.count() == 0 { None } else { Some(text) }
    }

    // Returns the number of partitions that do not fit.
    fn count(&self) -> usize {
        let most = self.edges.most;
        self.table
            .iter()
            .filter(|(_, entry)| entry.is_used() && entry.ending_lba > most)
            .count()
    }

    // Returns the numbers of the partitions that do not fit.
    fn numbers(&self, alloc: Global) -> Result<Vec<u32>, AllocError> {
        let mut numbers = Vec::new(alloc);
        for (number, entry) in self.table.iter() {
            if entry.is_used() && entry.ending_lba > self.edges.most {
                numbers.push(number)?;
            }
        }
        Ok(numbers)
    }

    // Writes the numbers of the partitions that do not fit, each after `before`.
    fn write_numbers<W: fmt::Write>(&self, f: &mut fmt::Formatter<W>, before: &str) -> fmt::Result {
        for (number, entry) in self.table.iter() {
            if entry.is_used() && entry.ending_lba > self.edges.most {
                write!(f, "{before}{number}")?;
            }
        }
        Ok(())
    }

    // Writes which partitions do not fit.
    fn write_reason<W: fmt::Write>(&self, f: &mut fmt::Formatter<W>) -> fmt::Result {
        let Edges { least, most, .. } = self.edges;
        let (noun, verb) = if self.count() == 1 {
            ("partition", "does")
        } else {
            ("partitions", "do")
        };
        f.write_str(noun)?;
        self.write_numbers(f, " ")?;
        write!(
            f,
            " {verb} not fit on the disk, which has sectors {least}..{most} for partitions"
        )
    }
}

/// The advice on how a shortened disk gets its length again.
#[derive(Clone, Copy)]
pub(crate) struct Restored<'a> {
    // The length in bytes that the disk had.
    size: u64,
    is_device: bool,
    image: &'a str,
}

impl<'a> Restored<'a> {
    /// Returns the advice for a table that ends at this sector.
    pub(crate) fn new(table: &GPT, last: u64, is_device: bool, image: &'a str) -> Restored<'a> {
        Restored {
            size: length_to(last, table.sector_size),
            is_device,
            image,
        }
    }

    /// Adds the commands that the advice names.
    pub(crate) fn add_commands(&self, commands: &mut Commands) -> Result<(), AllocError> {
        if self.is_device {
            return Ok(());
        }
        commands.add_truncate(self.size, self.image)?;
        commands.add_own("repair", self.image)
    }
}

impl fmt::Display for Restored<'_> {
    fn fmt<W: fmt::Write>(&self, f: &mut fmt::Formatter<W>) -> fmt::Result {
        let (size, image) = (self.size, self.image);
        if self.is_device {
            return write_longer_disk(f, size);
        }
        let (longer, name) = (Truncate { size, image }, ShellWord(image));
        write!(
            f,
            "copy the image again, or run {longer} and `gptedit repair {name}`: "
        )?;
        f.write_str("the part that was cut off is then zeros")
    }
}

impl fmt::Display for CutText<'_> {
    fn fmt<W: fmt::Write>(&self, f: &mut fmt::Formatter<W>) -> fmt::Result {
        self.write_reason(f)?;
        f.write_str("\n")?;
        let restored = self.restored;
        write!(f, "{restored}")?;
        write!(f, "\n`gptedit remove --fit {}", ShellWord(restored.image))?;
        self.write_numbers(f, " ")?;
        f.write_str("` removes what does not fit")
    }
}

impl Message for CutText<'_> {
    fn reason(&self) -> Reason {
        Reason::CutOff
    }

    fn add_commands(&self, commands: &mut Commands) -> Result<(), AllocError> {
        self.restored.add_commands(commands)?;
        let numbers = self.numbers(commands.alloc())?;
        commands.add_remove(self.restored.image, &numbers)
    }
}
