//! The refusal of a table that cannot be fitted to its disk.

use crate::bounds::Edges;
use crate::cut::Restored;
use crate::layout::LayoutState;
use crate::reason::Reason;
use crate::report::{Commands, Message};
use gptedit_core::Refusal;
use gptedit_values::ShellWord;
use gptman::GPT;
use std::alloc::AllocError;
use std::fmt;

/// Message: a shortened disk has no room for two copies of its table, and the remedy. Two lines, without the last
/// newline.
#[derive(Clone, Copy)]
pub struct NoRoomText<'a> {
    edges: Edges,
    restored: Restored<'a>,
}

impl<'a> NoRoomText<'a> {
    /// Returns the message for a disk of `size` bytes, if it is shorter than its table and has no room for two copies.
    /// `is_device` says whether it is a block device, not an image file.
    pub fn of(table: &GPT, size: u64, is_device: bool, image: &'a str) -> Option<NoRoomText<'a>> {
        let edges = Edges::of(table, size);
        if table.header.number_of_partition_entries == 0 || edges.have_room() {
            return None;
        }
        match LayoutState::of(table, size) {
            LayoutState::Cut(last) => Some(NoRoomText {
                edges,
                restored: Restored::new(table, last, is_device, image),
            }),
            _ => None,
        }
    }
}

impl fmt::Display for NoRoomText<'_> {
    fn fmt<W: fmt::Write>(&self, f: &mut fmt::Formatter<W>) -> fmt::Result {
        let sectors = self.edges.least.saturating_mul(2).saturating_sub(1);
        writeln!(
            f,
            "the disk is too small for two copies of the table, which need {sectors} sectors"
        )?;
        write!(f, "{}", self.restored)
    }
}

impl Message for NoRoomText<'_> {
    fn reason(&self) -> Reason {
        Reason::Request(Refusal::TooSmall)
    }

    fn add_commands(&self, commands: &mut Commands) -> Result<(), AllocError> {
        self.restored.add_commands(commands)
    }
}

/// Message: a table in another layout cannot be fitted to the disk. One or two lines, without the last newline.
#[derive(Clone, Copy)]
pub struct OtherLayoutText<'a> {
    /// The table.
    pub table: &'a GPT,
    /// The path of the image or device, as given by the user.
    pub image: &'a str,
}

impl OtherLayoutText<'_> {
    /// Returns the first sector of the entries of the primary copy, if that copy was read and the sector is not 2.
    pub fn entries_sector(&self) -> Option<u64> {
        let sector = self.table.header.partition_entry_lba;
        if self.table.is_primary() && sector != 2 {
            Some(sector)
        } else {
            None
        }
    }
}

impl fmt::Display for OtherLayoutText<'_> {
    fn fmt<W: fmt::Write>(&self, f: &mut fmt::Formatter<W>) -> fmt::Result {
        if let Some(sector) = self.entries_sector() {
            return write!(
                f,
                "the entries of the primary copy begin in sector {sector}, not 2\n\
                 no command of gptedit moves them; use the program that wrote the table"
            );
        }
        let image = ShellWord(self.image);
        write!(
            f,
            "the table is not in the layout that gptedit writes; see `gptedit check {image}`"
        )
    }
}

impl Message for OtherLayoutText<'_> {
    fn reason(&self) -> Reason {
        Reason::Request(Refusal::NotLaidOut)
    }

    fn add_commands(&self, commands: &mut Commands) -> Result<(), AllocError> {
        match self.entries_sector() {
            Some(_) => Ok(()),
            None => commands.add_own("check", self.image),
        }
    }
}
