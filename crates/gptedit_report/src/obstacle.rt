//! The refusal to overwrite data.

use crate::reason::{Lift, Reason};
use crate::report::{Commands, Message};
use gptedit_look::{Obstacle, Purpose, What};
use gptedit_values::ShellWord;
use gptman::GPT;
use std::alloc::AllocError;
use std::fmt;

/// The contents of the place of a broken copy, which only `repair` overwrites.
#[derive(Clone, Copy)]
pub enum Remains {
    /// The entries of the table.
    SameEntries,
    /// Entries of another table, or older ones of this table.
    OtherEntries,
    /// Unknown data.
    Unknown,
}

/// Message: a write would overwrite data, and the remedy. Two lines, without the last newline.
#[derive(Clone, Copy)]
pub struct ObstacleText<'a> {
    /// The data.
    pub obstacle: &'a Obstacle,
    /// Its kind, if it is in the place of a broken copy.
    pub remains: Remains,
    /// The purpose of the write.
    pub purpose: Purpose,
    /// The table on the disk, if one was read.
    pub table: Option<&'a GPT>,
    /// The path of the image or device, as given by the user.
    pub image: &'a str,
}

impl fmt::Display for ObstacleText<'_> {
    fn fmt<W: fmt::Write>(&self, f: &mut fmt::Formatter<W>) -> fmt::Result {
        match (self.obstacle.what, self.purpose) {
            (_, Purpose::New) => self.write_new(f),
            (What::DosDisk, _) => f.write_str(DOS),
            (What::Footer(name), _) => {
                writeln!(f, "the disk ends with {name}, which would be overwritten")?;
                f.write_str(LIFTED)
            }
            (What::BoardCode, Purpose::Edit | Purpose::Fit) => {
                self.write_range(f)?;
                self.write_repair(f)
            }
            _ => {
                self.write_range(f)?;
                f.write_str(LIFTED)
            }
        }
    }
}

impl Message for ObstacleText<'_> {
    fn reason(&self) -> Reason {
        Reason::Overwrites(self.obstacle.what)
    }

    fn lifted_by(&self) -> Option<Lift> {
        if self.needs_repair() {
            None
        } else {
            Some(Lift::Overwrite)
        }
    }

    fn add_commands(&self, commands: &mut Commands) -> Result<(), AllocError> {
        if !self.needs_repair() {
            return Ok(());
        }
        if self.remains != Remains::SameEntries {
            commands.add(&["gptedit", "repair", self.image, "--dry-run"])?;
        }
        commands.add_own("repair", self.image)
    }
}

// The refusal for a disk with a DOS partition table.
const DOS: &str =
    "the disk has a DOS partition table, and its boot loader may be in sectors 1..33\n\
    --overwrite writes the GUID partition table anyway";

// The option that permits a change.
const LIFTED: &str = "--overwrite writes the table anyway";

impl ObstacleText<'_> {
    // Reports whether the message names `repair`, and no option.
    fn needs_repair(&self) -> bool {
        matches!(self.obstacle.what, What::BoardCode)
            && matches!(self.purpose, Purpose::Edit | Purpose::Fit)
    }

    // Writes the refusal of a new table.
    fn write_new<W: fmt::Write>(&self, f: &mut fmt::Formatter<W>) -> fmt::Result {
        write!(f, "there is {}", self.what())?;
        if let (What::Table, Some(table)) = (self.obstacle.what, self.table) {
            let count = table.iter().filter(|(_, entry)| entry.is_used()).count();
            let noun = if count == 1 {
                "partition"
            } else {
                "partitions"
            };
            write!(f, " with {count} {noun}")?;
        }
        f.write_str(", which would be lost\n--overwrite writes a new table anyway")
    }

    // Writes the sectors and their contents.
    fn write_range<W: fmt::Write>(&self, f: &mut fmt::Formatter<W>) -> fmt::Result {
        let Obstacle { first, last, .. } = *self.obstacle;
        writeln!(
            f,
            "sectors {first}..{last} hold {}, which would be overwritten",
            self.what()
        )
    }

    // Writes that `repair` writes there, after its dry run. Over the same entries it replaces nothing.
    fn write_repair<W: fmt::Write>(&self, f: &mut fmt::Formatter<W>) -> fmt::Result {
        let image = ShellWord(self.image);
        if self.remains != Remains::SameEntries {
            write!(
                f,
                "`gptedit repair {image} --dry-run` names what would be lost; "
            )?;
        }
        write!(f, "`gptedit repair {image}` writes the copy there")
    }

    fn what(&self) -> WhatText {
        WhatText {
            what: self.obstacle.what,
            remains: self.remains,
        }
    }
}

/// The data that was recognised, for use within a sentence.
#[derive(Clone, Copy)]
pub struct WhatText {
    /// The kind of data.
    pub what: What,
    /// Its kind, if it is in the place of a broken copy.
    pub remains: Remains,
}

impl fmt::Display for WhatText {
    fn fmt<W: fmt::Write>(&self, f: &mut fmt::Formatter<W>) -> fmt::Result {
        let name = match self.what {
            What::Content(name) | What::Footer(name) => name,
            What::OtherSectorSize(size) => {
                return write!(
                    f,
                    "the header of a GUID partition table with sectors of {size} bytes"
                );
            }
            What::BoardCode => remains_name(self.remains),
            What::DosDisk => "an MBR with partitions",
            What::ElsewhereEntries => "data other than the entries of the table",
            What::AfterLastUsable => "data after the last usable sector",
            What::Table => "a GUID partition table",
            What::Header => "the header of a GUID partition table",
            What::ProtectiveMbr => "a protective MBR",
            What::BootSector => "a boot sector",
            What::Unknown => "data that is not zero",
        };
        f.write_str(name)
    }
}

// Returns the name of the contents of the place of a broken copy.
fn remains_name(remains: Remains) -> &'static str {
    match remains {
        Remains::SameEntries => "an array of the entries of this table, without a good header",
        Remains::OtherEntries =>
            "an array of entries of another table, or of older entries of this one",
        Remains::Unknown =>
            "unknown data in the place of a broken copy, such as the boot loader of a board",
    }
}
