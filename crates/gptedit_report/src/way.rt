//! The commands that correct findings, and the advice if none does.

use gptedit_values::ShellWord;
use std::alloc::{AllocError, Global};
use std::fmt;

/// A command that may correct a finding.
#[derive(Clone, Drop, PartialEq, Eq)]
pub enum Way {
    /// `repair`
    Repair,
    /// `repair --bounds`
    RepairBounds,
    /// `grow`
    Grow,
    /// `randomize`
    Randomize,
    /// `set --guid` on the entry of this number.
    SetGuid(u32),
    /// `remove` of the entries of these numbers.
    Remove(Vec<u32>),
    /// `add --number` over the unused entry of this number.
    PutOver(u32),
}

impl Way {
    /// Returns the command that removes one entry.
    pub(crate) fn remove(alloc: Global, number: u32) -> Result<Way, AllocError> {
        Ok(Way::Remove(vec![in alloc; number]?))
    }

    /// Returns the name of the command.
    pub fn command(&self) -> &'static str {
        match self {
            Way::Repair | Way::RepairBounds => "repair",
            Way::Grow => "grow",
            Way::Randomize => "randomize",
            Way::SetGuid(_) => "set",
            Way::Remove(_) => "remove",
            Way::PutOver(_) => "add",
        }
    }
}

/// The advice if no command corrects a finding.
#[derive(Clone, Copy)]
pub enum Otherwise {
    /// Copy the disk first: there is no table.
    Save,
    /// Restore the former length of the image, in bytes.
    Lengthen(u64),
    /// Copy the disk again, to one of at least this length in bytes.
    LongerDisk(u64),
    /// Use the tool that made it.
    OtherTool,
}

/// A command on an image, or the advice if there is none.
#[derive(Clone, Copy)]
pub(crate) struct WayOut<'a> {
    pub(crate) way: Option<&'a Way>,
    pub(crate) otherwise: Otherwise,
    pub(crate) image: &'a str,
}

impl fmt::Display for WayOut<'_> {
    fn fmt<W: fmt::Write>(&self, f: &mut fmt::Formatter<W>) -> fmt::Result {
        let image = ShellWord(self.image);
        match self.way {
            None => write_otherwise(f, self.otherwise, self.image),
            Some(Way::Repair) => write!(f, "`gptedit repair {image}`"),
            Some(Way::RepairBounds) => write!(f, "`gptedit repair {image} --bounds`"),
            Some(Way::Grow) => write!(f, "`gptedit grow {image}`"),
            Some(Way::Randomize) => write!(f, "`gptedit randomize {image}`"),
            Some(Way::SetGuid(number)) => {
                write!(f, "`gptedit set {image} {number} --guid GUID`")
            }
            Some(Way::Remove(numbers)) => {
                write!(f, "`gptedit remove {image}")?;
                for number in numbers.iter() {
                    write!(f, " {number}")?;
                }
                f.write_str(" --backup FILE`")
            }
            Some(Way::PutOver(number)) => {
                write!(
                    f,
                    "`gptedit add {image} --number {number} --type linux --size 1MiB`"
                )
            }
        }
    }
}

// Writes the advice if no command corrects a finding.
fn write_otherwise<W: fmt::Write>(
    f: &mut fmt::Formatter<W>,
    otherwise: Otherwise,
    image: &str,
) -> fmt::Result {
    match otherwise {
        Otherwise::Save => write!(
            f,
            "`gptedit salvage {}` prints what can be read; {SAVE}",
            ShellWord(image)
        ),
        Otherwise::Lengthen(size) => write!(
            f,
            "copy the image again, or restore its length with {}",
            Truncate { size, image }
        ),
        Otherwise::LongerDisk(size) => write_longer_disk(f, size),
        Otherwise::OtherTool => {
            f.write_str("no command corrects it; use the program that wrote it")
        }
    }
}

/// Writes the advice for a block device that is too short: it needs `size` bytes.
pub(crate) fn write_longer_disk<W: fmt::Write>(
    f: &mut fmt::Formatter<W>,
    size: u64,
) -> fmt::Result {
    write!(f, "copy the disk again, to one of at least {size} bytes")
}

/// The command that sets the length of an image to `size` bytes.
#[derive(Clone, Copy)]
pub(crate) struct Truncate<'a> {
    pub(crate) size: u64,
    pub(crate) image: &'a str,
}

impl fmt::Display for Truncate<'_> {
    fn fmt<W: fmt::Write>(&self, f: &mut fmt::Formatter<W>) -> fmt::Result {
        let (size, image) = (self.size, ShellWord(self.image));
        write!(f, "`truncate -s {size} {image}`")
    }
}

/// The advice for a disk whose table cannot be read.
pub(crate) const SAVE: &str = "copy the disk before anything is written to it";
