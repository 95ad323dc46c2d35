//! Messages about the use of a disk.

use gptedit_look::{How, Part, Use};
use gptedit_report::{Lift, Message, Reason};
use gptedit_values::Escaped;
use std::fmt;

/// Message: a part of the disk is in use, and the remedy. Two lines, without the last newline. Hidden characters are
/// escaped.
#[derive(Clone, Copy)]
pub struct UseText<'a>(pub &'a Use);

impl fmt::Display for UseText<'_> {
    fn fmt<W: fmt::Write>(&self, f: &mut fmt::Formatter<W>) -> fmt::Result {
        match self.0.part {
            Part::Whole => f.write_str("the disk ")?,
            Part::Partition(number) => write!(f, "partition {number} ")?,
        }
        write_how(f, &self.0.how)?;
        f.write_str(match &self.0.how {
            How::Mounted(_) | How::Btrfs => "\nunmount it first",
            How::Swap => "\nrun swapoff first",
            How::Held(_) => "\nclose that first",
            How::Unknown(_) => "\nmake sure that it is not in use",
        })?;
        f.write_str(
            "; --in-use writes anyway, but the kernel keeps the old table until it reads it again",
        )
    }
}

impl Message for UseText<'_> {
    fn reason(&self) -> Reason {
        Reason::Busy
    }

    fn lifted_by(&self) -> Option<Lift> {
        Some(Lift::InUse)
    }
}

fn write_how<W: fmt::Write>(f: &mut fmt::Formatter<W>, how: &How) -> fmt::Result {
    match how {
        How::Mounted(at) => write!(f, "is mounted at {}", Escaped(at.as_str())),
        How::Swap => f.write_str("is used as swap space"),
        How::Held(by) => write!(f, "is in use by {}", Escaped(by.as_str())),
        How::Btrfs => f.write_str("is part of a mounted Btrfs file system"),
        How::Unknown(file) => write!(f, "may be in use: {file} cannot be read"),
    }
}
