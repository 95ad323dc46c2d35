//! Explains why no partition is selected.

use crate::reason::Reason;
use crate::report::{Commands, Message};
use crate::texts::{GuidText, QuotedText};
use gptedit_core::{NotFound, Target};
use gptedit_values::ShellWord;
use std::alloc::AllocError;
use std::fmt;

/// Message: no partition, or more than one, has the name or GUID; and the remedy. One line, without the last newline.
#[derive(Clone, Copy)]
pub struct NotFoundText<'a> {
    /// Why no partition is selected.
    pub not_found: NotFound,
    /// What would have selected one.
    pub target: Target<'a>,
    /// The path of the image or device, as given by the user.
    pub image: &'a str,
}

impl fmt::Display for NotFoundText<'_> {
    fn fmt<W: fmt::Write>(&self, f: &mut fmt::Formatter<W>) -> fmt::Result {
        let target = TargetText(&self.target);
        match self.not_found {
            NotFound::None => write!(
                f,
                "no partition has the {target}; `gptedit show {}` lists the partitions",
                ShellWord(self.image)
            ),
            NotFound::Several(first, second) => write!(
                f,
                "partitions {first} and {second} both have the {target}; use a number"
            ),
        }
    }
}

impl Message for NotFoundText<'_> {
    fn reason(&self) -> Reason {
        match self.not_found {
            NotFound::None => Reason::NoPartition,
            NotFound::Several(_, _) => Reason::SeveralPartitions,
        }
    }

    fn add_commands(&self, commands: &mut Commands) -> Result<(), AllocError> {
        match self.not_found {
            NotFound::None => commands.add_own("show", self.image),
            NotFound::Several(_, _) => Ok(()),
        }
    }
}

// What selects a partition.
#[derive(Clone, Copy)]
struct TargetText<'a>(&'a Target<'a>);

impl fmt::Display for TargetText<'_> {
    fn fmt<W: fmt::Write>(&self, f: &mut fmt::Formatter<W>) -> fmt::Result {
        match self.0 {
            Target::Number(number) => write!(f, "number {number}"),
            Target::Name(name) => write!(f, "name {}", QuotedText(name)),
            Target::Guid(guid) => write!(f, "GUID {}", GuidText(guid)),
        }
    }
}
