//! Explains the errors of the library.

use crate::reason::Reason;
use crate::report::{Commands, Message};
use gptedit_core::Refusal;
use gptedit_values::ShellWord;
use gptman::Error;
use std::alloc::AllocError;
use std::fmt;

/// Message: an error and the remedy. One or two lines, without the last newline.
#[derive(Clone, Copy)]
pub struct ErrorText<'a> {
    /// The error.
    pub error: &'a Error,
    /// The path of the image or device, as given by the user.
    pub image: &'a str,
}

impl fmt::Display for ErrorText<'_> {
    fn fmt<W: fmt::Write>(&self, f: &mut fmt::Formatter<W>) -> fmt::Result {
        match self.error {
            Error::ReadError(primary, backup) => {
                let (primary, backup) = (Meaning(primary), Meaning(backup));
                writeln!(
                    f,
                    "the disk has no good copy of a table; primary: {primary}; backup: {backup}"
                )?;
            }
            error => writeln!(f, "{}", Meaning(error))?,
        }
        let image = ShellWord(self.image);
        match remedy_for(self.error) {
            Remedy::Command(command, does) => write!(f, "`gptedit {command} {image}` {does}"),
            Remedy::Advice(advice) => f.write_str(advice),
        }
    }
}

impl Message for ErrorText<'_> {
    fn reason(&self) -> Reason {
        match self.error {
            Error::OutOfMemory => Reason::OutOfMemory,
            Error::Io(_) => Reason::DeviceFailed,
            Error::InvalidSignature | Error::ReadError(_, _) => Reason::NoTable,
            Error::InvalidPartitionNumber(number) => Reason::Request(Refusal::NoEntry(*number)),
            Error::InvalidRevision
            | Error::InvalidHeaderSize
            | Error::InvalidChecksum(_, _)
            | Error::InvalidPartitionEntryArrayChecksum(_, _)
            | Error::InvalidPartitionEntrySize(_)
            | Error::NoSpaceLeft
            | Error::ConflictPartitionGUID
            | Error::InvalidPartitionBoundaries
            | Error::UnusedPartition
            | Error::PartitionNotFound
            | Error::Overflow => Reason::BadTable,
        }
    }

    fn add_commands(&self, commands: &mut Commands) -> Result<(), AllocError> {
        match remedy_for(self.error) {
            Remedy::Command(command, _) => commands.add_own(command, self.image),
            Remedy::Advice(_) => Ok(()),
        }
    }
}

// What helps after an error.
#[derive(Clone, Copy)]
enum Remedy {
    // A command, and its effect.
    Command(&'static str, &'static str),
    // What to do if no command helps.
    Advice(&'static str),
}

// Returns what helps after an error.
fn remedy_for(error: &Error) -> Remedy {
    match error {
        Error::Io(_) => Remedy::Command("check", "reports the state of the table"),
        Error::InvalidSignature | Error::ReadError(_, _) => Remedy::Advice(
            "if there was a table, copy the disk before anything is written to it; \
             if its sectors have another size, use --sector",
        ),
        Error::InvalidRevision
        | Error::InvalidHeaderSize
        | Error::InvalidChecksum(_, _)
        | Error::InvalidPartitionEntryArrayChecksum(_, _)
        | Error::InvalidPartitionEntrySize(_)
        | Error::ConflictPartitionGUID
        | Error::InvalidPartitionBoundaries => Remedy::Command("check", "reports the faults"),
        Error::NoSpaceLeft => Remedy::Command("free", "lists the free ranges"),
        Error::InvalidPartitionNumber(_) | Error::UnusedPartition | Error::PartitionNotFound => {
            Remedy::Command("show", "lists the partitions")
        }
        Error::Overflow => Remedy::Advice("a longer disk is needed"),
        Error::OutOfMemory => Remedy::Advice("run the command again with more memory"),
    }
}

/// The meaning of an error, for use within a sentence.
#[derive(Clone, Copy)]
pub(crate) struct Meaning<'a>(pub(crate) &'a Error);

impl fmt::Display for Meaning<'_> {
    fn fmt<W: fmt::Write>(&self, f: &mut fmt::Formatter<W>) -> fmt::Result {
        let meaning = match self.0 {
            Error::Io(error) => return write!(f, "the disk failed: {error}"),
            Error::InvalidSignature => "there is no header of a table",
            Error::InvalidRevision => "the revision of the header is not 1.0",
            Error::InvalidHeaderSize => "the header size is not 92 bytes",
            Error::InvalidChecksum(stored, computed) => {
                return write_sums(f, "header", *stored, *computed);
            }
            Error::InvalidPartitionEntryArrayChecksum(stored, computed) => {
                return write_sums(f, "entries", *stored, *computed);
            }
            Error::ReadError(_, _) => "there is no good copy",
            Error::NoSpaceLeft => "no free range is large enough",
            Error::ConflictPartitionGUID => "two partitions have the same GUID",
            Error::InvalidPartitionBoundaries => {
                "partitions overlap, end before they start, or lie outside the usable sectors"
            }
            Error::InvalidPartitionNumber(number) => {
                return write!(f, "entry {number} does not exist");
            }
            Error::UnusedPartition => "the entry is not used",
            Error::PartitionNotFound => "no partition has that sector",
            Error::Overflow => "the disk has too few sectors for two copies of the table",
            Error::OutOfMemory => "out of memory",
            Error::InvalidPartitionEntrySize(size) => {
                return write!(f, "the size of an entry is {size} bytes, not 128");
            }
        };
        f.write_str(meaning)
    }
}

// Writes that a checksum does not match.
fn write_sums<W: fmt::Write>(
    f: &mut fmt::Formatter<W>,
    what: &str,
    stored: u32,
    computed: u32,
) -> fmt::Result {
    write!(
        f,
        "the checksum of the {what} is {computed:08x}, but {stored:08x} is stored"
    )
}
