//! Errors of texts that are not layouts.

mod fault;
mod list;
mod section;

pub use fault::Fault;
use gptedit_values::{Escaped, Wrong};
use gptman::Error;
use gptman::sizes::MAX_ENTRY_COUNT;
pub use list::{ErrorList, NotLayout};
pub use section::Section;
use std::alloc::{AllocError, AllocFailed};
use std::fmt;

/// Why a text is not a layout.
#[derive(Drop, Debug)]
pub enum LayoutError {
    /// It is not TOML. The line and the column count from 1.
    Syntax {
        line: usize,
        column: usize,
        error: toml::de::Error,
    },
    /// It has no key.
    Empty,
    /// The key is unknown.
    Unknown {
        place: TextPlace,
        key: String,
    },
    /// The value under the key is wrong.
    Fault {
        place: TextPlace,
        key: &'static str,
        fault: Fault,
    },
    /// The backup of `sgdisk` has a fault in this part.
    Backup {
        part: BackupPart,
        error: Error,
    },
    /// The backup of `sgdisk` counts this number of entries, more than `MAX_ENTRY_COUNT`.
    ManyEntries(u32),
    /// An allocation failed.
    OutOfMemory,
}

/// A part of a backup of `sgdisk`.
#[derive(Clone, Copy, PartialEq, Eq, Debug)]
pub enum BackupPart {
    /// The header of the primary copy.
    Primary,
    /// The header of the backup copy.
    Backup,
    /// The entries.
    Entries,
}

/// A place in a text.
#[derive(Clone, Copy, PartialEq, Eq, Debug)]
pub struct TextPlace {
    /// The line, from 1, if it is known.
    pub line: Option<usize>,
    /// The section.
    pub section: Section,
}

/// Prints the place, the fault and the rule.
impl fmt::Display for LayoutError {
    fn fmt<W: fmt::Write>(&self, f: &mut fmt::Formatter<W>) -> fmt::Result {
        match self {
            LayoutError::Syntax {
                line,
                column,
                error,
            } => {
                let message = Escaped(error.message());
                write!(f, "line {line}, column {column}: {message}")
            }
            LayoutError::Empty => f.write_str(
                "the layout is empty: it has no key and no header\n\
                 a layout for a table without partitions has [disk], or as a script label: gpt",
            ),
            LayoutError::Unknown { place, key } => write_unknown(f, *place, key.as_str()),
            LayoutError::Fault { place, key, fault } => {
                write_line(f, *place)?;
                let section = place.section;
                write!(f, "{key} of {section}: {fault}")
            }
            LayoutError::Backup { part, error } => {
                let fault = BackupFault(error);
                write!(f, "the file is a backup of sgdisk, but {part}: {fault}")
            }
            LayoutError::ManyEntries(count) => write!(
                f,
                "the file is a backup of sgdisk, but its primary header counts {count} entries\n\
                 gptedit reads at most {MAX_ENTRY_COUNT}; `sgdisk --resize-table=N` changes the number of a table"
            ),
            LayoutError::OutOfMemory => f.write_str("out of memory"),
        }
    }
}

impl fmt::Display for BackupPart {
    fn fmt<W: fmt::Write>(&self, f: &mut fmt::Formatter<W>) -> fmt::Result {
        f.write_str(match self {
            BackupPart::Primary => "its primary header is damaged",
            BackupPart::Backup => "its backup header is damaged",
            BackupPart::Entries => "its entries are damaged",
        })
    }
}

// A fault of a backup, for use within a sentence.
#[derive(Clone, Copy)]
struct BackupFault<'a>(&'a Error);

impl fmt::Display for BackupFault<'_> {
    fn fmt<W: fmt::Write>(&self, f: &mut fmt::Formatter<W>) -> fmt::Result {
        match self.0 {
            Error::Io(_) => f.write_str("the file is too short"),
            Error::InvalidSignature => f.write_str("the signature is wrong"),
            Error::InvalidChecksum(_, _) | Error::InvalidPartitionEntryArrayChecksum(_, _) => {
                f.write_str("the checksum is wrong")
            }
            error => write!(f, "{error}"),
        }
    }
}

fn write_line<W: fmt::Write>(f: &mut fmt::Formatter<W>, place: TextPlace) -> fmt::Result {
    match place.line {
        Some(line) => write!(f, "line {line}: "),
        None => Ok(()),
    }
}

fn write_unknown<W: fmt::Write>(
    f: &mut fmt::Formatter<W>,
    place: TextPlace,
    key: &str,
) -> fmt::Result {
    write_line(f, place)?;
    let section = place.section;
    write!(
        f,
        "\"{}\" is not a key of {section}; the keys are ",
        Escaped(key)
    )?;
    let mut comma = "";
    for known in section.keys() {
        write!(f, "{comma}{known}")?;
        comma = ", ";
    }
    Ok(())
}

impl std::error::Error for LayoutError {}

impl From<AllocError> for LayoutError {
    fn from(_error: AllocError) -> LayoutError {
        LayoutError::OutOfMemory
    }
}

impl<T: Drop> From<AllocFailed<T>> for LayoutError {
    fn from(_error: AllocFailed<T>) -> LayoutError {
        LayoutError::OutOfMemory
    }
}

impl LayoutError {
    /// Returns the line, from 1, if it is known.
    pub fn line(&self) -> Option<usize> {
        match self {
            LayoutError::Syntax { line, .. } => Some(*line),
            LayoutError::Unknown { place, .. } | LayoutError::Fault { place, .. } => place.line,
            LayoutError::Empty
            | LayoutError::Backup { .. }
            | LayoutError::ManyEntries(_)
            | LayoutError::OutOfMemory => None,
        }
    }

    /// Reports whether a word is not a type.
    pub fn is_about_type(&self) -> bool {
        match self {
            LayoutError::Fault { fault, .. } => {
                matches!(fault, Fault::NoType(_) | Fault::Value(Wrong::NoType))
            }
            _ => false,
        }
    }
}

impl TextPlace {
    /// Returns the error for a wrong value under this key.
    pub(crate) fn fault(self, key: &'static str, fault: Fault) -> LayoutError {
        LayoutError::Fault {
            place: self,
            key,
            fault,
        }
    }
}
