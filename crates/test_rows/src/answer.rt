//! Answers to rows, as text.

use gptman::Error;
use std::alloc::{AllocError, AllocFailed, Global};
use std::fmt;

/// The result of a call.
#[derive(Drop)]
pub(crate) enum Answer {
    Done,
    Truth(bool),
    Number(u64),
    Place(Option<u64>),
    Checksum(u32),
    Slots(Vec<(u64, u64)>),
    Bytes(Vec<u8>),
    Text(String),
}

/// The reason why there is no result.
#[derive(Drop)]
pub(crate) enum Fault {
    /// A word of the row is wrong or missing.
    Row,
    /// A precondition of the call does not hold.
    Requires,
    /// The call returned an error.
    Refused(Error),
}

pub(crate) type Answered = Result<Answer, Fault>;

impl From<Error> for Fault {
    fn from(e: Error) -> Fault {
        Fault::Refused(e)
    }
}

impl From<AllocError> for Fault {
    fn from(_e: AllocError) -> Fault {
        Fault::Refused(Error::OutOfMemory)
    }
}

impl<T: Drop> From<AllocFailed<T>> for Fault {
    fn from(_e: AllocFailed<T>) -> Fault {
        Fault::Refused(Error::OutOfMemory)
    }
}

impl fmt::Display for Answer {
    fn fmt<W: fmt::Write>(&self, f: &mut fmt::Formatter<W>) -> fmt::Result {
        match self {
            Answer::Done => f.write_str("ok"),
            Answer::Truth(true) => f.write_str("yes"),
            Answer::Truth(false) | Answer::Place(None) => f.write_str("no"),
            Answer::Number(number) | Answer::Place(Some(number)) => write!(f, "{number}"),
            Answer::Checksum(sum) => write!(f, "{sum:08x}"),
            Answer::Slots(slots) => write!(f, "{slots:?}"),
            Answer::Bytes(bytes) => {
                for byte in bytes {
                    write!(f, "{byte:02x}")?;
                }
                Ok(())
            }
            Answer::Text(text) => f.write_str(text.as_str()),
        }
    }
}

impl fmt::Display for Fault {
    fn fmt<W: fmt::Write>(&self, f: &mut fmt::Formatter<W>) -> fmt::Result {
        match self {
            Fault::Row => f.write_str("bad row"),
            Fault::Requires => f.write_str("requires"),
            Fault::Refused(error) => name(error, f),
        }
    }
}

/// The name of an error, with its numbers. The system's message of an `Io` is omitted.
#[derive(Clone, Copy)]
pub(crate) struct Named<'a>(pub(crate) &'a Error);

impl fmt::Display for Named<'_> {
    fn fmt<W: fmt::Write>(&self, f: &mut fmt::Formatter<W>) -> fmt::Result {
        name(self.0, f)
    }
}

fn name<W: fmt::Write>(error: &Error, f: &mut fmt::Formatter<W>) -> fmt::Result {
    match error {
        Error::ReadError(primary, backup) => {
            f.write_str("ReadError(")?;
            name_one(primary, f)?;
            f.write_str(", ")?;
            name_one(backup, f)?;
            f.write_str(")")
        }
        _ => name_one(error, f),
    }
}

fn name_one<W: fmt::Write>(error: &Error, f: &mut fmt::Formatter<W>) -> fmt::Result {
    match error {
        Error::Io(_) => f.write_str("Io"),
        _ => write!(f, "{error:?}"),
    }
}

/// Returns the bytes as hex digits.
pub(crate) fn hex_of(alloc: Global, bytes: &[u8]) -> Result<String, Fault> {
    let mut text = String::new(alloc);
    for byte in bytes {
        let digits = format!(in alloc; "{byte:02x}")?;
        text.push_str(digits.as_str())?;
    }
    Ok(text)
}
