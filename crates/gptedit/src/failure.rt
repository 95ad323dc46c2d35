//! Failures of a command.

use gptedit_core::Refusal;
use gptedit_report::{
    ErrorText, FailedText, Message, OUT_OF_MEMORY_JSON, Plain, Reason, RefusalText, Report,
};
use gptman::{Error, GPT};
use std::alloc::{AllocError, AllocFailed, Global};
use std::io::ErrorKind;
use std::{fmt, io};

/// The failure of a command.
#[derive(Drop)]
pub enum Failure {
    /// The command was refused, or the disk or a file failed.
    Refused(Report),
    /// Standard output failed.
    Output(io::Error),
    /// Out of memory.
    OutOfMemory,
}

impl Failure {
    /// Returns the exit status.
    pub fn status(&self) -> u8 {
        match self {
            Failure::Refused(report) => report.reason.status(),
            Failure::Output(_) | Failure::OutOfMemory => 1,
        }
    }

    /// Prints the failure as JSON, unless standard output has failed.
    pub fn print_json<R: Print + AllocGlobal>(&self, rt: &R) {
        match self {
            Failure::Refused(report) => match report.to_json(rt.alloc()) {
                Ok(text) => {
                    let _ = println!(rt; "{text}");
                }
                Err(_) => {
                    let _ = println!(rt; "{OUT_OF_MEMORY_JSON}");
                }
            },
            Failure::OutOfMemory => {
                let _ = println!(rt; "{OUT_OF_MEMORY_JSON}");
            }
            Failure::Output(_) => (),
        }
    }
}

/// The message, without the last newline.
impl fmt::Display for Failure {
    fn fmt<W: fmt::Write>(&self, f: &mut fmt::Formatter<W>) -> fmt::Result {
        match self {
            Failure::Refused(report) => f.write_str(report.message.as_str()),
            Failure::Output(error) => write!(f, "standard output failed: {error}"),
            Failure::OutOfMemory => f.write_str("out of memory"),
        }
    }
}

impl From<io::Error> for Failure {
    fn from(error: io::Error) -> Failure {
        match error.kind() {
            ErrorKind::OutOfMemory => Failure::OutOfMemory,
            _ => Failure::Output(error),
        }
    }
}

impl From<AllocError> for Failure {
    fn from(_error: AllocError) -> Failure {
        Failure::OutOfMemory
    }
}

impl<T: Drop> From<AllocFailed<T>> for Failure {
    fn from(_error: AllocFailed<T>) -> Failure {
        Failure::OutOfMemory
    }
}

/// Returns the failure with a message about `of`, an image or a file.
pub fn refuse<M: Message>(alloc: Global, of: &str, message: &M) -> Failure {
    match Report::new(alloc, of, message) {
        Ok(report) => Failure::Refused(report),
        Err(_) => Failure::OutOfMemory,
    }
}

/// Returns the failure with a fixed text about `of`, an image or a file.
pub fn refuse_plain(alloc: Global, of: &str, reason: Reason, text: &'static str) -> Failure {
    refuse(alloc, of, &Plain { reason, text })
}

/// Returns the failure for an error of a file or of the system, with the text of the error.
pub fn refuse_failed<E: fmt::Display>(
    alloc: Global,
    of: &str,
    reason: Reason,
    error: &E,
) -> Failure {
    refuse(alloc, of, &FailedText { reason, error })
}

/// Returns the failure for an error of the library.
pub fn refuse_error(alloc: Global, image: &str, error: &Error) -> Failure {
    match error {
        Error::OutOfMemory => Failure::OutOfMemory,
        error => refuse(alloc, image, &ErrorText { error, image }),
    }
}

/// Returns the refusal of a requested change of `table`.
pub fn refuse_asked(
    alloc: Global,
    image: &str,
    table: Option<&GPT>,
    sector_size: u64,
    refusal: &Refusal,
) -> Failure {
    let text = RefusalText {
        refusal,
        table,
        sector_size,
        image,
    };
    refuse(alloc, image, &text)
}
