//! The errors of a command line.

ghost use Rattle.std.specs.Prelude.{◌≡◌, false, true, IfErr, OnOk};
ghost use Rattle.gptedit_words.specs.Spelled.{IsOfUsage};
ghost use Rattle.gptedit_words.specs.declared.error.WordsError.TheVariants.{OutOfMemory};

use clap::error::ErrorKind;
use gptedit_values::{Wrong, WrongText};
use std::alloc::{AllocError, AllocFailed};
use std::error::Error;
use std::{fmt, io};

// The message for `set` without a field.
const NOTHING_TO_SET: &str =
    "error: nothing to set; use --name, --type, --guid, --random-guid, --attributes, --number or --disk-guid\n\n\
                              For more information, try '--help'.\n";

/// An error of a command line.
#[derive(Drop, Debug)]
pub enum WordsError<'a> {
    /// The arguments do not fit the command line, or ask for help or the version.
    Usage(clap::Error),
    /// The text is not a valid value of this argument: an option with its hyphens, or the name of a place.
    Value {
        word: &'static str,
        text: &'a str,
        wrong: Wrong,
    },
    /// The text is not a sector size.
    Sector(&'a str),
    /// The text is longer than the name of a partition may be: 36 units of UTF-16.
    LongName(&'a str),
    /// `set` has nothing to set.
    NothingToSet,
    /// Two arguments exclude each other, and both are given.
    Conflict {
        one: &'static str,
        other: &'static str,
    },
    /// The argument is missing. `clap` reports that first, as `Usage`.
    Missing(&'static str),
    /// An allocation failed.
    OutOfMemory,
}

impl WordsError<'_> {
    /// Returns the exit status: 0 for help and the version, 1 if out of memory, else 2.
    pub fn exit_code(&self) -> u8 {
        match self {
            WordsError::Usage(error) if !error.use_stderr() => 0,
            WordsError::OutOfMemory => 1,
            _ => 2,
        }
    }

    /// Prints the message to standard error, or help and the version to standard output.
    pub fn print<R: Print + Eprint>(&self, rt: &R) -> io::Result<()> {
        match self {
            WordsError::Usage(error) => error.print(rt),
            error => rt.eprint(error),
        }
    }
}

/// Refuses two arguments if both are given.
pub(crate) fn refuse_both<'a>(
    are_both: bool,
    one: &'static str,
    other: &'static str,
) -> Result<(), WordsError<'a>>
    ensures lacks { OnOk result (are_both ≡ false) }
    ensures both { IfErr result (λ error. are_both ≡ true) }
{
    if are_both {
        return Err(WordsError::Conflict { one, other });
    }
    Ok(())
}

/// The message for the user, with the last newline.
impl fmt::Display for WordsError<'_> {
    fn fmt<W: fmt::Write>(&self, f: &mut fmt::Formatter<W>) -> fmt::Result {
        match self {
            WordsError::Usage(error) => write!(f, "{error}"),
            WordsError::Value { word, text, wrong } => {
                let wrong = *wrong;
                write_value(f, word, text, WrongText { wrong, text })
            }
            WordsError::Sector(text) => {
                write_value(
                    f,
                    "--sector",
                    text,
                    "it must be 512, 1024, 2048, 4096 or auto",
                )
            }
            WordsError::LongName(text) => {
                write_value(f, "--name", text, "a name has at most 36 units of UTF-16")
            }
            WordsError::NothingToSet => f.write_str(NOTHING_TO_SET),
            WordsError::Conflict { one, other } => {
                write!(
                    f,
                    "error: the argument '{one}' cannot be used with '{other}'\n\n"
                )?;
                f.write_str("For more information, try '--help'.\n")
            }
            WordsError::Missing(word) => writeln!(f, "error: {word} is missing"),
            WordsError::OutOfMemory => f.write_str("error: out of memory\n"),
        }
    }
}

// Writes the message for an invalid value, with what would be valid.
fn write_value<W: fmt::Write>(
    f: &mut fmt::Formatter<W>,
    word: &str,
    text: &str,
    right: impl fmt::Display + Drop,
) -> fmt::Result {
    write!(f, "error: invalid value {text:?} for '{word}': {right}\n\n")?;
    f.write_str("For more information, try '--help'.\n")
}

impl Error for WordsError<'_> {}

impl From<clap::Error> for WordsError<'_> {
    ghost from_gives = { IsOfUsage };

    fn from(error: clap::Error) -> Self {
        match error.kind() {
            ErrorKind::OutOfMemory => WordsError::OutOfMemory,
            _ => WordsError::Usage(error),
        }
    }
}

impl From<AllocError> for WordsError<'_> {
    ghost from_gives = { λ _ error. error ≡ OutOfMemory };

    fn from(_e: AllocError) -> Self {
        WordsError::OutOfMemory
    }
}

impl<T: Drop> From<AllocFailed<T>> for WordsError<'_> {
    ghost from_gives = { λ _ error. error ≡ OutOfMemory };

    fn from(_e: AllocFailed<T>) -> Self {
        WordsError::OutOfMemory
    }
}
