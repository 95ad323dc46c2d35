//! Verdicts on calls.

use gptman::{Error, Result};
use std::io::ErrorKind;

/// The verdict on a call.
#[derive(Clone, Copy)]
pub enum Verdict {
    /// It succeeded with the right result.
    Done,
    /// It failed because of the allocation, and changed nothing that it must keep.
    Refused,
    /// It succeeded with a wrong result.
    AnsweredWrongly,
    /// It failed with another error.
    RefusedWrongly,
    /// It changed something that it must keep.
    Changed,
}

impl Verdict {
    /// Returns the text that is printed.
    pub fn text(&self) -> &'static str {
        match self {
            Verdict::Done => "done",
            Verdict::Refused => "refused",
            Verdict::AnsweredWrongly => "another answer",
            Verdict::RefusedWrongly => "another refusal",
            Verdict::Changed => "something is changed",
        }
    }
}

/// Returns the verdict on a call that succeeded.
pub fn of_answer(is_right: bool) -> Verdict {
    if is_right {
        Verdict::Done
    } else {
        Verdict::AnsweredWrongly
    }
}

/// Returns the verdict on a call that failed. `is_kept` says whether everything is unchanged.
pub fn of_refusal(error: &Error, is_kept: bool) -> Verdict {
    match error {
        Error::OutOfMemory if is_kept => Verdict::Refused,
        Error::OutOfMemory => Verdict::Changed,
        _ => Verdict::RefusedWrongly,
    }
}

/// Returns the verdict on a call that the disk let fail. `is_kept` says whether the disk has a permitted state.
pub fn of_failure(error: &Error, is_kept: bool) -> Verdict {
    match error {
        Error::Io(_) if is_kept => Verdict::Refused,
        Error::Io(_) => Verdict::Changed,
        _ => Verdict::RefusedWrongly,
    }
}

/// Returns the verdict on a call. `is_kept` says whether everything is unchanged if it failed.
pub fn of_call(outcome: &Result<bool>, is_kept: bool) -> Verdict {
    match outcome {
        Ok(is_right) => of_answer(*is_right),
        Err(error) => of_refusal(error, is_kept),
    }
}

/// Returns the verdict on a call that must leave everything unchanged, even if it succeeds.
pub fn of_reader(outcome: &Result<bool>, is_kept: bool) -> Verdict {
    if is_kept {
        of_call(outcome, true)
    } else {
        Verdict::Changed
    }
}

/// Reports whether the disk in memory could not allocate its record.
pub fn is_of_record(error: &Error) -> bool {
    match error {
        Error::Io(error) => error.kind() == ErrorKind::OutOfMemory,
        _ => false,
    }
}
