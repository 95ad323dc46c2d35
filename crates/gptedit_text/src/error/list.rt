//! All errors of a text.

ghost use Rattle.gptedit_text.specs.Layouts.{IsKept};

use crate::error::LayoutError;
use crate::lines::with_line;
use std::alloc::{AllocError, Global};
use std::fmt;

// The maximum number of errors that are kept.
const MAX_ERRORS: usize = 20;

/// Why a text is not a layout.
#[derive(Drop, Debug)]
pub enum NotLayout {
    /// It has these errors.
    Errors(ErrorList),
    /// An allocation failed.
    OutOfMemory,
}

impl NotLayout {
    /// Returns the failure for one error.
    pub fn of(alloc: Global, error: LayoutError) -> NotLayout {
        let mut list = ErrorList::new(alloc);
        match list.add(error) {
            Ok(()) => NotLayout::Errors(list),
            Err(_) => NotLayout::OutOfMemory,
        }
    }
}

/// The first 20 errors of a text, and the number of the others.
#[derive(Drop, Debug)]
pub struct ErrorList {
    errors: Vec<LayoutError>,
    more: u64,
}

impl ErrorList {
    /// Returns no errors.
    pub fn new(alloc: Global) -> ErrorList {
        ErrorList {
            errors: Vec::new(alloc),
            more: 0,
        }
    }

    /// Reports whether there are no errors.
    pub fn is_empty(&self) -> bool {
        self.errors.is_empty()
    }

    /// Returns the errors that are kept.
    pub fn errors(&self) -> &[LayoutError] {
        self.errors.as_slice()
    }

    /// Adds an error. Fails with `OutOfMemory` if an allocation fails, or if that is the error.
    pub fn add(&mut self, error: LayoutError) -> Result<(), LayoutError> {
        if matches!(&error, LayoutError::OutOfMemory) {
            return Err(error);
        }
        if self.errors.len() < MAX_ERRORS {
            self.errors.push(error)?;
        } else {
            self.more = self.more.saturating_add(1);
        }
        Ok(())
    }

    /// Returns a value that was read. Adds the error if it is wrong, and returns `None`.
    pub fn keep<T: Drop>(&mut self, read: Result<T, LayoutError>) -> Result<Option<T>, LayoutError>
        ensures kept { IsKept read result }
    {
        match read {
            Ok(value) => Ok(Some(value)),
            Err(error) => {
                self.add(error)?;
                Ok(None)
            }
        }
    }

    /// Returns the errors with their lines in the text, in the order of the lines.
    pub fn with_lines(self, alloc: Global, text: &str) -> Result<ErrorList, AllocError> {
        let ErrorList { errors, more } = self;
        let mut placed = Vec::new(alloc);
        for error in errors {
            placed.push(with_line(error, text))?;
        }
        placed.sort_by_key(|error| error.line().unwrap_or(usize::MAX))?;
        Ok(ErrorList {
            errors: placed,
            more,
        })
    }
}

/// Prints a line for each error, then the number of the others.
impl fmt::Display for ErrorList {
    fn fmt<W: fmt::Write>(&self, f: &mut fmt::Formatter<W>) -> fmt::Result {
        let mut newline = "";
        for error in self.errors.iter() {
            write!(f, "{newline}{error}")?;
            newline = "\n";
        }
        match self.more {
            0 => Ok(()),
            more => write!(f, "\nand {more} more"),
        }
    }
}
