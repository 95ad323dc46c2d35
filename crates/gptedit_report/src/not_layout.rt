//! Explains why a text is not a layout.

use crate::reason::Reason;
use crate::report::{Commands, ErrorLines, Message};
use gptedit_text::ErrorList;
use std::alloc::AllocError;
use std::fmt;

/// Message: the errors of a text that is not a layout, a line for each.
#[derive(Clone, Copy)]
pub struct NotLayoutText<'a>(pub &'a ErrorList);

impl fmt::Display for NotLayoutText<'_> {
    fn fmt<W: fmt::Write>(&self, f: &mut fmt::Formatter<W>) -> fmt::Result {
        write!(f, "{}", self.0)
    }
}

impl Message for NotLayoutText<'_> {
    fn reason(&self) -> Reason {
        Reason::BadLayout
    }

    fn add_commands(&self, commands: &mut Commands) -> Result<(), AllocError> {
        if self.0.errors().iter().any(|error| error.is_about_type()) {
            commands.add(&["gptedit", "types"])?;
        }
        Ok(())
    }

    fn add_errors(&self, lines: &mut ErrorLines) -> Result<(), AllocError> {
        for error in self.0.errors() {
            lines.add(error.line(), error)?;
        }
        Ok(())
    }
}
