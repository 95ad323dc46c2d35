//! A failure of a command, for people and for programs.

use crate::json::print_json;
use crate::members::{Members, list_of_texts};
use crate::reason::{Lift, Reason};
use gptedit_values::Escaped;
use serde_json::Value;
use std::alloc::{AllocError, Global};
use std::fmt;

/// A message about a failure, and its parts for programs.
pub trait Message: fmt::Display {
    /// Returns the reason.
    fn reason(&self) -> Reason;

    /// Returns the option that the message offers to permit the command.
    fn lifted_by(&self) -> Option<Lift> {
        None
    }

    /// Adds the complete command lines that the message names, in its order.
    fn add_commands(&self, _commands: &mut Commands) -> Result<(), AllocError> {
        Ok(())
    }

    /// Adds the errors of a text, in its order.
    fn add_errors(&self, _lines: &mut ErrorLines) -> Result<(), AllocError> {
        Ok(())
    }
}

/// The errors of a text, with their lines.
#[derive(Drop, Debug)]
pub struct ErrorLines {
    alloc: Global,
    list: Vec<ErrorLine>,
}

// An error in a line of a text.
#[derive(Drop, Debug)]
struct ErrorLine {
    line: Option<usize>,
    message: String,
}

impl ErrorLines {
    /// Returns no errors.
    pub fn new(alloc: Global) -> ErrorLines {
        ErrorLines {
            alloc,
            list: Vec::new(alloc),
        }
    }

    /// Adds an error in this line, if that is known.
    pub fn add<E: fmt::Display>(
        &mut self,
        line: Option<usize>,
        error: &E,
    ) -> Result<(), AllocError> {
        let message = format!(in self.alloc; "{error}")?;
        self.list.push(ErrorLine { line, message })?;
        Ok(())
    }

    // Returns the errors as objects.
    fn values(&self) -> Result<Vec<Value>, AllocError> {
        let mut values = Vec::with_capacity(self.alloc, self.list.len())?;
        for error in self.list.iter() {
            let mut members = Members::new(self.alloc);
            match error.line {
                Some(line) => members.put_number("line", line as u64)?,
                None => members.put("line", Value::Null)?,
            }
            members.put_text("message", error.message.as_str())?;
            values.push(members.into_value())?;
        }
        Ok(values)
    }
}

/// Command lines that a message names, each as a list of words.
#[derive(Drop)]
pub struct Commands {
    alloc: Global,
    lines: Vec<Vec<String>>,
}

impl Commands {
    /// Returns no command lines.
    pub fn new(alloc: Global) -> Commands {
        Commands {
            alloc,
            lines: Vec::new(alloc),
        }
    }

    /// Returns the allocator.
    pub fn alloc(&self) -> Global {
        self.alloc
    }

    /// Adds a command line.
    pub fn add(&mut self, words: &[&str]) -> Result<(), AllocError> {
        let mut line = Vec::with_capacity(self.alloc, words.len())?;
        for word in words {
            line.push(format!(in self.alloc; "{word}")?)?;
        }
        self.lines.push(line)?;
        Ok(())
    }

    /// Adds `gptedit COMMAND IMAGE`.
    pub fn add_own(&mut self, command: &str, image: &str) -> Result<(), AllocError> {
        self.add(&["gptedit", command, image])
    }

    /// Adds `gptedit remove --fit IMAGE` with the numbers of partitions.
    pub(crate) fn add_remove(&mut self, image: &str, numbers: &[u32]) -> Result<(), AllocError> {
        let alloc = self.alloc;
        let mut line = Vec::new(alloc);
        for word in ["gptedit", "remove", "--fit", image] {
            line.push(format!(in alloc; "{word}")?)?;
        }
        for number in numbers {
            line.push(format!(in alloc; "{number}")?)?;
        }
        self.lines.push(line)?;
        Ok(())
    }

    /// Adds the command that sets the length of an image to `size` bytes.
    pub(crate) fn add_truncate(&mut self, size: u64, image: &str) -> Result<(), AllocError> {
        let size = format!(in self.alloc; "{size}")?;
        self.add(&["truncate", "-s", size.as_str(), image])
    }

    // Returns the command lines as lists of texts.
    fn values(&self) -> Result<Vec<Value>, AllocError> {
        let mut values = Vec::with_capacity(self.alloc, self.lines.len())?;
        for line in self.lines.iter() {
            values.push(Value::Array(list_of_texts(self.alloc, line)?))?;
        }
        Ok(values)
    }
}

/// Message: a fixed text.
#[derive(Clone, Copy)]
pub struct Plain {
    /// The reason.
    pub reason: Reason,
    /// The text.
    pub text: &'static str,
}

impl fmt::Display for Plain {
    fn fmt<W: fmt::Write>(&self, f: &mut fmt::Formatter<W>) -> fmt::Result {
        f.write_str(self.text)
    }
}

impl Message for Plain {
    fn reason(&self) -> Reason {
        self.reason
    }
}

/// Message: an error of the system or of a file.
#[derive(Clone, Copy)]
pub struct FailedText<'a, E> {
    /// The reason.
    pub reason: Reason,
    /// The error.
    pub error: &'a E,
}

impl<E: fmt::Display> fmt::Display for FailedText<'_, E> {
    fn fmt<W: fmt::Write>(&self, f: &mut fmt::Formatter<W>) -> fmt::Result {
        write!(f, "{}", self.error)
    }
}

impl<E: fmt::Display> Message for FailedText<'_, E> {
    fn reason(&self) -> Reason {
        self.reason
    }
}

/// A failure of a command.
#[derive(Drop)]
pub struct Report {
    /// The reason.
    pub reason: Reason,
    /// The message: the image or file, the reason, and a remedy. Without the last newline.
    pub message: String,
    /// The option that the message offers to permit the command.
    pub lifted_by: Option<Lift>,
    /// The command lines that the message names.
    pub commands: Commands,
    /// The errors of a text.
    pub errors: ErrorLines,
}

impl Report {
    /// Returns the report of a message about `of`, an image or a file.
    pub fn new<M: Message>(alloc: Global, of: &str, message: &M) -> Result<Report, AllocError> {
        let mut commands = Commands::new(alloc);
        message.add_commands(&mut commands)?;
        let mut errors = ErrorLines::new(alloc);
        message.add_errors(&mut errors)?;
        Ok(Report {
            reason: message.reason(),
            message: format!(in alloc; "{}: {message}", Escaped(of))?,
            lifted_by: message.lifted_by(),
            commands,
            errors,
        })
    }

    /// Returns the failure as JSON: `error` with the `code`, the `message`, the option that permits the command
    /// (`lifted_by`) or null, and the command lines that the message names (`mend`), each as a list of words. For a text
    /// that is not a layout also its `errors`, each with its `line`, from 1 or null, and its `message`.
    pub fn to_json(&self, alloc: Global) -> Result<String, AllocError> {
        let mut error = Members::new(alloc);
        error.put_text("code", self.reason.code())?;
        error.put_text("message", self.message.as_str())?;
        match self.lifted_by {
            Some(option) => error.put_text("lifted_by", option.spelling())?,
            None => error.put("lifted_by", Value::Null)?,
        }
        error.put_list("mend", self.commands.values()?)?;
        let errors = self.errors.values()?;
        if !errors.is_empty() {
            error.put_list("errors", errors)?;
        }
        let mut members = Members::new(alloc);
        members.put("error", error.into_value())?;
        print_json(alloc, &members.into_value())
    }
}

/// The JSON of an allocation failure, which is printed without an allocation.
pub const OUT_OF_MEMORY_JSON: &str = "{
  \"error\": {
    \"code\": \"out-of-memory\",
    \"lifted_by\": null,
    \"mend\": [],
    \"message\": \"out of memory\"
  }
}";
