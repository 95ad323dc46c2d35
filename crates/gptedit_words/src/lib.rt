//! Parses the command line of `gptedit`, with `clap`.
//!
//! Sizes, types and GUIDs are parsed too, so a request is complete. No image is opened.
#![tactic(auto)]

mod commands;
mod definition;
mod entries;
pub mod error;
mod line;
pub mod request;
mod unused;
mod values;

pub use definition::command;
pub use error::WordsError;
pub use line::read_words;
pub use request::{Change, Command, CommandLine, ImageRequest, Lock, NewTable, Options, View};
