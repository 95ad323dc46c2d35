//! Recognises, by their bytes, contents of a disk and the copies of a damaged table. Reads no disk.
#![tactic(auto)]

pub mod contents;
pub mod copies;
