//! What tests and measurements share: tables, disks that hold them, and command lines. Preconditions of the library are
//! tested at run time.
#![tactic(auto)]

pub mod calls;
pub mod samples;
pub mod shape;
pub mod tables;
pub mod texts;
pub mod words;
