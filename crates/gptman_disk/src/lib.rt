//! Disks from which a table is read and to which it is written, and the errors of all calls.
//!
//! `disk` has the trait `Disk` and its implementations: over a file, in memory, with a fuse, with one failing call, and
//! longer than memory. `error` has the errors, with names and numbers. `opening` opens a file or device safely. Nothing
//! here knows about tables.
#![tactic(auto)]

pub mod disk;
pub mod error;
pub mod opening;

pub use disk::Disk;
pub use disk::file::FileDisk;
pub use disk::memory::{Fate, MemoryDisk};
pub use error::{Error, Result};
