//! Reads a table, and plans the steps of a write, given only the first and last bytes of a disk. It is for callers that
//! do the I/O themselves, as those of the library for C. The results hold for every disk with these ends.
//!
//! No state is kept between two calls.
#![tactic(auto)]

pub mod checking;
pub mod dos;
pub mod ends;
pub mod faults;
pub mod fitting;
pub mod layout;
pub mod making;
pub mod naming;
pub mod offers;
pub mod partitions;
pub mod places;
pub mod planning;
pub mod reader;
pub mod reading;
pub mod record;
pub mod recording;
pub mod records;
pub mod rounds;
pub mod storing;
pub mod tables;
