//! The library for C. It does no I/O: the caller reads the first and last bytes of a disk, and the library returns the
//! table in them or the steps of a write.
//!
//! No state is kept between two calls. Whatever the arguments, a call accesses no memory outside the arrays that it was
//! given.
#![tactic(auto)]

pub mod checking;
pub mod planning;
pub mod reading;
pub mod values;

pub use gptman_plan::records::{Check, Needed, Partition, Step, Table};
