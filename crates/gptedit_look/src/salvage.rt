//! Reads what remains of damaged tables: each copy, at each sector size, with its faults.
//!
//! Only reads.

mod arrays;
mod reading;
mod search;

pub use search::salvage;
