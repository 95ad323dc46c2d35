//! Small callers of the libraries, written as a user would write them. Their contracts are proved from those of public
//! calls, and from laws.
#![tactic(auto)]

#[cfg(test)]
mod disks;
pub mod edits;
pub mod fittings;
pub mod growths;
pub mod images;
pub mod layouts;
pub mod measures;
pub mod refits;
pub mod shapes;
