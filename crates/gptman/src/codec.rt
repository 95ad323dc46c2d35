//! The records of a GUID partition table as bytes: headers of 92 bytes, entries of 128, names of 36 UTF-16
//! units.
//!
//! This module does no I/O and computes no checksum. Any bytes survive decoding and encoding unchanged, even if
//! a field is invalid.

pub mod entry;
pub mod header;
pub mod name;
