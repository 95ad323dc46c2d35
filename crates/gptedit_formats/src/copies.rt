//! Copies of a damaged table: headers and arrays of entries as stored, and their faults.

mod arrays;
mod choice;
mod fault;
mod found;
mod headers;
mod judge;
mod mend;

pub use arrays::{Array, ArraySpan, is_better, is_likely, is_sure, note_array, note_length};
pub use choice::{bare_span, find_best, is_known, keep_one_size, may_be_size};
pub use fault::{EntryFault, Fault};
pub use found::{CopyKind, FoundCopy, FoundEntry, Salvaged, Spot};
pub use headers::{Seen, decode_header};
pub use judge::note_entries;
