//! GUID partition tables that survive a crash.
//!
//! `codec`, `crc`, `sizes` and `byte_range` have the bytes of the format, `header` and `copy` one copy of a table, `copies`
//! both, and `table`, `place` and `edit` the table. Disks and errors come from `gptman_disk`.
#![tactic(auto)]

pub mod byte_range;
pub mod cells;
pub mod codec;
pub mod copies;
pub mod copy;
pub mod crc;
pub mod edit;
pub mod header;
pub mod place;
pub mod sizes;
pub mod table;

pub use byte_range::ByteRange;
pub use codec::entry::GPTPartitionEntry;
pub use codec::header::GPTHeader;
pub use codec::name::PartitionName;
pub use copies::{BothCopies, check};
pub use edit::{Edit, Progress};
pub use gptman_disk::{Disk, Error, Fate, FileDisk, MemoryDisk, Result, disk, error, opening};
pub use table::GPT;
pub use table::iter::{Iter, IterMut};
