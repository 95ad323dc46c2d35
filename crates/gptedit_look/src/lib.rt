//! Inspects a disk before anything is written to it: both copies of the table, their raw headers, the MBR, and
//! recognised contents. From this one inspection `find_obstacle` decides what a write may overwrite, and
//! `Users::find_harm` decides which uses of the disk permit it. `salvage` reads what remains of damaged copies.
//!
//! Only `mend_mbr`, `clear_signatures` and `wipe` write.
#![tactic(auto)]

pub mod blocks;
pub mod bytes;
pub mod clearing;
pub mod first_sector;
pub mod grounds;
pub mod guard;
pub mod marks;
pub mod mending;
pub mod protective;
pub mod raw;
pub mod salvage;
pub mod seeing;
pub mod seen;
pub mod signatures;
pub mod touched;
pub mod uses;
pub mod what;
pub mod zeros;

pub use clearing::{clear_signatures, wipe};
pub use first_sector::{FirstSector, Listed, MbrKind};
pub use guard::find_obstacle;
pub use marks::{Content, find_contents, find_format};
pub use mending::{MbrChange, mend_mbr};
pub use raw::RawHeader;
pub use seeing::look;
pub use seen::{Look, Looked, Obstacle, Purpose, What};
pub use signatures::{HeaderPlace, Signature};
pub use uses::{How, Part, Use, Users, is_harmless};
