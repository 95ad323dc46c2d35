//! Reads layouts of partition tables from TOML, scripts of `sfdisk` and backups of `sgdisk`, and writes them as TOML.
#![tactic(auto)]

pub mod backup;
mod creation;
pub mod dump;
mod entries;
pub mod error;
pub mod layout;
mod lines;
pub mod script;
pub mod table_header;

pub use backup::{is_backup, read_backup};
pub use dump::{has_whole_text, write_layout};
pub use error::{ErrorList, LayoutError, NotLayout};
use gptedit_core::{Extent, Position, RequestedLayout};
pub use layout::read_layout;
pub use script::{is_script, read_additions, read_script};
pub use table_header::{Form, Header, OtherValue};

/// The maximum length of the text of a layout, in bytes.
pub const MAX_LAYOUT_BYTES: u64 = 64 << 20;

/// A layout that was read, and the header of its table.
#[derive(Drop)]
pub struct Parsed {
    /// The layout.
    pub layout: RequestedLayout,
    /// The values for the header of the table.
    pub header: Header,
    /// The form of the text.
    pub form: Form,
    /// The lines of a script, from 1, that mark a partition as bootable. It gets the attribute `legacy-boot`; `sfdisk`
    /// ignores the mark on a GPT.
    pub bootable: Vec<usize>,
    /// The places of the partitions, in their order, if they have to be measured. The layout then has none.
    pub places: Vec<StatedPlace>,
}

/// The place that is stated for a partition.
#[derive(Clone, Copy)]
pub struct StatedPlace {
    /// Its start, if one is stated.
    pub start: Option<Position>,
    /// How far it extends, if that is stated.
    pub extent: Option<Extent>,
}
