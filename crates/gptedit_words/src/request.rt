//! The requests of a command line.

use gptedit_core::{Amount, Extent, NewGuid, Position, RequestedLayout, Setting, Target};
use gptedit_values::Field;

/// The request of a command line.
#[derive(Drop)]
pub enum CommandLine<'a> {
    /// Lists the types that have names.
    Types {
        /// Whether to print JSON.
        is_json: bool,
    },
    /// Runs a command on an image.
    Image(ImageRequest<'a>),
}

/// A command and its image.
#[derive(Drop)]
pub struct ImageRequest<'a> {
    /// The path of a disk image or a block device.
    pub image: &'a str,
    /// The sector size in bytes, above 0; `None` to detect it.
    pub sector_size: Option<u64>,
    /// Whether to print JSON.
    pub is_json: bool,
    /// The command.
    pub command: Command<'a>,
}

/// The command.
#[derive(Drop)]
pub enum Command<'a> {
    /// Prints the table or a part of it.
    Show {
        /// What is printed.
        view: View<'a>,
    },
    /// Checks both copies of the table.
    Check,
    /// Prints the free ranges.
    Free {
        /// The alignment of their starts.
        align: Option<Amount>,
    },
    /// Prints the table as a layout.
    Dump {
        /// Whether the layout is a script of sfdisk.
        is_script: bool,
    },
    /// Prints what can be read of a damaged table, as a layout.
    Salvage,
    /// Writes a table.
    Write {
        /// The change.
        change: Change<'a>,
        /// How to write it.
        options: Options<'a>,
    },
}

/// What `show` prints.
#[derive(Clone, Copy)]
pub enum View<'a> {
    /// The table.
    Table,
    /// The table and a map of the disk.
    Map,
    /// The table in at most 80 columns.
    Short,
    /// The fields of a partition.
    Partition(Target<'a>),
    /// One field of a partition.
    Field(Target<'a>, Field),
}

/// The options of a change.
#[derive(Clone, Copy, PartialEq, Eq)]
pub struct Options<'a> {
    /// Whether the table is first fitted to the length of the disk, in the same write.
    pub is_fitted: bool,
    /// Whether to print the change without writing it.
    pub is_dry: bool,
    /// Whether contents that would be lost may be overwritten.
    pub may_overwrite: bool,
    /// Whether to write to a device that is in use.
    pub may_use: bool,
    /// The action if another program holds the lock.
    pub lock: Lock,
    /// The path of the file to which a dump is written first.
    pub backup: Option<&'a str>,
}

/// The action if another program holds the lock on the image.
#[derive(Clone, Copy, PartialEq, Eq)]
pub enum Lock {
    /// Waits for it.
    Wait,
    /// Refuses the change.
    Fail,
    /// Takes no lock.
    None,
}

/// The values of a new table.
#[derive(Clone, Copy)]
pub struct NewTable {
    /// The disk GUID; random if `None`.
    pub guid: Option<[u8; 16]>,
    /// The number of entries, above 0; the default if `None`.
    pub entries: Option<u32>,
}

/// A change of the table.
#[derive(Drop)]
pub enum Change<'a> {
    /// Writes a new table and a protective MBR.
    New(NewTable),
    /// Adds the entry that this layout requests.
    Add {
        /// The layout, which requests one entry without a place.
        layout: RequestedLayout,
        /// Its start; chosen if `None`.
        start: Option<Position>,
        /// How far it extends.
        extent: Extent,
    },
    /// Adds a partition for each line of a script.
    AddScript {
        /// The path of the script; `-` is standard input.
        file: &'a str,
    },
    /// Changes a partition.
    Set {
        /// The partition.
        target: Target<'a>,
        /// The change.
        setting: Setting,
    },
    /// Sets the GUID of the disk.
    SetDisk(NewGuid),
    /// Moves the end of a partition.
    Resize {
        /// The partition.
        target: Target<'a>,
        /// How far it is to extend.
        extent: Extent,
    },
    /// Removes partitions.
    Remove(Vec<Target<'a>>),
    /// Numbers the partitions in the order of their starts.
    Sort,
    /// Fits the table to the length of the image.
    Grow {
        /// The partition, if any, that is then extended over all that is free after it.
        target: Option<Target<'a>>,
        /// Whether to set random GUIDs.
        has_random_guids: bool,
    },
    /// Writes the table again from the good copy.
    Repair {
        /// Whether to set the first and last usable sectors to those of the usual layout.
        has_usual_bounds: bool,
    },
    /// Sets random GUIDs.
    Randomize,
    /// Writes the table that a layout describes.
    Apply {
        /// The path of the layout; `-` is standard input.
        file: &'a str,
        /// Whether partitions that the layout omits or moves may be lost.
        is_replacing: bool,
        /// Whether to create the table if there is none.
        is_creating: bool,
    },
    /// Erases both copies and the protective MBR.
    Wipe,
}
