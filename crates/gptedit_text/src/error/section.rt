//! The sections of a text, and their keys.

use std::fmt;

/// A section of a text. Each has its own keys.
#[derive(Clone, Copy, PartialEq, Eq, Debug)]
pub enum Section {
    /// The whole text.
    File,
    /// `[disk]`.
    Disk,
    /// A `[[partition]]`, by its index from 1.
    Partition(usize),
    /// The headers of a script.
    Header,
    /// A line of a script that describes a partition.
    Line,
}

impl Section {
    /// Returns the keys of the section.
    pub fn keys(self) -> &'static [&'static str] {
        match self {
            Section::File => &["disk", "partition"],
            Section::Disk => {
                &[
                    "guid",
                    "align",
                    "sector-size",
                    "entries",
                    "first-usable",
                    "last-usable",
                ]
            }
            Section::Partition(_) => {
                &[
                    "number",
                    "name",
                    "name-utf16",
                    "type",
                    "start",
                    "size",
                    "end",
                    "guid",
                    "attributes",
                ]
            }
            Section::Header => &[
                "label",
                "label-id",
                "device",
                "unit",
                "first-lba",
                "last-lba",
                "table-length",
                "sector-size",
                "grain",
            ],
            Section::Line => { &["start", "size", "type", "uuid", "name", "attrs", "bootable"] }
        }
    }
}

impl fmt::Display for Section {
    fn fmt<W: fmt::Write>(&self, f: &mut fmt::Formatter<W>) -> fmt::Result {
        match self {
            Section::File => f.write_str("the layout"),
            Section::Disk => f.write_str("the disk"),
            Section::Partition(number) => write!(f, "partition {number} of the file"),
            Section::Header => f.write_str("the headers"),
            Section::Line => f.write_str("the partition"),
        }
    }
}
