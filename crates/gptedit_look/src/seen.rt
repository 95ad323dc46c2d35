//! The result of an inspection, and the obstacles to a write.

ghost use Rattle.std.specs.Prelude.{◌<◌};

use crate::first_sector::FirstSector;
use crate::marks::Content;
use crate::raw::RawHeader;
use crate::signatures::Signature;
use gptman::{BothCopies, GPT};

/// The result of an inspection.
#[derive(Drop)]
pub struct Look {
    /// The length of the disk in bytes.
    pub size: u64,
    /// The sector size in bytes, as given or detected.
    pub sector_size: u64,
    /// The table of a good copy, of the primary one if both are good.
    pub table: Option<GPT>,
    /// Each copy, or the error of reading it.
    pub copies: BothCopies,
    /// The header in sector 1, valid or not, if it begins with `EFI PART`.
    pub primary_header: Option<RawHeader>,
    /// The header in the last sector, valid or not, if it begins with `EFI PART`.
    pub backup_header: Option<RawHeader>,
    /// The header that begins with `EFI PART` in the sector that a good primary header names as the backup's, if that
    /// is not the last sector.
    pub moved_header: Option<RawHeader>,
    /// The MBR.
    pub first_sector: FirstSector,
    /// The signatures `EFI PART`, for each sector size.
    pub signatures: Vec<Signature>,
    /// The recognised contents.
    pub contents: Vec<Content>,
    /// The footer of an image format at the end.
    pub footer: Option<Content>,
    ghost sized: { 0 < sector_size },
}

/// The outcome of an inspection.
#[derive(Drop)]
pub enum Looked {
    /// The disk was inspected.
    Seen(Look),
    /// A valid header counts this number of entries, more than `MAX_ENTRY_COUNT`.
    TooMany(u32),
}

/// The purpose of a write.
#[derive(Clone, Copy, PartialEq, Eq)]
pub enum Purpose {
    /// To change the table.
    Edit,
    /// To repair a copy.
    Repair,
    /// To fit the table to the length of the disk.
    Fit,
    /// To create a table.
    New,
}

/// The kind of an obstacle.
#[derive(Clone, Copy, PartialEq, Eq)]
pub enum What {
    /// A DOS disk: a boot loader may be in its first sectors.
    DosDisk,
    /// Contents recognised by their bytes.
    Content(&'static str),
    /// The footer of an image format.
    Footer(&'static str),
    /// A header of another sector size, in bytes.
    OtherSectorSize(u64),
    /// Something at the place of new entries; the copy on the disk has its entries elsewhere.
    ElsewhereEntries,
    /// Something after the last usable sector, which is lower than usual.
    AfterLastUsable,
    /// Nonzero bytes at the place of a broken copy.
    BoardCode,
    /// A table.
    Table,
    /// `EFI PART` at the place of a header, without a good copy.
    Header,
    /// A protective MBR.
    ProtectiveMbr,
    /// A sector 0 that ends with 55 AA and is not an MBR.
    BootSector,
    /// Other nonzero bytes.
    Unknown,
}

/// An obstacle to a write.
#[derive(Clone, Copy, PartialEq, Eq)]
pub struct Obstacle {
    /// Its first sector.
    pub first: u64,
    /// Its last sector.
    pub last: u64,
    /// Its kind.
    pub what: What,
}
