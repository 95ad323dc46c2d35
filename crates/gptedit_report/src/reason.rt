//! Why a command failed, as codes for programs.

use gptedit_core::{Refusal, Unmeasured};
use gptedit_look::What;

/// Why a command failed.
#[derive(Clone, Copy)]
pub enum Reason {
    /// The disk has no good copy of a table.
    NoTable,
    /// A header counts more entries than are read.
    TooManyEntries,
    /// The library reports a fault of the table.
    BadTable,
    /// The request is refused for this table.
    Request(Refusal),
    /// The stated place cannot be measured.
    Place(Unmeasured),
    /// No partition has this name or GUID.
    NoPartition,
    /// Several partitions have this name or GUID.
    SeveralPartitions,
    /// The field of the partition is not a number below 2^64.
    NoValue,
    /// Data would be overwritten.
    Overwrites(What),
    /// The usable sectors include those of the table itself.
    BoundsOverTable,
    /// Partitions do not fit on a shortened disk.
    CutOff,
    /// A partition would be shorter than its contents.
    ShorterThanContents,
    /// A sector that is not zero would become usable.
    FreesData,
    /// The disk or a partition is in use.
    Busy,
    /// Another program holds a lock.
    Locked,
    /// The system does not open the image.
    NotOpened,
    /// The image is neither a file nor a block device.
    NotADisk,
    /// Another file was put at the path meanwhile.
    Replaced,
    /// The image is in another format than raw.
    NotRaw,
    /// The sector size of a device cannot be read.
    NoSectorSize,
    /// The disk failed.
    DeviceFailed,
    /// The layout cannot be read.
    LayoutNotRead,
    /// The text is not a layout.
    BadLayout,
    /// The header of the layout differs from the table.
    LayoutMismatch,
    /// There is no table that `--backup` could save.
    NoBackup,
    /// The file of `--backup` exists.
    BackupExists,
    /// The file of `--backup` cannot be written.
    BackupFailed,
    /// The system returns no random bytes.
    NoRandomBytes,
    /// Out of memory.
    OutOfMemory,
}

impl Reason {
    /// Returns the code of the reason.
    pub fn code(self) -> &'static str {
        match self {
            Reason::NoTable => "no-table",
            Reason::TooManyEntries => "too-many-entries",
            Reason::BadTable => "bad-table",
            Reason::Request(refusal) => code_of_refusal(refusal),
            Reason::Place(unmeasured) => code_of_place(unmeasured),
            Reason::NoPartition => "no-partition",
            Reason::SeveralPartitions => "several-partitions",
            Reason::NoValue => "no-value",
            Reason::Overwrites(what) => code_of_data(what),
            Reason::BoundsOverTable => "bounds-over-table",
            Reason::CutOff => "cut-off",
            Reason::ShorterThanContents => "shorter-than-contents",
            Reason::FreesData => "frees-data",
            Reason::Busy => "busy",
            Reason::Locked => "locked",
            Reason::NotOpened => "not-opened",
            Reason::NotADisk => "not-a-disk",
            Reason::Replaced => "replaced",
            Reason::NotRaw => "not-raw",
            Reason::NoSectorSize => "no-sector-size",
            Reason::DeviceFailed => "device-failed",
            Reason::LayoutNotRead => "layout-not-read",
            Reason::BadLayout => "bad-layout",
            Reason::LayoutMismatch => "layout-mismatch",
            Reason::NoBackup => "no-backup",
            Reason::BackupExists => "backup-exists",
            Reason::BackupFailed => "backup-failed",
            Reason::NoRandomBytes => "no-random-bytes",
            Reason::OutOfMemory => "out-of-memory",
        }
    }

    /// Returns the exit status: 3 if no table can be read or the disk has a DOS partition table, 4 if it is in use or
    /// locked, 5 if the disk failed, else 1.
    pub fn status(self) -> u8 {
        match self {
            Reason::NoTable | Reason::TooManyEntries | Reason::Overwrites(What::DosDisk) => 3,
            Reason::Busy | Reason::Locked => 4,
            Reason::DeviceFailed => 5,
            _ => 1,
        }
    }
}

// Returns the code of a refused request.
fn code_of_refusal(refusal: Refusal) -> &'static str {
    match refusal {
        Refusal::NoUnusedEntry => "no-unused-entry",
        Refusal::NoEntry(_) => "no-entry",
        Refusal::IsUsed(_) => "is-used",
        Refusal::IsUnused(_) => "is-unused",
        Refusal::Twice(_) => "twice",
        Refusal::NoType(_) => "no-type",
        Refusal::NoSize(_) => "no-size",
        Refusal::NotWhole(_) => "not-whole",
        Refusal::TooLarge(_) => "too-large",
        Refusal::WouldMove(_) => "would-move",
        Refusal::NotAsked(_) => "not-in-layout",
        Refusal::NewRole(_) => "new-role",
        Refusal::NoRoom(_) => "no-room",
        Refusal::NoAlignment => "no-alignment",
        Refusal::NotLaidOut => "not-laid-out",
        Refusal::TooSmall => "too-small",
        Refusal::SharedGuid => "shared-guid",
        Refusal::BadBoundaries => "bad-boundaries",
        Refusal::TooSmallFor(_) => "too-small-for-entries",
        Refusal::OutOfBounds(_) => "out-of-bounds",
        Refusal::NoSafeOrder => "no-safe-order",
    }
}

// Returns the code of a place that cannot be measured.
fn code_of_place(unmeasured: Unmeasured) -> &'static str {
    match unmeasured {
        Unmeasured::NotWhole(amount) => code_of_refusal(Refusal::NotWhole(amount)),
        Unmeasured::NoAlignment => code_of_refusal(Refusal::NoAlignment),
        Unmeasured::NoSize => code_of_refusal(Refusal::NoSize(0)),
        Unmeasured::TooLarge => code_of_refusal(Refusal::TooLarge(0)),
        Unmeasured::NoPartition => code_of_refusal(Refusal::IsUnused(0)),
        Unmeasured::NoStart => "no-start",
        Unmeasured::BeforeStart => "before-start",
    }
}

// Returns the code of data that would be overwritten.
fn code_of_data(what: What) -> &'static str {
    match what {
        What::DosDisk => "dos-table",
        What::Content(_) => "has-contents",
        What::Footer(_) => "has-footer",
        What::OtherSectorSize(_) => "has-other-sector-size",
        What::ElsewhereEntries => "has-data-at-entries",
        What::AfterLastUsable => "has-data-after-last-usable",
        What::BoardCode => "has-data-at-broken-copy",
        What::Table => "has-table",
        What::Header => "has-header",
        What::ProtectiveMbr => "has-protective-mbr",
        What::BootSector => "has-boot-sector",
        What::Unknown => "has-data",
    }
}

/// An option that permits a refused command.
#[derive(Clone, Copy)]
pub enum Lift {
    /// `--overwrite`
    Overwrite,
    /// `--in-use`
    InUse,
    /// `--lock none`
    NoLock,
}

impl Lift {
    /// Returns the option as it is spelled.
    pub fn spelling(self) -> &'static str {
        match self {
            Lift::Overwrite => "--overwrite",
            Lift::InUse => "--in-use",
            Lift::NoLock => "--lock none",
        }
    }
}
