//! Places and sizes as a user states them.

ghost use Rattle.std.specs.Prelude.{◌<◌};

use crate::amount::Amount;

/// A number of sectors or bytes, or a share of the usable sectors.
#[derive(Clone, Copy, PartialEq, Eq, Debug)]
pub enum Measure {
    /// Exactly this amount.
    Exactly(Amount),
    /// This many bytes, rounded down to a multiple of the alignment.
    About(u64),
    /// This share of the usable sectors in parts of `WHOLE`, rounded down to a multiple of the alignment.
    Share(u64),
}

/// The share that is all usable sectors.
pub const WHOLE: u64 = 100_000_000;

/// A position on the disk.
#[derive(Clone, Copy, PartialEq, Eq, Debug)]
pub enum Position {
    /// So far after the start of the disk; a share counts from the first usable multiple of the alignment.
    FromStart(Measure),
    /// So far before the end of the usable sectors.
    FromEnd(Measure),
}

/// How far a partition extends.
#[derive(Clone, Copy, PartialEq, Eq, Debug)]
pub enum Extent {
    /// It has this size.
    Size(Measure),
    /// All free sectors from its start on.
    Rest,
    /// It ends before this position, or with this sector if the position is a number of sectors from the start.
    End(Position),
    /// It is longer than before by this.
    More(Measure),
    /// It is shorter than before by this.
    Less(Measure),
}

/// The sectors and the alignment that measures refer to.
#[derive(Clone, Copy, Debug)]
pub struct Scale {
    /// The sector size in bytes.
    pub sector_size: u64,
    /// The alignment in sectors.
    pub align: u64,
    /// The first multiple of the alignment from the first usable sector on.
    pub first: u64,
    /// The last multiple of the alignment up to `end`. If it is not after `first`, a share has no sectors.
    pub last: u64,
    /// The sector after the last usable one.
    pub end: u64,
    ghost sector: { 0 < sector_size },
    ghost aligned: { 0 < align },
}
