//! Ranges of sectors.

ghost use Rattle.std.specs.Prelude.{◌≡◌, ◌≤◌, ◌<◌, ◌+◌, ◌^◌};

/// The sectors from `first` to `last`; none, if `last` is before `first`.
#[derive(Clone, Copy, PartialEq, Eq, Debug)]
pub struct SectorRange {
    /// The first sector.
    pub first: u64,
    /// The last sector.
    pub last: u64,
}

/// Consecutive free sectors, at least one.
#[derive(Clone, Copy, Debug)]
pub struct Slot {
    /// The first sector.
    pub start: u64,
    /// The number of sectors.
    pub length: u64,
    ghost some: { 0 < length },
    ghost fits: { start + length ≤ 2 ^ 64 },
}

impl Slot {
    /// Returns `length` sectors from `start` on.
    pub fn of(start: u64, length: u64) -> Slot
        requires some { 0 < length }
        requires fits { start + length ≤ 2 ^ 64 }
        ensures start { result.start ≡ start }
        ensures length { result.length ≡ length }
    {
        Slot { start, length }
    }

    /// Returns the last sector.
    pub fn last(self) -> u64
        ensures { result + 1 ≡ self.start + self.length }
    {
        self.start + (self.length - 1)
    }
}
