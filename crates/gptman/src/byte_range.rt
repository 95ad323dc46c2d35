//! Ranges of bytes on a disk.

ghost use Rattle.std.specs.Prelude.{◌≡◌, ◌≤◌, ◌⊎◌, ◌↔◌, ◌+◌, ◌*◌, IsTrue};

/// A range of bytes. The start is a product of two 64-bit numbers.
#[derive(Clone, Copy, PartialEq, Eq, Debug)]
pub struct ByteRange {
    /// The first byte.
    pub start: u128,
    /// The number of bytes.
    pub length: u64,
}

impl ByteRange {
    /// Returns the `length` bytes from the start of the sector on.
    pub fn at_sector(sector: u64, sector_size: u64, length: u64) -> ByteRange
        // Starts at the first byte of the sector.
        ensures start { result.start ≡ sector * sector_size }
        // Has `length` bytes.
        ensures length { result.length ≡ length }
    {
        ByteRange {
            start: u128::from(sector) * u128::from(sector_size),
            length,
        }
    }

    /// Reports whether the range is empty, or ends within a disk of `size` bytes.
    pub fn is_within(self, size: u64) -> bool
        // True exactly if it is empty, or its end is at most `size`.
        ensures value { IsTrue result ↔ (self.length ≡ 0) ⊎ (self.start + self.length ≤ size) }
    {
        let size = u128::from(size);
        self.length == 0 || self.start <= size && u128::from(self.length) <= size - self.start
    }

    /// Reports whether the ranges do not overlap. An empty range overlaps no other.
    pub fn is_apart(self, other: ByteRange) -> bool
        // True exactly if one is empty, or one ends where the other begins, or before.
        ensures value { IsTrue result ↔ (self.length ≡ 0) ⊎ ((other.length ≡ 0)
            ⊎ ((self.start + self.length ≤ other.start) ⊎ (other.start + other.length ≤ self.start))) }
    {
        self.length == 0 || other.length == 0 || self.is_before(other) || other.is_before(self)
    }

    // Reports whether it ends where the other begins, or before.
    fn is_before(self, other: ByteRange) -> bool
        ensures { IsTrue result ↔ (self.start + self.length ≤ other.start) }
    {
        self.start <= other.start && u128::from(self.length) <= other.start - self.start
    }
}
