//! Pieces of a range of a disk, and the numbers in them.

/// Some bytes of a range, and their start in the range.
#[derive(Drop)]
pub struct Piece {
    at: u64,
    bytes: Vec<u8>,
}

impl Piece {
    /// Returns these bytes, from byte `at` of the range.
    pub fn new(at: u64, bytes: Vec<u8>) -> Piece {
        Piece { at, bytes }
    }

    // Returns the bytes from `at`, which counts from the start of the range.
    fn rest(&self, at: u64) -> Option<&[u8]> {
        let index = at.checked_sub(self.at)?;
        self.bytes.get(index as usize..)
    }

    /// Reports whether `mark` is at `at`.
    pub fn has(&self, at: u64, mark: &[u8]) -> bool {
        match self.rest(at) {
            Some(rest) => rest.starts_with(mark),
            None => false,
        }
    }

    /// Returns the byte at `at`.
    pub fn byte(&self, at: u64) -> Option<u64> {
        let [byte] = self.rest(at)?.first_chunk::<1>()?;
        Some(u64::from(*byte))
    }

    /// Returns the little-endian 16-bit number at `at`.
    pub fn le16(&self, at: u64) -> Option<u64> {
        let bytes = self.rest(at)?.first_chunk::<2>()?;
        Some(u64::from(u16::from_le_bytes(*bytes)))
    }

    /// Returns the little-endian 32-bit number at `at`.
    pub fn le32(&self, at: u64) -> Option<u64> {
        let bytes = self.rest(at)?.first_chunk::<4>()?;
        Some(u64::from(u32::from_le_bytes(*bytes)))
    }

    /// Returns the little-endian 64-bit number at `at`.
    pub fn le64(&self, at: u64) -> Option<u64> {
        let bytes = self.rest(at)?.first_chunk::<8>()?;
        Some(u64::from_le_bytes(*bytes))
    }

    /// Returns the big-endian 16-bit number at `at`.
    pub fn be16(&self, at: u64) -> Option<u64> {
        let bytes = self.rest(at)?.first_chunk::<2>()?;
        Some(u64::from(u16::from_be_bytes(*bytes)))
    }

    /// Returns the big-endian 32-bit number at `at`.
    pub fn be32(&self, at: u64) -> Option<u64> {
        let bytes = self.rest(at)?.first_chunk::<4>()?;
        Some(u64::from(u32::from_be_bytes(*bytes)))
    }

    /// Returns the big-endian 64-bit number at `at`.
    pub fn be64(&self, at: u64) -> Option<u64> {
        let bytes = self.rest(at)?.first_chunk::<8>()?;
        Some(u64::from_be_bytes(*bytes))
    }
}
