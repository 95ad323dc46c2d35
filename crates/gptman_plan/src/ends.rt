//! The ends of a disk: its first and last bytes, and its length.

ghost use Rattle.std.specs.Prelude.{◌≡◌, ◌≤◌, ◌<◌, ◌+◌, ◌^◌, length, MatchOption};

/// The first and the last bytes of a disk, which do not overlap, and its length in bytes.
#[derive(Clone, Copy)]
pub struct Ends<'a> {
    pub head: &'a [u8],
    pub tail: &'a [u8],
    pub size: u64,
    ghost apart: { length head.now + length tail.now ≤ size },
    ghost small: { size < 2 ^ 64 },
}

impl<'a> Ends<'a> {
    /// Returns the ends of a disk of `size` bytes, or `None` if the two together are longer than the disk.
    pub fn new(head: &'a [u8], tail: &'a [u8], size: u64) -> Option<Self>
        ensures { MatchOption result (size < length head.now + length tail.now)
            (λ ends. (ends.head.now ≡ head.now) × (ends.tail.now ≡ tail.now) × (ends.size ≡ size)) }
    {
        let first = head.len() as u64;
        let last = tail.len() as u64;
        if first > size || last > size - first {
            return None;
        }
        Some(Ends { head, tail, size })
    }
}
