//! A disk that may be longer than memory: it stores only what is written to it, and reads zeros elsewhere.

ghost use Rattle.std.specs.Prelude.{◌<◌, ◌^◌};
ghost use Rattle.gptman_disk.specs.File.{file_state, never_honest};

use super::{Disk, passes_end, past_end};
use crate::error::Result;
use std::alloc::Global;
use std::io;

// A write, and its first byte.
#[derive(Drop)]
struct Written {
    at: u64,
    bytes: Vec<u8>,
}

impl Written {
    // Copies the part that overlaps into `bytes`, which begin at byte `at` of the disk.
    fn copy_into(&self, at: u64, bytes: &mut [u8]) {
        let before = self.at.saturating_sub(at) as usize;
        let passed = at.saturating_sub(self.at) as usize;
        let Some(laid) = self.bytes.get(passed..) else {
            return;
        };
        if let Some(under) = bytes.get_mut(before..) {
            let len = laid.len().min(under.len());
            under[..len].copy_from_slice(&laid[..len]);
        }
    }
}

/// A disk of `len` bytes, zero where nothing was written. A write fails on allocation failure; a read fails in the
/// damaged range.
#[derive(Drop)]
pub struct LongDisk {
    alloc: Global,
    len: u64,
    position: u64,
    written: Vec<Written>,
    damage: (u64, u64),
    ghost small: { len < 2 ^ 64 },
}

impl LongDisk {
    /// Returns a disk of `len` zeros.
    pub fn new(alloc: Global, len: u64) -> LongDisk {
        LongDisk {
            alloc,
            len,
            position: 0,
            written: Vec::new(alloc),
            damage: (0, 0),
        }
    }

    /// Makes later reads fail that include a byte of `from..to`.
    pub fn damage(&mut self, from: u64, to: u64) {
        self.damage = (from, to);
    }

    /// Returns all bytes.
    pub fn into_bytes(self) -> Result<Vec<u8>> {
        let mut bytes = vec![in self.alloc; 0; self.len as usize]?;
        fill(&self.written, 0, &mut bytes);
        Ok(bytes)
    }

    // Reports whether the next `len` bytes include a damaged one.
    fn is_damaged(&self, len: u64) -> bool {
        self.position < self.damage.1 && self.damage.0 < self.position.saturating_add(len)
    }
}

// Fills `buf` with the bytes from byte `at`.
fn fill(written: &[Written], at: u64, buf: &mut [u8]) {
    buf.fill(0);
    for write in written {
        write.copy_into(at, buf);
    }
}

// This disk is never honest, and its count of failures is at the maximum from the start.
impl Disk for LongDisk {
    ghost state = { λ d. file_state d.len d.position 18446744073709551615 };

    fn seek_start(&mut self, at: u64) -> io::Result<u64> {
        self.position = at;
        Ok(at)
    }

    fn seek_end(&mut self) -> io::Result<u64> {
        self.position = self.len;
        Ok(self.len)
    }

    fn read_exact(&mut self, buf: &mut [u8]) -> io::Result<()> {
        let len = buf.len() as u64;
        if passes_end(self.len, self.position, len) {
            return Err(past_end());
        }
        if self.is_damaged(len) {
            return Err(io::Error::other("the device failed"));
        }
        fill(&self.written, self.position, buf);
        self.position += len;
        Ok(())
    }

    fn write_all(&mut self, buf: &[u8]) -> io::Result<()> {
        let Ok(bytes) = buf.to_vec(self.alloc) else {
            return Err(io::Error::other("no memory"));
        };
        let at = self.position;
        if self.written.push(Written { at, bytes }).is_err() {
            return Err(io::Error::other("no memory"));
        }
        self.position += buf.len() as u64;
        Ok(())
    }

    fn sync(&mut self) -> io::Result<()> {
        Ok(())
    }

    ghost bounded = { λ d. d.small };

    ghost sound = { λ d honest. absurd (never_honest honest) };
}
