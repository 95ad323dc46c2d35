//! A plain disk in memory.

ghost use Rattle.std.specs.Prelude.{◌<◌, ◌^◌, length};
ghost use Rattle.gptman_disk.specs.File.{file_state, never_honest};

use super::{Disk, passes_end, past_end};
use std::io;

/// A disk over these bytes, without a record of its writes.
#[derive(Drop)]
pub struct PlainDisk {
    bytes: Vec<u8>,
    position: u64,
    ghost small: { length bytes.items < 2 ^ 64 },
}

impl PlainDisk {
    pub fn new(bytes: Vec<u8>) -> PlainDisk {
        PlainDisk { bytes, position: 0 }
    }
}

// This disk is never honest, and its count of failures is at the maximum from the start.
impl Disk for PlainDisk {
    ghost state = { λ d. file_state (length d.bytes.items) d.position 18446744073709551615 };

    fn seek_start(&mut self, at: u64) -> io::Result<u64> {
        self.position = at;
        Ok(at)
    }

    fn seek_end(&mut self) -> io::Result<u64> {
        self.position = self.bytes.len() as u64;
        Ok(self.position)
    }

    fn read_exact(&mut self, buf: &mut [u8]) -> io::Result<()> {
        let (at, len) = (self.position, buf.len());
        if passes_end(self.bytes.len() as u64, at, len as u64) {
            return Err(past_end());
        }
        let start = at as usize;
        buf.copy_from_slice(&self.bytes[start..start + len]);
        self.position += len as u64;
        Ok(())
    }

    fn write_all(&mut self, buf: &[u8]) -> io::Result<()> {
        let (start, len) = (self.position as usize, buf.len());
        self.bytes[start..start + len].copy_from_slice(buf);
        self.position += len as u64;
        Ok(())
    }

    fn sync(&mut self) -> io::Result<()> {
        Ok(())
    }

    ghost bounded = { λ d. d.small };

    ghost sound = { λ d honest. absurd (never_honest honest) };
}
