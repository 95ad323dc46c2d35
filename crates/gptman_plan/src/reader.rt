//! A disk for reading, given only its ends, with zeros between them.

ghost use Rattle.std.specs.Prelude.{◌≡◌, ◌≤◌, ◌<◌, ◌+◌, [], length, get_or, None};
ghost use Rattle.gptman.specs.Bytes.{part};
ghost use Rattle.gptman_plan.specs.Ends.{known_sound, known_state, length-zeroed, torn_ranges, zeroed};

use crate::ends::Ends;
use gptman::Disk;
use gptman::disk::{count_failure, passes_end, past_end};
use std::io;

/// The range of a write that failed.
#[derive(Clone, Copy)]
pub struct Torn {
    pub at: u64,
    pub length: u64,
}

/// A disk for reading, given only its ends. The first write fails and leaves its range torn, and from then on each
/// write and sync fails. As long as it is only read, no call has failed.
#[derive(Drop)]
pub struct EndsReader<'a> {
    pub ends: Ends<'a>,
    pub position: u64,
    // The range of the first write.
    pub torn: Option<Torn>,
    pub failures: u64,
    ghost unfailed: { torn_ranges torn ≡ [] → failures ≡ 0 },
}

impl<'a> EndsReader<'a> {
    /// Returns a disk with these ends.
    pub fn new(ends: &Ends<'a>) -> Self
        ensures ends { result.ends ≡ ends.now }
        ensures position { result.position ≡ 0 }
        ensures torn { result.torn ≡ None }
    {
        EndsReader {
            ends: *ends,
            position: 0,
            torn: None,
            failures: 0,
        }
    }

    // Returns the byte at this position.
    fn byte_at(&self, at: u64) -> u8
        requires { at < self.now.ends.size }
        ensures { result ≡ get_or (zeroed self.now.ends) at 0 }
    {
        let ends = &self.ends;
        let behind = ends.size - ends.tail.len() as u64;
        if at < ends.head.len() as u64 {
            ends.head[at as usize]
        } else if at < behind {
            0
        } else {
            ends.tail[(at - behind) as usize]
        }
    }

    /// Fills `buf` with the bytes from the position.
    pub fn fill(&self, buf: &mut [u8])
        requires { self.now.position + length buf.old ≤ self.now.ends.size }
        ensures { buf.new ≡ part (zeroed self.now.ends) self.now.position (length buf.old) }
    {
        for i in 0..buf.len() {
            buf[i] = self.byte_at(self.position + i as u64);
        }
    }
}

impl<'a> Disk for EndsReader<'a> {
    ghost state = { λ d. known_state (zeroed d.ends) d.torn d.ends.size d.position d.failures };

    fn seek_start(&mut self, at: u64) -> io::Result<u64> {
        self.position = at;
        Ok(at)
    }

    fn seek_end(&mut self) -> io::Result<u64> {
        self.position = self.ends.size;
        Ok(self.ends.size)
    }

    fn read_exact(&mut self, buf: &mut [u8]) -> io::Result<()> {
        if passes_end(self.ends.size, self.position, buf.len() as u64) {
            return Err(past_end());
        }
        self.fill(buf);
        self.position += buf.len() as u64;
        Ok(())
    }

    fn write_all(&mut self, buf: &[u8]) -> io::Result<()> {
        if self.torn.is_none() {
            self.torn = Some(Torn {
                at: self.position,
                length: buf.len() as u64,
            });
        }
        count_failure(&mut self.failures);
        Err(io::Error::other("a write to what is read"))
    }

    fn sync(&mut self) -> io::Result<()> {
        if self.torn.is_none() {
            return Ok(());
        }
        count_failure(&mut self.failures);
        Err(io::Error::other("a sync of what is read"))
    }

    ghost bounded = { λ d. d.ends.small };

    ghost sound = { λ d honest.
        known_sound (zeroed d.ends) d.torn d.ends.size d.position d.failures (length-zeroed d.ends) };
}
