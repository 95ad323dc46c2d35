//! A disk with one failing call.

ghost use Rattle.std.specs.Prelude.{◌≡◌};
ghost use Rattle.gptman_disk.specs.Disk.{IsCountedOnce};
ghost use Rattle.gptman_disk.specs.Memory.{memory_sound};
ghost use Rattle.gptman_disk.specs.Faulty.{faulty_sound, faulty_state};

use super::memory::MemoryDisk;
use super::{Disk, passes_end};
use crate::error::Result;
use std::alloc::Global;
use std::io;

/// A disk that passes its calls on to a disk in memory, except one chosen call, which fails. A chosen write is still
/// passed on, so its bytes are written; no other chosen call is. A read past the end fails in the disk below, and is
/// not counted as a failure.
#[derive(Drop)]
pub struct FaultyDisk {
    below: MemoryDisk,
    position: u64,
    // The number of calls before the one that fails; `None` after that call, or if none fails.
    calls_left: Option<u64>,
    failures: u64,
    ghost is_positioned: { position ≡ (⟦<MemoryDisk as Disk>⟧.state below).position },
}

impl FaultyDisk {
    /// Returns a disk over `below`, whose position must be 0. The call with number `failing`, counted from 0, fails;
    /// with `None` no call is chosen to fail.
    pub fn new(below: MemoryDisk, failing: Option<u64>) -> FaultyDisk
        requires { (⟦<MemoryDisk as Disk>⟧.state below).position ≡ 0 }
    {
        FaultyDisk {
            below,
            position: 0,
            calls_left: failing,
            failures: 0,
        }
    }

    /// Returns the number of calls before the one that fails, or `None` after that call.
    pub fn calls_left(&self) -> Option<u64> {
        self.calls_left
    }

    /// Returns the bytes that a read returns.
    pub fn bytes(&self) -> &[u8] {
        self.below.bytes()
    }

    /// Returns the disk below, with all that was passed on to it.
    pub fn into_inner(self) -> MemoryDisk {
        self.below
    }
}

// Counts the call, and reports whether it is the one that fails.
fn is_chosen(calls_left: &mut Option<u64>) -> bool {
    match *calls_left {
        None => false,
        Some(0) => {
            *calls_left = None;
            true
        }
        Some(calls) => {
            *calls_left = Some(calls - 1);
            false
        }
    }
}

// Counts the failure, and returns its error.
fn fail(failures: &mut u64) -> io::Error
    ensures once { IsCountedOnce failures.old failures.new }
{
    *failures = failures.saturating_add(1);
    io::Error::other("the call was chosen to fail")
}

impl Disk for FaultyDisk {
    ghost state = { λ d. faulty_state (⟦<MemoryDisk as Disk>⟧.state d.below) d.failures };

    fn seek_start(&mut self, at: u64) -> io::Result<u64> {
        if is_chosen(&mut self.calls_left) {
            return Err(fail(&mut self.failures));
        }
        self.position = self.below.seek_start(at)?;
        Ok(self.position)
    }

    fn seek_end(&mut self) -> io::Result<u64> {
        if is_chosen(&mut self.calls_left) {
            return Err(fail(&mut self.failures));
        }
        self.position = self.below.seek_end()?;
        Ok(self.position)
    }

    fn read_exact(&mut self, buf: &mut [u8]) -> io::Result<()> {
        let is_chosen = is_chosen(&mut self.calls_left);
        let size = self.below.bytes().len() as u64;
        let len = buf.len() as u64;
        if is_chosen && !passes_end(size, self.position, len) {
            return Err(fail(&mut self.failures));
        }
        self.below.read_exact(buf)?;
        self.position += len;
        Ok(())
    }

    fn write_all(&mut self, buf: &[u8]) -> io::Result<()> {
        let is_chosen = is_chosen(&mut self.calls_left);
        self.below.write_all(buf)?;
        self.position += buf.len() as u64;
        if is_chosen {
            return Err(fail(&mut self.failures));
        }
        Ok(())
    }

    fn sync(&mut self) -> io::Result<()> {
        if is_chosen(&mut self.calls_left) {
            return Err(fail(&mut self.failures));
        }
        self.below.sync()
    }

    ghost bounded = { λ d. d.below.small };

    ghost sound = { λ d honest. faulty_sound (⟦<MemoryDisk as Disk>⟧.state d.below) d.failures
        (memory_sound d.below.start.items d.below.bytes.items d.below.events.items d.below.position
        d.below.failures d.below.replays) };
}

/// Returns a disk of these bytes, in which the call with number `call`, counted from 0, fails.
///
/// # Errors
///
/// `OutOfMemory` if the copies of the bytes cannot be allocated.
pub fn failing_once(alloc: Global, bytes: &[u8], call: u64) -> Result<FaultyDisk> {
    let below = MemoryDisk::new(alloc, bytes.to_vec(alloc)?)?;
    Ok(FaultyDisk::new(below, Some(call)))
}
