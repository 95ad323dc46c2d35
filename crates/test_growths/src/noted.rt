//! A disk that counts calls.

use gptman::Disk;
use std::io;

/// A disk that passes all calls to the disk below, and counts those that write.
#[derive(Drop)]
pub struct NotedDisk<D> {
    pub below: D,
    /// The number of writes and syncs.
    pub writes: u32,
    /// Whether the disk below could not allocate the record of one.
    pub has_no_memory: bool,
}

// Records a write or a sync with this result.
fn note(writes: &mut u32, has_no_memory: &mut bool, outcome: &io::Result<()>) {
    *writes = writes.saturating_add(1);
    if let Err(error) = outcome {
        *has_no_memory |= error.kind() == io::ErrorKind::OutOfMemory;
    }
}

impl<D: Disk> Disk for NotedDisk<D> {
    ghost state = { λ d. D.state d.below };

    fn seek_start(&mut self, at: u64) -> io::Result<u64> {
        self.below.seek_start(at)
    }

    fn seek_end(&mut self) -> io::Result<u64> {
        self.below.seek_end()
    }

    fn read_exact(&mut self, buf: &mut [u8]) -> io::Result<()> {
        self.below.read_exact(buf)
    }

    fn write_all(&mut self, buf: &[u8]) -> io::Result<()> {
        let outcome = self.below.write_all(buf);
        note(&mut self.writes, &mut self.has_no_memory, &outcome);
        outcome
    }

    fn sync(&mut self) -> io::Result<()> {
        let outcome = self.below.sync();
        note(&mut self.writes, &mut self.has_no_memory, &outcome);
        outcome
    }

    ghost bounded = { λ d. D.bounded d.below };

    ghost sound = { λ d honest. D.sound d.below honest };
}
