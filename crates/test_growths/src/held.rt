//! A disk, and its contents before a call.

use crate::noted::NotedDisk;
use crate::verdict::{Verdict, of_failure, of_refusal};
use gptman::{Error, GPT, MemoryDisk, Result};
use std::alloc::Global;
use test_fixtures::tables::read;

/// A disk in memory, and its former bytes.
#[derive(Drop)]
pub struct Held {
    pub disk: NotedDisk<MemoryDisk>,
    image: Vec<u8>,
}

impl Held {
    /// Returns a disk of these bytes, all of them synced.
    pub fn new(alloc: Global, image: Vec<u8>) -> Result<Held> {
        let below = MemoryDisk::new(alloc, image.to_vec(alloc)?)?;
        let disk = NotedDisk {
            below,
            writes: 0,
            has_no_memory: false,
        };
        Ok(Held { disk, image })
    }

    /// Reports whether the disk has its former bytes and had no call to write or sync, so that nothing is pending.
    pub fn is_kept(&self) -> bool {
        self.disk.writes == 0 && self.disk.below.bytes() == self.image.as_slice()
    }

    /// Reports whether the disk could not allocate a record.
    pub fn has_no_record(&self) -> bool {
        self.disk.has_no_memory
    }

    /// Returns the verdict on a write that failed. If the disk could not allocate a record, the error must be `Io`, and
    /// the disk must hold a table. Otherwise the error must be `OutOfMemory`, before the first write.
    pub fn verdict(&self, error: &Error, is_kept: bool, holds_a_table: bool) -> Verdict {
        if !self.has_no_record() {
            return of_refusal(error, is_kept && self.is_kept());
        }
        of_failure(error, holds_a_table)
    }

    /// Reads the table on the disk.
    pub fn read(&mut self, alloc: Global) -> Result<GPT> {
        read(alloc, &mut self.disk, 512)
    }
}
