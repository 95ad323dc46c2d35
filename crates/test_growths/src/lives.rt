//! Many calls on one disk in memory: writes and syncs, large writes, and a crash with many fates.

use crate::verdict::{Verdict, of_answer};
use gptman::{Fate, MemoryDisk, Result};
use std::alloc::Global;
use test_fixtures::calls::{has_bytes, stopped, store};
use test_fixtures::samples::disk_of;
use test_fixtures::tables::{write_at, zero_disk};

/// Makes the call of this name, or returns `None` if it is not one of these.
pub fn try_call(name: &str, alloc: Global) -> Option<Result<Verdict>> {
    match name {
        "long_life" => Some(live_long(alloc)),
        "long_record" => Some(stop_with_many_fates(alloc)),
        _ => None,
    }
}

// The length of the disk in bytes.
const LEN: usize = 10_000;

// The number of writes.
const WRITES: usize = 2000;

// Syncs after each write. Then one write of all bytes survives a crash.
fn live_long(alloc: Global) -> Result<Verdict> {
    let mut disk = zero_disk(alloc, LEN)?;
    write_each(&mut disk)?;
    let is_written = is_each_written(&disk);
    let whole = vec![in alloc; 5; LEN]?;
    write_at(&mut disk, 0, &whole)?;
    store(&mut disk)?;
    let is_read = has_bytes(&disk, &whole);
    let left = stopped(disk, &[])?;
    Ok(of_answer(is_written && is_read && has_bytes(&left, &whole)))
}

// Returns the byte that is written at this place.
fn byte_of(at: usize) -> u8 {
    (at % 256) as u8
}

// Writes a byte at each place, and syncs after each.
fn write_each(disk: &mut MemoryDisk) -> Result<()> {
    for at in 0..WRITES {
        write_at(disk, at as u64, &[byte_of(at)])?;
        store(disk)?;
    }
    Ok(())
}

fn is_each_written(disk: &MemoryDisk) -> bool {
    for at in 0..WRITES {
        if disk.bytes().get(at) != Some(&byte_of(at)) {
            return false;
        }
    }
    true
}

// Returns the fate of the write at this place, and the byte that it leaves if 1 was there and 7 was written.
fn fate_of(at: usize) -> (Fate, u8) {
    match at % 3 {
        0 => (Fate::Old, 1),
        1 => (Fate::New, 7),
        _ => (Fate::Garbage(9), 9),
    }
}

// Never syncs. Each write has its own place and fate.
fn stop_with_many_fates(alloc: Global) -> Result<Verdict> {
    let mut disk = disk_of(alloc, 1, LEN)?;
    for at in 0..WRITES {
        write_at(&mut disk, at as u64, &[7])?;
    }
    Ok(of_answer(is_each_left(&stopped(disk, &fates())?)))
}

fn fates() -> [Fate; WRITES] {
    let mut fates = [Fate::Old; WRITES];
    for at in 0..WRITES {
        fates[at] = fate_of(at).0;
    }
    fates
}

// Reports whether each place has the byte that its fate leaves, and the next place its former byte.
fn is_each_left(disk: &MemoryDisk) -> bool {
    for at in 0..WRITES {
        if disk.bytes().get(at) != Some(&fate_of(at).1) {
            return false;
        }
    }
    disk.bytes().get(WRITES) == Some(&1)
}
