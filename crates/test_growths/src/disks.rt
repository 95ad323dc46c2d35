//! The disk in memory itself.

use crate::memory::Memory;
use crate::verdict::{Verdict, is_of_record, of_answer, of_call};
use gptman::{Fate, MemoryDisk, Result};
use std::alloc::Global;
use test_fixtures::calls::{has_bytes, holding, stopped, store};
use test_fixtures::tables::write_at;

/// Makes the call of this name, or returns `None` if it is not one of these.
pub fn try_call(name: &str, memory: &mut Memory) -> Option<Result<Verdict>> {
    match name {
        "disk_new" | "disk_with_fuse" | "disk_stop" => Some(make_disk(name, memory)),
        "disk_write" => Some(write_bytes(memory)),
        "disk_sync" => Some(sync_disk(memory)),
        _ => None,
    }
}

fn make_disk(name: &str, memory: &mut Memory) -> Result<Verdict> {
    let bytes = [1, 2, 3, 4].to_vec(memory.alloc())?;
    let disk = written(memory.alloc())?;
    memory.begin();
    let outcome = is_made(name, memory.alloc(), bytes, disk);
    memory.end();
    Ok(of_call(&outcome, true))
}

// Reports whether the disk that is made of these bytes, or left of `disk` by a crash, has the right bytes.
fn is_made(name: &str, alloc: Global, bytes: Vec<u8>, disk: MemoryDisk) -> Result<bool> {
    match name {
        "disk_new" => Ok(holds(&MemoryDisk::new(alloc, bytes)?, [1, 2, 3, 4])),
        "disk_with_fuse" => Ok(holds(&MemoryDisk::with_fuse(alloc, bytes, 1)?, [1, 2, 3, 4])),
        _ => is_left(disk, &[Fate::Garbage(9)], [7, 9, 9, 4]),
    }
}

fn holds(disk: &MemoryDisk, bytes: [u8; 4]) -> bool {
    has_bytes(disk, &bytes)
}

// Reports whether a crash with these fates leaves these bytes.
fn is_left(disk: MemoryDisk, fates: &[Fate], bytes: [u8; 4]) -> Result<bool> {
    Ok(holds(&stopped(disk, fates)?, bytes))
}

// Returns a disk of bytes 1 to 4 with 07 07 written at 0 and synced, then written at 1.
fn written(alloc: Global) -> Result<MemoryDisk> {
    let mut disk = holding(alloc, &[1, 2, 3, 4])?;
    write_at(&mut disk, 0, &[7, 7])?;
    store(&mut disk)?;
    write_at(&mut disk, 1, &[7, 7])?;
    Ok(disk)
}

// One more write is visible and pending, or none is.
fn write_bytes(memory: &mut Memory) -> Result<Verdict> {
    let mut disk = written(memory.alloc())?;
    memory.begin();
    let outcome = write_at(&mut disk, 2, &[7, 7]);
    memory.end();
    let (view, pending) = if outcome.is_ok() {
        ([7, 7, 7, 7], [7, 9, 8, 8])
    } else {
        ([7, 7, 7, 4], [7, 9, 9, 4])
    };
    let is_there = holds(&disk, view);
    let is_pending = is_left(disk, &[Fate::Garbage(9), Fate::Garbage(8)], pending)?;
    Ok(of_record(&outcome, is_there && is_pending))
}

// The pending writes are synced, or are still pending.
fn sync_disk(memory: &mut Memory) -> Result<Verdict> {
    let mut disk = written(memory.alloc())?;
    memory.begin();
    let outcome = store(&mut disk);
    memory.end();
    let left = if outcome.is_ok() {
        [7, 7, 7, 4]
    } else {
        [7, 9, 9, 4]
    };
    let is_so = is_left(disk, &[Fate::Garbage(9)], left)?;
    Ok(of_record(&outcome, is_so))
}

// Returns the verdict on a write or a sync. `is_so` says whether it left the disk in the right state.
fn of_record(outcome: &Result<()>, is_so: bool) -> Verdict {
    match outcome {
        Ok(_) => of_answer(is_so),
        Err(error) if !is_of_record(error) => Verdict::RefusedWrongly,
        Err(_) if is_so => Verdict::Refused,
        Err(_) => Verdict::Changed,
    }
}
