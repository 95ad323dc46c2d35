//! A header with the largest number of entries, on a disk that has room for them but fails within them. The list grows
//! while entries are read, so it fits in memory.

use crate::memory::Memory;
use crate::verdict::{Verdict, of_answer};
use gptimg_core::run;
use gptman::disk::long::LongDisk;
use gptman::{Error, GPTHeader, Result};
use std::alloc::Global;
use test_fixtures::calls::new_on;
use test_fixtures::tables::{read, write, write_at};
use test_fixtures::words::split;

/// Makes the call of this name, or returns `None` if it is not one of these.
pub fn try_call(name: &str, memory: &mut Memory) -> Option<Result<Verdict>> {
    let alloc = memory.alloc();
    match name {
        "count_read" => Some(read_entries(memory, 0)),
        "large_count_read" => Some(read_entries(memory, BLOCKS)),
        "large_count_table" => Some(read_table(alloc)),
        "large_count_show" => Some(try_command(alloc, "512 show", 0, SHOWN)),
        "large_count_check" => Some(try_command(alloc, "512 check", 1, CHECKED)),
        _ => None,
    }
}

const SHOWN: &str = "sector 512 form backup disk ffffffffffffffffffffffffffffffff \
     usable 34..2147483614 entries 128 align 2048\n";

const CHECKED: &str = "primary fault Io\nbackup ok\nsame no\n";

// The number of blocks of 32 entries that are read before the disk fails.
const BLOCKS: u64 = 100;

// The length of the disk in bytes: 2^31 sectors of 512 bytes.
const LEN: u64 = 1 << 40;

// Writes an empty table, replaces its primary header with one of `u32::MAX` entries, and damages the disk after
// `blocks` blocks, up to the backup copy. Returns that header.
fn write_counting(alloc: Global, disk: &mut LongDisk, blocks: u64) -> Result<GPTHeader> {
    let header = counting(write_empty(alloc, disk)?)?;
    write_at(disk, 512, &header.encode())?;
    disk.damage(
        blocks.saturating_mul(4096).saturating_add(1024),
        LEN - 16_896,
    );
    Ok(header)
}

// Writes an empty table. Returns its header.
fn write_empty(alloc: Global, disk: &mut LongDisk) -> Result<GPTHeader> {
    let mut table = new_on(alloc, disk, 512)?;
    write(&mut table, disk)?;
    Ok(table.header)
}

// Returns the header with `u32::MAX` entries and the right checksum.
fn counting(header: GPTHeader) -> Result<GPTHeader> {
    let mut header = header;
    header.number_of_partition_entries = u32::MAX;
    if header.header_size != 92 {
        return Err(Error::Overflow);
    }
    header.update_crc32_checksum();
    Ok(header)
}

// Reads the entries of that header. The right result is `Io`, however little memory there is.
fn read_entries(memory: &mut Memory, blocks: u64) -> Result<Verdict> {
    let mut disk = LongDisk::new(memory.alloc(), LEN);
    let header = write_counting(memory.alloc(), &mut disk, blocks)?;
    memory.begin();
    let outcome = header.read_partitions(memory.alloc(), &mut disk, 512);
    memory.end();
    match outcome {
        Ok(_) => Ok(Verdict::AnsweredWrongly),
        Err(Error::Io(_)) => Ok(Verdict::Done),
        Err(_) => Ok(Verdict::RefusedWrongly),
    }
}

// Reads the table, which must be that of the backup copy.
fn read_table(alloc: Global) -> Result<Verdict> {
    let mut disk = LongDisk::new(alloc, LEN);
    write_counting(alloc, &mut disk, BLOCKS)?;
    let table = read(alloc, &mut disk, 512)?;
    Ok(of_answer(table.is_backup() && table.iter().count() == 128))
}

// Runs a command, which must return this status and print this text.
fn try_command(alloc: Global, line: &str, status: u8, wanted: &str) -> Result<Verdict> {
    let mut disk = LongDisk::new(alloc, LEN);
    write_counting(alloc, &mut disk, BLOCKS)?;
    let words = split(alloc, line)?;
    let mut printed = Vec::new(alloc);
    let ended = run(alloc, &words, &mut disk, &mut printed)?;
    Ok(of_answer(ended == status && printed.as_slice() == wanted.as_bytes()))
}
