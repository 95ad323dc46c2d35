//! Reads of a disk that holds a table. None of them writes to it.

use crate::held::Held;
use crate::memory::Memory;
use crate::verdict::{Verdict, of_reader};
use gptman::{Error, GPT, Result};
use std::alloc::Global;
use test_fixtures::calls::{find, is_first, new_of, new_on, read_entry};
use test_fixtures::tables::{
    are_those_of, complement, have_same_entries, image_of, read, unsorted_table,
};

/// Makes the call of this name, or returns `None` if it is not one of these.
pub fn try_call(name: &str, memory: &mut Memory) -> Option<Result<Verdict>> {
    match name {
        "entry_read"
        | "table_new"
        | "table_with_entries"
        | "table_read"
        | "table_find"
        | "partitions_read" => Some(try_on_disk(name, memory, &[])),
        "table_read_backup" | "table_find_backup" => {
            Some(try_on_disk(name, memory, &IN_HEADERS[..1]))
        }
        "table_read_neither" => Some(try_on_disk(name, memory, &IN_HEADERS)),
        _ => None,
    }
}

// The offset of a byte in each header.
const IN_HEADERS: [usize; 2] = [536, 50_712];

// Makes the call on a disk with these bytes complemented.
fn try_on_disk(name: &str, memory: &mut Memory, damaged: &[usize]) -> Result<Verdict> {
    let mut table = unsorted_table(memory.alloc())?;
    let mut image = image_of(memory.alloc(), &mut table)?;
    complement(&mut image, damaged);
    let mut held = Held::new(memory.alloc(), image)?;
    memory.begin();
    let outcome = is_right(name, memory.alloc(), &mut held, &table);
    memory.end();
    Ok(of_reader(&outcome, held.is_kept()))
}

// Reports whether the result is right. The backup copy must not be read if the primary copy is good.
fn is_right(name: &str, alloc: Global, held: &mut Held, table: &GPT) -> Result<bool> {
    match name {
        "entry_read" => is_first_read(alloc, held, table),
        "table_new" => Ok(is_new(&new_on(alloc, &mut held.disk, 512)?, (34, 66), 128)),
        "table_with_entries" => Ok(is_new(&new_of(alloc, &mut held.disk, 56)?, (16, 84), 56)),
        "table_read" => Ok(is_read(&read(alloc, &mut held.disk, 512)?, 1, table)),
        "table_read_backup" => Ok(is_read(&read(alloc, &mut held.disk, 512)?, 99, table)),
        "table_read_neither" => is_neither_read(read(alloc, &mut held.disk, 512)),
        "table_find" => Ok(is_read(&find(alloc, &mut held.disk)?, 1, table)),
        "table_find_backup" => Ok(is_read(&find(alloc, &mut held.disk)?, 99, table)),
        _ => are_all_read(alloc, held, table),
    }
}

fn is_first_read(alloc: Global, held: &mut Held, table: &GPT) -> Result<bool> {
    let entry = read_entry(alloc, &mut held.disk, 1024)?;
    Ok(is_first(&entry, table))
}

// Reports whether this is a new table for 100 sectors of 512 bytes, with these usable sectors and number of entries.
fn is_new(table: &GPT, usable: (u64, u64), count: usize) -> bool {
    let header = &table.header;
    (header.first_usable_lba, header.last_usable_lba) == usable
        && header.backup_lba == 99
        && table.align == 2048
        && table.iter().count() == count
}

// Reports whether this table was read from the copy whose header is in this sector.
fn is_read(read: &GPT, sector: u64, table: &GPT) -> bool {
    read.header.primary_lba == sector && have_same_entries(read, table)
}

fn is_neither_read(outcome: Result<GPT>) -> Result<bool> {
    match outcome {
        Ok(_) => Ok(false),
        Err(error) => {
            if have_wrong_checksums(&error) {
                Ok(true)
            } else {
                Err(error)
            }
        }
    }
}

/// Reports whether the error is that both headers have a wrong checksum.
pub fn have_wrong_checksums(error: &Error) -> bool {
    match error {
        Error::ReadError(primary, backup) => {
            matches!(&**primary, Error::InvalidChecksum(..))
                && matches!(&**backup, Error::InvalidChecksum(..))
        }
        _ => false,
    }
}

fn are_all_read(alloc: Global, held: &mut Held, table: &GPT) -> Result<bool> {
    let entries = table.header.read_partitions(alloc, &mut held.disk, 512)?;
    Ok(are_those_of(&entries, table))
}
