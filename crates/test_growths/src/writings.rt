//! Writes of a table to a disk. The checks before the first write allocate memory, and the disk in memory does for its
//! record.

use crate::held::Held;
use crate::memory::Memory;
use crate::verdict::{Verdict, of_answer, of_failure, of_refusal};
use gptman::{Edit, Error, GPT, GPTHeader, Progress, Result};
use std::alloc::Global;
use test_fixtures::calls::are_equal;
use test_fixtures::samples::new_header;
use test_fixtures::tables::{
    commit, has_entry, have_same_entries, image_of, new_table, unsorted_table, write, write_copy,
};

/// Makes the call of this name, or returns `None` if it is not one of these.
pub fn try_call(name: &str, memory: &mut Memory) -> Option<Result<Verdict>> {
    match name {
        "header_write" => Some(write_header(memory)),
        "table_write" => Some(write_table(memory)),
        "edits_commit" => Some(commit_edits(memory)),
        _ => None,
    }
}

// A table, and a disk that holds an empty one.
#[derive(Drop)]
struct Writing {
    table: GPT,
    held: Held,
}

impl Writing {
    fn new(alloc: Global) -> Result<Writing> {
        let held = Held::new(alloc, image_of(alloc, &mut new_table(alloc)?)?)?;
        let table = unsorted_table(alloc)?;
        Ok(Writing { table, held })
    }

    // Reports whether the disk holds its former table or the one to be written.
    fn holds_a_table(&mut self, alloc: Global) -> Result<bool> {
        let read = self.held.read(alloc)?;
        Ok(is_empty(alloc, &read)? || have_same_entries(&read, &self.table))
    }

    // Returns the verdict on a write that failed.
    fn verdict(&mut self, alloc: Global, error: &Error) -> Result<Verdict> {
        let holds_a_table = self.holds_a_table(alloc)?;
        let is_kept = are_equal(&self.table, &unsorted_table(alloc)?);
        Ok(self.held.verdict(error, is_kept, holds_a_table))
    }

    // Returns the verdict on a write that succeeded.
    fn done(&mut self, alloc: Global) -> Result<Verdict> {
        let read = self.held.read(alloc)?;
        let is_whole = read.is_primary() && have_same_entries(&read, &self.table);
        Ok(of_answer(is_whole && !self.held.has_no_record()))
    }
}

// Reports whether the table has the entries of the former one.
fn is_empty(alloc: Global, table: &GPT) -> Result<bool> {
    Ok(have_same_entries(table, &new_table(alloc)?))
}

fn write_table(memory: &mut Memory) -> Result<Verdict> {
    let mut writing = Writing::new(memory.alloc())?;
    memory.begin();
    let outcome = write(&mut writing.table, &mut writing.held.disk);
    memory.end();
    match &outcome {
        Ok(header) if header.primary_lba == 99 => writing.done(memory.alloc()),
        Ok(_) => Ok(Verdict::AnsweredWrongly),
        Err(error) => writing.verdict(memory.alloc(), error),
    }
}

// Returns a header without entries for 100 sectors of 512 bytes.
fn header_alone(alloc: Global) -> Result<GPTHeader> {
    let mut header = new_header(alloc)?;
    header.number_of_partition_entries = 0;
    Ok(header)
}

fn write_header(memory: &mut Memory) -> Result<Verdict> {
    let mut held = Held::new(memory.alloc(), vec![in memory.alloc(); 0; 51_200]?)?;
    let mut header = header_alone(memory.alloc())?;
    memory.begin();
    let outcome = write_copy(&mut header, &mut held.disk, 512, &[]);
    memory.end();
    let bytes = held.disk.below.bytes();
    let is_there = bytes.get(512..604) == Some(header.encode().as_slice());
    match &outcome {
        Ok(_) => Ok(of_answer(is_there)),
        Err(error) => Ok(held.verdict(error, false, !is_there)),
    }
}

fn commit_edits(memory: &mut Memory) -> Result<Verdict> {
    let mut writing = Writing::new(memory.alloc())?;
    let edits = vec![in memory.alloc(); Edit::SortEntries, Edit::Remove(2)]?;
    memory.begin();
    let progress = commit(&mut writing.table, &mut writing.held.disk, edits);
    memory.end();
    of_progress(memory.alloc(), &mut writing, &progress?)
}

fn of_progress(alloc: Global, writing: &mut Writing, progress: &Progress) -> Result<Verdict> {
    match &progress.fault {
        None if progress.done == 2 && is_after(&writing.table, 2) => writing.done(alloc),
        None => Ok(Verdict::AnsweredWrongly),
        Some(error) => of_stop(alloc, writing, progress.done, error),
    }
}

// Reports whether this is the table after `done` edits.
fn is_after(table: &GPT, done: usize) -> bool {
    match done {
        0 => has_entry(table, 2, "Bar") && has_entry(table, 10, "Baz"),
        1 => has_entry(table, 2, "Baz") && has_entry(table, 3, "Bar"),
        _ => !has_entry(table, 2, "Baz") && has_entry(table, 3, "Bar"),
    }
}

// Returns the verdict on a list of edits that failed after `done` of them. The disk must hold the table after those, or
// the next one if it could not allocate a record; the value may be either.
fn of_stop(alloc: Global, writing: &mut Writing, done: usize, error: &Error) -> Result<Verdict> {
    let next = done.saturating_add(1);
    let read = writing.held.read(alloc)?;
    let is_before = if done == 0 {
        is_empty(alloc, &read)?
    } else {
        is_after(&read, done)
    };
    if writing.held.has_no_record() {
        return Ok(of_failure(error, is_before || is_after(&read, next)));
    }
    let is_value = is_after(&writing.table, done) || is_after(&writing.table, next);
    let is_unwritten = done > 0 || writing.held.is_kept();
    Ok(of_refusal(error, is_before && is_value && is_unwritten))
}
