//! Disks over a file. They keep no record, so the failing allocation is one of the call itself.

use crate::memory::Memory;
use crate::verdict::{Verdict, of_answer, of_refusal};
use gptman::{Error, FileDisk, GPT, GPTHeader, Result};
use std::alloc::{AllocGlobal, Global};
use std::fs;
use std::fs::File;
use std::rt::Files;
use test_fixtures::calls::are_equal;
use test_fixtures::tables::{image_of, new_table, unsorted_table, write};

const PATH: &str = "growths.img";

/// Makes the call of this name, or returns `None` if it is not one of these.
pub fn try_call<R: Files<File = File> + AllocGlobal>(
    files: &R,
    name: &str,
    memory: &mut Memory,
) -> Option<Result<Verdict>> {
    match name {
        "file_open" | "file_open_read" => Some(open_file(files, name, memory)),
        "file_table_write" => Some(write_table(files, memory)),
        _ => None,
    }
}

// Makes a file with an empty table, and returns its bytes.
fn make_file<R: Files<File = File> + AllocGlobal>(files: &R, alloc: Global) -> Result<Vec<u8>> {
    let image = image_of(alloc, &mut new_table(alloc)?)?;
    fs::write(files, PATH, image.as_slice())?;
    Ok(image)
}

// Returns the verdict on opening the file. An allocation failure of the system is `Io`.
fn of_opening<R: Files<File = File> + AllocGlobal>(
    files: &R,
    outcome: &Result<FileDisk>,
) -> Result<Verdict> {
    fs::remove_file(files, PATH)?;
    match outcome {
        Ok(_) => Ok(Verdict::Done),
        Err(Error::Io(_)) => Ok(Verdict::Refused),
        Err(_) => Ok(Verdict::RefusedWrongly),
    }
}

fn open_file<R: Files<File = File> + AllocGlobal>(
    files: &R,
    name: &str,
    memory: &mut Memory,
) -> Result<Verdict> {
    make_file(files, memory.alloc())?;
    memory.begin();
    let outcome = if name == "file_open" {
        open(files)
    } else {
        FileDisk::open_read(files, PATH)
    };
    memory.end();
    of_opening(files, &outcome)
}

fn open<R: Files<File = File> + AllocGlobal>(files: &R) -> Result<FileDisk> {
    FileDisk::open(files, PATH)
}

fn write_table<R: Files<File = File> + AllocGlobal>(
    files: &R,
    memory: &mut Memory,
) -> Result<Verdict> {
    let image = make_file(files, memory.alloc())?;
    let mut table = unsorted_table(memory.alloc())?;
    let outcome = write_to_file(files, memory, &mut table)?;
    let is_file_kept = is_kept(files, &image)?;
    let is_value_kept = are_equal(&table, &unsorted_table(memory.alloc())?);
    Ok(of_write(&outcome, is_file_kept, is_value_kept))
}

fn write_to_file<R: Files<File = File> + AllocGlobal>(
    files: &R,
    memory: &mut Memory,
    table: &mut GPT,
) -> Result<Result<GPTHeader>> {
    let mut disk = open(files)?;
    memory.begin();
    let outcome = write(table, &mut disk);
    memory.end();
    Ok(outcome)
}

// Reports whether the file has these bytes, and removes it.
fn is_kept<R: Files<File = File> + AllocGlobal>(files: &R, image: &[u8]) -> Result<bool> {
    let bytes = fs::read(files, PATH)?;
    fs::remove_file(files, PATH)?;
    Ok(bytes.as_slice() == image)
}

// Returns the verdict on a write of the table, which left the file and the value unchanged or not.
fn of_write(outcome: &Result<GPTHeader>, is_file_kept: bool, is_kept: bool) -> Verdict {
    match outcome {
        Ok(header) => of_answer(header.primary_lba == 99 && !is_file_kept),
        Err(error) => of_refusal(error, is_file_kept && is_kept),
    }
}
