//! Reads a table, given only the ends of its disk. It reads the disk with zeros between the ends, but only if the
//! result is the same for every disk with these ends.

ghost use Rattle.std.specs.Prelude.{◌≡◌, ◌≤◌, ◌<◌, ◌⊎◌, ◌+◌, length, is_ok, IfErr, IfOk};
ghost use Rattle.std.specs.Prelude.{IfSome, IsErr, MatchOption, Ok};
ghost use Rattle.gptman.specs.Answers.{answer_of, Refuses};
ghost use Rattle.gptman.specs.Copy.{copy_at, header_result};
ghost use Rattle.gptman.specs.Fault.{fault_of, out_of_memory};
ghost use Rattle.gptman.specs.Reading.{reading_of};
ghost use Rattle.gptman.specs.TableReads.{copy_of, IsAsRead};
ghost use Rattle.gptman_plan.specs.Ends.{HaveRange, zeroed};
ghost use Rattle.gptman_plan.specs.Reading.{IsArrayKnown, IsCopyKnown, IsLack, IsLackOf, IsPlace, IsReading};
ghost use Rattle.gptman_plan.specs.Rounds.{copy_ranges, entries_range};

use crate::ends::Ends;
use crate::reader::EndsReader;
use gptman::copy::{last_sector, read_copy};
use gptman::disk::passes_end;
use gptman::{Error, GPT, GPTHeader, Result};
use std::alloc::Global;

/// A range of the disk that neither end has all of.
#[derive(Clone, Copy)]
pub struct Lack {
    pub from: u64,
    pub length: u64,
}

/// The result of a read.
#[derive(Drop)]
pub enum Reading {
    Table { table: GPT, is_backup: bool },
    Fault(Error),
    Lacks(Lack),
}

// The place of the copy that a read selects, or the range that decides it.
#[derive(Clone, Copy)]
enum SelectedPlace {
    At { is_backup: bool },
    Unknown(Lack),
}

/// Reads the table, with the same result for every disk of this size with these ends, or returns a range that is
/// missing. The sector size is in bytes. `OutOfMemory` is not a fault of the disk.
pub fn read(alloc: Global, ends: &Ends, sector_size: u64) -> Reading
    requires sector { 0 < sector_size }
    ensures reading { IsReading ends.now sector_size result }
{
    let is_backup = match find_place(alloc, ends, sector_size) {
        Err(fault) => return Reading::Fault(fault),
        Ok(SelectedPlace::Unknown(lack)) => return Reading::Lacks(lack),
        Ok(SelectedPlace::At { is_backup }) => is_backup,
    };
    match read_table(alloc, ends, sector_size) {
        Err(fault) => Reading::Fault(fault),
        Ok(table) => Reading::Table { table, is_backup },
    }
}

// Finds the place of the copy that a read selects. Fails only with `OutOfMemory`.
fn find_place(alloc: Global, ends: &Ends, sector_size: u64) -> Result<SelectedPlace>
    requires sector { 0 < sector_size }
    ensures place { IfOk result (IsPlace ends.now sector_size) }
    ensures refused { IfErr result (λ e. fault_of e ≡ out_of_memory) }
{
    if let Some(lack) = lack_of_copy(ends, sector_size, sector_size) {
        return Ok(SelectedPlace::Unknown(lack));
    }
    if has_primary(alloc, ends, sector_size)? {
        return Ok(SelectedPlace::At { is_backup: false });
    }
    if ends.size < sector_size {
        return Ok(SelectedPlace::At { is_backup: true });
    }
    let at = last_sector(ends.size, sector_size);
    match lack_of_copy(ends, at, sector_size) {
        Some(lack) => Ok(SelectedPlace::Unknown(lack)),
        None => Ok(SelectedPlace::At { is_backup: true }),
    }
}

// Reads the table of the disk with zeros between the ends.
fn read_table(alloc: Global, ends: &Ends, sector_size: u64) -> Result<GPT>
    requires sector { 0 < sector_size }
    ensures answer { Refuses result out_of_memory
        ⊎ (answer_of copy_of result ≡ reading_of (zeroed ends.now) sector_size) }
    ensures sector { IfOk result (λ g. g.sector_size ≡ sector_size) }
    ensures value { IfOk result IsAsRead }
    ensures align { IfOk result (λ g. 0 < g.align) }
{
    let mut disk = EndsReader::new(ends);
    GPT::read_from(alloc, &mut disk, sector_size)
}

// Reports whether that disk has a good primary copy. Fails only with `OutOfMemory`.
fn has_primary(alloc: Global, ends: &Ends, sector_size: u64) -> Result<bool>
    requires sector { 0 < sector_size }
    ensures answer { IfOk result (λ yes. yes
        ≡ is_ok (copy_at (zeroed ends.now) sector_size sector_size)) }
    ensures refused { IfErr result (λ e. fault_of e ≡ out_of_memory) }
{
    let mut disk = EndsReader::new(ends);
    disk.position = sector_size;
    match read_copy(alloc, &mut disk, sector_size) {
        Ok(_) => Ok(true),
        Err(Error::OutOfMemory) => Err(Error::OutOfMemory),
        Err(_) => Ok(false),
    }
}

/// Returns a range that the ends do not have, of the copy whose header is at this byte.
pub fn lack_of_copy(ends: &Ends, at: u64, sector_size: u64) -> Option<Lack>
    ensures known { MatchOption result (IsCopyKnown ends.now at sector_size)
        (IsLackOf (λ b. copy_ranges b sector_size at) ends.now) }
{
    if passes_end(ends.size, at, 92) {
        return None;
    }
    if let Some(lack) = lack_of(ends, at, 92) {
        return Some(lack);
    }
    let header = header_at(ends, at)?;
    lack_of_entries(&header, ends, sector_size)
}

// Reads the header at this byte of that disk, if it is good.
fn header_at(ends: &Ends, at: u64) -> Option<GPTHeader>
    ensures answer { MatchOption result (IsErr (header_result (zeroed ends.now) at))
        (λ h. header_result (zeroed ends.now) at ≡ Ok h) }
{
    let mut disk = EndsReader::new(ends);
    disk.position = at;
    GPTHeader::read_from(&mut disk).ok()
}

// Returns the range of the entries of this header, if the ends do not have it.
fn lack_of_entries(header: &GPTHeader, ends: &Ends, sector_size: u64) -> Option<Lack>
    ensures known { MatchOption result (IsArrayKnown ends.now sector_size header.now)
        (IsLackOf (λ _. entries_range sector_size (Ok header.now)) ends.now) }
{
    if header.number_of_partition_entries == 0 || header.size_of_partition_entry != 128 {
        return None;
    }
    let start = header.partition_entry_lba.checked_mul(sector_size)?;
    let len = 128 * u64::from(header.number_of_partition_entries);
    if passes_end(ends.size, start, len) {
        return None;
    }
    lack_of(ends, start, len)
}

// Returns the range if neither end has all of it.
pub fn lack_of(ends: &Ends, from: u64, len: u64) -> Option<Lack>
    requires inside { from + len ≤ ends.now.size }
    ensures known { MatchOption result (HaveRange ends.now (from, len))
        (IsLack ends.now) }
    ensures asked { IfSome result (λ lack. (lack.from ≡ from) × (lack.length ≡ len)) }
{
    let first = ends.head.len() as u64;
    let last = ends.tail.len() as u64;
    if from + len <= first || ends.size - last <= from || first + last == ends.size {
        return None;
    }
    Some(Lack { from, length: len })
}
