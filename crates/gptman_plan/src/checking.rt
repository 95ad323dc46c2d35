//! Checks both copies of a table, given only the ends of the disk. As for a read, the result holds for every disk with
//! these ends.

ghost use Rattle.std.specs.Prelude.{◌≡◌, ◌≤◌, ◌<◌, ◌+◌, ◌↔◌, length, replicate, IfErr, IfOk, IsTrue, MatchOption};
ghost use Rattle.gptman.specs.Answers.{answer_of};
ghost use Rattle.gptman.specs.Copy.{copy_of_whole};
ghost use Rattle.gptman.specs.Fault.{fault_of, out_of_memory};
ghost use Rattle.gptman_plan.specs.Checking.{number_in, AreCopiesKnown, AreFoundIn, IsLook};
ghost use Rattle.gptman_plan.specs.Ends.{zeroed};
ghost use Rattle.gptman_plan.specs.Reading.{IsLackOf};
ghost use Rattle.gptman_plan.specs.Rounds.{reading_ranges};

use crate::ends::Ends;
use crate::reader::EndsReader;
use crate::reading::{Lack, lack_of_copy};
use crate::records::Check;
use gptman::copy::{WholeCopy, last_sector};
use gptman::{BothCopies, Result};
use std::alloc::Global;

/// The result of a check.
#[derive(Clone, Copy)]
pub enum Look {
    Known(Check),
    Unknown(Lack),
}

/// Checks both places, with the same result for every disk of this size with these ends, or returns a range that is
/// missing. The sector size is in bytes.
///
/// # Errors
///
/// `OutOfMemory` if an allocation fails.
pub fn look_at_both(alloc: Global, ends: &Ends, sector_size: u64) -> Result<Look>
    requires sector { 0 < sector_size }
    ensures look { IfOk result (IsLook ends.now sector_size) }
    ensures refused { IfErr result (λ e. fault_of e ≡ out_of_memory) }
{
    if let Some(lack) = lack_of_copies(ends, sector_size) {
        return Ok(Look::Unknown(lack));
    }
    let copies = find_both(alloc, ends, sector_size)?;
    Ok(Look::Known(check_of(&copies)))
}

// Returns a range of the two copies that the ends do not have.
fn lack_of_copies(ends: &Ends, sector_size: u64) -> Option<Lack>
    requires sector { 0 < sector_size }
    ensures known { MatchOption result (AreCopiesKnown ends.now sector_size)
        (IsLackOf (λ b. reading_ranges b sector_size) ends.now) }
{
    if let Some(lack) = lack_of_copy(ends, sector_size, sector_size) {
        return Some(lack);
    }
    if ends.size < sector_size {
        return None;
    }
    let at = last_sector(ends.size, sector_size);
    lack_of_copy(ends, at, sector_size)
}

// Reads both copies of the disk with zeros between the ends. Fails only with `OutOfMemory`.
fn find_both(alloc: Global, ends: &Ends, sector_size: u64) -> Result<BothCopies>
    requires sector { 0 < sector_size }
    ensures found { IfOk result (AreFoundIn (zeroed ends.now) sector_size) }
    ensures refused { IfErr result (λ e. fault_of e ≡ out_of_memory) }
{
    let mut disk = EndsReader::new(ends);
    gptman::check(alloc, &mut disk, sector_size)
}

// Converts the result for C.
fn check_of(copies: &BothCopies) -> Check
    ensures primary { result.primary_fault ≡ number_in (answer_of copy_of_whole copies.now.primary) }
    ensures backup { result.backup_fault ≡ number_in (answer_of copy_of_whole copies.now.backup) }
    ensures same { IsTrue copies.now.are_same ↔ (result.are_same ≡ 1) }
    ensures flag { result.are_same ≤ 1 }
    ensures reserved { result.reserved ≡ replicate 5 0 }
{
    Check {
        primary_fault: fault_in(&copies.primary),
        backup_fault: fault_in(&copies.backup),
        are_same: u32::from(copies.are_same),
        reserved: [0; 5],
    }
}

// Returns the number of the fault of a copy, or 0.
fn fault_in(copy: &Result<WholeCopy>) -> u32
    ensures { result ≡ number_in (answer_of copy_of_whole copy.now) }
{
    match copy {
        Ok(_) => 0,
        Err(fault) => fault.number(),
    }
}
