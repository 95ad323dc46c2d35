//! Decides what a write of a table may overwrite.

ghost use Rattle.std.specs.Prelude.{◌≡◌, ◌≢◌, ◌↔◌, ◌≤◌, ◌<◌, ◌+◌, ◌-◌, ◌^◌, ◌⊎◌, ℕ, length, slice_index, IfOk, IsSome, IsTrue, MatchOption, OnOk};
ghost use Rattle.gptman.specs.Answers.{HasCause};
ghost use Rattle.gptman.specs.Disk.{IsHonest, Reads};
ghost use Rattle.gptman.specs.Bytes.{part as bytes_at};
ghost use Rattle.gptedit_look.specs.Guard.{IsAllowed, AreFree, IsRefused, MayBeOverwritten};
ghost use Rattle.gptedit_look.specs.Guarded.{AreAllFree, IsNamed, IsRefusedOf, SparesOthers};
ghost use Rattle.gptedit_look.specs.Touched.{EndsWithin, IsTouchedIn};
ghost use Rattle.gptedit_look.specs.declared.first_sector.MbrKind.TheVariants.{Dos};
ghost use Rattle.gptedit_look.specs.declared.seen.Purpose.TheVariants.{New};

use crate::first_sector::MbrKind;
use crate::grounds::is_allowed;
use crate::seen::{Look, Obstacle, Purpose, What};
use crate::touched::{Touched, TouchedCopy, touched_by};
use crate::what::{known_beside, name_of};
use gptman::{Disk, GPT, Result};

// The maximum number of bytes per read.
const BLOCK: u64 = 512;

/// Returns the obstacle to a write of the table `next`, if there is one. `next` is expected to have the stated layout
/// on this disk. Only reads.
///
/// The write may overwrite a byte that is zero, belongs to a good copy, or is at a new place of a copy and in nothing
/// recognised. It may also overwrite a byte of a broken copy, by the good copy's header, outside the usable sectors, if
/// a header of this table is still there, or if this is a repair and nothing recognised contains the byte. A DOS disk
/// is always an obstacle, and anything recognised on the disk is one to a new table.
///
/// # Errors
/// `Io` if the disk fails.
pub fn find_obstacle<D: Disk>(
    disk: &mut D,
    look: &Look,
    purpose: Purpose,
    next: &GPT,
) -> Result<Option<Obstacle>>
    ensures reads { Reads (D.state disk.old) (D.state disk.new) }
    ensures cause { HasCause result (D.state disk.old) (D.state disk.new) }
    ensures dos { look.now.first_sector.kind ≡ Dos → IfOk result IsSome }
    ensures free { IsHonest (D.state disk.old) → IfOk result (λ found. MatchOption found
        (AreAllFree look.now purpose next.now (D.state disk.old).view (D.state disk.old).size)
        (IsNamed look.now purpose next.now (D.state disk.old).view)) }

    // After `None` a write of the table changes only bytes that it may overwrite.
    ensures spares { IsHonest (D.state disk.old) → result ≡ Ok None
        → SparesOthers look.now purpose next.now (D.state disk.old).view }
{
    let known = find_known(look, purpose);
    if known.is_some() {
        return Ok(known);
    }
    let grounds = Grounds {
        look,
        purpose,
        next,
    };
    match find_refused(disk, &grounds)? {
        Some(refused) => Ok(Some(name_of(look, next, refused.at, refused.end))),
        None => Ok(None),
    }
}

// Returns an obstacle wherever it is: a DOS disk, or for a new table anything recognised.
fn find_known(look: &Look, purpose: Purpose) -> Option<Obstacle>
    ensures some { IsSome result → (look.now.first_sector.kind ≡ Dos) ⊎ (purpose ≡ New) }
    ensures dos { look.now.first_sector.kind ≡ Dos → IsSome result }
{
    if look.first_sector.kind == MbrKind::Dos {
        return Some(dos_disk(look));
    }
    match purpose {
        Purpose::New => known_beside(look),
        _ => None,
    }
}

// Returns the sectors of a primary copy, where a boot loader may be.
fn dos_disk(look: &Look) -> Obstacle {
    let last = (look.size / look.sector_size).saturating_sub(1);
    Obstacle {
        first: last.min(1),
        last: last.min(33),
        what: What::DosDisk,
    }
}

/// A planned write, and the inspection before it.
#[derive(Clone, Copy)]
struct Grounds<'a> {
    look: &'a Look,
    purpose: Purpose,
    // The table to write.
    next: &'a GPT,
}

// A byte that a write may not overwrite, and the end of the range that contains it.
#[derive(Clone, Copy)]
struct Refused {
    at: u64,
    end: u64,
}

// Returns the first byte that the write may not overwrite.
fn find_refused<D: Disk>(disk: &mut D, grounds: &Grounds<'_>) -> Result<Option<Refused>>
    ensures reads { Reads (D.state disk.old) (D.state disk.new) }
    ensures cause { HasCause result (D.state disk.old) (D.state disk.new) }
    ensures value { IsHonest (D.state disk.old) → IfOk result (λ found. MatchOption found
        (AreAllFree grounds.now.look.now grounds.now.purpose grounds.now.next.now (D.state disk.old).view
        (D.state disk.old).size)
        (λ refused. IsRefusedOf grounds.now.look.now grounds.now.purpose grounds.now.next.now
        (D.state disk.old).view refused.at)) }
{
    let size = disk.seek_end()?;
    let touched = touched_by(grounds.next, size);
    match find_in_copy(disk, grounds, touched.own)? {
        Some(refused) => Ok(Some(refused)),
        None => find_in_copy(disk, grounds, touched.other),
    }
}

fn find_in_copy<D: Disk>(
    disk: &mut D,
    grounds: &Grounds<'_>,
    copy: TouchedCopy,
) -> Result<Option<Refused>>
    requires { EndsWithin copy (D.state disk.old).size }
    ensures reads { Reads (D.state disk.old) (D.state disk.new) }
    ensures cause { HasCause result (D.state disk.old) (D.state disk.new) }
    ensures value { IsHonest (D.state disk.old) → IfOk result (λ found. MatchOption found
        ((k : ℕ) → IsTouchedIn copy k → MayBeOverwritten grounds.now.look.now grounds.now.purpose
        grounds.now.next.now (D.state disk.old).view k)
        (λ refused. IsTouchedIn copy refused.at × (¬ MayBeOverwritten grounds.now.look.now grounds.now.purpose
        grounds.now.next.now (D.state disk.old).view refused.at))) }
{
    match find_in_range(disk, grounds, copy.header)? {
        Some(refused) => Ok(Some(refused)),
        None => find_in_range(disk, grounds, copy.entries),
    }
}

fn find_in_range<D: Disk>(
    disk: &mut D,
    grounds: &Grounds<'_>,
    range: Touched,
) -> Result<Option<Refused>>
    requires { range.end ≤ (D.state disk.old).size }
    ensures reads { Reads (D.state disk.old) (D.state disk.new) }
    ensures cause { HasCause result (D.state disk.old) (D.state disk.new) }
    ensures value { IsHonest (D.state disk.old) → IfOk result (λ found. MatchOption found
        (AreFree grounds.now.look.now grounds.now.purpose grounds.now.next.now (D.state disk.old).view
        range.start range.end)
        (λ refused. IsRefused grounds.now.look.now grounds.now.purpose grounds.now.next.now
        (D.state disk.old).view range.start range.end refused.at)) }
{
    let mut at = range.start;
    while at < range.end {
        let count = (range.end - at).min(BLOCK);
        match find_in_block(disk, grounds, at, count)? {
            Some(at) => {
                let end = range.end;
                return Ok(Some(Refused { at, end }));
            }
            None => at += count,
        }
    }
    Ok(None)
}

// Returns the first of `count` bytes, at most 512, that the write may not overwrite.
#[tactic(auto, using(crate::proofs::Pieces::block_answer, gptman::proofs::Readers::both_read))]
fn find_in_block<D: Disk>(
    disk: &mut D,
    grounds: &Grounds<'_>,
    at: u64,
    count: u64,
) -> Result<Option<u64>>
    requires few { count ≤ 512 }
    requires room { at + count ≤ (D.state disk.old).size }
    ensures reads { Reads (D.state disk.old) (D.state disk.new) }
    ensures cause { HasCause result (D.state disk.old) (D.state disk.new) }
    ensures value { IsHonest (D.state disk.old) → IfOk result (λ found. MatchOption found
        (AreFree grounds.now.look.now grounds.now.purpose grounds.now.next.now (D.state disk.old).view
        at (at + count))
        (IsRefused grounds.now.look.now grounds.now.purpose grounds.now.next.now (D.state disk.old).view
        at (at + count))) }
{
    let mut bytes = [0; 512];
    let block = &mut bytes[..count as usize];
    read_part(disk, at, count, block)?;
    Ok(find_in_bytes(grounds, block, at))
}

#[tactic(auto, using(gptman::proofs::Readers::both_read, gptman::proofs::Runs::rose_since))]
fn read_part<D: Disk>(disk: &mut D, at: u64, count: u64, part: &mut [u8]) -> Result<()>
    requires room { at + count ≤ (D.state disk.old).size }
    requires count { length part.old ≡ count }
    ensures length { length part.new ≡ count }
    ensures reads { Reads (D.state disk.old) (D.state disk.new) }
    ensures cause { HasCause result (D.state disk.old) (D.state disk.new) }
    ensures value { IsHonest (D.state disk.old)
        → OnOk result (part.new ≡ bytes_at (D.state disk.old).view at count) }
{
    disk.seek_start(at)?;
    disk.read_exact(part)?;
    Ok(())
}

// Returns the first of these bytes, from byte `at` of the disk, that the write may not overwrite.
fn find_in_bytes(grounds: &Grounds<'_>, bytes: &[u8], at: u64) -> Option<u64>
    requires { at + length bytes.now < 2 ^ 64 }
    ensures { MatchOption result
        ((i : ℕ) → i < length bytes.now → (slice_index bytes.now i ≡ 0)
        ⊎ IsAllowed grounds.now.look.now grounds.now.purpose grounds.now.next.now (at + i))
        (λ k. (at ≤ k) × (k < at + length bytes.now) × (slice_index bytes.now (k - at) ≢ 0)
        × (¬ IsAllowed grounds.now.look.now grounds.now.purpose grounds.now.next.now k)) }
{
    if are_zeros(bytes) {
        return None;
    }
    for (i, byte) in bytes.iter().enumerate() {
        let place = at + i as u64;
        if !may_be_overwritten(grounds, *byte, place) {
            return Some(place);
        }
    }
    None
}

// A block of zeros.
static ZEROS: [u8; 512] = [0; 512];

// Reports whether all of these bytes are zero. More than a block of them are not compared.
fn are_zeros(bytes: &[u8]) -> bool
    ensures { IsTrue result → (i : ℕ) → i < length bytes.now → slice_index bytes.now i ≡ 0 }
{
    match ZEROS.get(..bytes.len()) {
        Some(zeros) => bytes == zeros,
        None => false,
    }
}

// Reports whether the write may overwrite this byte, which is at `place`.
fn may_be_overwritten(grounds: &Grounds<'_>, byte: u8, place: u64) -> bool
    ensures { IsTrue result ↔ (byte ≡ 0)
        ⊎ IsAllowed grounds.now.look.now grounds.now.purpose grounds.now.next.now place }
{
    byte == 0 || is_allowed(grounds.look, grounds.purpose, grounds.next, place)
}
