//! The MBR as part of a change of the table.

ghost use Rattle.std.specs.Prelude.{◌≡◌, ◌≤◌, ◌<◌, ◌^◌, ◌+◌, ◌*◌, [], ◌∷◌, ℕ, false, length, IfOk, IsTrue, OnOk};
ghost use Rattle.byteorder.specs.Endian.{little_bytes};
ghost use Rattle.gptman.specs.Answers.{HasCause};
ghost use Rattle.gptman.specs.Disk.{overlay, IsHonest, Keeps, Reads, Writes};
ghost use Rattle.gptman.specs.Mbr.{mbr_range, IsMbrStored};
ghost use Rattle.gptedit_look.specs.FirstSector.{IsMarked, IsVacant};
ghost use Rattle.gptedit_look.specs.Mended.{change_of, first_bytes, HasPlace, IsChange, IsDone, IsForeign, IsInNeed, IsPlan, IsSet};
ghost use Rattle.gptedit_look.specs.Protective.{IsMisfit};
ghost use Rattle.gptedit_look.specs.declared.mending.MbrChange.TheVariants.{Mended};
ghost use Rattle.gptedit_look.specs.declared.mending.Plan.TheVariants.{Leave};

use crate::blocks::byte_at;
use crate::first_sector::is_empty;
use crate::protective::{Misfit, find_misfit};
use gptman::cells::{put, put_u32};
use gptman::{Disk, GPT, Result};

// The first byte of the entries on the disk.
const MBR_START: u64 = 446;

// The byte after an MBR.
const MBR_END: u64 = 512;

// The offset of the first entry.
const ENTRIES: usize = 446;

// The size of an entry in bytes.
const ENTRY_SIZE: usize = 16;

// The CHS address for an end that CHS cannot express.
const LAST_END: [u8; 3] = [0xff; 3];

/// The change made to the MBR.
#[derive(Clone, Copy, PartialEq, Eq)]
pub enum MbrChange {
    /// It is unchanged.
    Left,
    /// The start, the length and the end of its protective entry were corrected.
    Mended,
    /// A protective MBR was written.
    Made,
}

/// Corrects the length and the end of the protective entry, if it is the only entry and its length is wrong. With
/// `may_make`, has it start in sector 1 too, and writes a protective MBR if there is no 55 AA or no entry. Syncs what it
/// writes. The boot code, the boot mark and any other MBR stay unchanged. With `is_dry` nothing is written, and the
/// change that would be made is returned.
///
/// # Errors
/// `Io` if the disk fails, `Overflow` if a new MBR is to be written and the disk is shorter than a sector.
pub fn mend_mbr<D: Disk>(
    disk: &mut D,
    sector_size: u64,
    may_make: bool,
    is_dry: bool,
) -> Result<MbrChange>
    ensures keeps { Keeps (D.state disk.old) (D.state disk.new) }
    ensures cause { HasCause result (D.state disk.old) (D.state disk.new) }

    // Only bytes 446 to 511 change at any moment, and none in a dry run.
    ensures wrote { Writes (mbr_range ∷ []) (D.state disk.old) (D.state disk.new) }
    ensures dry { IsTrue is_dry → Reads (D.state disk.old) (D.state disk.new) }

    // The result describes the change that was made.
    ensures change { IsHonest (D.state disk.old) → IfOk result (λ change.
        IsChange may_make is_dry sector_size change (D.state disk.old) (D.state disk.new)) }

    // An MBR with another entry, or a boot sector, is only read.
    ensures others { IsHonest (D.state disk.old) → IsForeign (first_bytes (D.state disk.old))
        → Reads (D.state disk.old) (D.state disk.new) }

    // An entry out of place is corrected.
    ensures needed { IsHonest (D.state disk.old) → (i : ℕ)
        → IsInNeed may_make (D.state disk.old) sector_size i → IfOk result (λ change. change ≡ Mended) }
{
    let size = disk.seek_end()?;
    if size < MBR_END {
        return Ok(MbrChange::Left);
    }
    let bytes = read_first(disk)?;
    let sector_size = sector_size.max(1);
    let plan = plan_of(&bytes, size / sector_size, may_make);
    if is_dry {
        return Ok(change_of(plan));
    }
    carry_out(disk, plan, &bytes, sector_size)?;
    Ok(change_of(plan))
}

// The planned change of an MBR.
#[derive(Clone, Copy)]
enum Plan {
    Leave,
    Mend(Misfit),
    Make,
}

fn change_of(plan: Plan) -> MbrChange
    ensures { result ≡ change_of plan }
{
    match plan {
        Plan::Leave => MbrChange::Left,
        Plan::Mend(_) => MbrChange::Mended,
        Plan::Make => MbrChange::Made,
    }
}

#[tactic(auto, using(gptman::proofs::Readers::both_read, gptman::proofs::Runs::rose_since))]
fn read_first<D: Disk>(disk: &mut D) -> Result<[u8; 512]>
    requires { 512 ≤ (D.state disk.old).size }
    ensures reads { Reads (D.state disk.old) (D.state disk.new) }
    ensures cause { HasCause result (D.state disk.old) (D.state disk.new) }
    ensures value { IsHonest (D.state disk.old)
        → IfOk result (λ bytes. bytes ≡ first_bytes (D.state disk.old)) }
{
    let mut bytes = [0; 512];
    disk.seek_start(0)?;
    disk.read_exact(&mut bytes)?;
    Ok(bytes)
}

// Plans the change of an MBR on a disk of `sectors` sectors.
fn plan_of(bytes: &[u8; 512], sectors: u64, may_make: bool) -> Plan
    ensures plan { IsPlan may_make sectors bytes.now result }
    ensures others { IsForeign bytes.now → result ≡ Leave }
    ensures needed { (i : ℕ) → IsMarked bytes.now → IsMisfit may_make bytes.now sectors i
        → change_of result ≡ Mended }
{
    if is_missing(bytes) {
        return if may_make { Plan::Make } else { Plan::Leave };
    }
    match find_misfit(bytes, sectors, may_make) {
        Some(misfit) => Plan::Mend(misfit),
        None => Plan::Leave,
    }
}

// Reports whether there is no 55 AA or no entry.
fn is_missing(bytes: &[u8; 512]) -> bool
    ensures missing { IsTrue result → IsVacant bytes.now }
    ensures marked { result ≡ false → IsMarked bytes.now }
{
    if byte_at(bytes, 510) != 0x55 || byte_at(bytes, 511) != 0xaa {
        return true;
    }
    is_empty(bytes)
}

// Carries out the plan. `bytes` are the first 512 of the disk.
fn carry_out<D: Disk>(disk: &mut D, plan: Plan, bytes: &[u8; 512], sector_size: u64) -> Result<()>
    requires sector { 0 < sector_size }
    requires room { 512 ≤ (D.state disk.old).size }
    requires place { HasPlace plan }
    requires bytes { IsHonest (D.state disk.old) → bytes.now ≡ first_bytes (D.state disk.old) }
    ensures keeps { Keeps (D.state disk.old) (D.state disk.new) }
    ensures cause { HasCause result (D.state disk.old) (D.state disk.new) }
    ensures wrote { Writes (mbr_range ∷ []) (D.state disk.old) (D.state disk.new) }
    ensures leaves { plan ≡ Leave → Reads (D.state disk.old) (D.state disk.new) }
    ensures done { IsHonest (D.state disk.old)
        → OnOk result (IsDone plan sector_size (D.state disk.old) (D.state disk.new)) }
{
    match plan {
        Plan::Leave => Ok(()),
        Plan::Mend(misfit) => set_span(disk, misfit, bytes),
        Plan::Make => make_mbr(disk, sector_size),
    }
}

// Writes and syncs a protective MBR.
fn make_mbr<D: Disk>(disk: &mut D, sector_size: u64) -> Result<()>
    requires { 0 < sector_size }
    ensures keeps { Keeps (D.state disk.old) (D.state disk.new) }
    ensures cause { HasCause result (D.state disk.old) (D.state disk.new) }
    ensures wrote { Writes (mbr_range ∷ []) (D.state disk.old) (D.state disk.new) }
    ensures stored { IsHonest (D.state disk.old)
        → OnOk result (IsMbrStored false sector_size (D.state disk.old) (D.state disk.new)) }
{
    GPT::write_protective_mbr_into(disk, sector_size)?;
    disk.sync()?;
    Ok(())
}

// Corrects the start, the length and the end of an entry. `bytes` are the first 512 of the disk.
fn set_span<D: Disk>(disk: &mut D, misfit: Misfit, bytes: &[u8; 512]) -> Result<()>
    requires place { misfit.entry < 4 }
    requires room { 512 ≤ (D.state disk.old).size }
    requires bytes { IsHonest (D.state disk.old) → bytes.now ≡ first_bytes (D.state disk.old) }
    ensures keeps { Keeps (D.state disk.old) (D.state disk.new) }
    ensures cause { HasCause result (D.state disk.old) (D.state disk.new) }
    ensures wrote { Writes (mbr_range ∷ []) (D.state disk.old) (D.state disk.new) }
    ensures set { IsHonest (D.state disk.old)
        → OnOk result (IsSet misfit.entry misfit.start misfit.length (D.state disk.old) (D.state disk.new)) }
{
    let mended = mended(bytes, misfit);
    write_mbr(disk, &mended[446..512])
}

// Returns the bytes with the start, the length and the end of this entry corrected.
fn mended(bytes: &[u8; 512], misfit: Misfit) -> [u8; 512]
    requires { misfit.entry < 4 }
    ensures contents { result ≡ overlay (overlay (overlay bytes.now (451 + 16 * misfit.entry) (0xFF ∷ 0xFF ∷ 0xFF ∷ []))
        (454 + 16 * misfit.entry) (little_bytes 4 misfit.start)) (458 + 16 * misfit.entry) (little_bytes 4 misfit.length) }
    ensures in_range { (misfit.start < 2 ^ 32) × (misfit.length < 2 ^ 32) }
{
    let at = ENTRIES + ENTRY_SIZE * misfit.entry;
    let mut mended = *bytes;
    put(&mut mended, at + 5, &LAST_END);
    put_u32(&mut mended, at + 8, misfit.start);
    put_u32(&mut mended, at + 12, misfit.length);
    mended
}

// Writes and syncs bytes 446 to 511.
fn write_mbr<D: Disk>(disk: &mut D, bytes: &[u8]) -> Result<()>
    requires room { 512 ≤ (D.state disk.old).size }
    requires length { length bytes.now ≡ 66 }
    ensures keeps { Keeps (D.state disk.old) (D.state disk.new) }
    ensures cause { HasCause result (D.state disk.old) (D.state disk.new) }
    ensures wrote { Writes (mbr_range ∷ []) (D.state disk.old) (D.state disk.new) }
    ensures contents { IsHonest (D.state disk.old)
        → OnOk result ((D.state disk.new).view ≡ overlay (D.state disk.old).view 446 bytes.now) }
    ensures synced { IsHonest (D.state disk.old) → OnOk result ((D.state disk.new).pending ≡ []) }
{
    disk.seek_start(MBR_START)?;
    disk.write_all(bytes)?;
    disk.sync()?;
    Ok(())
}
