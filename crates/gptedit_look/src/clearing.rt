//! Erases tables and their signatures.

ghost use Rattle.std.specs.Prelude.{◌≡◌, ◌≤◌, ◌<◌, ◌+◌, ◌*◌, ◌↔◌, ℕ, [], IfErr, IfOk, IsTrue, OnOk, Some as Present};
ghost use Rattle.gptman.specs.Answers.{IsFailure};
ghost use Rattle.gptman.specs.Disk.{IsHonest, Keeps, Reads, Writes};
ghost use Rattle.gptman.specs.Fault.{fault_of, io, out_of_memory};
ghost use Rattle.gptman.specs.Ranges.{Inside};
ghost use Rattle.gptedit_look.specs.Guard.{last_of, IsIn};
ghost use Rattle.gptedit_look.specs.Wiped.{header_found, header_in, ranges_in, Adds, AreZeros, HasUsualEntries, IsApartFrom, IsBeside, IsCleared, IsClearOf, IsFailureOrUnbegun, IsOfBeside, IsOfCopies, IsOfMbr, IsOfOld, IsOfOther, IsOfOwn, IsOfPlace, IsOfRaw, IsOfSignature, IsOfWhole, IsWiped, WritesOnly};

use crate::bytes::{ENTRY_SIZE, HEADER_SIZE, start_of};
use crate::first_sector::MbrKind;
use crate::raw::RawHeader;
use crate::seen::Look;
use crate::signatures::{HeaderPlace, Signature, place_at};
use crate::zeros::{Zeroed, put_zeros};
use gptman::copy::WholeCopy;
use gptman::sizes::MAX_ENTRY_COUNT;
use gptman::{Disk, Error, GPTHeader, Result};
use std::alloc::Global;

// The size of a signature in bytes.
const SIGNATURE_SIZE: u64 = 8;

// The first byte of the entries of an MBR.
const MBR_START: u64 = 446;

// The size of its entries and 55 AA in bytes.
const MBR_SIZE: u64 = 66;

/// Writes zeros over each signature of another sector size that the inspection found, unless it overlaps a copy with a
/// valid header at this sector size, and syncs.
///
/// # Errors
/// `Io` if the disk fails.
pub fn clear_signatures<D: Disk>(disk: &mut D, look: &Look, sector_size: u64) -> Result<()>
    ensures keeps { Keeps (D.state disk.old) (D.state disk.new) }
    ensures failed { IfErr result (λ e. IsFailure (fault_of e) (D.state disk.old) (D.state disk.new)) }

    // At any moment, only signatures of another sector size change.
    ensures only { WritesOnly (λ k. IsOfOther sector_size k look.now.signatures.items)
        (D.state disk.old) (D.state disk.new) }

    // Signatures that overlap a copy with a valid header on the disk stay unchanged; the others are zero after `Ok`.
    ensures spares { IsHonest (D.state disk.old) → WritesOnly
        (IsOfOld sector_size (D.state disk.old).view look.now.signatures.items) (D.state disk.old) (D.state disk.new) }
    ensures cleared { IsHonest (D.state disk.old) → OnOk result (IsCleared
        (IsOfOld sector_size (D.state disk.old).view look.now.signatures.items) (D.state disk.new)) }
{
    let primary = read_header(disk, HeaderPlace::Start, sector_size)?;
    let backup = read_header(disk, HeaderPlace::End, sector_size)?;
    clear_beside(disk, &look.signatures, primary, backup, sector_size)
}

// Clears the signatures of another sector size that do not overlap the copies with these headers.
fn clear_beside<D: Disk>(
    disk: &mut D,
    signatures: &[Signature],
    primary: Option<GPTHeader>,
    backup: Option<GPTHeader>,
    sector_size: u64,
) -> Result<()>
    ensures keeps { Keeps (D.state disk.old) (D.state disk.new) }
    ensures failed { IfErr result (λ e. IsFailure (fault_of e) (D.state disk.old) (D.state disk.new)) }
    ensures only { WritesOnly (λ k. IsOfBeside primary backup sector_size k signatures.now)
        (D.state disk.old) (D.state disk.new) }
    ensures cleared { IsHonest (D.state disk.old) → OnOk result (IsCleared
        (λ k. IsOfBeside primary backup sector_size k signatures.now) (D.state disk.new)) }
{
    for signature in signatures {
        clear_one(disk, signature, primary, backup, sector_size)?;
    }
    disk.sync()?;
    Ok(())
}

// Clears the signature, if it has another sector size and does not overlap these copies.
fn clear_one<D: Disk>(
    disk: &mut D,
    signature: &Signature,
    primary: Option<GPTHeader>,
    backup: Option<GPTHeader>,
    sector_size: u64,
) -> Result<()>
    ensures keeps { Keeps (D.state disk.old) (D.state disk.new) }
    ensures failed { IfErr result (λ e. IsFailure (fault_of e) (D.state disk.old) (D.state disk.new)) }
    ensures only { WritesOnly (λ k. IsBeside primary backup sector_size signature.now × IsIn signature.now.at 8 k)
        (D.state disk.old) (D.state disk.new) }
    ensures cleared { IsHonest (D.state disk.old)
        → OnOk result (IsBeside primary backup sector_size signature.now
        → AreZeros signature.now.at 8 (D.state disk.new).view) }
{
    if !is_beside(signature, primary, backup, sector_size) {
        return Ok(());
    }
    put_zeros(disk, all_of(signature))
}

// Reports whether a signature has another sector size and does not overlap these copies.
fn is_beside(
    signature: &Signature,
    primary: Option<GPTHeader>,
    backup: Option<GPTHeader>,
    sector_size: u64,
) -> bool
    ensures { IsTrue result ↔ IsBeside primary backup sector_size signature.now }
{
    signature.sector_size != sector_size
        && is_clear_of(signature, primary, sector_size)
        && is_clear_of(signature, backup, sector_size)
}

// Reads the header at this place, if it is valid.
pub(crate) fn read_header<D: Disk>(
    disk: &mut D,
    place: HeaderPlace,
    sector_size: u64,
) -> Result<Option<GPTHeader>>
    ensures reads { Reads (D.state disk.old) (D.state disk.new) }
    ensures failed { IfErr result (λ e. IsFailure (fault_of e) (D.state disk.old) (D.state disk.new)) }
    ensures found { IsHonest (D.state disk.old) → IfOk result (λ header. header
        ≡ header_in place sector_size (D.state disk.old).view) }
{
    let size = disk.seek_end()?;
    let Some(at) = place_at(place, sector_size, size) else {
        return Ok(None);
    };
    if size - at < HEADER_SIZE {
        return Ok(None);
    }
    read_header_at(disk, at)
}

// Reads the header at this byte, if it is valid.
#[tactic(auto, using(gptman::proofs::Readers::both_read, gptman::proofs::Runs::rose_since))]
fn read_header_at<D: Disk>(disk: &mut D, at: u64) -> Result<Option<GPTHeader>>
    requires { at + 92 ≤ (D.state disk.old).size }
    ensures reads { Reads (D.state disk.old) (D.state disk.new) }
    ensures failed { IfErr result (λ e. IsFailure (fault_of e) (D.state disk.old) (D.state disk.new)) }
    ensures found { IsHonest (D.state disk.old) → IfOk result (λ header. header
        ≡ header_found (D.state disk.old).view at) }
{
    disk.seek_start(at)?;
    match GPTHeader::read_from(disk) {
        Ok(header) => Ok(Some(header)),
        Err(error) if is_io(&error) => Err(error),
        Err(_) => Ok(None),
    }
}

// Reports whether the disk failed, or a read passed its end.
fn is_io(error: &Error) -> bool
    ensures { IsTrue result ↔ (fault_of error.now ≡ io) }
{
    matches!(error, Error::Io(_))
}

fn all_of(signature: &Signature) -> Zeroed
    ensures at { result.start ≡ signature.now.at }
    ensures length { result.length ≡ 8 }
{
    Zeroed {
        start: signature.at,
        length: SIGNATURE_SIZE,
    }
}

// Reports whether the signature does not overlap the copy with this header, if there is one.
fn is_clear_of(signature: &Signature, header: Option<GPTHeader>, sector_size: u64) -> bool
    ensures { IsTrue result ↔ IsClearOf signature.now sector_size header }
{
    match header {
        Some(header) => is_apart_from(signature, &header, sector_size),
        None => true,
    }
}

// Reports whether the signature does not overlap this copy.
fn is_apart_from(signature: &Signature, header: &GPTHeader, sector_size: u64) -> bool
    ensures { IsTrue result ↔ IsApartFrom signature.now sector_size header.now }
{
    let entries = ENTRY_SIZE * u64::from(header.number_of_partition_entries);
    is_apart(signature.at, header.primary_lba, sector_size, HEADER_SIZE)
        && is_apart(
            signature.at,
            header.partition_entry_lba,
            sector_size,
            entries,
        )
}

// Reports whether a signature at `at` does not overlap `length` bytes from this sector.
fn is_apart(at: u64, sector: u64, sector_size: u64, length: u64) -> bool
    ensures { IsTrue result ↔ ((k : ℕ) → IsIn at 8 k → ¬ IsIn (sector * sector_size) length k) }
{
    let start = start_of(sector, sector_size);
    let at = u128::from(at);
    length == 0 || start + u128::from(length) <= at || at + u128::from(SIGNATURE_SIZE) <= start
}

/// Erases both copies of the table, a moved backup header, the signatures of all sector sizes, and the entries of a
/// protective MBR, and syncs. If a copy is not good at its place, only a header found there, and entries at their usual
/// place, are erased. The boot code, the place of a lost copy and all else stay unchanged.
///
/// # Errors
/// `Io` if the disk fails; `OutOfMemory` if an allocation fails, before anything is written.
pub fn wipe<D: Disk>(alloc: Global, disk: &mut D, look: &Look) -> Result<()>
    ensures keeps { Keeps (D.state disk.old) (D.state disk.new) }
    ensures failed { IfErr result (λ e. IsFailureOrUnbegun (fault_of e) (D.state disk.old) (D.state disk.new)) }

    // No other byte changes at any moment.
    ensures only { WritesOnly (IsWiped look.now) (D.state disk.old) (D.state disk.new) }
    ensures cleared { IsHonest (D.state disk.old)
        → OnOk result (IsCleared (IsWiped look.now) (D.state disk.new)) }
{
    let ranges = ranges_of(alloc, look)?;
    clear_all(disk, &ranges)
}

// Writes zeros over the ranges, and syncs.
fn clear_all<D: Disk>(disk: &mut D, ranges: &[Zeroed]) -> Result<()>
    ensures keeps { Keeps (D.state disk.old) (D.state disk.new) }
    ensures failed { IfErr result (λ e. IsFailure (fault_of e) (D.state disk.old) (D.state disk.new)) }
    ensures wrote { Writes (ranges_in ranges.now) (D.state disk.old) (D.state disk.new) }
    ensures cleared { IsHonest (D.state disk.old)
        → OnOk result (IsCleared (Inside (ranges_in ranges.now)) (D.state disk.new)) }
{
    for range in ranges {
        put_zeros(disk, *range)?;
    }
    disk.sync()?;
    Ok(())
}

// Returns all ranges that a wipe erases.
fn ranges_of(alloc: Global, look: &Look) -> Result<Vec<Zeroed>>
    ensures refused { IfErr result (λ e. fault_of e ≡ out_of_memory) }
    ensures adds { IfOk result (λ ranges. Adds (IsWiped look.now) [] ranges.items) }
{
    let mut ranges = Vec::new(alloc);
    push_copies(&mut ranges, look)?;
    push_raw(&mut ranges, look.moved_header, look.sector_size)?;
    push_signatures(&mut ranges, &look.signatures)?;
    push_mbr(&mut ranges, look.first_sector.kind)?;
    Ok(ranges)
}

// Adds both copies.
fn push_copies(ranges: &mut Vec<Zeroed>, look: &Look) -> Result<()>
    ensures refused { IfErr result (λ e. fault_of e ≡ out_of_memory) }
    ensures adds { OnOk result (Adds (IsOfCopies look.now) ranges.old.items ranges.new.items) }
{
    let size = look.sector_size;
    push_place(ranges, 1, &look.copies.primary, look.primary_header, size)?;
    push_place(
        ranges,
        last_of(look),
        &look.copies.backup,
        look.backup_header,
        size,
    )
}

// Returns the last whole sector.
fn last_of(look: &Look) -> u64
    ensures { result ≡ last_of look.now }
{
    (look.size / look.sector_size).saturating_sub(1)
}

// Adds the good copy of this sector, or the header found there.
fn push_place(
    ranges: &mut Vec<Zeroed>,
    sector: u64,
    copy: &Result<WholeCopy>,
    seen: Option<RawHeader>,
    sector_size: u64,
) -> Result<()>
    requires { 0 < sector_size }
    ensures refused { IfErr result (λ e. fault_of e ≡ out_of_memory) }
    ensures adds { OnOk result
        (Adds (λ k. IsOfPlace sector sector_size k seen copy.now) ranges.old.items ranges.new.items) }
{
    match copy {
        Ok(copy) => push_own(ranges, sector, &copy.header, seen, sector_size),
        Err(_) => push_raw(ranges, seen, sector_size),
    }
}

// Adds the good copy if its header names this sector as its own, else the header found there.
fn push_own(
    ranges: &mut Vec<Zeroed>,
    sector: u64,
    header: &GPTHeader,
    seen: Option<RawHeader>,
    sector_size: u64,
) -> Result<()>
    requires { 0 < sector_size }
    ensures refused { IfErr result (λ e. fault_of e ≡ out_of_memory) }
    ensures adds { OnOk result
        (Adds (IsOfOwn header.now sector sector_size seen) ranges.old.items ranges.new.items) }
{
    if header.primary_lba == sector {
        push_copy(ranges, header, sector_size)
    } else {
        push_raw(ranges, seen, sector_size)
    }
}

fn push_signatures(ranges: &mut Vec<Zeroed>, signatures: &[Signature]) -> Result<()>
    ensures refused { IfErr result (λ e. fault_of e ≡ out_of_memory) }
    ensures adds { OnOk result
        (Adds (λ k. IsOfSignature k signatures.now) ranges.old.items ranges.new.items) }
{
    for signature in signatures {
        ranges.push(all_of(signature))?;
    }
    Ok(())
}

// Adds the entries and 55 AA of a protective MBR.
fn push_mbr(ranges: &mut Vec<Zeroed>, kind: MbrKind) -> Result<()>
    ensures refused { IfErr result (λ e. fault_of e ≡ out_of_memory) }
    ensures adds { OnOk result (Adds (IsOfMbr kind) ranges.old.items ranges.new.items) }
{
    if kind != MbrKind::Protective {
        return Ok(());
    }
    push_range(ranges, MBR_START, MBR_SIZE)
}

// Adds the header and the entries of a copy. Entries in sectors 0 and 1 are left out.
fn push_copy(ranges: &mut Vec<Zeroed>, header: &GPTHeader, sector_size: u64) -> Result<()>
    ensures refused { IfErr result (λ e. fault_of e ≡ out_of_memory) }
    ensures adds { OnOk result
        (Adds (IsOfWhole header.now sector_size) ranges.old.items ranges.new.items) }
{
    let entries = ENTRY_SIZE * u64::from(header.number_of_partition_entries);
    push(ranges, header.primary_lba, sector_size, HEADER_SIZE)?;
    if header.partition_entry_lba < 2 {
        return Ok(());
    }
    push(ranges, header.partition_entry_lba, sector_size, entries)
}

// Adds `length` bytes from this sector, unless they are past byte 2^64.
fn push(ranges: &mut Vec<Zeroed>, sector: u64, sector_size: u64, length: u64) -> Result<()>
    ensures refused { IfErr result (λ e. fault_of e ≡ out_of_memory) }
    ensures adds { OnOk result
        (Adds (IsIn (sector * sector_size) length) ranges.old.items ranges.new.items) }
{
    match sector.checked_mul(sector_size) {
        Some(start) => push_range(ranges, start, length),
        None => Ok(()),
    }
}

fn push_range(ranges: &mut Vec<Zeroed>, start: u64, length: u64) -> Result<()>
    ensures refused { IfErr result (λ e. fault_of e ≡ out_of_memory) }
    ensures adds { OnOk result (Adds (IsIn start length) ranges.old.items ranges.new.items) }
{
    ranges.push(Zeroed { start, length })?;
    Ok(())
}

// Adds a header that may be broken, and its entries if they are at their usual place.
fn push_raw(ranges: &mut Vec<Zeroed>, header: Option<RawHeader>, sector_size: u64) -> Result<()>
    requires { 0 < sector_size }
    ensures refused { IfErr result (λ e. fault_of e ≡ out_of_memory) }
    ensures adds { OnOk result
        (Adds (λ k. IsOfRaw sector_size k header) ranges.old.items ranges.new.items) }
{
    match header {
        Some(header) => push_seen(ranges, &header, sector_size),
        None => Ok(()),
    }
}

fn push_seen(ranges: &mut Vec<Zeroed>, header: &RawHeader, sector_size: u64) -> Result<()>
    requires { 0 < sector_size }
    ensures refused { IfErr result (λ e. fault_of e ≡ out_of_memory) }
    ensures adds { OnOk result
        (Adds (λ k. IsOfRaw sector_size k (Present header.now)) ranges.old.items ranges.new.items) }
{
    push_range(ranges, header.at, HEADER_SIZE)?;
    if !has_usual_entries(header, sector_size) {
        return Ok(());
    }
    let entries = ENTRY_SIZE * u64::from(header.count);
    push(ranges, header.entries_lba, sector_size, entries)
}

// Reports whether entries are in sector 2 for a header in sector 1, else right before the header.
fn has_usual_entries(header: &RawHeader, sector_size: u64) -> bool
    requires { 0 < sector_size }
    ensures { IsTrue result ↔ HasUsualEntries header.now sector_size }
{
    if header.count > MAX_ENTRY_COUNT || header.entry_size != 128 {
        return false;
    }
    let sector = header.at / sector_size;
    if sector == 1 {
        return header.entries_lba == 2;
    }
    let sectors = (ENTRY_SIZE * u64::from(header.count)).div_ceil(sector_size);
    header.entries_lba > 1 && sector.checked_sub(sectors) == Some(header.entries_lba)
}
