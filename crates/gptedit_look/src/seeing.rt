//! The inspection of a disk.

ghost use Rattle.std.specs.Prelude.{◌<◌, IfOk};
ghost use Rattle.gptman.specs.Answers.{HasCause};
ghost use Rattle.gptman.specs.Disk.{IsHonest, Reads};
ghost use Rattle.gptedit_look.specs.Counted.{IsCounted, IsCountedAt, IsCountedIn, IsTooManyOf};

use crate::clearing::read_header;
use crate::first_sector::{FirstSector, read_first_sector};
use crate::marks::{Content, find_contents, find_footer};
use crate::raw::{RawHeader, read_raw_header, read_raw_header_at};
use crate::seen::{Look, Looked};
use crate::signatures::{HeaderPlace, Signature, find_signatures};
use gptman::sizes::MAX_ENTRY_COUNT;
use gptman::{BothCopies, Disk, Error, GPT, GPTHeader, Result, check};
use gptman_change::read_table;
use std::alloc::Global;

// The sector size in bytes if there is no table and none is given.
const DEFAULT_SECTOR_SIZE: u64 = 512;

/// Inspects a disk with this sector size in bytes. `None` detects it: 512, or 4096 if there is no signature with 512.
/// Only reads.
///
/// Returns `Looked::TooMany` before any entries are read if a valid header counts more than `MAX_ENTRY_COUNT`.
///
/// # Errors
/// `Io` if the disk fails, `OutOfMemory` if an allocation fails.
#[tactic(auto, using(gptman::proofs::Readers::both_read, gptman::proofs::Runs::rose_since))]
pub fn look<D: Disk>(alloc: Global, disk: &mut D, sector_size: Option<u64>) -> Result<Looked>
    ensures reads { Reads (D.state disk.old) (D.state disk.new) }
    ensures cause { HasCause result (D.state disk.old) (D.state disk.new) }
    ensures counted { IsHonest (D.state disk.old) → IfOk result (IsCounted sector_size (D.state disk.old).view) }
{
    if let Some(count) = find_too_many(disk, sector_size)? {
        return Ok(Looked::TooMany(count));
    }
    Ok(Looked::Seen(look_whole(alloc, disk, sector_size)?))
}

#[tactic(auto, using(gptman::proofs::Readers::both_read, gptman::proofs::Runs::rose_since))]
fn look_whole<D: Disk>(alloc: Global, disk: &mut D, sector_size: Option<u64>) -> Result<Look>
    ensures reads { Reads (D.state disk.old) (D.state disk.new) }
    ensures cause { HasCause result (D.state disk.old) (D.state disk.new) }
{
    let table = read_good(alloc, disk, sector_size)?;
    let sector_size = size_of(table.as_ref(), sector_size);
    see(alloc, disk, sector_size, table)
}

// Returns the entry count of the first valid header that counts too many.
#[tactic(auto, using(gptman::proofs::Readers::both_read, gptman::proofs::Runs::rose_since))]
fn find_too_many<D: Disk>(disk: &mut D, sector_size: Option<u64>) -> Result<Option<u32>>
    ensures reads { Reads (D.state disk.old) (D.state disk.new) }
    ensures cause { HasCause result (D.state disk.old) (D.state disk.new) }
    ensures counted { IsHonest (D.state disk.old) → IfOk result (IsCountedIn sector_size (D.state disk.old).view) }
{
    match sector_size {
        Some(size) => find_too_many_in(disk, size),
        None => match find_too_many_in(disk, 512)? {
            Some(count) => Ok(Some(count)),
            None => find_too_many_in(disk, 4096),
        },
    }
}

#[tactic(auto, using(gptman::proofs::Readers::both_read, gptman::proofs::Runs::rose_since))]
fn find_too_many_in<D: Disk>(disk: &mut D, sector_size: u64) -> Result<Option<u32>>
    ensures reads { Reads (D.state disk.old) (D.state disk.new) }
    ensures cause { HasCause result (D.state disk.old) (D.state disk.new) }
    ensures counted { IsHonest (D.state disk.old) → IfOk result (IsCountedAt sector_size (D.state disk.old).view) }
{
    let primary = read_header(disk, HeaderPlace::Start, sector_size)?;
    let backup = read_header(disk, HeaderPlace::End, sector_size)?;
    Ok(too_many_of(primary).or(too_many_of(backup)))
}

// Returns the entry count, if it is too large.
fn too_many_of(header: Option<GPTHeader>) -> Option<u32>
    ensures { IsTooManyOf header result }
{
    let count = header?.number_of_partition_entries;
    if count > MAX_ENTRY_COUNT {
        Some(count)
    } else {
        None
    }
}

// Returns the table, or `None` if no copy is good.
fn read_good<D: Disk>(alloc: Global, disk: &mut D, sector_size: Option<u64>) -> Result<Option<GPT>>
    ensures reads { Reads (D.state disk.old) (D.state disk.new) }
    ensures cause { HasCause result (D.state disk.old) (D.state disk.new) }
{
    let sector_size = match sector_size {
        Some(size) if size > 0 => Some(size),
        _ => None,
    };
    match read_table(alloc, disk, sector_size) {
        Ok(table) => Ok(Some(table)),
        Err(Error::Io(error)) => Err(Error::Io(error)),
        Err(Error::OutOfMemory) => Err(Error::OutOfMemory),
        Err(_) => Ok(None),
    }
}

// Returns the sector size of the table, else the given one if it is above 0, else 512.
fn size_of(table: Option<&GPT>, given: Option<u64>) -> u64
    ensures { 0 < result }
{
    let size = match (table, given) {
        (Some(table), _) => table.sector_size,
        (None, Some(size)) if size > 0 => size,
        (None, _) => DEFAULT_SECTOR_SIZE,
    };
    size.max(1)
}

// Inspects all but the table.
#[tactic(auto, using(gptman::proofs::Readers::both_read, gptman::proofs::Runs::rose_since))]
fn see<D: Disk>(alloc: Global, disk: &mut D, sector_size: u64, table: Option<GPT>) -> Result<Look>
    requires { 0 < sector_size }
    ensures reads { Reads (D.state disk.old) (D.state disk.new) }
    ensures cause { HasCause result (D.state disk.old) (D.state disk.new) }
{
    let copies = check(alloc, disk, sector_size)?;
    let (headers, known) = see_beside(alloc, disk, sector_size, &copies)?;
    Ok(assemble(sector_size, table, copies, headers, known))
}

// Inspects all but the copies.
#[tactic(auto, using(gptman::proofs::Readers::both_read, gptman::proofs::Runs::rose_since))]
fn see_beside<D: Disk>(
    alloc: Global,
    disk: &mut D,
    sector_size: u64,
    copies: &BothCopies,
) -> Result<(Headers, Known)>
    ensures reads { Reads (D.state disk.old) (D.state disk.new) }
    ensures cause { HasCause result (D.state disk.old) (D.state disk.new) }
{
    let size = disk.seek_end()?;
    see_on(alloc, disk, sector_size, size, copies)
}

#[tactic(auto, using(gptman::proofs::Readers::both_read, gptman::proofs::Runs::rose_since))]
fn see_on<D: Disk>(
    alloc: Global,
    disk: &mut D,
    sector_size: u64,
    size: u64,
    copies: &BothCopies,
) -> Result<(Headers, Known)>
    ensures reads { Reads (D.state disk.old) (D.state disk.new) }
    ensures cause { HasCause result (D.state disk.old) (D.state disk.new) }
{
    let moved = read_moved(disk, sector_size, size, copies)?;
    let headers = read_headers(disk, sector_size, moved)?;
    let known = find_known(alloc, disk, sector_size, size)?;
    Ok((headers, known))
}

// The headers that begin with `EFI PART`.
#[derive(Clone, Copy)]
struct Headers {
    primary: Option<RawHeader>,
    backup: Option<RawHeader>,
    moved: Option<RawHeader>,
}

// The recognised contents, and the length of the disk in bytes.
#[derive(Drop)]
struct Known {
    size: u64,
    first_sector: FirstSector,
    signatures: Vec<Signature>,
    contents: Vec<Content>,
    footer: Option<Content>,
}

// Reads the headers in sector 1 and the last sector.
#[tactic(auto, using(gptman::proofs::Readers::both_read, gptman::proofs::Runs::rose_since))]
fn read_headers<D: Disk>(
    disk: &mut D,
    sector_size: u64,
    moved: Option<RawHeader>,
) -> Result<Headers>
    ensures reads { Reads (D.state disk.old) (D.state disk.new) }
    ensures cause { HasCause result (D.state disk.old) (D.state disk.new) }
{
    let primary = read_raw_header(disk, sector_size, HeaderPlace::Start)?;
    let backup = read_raw_header(disk, sector_size, HeaderPlace::End)?;
    Ok(Headers {
        primary,
        backup,
        moved,
    })
}

// Reads the MBR, and finds signatures and contents.
#[tactic(auto, using(gptman::proofs::Readers::both_read, gptman::proofs::Runs::rose_since))]
fn find_known<D: Disk>(alloc: Global, disk: &mut D, sector_size: u64, size: u64) -> Result<Known>
    ensures reads { Reads (D.state disk.old) (D.state disk.new) }
    ensures cause { HasCause result (D.state disk.old) (D.state disk.new) }
{
    let first_sector = read_first_sector(alloc, disk, sector_size)?;
    let signatures = find_signatures(alloc, disk)?;
    let (contents, footer) = find_marks(alloc, disk, size)?;
    Ok(Known {
        size,
        first_sector,
        signatures,
        contents,
        footer,
    })
}

#[tactic(auto, using(gptman::proofs::Readers::both_read, gptman::proofs::Runs::rose_since))]
fn find_marks<D: Disk>(
    alloc: Global,
    disk: &mut D,
    size: u64,
) -> Result<(Vec<Content>, Option<Content>)>
    ensures reads { Reads (D.state disk.old) (D.state disk.new) }
    ensures cause { HasCause result (D.state disk.old) (D.state disk.new) }
{
    let contents = find_contents(alloc, disk, 0, size)?;
    let footer = find_footer(alloc, disk)?;
    Ok((contents, footer))
}

fn assemble(
    sector_size: u64,
    table: Option<GPT>,
    copies: BothCopies,
    headers: Headers,
    known: Known,
) -> Look
    requires { 0 < sector_size }
{
    Look {
        size: known.size,
        sector_size,
        table,
        copies,
        primary_header: headers.primary,
        backup_header: headers.backup,
        moved_header: headers.moved,
        first_sector: known.first_sector,
        signatures: known.signatures,
        contents: known.contents,
        footer: known.footer,
    }
}

// Reads the header in the sector that a good primary header names as the backup's, if that is not the last sector.
fn read_moved<D: Disk>(
    disk: &mut D,
    sector_size: u64,
    size: u64,
    copies: &BothCopies,
) -> Result<Option<RawHeader>>
    ensures reads { Reads (D.state disk.old) (D.state disk.new) }
    ensures cause { HasCause result (D.state disk.old) (D.state disk.new) }
{
    let Ok(primary) = &copies.primary else {
        return Ok(None);
    };
    let sector = primary.header.backup_lba;
    let sectors = size.checked_div(sector_size).unwrap_or(0);
    let Some(at) = sector.checked_mul(sector_size) else {
        return Ok(None);
    };
    if sector < 2 || sector >= sectors.saturating_sub(1) {
        return Ok(None);
    }
    read_raw_header_at(disk, at)
}
