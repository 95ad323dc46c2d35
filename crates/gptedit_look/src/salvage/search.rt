//! The search for copies, at each sector size.

ghost use Rattle.std.specs.Prelude.{◌≡◌, ◌⊎◌, IfErr};
ghost use Rattle.gptman.specs.Answers.{IsFailure};
ghost use Rattle.gptman.specs.Disk.{Reads};
ghost use Rattle.gptman.specs.Fault.{fault_of, out_of_memory};

use crate::salvage::arrays::{find_array, read_array};
use crate::salvage::reading::read_header;
use gptedit_formats::copies::{
    CopyKind, Fault, FoundCopy, Salvaged, Seen, Spot, bare_span, find_best, is_known, is_likely,
    keep_one_size, may_be_size, note_array, note_entries, note_length,
};
use gptman::sizes::SECTOR_SIZES;
use gptman::{Disk, GPTHeader};
use std::alloc::{AllocError, Global};

/// Reads what remains of each copy of a table: the primary copy, the backup copy, and copies in other sectors that a
/// header names. Tries this sector size, or 512, 1024, 2048 and 4096 bytes. Searches for entries without a header at
/// their usual place.
///
/// A failed read is a fault of the copy.
///
/// # Errors
///
/// `Io` if the length of the disk cannot be read, `OutOfMemory` if an allocation fails.
#[tactic(auto, using(gptman::proofs::Readers::both_read))]
pub fn salvage<D: Disk>(alloc: Global, disk: &mut D, asked: Option<u64>) -> gptman::Result<Salvaged>
    ensures reads { Reads (D.state disk.old) (D.state disk.new) }
    ensures cause { IfErr result (λ e. (fault_of e ≡ out_of_memory)
        ⊎ IsFailure (fault_of e) (D.state disk.old) (D.state disk.new)) }
{
    let size = disk.seek_end()?;
    let mut copies = find_copies(alloc, disk, size, asked)?;
    keep_one_size(&mut copies);
    let best = find_best(&copies);
    Ok(Salvaged {
        size,
        asked,
        copies,
        best,
    })
}

#[tactic(auto, using(gptman::proofs::Readers::both_read))]
fn find_copies<D: Disk>(
    alloc: Global,
    disk: &mut D,
    size: u64,
    asked: Option<u64>,
) -> Result<Vec<FoundCopy>, AllocError>
    ensures reads { Reads (D.state disk.old) (D.state disk.new) }
{
    let mut copies = Vec::new(alloc);
    for sector_size in SECTOR_SIZES {
        if is_tried(sector_size, asked) {
            find_at_size(alloc, disk, size, sector_size, &mut copies)?;
        }
    }
    for sector_size in SECTOR_SIZES {
        if is_tried(sector_size, asked) && may_be_size(&copies, sector_size) {
            find_bare_at_size(alloc, disk, size, sector_size, &mut copies)?;
        }
    }
    Ok(copies)
}

fn is_tried(sector_size: u64, asked: Option<u64>) -> bool {
    match asked {
        Some(asked) => asked == sector_size,
        None => true,
    }
}

// Adds the copies with a header, at this sector size.
#[tactic(auto, using(gptman::proofs::Readers::both_read))]
fn find_at_size<D: Disk>(
    alloc: Global,
    disk: &mut D,
    size: u64,
    sector_size: u64,
    copies: &mut Vec<FoundCopy>,
) -> Result<(), AllocError>
    ensures reads { Reads (D.state disk.old) (D.state disk.new) }
{
    let primary = Spot::primary(size, sector_size);
    let backup = primary.backup();
    let after_primary = find_copy(alloc, disk, primary, copies)?;
    let after_backup = find_copy(alloc, disk, backup, copies)?;
    find_other(alloc, disk, primary, after_primary, copies)?;
    if after_backup != after_primary {
        find_other(alloc, disk, primary, after_backup, copies)?;
    }
    Ok(())
}

// Adds the copy in this sector, unless that is sector 0, 1 or the last one.
#[tactic(auto, using(gptman::proofs::Readers::both_read))]
fn find_other<D: Disk>(
    alloc: Global,
    disk: &mut D,
    primary: Spot,
    lba: Option<u64>,
    copies: &mut Vec<FoundCopy>,
) -> Result<(), AllocError>
    ensures reads { Reads (D.state disk.old) (D.state disk.new) }
{
    let lba = lba.unwrap_or(0);
    if lba <= 1 || lba >= primary.sectors.saturating_sub(1) {
        return Ok(());
    }
    let spot = Spot {
        kind: CopyKind::Other,
        lba,
        ..primary
    };
    find_copy(alloc, disk, spot, copies)?;
    Ok(())
}

// Adds the copy at this place, if there is a header. Returns the sector that the header names for the other copy.
#[tactic(auto, using(gptman::proofs::Readers::both_read))]
fn find_copy<D: Disk>(
    alloc: Global,
    disk: &mut D,
    spot: Spot,
    copies: &mut Vec<FoundCopy>,
) -> Result<Option<u64>, AllocError>
    ensures reads { Reads (D.state disk.old) (D.state disk.new) }
{
    match read_header(alloc, disk, spot)? {
        Seen::Header(header, faults) => {
            let copy = read_copy(alloc, disk, spot, header, faults)?;
            copies.push(copy)?;
            Ok(Some(header.backup_lba))
        }
        Seen::Failure => {
            copies.push(FoundCopy::unreadable(alloc, spot)?)?;
            Ok(None)
        }
        Seen::Nothing => Ok(None),
    }
}

// Reads the entries of a header, and records the faults of the copy.
#[tactic(auto, using(gptman::proofs::Readers::both_read))]
fn read_copy<D: Disk>(
    alloc: Global,
    disk: &mut D,
    spot: Spot,
    header: GPTHeader,
    mut faults: Vec<Fault>,
) -> Result<FoundCopy, AllocError>
    ensures reads { Reads (D.state disk.old) (D.state disk.new) }
{
    let mut array = find_array(alloc, disk, spot, &header)?;
    note_array(alloc, &mut faults, &header, &mut array, spot)?;
    let entries_lba = Some(array.span.lba);
    let mut entries = array.entries;
    note_entries(alloc, &mut entries, spot, Some(&header))?;
    Ok(FoundCopy {
        spot,
        header: Some(header),
        faults,
        entries_lba,
        entries,
    })
}

// Adds the copies without a header, at this sector size.
#[tactic(auto, using(gptman::proofs::Readers::both_read))]
fn find_bare_at_size<D: Disk>(
    alloc: Global,
    disk: &mut D,
    size: u64,
    sector_size: u64,
    copies: &mut Vec<FoundCopy>,
) -> Result<(), AllocError>
    ensures reads { Reads (D.state disk.old) (D.state disk.new) }
{
    let primary = Spot::primary(size, sector_size);
    find_bare(alloc, disk, primary, copies)?;
    find_bare(alloc, disk, primary.backup(), copies)
}

// Adds the copy without a header at this place, if most of its entries are likely and no header has them.
#[tactic(auto, using(gptman::proofs::Readers::both_read))]
fn find_bare<D: Disk>(
    alloc: Global,
    disk: &mut D,
    spot: Spot,
    copies: &mut Vec<FoundCopy>,
) -> Result<(), AllocError>
    ensures reads { Reads (D.state disk.old) (D.state disk.new) }
{
    let span = bare_span(copies, spot);
    if is_known(copies, spot, span.lba) {
        return Ok(());
    }
    let array = read_array(alloc, disk, spot, span)?;
    if !is_likely(&array, spot.sectors) {
        return Ok(());
    }
    let mut faults = Vec::new(alloc);
    let lba = array.span.lba;
    faults.push(Fault::NoHeader { lba })?;
    note_length(&mut faults, &array, spot)?;
    let mut entries = array.entries;
    note_entries(alloc, &mut entries, spot, None)?;
    copies.push(FoundCopy {
        spot,
        header: None,
        faults,
        entries_lba: Some(lba),
        entries,
    })?;
    Ok(())
}
