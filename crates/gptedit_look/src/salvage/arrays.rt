//! Reads arrays of entries, where a header places them and at their usual places.

ghost use Rattle.gptman.specs.Disk.{Reads};

use crate::salvage::reading::read_range;
use gptedit_formats::copies::{Array, ArraySpan, Spot, is_better, is_sure};
use gptman::{Disk, GPTHeader};
use std::alloc::{AllocError, Global};

/// Reads the array of a header, where the header places it or at a usual place. If these entries do not match the
/// stored checksum and those of the other copy do, returns the latter.
#[tactic(auto, using(gptman::proofs::Readers::both_read))]
pub fn find_array<D: Disk>(
    alloc: Global,
    disk: &mut D,
    spot: Spot,
    header: &GPTHeader,
) -> Result<Array, AllocError>
    ensures reads { Reads (D.state disk.old) (D.state disk.new) }
{
    let own = find_own(alloc, disk, spot, header)?;
    if is_sure(&own, header) {
        return Ok(own);
    }
    match find_of_other(alloc, disk, spot, header)? {
        Some(array) => Ok(array),
        None => Ok(own),
    }
}

// Reads the array of a header, where the header places it or at a usual place of its copy.
#[tactic(auto, using(gptman::proofs::Readers::both_read))]
fn find_own<D: Disk>(
    alloc: Global,
    disk: &mut D,
    spot: Spot,
    header: &GPTHeader,
) -> Result<Array, AllocError>
    ensures reads { Reads (D.state disk.old) (D.state disk.new) }
{
    let said = ArraySpan::said_by(header);
    let mut best = read_array(alloc, disk, spot, said)?;
    let others = [
        said.at_usual_place(spot),
        said.of_usual_size(),
        ArraySpan::usual(spot),
    ];
    for span in others {
        if is_sure(&best, header) {
            break;
        }
        if span == best.span {
            continue;
        }
        let array = read_array(alloc, disk, spot, span)?;
        if is_better(&array, &best, header, spot.sectors) {
            best = array;
        }
    }
    Ok(best)
}

// Reads the array of a header at a usual place of the other copy, if it matches the stored checksum.
#[tactic(auto, using(gptman::proofs::Readers::both_read))]
fn find_of_other<D: Disk>(
    alloc: Global,
    disk: &mut D,
    spot: Spot,
    header: &GPTHeader,
) -> Result<Option<Array>, AllocError>
    ensures reads { Reads (D.state disk.old) (D.state disk.new) }
{
    let mut found = None;
    for span in ArraySpan::said_by(header).at_places_of_other(spot, header) {
        let mut array = read_array(alloc, disk, spot, span)?;
        if is_sure(&array, header) {
            array.is_of_other = true;
            found = Some(array);
            break;
        }
    }
    Ok(found)
}

/// Reads an array, up to the end of the disk and at most 16 MiB.
#[tactic(auto, using(gptman::proofs::Readers::both_read))]
pub fn read_array<D: Disk>(
    alloc: Global,
    disk: &mut D,
    spot: Spot,
    span: ArraySpan,
) -> Result<Array, AllocError>
    ensures reads { Reads (D.state disk.old) (D.state disk.new) }
{
    let bytes = read_range(alloc, disk, span.start(spot), span.readable_len(spot))?;
    Array::decode(alloc, span, bytes)
}
