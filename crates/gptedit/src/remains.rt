//! The contents of the place of a broken copy, which only `repair` overwrites.

use crate::failure::{Failure, refuse_error};
use crate::image::Image;
use crate::own::has_same_entries;
use gptedit_formats::copies::FoundCopy;
use gptedit_look::salvage::salvage;
use gptedit_look::{Look, Obstacle, What};
use gptedit_report::Remains;
use gptman::GPT;
use std::alloc::Global;

/// Returns what an obstacle in the place of the other copy's entries is: the same entries, other entries, or unknown.
pub fn find_remains(
    alloc: Global,
    image: &mut Image<'_>,
    look: &Look,
    table: &GPT,
    obstacle: Obstacle,
) -> Result<Remains, Failure> {
    let place = match table.header.other() {
        Some(other) if obstacle.what == What::BoardCode => other.partition_entry_lba,
        _ => return Ok(Remains::Unknown),
    };
    if obstacle.first < place {
        return Ok(Remains::Unknown);
    }
    let disk = &mut image.opened.disk;
    match has_same_entries(disk, look, table, obstacle) {
        Ok(true) => return Ok(Remains::SameEntries),
        Ok(false) => (),
        Err(error) => return Err(refuse_error(alloc, image.name, &error)),
    }
    let salvaged = match salvage(alloc, disk, Some(look.sector_size)) {
        Ok(salvaged) => salvaged,
        Err(error) => return Err(refuse_error(alloc, image.name, &error)),
    };
    let mut copies = salvaged.copies.iter();
    if copies.any(|copy| has_entries_at(copy, place)) {
        Ok(Remains::OtherEntries)
    } else {
        Ok(Remains::Unknown)
    }
}

// Reports whether a copy has its entries at this sector, and more than half of them are sensible.
fn has_entries_at(copy: &FoundCopy, lba: u64) -> bool {
    copy.entries_lba == Some(lba) && copy.count_sensible() > copy.entries.len() / 2
}
