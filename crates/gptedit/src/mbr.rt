//! The MBR during a change.

use crate::failure::{Failure, refuse_error, refuse_failed};
use crate::image::Image;
use gptedit_look::{Look, MbrChange, MbrKind, Purpose, mend_mbr};
use gptedit_report::Reason;
use gptman::{Disk, GPT};
use std::alloc::Global;

/// Corrects or writes the protective MBR, or with `is_dry` only returns what would happen. `is_changed` says whether
/// the table is written.
pub fn change_mbr(
    alloc: Global,
    image: &mut Image<'_>,
    look: &Look,
    purpose: Purpose,
    is_changed: bool,
    is_dry: bool,
) -> Result<MbrChange, Failure> {
    let first = &look.first_sector;
    let is_own = first.kind == MbrKind::Protective && first.protective_count == 1;
    let may_make = match (purpose, first.kind) {
        (Purpose::New, _) if !is_own => return make_mbr(alloc, image, look, is_dry),
        (Purpose::New, _) => true,
        (_, MbrKind::Dos | MbrKind::Hybrid) => return Ok(MbrChange::Left),
        (Purpose::Edit, _) if !is_changed => return Ok(MbrChange::Left),
        (Purpose::Edit, _) => false,
        (Purpose::Repair | Purpose::Fit, _) => true,
    };
    let sector_size = look.sector_size;
    match mend_mbr(&mut image.opened.disk, sector_size, may_make, is_dry) {
        Ok(change) => Ok(change),
        Err(error) => Err(refuse_error(alloc, image.name, &error)),
    }
}

// Overwrites the 66 bytes with a protective MBR.
fn make_mbr(
    alloc: Global,
    image: &mut Image<'_>,
    look: &Look,
    is_dry: bool,
) -> Result<MbrChange, Failure> {
    if is_dry {
        return Ok(MbrChange::Made);
    }
    let disk = &mut image.opened.disk;
    if let Err(error) = GPT::write_protective_mbr_into(disk, look.sector_size) {
        return Err(refuse_error(alloc, image.name, &error));
    }
    match disk.sync() {
        Ok(()) => Ok(MbrChange::Made),
        Err(error) => Err(refuse_failed(alloc, image.name, Reason::DeviceFailed, &error)),
    }
}
