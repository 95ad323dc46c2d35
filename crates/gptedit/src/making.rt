//! New tables.

use crate::drawing::{draw_guid, draw_guids};
use crate::failure::{Failure, refuse_asked, refuse_error, refuse_failed};
use crate::image::Image;
use crate::measuring::measured_in;
use crate::task::{Anew, Became, Task, Work};
use gptedit_core::{Creation, Refusal};
use gptedit_look::{Look, Purpose};
use gptedit_report::Reason;
use gptedit_text::{Header, OtherValue, Parsed};
use gptedit_words::NewTable;
use gptman::sizes::{DEFAULT_ENTRY_COUNT, SECTOR_SIZES};
use std::alloc::Global;
use std::random::RandomSource;

/// The sector size in bytes that is assumed for a file.
pub const USUAL_SIZE: u64 = 512;

/// Returns the task of `new`. A table that was read is overwritten so that a crash leaves the old or the new one,
/// unless no order of writes does.
pub fn new<R: RandomSource + AllocGlobal>(
    rt: &R,
    image: &mut Image<'_>,
    look: &Look,
    asked: NewTable,
) -> Result<Task, Failure> {
    let guid = match asked.guid {
        Some(guid) => guid,
        None => draw_guid(rt)?,
    };
    let usual = match &look.table {
        Some(table) => table.header.number_of_partition_entries,
        None => DEFAULT_ENTRY_COUNT,
    };
    let creation = Creation {
        guid,
        entries: asked.entries.unwrap_or(usual),
        first_usable: None,
        last_usable: None,
        layout: None,
        random: Vec::new(rt.alloc()),
        may_lose: false,
        is_dry: true,
    };
    let mut anew = Anew::new(creation);
    if look.table.is_none() {
        return Ok(task_of(rt.alloc(), Work::Make(anew)));
    }
    if is_unsafe(rt.alloc(), image, look, &mut anew)? {
        anew.let_lose();
    }
    Ok(task_of(rt.alloc(), Work::Remake(anew)))
}

fn task_of(alloc: Global, work: Work) -> Task {
    Task {
        work,
        purpose: Purpose::New,
        mbr: Purpose::New,
        only_removes: false,
        matches: Vec::new(alloc),
    }
}

// Reports whether no order of writes keeps a copy of the old or the new table.
fn is_unsafe(
    alloc: Global,
    image: &mut Image<'_>,
    look: &Look,
    anew: &mut Anew,
) -> Result<bool, Failure> {
    match anew.remake(alloc, image, look.sector_size, true) {
        Ok(Became::Refused { refusal, .. }) => Ok(matches!(
            refusal,
            Refusal::NoSafeOrder | Refusal::NotLaidOut
        )),
        Ok(_) => Ok(false),
        Err(error) => Err(refuse_error(alloc, image.name, &error)),
    }
}

/// Returns the task of `apply --create` if no table was read: a new table with the partitions of the layout.
pub fn create<R: RandomSource + AllocGlobal + Eprint>(
    rt: &R,
    image: &mut Image<'_>,
    look: &Look,
    file: &str,
    mut parsed: Parsed,
) -> Result<Task, Failure> {
    if let Some(said) = parsed.header.sector_size {
        let is = look.sector_size;
        if said != is {
            let key = "sector-size";
            let form = parsed.form;
            let other = OtherValue {
                form,
                key,
                said,
                is,
                is_settable: false,
            };
            return Err(refuse_failed(rt.alloc(), file, Reason::LayoutMismatch, &other));
        }
    }
    let guid = match parsed.layout.disk_guid {
        Some(guid) => guid,
        None => draw_guid(rt)?,
    };
    parsed.number_new(rt.alloc())?;
    let parsed = measured_new(rt, image, look, guid, parsed)?;
    let random = draw_guids(rt, parsed.layout.asked.len())?;
    let creation = parsed.into_creation(guid, random);
    Ok(task_of(rt.alloc(), Work::Make(Anew::new(creation))))
}

// Returns the text with the places of its partitions measured in the new table without partitions.
fn measured_new<R: RandomSource + AllocGlobal + Eprint>(
    rt: &R,
    image: &mut Image<'_>,
    look: &Look,
    guid: [u8; 16],
    parsed: Parsed,
) -> Result<Parsed, Failure> {
    let alloc = rt.alloc();
    if parsed.places.is_empty() {
        return Ok(parsed);
    }
    let empty = Creation {
        guid,
        entries: parsed.header.entries.unwrap_or(DEFAULT_ENTRY_COUNT),
        first_usable: parsed.header.first_usable,
        last_usable: parsed.header.last_usable,
        layout: None,
        random: Vec::new(alloc),
        may_lose: false,
        is_dry: true,
    };
    let mut task = task_of(alloc, Work::Make(Anew::new(empty)));
    match task.run(alloc, image, look.sector_size, true)? {
        Became::Changed { next, .. } => {
            let Parsed {
                layout,
                header,
                form,
                bootable,
                places,
            } = parsed;
            Ok(Parsed {
                layout: measured_in(rt, image, look, &next, layout, &places)?,
                header,
                form,
                bootable,
                places: Vec::new(alloc),
            })
        }
        Became::Unchanged { .. } => Ok(parsed),
        Became::Refused { table, refusal } => {
            let size = look.sector_size;
            Err(refuse_asked(alloc, image.name, table.as_ref(), size, &refusal))
        }
    }
}

/// Returns the sector size in bytes that a layout states, if it is a supported one.
pub fn size_in(header: &Header) -> Option<u64> {
    match header.sector_size {
        Some(bytes) if SECTOR_SIZES.contains(&bytes) => Some(bytes),
        _ => None,
    }
}
