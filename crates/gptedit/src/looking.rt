//! The commands that only read.

use crate::failure::{Failure, refuse_asked, refuse_error};
use crate::image::Image;
use crate::making::USUAL_SIZE;
use crate::query::{show_field, show_partition};
use gptedit_core::{Amount, Refusal, layout_of};
use gptedit_look::first_sector::read_first_sector;
use gptedit_look::salvage::salvage;
use gptedit_look::{FirstSector, Look, MbrKind};
use gptedit_report::{
    CopiesState, Edges, FreeRange, find_losses, free_json, print_free, print_map, print_salvaged,
    salvaged_json, script_text, show_short, show_table, table_json,
};
use gptedit_text::{Header, write_layout};
use gptedit_values::Escaped;
use gptedit_words::View;
use gptman::GPT;
use std::alloc::{AllocError, Global};
use std::io::Write;

/// Warns on standard error if the disk has a DOS partition table.
pub fn warn_of_dos<R: Eprint>(rt: &R, image: &Image<'_>, first_sector: &FirstSector) {
    if first_sector.kind == MbrKind::Dos {
        let name = Escaped(image.name);
        let _ = eprintln!(rt;
            "gptedit: {name}: the disk has a DOS partition table; a GUID partition table on it may be an old one"
        );
    }
}

/// Reads the first sector and warns as [`warn_of_dos`] does, for a command that does not inspect the disk otherwise.
pub fn look_for_dos<R: Eprint + AllocGlobal>(rt: &R, image: &mut Image<'_>) -> Result<(), Failure> {
    match read_first_sector(rt.alloc(), &mut image.opened.disk, USUAL_SIZE) {
        Ok(first_sector) => {
            warn_of_dos(rt, image, &first_sector);
            Ok(())
        }
        Err(error) => Err(refuse_error(rt.alloc(), image.name, &error)),
    }
}

/// Prints the table or a part of it.
pub fn show<W: Write>(
    out: &mut W,
    alloc: Global,
    image: &mut Image<'_>,
    look: &Look,
    view: &View<'_>,
    is_json: bool,
) -> Result<(), Failure> {
    let Some(table) = &look.table else {
        return Err(image.no_table(alloc, look));
    };
    let (size, state) = (look.size, state_of(look));
    match view {
        View::Partition(target) => {
            return show_partition(out, alloc, image, table, target, is_json);
        }
        View::Field(target, field) => {
            return show_field(out, alloc, image, table, target, *field, is_json);
        }
        _ if is_json => {
            return print_state_json(out, alloc, image, look, table, &state);
        }
        View::Short => show_short(out, alloc, size, table, &state)?,
        View::Table => show_table(out, alloc, image.name, size, table, &state)?,
        View::Map => {
            show_table(out, alloc, image.name, size, table, &state)?;
            out.write_all(b"\n")?;
            print_map(out, alloc, image.name, size, table, &look.copies)?;
        }
    }
    Ok(())
}

/// Returns the state of both copies.
pub fn state_of(look: &Look) -> CopiesState<'_> {
    let copies = &look.copies;
    CopiesState::new(&copies.primary, &copies.backup, copies.are_same)
}

// Prints the table as JSON, with the given state of both copies.
fn print_state_json<W: Write>(
    out: &mut W,
    alloc: Global,
    image: &Image<'_>,
    look: &Look,
    table: &GPT,
    state: &CopiesState<'_>,
) -> Result<(), Failure> {
    let size = look.size;
    let free = free_in(alloc, image, look, table, table.align)?;
    let text = table_json(alloc, image.name, size, table, state, &free)?;
    writeln!(out, "{text}")?;
    Ok(())
}

/// Returns the free ranges outside the table's own sectors, each starting at a multiple of `align` sectors.
pub fn free_in(
    alloc: Global,
    image: &Image<'_>,
    look: &Look,
    table: &GPT,
    align: u64,
) -> Result<Vec<FreeRange>, Failure> {
    let mut table = match table.clone() {
        Ok(table) => table,
        Err(_) => return Err(Failure::OutOfMemory),
    };
    let edges = Edges::of(&table, look.size);
    let header = &mut table.header;
    header.first_usable_lba = header.first_usable_lba.max(edges.least);
    header.last_usable_lba = header.last_usable_lba.min(edges.most);
    table.align = align;
    if align == 0 || table.header.last_usable_lba < table.header.first_usable_lba {
        return Ok(Vec::new(alloc));
    }
    match table.find_free_sectors() {
        Ok(free) => Ok(name_ranges(alloc, &free)?),
        Err(error) => Err(refuse_error(alloc, image.name, &error)),
    }
}

// Returns the ranges that the library lists as start and length.
fn name_ranges(alloc: Global, pairs: &[(u64, u64)]) -> Result<Vec<FreeRange>, AllocError> {
    let mut ranges = Vec::with_capacity(alloc, pairs.len())?;
    for (start, length) in pairs {
        ranges.push(FreeRange {
            start: *start,
            length: *length,
        })?;
    }
    Ok(ranges)
}

/// Prints the free ranges, each starting at a multiple of `align`.
pub fn free<W: Write>(
    out: &mut W,
    alloc: Global,
    image: &mut Image<'_>,
    look: &Look,
    align: Option<Amount>,
    is_json: bool,
) -> Result<(), Failure> {
    let Some(table) = &look.table else {
        return Err(image.no_table(alloc, look));
    };
    let align = match align {
        None => 1,
        Some(amount) => align_in(alloc, image.name, table, amount)?,
    };
    let free = free_in(alloc, image, look, table, align)?;
    if is_json {
        let text = free_json(alloc, &free)?;
        writeln!(out, "{text}")?;
    } else {
        print_free(out, alloc, table.sector_size, &free)?;
    }
    Ok(())
}

// Returns the alignment in sectors.
fn align_in(alloc: Global, image: &str, table: &GPT, amount: Amount) -> Result<u64, Failure> {
    let sector_size = table.sector_size.max(1);
    let refusal = match amount.sectors(sector_size) {
        Some(0) => Refusal::NoAlignment,
        Some(sectors) => return Ok(sectors),
        None => Refusal::NotWhole(amount),
    };
    Err(refuse_asked(alloc, image, Some(table), sector_size, &refusal))
}

/// Warns on standard error about each field of the table that its script does not hold in full.
pub fn warn_of_losses<R: Eprint + AllocGlobal>(
    rt: &R,
    image: &Image<'_>,
    look: &Look,
) -> Result<(), Failure> {
    if let Some(table) = &look.table {
        let name = Escaped(image.name);
        for loss in find_losses(rt.alloc(), table)?.iter() {
            let _ = eprintln!(rt; "gptedit: {name}: {loss}");
        }
    }
    Ok(())
}

/// Prints the table as a layout, or as a script of `sfdisk`.
pub fn dump<W: Write>(
    out: &mut W,
    alloc: Global,
    image: &mut Image<'_>,
    look: &Look,
    is_script: bool,
    is_json: bool,
) -> Result<(), Failure> {
    let Some(table) = &look.table else {
        return Err(image.no_table(alloc, look));
    };
    if is_json {
        return print_state_json(out, alloc, image, look, table, &state_of(look));
    }
    let text = if is_script {
        script_text(alloc, image.name, look.size, table)?
    } else {
        layout_text(alloc, image.name, table)?
    };
    out.write_all(text.as_bytes())?;
    Ok(())
}

/// Returns the table as the text of a layout.
pub fn layout_text(alloc: Global, image: &str, table: &GPT) -> Result<String, Failure> {
    let layout = match layout_of(alloc, table) {
        Ok(layout) => layout,
        Err(error) => return Err(refuse_error(alloc, image, &error)),
    };
    Ok(write_layout(alloc, &layout, &Header::of(table))?)
}

/// Prints what can be read of each copy of the table, good or not. Returns the exit status.
pub fn print_salvage<W: Write>(
    out: &mut W,
    alloc: Global,
    image: &mut Image<'_>,
    is_json: bool,
) -> Result<u8, Failure> {
    let asked = image.known_size();
    let salvaged = match salvage(alloc, &mut image.opened.disk, asked) {
        Ok(salvaged) => salvaged,
        Err(error) => return Err(refuse_error(alloc, image.name, &error)),
    };
    if is_json {
        let text = salvaged_json(alloc, image.name, &salvaged)?;
        writeln!(out, "{text}")?;
    } else {
        print_salvaged(out, alloc, image.name, &salvaged)?;
    }
    Ok(match (salvaged.has_failed(), salvaged.is_empty()) {
        (true, _) => 5,
        (false, true) => 3,
        (false, false) => 0,
    })
}
