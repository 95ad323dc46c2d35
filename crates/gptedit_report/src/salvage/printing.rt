//! Prints the result of a search as a layout in TOML, with comments.

use crate::salvage::advice::{Advice, count_missing, is_in_layout};
use crate::salvage::layouts::{Frame, layout_of, layout_of_one};
use crate::salvage::texts::{HeaderText, Partitions, SpotText};
use gptedit_formats::copies::{FoundCopy, FoundEntry, Salvaged};
use gptedit_text::{Header, write_layout};
use gptedit_values::Escaped;
use gptman::sizes::SECTOR_SIZES;
use std::alloc::Global;
use std::io;
use std::io::Write;

/// Prints the best copy as a layout in TOML, after comments with its faults. Entries that the layout cannot have, and
/// the other copies, follow as comments. If nothing was found, comments list the places searched.
///
/// # Errors
///
/// Errors of `out`, and allocation failures.
pub fn print_salvaged<W: Write>(
    out: &mut W,
    alloc: Global,
    image: &str,
    salvaged: &Salvaged,
) -> io::Result<()> {
    match salvaged.best_copy() {
        None => print_nothing(out, image, salvaged),
        Some(best) => {
            let frame = Frame::of(best);
            let advice = Advice::of(salvaged, best, &frame);
            print_best(out, alloc, image, best, &frame, advice)?;
            for (index, copy) in salvaged.copies.iter().enumerate() {
                if salvaged.best != Some(index) {
                    print_other(out, alloc, copy, best, &frame)?;
                }
            }
            Ok(())
        }
    }
}

// Prints that nothing was found, and the places searched.
fn print_nothing<W: Write>(out: &mut W, image: &str, salvaged: &Salvaged) -> io::Result<()> {
    let image = Escaped(image);
    write!(
        out,
        "# {image}: nothing of a GUID partition table was found: "
    )?;
    write!(
        out,
        "no header in sector 1 or the last sector, no entries next to them, "
    )?;
    write!(out, "with sectors of ")?;
    match salvaged.asked {
        Some(size) => write!(out, "{size}")?,
        None => print_sizes(out)?,
    }
    writeln!(out, " bytes")?;
    for copy in salvaged.copies.iter() {
        print_faults(out, copy)?;
    }
    Ok(())
}

fn print_sizes<W: Write>(out: &mut W) -> io::Result<()> {
    let mut comma = "";
    for size in SECTOR_SIZES {
        write!(out, "{comma}{size}")?;
        comma = ", ";
    }
    Ok(())
}

// Prints the best copy: its faults, the advice, the layout, and the entries that are left out.
fn print_best<W: Write>(
    out: &mut W,
    alloc: Global,
    image: &str,
    best: &FoundCopy,
    frame: &Frame,
    advice: Advice,
) -> io::Result<()> {
    let (image, spot) = (Escaped(image), SpotText(best.spot));
    let sectors = best.spot.sectors;
    writeln!(
        out,
        "# {image}: salvaged from {spot}; the disk has {sectors} sectors"
    )?;
    print_faults(out, best)?;
    for found in best.entries.iter() {
        print_entry_faults(out, found, frame)?;
    }
    if best.header.is_none() {
        writeln!(out, "#   the GUID of the disk is not known")?;
    }
    writeln!(out, "{advice}")?;
    let layout = layout_of(alloc, best, frame)?;
    let text = write_layout(alloc, &layout, &frame.header)?;
    out.write_all(text.as_bytes())?;
    for found in best.entries.iter() {
        if !frame.takes(found) {
            let number = found.number;
            writeln!(out, "\n# partition {number} is left out:")?;
            print_as_comment(out, alloc, found)?;
        }
    }
    Ok(())
}

fn print_faults<W: Write>(out: &mut W, copy: &FoundCopy) -> io::Result<()> {
    for fault in copy.faults.iter() {
        writeln!(out, "#   {fault}")?;
    }
    Ok(())
}

// Prints the faults of an entry, and whether it is outside the sectors for partitions.
fn print_entry_faults<W: Write>(out: &mut W, found: &FoundEntry, frame: &Frame) -> io::Result<()> {
    let number = found.number;
    for fault in found.faults.iter() {
        writeln!(out, "#   partition {number}: {fault}")?;
    }
    if found.is_sensible() && !frame.has_room_for(found) {
        let (first, last) = (frame.first, frame.last);
        write!(
            out,
            "#   partition {number}: it is not within {first}..{last}, "
        )?;
        writeln!(out, "the sectors between the copies of a table here")?;
    }
    Ok(())
}

// Prints an entry as a section of a layout, in comments.
fn print_as_comment<W: Write>(out: &mut W, alloc: Global, found: &FoundEntry) -> io::Result<()> {
    let layout = layout_of_one(alloc, found)?;
    let text = write_layout(alloc, &layout, &Header::nothing())?;
    let mut is_section = false;
    for line in text.lines() {
        is_section = is_section || line == "[[partition]]";
        if is_section {
            writeln!(out, "# {line}")?;
        }
    }
    Ok(())
}

// Prints another copy as comments: its header, its faults, and its entries that are not in the layout.
fn print_other<W: Write>(
    out: &mut W,
    alloc: Global,
    copy: &FoundCopy,
    best: &FoundCopy,
    frame: &Frame,
) -> io::Result<()> {
    writeln!(out, "\n# {}", SpotText(copy.spot))?;
    if let Some(header) = &copy.header {
        write!(out, "{}", HeaderText(header))?;
    }
    print_faults(out, copy)?;
    let count = copy.entries.len();
    let missing = count_missing(copy, best, frame);
    writeln!(
        out,
        "#   {}, {missing} not in the layout",
        Partitions(count)
    )?;
    for found in copy.entries.iter() {
        if !is_in_layout(found, best, frame) {
            for fault in found.faults.iter() {
                writeln!(out, "#   partition {}: {fault}", found.number)?;
            }
            print_as_comment(out, alloc, found)?;
        }
    }
    Ok(())
}
