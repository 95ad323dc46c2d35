//! Reads layouts from files.

use crate::failure::{Failure, refuse, refuse_asked, refuse_error, refuse_failed, refuse_plain};
use crate::fitted::{copy_of, ends_with_disk, fit_bounds};
use gptedit_core::{
    MatchedLayout, Refusal, RequestedLayout, SectorRange, Shape, Stop, match_layout, number_added,
};
use gptedit_look::Look;
use gptedit_report::{Edges, NotLayoutText, Reason};
use gptedit_text::{
    Header, MAX_LAYOUT_BYTES, NotLayout, Parsed, is_backup, is_script, read_additions, read_backup,
    read_layout, read_script,
};
use gptman::GPT;
use std::alloc::Global;
use std::fs::File;
use std::io::{ErrorKind, Read};
use std::rt::Files;
use std::{io, mem};

/// Reads a layout, an `sfdisk` script or an `sgdisk` backup from a file; `-` is standard input. Call it before the image
/// is opened. Otherwise the image is locked while standard input is read, and may get the descriptor of a closed standard
/// input.
pub fn read_asked<R: Files<File = File> + Input + AllocGlobal>(
    rt: &R,
    file: &str,
) -> Result<Parsed, Failure> {
    let alloc = rt.alloc();
    let bytes = read_file(rt, file)?;
    let parsed = if is_backup(&bytes) {
        read_backup(alloc, bytes)
    } else {
        let text = text_of(alloc, file, bytes)?;
        if is_script(text.as_str()) {
            read_script(alloc, text.as_str())
        } else {
            read_layout(alloc, text.as_str())
        }
    };
    parsed.map_err(|error| not_a_layout(alloc, file, error))
}

/// Reads an `sfdisk` script whose partitions are new ones, as `read_asked` does.
pub fn read_added<R: Files<File = File> + Input + AllocGlobal>(
    rt: &R,
    file: &str,
) -> Result<Parsed, Failure> {
    let alloc = rt.alloc();
    let bytes = read_file(rt, file)?;
    if is_backup(&bytes) {
        return Err(refuse_plain(alloc, file, Reason::BadLayout, NO_SCRIPT));
    }
    let text = text_of(alloc, file, bytes)?;
    if !is_script(text.as_str()) {
        return Err(refuse_plain(alloc, file, Reason::BadLayout, NO_SCRIPT));
    }
    match read_additions(alloc, text.as_str()) {
        Ok(parsed) => Ok(parsed),
        Err(error) => Err(not_a_layout(alloc, file, error)),
    }
}

const NO_SCRIPT: &str =
    "it is not a script of sfdisk\n`gptedit apply` takes layouts in TOML and backups of sgdisk";

fn text_of(alloc: Global, file: &str, bytes: Vec<u8>) -> Result<String, Failure> {
    match String::from_utf8(bytes) {
        Ok(text) => Ok(text),
        Err(_) => {
            let text = "the layout is not a text in UTF-8";
            Err(refuse_plain(alloc, file, Reason::BadLayout, text))
        }
    }
}

// Reads a file, which must not be larger than a layout may be.
fn read_file<R: Files<File = File> + Input + AllocGlobal>(
    rt: &R,
    file: &str,
) -> Result<Vec<u8>, Failure> {
    let alloc = rt.alloc();
    let read = if file == "-" {
        read_bytes(alloc, &mut rt.reader())
    } else {
        match File::open(rt, file) {
            Ok(mut opened) => read_bytes(alloc, &mut opened),
            Err(error) => Err(error),
        }
    };
    let bytes = match read {
        Ok(bytes) => bytes,
        Err(error) => return Err(not_read(alloc, file, error)),
    };
    if bytes.len() as u64 > MAX_LAYOUT_BYTES {
        let text = "the layout is larger than 64 MiB";
        return Err(refuse_plain(alloc, file, Reason::BadLayout, text));
    }
    Ok(bytes)
}

// The length of each read in bytes.
const PIECE: usize = 65536;

// Reads up to the end, or until there are more than `MAX_LAYOUT_BYTES`.
fn read_bytes<R: Read>(alloc: Global, reader: &mut R) -> io::Result<Vec<u8>> {
    let mut bytes = Vec::new(alloc);
    let mut piece = vec![in alloc; 0; PIECE]?;
    for _ in 0..u64::MAX {
        let count = match reader.read(&mut piece) {
            Ok(count) => count,
            Err(error) if error.kind() == ErrorKind::Interrupted => continue,
            Err(error) => return Err(error),
        };
        let Some(read) = piece.get(..count) else {
            return Ok(bytes);
        };
        bytes.extend_from_slice(read)?;
        if count == 0 || bytes.len() as u64 > MAX_LAYOUT_BYTES {
            return Ok(bytes);
        }
    }
    Ok(bytes)
}

fn not_read(alloc: Global, file: &str, error: io::Error) -> Failure {
    match error.kind() {
        ErrorKind::OutOfMemory => Failure::OutOfMemory,
        _ => refuse_failed(alloc, file, Reason::LayoutNotRead, &error),
    }
}

fn not_a_layout(alloc: Global, file: &str, error: NotLayout) -> Failure {
    match error {
        NotLayout::OutOfMemory => Failure::OutOfMemory,
        NotLayout::Errors(errors) => refuse(alloc, file, &NotLayoutText(&errors)),
    }
}

/// Takes the lines of a script that mark partitions as bootable.
pub fn take_bootable(alloc: Global, parsed: Option<&mut Parsed>) -> Vec<usize> {
    match parsed {
        Some(parsed) => mem::replace(&mut parsed.bootable, Vec::new(alloc)),
        None => Vec::new(alloc),
    }
}

/// Returns the layout of a script, with a number for each partition that it adds to the table. Refuses a script for
/// sectors of another size.
pub fn added(
    alloc: Global,
    image: &str,
    file: &str,
    parsed: Parsed,
    table: &GPT,
) -> Result<RequestedLayout, Failure> {
    if let Err(other) = parsed.header.check(parsed.form, table, false) {
        return Err(refuse_failed(alloc, file, Reason::LayoutMismatch, &other));
    }
    number_added(alloc, table, parsed.layout).map_err(|stop| not_planned(alloc, image, table, stop))
}

/// How a layout is applied.
#[derive(Clone, Copy)]
pub struct Applied<'a> {
    /// The file with the layout.
    pub file: &'a str,
    /// Whether the layout replaces what the table has.
    pub is_replacing: bool,
    /// Whether the table is first fitted to the disk.
    pub is_fitted: bool,
}

/// Returns the shape that a layout gives the table, or `None` if the table has it. A table that is fitted is compared as it
/// is after that.
pub fn shape_for(
    alloc: Global,
    image: &str,
    look: &Look,
    table: &GPT,
    parsed: &Parsed,
    applied: Applied<'_>,
) -> Result<Option<Shape>, Failure> {
    if !applied.is_fitted || ends_with_disk(table, look) {
        return shape_of(alloc, image, look, table, parsed, applied);
    }
    let fitted = fit_bounds(table, look.size)?;
    shape_of(alloc, image, look, &fitted, parsed, applied)
}

// Returns the shape that a layout gives this table, or `None` if it has it. If the layout replaces nothing, refuses one
// whose header does not match the table. Otherwise refuses only one for sectors of another size.
fn shape_of(
    alloc: Global,
    image: &str,
    look: &Look,
    table: &GPT,
    parsed: &Parsed,
    applied: Applied<'_>,
) -> Result<Option<Shape>, Failure> {
    let checked = if applied.is_replacing {
        parsed.header.check_sector_size(parsed.form, table)
    } else {
        parsed.header.check(parsed.form, table, true)
    };
    let next = parsed.header.shape().complete(table);
    if let Err(other) = checked {
        if other.is_settable {
            refuse_shape(alloc, image, look, table, next)?;
        }
        return Err(refuse_failed(alloc, applied.file, Reason::LayoutMismatch, &other));
    }
    let is = Header::of(table).shape().complete(table);
    Ok(if next == is { None } else { Some(next) })
}

// Refuses a shape that no table on the disk has, so that `--replace` would not set it.
fn refuse_shape(
    alloc: Global,
    image: &str,
    look: &Look,
    table: &GPT,
    shape: Shape,
) -> Result<(), Failure> {
    let mut shaped = copy_of(table)?;
    shaped.header.number_of_partition_entries = shape.entries;
    shaped.header.first_usable_lba = shape.first_usable;
    shaped.header.last_usable_lba = shape.last_usable;
    let edges = Edges::of(&shaped, look.size);
    let refusal = if shape.entries == 0 || !edges.have_room() {
        Refusal::TooSmallFor(shape.entries)
    } else if ends_with_disk(table, look) && (edges.are_over() || edges.are_reversed()) {
        Refusal::OutOfBounds(SectorRange {
            first: edges.least,
            last: edges.most,
        })
    } else {
        return Ok(());
    };
    Err(refuse_asked(alloc, image, Some(&shaped), shaped.sector_size, &refusal))
}

/// Returns the table with the usable sectors and the entries of the shape.
pub fn widened(alloc: Global, table: &GPT, shape: Shape) -> Result<GPT, Failure> {
    match shape.widen(alloc, table) {
        Ok(table) => Ok(table),
        Err(_) => Err(Failure::OutOfMemory),
    }
}

/// Returns the layout to apply to a table, with the entries that it means. With `is_replacing`, the layout removes the
/// partitions that it does not mean.
pub fn layout_for(
    alloc: Global,
    image: &str,
    layout: RequestedLayout,
    table: &GPT,
    is_replacing: bool,
) -> Result<MatchedLayout, Failure> {
    match_layout(alloc, table, layout, is_replacing).map_err(|stop| not_planned(
        alloc, image, table, stop,
    ))
}

fn not_planned(alloc: Global, image: &str, table: &GPT, stop: Stop) -> Failure {
    match stop {
        Stop::Refused(refusal) => {
            let size = table.sector_size;
            refuse_asked(alloc, image, Some(table), size, &refusal)
        }
        Stop::Failed(error) => refuse_error(alloc, image, &error),
    }
}
