//! Reads scripts of `sfdisk`, as `sfdisk --dump` prints them and as people write them.

ghost use Rattle.std.specs.Prelude.{◌≡◌, IfOk, None};
ghost use Rattle.gptedit_core.specs.declared.asked.Mode.TheVariants.{Add};
ghost use Rattle.gptedit_text.specs.Scripts.{HasOnlySectorSize};

mod extents;
mod fields;
mod header_lines;
mod kinds;
mod token;
mod words;

use crate::Parsed;
use crate::entries::Entries;
use crate::error::{ErrorList, LayoutError, NotLayout, Section, TextPlace};
use crate::script::fields::{is_partition, read_line};
use crate::script::header_lines::{HeaderLines, header_of, is_header};
use crate::table_header::{Form, Header};
use gptedit_core::{Mode, RequestedLayout};
use std::alloc::Global;

/// Reports whether the text is a script: its first line that is not empty or a comment is a header or a partition of
/// `sfdisk`. A layout in TOML never begins like that: it begins with a section, and `size = "1MiB"` before one is an
/// error of a layout, because a script has no blank before a `=`.
pub fn is_script(text: &str) -> bool {
    match text
        .lines()
        .map(|line| line.trim())
        .find(|line| is_said(line))
    {
        Some(line) => is_header(line) || is_partition(line),
        None => false,
    }
}

/// Reads a script: its layout, and its values for the header of the table, which the caller has to compare.
///
/// The headers are `label: gpt`, which is the default, `label-id`, `device` (which is ignored), `unit: sectors`,
/// `first-lba`, `last-lba`, `table-length`, `sector-size` and `grain`. Each line after them is a partition: `NODE :
/// start=.., size=.., type=.., uuid=.., name="..", attrs="..", bootable`, where each part is optional, or
/// `START,SIZE,TYPE,MARK`, where a part that is empty or `-` has its default. `write` and `quit` end the script.
///
/// The number of a partition is the one at the end of NODE; without one it means the entry that `match_layout` finds.
/// By default a partition starts in the longest run of free sectors, has the size `rest` and the type `linux`, and has no name and
/// no attributes. Starts and sizes are sectors of the table, or bytes with a unit, from `KiB` to `EiB`. A sign before
/// them is ignored, since `sfdisk` reads it only where it changes one partition (`-N`); without a number it means the
/// default. `bootable`, or the MARK `*` or `+`, sets the attribute `legacy-boot`.
///
/// The errors are the first of each line.
pub fn read_script(alloc: Global, text: &str) -> Result<Parsed, NotLayout> {
    let mut errors = ErrorList::new(alloc);
    match read_lines(alloc, text, &mut errors) {
        Ok(parsed) if errors.is_empty() => Ok(parsed),
        Ok(_) => Err(NotLayout::Errors(errors)),
        Err(error) => Err(NotLayout::of(alloc, error)),
    }
}

/// Reads a script whose lines are new partitions, as `sfdisk --append` does. `label-id`, `first-lba`, `last-lba` and
/// `table-length` are ignored. Other values and errors are those of `read_script`.
pub fn read_additions(alloc: Global, text: &str) -> Result<Parsed, NotLayout>
    ensures mode { IfOk result (λ parsed. parsed.layout.mode ≡ Add) }
    ensures guid { IfOk result (λ parsed. parsed.layout.disk_guid ≡ None) }
    ensures header { IfOk result (λ parsed. HasOnlySectorSize parsed.header) }
{
    let Parsed {
        layout,
        header,
        form,
        bootable,
        places,
    } = read_script(alloc, text)?;
    Ok(Parsed {
        layout: RequestedLayout {
            mode: Mode::Add,
            disk_guid: None,
            ..layout
        },
        header: Header {
            sector_size: header.sector_size,
            entries: None,
            first_usable: None,
            last_usable: None,
        },
        form,
        bootable,
        places,
    })
}

// Reads a script. Wrong lines are added to the errors, and left out.
fn read_lines(alloc: Global, text: &str, errors: &mut ErrorList) -> Result<Parsed, LayoutError> {
    let mut headers = HeaderLines::new();
    let mut partitions = Partitions::new(alloc);
    for (index, line) in text.lines().enumerate() {
        let line = line.trim();
        if ends_script(line) {
            break;
        }
        let number = index.checked_add(1);
        match header_of(line) {
            _ if !is_said(line) => (),
            Some((name, value)) if !partitions.has_lines => {
                let place = place_in(Section::Header, number);
                errors.keep(headers.read(alloc, place, name, value))?;
            }
            _ => {
                let place = place_in(Section::Line, number);
                errors.keep(partitions.read(alloc, place, line))?;
            }
        }
    }
    Ok(Parsed {
        layout: partitions
            .entries
            .into_layout(alloc, headers.disk_guid, headers.align),
        header: headers.header,
        form: Form::Script,
        bootable: partitions.bootable,
        places: Vec::new(alloc),
    })
}

// The partitions that were read.
#[derive(Drop)]
struct Partitions {
    entries: Entries,
    bootable: Vec<usize>,
    // Whether there was a line of a partition.
    has_lines: bool,
}

impl Partitions {
    fn new(alloc: Global) -> Partitions {
        Partitions {
            entries: Entries::new(alloc),
            bootable: Vec::new(alloc),
            has_lines: false,
        }
    }

    // Reads the line of one more partition.
    fn read(&mut self, alloc: Global, place: TextPlace, line: &str) -> Result<(), LayoutError> {
        self.has_lines = true;
        let partition = read_line(alloc, place, line)?;
        self.entries.take_number(place, partition.asked.number)?;
        if let (true, Some(line)) = (partition.is_bootable, place.line) {
            self.bootable.push(line)?;
        }
        self.entries.add(partition.asked)
    }
}

// Reports whether the line is neither empty nor a comment.
fn is_said(line: &str) -> bool {
    !line.is_empty() && !line.starts_with('#')
}

// Reports whether the line is a command of `sfdisk` that ends the script.
fn ends_script(line: &str) -> bool {
    line == "write" || line == "quit"
}

fn place_in(section: Section, line: Option<usize>) -> TextPlace {
    TextPlace { line, section }
}
