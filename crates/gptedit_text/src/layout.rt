//! Reads layouts in TOML.

ghost use Rattle.std.specs.Prelude.{◌≡◌, codes, IfOk, IfSome};
ghost use Rattle.toml.specs.Data.{get_member};
ghost use Rattle.toml.specs.View.{table_view};
ghost use Rattle.gptedit_text.specs.Layouts.{GivesAttributesOf};

mod keyed;

use crate::entries::{Entries, read_name};
use crate::error::{ErrorList, Fault, LayoutError, NotLayout, Section};
use crate::layout::keyed::Keyed;
use crate::lines::position_of;
use crate::table_header::{Form, Header};
use crate::{Parsed, StatedPlace};
use gptedit_core::{Amount, Asked, DEFAULT_ALIGN, Extent};
use gptedit_values::{
    read_amount, read_guid, read_length, read_position, read_sector, read_type, read_units,
};
use gptman::PartitionName;
use std::alloc::Global;
use toml::{Table, Value};

/// Reads a layout in TOML, and its values for the header of the table, which the caller has to compare:
///
/// ```toml
/// [disk]
/// guid = "33221100-5544-7766-8899-aabbccddeeff"
/// align = "1MiB"
/// sector-size = "512B"
/// entries = 128
/// first-usable = "34s"
/// last-usable = "262110s"
/// [[partition]]
/// number = 1
/// name = "ESP"
/// type = "efi"
/// start = "2048s"
/// size = "64MiB"
/// guid = "c0ffee00-0000-4000-8000-000000000001"
/// attributes = ["required", 60]
/// ```
///
/// A partition may have an `end` instead of a `size`. All keys are optional. A partition without `number` means the
/// entry that `match_layout` finds; the default of `align` is 1 MiB. One partition may have the size `rest`. Instead of
/// `name` there may be `name-utf16 = "0041 d800"`, the UTF-16 units of the name. The mode of the layout is
/// `Become { replace: false }`.
///
/// A text without any key fails with `Empty`; one with only `[disk]` is a layout without partitions. The errors are
/// those of all keys, unless the text is not TOML.
pub fn read_layout(alloc: Global, text: &str) -> Result<Parsed, NotLayout> {
    let mut errors = ErrorList::new(alloc);
    let parsed = match read_table(alloc, text, &mut errors) {
        Ok(parsed) => parsed,
        Err(error) => return Err(NotLayout::of(alloc, error)),
    };
    if errors.is_empty() {
        return Ok(parsed);
    }
    match errors.with_lines(alloc, text) {
        Ok(errors) => Err(NotLayout::Errors(errors)),
        Err(_) => Err(NotLayout::OutOfMemory),
    }
}

// Reads a layout. Wrong keys and values are added to the errors, and left out.
fn read_table(alloc: Global, text: &str, errors: &mut ErrorList) -> Result<Parsed, LayoutError> {
    let table = match toml::table_from_str(alloc, text) {
        Ok(table) => table,
        Err(error) => return Err(syntax_error(text, error)),
    };
    if table.is_empty() {
        return Err(LayoutError::Empty);
    }
    parsed_of(alloc, &table, errors)
}

// An error without a span is an allocation failure.
fn syntax_error(text: &str, error: toml::de::Error) -> LayoutError {
    match error.span() {
        Some(span) => {
            let (line, column) = position_of(text, span.start);
            LayoutError::Syntax {
                line,
                column,
                error,
            }
        }
        None => LayoutError::OutOfMemory,
    }
}

fn parsed_of(alloc: Global, table: &Table, errors: &mut ErrorList) -> Result<Parsed, LayoutError> {
    let file = Keyed::new(table, Section::File);
    file.check_keys(alloc, errors)?;
    let disk = read_disk(alloc, &file, errors)?;
    let mut entries = read_entries(alloc, &file, errors)?;
    let places = entries.take_places(alloc);
    Ok(Parsed {
        layout: entries.into_layout(alloc, disk.guid, disk.align),
        header: disk.header,
        form: Form::Toml,
        bootable: Vec::new(alloc),
        places,
    })
}

// The values of `[disk]`.
#[derive(Clone, Copy)]
struct Disk {
    guid: Option<[u8; 16]>,
    align: Amount,
    header: Header,
}

impl Disk {
    fn nothing() -> Disk {
        Disk {
            guid: None,
            align: DEFAULT_ALIGN,
            header: Header::nothing(),
        }
    }
}

fn read_disk(alloc: Global, file: &Keyed<'_>, errors: &mut ErrorList) -> Result<Disk, LayoutError> {
    let Some(value) = file.get("disk") else {
        return Ok(Disk::nothing());
    };
    let Some(table) = value.as_table() else {
        errors.add(file.fault("disk", Fault::NotTable))?;
        return Ok(Disk::nothing());
    };
    let disk = Keyed::new(table, Section::Disk);
    disk.check_keys(alloc, errors)?;
    let guid = errors.keep(disk.word("guid", |text| read_guid(text)))?;
    let align = errors.keep(disk.word("align", |text| read_amount(text)))?;
    Ok(Disk {
        guid: guid.flatten(),
        align: align.flatten().unwrap_or(DEFAULT_ALIGN),
        header: read_header(&disk, errors)?,
    })
}

fn read_header(disk: &Keyed<'_>, errors: &mut ErrorList) -> Result<Header, LayoutError> {
    let sector_size = errors.keep(read_sector_size(disk))?;
    let entries = errors.keep(disk.count("entries"))?;
    let first_usable = errors.keep(disk.word("first-usable", |text| read_sector(text)))?;
    let last_usable = errors.keep(disk.word("last-usable", |text| read_sector(text)))?;
    let header = Header {
        sector_size: sector_size.flatten(),
        entries: entries.flatten(),
        first_usable: first_usable.flatten(),
        last_usable: last_usable.flatten(),
    };
    if header.ends_early() {
        errors.add(disk.fault("last-usable", Fault::EndsEarly))?;
    }
    Ok(header)
}

// Reads the size of a sector in bytes.
fn read_sector_size(disk: &Keyed<'_>) -> Result<Option<u64>, LayoutError> {
    match disk.word("sector-size", |text| read_amount(text))? {
        None => Ok(None),
        Some(Amount::Bytes(bytes)) => Ok(Some(bytes)),
        Some(Amount::Sectors(_)) => Err(disk.fault("sector-size", Fault::NotSectorSize)),
    }
}

fn read_entries(
    alloc: Global,
    file: &Keyed<'_>,
    errors: &mut ErrorList,
) -> Result<Entries, LayoutError> {
    let mut entries = Entries::new(alloc);
    let Some(value) = file.get("partition") else {
        return Ok(entries);
    };
    let Some(list) = value.as_array() else {
        errors.add(file.fault("partition", Fault::NotTables))?;
        return Ok(entries);
    };
    for (index, value) in list.iter().enumerate() {
        let Some(table) = value.as_table() else {
            errors.add(file.fault("partition", Fault::NotTables))?;
            return Ok(entries);
        };
        let section = Section::Partition(index.saturating_add(1));
        add_entry(alloc, &mut entries, &Keyed::new(table, section), errors)?;
    }
    Ok(entries)
}

// Adds the request of one `[[partition]]`, unless a key or value is wrong.
fn add_entry(
    alloc: Global,
    entries: &mut Entries,
    partition: &Keyed<'_>,
    errors: &mut ErrorList,
) -> Result<(), LayoutError> {
    partition.check_keys(alloc, errors)?;
    let number = errors.keep(read_number(partition))?.flatten();
    errors.keep(entries.take_number(partition.place(), number))?;
    let place = read_place(entries, partition, errors)?;
    match (read_entry(alloc, partition, number, errors)?, place) {
        (Some(asked), Some(place)) => entries.add_at(asked, place),
        _ => Ok(()),
    }
}

// Reads the number of a partition.
fn read_number(partition: &Keyed<'_>) -> Result<Option<u32>, LayoutError> {
    let number = match partition.get("number") {
        None => return Ok(None),
        Some(Value::Integer(number)) if *number > 0 => u32::try_from(*number).ok(),
        Some(_) => None,
    };
    match number {
        Some(number) => Ok(Some(number)),
        None => Err(partition.fault("number", Fault::NotNumber)),
    }
}

// Reads the place of a partition. `None` if a value is wrong.
fn read_place(
    entries: &mut Entries,
    partition: &Keyed<'_>,
    errors: &mut ErrorList,
) -> Result<Option<StatedPlace>, LayoutError> {
    let start = errors.keep(partition.word("start", |text| read_position(text)))?;
    let size = errors.keep(read_some_size(entries, partition))?;
    let end = errors.keep(read_end(partition))?;
    match (start, size, end) {
        (Some(start), Some(size), Some(end)) => Ok(Some(StatedPlace {
            start,
            extent: size.or(end),
        })),
        _ => Ok(None),
    }
}

// Reads the size of a partition. It must be the only one that is `rest`.
fn read_some_size(
    entries: &mut Entries,
    partition: &Keyed<'_>,
) -> Result<Option<Extent>, LayoutError> {
    let size = partition.word("size", |text| read_length(text))?;
    entries.check_rest(partition.place(), size)?;
    Ok(size)
}

// Reads the end of a partition, which must not have a size too.
fn read_end(partition: &Keyed<'_>) -> Result<Option<Extent>, LayoutError> {
    let Some(position) = partition.word("end", |text| read_position(text))? else {
        return Ok(None);
    };
    match partition.get("size") {
        None => Ok(Some(Extent::End(position))),
        Some(_) => Err(partition.fault("end", Fault::TwoEnds)),
    }
}

// Reads the request for the entry of this number, if it is given, without a place. `None` if a value is wrong.
fn read_entry(
    alloc: Global,
    partition: &Keyed<'_>,
    number: Option<u32>,
    errors: &mut ErrorList,
) -> Result<Option<Asked>, LayoutError>
    ensures number { IfOk result (λ read. IfSome read (λ asked. asked.number ≡ number)) }
    ensures attributes { IfOk result (λ read. IfSome read (λ asked. GivesAttributesOf (get_member (codes "attributes") (table_view partition.now.table.now)) asked.attributes)) }
{
    let type_guid = errors.keep(partition.word("type", |text| read_type(text)))?;
    let unique_guid = errors.keep(partition.word("guid", |text| read_guid(text)))?;
    let attributes = errors.keep(partition.attributes("attributes"))?;
    let name = errors.keep(read_some_name(alloc, partition))?;
    match (type_guid, unique_guid, attributes, name) {
        (Some(type_guid), Some(unique_guid), Some(attributes), Some(name)) => Ok(Some(Asked {
            type_guid,
            unique_guid,
            attributes,
            name,
            ..Asked::nothing(number)
        })),
        _ => Ok(None),
    }
}

// Reads the name of a partition, from its text or from its units.
fn read_some_name(
    alloc: Global,
    partition: &Keyed<'_>,
) -> Result<Option<PartitionName>, LayoutError> {
    match (partition.text("name")?, partition.text("name-utf16")?) {
        (None, None) => Ok(None),
        (Some(text), None) => Ok(Some(read_name(alloc, partition.place(), text)?)),
        (None, Some(text)) => {
            let Some(units) = read_units(text) else {
                return Err(partition.fault("name-utf16", Fault::NotUnits));
            };
            match PartitionName::from_units(alloc, units) {
                Ok(name) => Ok(Some(name)),
                Err(_) => Err(LayoutError::OutOfMemory),
            }
        }
        (Some(_), Some(_)) => Err(partition.fault("name-utf16", Fault::TwoNames)),
    }
}
