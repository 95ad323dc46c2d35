//! Prints one partition, or one of its fields.

use crate::json::print_json;
use crate::members::Members;
use crate::reason::Reason;
use crate::report::{Commands, Message};
use crate::texts::{GuidText, NameText};
use gptedit_values::{AttributeNames, FIELDS, Field, ShellWord, UnitsText};
use gptguid_core::text_of;
use gptman::{GPTPartitionEntry, PartitionName};
use serde_json::Value;
use std::alloc::{AllocError, Global};
use std::io::Write;
use std::{fmt, io};

// The width of the names of fields, each with a colon, and of a space.
const NAME_WIDTH: usize = 12;

/// A partition of a table.
#[derive(Clone, Copy)]
pub struct Partition<'a> {
    /// The number of its entry.
    pub number: u32,
    /// Its entry.
    pub entry: &'a GPTPartitionEntry,
    /// The sector size in bytes.
    pub sector_size: u64,
}

impl<'a> Partition<'a> {
    /// Reports whether the field has a value. A size has none if the partition ends before it starts, and a number has
    /// none if it exceeds 64 bits.
    pub fn has_value(&self, field: Field) -> bool {
        !matches!(self.value(field), FieldValue::Missing)
    }

    fn value(&self, field: Field) -> FieldValue<'a> {
        let entry = self.entry;
        match field {
            Field::Number => FieldValue::Number(u64::from(self.number)),
            Field::Start => FieldValue::Number(entry.starting_lba),
            Field::End => FieldValue::Number(entry.ending_lba),
            Field::Size => FieldValue::of(self.sectors()),
            Field::Offset => FieldValue::of(self.bytes(entry.starting_lba)),
            Field::SizeBytes => {
                FieldValue::of(self.sectors().and_then(|sectors| self.bytes(sectors)))
            }
            Field::Type => FieldValue::Guid(&entry.partition_type_guid),
            Field::Guid => FieldValue::Guid(&entry.unique_partition_guid),
            Field::Name => FieldValue::Name(&entry.partition_name),
            Field::Attributes => FieldValue::Attributes(entry.attribute_bits),
        }
    }

    // Returns the size in sectors.
    fn sectors(&self) -> Option<u64> {
        self.entry.size().ok()
    }

    // Returns the number of bytes in this number of sectors.
    fn bytes(&self, sectors: u64) -> Option<u64> {
        sectors.checked_mul(self.sector_size)
    }
}

// The value of a field. As text, GUIDs are in lower case, and hidden characters of names are escaped.
#[derive(Clone, Copy)]
enum FieldValue<'a> {
    Number(u64),
    Missing,
    Guid(&'a [u8; 16]),
    Name(&'a PartitionName),
    Attributes(u64),
}

impl FieldValue<'_> {
    fn of(number: Option<u64>) -> FieldValue<'static> {
        match number {
            Some(number) => FieldValue::Number(number),
            None => FieldValue::Missing,
        }
    }

    // Returns the value as JSON. GUIDs are in upper case.
    fn to_json(self, alloc: Global) -> Result<Value, AllocError> {
        match self {
            FieldValue::Number(number) => Ok(Value::from(number)),
            FieldValue::Missing => Ok(Value::Null),
            FieldValue::Guid(guid) => {
                let mut buffer = [0; 36];
                Value::try_from_str(alloc, text_of(guid, &mut buffer))
            }
            FieldValue::Name(name) => Value::try_from_str(alloc, name.as_str()),
            FieldValue::Attributes(bits) => {
                let names = format!(in alloc; "{}", AttributeNames(bits))?;
                Value::try_from_str(alloc, names.as_str())
            }
        }
    }
}

impl fmt::Display for FieldValue<'_> {
    fn fmt<W: fmt::Write>(&self, f: &mut fmt::Formatter<W>) -> fmt::Result {
        match self {
            FieldValue::Number(number) => write!(f, "{number}"),
            FieldValue::Missing => Ok(()),
            FieldValue::Guid(guid) => GuidText(guid).fmt(f),
            FieldValue::Name(name) => NameText(name).fmt(f),
            FieldValue::Attributes(bits) => AttributeNames(*bits).fmt(f),
        }
    }
}

/// Prints the value of a field and a newline, or only the newline if it has no value. Sectors and bytes are numbers,
/// GUIDs are in lower case, attributes are in the form that `read_attributes` reads, and hidden characters of a name
/// are escaped.
///
/// Returns the error of `out`.
pub fn print_field<W: Write>(
    out: &mut W,
    partition: &Partition<'_>,
    field: Field,
) -> io::Result<()> {
    writeln!(out, "{}", partition.value(field))
}

/// Prints a line for each field: its name, a colon, and its value as `print_field` prints it, in two columns.
///
/// Returns the error of `out`, or `OutOfMemory`.
pub fn print_partition<W: Write>(
    out: &mut W,
    alloc: Global,
    partition: &Partition<'_>,
) -> io::Result<()> {
    for field in FIELDS {
        let name = format!(in alloc; "{}:", field.name())?;
        let value = format!(in alloc; "{}", partition.value(field))?;
        if value.is_empty() {
            writeln!(out, "{name}")?;
        } else {
            writeln!(out, "{name:<NAME_WIDTH$}{value}")?;
        }
    }
    Ok(())
}

/// Returns the value of a field as JSON: a number, or a text with the GUID in upper case, the name or the attributes;
/// null if the field has no value.
pub fn field_json(
    alloc: Global,
    partition: &Partition<'_>,
    field: Field,
) -> Result<String, AllocError> {
    print_json(alloc, &partition.value(field).to_json(alloc)?)
}

/// Returns a partition as JSON: an object with the value of each field, as `field_json` returns it, and the 36 units of
/// the name as `UnitsText` prints them. The keys are `number`, `start_sectors`, `end_sectors`, `size_sectors`,
/// `offset_bytes`, `size_bytes`, `type`, `guid`, `name`, `attributes` and `name_utf16`.
pub fn partition_json(alloc: Global, partition: &Partition<'_>) -> Result<String, AllocError> {
    print_json(alloc, &partition_value(alloc, partition)?)
}

/// Returns the object that `partition_json` prints.
pub(crate) fn partition_value(
    alloc: Global,
    partition: &Partition<'_>,
) -> Result<Value, AllocError> {
    let mut members = Members::new(alloc);
    for field in FIELDS {
        members.put(key_of(field), partition.value(field).to_json(alloc)?)?;
    }
    let name = &partition.entry.partition_name;
    let units = format!(in alloc; "{}", UnitsText(name.units()))?;
    members.put_text("name_utf16", units.as_str())?;
    Ok(members.into_value())
}

// Returns the key of a field in JSON.
fn key_of(field: Field) -> &'static str {
    match field {
        Field::Start => "start_sectors",
        Field::End => "end_sectors",
        Field::Size => "size_sectors",
        Field::Offset => "offset_bytes",
        Field::SizeBytes => "size_bytes",
        field => field.name(),
    }
}

/// Message: a field of a partition has no value. One line, without the last newline.
#[derive(Clone, Copy)]
pub struct NoValueText<'a> {
    /// The partition.
    pub partition: Partition<'a>,
    /// The field.
    pub field: Field,
    /// The path of the image or device, as given by the user.
    pub image: &'a str,
}

impl fmt::Display for NoValueText<'_> {
    fn fmt<W: fmt::Write>(&self, f: &mut fmt::Formatter<W>) -> fmt::Result {
        let Partition { number, entry, .. } = self.partition;
        let (first, last) = (entry.starting_lba, entry.ending_lba);
        let (name, image) = (self.field.name(), ShellWord(self.image));
        write!(
            f,
            "the {name} of partition {number} (sectors {first}..{last}) "
        )?;
        write!(f, "is not a number below 2^64; see `gptedit check {image}`")
    }
}

impl Message for NoValueText<'_> {
    fn reason(&self) -> Reason {
        Reason::NoValue
    }

    fn add_commands(&self, commands: &mut Commands) -> Result<(), AllocError> {
        commands.add_own("check", self.image)
    }
}
