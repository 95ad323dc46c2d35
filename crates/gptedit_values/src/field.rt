//! The fields of a partition that a query names.

ghost use Rattle.std.specs.Prelude.{◌≡◌, IfErr, IfOk};
ghost use Rattle.gptedit_values.specs.Fields.{SaysField, SaysNoField};
ghost use Rattle.gptedit_values.specs.declared.wrong.Wrong.TheVariants.{NoField};

use crate::wrong::Wrong;
use std::fmt;

/// A field of a partition.
#[derive(Clone, Copy, PartialEq, Eq)]
pub enum Field {
    /// The number of its entry, from 1.
    Number,
    /// Its first sector.
    Start,
    /// Its last sector.
    End,
    /// Its size in sectors.
    Size,
    /// Its start in bytes from the start of the disk.
    Offset,
    /// Its size in bytes.
    SizeBytes,
    /// The GUID of its type.
    Type,
    /// Its GUID.
    Guid,
    /// Its name.
    Name,
    /// Its attributes.
    Attributes,
}

/// All fields, in the order in which they are printed.
pub const FIELDS: [Field; 10] = [
    Field::Number,
    Field::Start,
    Field::End,
    Field::Size,
    Field::Offset,
    Field::SizeBytes,
    Field::Type,
    Field::Guid,
    Field::Name,
    Field::Attributes,
];

impl Field {
    /// Returns its name, which `read_field` reads.
    pub fn name(self) -> &'static str
        ensures said { SaysField result.now self }
    {
        match self {
            Field::Number => "number",
            Field::Start => "start",
            Field::End => "end",
            Field::Size => "size",
            Field::Offset => "offset",
            Field::SizeBytes => "size-bytes",
            Field::Type => "type",
            Field::Guid => "guid",
            Field::Name => "name",
            Field::Attributes => "attributes",
        }
    }
}

/// Reads the name of a field: `number`, `start`, `end`, `size`, `offset`, `size-bytes`, `type`, `guid`, `name` or
/// `attributes`.
pub fn read_field(text: &str) -> Result<Field, Wrong>
    ensures said { IfOk result (SaysField text.now) }
    ensures refused { IfErr result (λ wrong. (wrong ≡ NoField) × SaysNoField text.now) }
{
    match text {
        "number" => Ok(Field::Number),
        "start" => Ok(Field::Start),
        "end" => Ok(Field::End),
        "size" => Ok(Field::Size),
        "offset" => Ok(Field::Offset),
        "size-bytes" => Ok(Field::SizeBytes),
        "type" => Ok(Field::Type),
        "guid" => Ok(Field::Guid),
        "name" => Ok(Field::Name),
        "attributes" => Ok(Field::Attributes),
        _ => Err(Wrong::NoField),
    }
}

/// The names of all fields, separated by commas.
#[derive(Clone, Copy)]
pub(crate) struct AllFields;

impl fmt::Display for AllFields {
    fn fmt<W: fmt::Write>(&self, f: &mut fmt::Formatter<W>) -> fmt::Result {
        let mut comma = "";
        for field in FIELDS {
            let name = field.name();
            write!(f, "{comma}{name}")?;
            comma = ", ";
        }
        Ok(())
    }
}
