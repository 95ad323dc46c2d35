//! Faults of values.

use gptedit_values::{AllSfdiskNames, AttributeName, Wrong, likely_name};
use gptman::sizes::{DEFAULT_ENTRY_COUNT, MAX_ENTRY_COUNT};
use std::fmt;

/// Why the value under a key is wrong.
#[derive(Clone, Copy, PartialEq, Eq, Debug)]
pub enum Fault {
    /// It is not a table.
    NotTable,
    /// It is not a list of tables.
    NotTables,
    /// It is not a string.
    NotText,
    /// It is not the string of a size or a position.
    NotSize,
    /// It is not the number of a partition.
    NotNumber,
    /// It is not a list of attributes.
    NotAttributes,
    /// The word is wrong.
    Value(Wrong),
    /// The word is no type. It is likely to mean this name.
    NoType(Option<&'static str>),
    /// An earlier partition has this number.
    Taken(u32),
    /// An earlier partition has the size `rest`.
    SecondRest,
    /// The name has too many UTF-16 units.
    LongName,
    /// The name contains a zero character.
    ZeroInName,
    /// It is not the units of a name.
    NotUnits,
    /// The partition has a name as text and as units.
    TwoNames,
    /// The partition has a size and an end.
    TwoEnds,
    /// It is not a number of entries.
    NotEntries,
    /// The usable sectors end before they begin.
    EndsEarly,
    /// It is not the size of a sector.
    NotSectorSize,
    /// It is not the string of a sector.
    NotSector,
    /// The label is not `gpt`.
    NotGpt,
    /// The unit is not `sectors`.
    NotInSectors,
    /// It is not a whole number below 2^64.
    NotCount,
    /// It is not a position or size as in scripts.
    NotExtent,
    /// It is not a list of attributes as in scripts.
    NotScriptAttributes,
    /// It is a type of MBR partition tables.
    MbrType,
    /// It has no value.
    NoValue,
    /// It is not the last field of a line without names.
    NotLast,
    /// It is not a mark of bootable partitions.
    NotMark,
    /// A double quote is not closed, or no separator follows the closing one.
    OpenQuote,
    /// It is not UTF-8.
    NotUtf8,
}

/// Prints the rule that the value breaks.
impl fmt::Display for Fault {
    fn fmt<W: fmt::Write>(&self, f: &mut fmt::Formatter<W>) -> fmt::Result {
        match self {
            Fault::Value(wrong) => write!(f, "{wrong}"),
            Fault::NoType(None) => write!(f, "{}", Wrong::NoType),
            Fault::NoType(Some(nearest)) => {
                write!(f, "{}; the nearest name is {nearest}", Wrong::NoType)
            }
            Fault::Taken(number) => {
                write!(
                    f,
                    "an earlier partition has the number {number}; give each its own"
                )
            }
            Fault::NotEntries => {
                write!(
                    f,
                    "it must be a whole number from 1 to {MAX_ENTRY_COUNT}, for example {DEFAULT_ENTRY_COUNT}"
                )
            }
            Fault::NotAttributes => {
                let name = AttributeName(0);
                write!(f, "it must be a list, for example [\"{name}\", 60]")
            }
            Fault::NotScriptAttributes => {
                write!(
                    f,
                    "attributes are {} and bits from 0 to 63, for example GUID:60,63",
                    AllSfdiskNames
                )
            }
            fault => f.write_str(fault.rule()),
        }
    }
}

impl Fault {
    /// Returns the fault of a wrong word.
    pub fn of(wrong: Wrong, word: &str) -> Fault {
        match wrong {
            Wrong::NoType => Fault::NoType(likely_name(word)),
            wrong => Fault::Value(wrong),
        }
    }

    // Returns the rule for a fault whose message is one text.
    fn rule(self) -> &'static str {
        match self {
            Fault::NotTable => "it must be one table, [disk]",
            Fault::NotTables => "it must be a table [[partition]] for each partition",
            Fault::NotText => "it must be a text in double quotes",
            Fault::NotSize => {
                "it must be a text with a unit, for example \"2048s\" (sectors) or \"64MiB\""
            }
            Fault::NotNumber => "it must be a whole number from 1 to 4294967295",
            Fault::SecondRest => "only one partition can have the rest; give the others a size",
            Fault::LongName => "a name has at most 36 units of UTF-16",
            Fault::ZeroInName => "a name must not contain a zero character",
            Fault::NotUnits => {
                "it must be at most 36 units of UTF-16, of four hexadecimal digits each, for example \
                 \"0041 d800\""
            }
            Fault::TwoNames => "the partition also has the key name; use only one of the two",
            Fault::TwoEnds => "the partition also has the key size; use only one of the two",
            Fault::EndsEarly => "the usable sectors must not end before they begin",
            Fault::NotSectorSize => {
                "it must be a number of bytes with a unit, for example \"512B\" or \"4KiB\""
            }
            Fault::NotSector => "it must be a text with the unit s, for example \"34s\"",
            Fault::NotGpt => "it must be gpt; other partition tables are not supported",
            Fault::NotInSectors => "it must be sectors",
            Fault::NotCount => "it must be a whole number below 2^64",
            Fault::NotExtent => {
                "it must be a number of sectors, or of bytes with a unit, for example 64MiB; \
                 + and - are the default"
            }
            Fault::MbrType => {
                "it is a type of MBR partition tables, and the script is for a GPT; use for example linux, \
                 swap or uefi"
            }
            Fault::NoValue => "it must have a value, after a =",
            Fault::NotLast =>
                "it must be the last field, because a line without names has at most four",
            Fault::NotMark => {
                "it must be * or - as the fourth field of a line without names, and has no value in a line \
                 with names"
            }
            Fault::OpenQuote => {
                "a double quote must be closed, and a comma or a blank must follow"
            }
            Fault::NotUtf8 => "its escapes must be UTF-8",
            Fault::Value(_)
            | Fault::NoType(_)
            | Fault::Taken(_)
            | Fault::NotEntries
            | Fault::NotAttributes
            | Fault::NotScriptAttributes => "",
        }
    }
}
