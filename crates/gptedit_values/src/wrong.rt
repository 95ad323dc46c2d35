//! Faults of words.

use crate::attributes::AllNames;
use crate::field::AllFields;
use crate::likely::likely_name;
use std::fmt;

/// Why a word is wrong.
#[derive(Clone, Copy, PartialEq, Eq, Debug)]
pub enum Wrong {
    /// It is a number without a unit.
    NoUnit,
    /// It is not a whole number with a unit.
    NoAmount,
    /// It is not the number of a sector.
    NoSector,
    /// It is not a whole number with a unit, and not `rest`.
    NoSize,
    /// It is not a number with a unit, and not a percentage.
    NoMeasure,
    /// It is not the size of a new partition.
    NoLength,
    /// It is not the new size of a partition.
    NoNewLength,
    /// The percentage exceeds 100 %.
    OverWhole,
    /// It has more than 6 digits after its point.
    TooFine,
    /// The amount exceeds 64 bits.
    TooLarge,
    /// It is neither the name of a type nor a GUID.
    NoType,
    /// It is not a GUID.
    NoGuid,
    /// It is not a list of attributes.
    NoAttribute,
    /// It is not a list of attributes, and not a list of changes of attributes.
    NoAttributeChange,
    /// It is not the choice of a place.
    NoChoice,
    /// It does not say what to do if an image is locked.
    NoLock,
    /// It is not the name of a field.
    NoField,
    /// It does not select an entry.
    NoTarget,
}

/// Prints the rule that the word breaks.
impl fmt::Display for Wrong {
    fn fmt<W: fmt::Write>(&self, f: &mut fmt::Formatter<W>) -> fmt::Result {
        let rule = match self {
            Wrong::NoUnit => "a unit is missing; use for example 2048s (sectors) or 64MiB",
            Wrong::NoAmount => {
                "it must be a whole number with a unit, for example 2048s (sectors) or 64MiB"
            }
            Wrong::NoSector => "it must be a whole number with the unit s, for example 34s",
            Wrong::NoSize => {
                "it must be rest, or a whole number with a unit, for example 2048s (sectors) or 64MiB"
            }
            Wrong::NoMeasure => {
                "it must be a number with a unit, for example 2048s (sectors), 64MiB or 1.5GiB, or a percentage"
            }
            Wrong::NoLength => {
                "it must be rest, or a number with a unit, for example 2048s (sectors), 64MiB or 1.5GiB, or a percentage"
            }
            Wrong::NoNewLength => {
                "it must be max, or a number with a unit, for example 2048s (sectors), 64MiB or +1.5GiB, or a percentage"
            }
            Wrong::OverWhole => "a percentage is at most 100%",
            Wrong::TooFine => "a number has at most 6 digits after its point",
            Wrong::TooLarge => "it must be below 2^64 sectors or bytes",
            Wrong::NoType => {
                "it must be a GUID, or a name that `gptedit types` lists, for example efi or linux"
            }
            Wrong::NoGuid => "it must have the form c12a7328-f81f-11d2-ba4b-00a0c93ec93b",
            Wrong::NoAttribute => return write!(f, "{}", AttributeRule),
            Wrong::NoAttributeChange => {
                return write!(
                    f,
                    "{}; or changes: + or - before each attribute, priority=0..15, tries=0..15, successful=0..1",
                    AttributeRule
                );
            }
            Wrong::NoChoice => "it must be first, last or best",
            Wrong::NoLock => "it must be wait, fail or none",
            Wrong::NoField => return write!(f, "it must be one of {}", AllFields),
            Wrong::NoTarget => {
                "it must be a number from 1, name=TEXT (at most 36 UTF-16 units), or guid=c12a7328-f81f-11d2-ba4b-00a0c93ec93b"
            }
        };
        f.write_str(rule)
    }
}

// The rule for lists of attributes.
#[derive(Clone, Copy)]
struct AttributeRule;

impl fmt::Display for AttributeRule {
    fn fmt<W: fmt::Write>(&self, f: &mut fmt::Formatter<W>) -> fmt::Result {
        write!(
            f,
            "attributes are {} and bits from 0 to 63, with commas between; or all 64 bits as 0x..",
            AllNames
        )
    }
}

/// Prints the rule that a word breaks, and for a type the name that the word is likely to mean.
#[derive(Clone, Copy)]
pub struct WrongText<'a> {
    /// The rule.
    pub wrong: Wrong,
    /// The word.
    pub text: &'a str,
}

impl fmt::Display for WrongText<'_> {
    fn fmt<W: fmt::Write>(&self, f: &mut fmt::Formatter<W>) -> fmt::Result {
        write!(f, "{}", self.wrong)?;
        match self.wrong {
            Wrong::NoType => match likely_name(self.text) {
                Some(name) => write!(f, "; the nearest name is {name}"),
                None => Ok(()),
            },
            _ => Ok(()),
        }
    }
}
