//! Attributes of partitions, by names and by numbers of bits.

ghost use Rattle.std.specs.Prelude.{◌≡◌, ◌<◌, ◌^◌, ℕ, All, Contains, IfErr, IfOk, IfSome};
ghost use Rattle.std.specs.Result.{OkIff};
ghost use Rattle.std.specs.Str.Parse.{digits_value, IsNumeral};
ghost use Rattle.gptedit_values.specs.Words.{attribute_names, IsAttribute, SaysAttribute, SaysAttributes};
ghost use Rattle.gptedit_values.specs.Words.{SaysEach, SaysNoAttributes, sfdisk_names, words_of};

use crate::wrong::Wrong;
use std::fmt;

// An attribute that has a name.
#[derive(Clone, Copy)]
struct Attribute {
    name: &'static str,
    // The number of its bit.
    bit: u64,
    // Its name in scripts and JSON of `sfdisk`, if it has one.
    sfdisk: Option<&'static str>,
}

// The attributes that have names, in the order of their bits.
const ATTRIBUTES: [Attribute; 6] = [
    Attribute {
        name: "required",
        bit: 0,
        sfdisk: Some("RequiredPartition"),
    },
    Attribute {
        name: "no-block-io",
        bit: 1,
        sfdisk: Some("NoBlockIOProtocol"),
    },
    Attribute {
        name: "legacy-boot",
        bit: 2,
        sfdisk: Some("LegacyBIOSBootable"),
    },
    Attribute {
        name: "grow-file-system",
        bit: 59,
        sfdisk: None,
    },
    Attribute {
        name: "read-only",
        bit: 60,
        sfdisk: None,
    },
    Attribute {
        name: "no-auto",
        bit: 63,
        sfdisk: None,
    },
];

/// Reads attributes: an empty text for none; or names and numbers of bits, from 0 to 63, separated by commas; or all
/// bits as `0x` and hexadecimal digits.
pub fn read_attributes(text: &str) -> Result<u64, Wrong>
    ensures said { IfOk result (SaysAttributes text.now) }
    ensures refused { IfErr result (λ wrong. SaysNoAttributes text.now) }
{
    if text.is_empty() {
        return Ok(0);
    }
    if let Some(digits) = text.strip_prefix("0x") {
        return read_digits(digits);
    }
    read_list(text)
}

// Reads attributes separated by commas.
fn read_list(text: &str) -> Result<u64, Wrong>
    ensures said { IfOk result (SaysEach text.now) }
    ensures refused { IfErr result (λ wrong. ¬ (All IsAttribute (words_of text.now))) }
{
    let mut bits = 0;
    for word in text.split(',') {
        let more = read_attribute(word)?;
        bits |= more;
    }
    Ok(bits)
}

// Reads all bits as hexadecimal digits.
fn read_digits(digits: &str) -> Result<u64, Wrong>
    ensures { OkIff result (IsNumeral 16 digits.now × (digits_value 16 digits.now < 2 ^ 64)) (digits_value 16 digits.now) }
{
    if digits.starts_with('+') {
        return Err(Wrong::NoAttribute);
    }
    u64::from_str_radix(digits, 16).map_err(|_| Wrong::NoAttribute)
}

/// Reads one attribute, by its name or the number of its bit.
pub fn read_attribute(word: &str) -> Result<u64, Wrong>
    ensures said { IfOk result (SaysAttribute word.now) }
    ensures refused { IfErr result (λ wrong. ¬ (IsAttribute word.now)) }
{
    match find_bit(word) {
        Some(bit) => Ok(1 << bit),
        None => match read_bit(word) {
            Ok(bit) => Ok(1 << bit),
            Err(wrong) => Err(wrong),
        },
    }
}

fn find_bit(word: &str) -> Option<u64>
    ensures found { IfSome result (λ bit. (bit < 64) × Contains attribute_names (word.now, bit)) }
    ensures unknown { result ≡ None → (bit : ℕ) → ¬ (Contains attribute_names (word.now, bit)) }
{
    for attribute in ATTRIBUTES {
        if word == attribute.name {
            return Some(attribute.bit);
        }
    }
    None
}

/// Returns the bit that has this name in `sfdisk`.
pub fn find_sfdisk_bit(word: &str) -> Option<u64>
    ensures found { IfSome result (λ bit. (bit < 64) × Contains sfdisk_names (word.now, bit)) }
    ensures unknown { result ≡ None → (bit : ℕ) → ¬ (Contains sfdisk_names (word.now, bit)) }
{
    for attribute in ATTRIBUTES {
        let Some(name) = attribute.sfdisk else {
            continue;
        };
        if word == name {
            return Some(attribute.bit);
        }
    }
    None
}

/// Returns the name of this bit in `sfdisk`, if it has one.
pub fn sfdisk_name(bit: u64) -> Option<&'static str> {
    for attribute in ATTRIBUTES {
        if bit == attribute.bit {
            return attribute.sfdisk;
        }
    }
    None
}

fn read_bit(word: &str) -> Result<u64, Wrong>
    ensures { OkIff result (IsNumeral 10 word.now × (digits_value 10 word.now < 64)) (digits_value 10 word.now) }
{
    if word.starts_with('+') {
        return Err(Wrong::NoAttribute);
    }
    match word.parse::<u64>() {
        Ok(bit) if bit < 64 => Ok(bit),
        _ => Err(Wrong::NoAttribute),
    }
}

/// Attributes in the form that `read_attributes` reads: names and numbers of bits, separated by commas.
#[derive(Clone, Copy, PartialEq, Eq)]
pub struct AttributeNames(pub u64);

impl fmt::Display for AttributeNames {
    fn fmt<W: fmt::Write>(&self, f: &mut fmt::Formatter<W>) -> fmt::Result {
        let mut comma = "";
        for bit in 0..64 {
            if self.0 >> bit & 1 == 1 {
                let name = AttributeName(bit);
                write!(f, "{comma}{name}")?;
                comma = ",";
            }
        }
        Ok(())
    }
}

/// The attribute of this bit in the form that `read_attribute` reads: its name, or else its number.
#[derive(Clone, Copy, PartialEq, Eq)]
pub struct AttributeName(pub u64);

impl fmt::Display for AttributeName {
    fn fmt<W: fmt::Write>(&self, f: &mut fmt::Formatter<W>) -> fmt::Result {
        let bit = self.0;
        for attribute in ATTRIBUTES {
            if bit == attribute.bit {
                return f.write_str(attribute.name);
            }
        }
        write!(f, "{bit}")
    }
}

/// The names of all attributes, separated by commas.
#[derive(Clone, Copy)]
pub(crate) struct AllNames;

impl fmt::Display for AllNames {
    fn fmt<W: fmt::Write>(&self, f: &mut fmt::Formatter<W>) -> fmt::Result {
        let mut comma = "";
        for attribute in ATTRIBUTES {
            let name = attribute.name;
            write!(f, "{comma}{name}")?;
            comma = ", ";
        }
        Ok(())
    }
}

/// The names of all attributes that have one in `sfdisk`, separated by commas.
#[derive(Clone, Copy)]
pub struct AllSfdiskNames;

impl fmt::Display for AllSfdiskNames {
    fn fmt<W: fmt::Write>(&self, f: &mut fmt::Formatter<W>) -> fmt::Result {
        let mut is_first = true;
        for attribute in ATTRIBUTES {
            if let Some(name) = attribute.sfdisk {
                let comma = if is_first { "" } else { ", " };
                write!(f, "{comma}{name}")?;
                is_first = false;
            }
        }
        Ok(())
    }
}
