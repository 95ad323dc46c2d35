//! The lines of a script that describe partitions.

use crate::entries::read_name;
use crate::error::{Fault, LayoutError, Section, TextPlace};
use crate::script::extents::read_any_extent;
use crate::script::kinds::find_type;
use crate::script::token::{first_word, next_token, skip_separator};
use crate::script::words::{is_mbr_type, read_script_attributes, unescaped};
use gptedit_core::{Amount, Asked, Choice, Size};
use gptedit_values::{read_guid, read_type};
use std::alloc::Global;

// The parts of a line without names, in their order.
const ORDER: [&str; 4] = ["start", "size", "type", BOOTABLE];

// The part that has no value in a line with names.
const BOOTABLE: &str = "bootable";

// The attribute `legacy-boot`.
const LEGACY_BOOT: u64 = 1 << 2;

/// The partition of a line.
#[derive(Drop)]
pub struct Partition {
    /// The request for it.
    pub asked: Asked,
    /// Whether the line marks it as bootable. The request then has the attribute `legacy-boot`.
    pub is_bootable: bool,
}

/// Reports whether the line describes a partition, also if a value in it is wrong. Without a node, a blank before a
/// `=` is only in TOML.
pub fn is_partition(line: &str) -> bool {
    if !line.contains('=') {
        return match next_token(line) {
            Ok((start, _)) => is_start(start),
            Err(_) => false,
        };
    }
    let (node, fields) = split_node(line);
    let (name, rest) = first_word(fields);
    match key_of(Section::Line, name) {
        Some(BOOTABLE) => !rest.trim_start().starts_with('='),
        Some(_) => !node.is_empty() || rest.starts_with('='),
        None => false,
    }
}

// Reports whether the text is the start of a line without names.
fn is_start(start: &str) -> bool {
    let number = without_sign(start);
    number.is_empty() || read_any_extent(number).is_some()
}

/// Reads a line that describes a partition. Its number is that of its node, if it has one.
pub fn read_line(alloc: Global, place: TextPlace, line: &str) -> Result<Partition, LayoutError> {
    let (node, fields) = split_node(line);
    let number = read_number(place, digits_behind(node))?;
    let mut line = Line {
        alloc,
        place,
        asked: default_of(alloc, place, number)?,
        is_bootable: false,
    };
    if fields.contains('=') {
        line.read_named(fields)?;
    } else {
        line.read_ordered(fields)?;
    }
    Ok(line.into_partition())
}

// Reads the number at the end of a node.
fn read_number(place: TextPlace, digits: &str) -> Result<Option<u32>, LayoutError> {
    if digits.is_empty() {
        return Ok(None);
    }
    match digits.parse::<u32>() {
        Ok(number) if number > 0 => Ok(Some(number)),
        _ => Err(place.fault("number", Fault::NotNumber)),
    }
}

// Returns the request for a partition whose line has no parts.
fn default_of(alloc: Global, place: TextPlace, number: Option<u32>) -> Result<Asked, LayoutError> {
    Ok(Asked {
        type_guid: read_type("L").ok(),
        attributes: Some(0),
        name: Some(read_name(alloc, place, "")?),
        size: Some(Size::Rest),
        choice: Choice::Longest,
        ..Asked::nothing(number)
    })
}

// Splits the line into the node, which ends at the last colon before the first `=`, and the text after it.
fn split_node(line: &str) -> (&str, &str) {
    let Some((front, _)) = line.split_once('=') else {
        return ("", line);
    };
    let Some((node, _)) = front.rsplit_once(':') else {
        return ("", line);
    };
    let rest = line.strip_prefix(node).unwrap_or(line);
    (node.trim_end(), rest.strip_prefix(':').unwrap_or(rest))
}

// Returns the digits at the end of a node.
fn digits_behind(node: &str) -> &str {
    let stem = node.trim_end_matches(|c: char| c.is_ascii_digit());
    node.strip_prefix(stem).unwrap_or("")
}

// The request of a line, while it is read.
#[derive(Drop)]
struct Line {
    alloc: Global,
    place: TextPlace,
    asked: Asked,
    is_bootable: bool,
}

impl Line {
    // Reads named parts. Each takes at least one byte, which bounds the loop.
    fn read_named(&mut self, fields: &str) -> Result<(), LayoutError> {
        let mut rest = fields.trim_start();
        for _ in 0..fields.len() {
            if rest.is_empty() {
                break;
            }
            let (name, behind) = first_word(rest);
            let value = behind.trim_start().strip_prefix('=');
            match (key_of(self.place.section, name), value) {
                (Some(BOOTABLE), None) => {
                    self.is_bootable = true;
                    rest = skip_separator(behind);
                }
                (Some(key), Some(value)) => {
                    let (value, after) = token_of(self.place, key, value)?;
                    self.read_field(key, value)?;
                    rest = after;
                }
                (Some(key), None) => return Err(self.place.fault(key, Fault::NoValue)),
                (None, _) => return Err(unknown(self.alloc, self.place, name)),
            }
        }
        Ok(())
    }

    // Reads parts without names, in their order.
    fn read_ordered(&mut self, fields: &str) -> Result<(), LayoutError> {
        let mut rest = fields.trim_start();
        for key in ORDER {
            let (value, after) = token_of(self.place, key, rest)?;
            match (key, value) {
                (_, "-") => (),
                (BOOTABLE, "*" | "+") => self.is_bootable = true,
                _ => self.read_field(key, value)?,
            }
            rest = after;
        }
        if rest.is_empty() {
            Ok(())
        } else {
            Err(self.place.fault(BOOTABLE, Fault::NotLast))
        }
    }

    // Reads the value of a part. An empty value leaves the default.
    fn read_field(&mut self, key: &'static str, value: &str) -> Result<(), LayoutError> {
        if value.is_empty() {
            return Ok(());
        }
        let place = self.place;
        match key {
            "start" => self.asked.start = extent_of(place, key, value)?,
            "size" => {
                self.asked.size = match extent_of(place, key, value)? {
                    Some(amount) => Some(Size::Exactly(amount)),
                    None => Some(Size::Rest),
                };
            }
            "type" => self.asked.type_guid = Some(type_of(place, key, value)?),
            "uuid" => self.asked.unique_guid = Some(guid_of(place, key, value)?),
            "attrs" => self.asked.attributes = Some(attributes_of(place, key, value)?),
            "name" => {
                let text = unescaped(self.alloc, place, value)?;
                self.asked.name = Some(read_name(self.alloc, place, text.as_str())?);
            }
            _ => return Err(place.fault(key, Fault::NotMark)),
        }
        Ok(())
    }

    // Returns the partition of the line.
    fn into_partition(self) -> Partition {
        let mut asked = self.asked;
        if self.is_bootable {
            asked.attributes = Some(asked.attributes.unwrap_or(0) | LEGACY_BOOT);
        }
        Partition {
            asked,
            is_bootable: self.is_bootable,
        }
    }
}

// Returns the key of a name, in any case.
fn key_of(section: Section, name: &str) -> Option<&'static str> {
    if name.eq_ignore_ascii_case("Id") {
        return Some("type");
    }
    let keys = section.keys();
    keys.iter()
        .copied()
        .find(|key| key.eq_ignore_ascii_case(name))
}

fn unknown(alloc: Global, place: TextPlace, name: &str) -> LayoutError {
    match String::from_str(alloc, name) {
        Ok(key) => LayoutError::Unknown { place, key },
        Err(error) => LayoutError::from(error),
    }
}

// Returns the value of a part, and the text after it.
fn token_of<'a>(
    place: TextPlace,
    key: &'static str,
    text: &'a str,
) -> Result<(&'a str, &'a str), LayoutError> {
    match next_token(text) {
        Ok(parts) => Ok(parts),
        Err(fault) => Err(place.fault(key, fault)),
    }
}

// Removes a sign before a start or a size.
fn without_sign(value: &str) -> &str {
    value.strip_prefix(['+', '-']).unwrap_or(value)
}

// Reads a start or a size. A sign without a number means the default.
fn extent_of(
    place: TextPlace,
    key: &'static str,
    value: &str,
) -> Result<Option<Amount>, LayoutError> {
    let number = without_sign(value);
    if number.is_empty() {
        return Ok(None);
    }
    match read_any_extent(number) {
        Some(amount) => Ok(Some(amount)),
        None => Err(place.fault(key, Fault::NotExtent)),
    }
}

fn type_of(place: TextPlace, key: &'static str, value: &str) -> Result<[u8; 16], LayoutError> {
    let wrong = match read_type(value) {
        Ok(guid) => return Ok(guid),
        Err(wrong) => wrong,
    };
    match find_type(value) {
        Some(guid) => Ok(guid),
        None if is_mbr_type(value) => Err(place.fault(key, Fault::MbrType)),
        None => Err(place.fault(key, Fault::of(wrong, value))),
    }
}

fn guid_of(place: TextPlace, key: &'static str, value: &str) -> Result<[u8; 16], LayoutError> {
    read_guid(value).map_err(|wrong| place.fault(key, Fault::Value(wrong)))
}

fn attributes_of(place: TextPlace, key: &'static str, value: &str) -> Result<u64, LayoutError> {
    read_script_attributes(value).ok_or(place.fault(key, Fault::NotScriptAttributes))
}
