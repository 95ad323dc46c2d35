//! Types, attributes and names in a script.

use crate::error::{Fault, LayoutError, TextPlace};
use gptedit_values::{find_sfdisk_bit, read_number};
use std::alloc::Global;

// The first bit, the one of the attribute `required`.
const REQUIRED: u64 = 1;

/// Reports whether the word is a type of MBR partition tables in `sfdisk`: one or two hexadecimal digits, or a word
/// for an extended partition.
pub fn is_mbr_type(word: &str) -> bool {
    let digits = word.strip_prefix("0x").unwrap_or(word);
    matches!(word, "Ex" | "X" | "extended") || digits.len() <= 2 && is_hexadecimal(digits)
}

fn is_hexadecimal(digits: &str) -> bool {
    !digits.is_empty() && digits.chars().all(|c| c.is_ascii_hexdigit())
}

/// Reads a list of attributes, separated by commas or blanks.
pub fn read_script_attributes(text: &str) -> Option<u64> {
    let mut bits = 0;
    for word in text.split([',', ' ', '\t']) {
        if !word.is_empty() {
            bits |= read_attribute(word)?;
        }
    }
    Some(bits)
}

// Reads one attribute: its name, or the number of its bit, maybe after `GUID:`. Old versions of `sfdisk` wrote the
// misspelt name.
fn read_attribute(word: &str) -> Option<u64> {
    if let Some(bit) = find_sfdisk_bit(word) {
        return Some(1 << bit);
    }
    if word == "RequiredPartiton" {
        return Some(REQUIRED);
    }
    match read_number(word.strip_prefix("GUID:").unwrap_or(word)) {
        Some(bit) if bit < 64 => Some(1 << bit),
        _ => None,
    }
}

/// Returns the name with each escape, such as `\x22`, replaced by its byte. Fails with `NotUtf8` if the result is not
/// UTF-8.
pub fn unescaped(alloc: Global, place: TextPlace, text: &str) -> Result<String, LayoutError> {
    let mut bytes = Vec::new(alloc);
    let mut pieces = text.split("\\x");
    if let Some(piece) = pieces.next() {
        bytes.extend_from_slice(piece.as_bytes())?;
    }
    for piece in pieces {
        match split_byte(piece) {
            Some((byte, rest)) => {
                bytes.push(byte)?;
                bytes.extend_from_slice(rest.as_bytes())?;
            }
            None => {
                bytes.extend_from_slice(b"\\x")?;
                bytes.extend_from_slice(piece.as_bytes())?;
            }
        }
    }
    match String::from_utf8(bytes) {
        Ok(text) => Ok(text),
        Err(_) => Err(place.fault("name", Fault::NotUtf8)),
    }
}

// Returns the byte of the two hexadecimal digits at the start, and the text after them.
fn split_byte(text: &str) -> Option<(u8, &str)> {
    let (digits, rest) = text.split_at_checked(2)?;
    if digits.starts_with('+') {
        return None;
    }
    let byte = u8::from_str_radix(digits, 16).ok()?;
    Some((byte, rest))
}
