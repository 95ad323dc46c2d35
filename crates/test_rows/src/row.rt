//! Parses a row: the call, the item that it is made on (a letter), and arguments as `KEY=VALUE`.
//!
//! A number is decimal, hex after `0x`, or `max`, which is 2^64 - 1. Bytes are hex digits; `*N` after them repeats
//! them. A GUID is 32 hex digits, or `@` and two that it repeats 16 times. `text=` comes last and takes the rest of the
//! line, in which `\0` is a zero.

use crate::answer::Fault;
use std::alloc::Global;

/// A row.
#[derive(Clone, Copy)]
pub(crate) struct Row<'a> {
    line: &'a str,
}

impl<'a> Row<'a> {
    /// Returns the row of a line.
    pub(crate) fn new(line: &'a str) -> Row<'a> {
        Row { line }
    }

    /// Returns the name of the call.
    pub(crate) fn call(&self) -> &'a str {
        self.line.split_whitespace().next().unwrap_or("")
    }

    /// Returns the second word.
    pub(crate) fn kind(&self) -> &'a str {
        self.line.split_whitespace().nth(1).unwrap_or("")
    }

    // Returns the value of this key, if the row has one.
    fn find(&self, key: &str) -> Option<&'a str> {
        for word in self.line.split_whitespace() {
            if let Some((name, value)) = word.split_once('=') {
                if name == key {
                    return Some(value);
                }
            }
        }
        None
    }

    /// Reports whether the row has this key.
    pub(crate) fn has(&self, key: &str) -> bool {
        self.find(key).is_some()
    }

    /// Returns the value of this key as a word.
    pub(crate) fn word(&self, key: &str) -> Result<&'a str, Fault> {
        self.find(key).ok_or(Fault::Row)
    }

    /// Returns the slot of the item that the call is made on.
    pub(crate) fn slot(&self) -> Result<usize, Fault> {
        slot_of(self.kind()).ok_or(Fault::Row)
    }

    /// Returns the slot of the item that this key names.
    pub(crate) fn slot_of(&self, key: &str) -> Result<usize, Fault> {
        slot_of(self.word(key)?).ok_or(Fault::Row)
    }

    /// Returns the number of this key.
    pub(crate) fn number(&self, key: &str) -> Result<u64, Fault> {
        number_of(self.word(key)?).ok_or(Fault::Row)
    }

    /// Returns the number of this key, or `other` if the row has none.
    pub(crate) fn number_or(&self, key: &str, other: u64) -> Result<u64, Fault> {
        match self.find(key) {
            Some(word) => number_of(word).ok_or(Fault::Row),
            None => Ok(other),
        }
    }

    /// Returns the 32-bit number of this key.
    pub(crate) fn short(&self, key: &str) -> Result<u32, Fault> {
        u32::try_from(self.number(key)?).ok().ok_or(Fault::Row)
    }

    /// Returns the length or index of this key.
    pub(crate) fn length(&self, key: &str) -> Result<usize, Fault> {
        usize::try_from(self.number(key)?).ok().ok_or(Fault::Row)
    }

    /// Returns the byte of this key, in hex.
    pub(crate) fn byte(&self, key: &str) -> Result<u8, Fault> {
        byte_of(self.word(key)?).ok_or(Fault::Row)
    }

    /// Returns the GUID of this key.
    pub(crate) fn guid(&self, key: &str) -> Result<[u8; 16], Fault> {
        guid_of(self.word(key)?).ok_or(Fault::Row)
    }

    /// Returns the bytes of this key, or those of the text.
    pub(crate) fn bytes(&self, alloc: Global, key: &str) -> Result<Vec<u8>, Fault> {
        match self.find(key) {
            Some(word) => bytes_of(alloc, word),
            None => Ok(self.text(alloc)?.as_bytes().to_vec(alloc)?),
        }
    }

    /// Returns the text of the row, empty if there is none.
    pub(crate) fn text(&self, alloc: Global) -> Result<String, Fault> {
        let (_, text) = self.line.split_once("text=").unwrap_or(("", ""));
        let mut plain = String::new(alloc);
        for (index, part) in text.split("\\0").enumerate() {
            if index > 0 {
                plain.push('\0')?;
            }
            plain.push_str(part)?;
        }
        Ok(plain)
    }
}

fn slot_of(name: &str) -> Option<usize> {
    match name.as_bytes() {
        [letter @ b'a'..=b'z'] => Some(usize::from(*letter - b'a')),
        _ => None,
    }
}

fn number_of(word: &str) -> Option<u64> {
    if word == "max" {
        return Some(u64::MAX);
    }
    match word.strip_prefix("0x") {
        Some(digits) => u64::from_str_radix(digits, 16).ok(),
        None => word.parse().ok(),
    }
}

/// Parses a byte of two hex digits.
pub(crate) fn byte_of(word: &str) -> Option<u8> {
    u8::from_str_radix(word, 16).ok()
}

fn guid_of(word: &str) -> Option<[u8; 16]> {
    if let Some(byte) = word.strip_prefix("@") {
        return Some([byte_of(byte)?; 16]);
    }
    let mut guid = [0; 16];
    hex::decode_to_slice(word, &mut guid).ok()?;
    Some(guid)
}

fn bytes_of(alloc: Global, word: &str) -> Result<Vec<u8>, Fault> {
    let (digits, times) = word.split_once('*').unwrap_or((word, "1"));
    let mut part = vec![in alloc; 0; digits.len() / 2]?;
    hex::decode_to_slice(digits, &mut part)
        .ok()
        .ok_or(Fault::Row)?;
    let mut bytes = Vec::new(alloc);
    for _ in 0..number_of(times).ok_or(Fault::Row)? {
        bytes.extend_from_slice(&part)?;
    }
    Ok(bytes)
}
