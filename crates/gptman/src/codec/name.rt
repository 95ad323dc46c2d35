//! The name of a partition: a text, and the 36 units of UTF-16 on the disk.

ghost use Rattle.std.specs.Prelude.{◌≡◌, ℕ, List, [], ◌∷◌, ◌++◌, nat_eq, IfOk, IfErr, IsOk, Some};
ghost use Rattle.std.specs.Prelude.{encode_utf8_all, position, replicate, string_bytes};
ghost use Rattle.std.specs.List.{before_first};
ghost use Rattle.std.specs.Str.{chars};
ghost use Rattle.std.specs.Char.Escape.{encode_utf16};
ghost use Rattle.std.specs.Char.Utf16.{utf16_lossy_chars};
ghost use Rattle.std.specs.Cmp.{partial_equiv_from_equiv};
ghost use Rattle.gptman_disk.specs.Fault.{fault_of, out_of_memory};
ghost use Rattle.gptman.specs.Name.{text_of, units_of, HasUnits, name_eq, name_equiv};

use crate::error::Result;
use std::alloc::{AllocError, Global};
use std::fmt;
use std::fmt::{Display, Formatter, Write};
use std::marker::Model;

/// The name of a partition. The format stores it as 36 units of UTF-16 (72 bytes), padded with zeros.
///
/// A name made from a text keeps the whole text, even if it is longer than 36 units. A name read from a disk
/// keeps its units, and has the text before the first zero unit.
#[derive(Drop, Debug)]
pub struct PartitionName {
    text: String,
    units: [u16; 36],
}

impl Model for PartitionName {
    ghost use Rattle.std.specs.Prelude.{string_bytes};
    ghost use Rattle.gptman.specs.Name.{Name};

    ghost Value = { Name };

    ghost view = { λ a. record { text = string_bytes a.text; units = a.units } };
}

impl PartitionName {
    /// Returns the name with this text. Its units are the first 36 of the text, padded with zeros.
    ///
    /// `OutOfMemory` if the text cannot be allocated. An empty text needs no memory.
    pub fn new(alloc: Global, text: &str) -> Result<Self>
        ensures text { IfOk result (λ n. n.text ≡ text.now) }
        ensures units { IfOk result (λ n. n.units ≡ units_of (chars text.now)) }
        ensures refused { IfErr result (λ e. fault_of e ≡ out_of_memory) }
        ensures empty { text.now ≡ [] → IsOk result }
    {
        let mut units = [0; 36];
        let mut len = 0;
        for c in text.chars() {
            len = add_char(&mut units, len, c);
        }
        Ok(PartitionName {
            text: copied(alloc, text)?,
            units,
        })
    }

    /// Returns the empty name, without allocating.
    pub(crate) fn empty(alloc: Global) -> Self
        ensures text { result.text ≡ [] }
        ensures units { result.units ≡ replicate 36 0 }
    {
        PartitionName {
            text: String::new(alloc),
            units: [0; 36],
        }
    }

    /// Returns the name with these units. Its text is decoded from the units before the first zero; an unpaired
    /// surrogate becomes U+FFFD.
    ///
    /// `OutOfMemory` if the text cannot be allocated. An empty text needs no memory.
    pub fn from_units(alloc: Global, units: [u16; 36]) -> Result<Self>
        ensures units { IfOk result (λ n. n.units ≡ units) }
        ensures text { IfOk result (λ n. n.text ≡ encode_utf8_all (text_of units)) }
        ensures refused { IfErr result (λ e. fault_of e ≡ out_of_memory) }
        ensures empty { text_of units ≡ [] → IsOk result }
    {
        let text = text_of_units(alloc, before_zero(&units))?;
        Ok(PartitionName { text, units })
    }

    /// Returns the text.
    pub fn as_str(&self) -> &str
        ensures { result.now ≡ self.now.text }
    {
        self.text.as_str()
    }

    /// Returns the 36 units of UTF-16, as stored on the disk.
    pub fn units(&self) -> &[u16; 36]
        ensures { result.now ≡ self.now.units }
    {
        &self.units
    }

    /// Returns a copy of the name.
    ///
    /// `OutOfMemory` if the text cannot be allocated. An empty text needs no memory.
    pub fn clone(&self) -> Result<Self>
        ensures ok { IfOk result (λ n. n ≡ self.now) }
        ensures refused { IfErr result (λ e. fault_of e ≡ out_of_memory) }
        ensures empty { self.now.text ≡ [] → IsOk result }
    {
        Ok(PartitionName {
            text: copied(*self.text.allocator(), self.as_str())?,
            units: self.units,
        })
    }
}

/// Writes the text, ignoring the width and fill of the format.
impl Display for PartitionName {
    ghost output = { λ n. Some n.text };

    fn fmt<W: Write>(&self, f: &mut Formatter<W>) -> fmt::Result {
        f.write_str(self.as_str())
    }
}

/// Names are equal if both their texts and their units are.
impl PartialEq for PartitionName {
    ghost eq = { name_eq };

    ghost laws = { partial_equiv_from_equiv name_equiv };

    fn eq(&self, other: &Self) -> bool {
        self.as_str() == other.as_str() && self.units == other.units
    }
}

impl Eq for PartitionName {
    ghost laws = { name_equiv };
}

// Copies the text. An empty text needs no memory.
fn copied(alloc: Global, text: &str) -> std::result::Result<String, AllocError>
    ensures ok { IfOk result (λ copy. string_bytes copy ≡ text.now) }
    ensures empty { text.now ≡ [] → IsOk result }
{
    let mut copy = String::with_capacity(alloc, text.len())?;
    copy.push_str(text)?;
    Ok(copy)
}

// Decodes the units. An empty slice needs no memory.
fn text_of_units(alloc: Global, units: &[u16]) -> std::result::Result<String, AllocError>
    ensures ok { IfOk result (λ text. string_bytes text ≡ encode_utf8_all (utf16_lossy_chars units.now)) }
    ensures empty { utf16_lossy_chars units.now ≡ [] → IsOk result }
{
    if units.is_empty() {
        return Ok(String::new(alloc));
    }
    String::from_utf16_lossy(alloc, units)
}

// Returns the index of the first zero.
fn first_zero(units: &[u16]) -> Option<usize>
    ensures { result ≡ position (λ u. nat_eq u 0) units.now }
{
    units.iter().position(|unit| *unit == 0)
}

// Returns the units before the first zero.
fn before_zero(units: &[u16]) -> &[u16]
    ensures { result.now ≡ before_first (λ u. nat_eq u 0) units.now }
{
    match first_zero(units) {
        Some(len) => &units[..len],
        None => units,
    }
}

// Appends a unit if there is room, and returns the new length.
fn add_unit(units: &mut [u16; 36], len: usize, unit: u16) -> usize
    ensures { (us : List ℕ) → HasUnits units.old len us → HasUnits units.new result (us ++ unit ∷ []) }
{
    if len < 36 {
        units[len] = unit;
        len + 1
    } else {
        len
    }
}

// Appends the units of a character that there is room for, and returns the new length.
fn add_char(units: &mut [u16; 36], mut len: usize, c: char) -> usize
    ensures { (us : List ℕ) → HasUnits units.old len us → HasUnits units.new result (us ++ encode_utf16 c) }
{
    let mut buffer = [0; 2];
    for unit in c.encode_utf16(&mut buffer).iter() {
        len = add_unit(units, len, *unit);
    }
    len
}
