//! The values under the keys of a TOML table.

ghost use Rattle.std.specs.Prelude.{◌≡◌, ◌≢◌, ◌<◌, ℕ, pos, All, IfErr, IfOk, MatchOption, map, option_map};
ghost use Rattle.toml.specs.Data.{get_member};
ghost use Rattle.toml.specs.View.{table_view, view};
ghost use Rattle.gptedit_text.specs.Layouts.{GivesAttributesOf, IsAttributeOf, SaysAttributeOf, SaysBitOf};
ghost use Rattle.gptedit_values.specs.Words.{HasBitsOf};

use crate::error::{ErrorList, Fault, LayoutError, Section, TextPlace};
use gptedit_values::{Wrong, read_attribute};
use gptman::sizes::MAX_ENTRY_COUNT;
use std::alloc::Global;
use toml::{Table, Value};

/// A TOML table, and its section.
#[derive(Clone, Copy)]
pub struct Keyed<'a> {
    table: &'a Table,
    section: Section,
}

impl<'a> Keyed<'a> {
    /// Returns the table as this section.
    pub fn new(table: &'a Table, section: Section) -> Keyed<'a> {
        Keyed { table, section }
    }

    /// Returns the place of the section, without a line.
    pub fn place(&self) -> TextPlace {
        TextPlace {
            line: None,
            section: self.section,
        }
    }

    /// Returns the error for a wrong value under this key.
    pub fn fault(&self, key: &'static str, fault: Fault) -> LayoutError {
        self.place().fault(key, fault)
    }

    /// Adds an error for each key that the section does not have.
    pub fn check_keys(&self, alloc: Global, errors: &mut ErrorList) -> Result<(), LayoutError> {
        for key in self.table.keys() {
            if !self
                .section
                .keys()
                .iter()
                .any(|known| *known == key.as_str())
            {
                errors.add(LayoutError::Unknown {
                    place: self.place(),
                    key: String::from_str(alloc, key.as_str())?,
                })?;
            }
        }
        Ok(())
    }

    /// Returns the value under this key.
    pub fn get(&self, key: &'static str) -> Option<&'a Value>
        ensures { option_map (λ value. view value.now) result ≡ get_member key.now (table_view self.now.table.now) }
    {
        self.table.get(key)
    }

    /// Returns the string under this key.
    pub fn text(&self, key: &'static str) -> Result<Option<&'a str>, LayoutError> {
        match self.get(key) {
            None => Ok(None),
            Some(Value::String(text)) => Ok(Some(text.as_str())),
            Some(_) => match key {
                "start" | "size" | "end" | "align" => Err(self.fault(key, Fault::NotSize)),
                "sector-size" => Err(self.fault(key, Fault::NotSectorSize)),
                "first-usable" | "last-usable" => Err(self.fault(key, Fault::NotSector)),
                _ => Err(self.fault(key, Fault::NotText)),
            },
        }
    }

    /// Reads the word under this key. `read` is a closure: the toolchain proves no call of a function that another crate
    /// exports and that is passed by its name.
    pub fn word<T, F: Fn(&str) -> Result<T, Wrong>>(
        &self,
        key: &'static str,
        read: F,
    ) -> Result<Option<T>, LayoutError>
        requires { F.IsAlwaysCallable read }
    {
        let Some(text) = self.text(key)? else {
            return Ok(None);
        };
        match read(text) {
            Ok(value) => Ok(Some(value)),
            Err(wrong) => Err(self.fault(key, Fault::of(wrong, text))),
        }
    }

    /// Reads the number of entries under this key.
    pub fn count(&self, key: &'static str) -> Result<Option<u32>, LayoutError> {
        let count = match self.get(key) {
            None => return Ok(None),
            Some(Value::Integer(count)) => match u32::try_from(*count) {
                Ok(count) if count <= MAX_ENTRY_COUNT => Some(count),
                _ => None,
            },
            Some(_) => None,
        };
        match count {
            Some(count) => Ok(Some(count)),
            None => Err(self.fault(key, Fault::NotEntries)),
        }
    }

    /// Reads the list of attributes under this key, by names and numbers of bits.
    pub fn attributes(&self, key: &'static str) -> Result<Option<u64>, LayoutError>
        ensures { IfOk result (GivesAttributesOf (get_member key.now (table_view self.now.table.now))) }
    {
        let Some(value) = self.get(key) else {
            return Ok(None);
        };
        let Some(list) = value.as_array() else {
            return Err(self.fault(key, Fault::NotAttributes));
        };
        match self.attributes_of(key, list) {
            Ok(attributes) => Ok(Some(attributes)),
            Err(error) => Err(error),
        }
    }

    fn attributes_of(&self, key: &'static str, list: &[Value]) -> Result<u64, LayoutError>
        ensures said { IfOk result (HasBitsOf SaysBitOf (map view list.now)) }
        ensures refused { IfErr result (λ error. ¬ (All IsAttributeOf (map view list.now))) }
    {
        let mut bits = 0;
        for value in list {
            let more = self.attribute(key, value)?;
            bits |= more;
        }
        Ok(bits)
    }

    fn attribute(&self, key: &'static str, value: &Value) -> Result<u64, LayoutError>
        ensures said { IfOk result (SaysAttributeOf (view value.now)) }
        ensures refused { IfErr result (λ error. ¬ (IsAttributeOf (view value.now))) }
    {
        match value {
            Value::String(word) => match read_attribute(word.as_str()) {
                Ok(attribute) => Ok(attribute),
                Err(wrong) => Err(self.fault(key, Fault::Value(wrong))),
            },
            Value::Integer(number) => match bit_of(*number) {
                Some(bit) => Ok(1 << bit),
                None => Err(self.fault(key, Fault::Value(Wrong::NoAttribute))),
            },
            _ => Err(self.fault(key, Fault::NotAttributes)),
        }
    }
}

// Returns the number if it is that of a bit.
fn bit_of(number: i64) -> Option<u64>
    ensures { MatchOption result ((bit : ℕ) → bit < 64 → number ≢ pos bit) (λ bit. (bit < 64) × (number ≡ pos bit)) }
{
    match u64::try_from(number) {
        Ok(bit) if bit < 64 => Some(bit),
        _ => None,
    }
}
