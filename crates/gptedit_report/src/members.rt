//! Builds JSON objects.

use gptguid_core::text_of;
use serde_json::{Map, Value, put};
use std::alloc::{AllocError, Global};
use std::fmt;

/// The members of an object.
#[derive(Drop)]
pub(crate) struct Members {
    alloc: Global,
    map: Map<String, Value>,
}

impl Members {
    /// Returns no members.
    pub(crate) fn new(alloc: Global) -> Members {
        Members {
            alloc,
            map: Map::new(alloc),
        }
    }

    /// Adds a text.
    pub(crate) fn put_text(&mut self, key: &str, text: &str) -> Result<(), AllocError> {
        let value = Value::try_from_str(self.alloc, text)?;
        self.put(key, value)
    }

    /// Adds a text, unless it is empty.
    pub(crate) fn put_some_text(&mut self, key: &str, text: &str) -> Result<(), AllocError> {
        if text.is_empty() {
            return Ok(());
        }
        self.put_text(key, text)
    }

    /// Adds the text of a GUID in upper case.
    pub(crate) fn put_guid(&mut self, key: &str, guid: &[u8; 16]) -> Result<(), AllocError> {
        let mut buffer = [0; 36];
        self.put_text(key, text_of(guid, &mut buffer))
    }

    /// Adds a number.
    pub(crate) fn put_number(&mut self, key: &str, number: u64) -> Result<(), AllocError> {
        self.put(key, Value::from(number))
    }

    /// Adds a list.
    pub(crate) fn put_list(&mut self, key: &str, list: Vec<Value>) -> Result<(), AllocError> {
        self.put(key, Value::Array(list))
    }

    /// Adds a value.
    pub(crate) fn put(&mut self, key: &str, value: Value) -> Result<(), AllocError> {
        put(&mut self.map, self.alloc, key, value)
    }

    /// Returns the object.
    pub(crate) fn into_value(self) -> Value {
        let Members { map, .. } = self;
        Value::Object(map)
    }
}

/// Returns the texts as a list.
pub(crate) fn list_of_texts<T: fmt::Display>(
    alloc: Global,
    texts: &[T],
) -> Result<Vec<Value>, AllocError> {
    let mut values = Vec::with_capacity(alloc, texts.len())?;
    for text in texts {
        let text = format!(in alloc; "{text}")?;
        values.push(Value::try_from_str(alloc, text.as_str())?)?;
    }
    Ok(values)
}
