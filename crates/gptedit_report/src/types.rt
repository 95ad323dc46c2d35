//! Prints the partition types that have names.

use crate::columns::{Column, print_columns, push_cell};
use crate::members::Members;
use crate::texts::GuidText;
use gptguid_core::from_name;
use serde_json::Value;
use std::alloc::{AllocError, Global};
use std::io;
use std::io::Write;

// The columns of a type.
const COLUMNS: [Column; 2] = [Column::Left("Name", 0), Column::Left("GUID", 0)];

/// Prints the types that have names, one line each under headings: name and GUID.
///
/// Returns the error of `out`, or `OutOfMemory`.
pub fn print_types<W: Write>(out: &mut W, alloc: Global) -> io::Result<()> {
    let mut rows = Vec::new(alloc);
    for (name, _) in gptguid_core::types() {
        if let Some(guid) = from_name(name) {
            rows.push(row_of(alloc, name, &guid)?)?;
        }
    }
    print_columns(out, alloc, COLUMNS.as_slice(), &rows)
}

// Returns the cells of a type.
fn row_of(alloc: Global, name: &str, guid: &[u8; 16]) -> Result<Vec<String>, AllocError> {
    let mut row = Vec::with_capacity(alloc, COLUMNS.len())?;
    push_cell(alloc, &mut row, &name)?;
    push_cell(alloc, &mut row, &GuidText(guid))?;
    Ok(row)
}

/// Returns the types that have names as JSON: a list of `name` and `guid`, in upper case.
pub fn types_json(alloc: Global) -> Result<String, AllocError> {
    let mut values = Vec::new(alloc);
    for (name, _) in gptguid_core::types() {
        if let Some(guid) = from_name(name) {
            values.push(type_value(alloc, name, &guid)?)?;
        }
    }
    Value::Array(values).to_string_pretty(alloc)
}

fn type_value(alloc: Global, name: &str, guid: &[u8; 16]) -> Result<Value, AllocError> {
    let mut members = Members::new(alloc);
    members.put_text("name", name)?;
    members.put_guid("guid", guid)?;
    Ok(members.into_value())
}
