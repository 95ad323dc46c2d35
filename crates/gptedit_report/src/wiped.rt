//! The result of `wipe` as JSON.

use crate::changes_json::{TableChange, put_change};
use crate::json::print_json;
use crate::members::Members;
use gptman::GPT;
use serde_json::Value;
use std::alloc::{AllocError, Global};

/// Returns whether a table was or would be cleared, as JSON: `device`, `wiped`, and the change as
/// [`changed_json`](crate::changed_json) has it. `was` is the table, if one was read.
pub fn wiped_json(
    alloc: Global,
    image: &str,
    was: Option<&GPT>,
    is_wiped: bool,
    is_dry: bool,
) -> Result<String, AllocError> {
    let mut members = Members::new(alloc);
    members.put_text("device", image)?;
    members.put("wiped", Value::Bool(is_wiped))?;
    let change = TableChange {
        was,
        next: None,
        matches: &[],
        is_needed: is_wiped,
        is_dry,
    };
    put_change(alloc, &mut members, change)?;
    print_json(alloc, &members.into_value())
}
