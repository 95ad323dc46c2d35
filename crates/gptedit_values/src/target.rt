//! What selects an entry: its number, its name or its GUID.

ghost use Rattle.std.specs.Prelude.{◌≡◌, ◌++◌, ℕ, codes, IfErr, IfOk};
ghost use Rattle.gptedit_values.specs.Words.{SaysEntry, SaysNoTarget, SaysTarget};
ghost use Rattle.gptedit_values.specs.declared.wrong.Wrong.TheVariants.{NoTarget};

use crate::kinds::read_guid;
use crate::names::is_long_name;
use crate::wrong::Wrong;
use gptedit_core::Target;

/// Reads what selects an entry: a number from 1 without a sign, `name=` and a name, or `guid=` and a GUID in any case.
///
/// Fails with `NoTarget` for another text, such as a name that is empty or too long.
pub fn read_target(text: &str) -> Result<Target<'_>, Wrong>
    ensures said { IfOk result (SaysTarget text.now) }
    ensures refused { IfErr result (λ wrong. (wrong ≡ NoTarget) × SaysNoTarget text.now) }
{
    if let Some(name) = text.strip_prefix("name=") {
        return read_name(name);
    }
    match text.strip_prefix("guid=") {
        Some(guid) => read_unique_guid(guid),
        None => read_entry_number(text),
    }
}

// Reads the name after `name=`.
fn read_name(name: &str) -> Result<Target<'_>, Wrong>
    ensures said { IfOk result (SaysTarget (codes "name=" ++ name.now)) }
    ensures refused { IfErr result (λ wrong. (wrong ≡ NoTarget) × SaysNoTarget (codes "name=" ++ name.now)) }
{
    if name.is_empty() || is_long_name(name) {
        Err(Wrong::NoTarget)
    } else {
        Ok(Target::Name(name))
    }
}

// Reads the GUID after `guid=`.
fn read_unique_guid(guid: &str) -> Result<Target<'_>, Wrong>
    ensures said { IfOk result (SaysTarget (codes "guid=" ++ guid.now)) }
    ensures refused { IfErr result (λ wrong. (wrong ≡ NoTarget) × SaysNoTarget (codes "guid=" ++ guid.now)) }
{
    match read_guid(guid) {
        Ok(guid) => Ok(Target::Guid(guid)),
        Err(_) => Err(Wrong::NoTarget),
    }
}

// Reads the number of an entry.
fn read_entry_number(text: &str) -> Result<Target<'_>, Wrong>
    ensures said { IfOk result (SaysTarget text.now) }
    ensures refused { IfErr result (λ wrong. (wrong ≡ NoTarget) × ((number : ℕ) → ¬ SaysEntry text.now number)) }
{
    if text.starts_with('+') {
        return Err(Wrong::NoTarget);
    }
    match text.parse::<u32>() {
        Ok(number) if number > 0 => Ok(Target::Number(number)),
        _ => Err(Wrong::NoTarget),
    }
}
