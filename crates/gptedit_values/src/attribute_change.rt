//! Changes of attributes: all of them, or single bits and fields.

ghost use Rattle.std.specs.Prelude.{◌≡◌, ◌<◌, ◌≤◌, ◌+◌, ◌^◌, ℕ, All, IfErr, IfOk};
ghost use Rattle.std.specs.Result.{OkIff};
ghost use Rattle.std.specs.Int.{bit_at};
ghost use Rattle.std.specs.Str.Parse.{digits_value, IsNumeral};
ghost use Rattle.gptedit_values.specs.Steps.{bits_from, step_bit, BitStep, IsStep, Makes, MakesStep, SaysChange};
ghost use Rattle.gptedit_values.specs.Steps.{SaysField, SaysNoChange, SaysSteps, SaysValue};
ghost use Rattle.gptedit_values.specs.Words.{words_of, IsAttribute, SaysAttribute};

use crate::attributes::{read_attribute, read_attributes};
use crate::wrong::Wrong;
use gptedit_core::AttributeChange;

/// Reads a change of attributes: the new attributes, as `read_attributes` reads them; or steps, separated by commas.
/// A step is an attribute after `+`, which sets its bit, or after `-`, which clears it; or a field of ChromeOS with its
/// value, as `priority=5`. Later steps come after earlier ones.
pub fn read_attribute_change(text: &str) -> Result<AttributeChange, Wrong>
    ensures said { IfOk result (SaysChange text.now) }
    ensures refused { IfErr result (λ wrong. SaysNoChange text.now) }
{
    match read_attributes(text) {
        Ok(attributes) => Ok(exactly(attributes)),
        Err(_) => read_steps(text),
    }
}

// Returns the change to exactly these attributes.
fn exactly(attributes: u64) -> AttributeChange
    ensures { Makes result (λ k b. bit_at attributes k) }
{
    AttributeChange {
        clear: u64::MAX,
        set: attributes,
    }
}

// Reads steps separated by commas.
fn read_steps(text: &str) -> Result<AttributeChange, Wrong>
    ensures said { IfOk result (SaysSteps text.now) }
    ensures refused { IfErr result (λ wrong. ¬ (All IsStep (words_of text.now))) }
{
    let mut change = AttributeChange { clear: 0, set: 0 };
    for word in text.split(',') {
        let step = read_step(word)?;
        change = change.then(step);
    }
    Ok(change)
}

fn read_step(word: &str) -> Result<AttributeChange, Wrong>
    ensures said { IfOk result (MakesStep word.now) }
    ensures refused { IfErr result (λ wrong. ¬ (IsStep word.now)) }
{
    if let Some(name) = word.strip_prefix('+') {
        let bit = read_bit(name)?;
        return Ok(AttributeChange { clear: 0, set: bit });
    }
    if let Some(name) = word.strip_prefix('-') {
        let bit = read_bit(name)?;
        return Ok(AttributeChange { clear: bit, set: 0 });
    }
    read_field(word)
}

// Reads the attribute of a step.
fn read_bit(name: &str) -> Result<u64, Wrong>
    ensures said { IfOk result (SaysAttribute name.now) }
    ensures refused { IfErr result (λ wrong. ¬ (IsAttribute name.now)) }
{
    match read_attribute(name) {
        Ok(bit) => Ok(bit),
        Err(_) => Err(Wrong::NoAttributeChange),
    }
}

// Reads a field and its value.
fn read_field(word: &str) -> Result<AttributeChange, Wrong>
    ensures said { IfOk result (MakesStep word.now) }
    ensures refused { IfErr result (λ wrong. (step : BitStep) → ¬ (SaysField word.now step)) }
{
    if let Some(digits) = word.strip_prefix("priority=") {
        return read_bits(digits, 48, 4);
    }
    if let Some(digits) = word.strip_prefix("tries=") {
        return read_bits(digits, 52, 4);
    }
    match word.strip_prefix("successful=") {
        Some(digits) => read_bits(digits, 56, 1),
        None => Err(Wrong::NoAttributeChange),
    }
}

// Reads the value of a field of `width` bits from the bit `first` on.
fn read_bits(digits: &str, first: u64, width: u64) -> Result<AttributeChange, Wrong>
    requires { first + width < 64 }
    ensures said { IfOk result (λ change. SaysValue digits.now width × Makes change (step_bit (bits_from first width (digits_value 10 digits.now)))) }
    ensures refused { IfErr result (λ wrong. ¬ (SaysValue digits.now width)) }
{
    let limit = 1 << width;
    let value = read_below(digits, limit)?;
    Ok(AttributeChange {
        clear: (limit - 1) << first,
        set: value << first,
    })
}

// Reads a number below this limit.
fn read_below(digits: &str, limit: u64) -> Result<u64, Wrong>
    ensures { OkIff result (IsNumeral 10 digits.now × (digits_value 10 digits.now < limit)) (digits_value 10 digits.now) }
{
    if digits.starts_with('+') {
        return Err(Wrong::NoAttributeChange);
    }
    match digits.parse::<u64>() {
        Ok(value) if value < limit => Ok(value),
        _ => Err(Wrong::NoAttributeChange),
    }
}
