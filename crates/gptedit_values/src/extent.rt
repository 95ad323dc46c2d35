//! Starts and sizes in a script.

ghost use Rattle.std.specs.Prelude.{◌≡◌, ◌≢◌, ◌<◌, ◌≤◌, ◌⊎◌, ◌^◌, ◌++◌, ℕ, List, [], length, IfSome, MatchOption, None};
ghost use Rattle.std.specs.Str.Parse.{digits_value, IsNumeral};
ghost use Rattle.gptedit_values.specs.Scripts.{HasScriptUnit, SaysExtent, SaysNoExtent, SaysNoScriptNumber, SaysScriptNumber};

use crate::units::{EIB, GIB, KIB, MIB, PIB, TIB, Unit};
use gptedit_core::Amount;

// The units of scripts, each by its name or its letter.
const UNITS: [Unit; 6] = [KIB, MIB, GIB, TIB, PIB, EIB];

/// Reads a number of sectors, or of bytes with a unit, as `64MiB` or `64M`. `0x1E` is hexadecimal, not 1 EiB.
pub fn read_extent(text: &str) -> Option<Amount>
    ensures said { IfSome result (SaysExtent text.now) }
    ensures refused { result ≡ None → SaysNoExtent text.now }
{
    match read_number(text) {
        Some(sectors) => Some(Amount::Sectors(sectors)),
        None => match split_unit(text) {
            Some((number, unit)) => match read_number(number)?.checked_mul(unit) {
                Some(bytes) => Some(Amount::Bytes(bytes)),
                None => None,
            },
            None => None,
        },
    }
}

// Returns the number before a unit, and the unit in bytes.
fn split_unit(text: &str) -> Option<(&str, u64)>
    ensures found { IfSome result (λ parts. HasScriptUnit text.now parts.0.now parts.1) }
    ensures unknown { result ≡ None → (number : List ℕ) (unit : ℕ) → ¬ (HasScriptUnit text.now number unit) }
{
    for unit in UNITS {
        if let Some(number) = text.strip_suffix(unit.name) {
            return Some((number, unit.bytes));
        }
        if let Some(number) = text.strip_suffix(unit.letter) {
            return Some((number, unit.bytes));
        }
    }
    None
}

/// Reads a whole number: hexadecimal after `0x`, octal after another `0`, otherwise decimal.
pub fn read_number(text: &str) -> Option<u64>
    ensures said { IfSome result (SaysScriptNumber text.now) }
    ensures refused { result ≡ None → SaysNoScriptNumber text.now }
{
    match behind(text, "0x") {
        Some(digits) => read_digits(digits, 16),
        None => match behind(text, "0") {
            Some(digits) => read_octal(digits),
            None => read_digits(text, 10),
        },
    }
}

// Reads the octal digits after a `0`. Without digits the number is 0.
fn read_octal(digits: &str) -> Option<u64>
    ensures { MatchOption result ((0 < length digits.now) × ¬ (IsNumeral 8 digits.now × (digits_value 8 digits.now < 2 ^ 64)))
        (λ number. ((digits.now ≡ []) × (number ≡ 0)) ⊎ (IsNumeral 8 digits.now × (digits_value 8 digits.now ≡ number))) }
{
    if digits.is_empty() {
        Some(0)
    } else {
        read_digits(digits, 8)
    }
}

// Returns the text after this prefix.
pub(crate) fn behind<'a>(text: &'a str, front: &str) -> Option<&'a str>
    ensures { MatchOption result ((rest : List ℕ) → text.now ≢ front.now ++ rest) (λ rest. text.now ≡ front.now ++ rest.now) }
{
    text.strip_prefix(front)
}

// Reads the digits of a number, without a sign.
fn read_digits(digits: &str, radix: u32) -> Option<u64>
    requires from { 2 ≤ radix }
    requires to { radix ≤ 36 }
    ensures { MatchOption result (¬ (IsNumeral radix digits.now × (digits_value radix digits.now < 2 ^ 64)))
        (λ number. IsNumeral radix digits.now × (digits_value radix digits.now ≡ number)) }
{
    if digits.starts_with('+') {
        return None;
    }
    u64::from_str_radix(digits, radix).ok()
}
