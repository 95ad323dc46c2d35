//! Amounts of sectors and bytes, with their units.

ghost use Rattle.std.specs.Prelude.{◌≡◌, ◌≢◌, ◌↔◌, ◌^◌, ◌*◌, ◌<◌, ◌++◌, ℕ, Contains, List, map, Ok, None, EachIndex, IfOk, IfSome, IsTrue, MatchOption, slice_index};
ghost use Rattle.gptedit_core.specs.declared.amount.Amount.TheVariants.{Bytes, Sectors};
ghost use Rattle.gptedit_values.specs.Words.{FitsAmount, FitsSize, HasUnit, SaysAmount, SaysSize};
ghost use Rattle.std.specs.Int.{IsInRange};
ghost use Rattle.std.specs.Result.{OkIff};
ghost use Rattle.std.specs.Str.Parse.{digits_value, IsNumeral};

use crate::units::{B, GIB, KIB, MIB, TIB, Unit};
use crate::wrong::Wrong;
use gptedit_core::{Amount, Size};
use std::fmt;
use std::num::IntErrorKind;

// The units of amounts, the largest first. `B` is last, since each other unit ends with it.
const UNITS: [Unit; 5] = [TIB, GIB, MIB, KIB, B];

/// Reads an amount: a whole number with a unit, as `2048s` in sectors, or `512B`, `64KiB`, `64MiB`, `1GiB`, `2TiB` in
/// bytes.
pub fn read_amount(text: &str) -> Result<Amount, Wrong>
    ensures said { IfOk result (SaysAmount text.now) }
    ensures read { (amount : Amount) → SaysAmount text.now amount → FitsAmount amount → result ≡ Ok amount }
{
    match number_before(text, "s") {
        Some(number) => read_sectors(number),
        None => match split_unit(text) {
            Some((number, unit)) => read_bytes(number, unit),
            None => Err(wrong_amount(text)),
        },
    }
}

// Returns the fault of a text without a unit after its digits.
fn wrong_amount(text: &str) -> Wrong {
    match read_number(text) {
        Ok(_) => Wrong::NoUnit,
        Err(wrong) => wrong,
    }
}

fn read_sectors(number: &str) -> Result<Amount, Wrong>
    requires { IsNumeral 10 number.now }
    ensures { OkIff result (digits_value 10 number.now < 2 ^ 64) (Sectors (digits_value 10 number.now)) }
{
    match read_number(number) {
        Ok(sectors) => Ok(Amount::Sectors(sectors)),
        Err(wrong) => Err(wrong),
    }
}

fn read_bytes(number: &str, unit: u64) -> Result<Amount, Wrong>
    requires number { IsNumeral 10 number.now }
    requires unit { 0 < unit }
    ensures { OkIff result (digits_value 10 number.now * unit < 2 ^ 64) (Bytes (digits_value 10 number.now * unit)) }
{
    match read_number(number) {
        Ok(count) => match count.checked_mul(unit) {
            Some(bytes) => Ok(Amount::Bytes(bytes)),
            None => Err(Wrong::TooLarge),
        },
        Err(wrong) => Err(wrong),
    }
}

// Returns the number before a unit of bytes, and the unit in bytes.
fn split_unit(text: &str) -> Option<(&str, u64)>
    ensures found { IfSome result (λ parts. IsNumeral 10 parts.0.now × HasUnit text.now parts.0.now parts.1) }
    ensures some { IfSome result (λ parts. 0 < parts.1) }
    ensures unknown { result ≡ None → (number : List ℕ) (unit : ℕ) → IsNumeral 10 number → ¬ (HasUnit text.now number unit) }
{
    unit_before(text, &UNITS)
}

// Returns the number before one of these units, and the unit in bytes.
pub(crate) fn unit_before<'a>(text: &'a str, units: &[Unit]) -> Option<(&'a str, u64)>
    ensures found { IfSome result (λ parts. IsNumeral 10 parts.0.now × ((name : List ℕ) × Contains {X = List ℕ × ℕ} (map (λ unit. (unit.name.now, unit.bytes)) units.now) (name, parts.1) × (text.now ≡ parts.0.now ++ name))) }
    ensures unknown { result ≡ None → (number : List ℕ) (name : List ℕ) (unit : ℕ) → IsNumeral 10 number
        → Contains {X = List ℕ × ℕ} (map (λ unit. (unit.name.now, unit.bytes)) units.now) (name, unit) → text.now ≢ number ++ name }
{
    for unit in units {
        match number_before(text, unit.name) {
            Some(number) => return Some((number, unit.bytes)),
            None => (),
        }
    }
    None
}

// Returns the digits before a unit, if the text is only digits and the unit.
pub(crate) fn number_before<'a>(text: &'a str, unit: &str) -> Option<&'a str>
    ensures { MatchOption result ((number : List ℕ) → IsNumeral 10 number → text.now ≢ number ++ unit.now)
        (λ number. IsNumeral 10 number.now × (text.now ≡ number.now ++ unit.now)) }
{
    let number = text.strip_suffix(unit)?;
    if is_whole(number) { Some(number) } else { None }
}

// Reports whether the text is one or more digits.
pub(crate) fn is_whole(text: &str) -> bool
    ensures { IsTrue result ↔ IsNumeral 10 text.now }
{
    !text.is_empty() && are_digits(text.as_bytes())
}

fn are_digits(bytes: &[u8]) -> bool
    ensures { IsTrue result ↔ EachIndex bytes.now (λ k. IsInRange 48 57 (slice_index bytes.now k)) }
{
    bytes.iter().all(|byte| byte.is_ascii_digit())
}

/// Reads a sector: a number with `s`, as `34s`.
pub fn read_sector(text: &str) -> Result<u64, Wrong>
    ensures said { IfOk result (λ sector. SaysAmount text.now (Sectors sector)) }
    ensures read { (sector : ℕ) → SaysAmount text.now (Sectors sector) → sector < 2 ^ 64 → result ≡ Ok sector }
{
    let Some(number) = text.strip_suffix("s") else {
        return Err(Wrong::NoSector);
    };
    match read_number(number) {
        Err(Wrong::NoAmount) => Err(Wrong::NoSector),
        read => read,
    }
}

/// Reads a size: an amount, or `rest`.
pub fn read_size(text: &str) -> Result<Size, Wrong>
    ensures said { IfOk result (SaysSize text.now) }
    ensures read { (size : Size) → SaysSize text.now size → FitsSize size → result ≡ Ok size }
{
    if text == "rest" {
        return Ok(Size::Rest);
    }
    match read_amount(text) {
        Ok(amount) => Ok(Size::Exactly(amount)),
        Err(Wrong::NoAmount) => Err(Wrong::NoSize),
        Err(wrong) => Err(wrong),
    }
}

// Reads a whole number, without a sign.
pub(crate) fn read_number(text: &str) -> Result<u64, Wrong>
    ensures { OkIff result (IsNumeral 10 text.now × (digits_value 10 text.now < 2 ^ 64)) (digits_value 10 text.now) }
{
    if text.starts_with('+') {
        return Err(Wrong::NoAmount);
    }
    match text.parse::<u64>() {
        Ok(number) => Ok(number),
        Err(error) if *error.kind() == IntErrorKind::PosOverflow => Err(Wrong::TooLarge),
        Err(_) => Err(Wrong::NoAmount),
    }
}

/// An amount in the form that `read_amount` reads. Bytes are printed in the largest unit that divides them.
#[derive(Clone, Copy, PartialEq, Eq)]
pub struct AmountText(pub Amount);

impl fmt::Display for AmountText {
    fn fmt<W: fmt::Write>(&self, f: &mut fmt::Formatter<W>) -> fmt::Result {
        match self.0 {
            Amount::Sectors(sectors) => write!(f, "{sectors}s"),
            Amount::Bytes(bytes) => write_bytes(f, bytes),
        }
    }
}

fn write_bytes<W: fmt::Write>(f: &mut fmt::Formatter<W>, bytes: u64) -> fmt::Result {
    for unit in UNITS {
        if bytes >= unit.bytes && bytes % unit.bytes == 0 {
            return write!(f, "{}{}", bytes / unit.bytes, unit.name);
        }
    }
    write!(f, "{bytes}B")
}

/// A size in the form that `read_size` reads.
#[derive(Clone, Copy, PartialEq, Eq)]
pub struct SizeText(pub Size);

impl fmt::Display for SizeText {
    fn fmt<W: fmt::Write>(&self, f: &mut fmt::Formatter<W>) -> fmt::Result {
        match self.0 {
            Size::Exactly(amount) => AmountText(amount).fmt(f),
            Size::Rest => f.write_str("rest"),
        }
    }
}
