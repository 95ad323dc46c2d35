//! Sizes and positions.

ghost use Rattle.std.specs.Prelude.{◌≡◌, ◌≢◌, ◌<◌, ◌≤◌, ◌+◌, ◌-◌, ◌*◌, ◌/◌, ◌^◌, ◌++◌, ◌⊎◌, ℕ, Contains, IfErr, IfOk, IfSome, List, MatchOption, None, Ok, codes, length};
ghost use Rattle.gptedit_core.specs.declared.amount.Amount.TheVariants.{Bytes, Sectors};
ghost use Rattle.gptedit_core.specs.declared.measure.Measure.TheVariants.{About, Exactly, Share};
ghost use Rattle.gptedit_values.specs.Measures.{FitsMeasure, SaysLength, SaysMeasure, SaysNewLength, SaysNoLength, SaysNoNewLength, SaysNoPosition, SaysPosition};
ghost use Rattle.gptedit_values.specs.Measures.{binary_units, decimal_units};
ghost use Rattle.std.specs.Option.{SomeIff};
ghost use Rattle.std.specs.Result.{OkIff};
ghost use Rattle.std.specs.Str.Parse.{digits_value, IsNumeral};

use crate::amount::{is_whole, number_before, read_number, unit_before};
use crate::extent::behind;
use crate::units::{B, G, GB, GIB, K, KB, KIB, M, MB, MIB, T, TB, TIB, Unit};
use crate::wrong::Wrong;
use gptedit_core::{Amount, Extent, Measure, Position, WHOLE};

// The powers of two. `B` is last, since other units end with it.
const BINARY: [Unit; 9] = [TIB, GIB, MIB, KIB, T, G, M, K, B];

// The powers of ten.
const DECIMAL: [Unit; 4] = [TB, GB, MB, KB];

// 1 % in parts of `WHOLE`, and a whole number in millionths.
const MILLION: u64 = 1_000_000;

/// Reads a measure: a number with a unit, as `2048s`, `64MiB`, `500GB` or `1.5GiB`, or a percentage, as `47%`.
pub fn read_measure(text: &str) -> Result<Measure, Wrong>
    ensures said { IfOk result (SaysMeasure text.now) }
    ensures read { (measure : Measure) → SaysMeasure text.now measure → FitsMeasure measure → result ≡ Ok measure }
{
    match split_point(text) {
        Some((whole, rest)) => read_fraction(whole, rest),
        None => read_whole(text),
    }
}

// Splits a number at its point.
#[tactic(auto, using(std::proofs::lemmas::Str::Pattern::split_parts))]
fn split_point(text: &str) -> Option<(&str, &str)>
    ensures { MatchOption result ((front : List ℕ) (back : List ℕ) → IsNumeral 10 front → text.now ≢ front ++ (codes "." ++ back))
        (λ parts. IsNumeral 10 parts.0.now × (text.now ≡ parts.0.now ++ (codes "." ++ parts.1.now))) }
{
    match text.split_once('.') {
        Some((whole, rest)) => {
            if is_whole(whole) {
                Some((whole, rest))
            } else {
                None
            }
        }
        None => None,
    }
}

// Reads a measure without a point.
fn read_whole(text: &str) -> Result<Measure, Wrong>
    requires { (front : List ℕ) (back : List ℕ) → IsNumeral 10 front → text.now ≢ front ++ (codes "." ++ back) }
    ensures said { IfOk result (SaysMeasure text.now) }
    ensures read { (measure : Measure) → SaysMeasure text.now measure → FitsMeasure measure → result ≡ Ok measure }
{
    if let Some(number) = number_before(text, "s") {
        return sectors_of(number);
    }
    if let Some(number) = number_before(text, "%") {
        return share_of(number);
    }
    if let Some((number, unit)) = binary_unit(text) {
        return bytes_of(number, unit);
    }
    match decimal_unit(text) {
        Some((number, unit)) => about_of(number, unit),
        None => Err(wrong_measure(text)),
    }
}

// Returns the fault of a text without a unit after its digits.
fn wrong_measure(text: &str) -> Wrong {
    match read_number(text) {
        Ok(_) => Wrong::NoUnit,
        Err(Wrong::NoAmount) => Wrong::NoMeasure,
        Err(wrong) => wrong,
    }
}

fn sectors_of(number: &str) -> Result<Measure, Wrong>
    requires { IsNumeral 10 number.now }
    ensures { OkIff result (digits_value 10 number.now < 2 ^ 64) (Exactly (Sectors (digits_value 10 number.now))) }
{
    match read_number(number) {
        Ok(sectors) => Ok(Measure::Exactly(Amount::Sectors(sectors))),
        Err(wrong) => Err(wrong),
    }
}

fn share_of(number: &str) -> Result<Measure, Wrong>
    requires { IsNumeral 10 number.now }
    ensures { OkIff result (digits_value 10 number.now * 10 ^ 6 ≤ 10 ^ 8) (Share (digits_value 10 number.now * 10 ^ 6)) }
{
    match read_number(number) {
        Ok(percent) if percent <= 100 => Ok(Measure::Share(percent * MILLION)),
        _ => Err(Wrong::OverWhole),
    }
}

fn bytes_of(number: &str, unit: u64) -> Result<Measure, Wrong>
    requires number { IsNumeral 10 number.now }
    requires unit { 0 < unit }
    ensures { OkIff result (digits_value 10 number.now * unit < 2 ^ 64) (Exactly (Bytes (digits_value 10 number.now * unit))) }
{
    match read_product(number, unit) {
        Ok(bytes) => Ok(Measure::Exactly(Amount::Bytes(bytes))),
        Err(wrong) => Err(wrong),
    }
}

fn about_of(number: &str, unit: u64) -> Result<Measure, Wrong>
    requires number { IsNumeral 10 number.now }
    requires unit { 0 < unit }
    ensures { OkIff result (digits_value 10 number.now * unit < 2 ^ 64) (About (digits_value 10 number.now * unit)) }
{
    match read_product(number, unit) {
        Ok(bytes) => Ok(Measure::About(bytes)),
        Err(wrong) => Err(wrong),
    }
}

fn read_product(number: &str, unit: u64) -> Result<u64, Wrong>
    requires number { IsNumeral 10 number.now }
    requires unit { 0 < unit }
    ensures { OkIff result (digits_value 10 number.now * unit < 2 ^ 64) (digits_value 10 number.now * unit) }
{
    match read_number(number) {
        Ok(count) => match count.checked_mul(unit) {
            Some(bytes) => Ok(bytes),
            None => Err(Wrong::TooLarge),
        },
        Err(wrong) => Err(wrong),
    }
}

// Returns the number before a unit of a power of two, and the unit in bytes.
#[tactic(auto, using(crate::proofs::Measures::binary_row))]
fn binary_unit(text: &str) -> Option<(&str, u64)>
    ensures found { IfSome result (λ parts. IsNumeral 10 parts.0.now × ((name : List ℕ) × Contains binary_units (name, parts.1) × (text.now ≡ parts.0.now ++ name))) }
    ensures some { IfSome result (λ parts. 0 < parts.1) }
    ensures most { IfSome result (λ parts. parts.1 ≤ 2 ^ 40) }
    ensures unknown { result ≡ None → (number : List ℕ) (name : List ℕ) (unit : ℕ) → IsNumeral 10 number → Contains binary_units (name, unit) → text.now ≢ number ++ name }
{
    unit_before(text, &BINARY)
}

// Returns the number before a unit of a power of ten, and the unit in bytes.
#[tactic(auto, using(crate::proofs::Measures::decimal_row))]
fn decimal_unit(text: &str) -> Option<(&str, u64)>
    ensures found { IfSome result (λ parts. IsNumeral 10 parts.0.now × ((name : List ℕ) × Contains decimal_units (name, parts.1) × (text.now ≡ parts.0.now ++ name))) }
    ensures some { IfSome result (λ parts. 0 < parts.1) }
    ensures most { IfSome result (λ parts. parts.1 ≤ 2 ^ 40) }
    ensures unknown { result ≡ None → (number : List ℕ) (name : List ℕ) (unit : ℕ) → IsNumeral 10 number → Contains decimal_units (name, unit) → text.now ≢ number ++ name }
{
    unit_before(text, &DECIMAL)
}

// Reads a measure with a point, between these two texts.
fn read_fraction(whole: &str, rest: &str) -> Result<Measure, Wrong>
    requires { IsNumeral 10 whole.now }
    ensures said { IfOk result (SaysMeasure (whole.now ++ (codes "." ++ rest.now))) }
    ensures read { (measure : Measure) → SaysMeasure (whole.now ++ (codes "." ++ rest.now)) measure → FitsMeasure measure → result ≡ Ok measure }
{
    if let Some(tail) = number_before(rest, "%") {
        return share_with(whole, tail);
    }
    if let Some((tail, unit)) = binary_unit(rest) {
        return about_with(whole, tail, unit);
    }
    match decimal_unit(rest) {
        Some((tail, unit)) => about_with(whole, tail, unit),
        None => Err(Wrong::NoMeasure),
    }
}

fn share_with(whole: &str, tail: &str) -> Result<Measure, Wrong>
    requires whole { IsNumeral 10 whole.now }
    requires tail { IsNumeral 10 tail.now }
    ensures { OkIff result ((length tail.now ≤ 6) × (digits_value 10 whole.now * 10 ^ 6 + digits_value 10 tail.now * 10 ^ (6 - length tail.now) ≤ 10 ^ 8))
        (Share (digits_value 10 whole.now * 10 ^ 6 + digits_value 10 tail.now * 10 ^ (6 - length tail.now))) }
{
    let millionths = read_millionths(tail)?;
    match read_number(whole) {
        Ok(percent) if percent < 100 || percent == 100 && millionths == 0 => {
            Ok(Measure::Share(percent * MILLION + millionths))
        }
        _ => Err(Wrong::OverWhole),
    }
}

#[tactic(auto, using(crate::proofs::Measures::parts_of))]
fn about_with(whole: &str, tail: &str, unit: u64) -> Result<Measure, Wrong>
    requires whole { IsNumeral 10 whole.now }
    requires tail { IsNumeral 10 tail.now }
    requires unit { 0 < unit }
    requires most { unit ≤ 2 ^ 40 }
    ensures { OkIff result ((length tail.now ≤ 6) × ((digits_value 10 whole.now * 10 ^ 6 + digits_value 10 tail.now * 10 ^ (6 - length tail.now)) * unit / 10 ^ 6 < 2 ^ 64))
        (About ((digits_value 10 whole.now * 10 ^ 6 + digits_value 10 tail.now * 10 ^ (6 - length tail.now)) * unit / 10 ^ 6)) }
{
    let millionths = read_millionths(tail)?;
    let part = part_of(millionths, unit);
    match read_product(whole, unit) {
        Ok(bytes) => match bytes.checked_add(part) {
            Some(bytes) => Ok(Measure::About(bytes)),
            None => Err(Wrong::TooLarge),
        },
        Err(wrong) => Err(wrong),
    }
}

// Returns so many millionths of a unit, rounded down.
#[tactic(auto, using(crate::proofs::Measures::below_unit))]
fn part_of(millionths: u64, unit: u64) -> u64
    requires millionths { millionths < 10 ^ 6 }
    requires unit { unit ≤ 2 ^ 40 }
    ensures { result ≡ millionths * unit / 10 ^ 6 }
{
    millionths * unit / MILLION
}

// Reads the digits after a point, in millionths.
#[tactic(auto, using(crate::proofs::Measures::below_million))]
fn read_millionths(tail: &str) -> Result<u64, Wrong>
    requires { IsNumeral 10 tail.now }
    ensures value { OkIff result (length tail.now ≤ 6) (digits_value 10 tail.now * 10 ^ (6 - length tail.now)) }
    ensures small { IfOk result (λ millionths. millionths < 10 ^ 6) }
{
    let Some(scale) = scale_of(tail.len()) else {
        return Err(Wrong::TooFine);
    };
    match read_number(tail) {
        Ok(count) => Ok(count * scale),
        Err(wrong) => Err(wrong),
    }
}

// Returns the number of millionths in 1 after so many digits.
fn scale_of(digits: usize) -> Option<u64>
    requires { 0 < digits }
    ensures { SomeIff result (digits ≤ 6) (10 ^ (6 - digits)) }
{
    match digits {
        1 => Some(100_000),
        2 => Some(10_000),
        3 => Some(1_000),
        4 => Some(100),
        5 => Some(10),
        6 => Some(1),
        _ => None,
    }
}

/// Reads a position: a measure, with `-` before it from the end of the usable sectors.
#[tactic(auto, using(crate::proofs::Measures::no_start))]
pub fn read_position(text: &str) -> Result<Position, Wrong>
    ensures said { IfOk result (SaysPosition text.now) }
    ensures refused { IfErr result (λ wrong. SaysNoPosition text.now) }
{
    match behind(text, "-") {
        Some(rest) => match read_measure(rest) {
            Ok(measure) => Ok(Position::FromEnd(measure)),
            Err(wrong) => Err(wrong),
        },
        None => match read_measure(text) {
            Ok(measure) => Ok(Position::FromStart(measure)),
            Err(wrong) => Err(wrong),
        },
    }
}

/// Reads the size of a new partition: a measure, or `rest`.
#[tactic(auto, using(crate::proofs::Measures::no_length))]
pub fn read_length(text: &str) -> Result<Extent, Wrong>
    ensures said { IfOk result (SaysLength text.now) }
    ensures refused { IfErr result (λ wrong. SaysNoLength text.now) }
{
    if text == "rest" {
        return Ok(Extent::Rest);
    }
    match read_measure(text) {
        Ok(measure) => Ok(Extent::Size(measure)),
        Err(Wrong::NoMeasure) => Err(Wrong::NoLength),
        Err(wrong) => Err(wrong),
    }
}

/// Reads the new size of a partition: a measure, `+` and what it is longer, `-` and what it is shorter, or `max`.
pub fn read_new_length(text: &str) -> Result<Extent, Wrong>
    ensures said { IfOk result (SaysNewLength text.now) }
    ensures refused { IfErr result (λ wrong. SaysNoNewLength text.now) }
{
    if text == "max" {
        return Ok(Extent::Rest);
    }
    match behind(text, "+") {
        Some(rest) => match read_measure(rest) {
            Ok(measure) => Ok(Extent::More(measure)),
            Err(wrong) => Err(wrong),
        },
        None => read_unsigned(text),
    }
}

// Reads the new size of a partition without `+`, that is not `max`.
#[tactic(auto, using(crate::proofs::Measures::no_new_length))]
fn read_unsigned(text: &str) -> Result<Extent, Wrong>
    requires max { text.now ≢ codes "max" }
    requires plus { (rest : List ℕ) → text.now ≢ codes "+" ++ rest }
    ensures said { IfOk result (SaysNewLength text.now) }
    ensures refused { IfErr result (λ wrong. SaysNoNewLength text.now) }
{
    match behind(text, "-") {
        Some(rest) => match read_measure(rest) {
            Ok(measure) => Ok(Extent::Less(measure)),
            Err(wrong) => Err(wrong),
        },
        None => match read_measure(text) {
            Ok(measure) => Ok(Extent::Size(measure)),
            Err(Wrong::NoMeasure) => Err(Wrong::NoNewLength),
            Err(wrong) => Err(wrong),
        },
    }
}
