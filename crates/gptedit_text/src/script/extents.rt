//! Starts, sizes and alignments in a script.

use gptedit_core::Amount;
use gptedit_values::{read_extent, read_number};

// The letters of the units, and the units in bytes.
const LETTERS: [([char; 2], u64); 6] = [
    (['K', 'k'], 1 << 10),
    (['M', 'm'], 1 << 20),
    (['G', 'g'], 1 << 30),
    (['T', 't'], 1 << 40),
    (['P', 'p'], 1 << 50),
    (['E', 'e'], 1 << 60),
];

/// Reads a number of sectors, or of bytes with a unit, whose letters may be lower-case, except an `I`.
pub fn read_any_extent(text: &str) -> Option<Amount> {
    match read_extent(text) {
        Some(amount) => Some(amount),
        None => read_bytes(text),
    }
}

// Reads a number of bytes with a unit, as `64m` or `64mib`.
fn read_bytes(text: &str) -> Option<Amount> {
    let text = without_ib(text);
    for (letters, unit) in LETTERS {
        if let Some(number) = text.strip_suffix(letters) {
            let bytes = read_number(number)?.checked_mul(unit)?;
            return Some(Amount::Bytes(bytes));
        }
    }
    None
}

// Removes the letters after the first one of a unit.
fn without_ib(text: &str) -> &str {
    match text.strip_suffix("ib") {
        Some(rest) => rest,
        None => text.strip_suffix("iB").unwrap_or(text),
    }
}
