//! Finds the name of the type that an unknown word is likely to mean.

use gptguid_core::{nearest_name, types};

// The fewest letters of a word that is searched for in names.
const FEWEST: usize = 3;

// Codes of MBR partition tables, and the names of types for the same contents.
static MBR_CODES: [(&str, &str); 7] = [
    ("07", "microsoft-data"),
    ("0b", "microsoft-data"),
    ("0c", "microsoft-data"),
    ("82", "swap"),
    ("83", "linux"),
    ("8e", "linux-lvm"),
    ("fd", "linux-raid"),
];

/// Returns the name that is nearest to this word. If none is near, returns the name for a code of MBR partition tables,
/// the first name that contains the word, or the longest one that the word begins with, as `efi` of `EFI System`.
pub fn likely_name(word: &str) -> Option<&'static str> {
    if let Some(name) = nearest_name(word) {
        return Some(name);
    }
    if let Some(name) = name_for_code(word) {
        return Some(name);
    }
    if word.len() < FEWEST {
        return None;
    }
    let word = word.as_bytes();
    name_around(word).or(name_before(word))
}

fn codes() -> &'static [(&'static str, &'static str)] {
    &MBR_CODES
}

// Returns the name for a code of MBR partition tables.
fn name_for_code(word: &str) -> Option<&'static str> {
    for (code, name) in codes() {
        if code.eq_ignore_ascii_case(word) {
            return Some(*name);
        }
    }
    None
}

// Returns the first name that contains the word.
fn name_around(word: &[u8]) -> Option<&'static str> {
    for (name, _) in types() {
        if contains(name.as_bytes(), word) {
            return Some(*name);
        }
    }
    None
}

// Returns the longest name that the word begins with, before a separator.
fn name_before(word: &[u8]) -> Option<&'static str> {
    let mut longest = 0;
    let mut found = None;
    for (name, _) in types() {
        if name.len() > longest && is_first_part(name.as_bytes(), word) {
            longest = name.len();
            found = Some(*name);
        }
    }
    found
}

fn contains(name: &[u8], word: &[u8]) -> bool {
    for at in 0..name.len() {
        if let Some(rest) = name.get(at..) {
            if begins_with(rest, word) {
                return true;
            }
        }
    }
    false
}

// Reports whether the word is the name, a separator and more.
fn is_first_part(name: &[u8], word: &[u8]) -> bool {
    match word.get(name.len()) {
        Some(next) => folded(*next) == b'-' && begins_with(word, name),
        None => false,
    }
}

// Reports whether the text begins with these letters, in any case and with any separators.
fn begins_with(text: &[u8], letters: &[u8]) -> bool {
    if text.len() < letters.len() {
        return false;
    }
    for (is, wanted) in text.iter().zip(letters) {
        if folded(*is) != folded(*wanted) {
            return false;
        }
    }
    true
}

// Returns a letter in lower case, and a hyphen for each separator.
fn folded(letter: u8) -> u8 {
    match letter {
        b'_' | b' ' => b'-',
        letter => letter.to_ascii_lowercase(),
    }
}
