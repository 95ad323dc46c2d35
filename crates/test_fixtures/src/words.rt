//! Command lines.

use std::alloc::{AllocError, Global};

/// Returns the words of a line. `F`, `T`, `U`, `V` and `Z` stand for GUIDs.
pub fn split(alloc: Global, line: &str) -> Result<Vec<String>, AllocError> {
    let mut words = Vec::new(alloc);
    for word in line.split_whitespace() {
        words.push(String::from_str(alloc, spelled(word))?)?;
    }
    Ok(words)
}

// Returns the word, or the GUID that it stands for.
fn spelled(word: &str) -> &str {
    match word {
        "F" => "ffffffffffffffffffffffffffffffff",
        "T" => "11111111111111111111111111111111",
        "U" => "22222222222222222222222222222222",
        "V" => "33333333333333333333333333333333",
        "Z" => "00000000000000000000000000000000",
        _ => word,
    }
}
