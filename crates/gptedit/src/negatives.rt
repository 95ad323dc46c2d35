//! Values that begin with `-`.

use std::alloc::{AllocError, Global};

/// Returns these words with such values where the parser takes them: `--end -1GiB` becomes `--end=-1GiB`, and the size
/// of `resize` comes last, after `--`. What follows `--` is unchanged.
pub fn place_negatives(alloc: Global, words: Vec<String>) -> Result<Vec<String>, AllocError> {
    let is_resize = words.get(1).is_some_and(|word| word.as_str() == "resize");
    let mut placed: Vec<String> = Vec::new(alloc);
    let mut sizes = Vec::new(alloc);
    let mut is_over = false;
    for word in words {
        is_over = is_over || word.as_str() == "--";
        match placed.last_mut() {
            Some(option) if !is_over && takes(option.as_str(), word.as_str()) => {
                option.push('=')?;
                option.push_str(word.as_str())?;
            }
            _ if !is_over && is_resize && is_negative(word.as_str()) => sizes.push(word)?,
            _ => placed.push(word)?,
        }
    }
    if !sizes.is_empty() && !is_over {
        placed.push(String::from_str(alloc, "--")?)?;
    }
    for size in sizes {
        placed.push(size)?;
    }
    Ok(placed)
}

// Reports whether the option takes the next word as its value, although that begins with `-`.
fn takes(option: &str, word: &str) -> bool {
    match option {
        "--start" | "--end" => is_negative(word),
        "--attributes" => word.len() > 2 && word.starts_with('-') && !word.starts_with("--"),
        _ => false,
    }
}

// Reports whether a word is a negative number, perhaps with a unit.
fn is_negative(word: &str) -> bool {
    match word.as_bytes() {
        [b'-', digit, ..] => digit.is_ascii_digit(),
        _ => false,
    }
}
