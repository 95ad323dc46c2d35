//! The parts of a line of a script.

use crate::error::Fault;

// The characters between two parts.
const SEPARATORS: [char; 2] = [',', ';'];

// The characters that end a part without quotes.
const ENDS: [char; 4] = [',', ';', ' ', '\t'];

// The characters that end a name.
const NAME_ENDS: [char; 5] = ['=', ',', ';', ' ', '\t'];

/// Returns the first part of a text, without its double quotes, and the text after its separator.
pub fn next_token(text: &str) -> Result<(&str, &str), Fault> {
    let text = text.trim_start();
    if let Some(quoted) = text.strip_prefix('"') {
        return match quoted.split_once('"') {
            Some((token, rest)) if rest.is_empty() || rest.starts_with(ENDS) => {
                Ok((token, skip_separator(rest)))
            }
            _ => Err(Fault::OpenQuote),
        };
    }
    let token = text.split(ENDS).next().unwrap_or(text);
    let rest = text.strip_prefix(token).unwrap_or("");
    Ok((token, skip_separator(rest)))
}

/// Returns the name at the start of a text, which ends before a blank, a separator or a `=`, and the text after it.
pub fn first_word(text: &str) -> (&str, &str) {
    let text = text.trim_start();
    let word = text.split(NAME_ENDS).next().unwrap_or(text);
    (word, text.strip_prefix(word).unwrap_or(""))
}

/// Returns the text after blanks, an optional separator and more blanks.
pub fn skip_separator(text: &str) -> &str {
    let text = text.trim_start();
    match text.strip_prefix(SEPARATORS) {
        Some(rest) => rest.trim_start(),
        None => text,
    }
}
