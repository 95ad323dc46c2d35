//! Words of command lines in messages.

use crate::escapes::EscapedChar;
use std::fmt;

/// A path in a command line that a message names, so that a shell reads it as one word: in single quotes, unless it has
/// only letters, digits and `%+,-./:=@_`. One that begins with `-` gets `./` before it. Hidden characters are escaped.
#[derive(Clone, Copy, PartialEq, Eq)]
pub struct ShellWord<'a>(pub &'a str);

impl fmt::Display for ShellWord<'_> {
    fn fmt<W: fmt::Write>(&self, f: &mut fmt::Formatter<W>) -> fmt::Result {
        if self.0.starts_with('-') {
            f.write_str("./")?;
        }
        if is_plain(self.0) {
            return f.write_str(self.0);
        }
        f.write_str("'")?;
        for c in self.0.chars() {
            match c {
                '\'' => f.write_str("'\\''")?,
                c => EscapedChar(c).fmt(f)?,
            }
        }
        f.write_str("'")
    }
}

// Reports whether a shell reads the text as it is.
fn is_plain(text: &str) -> bool {
    for c in text.chars() {
        if !is_plain_char(c) {
            return false;
        }
    }
    !text.is_empty()
}

fn is_plain_char(c: char) -> bool {
    matches!(
        c,
        'a'..='z' | 'A'..='Z' | '0'..='9' | '%' | '+' | ',' | '-' | '.' | '/' | ':' | '=' | '@' | '_'
    )
}
