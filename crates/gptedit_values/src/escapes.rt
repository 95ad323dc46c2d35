//! Hidden characters, and texts in which they are escaped.

use std::fmt;

/// Reports whether a terminal may interpret the character as a command or a line break, may change the direction of
/// writing at it, or may show nothing for it.
///
/// These are the control characters, the line and paragraph separators, the marks of direction, and the other
/// invisible formatting characters (soft hyphen, zero-width characters, annotations and tags).
pub fn is_hidden(c: char) -> bool {
    matches!(
        c,
        '\0'..='\u{1f}'
            | '\u{7f}'..='\u{9f}'
            | '\u{ad}'
            | '\u{61c}'
            | '\u{180e}'
            | '\u{200b}'..='\u{200f}'
            | '\u{2028}'..='\u{202e}'
            | '\u{2060}'..='\u{206f}'
            | '\u{feff}'
            | '\u{fff9}'..='\u{fffb}'
            | '\u{e0000}'..='\u{e007f}'
    )
}

/// A text in which hidden characters are printed as `\u{202e}`.
#[derive(Clone, Copy, PartialEq, Eq)]
pub struct Escaped<'a>(pub &'a str);

impl fmt::Display for Escaped<'_> {
    fn fmt<W: fmt::Write>(&self, f: &mut fmt::Formatter<W>) -> fmt::Result {
        for c in self.0.chars() {
            EscapedChar(c).fmt(f)?;
        }
        Ok(())
    }
}

/// A character. A hidden one is printed as `\u{202e}`.
#[derive(Clone, Copy, PartialEq, Eq)]
pub struct EscapedChar(pub char);

impl fmt::Display for EscapedChar {
    fn fmt<W: fmt::Write>(&self, f: &mut fmt::Formatter<W>) -> fmt::Result {
        if is_hidden(self.0) {
            EscapedCode(u32::from(self.0)).fmt(f)
        } else {
            f.write_char(self.0)
        }
    }
}

/// A code point, or a surrogate without its pair, printed as `\u{d800}`.
#[derive(Clone, Copy, PartialEq, Eq)]
pub struct EscapedCode(pub u32);

impl fmt::Display for EscapedCode {
    fn fmt<W: fmt::Write>(&self, f: &mut fmt::Formatter<W>) -> fmt::Result {
        f.write_str("\\u{")?;
        write!(f, "{:x}", self.0)?;
        f.write_str("}")
    }
}

/// A basic string of TOML, in double quotes, that is read as this text. Hidden characters are printed as `\u0085` or
/// `\U000e0001`.
#[derive(Clone, Copy, PartialEq, Eq)]
pub struct TomlText<'a>(pub &'a str);

impl fmt::Display for TomlText<'_> {
    fn fmt<W: fmt::Write>(&self, f: &mut fmt::Formatter<W>) -> fmt::Result {
        f.write_str("\"")?;
        for c in self.0.chars() {
            write_toml_char(f, c)?;
        }
        f.write_str("\"")
    }
}

fn write_toml_char<W: fmt::Write>(f: &mut fmt::Formatter<W>, c: char) -> fmt::Result {
    let code = u32::from(c);
    match c {
        '"' => f.write_str("\\\""),
        '\\' => f.write_str("\\\\"),
        c if !is_hidden(c) => f.write_char(c),
        _ if code < 0x1_0000 => write!(f, "\\u{code:04x}"),
        _ => write!(f, "\\U{code:08x}"),
    }
}
