//! Names of partitions.

ghost use Rattle.std.specs.Prelude.{◌≡◌, ◌↔◌, ◌<◌, min, IsTrue};
ghost use Rattle.gptedit_values.specs.Words.{utf16_len};

use std::fmt;

// The maximum number of UTF-16 units of a name.
const NAME_UNITS: usize = 36;

/// Reports whether the text has more UTF-16 units than a name may have, which is 36.
pub fn is_long_name(text: &str) -> bool
    ensures { IsTrue result ↔ 36 < utf16_len text.now }
{
    count_units(text) > NAME_UNITS
}

// Returns the number of UTF-16 units of the text, or the greatest `usize` if there are more.
fn count_units(text: &str) -> usize
    ensures { result ≡ min (utf16_len text.now) usize.MAX }
{
    let mut units: usize = 0;
    for c in text.chars() {
        units = units.saturating_add(c.len_utf16());
    }
    units
}

/// Reads the units of a name: at most 36 numbers of four hexadecimal digits each, separated by single spaces, as
/// `0041 d800`. The units after them are zero.
pub fn read_units(text: &str) -> Option<[u16; 36]> {
    let mut units = [0; NAME_UNITS];
    if text.is_empty() {
        return Some(units);
    }
    let mut rest = units.iter_mut();
    for word in text.split(' ') {
        *rest.next()? = read_unit(word)?;
    }
    Some(units)
}

fn read_unit(word: &str) -> Option<u16> {
    if word.len() != 4 || word.starts_with('+') {
        return None;
    }
    u16::from_str_radix(word, 16).ok()
}

/// The units of a name in the form that `read_units` reads, without the zeros at the end.
#[derive(Clone, Copy, PartialEq, Eq)]
pub struct UnitsText<'a>(pub &'a [u16; 36]);

impl fmt::Display for UnitsText<'_> {
    fn fmt<W: fmt::Write>(&self, f: &mut fmt::Formatter<W>) -> fmt::Result {
        let units = self.0;
        let mut space = "";
        for unit in units.iter().take(used_units(units)) {
            write!(f, "{space}{unit:04x}")?;
            space = " ";
        }
        Ok(())
    }
}

// Returns the number of units before the zeros at the end.
fn used_units(units: &[u16; 36]) -> usize {
    match units.iter().rposition(|unit| *unit != 0) {
        Some(last) => last.saturating_add(1),
        None => 0,
    }
}
