//! Parses single words: numbers, sizes, GUIDs and kinds.

ghost use Rattle.std.specs.Prelude.{◌≡◌, ◌<◌, IfSome};
ghost use Rattle.std.specs.Char.{is_ascii_digit};
ghost use Rattle.std.specs.List.{list_all};
ghost use Rattle.gptimg_core.specs.Words.{choice_in, entry_number_in, guid_in, kind_in, number_in};
ghost use Rattle.gptimg_core.specs.Words.{sector_size_in, size_in, type_in};

use crate::words::Choice;
use hex::FromHex;

/// Parses a number above 0, or the word `auto` as no number.
pub fn parse_sector_size(text: &str) -> Option<Option<u64>>
    ensures sized { IfSome result (λ size. IfSome size (λ n. 0 < n)) }
    ensures value { result ≡ sector_size_in text.now }
{
    if text == "auto" {
        return Some(None);
    }
    let size = parse_size(text)?;
    Some(Some(size))
}

/// Parses a number above 0.
pub fn parse_size(text: &str) -> Option<u64>
    ensures sized { IfSome result (λ size. 0 < size) }
    ensures value { result ≡ size_in text.now }
{
    let size = parse_number(text)?;
    if size == 0 { None } else { Some(size) }
}

/// Parses the number of an entry, which fits in 32 bits.
pub fn parse_entry_number(text: &str) -> Option<u32>
    ensures { result ≡ entry_number_in text.now }
{
    u32::try_from(parse_number(text)?).ok()
}

// Parses one or more decimal digits whose value fits in 64 bits.
fn parse_number(text: &str) -> Option<u64>
    ensures { result ≡ number_in text.now }
{
    if !has_only_digits(text) {
        return None;
    }
    text.parse().ok()
}

// Reports whether each character is a decimal digit: `parse` would accept a sign too.
fn has_only_digits(text: &str) -> bool
    ensures { result ≡ list_all is_ascii_digit text.now }
{
    text.as_bytes().iter().all(|byte| byte.is_ascii_digit())
}

/// Parses 32 hexadecimal digits, in either case, as the 16 bytes on the disk.
pub fn parse_guid(text: &str) -> Option<[u8; 16]>
    ensures { result ≡ guid_in text.now }
{
    <[u8; 16]>::from_hex(text).ok()
}

/// Parses the GUID of a type, which is not all zeros.
pub fn parse_type(text: &str) -> Option<[u8; 16]>
    ensures { result ≡ type_in text.now }
{
    let guid = parse_guid(text)?;
    if guid == [0; 16] { None } else { Some(guid) }
}

/// Parses `first`, `last` or `best`.
pub fn parse_choice(text: &str) -> Option<Choice>
    ensures { result ≡ choice_in text.now }
{
    match text {
        "first" => Some(Choice::First),
        "last" => Some(Choice::Last),
        "best" => Some(Choice::Best),
        _ => None,
    }
}

/// Parses the kind of an MBR: true for `bootable`, false for `plain`.
pub fn parse_kind(text: &str) -> Option<bool>
    ensures { result ≡ kind_in text.now }
{
    match text {
        "plain" => Some(false),
        "bootable" => Some(true),
        _ => None,
    }
}
