//! Types, GUIDs and choices of places.

ghost use Rattle.std.specs.Prelude.{◌≡◌};
ghost use Rattle.gptedit_values.specs.Words.{choice_said, guid_said, type_said};

use crate::wrong::Wrong;
use gptedit_core::Choice;

/// Reads the type of a partition, from its name, from a word of another program for it, or from the text of its GUID,
/// in any case. Returns the 16 bytes as on a disk.
pub fn read_type(text: &str) -> Result<[u8; 16], Wrong>
    ensures { result ≡ type_said text.now }
{
    if let Some(guid) = gptguid_core::from_any_name(text) {
        return Ok(guid);
    }
    gptguid_core::from_text(text).ok_or(Wrong::NoType)
}

/// Reads the text of a GUID, in any case. Returns the 16 bytes as on a disk.
pub fn read_guid(text: &str) -> Result<[u8; 16], Wrong>
    ensures { result ≡ guid_said text.now }
{
    gptguid_core::from_text(text).ok_or(Wrong::NoGuid)
}

/// Reads the choice of a place: `first`, `last` or `best`.
pub fn read_choice(text: &str) -> Result<Choice, Wrong>
    ensures { result ≡ choice_said text.now }
{
    match text {
        "first" => Ok(Choice::First),
        "last" => Ok(Choice::Last),
        "best" => Ok(Choice::Best),
        _ => Err(Wrong::NoChoice),
    }
}
