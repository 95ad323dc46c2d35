//! The forms of a GUID: its bytes on a disk, its text, its digits.

ghost use Rattle.std.specs.Prelude.{◌≡◌, ◌/◌, Some, IfSome, slice_index};
ghost use Rattle.std.specs.Str.{str_to_ascii_lowercase, str_to_ascii_uppercase};
ghost use Rattle.gptguid_core.specs.Forms.{digits_form, guid_of_digits, guid_of_text, random_form, text_form};

use uuid::{Builder, Uuid};

/// Reads a text such as `C12A7328-F81F-11D2-BA4B-00A0C93EC93B`, in any case. Returns the 16 bytes as on a disk, where
/// the bytes of each of the first three groups are reversed.
pub fn from_text(text: &str) -> Option<[u8; 16]>
    ensures value { result ≡ guid_of_text text.now }
    ensures back { IfSome result (λ guid. text_form guid ≡ str_to_ascii_uppercase text.now) }
{
    if text.len() != 36 {
        return None;
    }
    let guid = Uuid::parse_str(text).ok()?;
    Some(guid.to_bytes_le())
}

/// Writes the text of a GUID, in upper case, to the buffer, and returns it.
pub fn text_of<'b>(guid: &[u8; 16], buffer: &'b mut [u8; 36]) -> &'b str
    ensures value { result.now ≡ text_form guid.now }
    ensures back { guid_of_text result.now ≡ Some guid.now }
{
    Uuid::from_bytes_le(*guid).hyphenated().encode_upper(buffer)
}

/// Reads 32 hexadecimal digits, in any case: the bytes as on a disk.
pub fn from_digits(text: &str) -> Option<[u8; 16]>
    ensures value { result ≡ guid_of_digits text.now }
    ensures back { IfSome result (λ guid. digits_form guid ≡ str_to_ascii_lowercase text.now) }
{
    if text.len() != 32 {
        return None;
    }
    let guid = Uuid::parse_str(text).ok()?;
    Some(guid.into_bytes())
}

/// Writes the digits of a GUID, its bytes as on a disk, to the buffer in lower case, and returns them.
pub fn digits_of<'b>(guid: &[u8; 16], buffer: &'b mut [u8; 32]) -> &'b str
    ensures value { result.now ≡ digits_form guid.now }
    ensures back { guid_of_digits result.now ≡ Some guid.now }
{
    Uuid::from_bytes(*guid).simple().encode_lower(buffer)
}

/// Returns the GUID, as on a disk, that these random bytes make: version 4, variant of RFC 9562.
pub fn from_random(drawn: [u8; 16]) -> [u8; 16]
    ensures value { result ≡ random_form drawn }
    ensures version { slice_index result 7 / 16 ≡ 4 }
    ensures variant { slice_index result 8 / 64 ≡ 2 }
{
    Builder::from_random_bytes(drawn).into_uuid().to_bytes_le()
}
