//! The lines of the output.

ghost use Rattle.std.specs.Prelude.{◌≡◌, map, IfOk, OnOk};
ghost use Rattle.std.specs.Io.KnownBytes.{Appends};
ghost use Rattle.gptguid_core.specs.Forms.{guid_of_digits};
ghost use Rattle.gptguid_core.specs.Lines.{digits_line, guid_of_word, text_line, type_line, type_lines};
ghost use Rattle.gptguid_core.specs.Lines.{word_answer, PrintsRandom};
ghost use Rattle.gptguid_core.specs.Types.{types as types_by_name};

use crate::forms::{digits_of, from_digits, from_random, from_text, text_of};
use crate::names::{from_name, guid_of_number, types};
use crate::source::ByteSource;
use crate::{DONE, FAULT};
use std::io;
use std::io::Write;

/// Prints a line for each named type.
pub fn print_types<W: Write>(out: &mut W) -> io::Result<()>
    ensures { OnOk result (Appends (W.contents out.old) (W.contents out.new) (type_lines types_by_name)) }
{
    print_each(out, types())
}

fn print_each<W: Write>(out: &mut W, types: &[(&str, u128)]) -> io::Result<()>
    ensures { OnOk result (Appends (W.contents out.old) (W.contents out.new)
        (type_lines (map (λ t. (t.0.now, t.1)) types.now))) }
{
    for (name, number) in types {
        print_type(out, name, *number)?;
    }
    Ok(())
}

fn print_type<W: Write>(out: &mut W, name: &str, number: u128) -> io::Result<()>
    ensures { OnOk result (Appends (W.contents out.old) (W.contents out.new) (type_line (name.now, number))) }
{
    let guid = guid_of_number(number);
    let mut digits = [0; 32];
    out.write_all(name.as_bytes())?;
    out.write_all(b" ")?;
    out.write_all(digits_of(&guid, &mut digits).as_bytes())?;
    out.write_all(b" ")?;
    print_text(out, &guid)
}

/// Prints the digits of a random GUID made from the next 16 bytes of the source, or a fault line if the source fails.
/// Returns the exit status.
pub fn print_random<S: ByteSource, W: Write>(source: &mut S, out: &mut W) -> io::Result<u8>
    ensures { PrintsRandom (S.gives source.old source.new) (S.fails source.old source.new 16)
        (W.contents out.old) (W.contents out.new) result }
{
    let mut drawn = [0; 16];
    if source.fill_bytes(&mut drawn).is_err() {
        out.write_all(b"fault: Io\n")?;
        return Ok(FAULT);
    }
    print_digits(out, &from_random(drawn))?;
    Ok(DONE)
}

/// Prints digits as text, and a text or a name as digits. Returns the exit status.
pub fn print_word<W: Write>(out: &mut W, word: &str) -> io::Result<u8>
    ensures status { IfOk result (λ status. status ≡ (word_answer word.now (guid_of_digits word.now)).0) }
    ensures printed { OnOk result (Appends (W.contents out.old) (W.contents out.new)
        (word_answer word.now (guid_of_digits word.now)).1) }
{
    if let Some(guid) = from_digits(word) {
        print_text(out, &guid)?;
        return Ok(DONE);
    }
    let Some(guid) = find_guid(word) else {
        out.write_all(b"fault: InvalidGUID\n")?;
        return Ok(FAULT);
    };
    print_digits(out, &guid)?;
    Ok(DONE)
}

// Returns the GUID of a text or of a name.
fn find_guid(word: &str) -> Option<[u8; 16]>
    ensures { result ≡ guid_of_word word.now }
{
    match from_text(word) {
        Some(guid) => Some(guid),
        None => from_name(word),
    }
}

fn print_text<W: Write>(out: &mut W, guid: &[u8; 16]) -> io::Result<()>
    ensures { OnOk result (Appends (W.contents out.old) (W.contents out.new) (text_line guid.now)) }
{
    let mut text = [0; 36];
    out.write_all(text_of(guid, &mut text).as_bytes())?;
    out.write_all(b"\n")
}

fn print_digits<W: Write>(out: &mut W, guid: &[u8; 16]) -> io::Result<()>
    ensures { OnOk result (Appends (W.contents out.old) (W.contents out.new) (digits_line guid.now)) }
{
    let mut digits = [0; 32];
    out.write_all(digits_of(guid, &mut digits).as_bytes())?;
    out.write_all(b"\n")
}
