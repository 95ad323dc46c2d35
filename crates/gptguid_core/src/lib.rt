//! Converts GUIDs between text, digits and the names of partition types.
//!
//! A GUID is its 16 bytes as in a partition table on a disk. `run` works with any source of random bytes and any
//! writer; the program `gptguid` calls it with those of the system and standard output.
#![tactic(auto)]

ghost use Rattle.std.specs.Prelude.{◌≡◌, ◌≢◌, [], ◌∷◌, codes, IfOk, OnOk};
ghost use Rattle.std.specs.Io.KnownBytes.{Appends};
ghost use Rattle.gptguid_core.specs.Lines.{answer_to, texts_of, PrintsRandom};

use std::io;
use std::io::Write;

mod forms;
mod lines;
mod names;
mod nearest;
mod others;
mod source;

pub use forms::{digits_of, from_digits, from_random, from_text, text_of};
pub use names::{from_any_name, from_name, guid_of_number, name_of, types};
pub use nearest::nearest_name;
pub use others::other_types;
pub use source::{ByteSource, SystemSource};

/// The usage line, with its newline.
pub const USAGE: &str = "usage: gptguid TEXT | DIGITS | NAME | random | list\n";

/// The exit status of success.
const DONE: u8 = 0;

/// The exit status if the word is not a GUID, or there are no random bytes.
const FAULT: u8 = 1;

/// The exit status if there is not exactly one word.
const NO_WORD: u8 = 2;

/// Prints the result for the one word to `out`, and returns the exit status: 0 for success, 1 for a fault, 2 if there
/// is not exactly one word.
///
/// - A text, as `C12A7328-F81F-11D2-BA4B-00A0C93EC93B`, in any case, is printed as its 32 digits: the bytes as on a
///   disk.
/// - 32 such digits, in any case, are printed as the text.
/// - `random` prints the digits of a random GUID of version 4, made from the next 16 bytes of the source. No other
///   word reads the source.
/// - `list` prints a line for each named type: `NAME DIGITS TEXT`.
/// - The name of a type is printed as its digits.
///
/// Any other word prints `fault: InvalidGUID`. If the source fails, `random` prints `fault: Io`. No word, or more
/// than one, prints the usage line.
///
/// Fails only if `out` fails.
pub fn run<S: ByteSource, W: Write>(words: &[String], source: &mut S, out: &mut W) -> io::Result<u8>
    ensures status { texts_of words.now ≢ codes "random" ∷ []
        → IfOk result (λ status. status ≡ (answer_to (texts_of words.now)).0) }
    ensures printed { texts_of words.now ≢ codes "random" ∷ []
        → OnOk result (Appends (W.contents out.old) (W.contents out.new) (answer_to (texts_of words.now)).1) }
    ensures random { texts_of words.now ≡ codes "random" ∷ []
        → PrintsRandom (S.gives source.old source.new) (S.fails source.old source.new 16)
        (W.contents out.old) (W.contents out.new) result }
    ensures untouched { texts_of words.now ≢ codes "random" ∷ [] → source.new ≡ source.old }
{
    let [word] = words else {
        out.write_all(USAGE.as_bytes())?;
        return Ok(NO_WORD);
    };
    match word.as_str() {
        "random" => lines::print_random(source, out),
        "list" => {
            lines::print_types(out)?;
            Ok(DONE)
        }
        word => lines::print_word(out, word),
    }
}
