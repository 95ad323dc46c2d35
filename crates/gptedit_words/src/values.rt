//! Reads the values of arguments.

ghost use Rattle.std.specs.Prelude.{◌≡◌, ◌↔◌, codes, is_some, IfErr, IfOk, IsTrue, None, Some};
ghost use Rattle.clap.specs.Words.{first_value, found_of, one_text};
ghost use Rattle.gptedit_values.specs.Fields.{SaysField, SaysNoField};
ghost use Rattle.gptedit_values.specs.Measures.{SaysLength, SaysNewLength, SaysNoLength, SaysNoNewLength, SaysNoPosition, SaysPosition};
ghost use Rattle.gptedit_values.specs.Steps.{SaysChange, SaysNoChange};
ghost use Rattle.gptedit_values.specs.Words.{SaysAmount, SaysAttributes, SaysNoAttributes, SaysNoTarget, SaysTarget};
ghost use Rattle.gptedit_words.specs.Asks.{Gives, IsExtent, SaysChoice, SaysGuid, SaysLock, SaysName};
ghost use Rattle.gptedit_words.specs.Asks.{HasTargets, IsSectorOf, IsSectorSize, IsTargetOf, SaysType, texts_of_place};
ghost use Rattle.gptedit_words.specs.Asks.{IsMissingOrWrong, IsNoSectorOf, IsWrong, MayHaveNumberOf};
ghost use Rattle.gptedit_words.specs.Asks.{SaysNewGuid, SaysNoNewGuid};
ghost use Rattle.gptedit_words.specs.Asks.{SaysNoAmount, SaysNoChoice, SaysNoGuid, SaysNoLock};
ghost use Rattle.gptedit_words.specs.Asks.{SaysNoNumber, SaysNoType};
ghost use Rattle.gptedit_words.specs.Refusals.{CanRemove, RefusedOnlyFor};

use crate::error::WordsError;
use crate::request::Lock;
use clap::ArgMatches;
use gptedit_core::{Amount, AttributeChange, Choice, Extent, NewGuid, Position, Target};
use gptedit_values::{
    Field, Wrong, is_long_name, read_amount, read_attribute_change, read_attributes, read_choice,
    read_field, read_guid, read_length, read_new_length, read_position, read_target, read_type,
};
use gptman::PartitionName;
use std::alloc::Global;

/// Reads the text of a required argument.
pub(crate) fn needed<'a>(
    words: &ArgMatches<'a>,
    word: &'static str,
) -> Result<&'a str, WordsError<'a>>
    ensures said { IfOk result (λ text. first_value (found_of words.now) word.now ≡ Some text.now) }
    ensures refused { IfErr result (λ error. first_value (found_of words.now) word.now ≡ None) }
{
    match words.get_str(word) {
        Some(text) => Ok(text),
        None => Err(WordsError::Missing(word)),
    }
}

/// Reads an amount, if the argument is given.
pub(crate) fn amount<'a>(
    words: &ArgMatches<'a>,
    word: &'static str,
) -> Result<Option<Amount>, WordsError<'a>>
    ensures said { IfOk result (Gives SaysAmount (first_value (found_of words.now) word.now)) }
    ensures refused { IfErr result (λ error. IsWrong SaysNoAmount (first_value (found_of words.now) word.now)) }
{
    let Some(text) = words.get_str(word) else {
        return Ok(None);
    };
    match read_amount(text) {
        Ok(value) => Ok(Some(value)),
        Err(wrong) => Err(WordsError::Value { word, text, wrong }),
    }
}

/// Reads a position, if the argument is given.
pub(crate) fn position<'a>(
    words: &ArgMatches<'a>,
    word: &'static str,
) -> Result<Option<Position>, WordsError<'a>>
    ensures said { IfOk result (Gives SaysPosition (first_value (found_of words.now) word.now)) }
    ensures refused { IfErr result (λ error. IsWrong SaysNoPosition (first_value (found_of words.now) word.now)) }
{
    let Some(text) = words.get_str(word) else {
        return Ok(None);
    };
    match read_position(text) {
        Ok(value) => Ok(Some(value)),
        Err(wrong) => Err(WordsError::Value { word, text, wrong }),
    }
}

/// Reads the size of a new partition, if the argument is given.
pub(crate) fn length<'a>(
    words: &ArgMatches<'a>,
    word: &'static str,
) -> Result<Option<Extent>, WordsError<'a>>
    ensures said { IfOk result (Gives SaysLength (first_value (found_of words.now) word.now)) }
    ensures refused { IfErr result (λ error. IsWrong SaysNoLength (first_value (found_of words.now) word.now)) }
{
    let Some(text) = words.get_str(word) else {
        return Ok(None);
    };
    match read_length(text) {
        Ok(value) => Ok(Some(value)),
        Err(wrong) => Err(WordsError::Value { word, text, wrong }),
    }
}

/// Reads the new size of a partition, if the argument is given.
pub(crate) fn new_length<'a>(
    words: &ArgMatches<'a>,
    word: &'static str,
) -> Result<Option<Extent>, WordsError<'a>>
    ensures said { IfOk result (Gives SaysNewLength (first_value (found_of words.now) word.now)) }
    ensures refused { IfErr result (λ error. IsWrong SaysNoNewLength (first_value (found_of words.now) word.now)) }
{
    let Some(text) = words.get_str(word) else {
        return Ok(None);
    };
    match read_new_length(text) {
        Ok(value) => Ok(Some(value)),
        Err(wrong) => Err(WordsError::Value { word, text, wrong }),
    }
}

/// Returns the given size or end. Exactly one must be given. `word` is the argument of the size.
pub(crate) fn one_extent<'a>(
    size: Option<Extent>,
    end: Option<Position>,
    word: &'static str,
) -> Result<Extent, WordsError<'a>>
    ensures said { IfOk result (IsExtent size end) }
    ensures refused { IfErr result (λ error. is_some size ≡ is_some end) }
{
    match (size, end) {
        (Some(extent), None) => Ok(extent),
        (None, Some(position)) => Ok(Extent::End(position)),
        (Some(_), Some(_)) => Err(WordsError::Conflict {
            one: word,
            other: "--end",
        }),
        (None, None) => Err(WordsError::Missing(word)),
    }
}

/// Reads the choice of a place, if the argument is given.
pub(crate) fn choice<'a>(
    words: &ArgMatches<'a>,
    word: &'static str,
) -> Result<Option<Choice>, WordsError<'a>>
    ensures said { IfOk result (Gives SaysChoice (first_value (found_of words.now) word.now)) }
    ensures refused { IfErr result (λ error. IsWrong SaysNoChoice (first_value (found_of words.now) word.now)) }
{
    let Some(text) = words.get_str(word) else {
        return Ok(None);
    };
    match read_choice(text) {
        Ok(value) => Ok(Some(value)),
        Err(wrong) => Err(WordsError::Value { word, text, wrong }),
    }
}

/// Reads a GUID, if the argument is given.
pub(crate) fn guid<'a>(
    words: &ArgMatches<'a>,
    word: &'static str,
) -> Result<Option<[u8; 16]>, WordsError<'a>>
    ensures said { IfOk result (Gives SaysGuid (first_value (found_of words.now) word.now)) }
    ensures refused { IfErr result (λ error. IsWrong SaysNoGuid (first_value (found_of words.now) word.now)) }
{
    let Some(text) = words.get_str(word) else {
        return Ok(None);
    };
    match read_guid(text) {
        Ok(value) => Ok(Some(value)),
        Err(wrong) => Err(WordsError::Value { word, text, wrong }),
    }
}

/// Reads a partition type, if the argument is given.
pub(crate) fn kind<'a>(
    words: &ArgMatches<'a>,
    word: &'static str,
) -> Result<Option<[u8; 16]>, WordsError<'a>>
    ensures said { IfOk result (Gives SaysType (first_value (found_of words.now) word.now)) }
    ensures refused { IfErr result (λ error. IsWrong SaysNoType (first_value (found_of words.now) word.now)) }
{
    let Some(text) = words.get_str(word) else {
        return Ok(None);
    };
    match read_type(text) {
        Ok(value) => Ok(Some(value)),
        Err(wrong) => Err(WordsError::Value { word, text, wrong }),
    }
}

/// Reads attributes, if the argument is given.
pub(crate) fn attributes<'a>(
    words: &ArgMatches<'a>,
    word: &'static str,
) -> Result<Option<u64>, WordsError<'a>>
    ensures said { IfOk result (Gives SaysAttributes (first_value (found_of words.now) word.now)) }
    ensures refused { IfErr result (λ error. IsWrong SaysNoAttributes (first_value (found_of words.now) word.now)) }
{
    let Some(text) = words.get_str(word) else {
        return Ok(None);
    };
    match read_attributes(text) {
        Ok(value) => Ok(Some(value)),
        Err(wrong) => Err(WordsError::Value { word, text, wrong }),
    }
}

/// Reads a change of attributes, if the argument is given.
pub(crate) fn attribute_change<'a>(
    words: &ArgMatches<'a>,
    word: &'static str,
) -> Result<Option<AttributeChange>, WordsError<'a>>
    ensures said { IfOk result (Gives SaysChange (first_value (found_of words.now) word.now)) }
    ensures refused { IfErr result (λ error. IsWrong SaysNoChange (first_value (found_of words.now) word.now)) }
{
    let Some(text) = words.get_str(word) else {
        return Ok(None);
    };
    match read_attribute_change(text) {
        Ok(value) => Ok(Some(value)),
        Err(wrong) => Err(WordsError::Value { word, text, wrong }),
    }
}

/// Reads a new GUID, if the argument is given.
pub(crate) fn new_guid<'a>(
    words: &ArgMatches<'a>,
    word: &'static str,
) -> Result<Option<NewGuid>, WordsError<'a>>
    ensures said { IfOk result (Gives SaysNewGuid (first_value (found_of words.now) word.now)) }
    ensures refused { IfErr result (λ error. IsWrong SaysNoNewGuid (first_value (found_of words.now) word.now)) }
{
    let Some(text) = words.get_str(word) else {
        return Ok(None);
    };
    match read_new_guid(text) {
        Ok(value) => Ok(Some(value)),
        Err(wrong) => Err(WordsError::Value { word, text, wrong }),
    }
}

// Parses a new GUID: a GUID, or `random`.
fn read_new_guid(text: &str) -> Result<NewGuid, Wrong>
    ensures said { IfOk result (SaysNewGuid text.now) }
    ensures refused { IfErr result (λ wrong. SaysNoNewGuid text.now) }
{
    match text {
        "random" => Ok(NewGuid::Random),
        _ => match read_guid(text) {
            Ok(guid) => Ok(NewGuid::Given(guid)),
            Err(wrong) => Err(wrong),
        },
    }
}

/// Reads what to do if the image is locked, if the argument is given.
pub(crate) fn lock<'a>(
    words: &ArgMatches<'a>,
    word: &'static str,
) -> Result<Option<Lock>, WordsError<'a>>
    ensures said { IfOk result (Gives SaysLock (first_value (found_of words.now) word.now)) }
    ensures refused { IfErr result (λ error. IsWrong SaysNoLock (first_value (found_of words.now) word.now)) }
{
    let Some(text) = words.get_str(word) else {
        return Ok(None);
    };
    match read_lock(text) {
        Ok(value) => Ok(Some(value)),
        Err(wrong) => Err(WordsError::Value { word, text, wrong }),
    }
}

fn read_lock(text: &str) -> Result<Lock, Wrong>
    ensures said { IfOk result (SaysLock text.now) }
    ensures refused { IfErr result (λ wrong. SaysNoLock text.now) }
{
    match text {
        "wait" => Ok(Lock::Wait),
        "fail" => Ok(Lock::Fail),
        "none" => Ok(Lock::None),
        _ => Err(Wrong::NoLock),
    }
}

/// Reads a number, if the argument is given.
pub(crate) fn number_if_given<'a>(
    words: &ArgMatches<'a>,
    word: &'static str,
) -> Result<Option<u32>, WordsError<'a>>
    ensures said { IfOk result (MayHaveNumberOf (found_of words.now) word.now) }
    ensures refused { IfErr result (λ error. IsWrong SaysNoNumber (one_text (found_of words.now) word.now)) }
{
    if words.get_str(word).is_none() {
        return Ok(None);
    }
    match words.get_one::<u32>(word) {
        Some(number) => Ok(Some(number)),
        None => Err(WordsError::Missing(word)),
    }
}

/// Reads the partition of a required argument.
pub(crate) fn target<'a>(
    words: &ArgMatches<'a>,
    word: &'static str,
) -> Result<Target<'a>, WordsError<'a>>
    ensures said { IfOk result (IsTargetOf (found_of words.now) word.now) }
    ensures refused { IfErr result (λ error. IsMissingOrWrong SaysNoTarget (first_value (found_of words.now) word.now)) }
{
    match target_if_given(words, word)? {
        Some(target) => Ok(target),
        None => Err(WordsError::Missing(word)),
    }
}

/// Reads a partition, if the argument is given.
pub(crate) fn target_if_given<'a>(
    words: &ArgMatches<'a>,
    word: &'static str,
) -> Result<Option<Target<'a>>, WordsError<'a>>
    ensures said { IfOk result (Gives SaysTarget (first_value (found_of words.now) word.now)) }
    ensures refused { IfErr result (λ error. IsWrong SaysNoTarget (first_value (found_of words.now) word.now)) }
{
    let Some(text) = words.get_str(word) else {
        return Ok(None);
    };
    match read_target(text) {
        Ok(value) => Ok(Some(value)),
        Err(wrong) => Err(WordsError::Value { word, text, wrong }),
    }
}

/// Reads the partitions of a required argument.
pub(crate) fn targets<'a>(
    alloc: Global,
    words: &ArgMatches<'a>,
    word: &'static str,
) -> Result<Vec<Target<'a>>, WordsError<'a>>
    ensures said { IfOk result (λ targets. HasTargets (texts_of_place (found_of words.now) word.now) targets.items) }
    ensures refused { RefusedOnlyFor (found_of words.now) (¬ (CanRemove (texts_of_place (found_of words.now) word.now))) result }
{
    let Some(texts) = words.get_strs(word) else {
        return Err(WordsError::Missing(word));
    };
    let mut targets = Vec::new(alloc);
    for text in texts {
        match read_target(*text) {
            Ok(target) => targets.push(target)?,
            Err(wrong) => {
                return Err(WordsError::Value {
                    word,
                    text: *text,
                    wrong,
                });
            }
        }
    }
    Ok(targets)
}

/// Reads the name of a field, if the argument is given.
pub(crate) fn field_if_given<'a>(
    words: &ArgMatches<'a>,
    word: &'static str,
) -> Result<Option<Field>, WordsError<'a>>
    ensures said { IfOk result (Gives SaysField (first_value (found_of words.now) word.now)) }
    ensures refused { IfErr result (λ error. IsWrong SaysNoField (first_value (found_of words.now) word.now)) }
{
    let Some(text) = words.get_str(word) else {
        return Ok(None);
    };
    match read_field(text) {
        Ok(value) => Ok(Some(value)),
        Err(wrong) => Err(WordsError::Value { word, text, wrong }),
    }
}

/// Reads the name of a partition, if it is given.
pub(crate) fn name<'a>(
    alloc: Global,
    words: &ArgMatches<'a>,
) -> Result<Option<PartitionName>, WordsError<'a>>
    ensures said { IfOk result (Gives SaysName (first_value (found_of words.now) (codes "--name"))) }
    ensures refused { RefusedOnlyFor (found_of words.now) (⊥) result }
{
    let Some(text) = words.get_str("--name") else {
        return Ok(None);
    };
    if is_long_name(text) {
        return Err(WordsError::LongName(text));
    }
    match PartitionName::new(alloc, text) {
        Ok(name) => Ok(Some(name)),
        Err(_) => Err(WordsError::OutOfMemory),
    }
}

/// Reads the sector size in bytes, if one is given.
pub(crate) fn sector_size<'a>(words: &ArgMatches<'a>) -> Result<Option<u64>, WordsError<'a>>
    ensures said { IfOk result (IsSectorOf (found_of words.now)) }
    ensures refused { IfErr result (λ error. IsNoSectorOf (found_of words.now)) }
{
    match words.get_str("--sector") {
        None => Ok(None),
        Some("auto") => Ok(None),
        Some(text) => match words.get_one::<u64>("--sector") {
            Some(bytes) if is_sector_size(bytes) => Ok(Some(bytes)),
            _ => Err(WordsError::Sector(text)),
        },
    }
}

// Reports whether a disk with a table may have sectors of this size.
fn is_sector_size(bytes: u64) -> bool
    ensures { IsTrue result ↔ IsSectorSize bytes }
{
    bytes == 512 || bytes == 1024 || bytes == 2048 || bytes == 4096
}
