//! The arguments of `add`, `set`, `resize` and `remove`.

ghost use Rattle.std.specs.Prelude.{◌≡◌, ◌∷◌, [], codes, false, true, IfOk, None};
ghost use Rattle.clap.specs.Words.{found_of};
ghost use Rattle.gptedit_core.specs.declared.asked.Choice.TheVariants.{First};
ghost use Rattle.gptedit_core.specs.declared.asked.Mode.TheVariants.{Add as Adding};
ghost use Rattle.gptedit_words.specs.Asks.{gives_value, AsksAddition, AsksFields, AsksPlace, AsksSetting, GivesField, GivesNoField, IsAddition};
ghost use Rattle.gptedit_words.specs.Asks.{gives_partition};
ghost use Rattle.gptedit_words.specs.Asks.{texts_of_place, IsOwnGuidOf, IsRemoval, IsResize, IsSetting, KeepsPlace};
ghost use Rattle.gptedit_words.specs.Refusals.{CanAdd, CanAddOne, CanPlace, CanRemove, CanResize, CanSet, HasFields, RefusedOnlyFor};
ghost use Rattle.gptedit_words.specs.Refusals.{HasOwnGuid, HasSetFields};

use crate::error::{WordsError, refuse_both};
use crate::request::Change;
use crate::unused::refuse_unused;
use crate::values::{
    amount, attribute_change, attributes, choice, guid, kind, length, name, needed, new_guid,
    new_length, number_if_given, one_extent, position, target, targets,
};
use clap::ArgMatches;
use gptedit_core::{
    Amount, Asked, Choice, DEFAULT_ALIGN, Extent, Mode, NewGuid, Position, RequestedLayout, Setting,
};
use std::alloc::{AllocError, Global};

/// Reads the arguments of `add`.
pub(crate) fn read_add<'a>(
    alloc: Global,
    words: &ArgMatches<'a>,
) -> Result<Change<'a>, WordsError<'a>>
    ensures said { IfOk result (IsAddition (found_of words.now)) }
    ensures refused { RefusedOnlyFor (found_of words.now) (¬ (CanAdd (found_of words.now))) result }
{
    if let Some(file) = words.get_str("--script") {
        refuse_both(
            gives_partition(words),
            "--script",
            "an option for one partition",
        )?;
        return Ok(Change::AddScript { file });
    }
    let asked = read_new_entry(alloc, words)?;
    let align = amount(words, "--align")?.unwrap_or(DEFAULT_ALIGN);
    let (start, extent) = read_place(words)?;
    refuse_unused(words, start, extent)?;
    Ok(Change::Add {
        layout: addition(alloc, align, asked)?,
        start,
        extent,
    })
}

// Reads the start, if it is given, and the size or the end of a new partition. An end needs a start.
#[tactic(auto, using(crate::proofs::Extents::extent_said, crate::proofs::Extents::given_both, crate::proofs::Extents::not_one))]
fn read_place<'a>(words: &ArgMatches<'a>) -> Result<(Option<Position>, Extent), WordsError<'a>>
    ensures said { IfOk result (λ place. AsksPlace (found_of words.now) place.0 place.1) }
    ensures refused { RefusedOnlyFor (found_of words.now) (¬ (CanPlace (found_of words.now))) result }
{
    let start = position(words, "--start")?;
    let end = position(words, "--end")?;
    let extent = one_extent(length(words, "--size")?, end, "--size")?;
    if end.is_some() && start.is_none() {
        return Err(WordsError::Missing("--start"));
    }
    Ok((start, extent))
}

// Reports whether an option for one partition is given.
#[tactic(auto, unfolding(crate::specs::Asks::gives_partition))]
fn gives_partition(words: &ArgMatches<'_>) -> bool
    ensures { result ≡ gives_partition (found_of words.now) }
{
    gives_value(words)
        || words.contains_id("--size")
        || words.contains_id("--start")
        || words.contains_id("--end")
        || words.contains_id("--place")
        || words.contains_id("--align")
}

fn read_new_entry<'a>(alloc: Global, words: &ArgMatches<'a>) -> Result<Asked, WordsError<'a>>
    ensures said { IfOk result (AsksAddition (found_of words.now)) }
    ensures refused { RefusedOnlyFor (found_of words.now) (¬ (CanAddOne (found_of words.now))) result }
{
    needed(words, "--type")?;
    Ok(Asked {
        number: number_if_given(words, "--number")?,
        choice: choice(words, "--place")?.unwrap_or(Choice::First),
        ..read_fields(alloc, words)?
    })
}

/// Reads the arguments of `set`.
pub(crate) fn read_set<'a>(
    alloc: Global,
    words: &ArgMatches<'a>,
) -> Result<Change<'a>, WordsError<'a>>
    ensures said { IfOk result (IsSetting (found_of words.now)) }
    ensures refused { RefusedOnlyFor (found_of words.now) (¬ (CanSet (found_of words.now))) result }
{
    if let Some(guid) = new_guid(words, "--disk-guid")? {
        refuse_both(words.get_str("N").is_some(), "--disk-guid", "[N]")?;
        refuse_both(gives_field(words), "--disk-guid", "a field of a partition")?;
        return Ok(Change::SetDisk(guid));
    }
    let target = target(words, "N")?;
    if !gives_field(words) {
        return Err(WordsError::NothingToSet);
    }
    Ok(Change::Set {
        target,
        setting: read_setting(alloc, words)?,
    })
}

// Reads the fields of a partition that `set` changes.
fn read_setting<'a>(alloc: Global, words: &ArgMatches<'a>) -> Result<Setting, WordsError<'a>>
    ensures said { IfOk result (AsksSetting (found_of words.now)) }
    ensures refused { RefusedOnlyFor (found_of words.now) (¬ (HasSetFields (found_of words.now))) result }
{
    let number = number_if_given(words, "--number")?;
    Ok(Setting {
        type_guid: kind(words, "--type")?,
        guid: read_own_guid(words)?,
        attributes: attribute_change(words, "--attributes")?,
        name: name(alloc, words)?,
        number,
    })
}

// Reads the new GUID of a partition.
fn read_own_guid<'a>(words: &ArgMatches<'a>) -> Result<Option<NewGuid>, WordsError<'a>>
    ensures said { IfOk result (IsOwnGuidOf (found_of words.now)) }
    ensures refused { RefusedOnlyFor (found_of words.now) (¬ (HasOwnGuid (found_of words.now))) result }
{
    let is_random = words.get_flag("--random-guid");
    match guid(words, "--guid")? {
        Some(_) if is_random => Err(WordsError::Conflict {
            one: "--guid",
            other: "--random-guid",
        }),
        Some(guid) => Ok(Some(NewGuid::Given(guid))),
        None if is_random => Ok(Some(NewGuid::Random)),
        None => Ok(None),
    }
}

// Reports whether a field of the entry is given.
#[tactic(auto, unfolding(crate::specs::Asks::gives_value))]
fn gives_field(words: &ArgMatches<'_>) -> bool
    ensures given { result ≡ true → GivesField (found_of words.now) }
    ensures lacks { result ≡ false → GivesNoField (found_of words.now) }
{
    gives_value(words) || words.get_flag("--random-guid")
}

#[tactic(auto, unfolding(crate::specs::Asks::gives_value))]
fn gives_value(words: &ArgMatches<'_>) -> bool
    ensures { result ≡ gives_value (found_of words.now) }
{
    words.contains_id("--name")
        || words.contains_id("--type")
        || words.contains_id("--guid")
        || words.contains_id("--attributes")
        || words.contains_id("--number")
}

/// Reads the arguments of `resize`.
#[tactic(auto, using(crate::proofs::Extents::extent_said, crate::proofs::Extents::given_both, crate::proofs::Extents::not_one))]
pub(crate) fn read_resize<'a>(words: &ArgMatches<'a>) -> Result<Change<'a>, WordsError<'a>>
    ensures said { IfOk result (IsResize (found_of words.now)) }
    ensures refused { RefusedOnlyFor (found_of words.now) (¬ (CanResize (found_of words.now))) result }
{
    let target = target(words, "N")?;
    let size = new_length(words, "SIZE|max")?;
    let end = position(words, "--end")?;
    Ok(Change::Resize {
        target,
        extent: one_extent(size, end, "SIZE|max")?,
    })
}

/// Reads the arguments of `remove`.
pub(crate) fn read_remove<'a>(
    alloc: Global,
    words: &ArgMatches<'a>,
) -> Result<Change<'a>, WordsError<'a>>
    ensures said { IfOk result (IsRemoval (found_of words.now)) }
    ensures refused { RefusedOnlyFor (found_of words.now) (¬ (CanRemove (texts_of_place (found_of words.now) (codes "N")))) result }
{
    Ok(Change::Remove(targets(alloc, words, "N")?))
}

// Returns the layout that adds one entry.
fn addition(alloc: Global, align: Amount, asked: Asked) -> Result<RequestedLayout, AllocError>
    ensures mode { IfOk result (λ layout. layout.mode ≡ Adding) }
    ensures guid { IfOk result (λ layout. layout.disk_guid ≡ None) }
    ensures align { IfOk result (λ layout. layout.align ≡ align) }
    ensures removed { IfOk result (λ layout. layout.removed.items ≡ []) }
    ensures asked { IfOk result (λ layout. layout.asked.items ≡ asked ∷ []) }
{
    Ok(RequestedLayout {
        mode: Mode::Add,
        disk_guid: None,
        align,
        removed: Vec::new(alloc),
        asked: vec![in alloc; asked]?,
    })
}

// Reads the options for the fields of an entry.
fn read_fields<'a>(alloc: Global, words: &ArgMatches<'a>) -> Result<Asked, WordsError<'a>>
    ensures fields { IfOk result (AsksFields (found_of words.now)) }
    ensures place { IfOk result KeepsPlace }
    ensures number { IfOk result (λ asked. asked.number ≡ None) }
    ensures refused { RefusedOnlyFor (found_of words.now) (¬ (HasFields (found_of words.now))) result }
{
    Ok(Asked {
        type_guid: kind(words, "--type")?,
        unique_guid: guid(words, "--guid")?,
        attributes: attributes(words, "--attributes")?,
        name: name(alloc, words)?,
        ..Asked::nothing(None)
    })
}
