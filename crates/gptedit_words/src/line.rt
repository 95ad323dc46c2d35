//! Parses the arguments of a command line.

ghost use Rattle.std.specs.Prelude.{◌≡◌, ◌≢◌, codes, false, true, IfErr, IfOk, None, OnOk};
ghost use Rattle.clap.specs.Words.{first_value, found_of};
ghost use Rattle.gptedit_values.specs.Fields.{SaysNoField};
ghost use Rattle.gptedit_words.specs.Asks.{AsksOptions, IsChange, IsCommand, IsCommandLine, IsView, IsViewOf};
ghost use Rattle.gptedit_words.specs.Asks.{IsWrong, SaysNoLock};
ghost use Rattle.gptedit_words.specs.Refusals.{CanAsk, CanChange, CanDump, CanMake, CanRun, CanShow, RefusedOnlyFor};
ghost use Rattle.gptedit_words.specs.Spelled.{texts_of, IsRefused, IsSpelled};

use crate::definition::command_for;
use crate::entries;
use crate::error::{WordsError, refuse_both};
use crate::request::{Change, Command, CommandLine, ImageRequest, Lock, NewTable, Options, View};
use crate::values::{
    amount, field_if_given, guid, lock, needed, number_if_given, sector_size, target_if_given,
};
use clap::ArgMatches;
use gptedit_core::Target;
use std::alloc::Global;

/// Parses these arguments. The first is the program's name.
///
/// # Errors
/// `Usage` if they do not fit the command line; `Missing`, `Value`, `Sector`, `LongName`, `NothingToSet` or `Conflict`
/// if the arguments of a command are wrong; `OutOfMemory` if an allocation fails.
pub fn read_words<'a>(alloc: Global, words: &'a [String]) -> Result<CommandLine<'a>, WordsError<'a>>
    ensures said { IfOk result (IsSpelled (texts_of words.entry.now)) }
    ensures refused { IfErr result (IsRefused (texts_of words.entry.now)) }
{
    let matches = command_for(alloc, words)?.try_get_matches_from(words)?;
    let Some((name, words)) = matches.subcommand() else {
        return Err(WordsError::Missing("COMMAND"));
    };
    read_request(alloc, name, words)
}

fn read_request<'a>(
    alloc: Global,
    name: &str,
    words: &ArgMatches<'a>,
) -> Result<CommandLine<'a>, WordsError<'a>>
    ensures said { IfOk result (IsCommandLine name.now (found_of words.now)) }
    ensures refused { RefusedOnlyFor (found_of words.now) ((name.now ≢ codes "types") × ¬ (CanAsk name.now (found_of words.now))) result }
{
    if name == "types" {
        return Ok(CommandLine::Types {
            is_json: words.get_flag("--json"),
        });
    }
    Ok(CommandLine::Image(ImageRequest {
        image: needed(words, "IMAGE")?,
        sector_size: sector_size(words)?,
        is_json: words.get_flag("--json"),
        command: read_command(alloc, name, words)?,
    }))
}

fn read_command<'a>(
    alloc: Global,
    name: &str,
    words: &ArgMatches<'a>,
) -> Result<Command<'a>, WordsError<'a>>
    ensures said { IfOk result (IsCommand name.now (found_of words.now)) }
    ensures refused { RefusedOnlyFor (found_of words.now) (¬ (CanRun name.now (found_of words.now))) result }
{
    match name {
        "show" => read_show(words),
        "check" => Ok(Command::Check),
        "free" => Ok(Command::Free {
            align: amount(words, "--align")?,
        }),
        "dump" => read_dump(words),
        "salvage" => Ok(Command::Salvage),
        _ => Ok(Command::Write {
            change: read_change(alloc, name, words)?,
            options: read_options(words)?,
        }),
    }
}

fn read_show<'a>(words: &ArgMatches<'a>) -> Result<Command<'a>, WordsError<'a>>
    ensures said { IfOk result (IsCommand (codes "show") (found_of words.now)) }
    ensures refused { RefusedOnlyFor (found_of words.now) (¬ (CanShow (found_of words.now))) result }
{
    Ok(Command::Show {
        view: read_view(words)?,
    })
}

fn read_view<'a>(words: &ArgMatches<'a>) -> Result<View<'a>, WordsError<'a>>
    ensures said { IfOk result (IsView (found_of words.now)) }
    ensures refused { RefusedOnlyFor (found_of words.now) (¬ (CanShow (found_of words.now))) result }
{
    let (has_map, is_short) = (words.get_flag("--map"), words.get_flag("--short"));
    let (is_json, has_number) = (words.get_flag("--json"), words.get_str("N").is_some());
    refuse_both(has_map && is_short, "--map", "--short")?;
    refuse_both(has_map && is_json, "--map", "--json")?;
    refuse_both(is_short && is_json, "--short", "--json")?;
    refuse_both(has_map && has_number, "--map", "[N]")?;
    refuse_both(is_short && has_number, "--short", "[N]")?;
    match target_if_given(words, "N")? {
        Some(target) => read_partition(words, target),
        None if has_map => Ok(View::Map),
        None if is_short => Ok(View::Short),
        None => Ok(View::Table),
    }
}

// Reads what is shown of a partition.
fn read_partition<'a>(
    words: &ArgMatches<'a>,
    target: Target<'a>,
) -> Result<View<'a>, WordsError<'a>>
    ensures said { IfOk result (IsViewOf (found_of words.now) target.entry) }
    ensures refused { RefusedOnlyFor (found_of words.now) (IsWrong SaysNoField (first_value (found_of words.now) (codes "FIELD"))) result }
{
    match field_if_given(words, "FIELD")? {
        Some(field) => Ok(View::Field(target, field)),
        None => Ok(View::Partition(target)),
    }
}

fn read_dump<'a>(words: &ArgMatches<'a>) -> Result<Command<'a>, WordsError<'a>>
    ensures said { IfOk result (IsCommand (codes "dump") (found_of words.now)) }
    ensures refused { RefusedOnlyFor (found_of words.now) (¬ (CanDump (found_of words.now))) result }
{
    let is_script = words.get_flag("--sfdisk");
    refuse_both(is_script && words.get_flag("--json"), "--sfdisk", "--json")?;
    Ok(Command::Dump { is_script })
}

fn read_options<'a>(words: &ArgMatches<'a>) -> Result<Options<'a>, WordsError<'a>>
    ensures said { IfOk result (AsksOptions (found_of words.now)) }
    ensures refused { RefusedOnlyFor (found_of words.now) (IsWrong SaysNoLock (first_value (found_of words.now) (codes "--lock"))) result }
{
    let is_forced = words.get_flag("--force");
    Ok(Options {
        is_fitted: words.get_flag("--fit"),
        is_dry: words.get_flag("--dry-run"),
        may_overwrite: words.get_flag("--overwrite") || is_forced,
        may_use: words.get_flag("--in-use") || is_forced,
        lock: lock(words, "--lock")?.unwrap_or(Lock::Wait),
        backup: words.get_str("--backup"),
    })
}

fn read_change<'a>(
    alloc: Global,
    name: &str,
    words: &ArgMatches<'a>,
) -> Result<Change<'a>, WordsError<'a>>
    ensures said { IfOk result (IsChange name.now (found_of words.now)) }
    ensures refused { RefusedOnlyFor (found_of words.now) (¬ (CanChange name.now (found_of words.now))) result }
{
    match name {
        "new" => read_new(words),
        "add" => entries::read_add(alloc, words),
        "set" => entries::read_set(alloc, words),
        "resize" => entries::read_resize(words),
        "remove" => entries::read_remove(alloc, words),
        "sort" => Ok(Change::Sort),
        "grow" => Ok(Change::Grow {
            target: target_if_given(words, "N")?,
            has_random_guids: words.get_flag("--random-guids"),
        }),
        "repair" => Ok(Change::Repair {
            has_usual_bounds: words.get_flag("--bounds"),
        }),
        "randomize" => Ok(Change::Randomize),
        "apply" => read_apply(words),
        "wipe" => Ok(Change::Wipe),
        _ => Err(WordsError::Missing("COMMAND")),
    }
}

fn read_new<'a>(words: &ArgMatches<'a>) -> Result<Change<'a>, WordsError<'a>>
    ensures said { IfOk result (IsChange (codes "new") (found_of words.now)) }
    ensures refused { RefusedOnlyFor (found_of words.now) (¬ (CanMake (found_of words.now))) result }
{
    Ok(Change::New(NewTable {
        guid: guid(words, "--guid")?,
        entries: number_if_given(words, "--entries")?,
    }))
}

fn read_apply<'a>(words: &ArgMatches<'a>) -> Result<Change<'a>, WordsError<'a>>
    ensures said { IfOk result (IsChange (codes "apply") (found_of words.now)) }
    ensures refused { RefusedOnlyFor (found_of words.now) (first_value (found_of words.now) (codes "FILE") ≡ None) result }
{
    Ok(Change::Apply {
        file: needed(words, "FILE")?,
        is_replacing: words.get_flag("--replace"),
        is_creating: words.get_flag("--create"),
    })
}
