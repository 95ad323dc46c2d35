//! Options of `add` that have no effect beside a start.

ghost use Rattle.std.specs.Prelude.{◌≡◌, OnOk};
ghost use Rattle.clap.specs.Words.{found_of};
ghost use Rattle.gptedit_words.specs.Asks.{is_rounded, is_rounded_at, is_rounded_to, uses_align, HasEffect};
ghost use Rattle.gptedit_words.specs.Refusals.{RefusedOnlyFor};

use crate::error::{WordsError, refuse_both};
use clap::ArgMatches;
use gptedit_core::{Amount, Extent, Measure, Position};

/// Refuses options without an effect beside this start: `--place`, and `--align` if nothing is rounded.
pub(crate) fn refuse_unused<'a>(
    words: &ArgMatches<'a>,
    start: Option<Position>,
    extent: Extent,
) -> Result<(), WordsError<'a>>
    ensures used { OnOk result (HasEffect (found_of words.now) start extent) }
    ensures unused { RefusedOnlyFor (found_of words.now) (¬ (HasEffect (found_of words.now) start extent)) result }
{
    let (has_place, has_align) = (
        words.get_str("--place").is_some(),
        words.get_str("--align").is_some(),
    );
    refuse_both(has_place && start.is_some(), "--place", "--start")?;
    let is_unused = has_align && !uses_align(start, extent);
    refuse_both(is_unused, "--align", "an exact --start and size")
}

// Reports whether an alignment has an effect on a partition with this start, if any, and this size or end.
fn uses_align(start: Option<Position>, extent: Extent) -> bool
    ensures { result ≡ uses_align start extent }
{
    match start {
        None => true,
        Some(start) => is_rounded_at(start) || is_rounded_to(extent),
    }
}

fn is_rounded_to(extent: Extent) -> bool
    ensures { result ≡ is_rounded_to extent }
{
    match extent {
        Extent::Rest => true,
        Extent::End(position) => is_rounded_at(position),
        Extent::Size(measure) | Extent::More(measure) | Extent::Less(measure) => is_rounded(
            measure,
        ),
    }
}

fn is_rounded_at(position: Position) -> bool
    ensures { result ≡ is_rounded_at position }
{
    match position {
        Position::FromStart(measure) => is_rounded(measure),
        Position::FromEnd(Measure::Exactly(Amount::Sectors(_))) => false,
        Position::FromEnd(_) => true,
    }
}

fn is_rounded(measure: Measure) -> bool
    ensures { result ≡ is_rounded measure }
{
    match measure {
        Measure::Exactly(_) => false,
        Measure::About(_) => true,
        Measure::Share(_) => true,
    }
}
