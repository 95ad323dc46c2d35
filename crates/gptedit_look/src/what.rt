//! Names the obstacle to a write.

ghost use Rattle.std.specs.Prelude.{◌≡◌, ◌/◌};

use crate::first_sector::MbrKind;
use crate::grounds::{
    are_entries_elsewhere, is_in_content, is_in_footer, is_of_broken, is_of_low_entries,
};
use crate::marks::Content;
use crate::seen::{Look, Obstacle, What};
use crate::signatures::Signature;
use gptman::GPT;

/// Returns the first thing on the disk that a new table would destroy, wherever it is: a table or header, a protective
/// MBR, a footer, recognised contents, or an unrecognised boot sector.
pub fn known_beside(look: &Look) -> Option<Obstacle> {
    if let Some(signature) = signature_of(look) {
        return Some(signature);
    }
    let kind = look.first_sector.kind;
    if matches!(kind, MbrKind::Protective | MbrKind::Hybrid) {
        return Some(spanning(look, 0, 512, What::ProtectiveMbr));
    }
    if let Some(footer) = &look.footer {
        return Some(covering(look, footer, What::Footer(footer.name)));
    }
    match look.contents.first() {
        Some(content) => Some(covering(look, content, What::Content(content.name))),
        None if kind == MbrKind::Other => Some(spanning(look, 0, 512, What::BootSector)),
        None => None,
    }
}

// Returns the obstacle of a signature, one of the inspected sector size first.
fn signature_of(look: &Look) -> Option<Obstacle> {
    let own = look
        .signatures
        .iter()
        .find(|signature| signature.sector_size == look.sector_size);
    let other = look.signatures.first();
    match (own, other) {
        (Some(own), _) if look.table.is_some() => Some(header(look, own, What::Table)),
        (Some(own), _) => Some(header(look, own, What::Header)),
        (None, Some(other)) => {
            Some(header(look, other, What::OtherSectorSize(other.sector_size)))
        }
        (None, None) => None,
    }
}

fn header(look: &Look, signature: &Signature, what: What) -> Obstacle {
    spanning(look, signature.at, signature.at.saturating_add(92), what)
}

// Covers all of the contents, or their first sector if the end is unknown.
fn covering(look: &Look, content: &Content, what: What) -> Obstacle {
    let end = match content.end {
        Some(end) => end,
        None => content.start.saturating_add(1),
    };
    spanning(look, content.start, end, what)
}

// Returns the obstacle in the sectors of bytes `start` to `end`, exclusive.
fn spanning(look: &Look, start: u64, end: u64, what: What) -> Obstacle
    ensures { result.first ≡ start / look.now.sector_size }
{
    let last = end.saturating_sub(1).max(start);
    Obstacle {
        first: start / look.sector_size,
        last: last / look.sector_size,
        what,
    }
}

/// Returns the obstacle from byte `at`, which a write may not overwrite, to `end`.
pub fn name_of(look: &Look, next: &GPT, at: u64, end: u64) -> Obstacle
    ensures { result.first ≡ at / look.now.sector_size }
{
    spanning(look, at, end, what_is_at(look, next, at))
}

fn what_is_at(look: &Look, next: &GPT, at: u64) -> What {
    if let Some(footer) = &look.footer {
        if is_in_footer(look, at) {
            return What::Footer(footer.name);
        }
    }
    if let Some(content) = look
        .contents
        .iter()
        .find(|content| is_in_content(look, at, content))
    {
        return What::Content(content.name);
    }
    if let Some(signature) = look
        .signatures
        .iter()
        .find(|signature| is_foreign(look, signature, at))
    {
        return What::OtherSectorSize(signature.sector_size);
    }
    place_of(look, next, at)
}

// Reports whether this byte is in a header of another sector size.
fn is_foreign(look: &Look, signature: &Signature, at: u64) -> bool {
    signature.sector_size != look.sector_size && signature.at <= at && at - signature.at < 92
}

// Classifies an unrecognised byte by its place in the table.
fn place_of(look: &Look, next: &GPT, at: u64) -> What {
    if is_of_broken(look, at) {
        return What::BoardCode;
    }
    if is_of_low_entries(next, at) {
        return What::AfterLastUsable;
    }
    if are_entries_elsewhere(look, next, at) {
        return What::ElsewhereEntries;
    }
    What::Unknown
}
