//! Resolves a request for an entry against a table: its number, its fields and its place.

ghost use Rattle.std.specs.Prelude.{◌≡◌, ◌<◌, ◌≤◌, None, IfErr, IfOk, length, option_map};
ghost use Rattle.gptman.specs.Fault.{fault_of, out_of_memory};
ghost use Rattle.gptedit_core.specs.Resolving.{entry_asked, lowest_unused, number_asked};
ghost use Rattle.gptedit_core.specs.Resolving.{place_asked, place_of, refusal_in, resolved, rest_of};
ghost use Rattle.gptedit_core.specs.Resolving.{room_asked, span_from, start_asked, stay_fault, there_of, use_fault, used_at};
ghost use Rattle.gptedit_core.specs.Resolving.{IsStopFor};

use crate::amount::Amount;
use crate::asked::{Asked, Choice, Mode, Size};
use crate::place::Place;
use crate::refusal::{Refusal, Stop};
use crate::sectors::SectorRange;
use gptman::{Error, GPT, GPTPartitionEntry};
use std::alloc::Global;

/// A partition to be put into a table.
#[derive(Drop, Debug)]
pub struct ResolvedPartition {
    /// The number of its entry.
    pub number: u32,
    /// The type, the GUID, the attributes and the name.
    pub entry: GPTPartitionEntry,
    /// Its place.
    pub place: Place,
}

/// The size of a partition in sectors.
#[derive(Clone, Copy, PartialEq, Eq, Debug)]
pub enum Room {
    /// Exactly this number, which is at least one.
    Sectors(u64),
    /// All free ones.
    Rest,
}

/// Resolves the request. An unused entry that is requested without a GUID gets the random one.
pub fn resolve(
    alloc: Global,
    table: &GPT,
    mode: Mode,
    asked: &Asked,
    random: [u8; 16],
) -> Result<ResolvedPartition, Stop>
    requires sector { 0 < table.now.sector_size }
    ensures ok { IfOk result (λ p. resolved table.now mode asked.now random ≡ Ok p) }
    ensures refused { IfErr result (IsStopFor (resolved table.now mode asked.now random)) }
{
    let number = find_number(table, asked)?;
    let used = used_entry(table, number);
    check_use(mode, number, used)?;
    let place = find_place(mode, asked, number, used, table.sector_size)?;
    let entry = make_entry(alloc, asked, used, random)?;
    if entry.is_unused() {
        return Err(Stop::Refused(Refusal::NoType(number)));
    }
    Ok(ResolvedPartition {
        number,
        entry,
        place,
    })
}

// Returns the requested number, or the lowest one of an unused entry.
fn find_number(table: &GPT, asked: &Asked) -> Result<u32, Refusal>
    ensures { result ≡ number_asked table.now asked.now }
{
    match asked.number {
        Some(number) => match table.get(number) {
            Some(_) => Ok(number),
            None => Err(Refusal::NoEntry(number)),
        },
        None => find_unused(table).ok_or(Refusal::NoUnusedEntry),
    }
}

// Returns the lowest number of an unused entry.
fn find_unused(table: &GPT) -> Option<u32>
    ensures { result ≡ lowest_unused table.now }
{
    for (number, entry) in table.iter() {
        if entry.is_unused() {
            return Some(number);
        }
    }
    None
}

// Returns the entry of this number, if it is used.
fn used_entry(table: &GPT, number: u32) -> Option<&GPTPartitionEntry>
    ensures { option_map (λ e. e.now) result ≡ used_at table.now number }
{
    let entry = table.get(number)?;
    if entry.is_used() { Some(entry) } else { None }
}

// Refuses to add to a used entry, and to change an unused one.
fn check_use(mode: Mode, number: u32, used: Option<&GPTPartitionEntry>) -> Result<(), Refusal>
    ensures { refusal_in result ≡ use_fault mode number (option_map (λ e. e.now) used.entry) }
{
    match (mode, used) {
        (Mode::Add, Some(_)) => Err(Refusal::IsUsed(number)),
        (Mode::Change, None) => Err(Refusal::IsUnused(number)),
        _ => Ok(()),
    }
}

// Returns the requested fields, over those of the used entry or of an empty one with the random GUID.
fn make_entry(
    alloc: Global,
    asked: &Asked,
    used: Option<&GPTPartitionEntry>,
    random: [u8; 16],
) -> Result<GPTPartitionEntry, Error>
    ensures ok { IfOk result (λ e. e ≡ entry_asked asked.now (option_map (λ e. e.now) used.entry) random) }
    ensures refused { IfErr result (λ e. fault_of e ≡ out_of_memory) }
{
    let mut entry = match used {
        Some(entry) => entry.clone()?,
        None => GPTPartitionEntry {
            unique_partition_guid: random,
            ..GPTPartitionEntry::empty(alloc)
        },
    };
    if let Some(name) = &asked.name {
        entry.partition_name = name.clone()?;
    }
    entry.partition_type_guid = asked.type_guid.unwrap_or(entry.partition_type_guid);
    entry.unique_partition_guid = asked.unique_guid.unwrap_or(entry.unique_partition_guid);
    entry.attribute_bits = asked.attributes.unwrap_or(entry.attribute_bits);
    Ok(entry)
}

fn find_place(
    mode: Mode,
    asked: &Asked,
    number: u32,
    used: Option<&GPTPartitionEntry>,
    sector_size: u64,
) -> Result<Place, Refusal>
    requires { 0 < sector_size }
    ensures { result ≡ place_asked mode asked.now number (option_map (λ e. e.now) used.entry) sector_size }
{
    let start = find_start(asked.start, sector_size)?;
    let room = find_room(asked.size, number, sector_size)?;
    let there = match used {
        Some(entry) => Some(SectorRange {
            first: entry.starting_lba,
            last: entry.ending_lba,
        }),
        None => None,
    };
    let place = place_of(number, room, start, there, asked.choice)?;
    check_stay(mode, number, there, place)?;
    Ok(place)
}

fn find_start(start: Option<Amount>, sector_size: u64) -> Result<Option<u64>, Refusal>
    requires { 0 < sector_size }
    ensures { result ≡ start_asked start sector_size }
{
    let Some(amount) = start else { return Ok(None) };
    match amount.sectors(sector_size) {
        Some(sector) => Ok(Some(sector)),
        None => Err(Refusal::NotWhole(amount)),
    }
}

fn find_room(size: Option<Size>, number: u32, sector_size: u64) -> Result<Option<Room>, Refusal>
    requires { 0 < sector_size }
    ensures { result ≡ room_asked size number sector_size }
{
    let amount = match size {
        None => return Ok(None),
        Some(Size::Rest) => return Ok(Some(Room::Rest)),
        Some(Size::Exactly(amount)) => amount,
    };
    match amount.sectors(sector_size) {
        Some(0) => Err(Refusal::NoSize(number)),
        Some(sectors) => Ok(Some(Room::Sectors(sectors))),
        None => Err(Refusal::NotWhole(amount)),
    }
}

// Returns the requested place. The used entry, if there is one, is at `there`.
fn place_of(
    number: u32,
    room: Option<Room>,
    start: Option<u64>,
    there: Option<SectorRange>,
    choice: Choice,
) -> Result<Place, Refusal>
    ensures { result ≡ place_of number room start there choice }
{
    match (room, start, there) {
        (Some(Room::Sectors(size)), Some(first), _) => {
            span_from(number, first, size.saturating_sub(1))
        }
        (Some(Room::Sectors(size)), None, Some(there)) => {
            span_from(number, there.first, size.saturating_sub(1))
        }
        (Some(Room::Sectors(size)), None, None) => Ok(Place::Free { size, choice }),
        (Some(Room::Rest), start, there) => Ok(rest_of(start, there)),
        (None, None, Some(SectorRange { first, last })) => Ok(Place::At { first, last }),
        (None, Some(start), Some(there)) if there.first <= there.last => {
            span_from(number, start, there.last - there.first)
        }
        (None, _, _) => Err(Refusal::NoSize(number)),
    }
}

// Returns the place of a partition of size `Rest`. From where the used entry starts, it is unchanged until the entry is
// lengthened.
fn rest_of(start: Option<u64>, there: Option<SectorRange>) -> Place
    ensures { result ≡ rest_of start there }
{
    match (start, there) {
        (None, None) => Place::Longest,
        (Some(first), None) => Place::From { first },
        (None, Some(SectorRange { first, last })) => Place::At { first, last },
        (Some(start), Some(SectorRange { first, last })) if start == first => {
            Place::At { first, last }
        }
        (Some(first), Some(_)) => Place::From { first },
    }
}

// Returns the place from `first` to `more` sectors after it.
fn span_from(number: u32, first: u64, more: u64) -> Result<Place, Refusal>
    ensures { result ≡ span_from number first more }
{
    match first.checked_add(more) {
        Some(last) => Ok(Place::At { first, last }),
        None => Err(Refusal::TooLarge(number)),
    }
}

// Refuses to move or shorten a partition, unless the mode permits it.
fn check_stay(
    mode: Mode,
    number: u32,
    there: Option<SectorRange>,
    place: Place,
) -> Result<(), Refusal>
    ensures { refusal_in result ≡ stay_fault mode number there place }
{
    match (mode, there, place) {
        (Mode::Become { replace: false }, Some(there), Place::At { first, last })
            if first == there.first && there.last <= last => Ok(()),
        (Mode::Become { replace: false }, Some(_), _) => Err(Refusal::WouldMove(number)),
        _ => Ok(()),
    }
}
