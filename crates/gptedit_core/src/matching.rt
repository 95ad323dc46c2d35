//! The entry of a table that each request of a layout means.

ghost use Rattle.std.specs.Prelude.{◌≡◌, ◌++◌, Bool, true, false, if◌then◌else◌, count_by, map, length, IfErr, IfOk, OnOk};
ghost use Rattle.gptman.specs.Entry.{is_unused, is_used};
ghost use Rattle.gptman.specs.Fault.{fault_of, out_of_memory};
ghost use Rattle.gptman.specs.Table.{entries_in};
ghost use Rattle.gptedit_core.specs.Matching.{all_found, asks_name, fits, free_at_first, given, has_new_role};
ghost use Rattle.gptedit_core.specs.Matching.{has_number, is_asked, is_by_role, is_given, is_only_name};
ghost use Rattle.gptedit_core.specs.Matching.{is_other, is_used_as, may_mean, may_seek, name_asked};
ghost use Rattle.gptedit_core.specs.Matching.{new_found, numbered, others, passed, role_fault, taken};
ghost use Rattle.gptedit_core.specs.Matching.{added, matched, IsAdded, IsLawful, IsMatched};
ghost use Rattle.gptedit_core.specs.Resolving.{refusal_in, IsStopFor};
ghost use Rattle.gptedit_core.specs.Matching.{highest, is_on_side, is_role, new_numbers, used_found};
ghost use Rattle.std.specs.List.{filter, find};

use crate::asked::{Asked, Mode, RequestedLayout};
use crate::refusal::{Refusal, Stop};
use gptman::{Error, GPT, GPTPartitionEntry};
use std::alloc::Global;

/// How the entry of a request was found.
#[derive(Clone, Copy, PartialEq, Eq, Debug)]
pub enum MatchedBy {
    /// The layout gives its number.
    Number,
    /// It has the same GUID.
    Guid,
    /// It has the same name, which one used entry and one request have.
    Name,
    /// It has the same type, and the entry or the request has no name, or both have the same.
    Type,
    /// It is unused: the request asks for a new partition.
    New,
}

/// The entry that a request means.
#[derive(Clone, Copy, PartialEq, Eq, Debug)]
pub struct EntryMatch {
    /// Its number.
    pub number: u32,
    /// How it was found.
    pub by: MatchedBy,
}

/// A layout whose requests all have numbers.
#[derive(Drop, Debug)]
pub struct MatchedLayout {
    /// The layout.
    pub layout: RequestedLayout,
    /// The entry of each request, in their order.
    pub matches: Vec<EntryMatch>,
}

/// Returns the layout with the number of the entry that each request means, as the table is to become it. With
/// `replace` it removes exactly the used entries that no request means.
///
/// A request without a number means the used entry with its GUID; else that with its name, if one used entry and one
/// request have it; else the first with its type, if the entry or the request has no name or both have the same. These
/// are three passes over all requests in their order, and an entry is meant by at most one of them. The requests that
/// are left get the numbers of unused entries: the lowest after all numbers that are meant, then the others.
///
/// Refuses `NoUnusedEntry` if there are too few. Without `replace` it then refuses `NewRole` for the first request that
/// means its entry by name or type and gives it another type or GUID.
pub fn match_layout(
    alloc: Global,
    table: &GPT,
    layout: RequestedLayout,
    replace: bool,
) -> Result<MatchedLayout, Stop>
    ensures layout { IfOk result (IsMatched table.now layout replace) }
    ensures laws { IfOk result (IsLawful table.now layout replace) }
    ensures refused { IfErr result (IsStopFor (matched table.now layout.asked.items replace)) }
{
    match_requests(alloc, table, layout, replace)
}

// Matches the requests in passes.
fn match_requests(
    alloc: Global,
    table: &GPT,
    layout: RequestedLayout,
    replace: bool,
) -> Result<MatchedLayout, Stop>
    ensures layout { IfOk result (IsMatched table.now layout replace) }
    ensures refused { IfErr result (IsStopFor (matched table.now layout.asked.items replace)) }
{
    let RequestedLayout {
        disk_guid,
        align,
        asked,
        ..
    } = layout;
    let Search { found, mut free } = search_used(alloc, table, &asked)?;
    let matches = match_new(alloc, table, &asked, found)?;
    if !replace {
        check_roles(table, &asked, &matches)?;
        free.clear();
    }
    let layout = RequestedLayout {
        mode: Mode::Become { replace },
        disk_guid,
        align,
        removed: free,
        asked: number_all(asked, &matches),
    };
    Ok(MatchedLayout { layout, matches })
}

// The entries of the requests that mean used ones, and the numbers of the used entries that none of them means.
#[derive(Drop)]
struct Search {
    found: Vec<Option<EntryMatch>>,
    free: Vec<u32>,
}

// Finds the used entries that the requests mean.
fn search_used(alloc: Global, table: &GPT, asked: &[Asked]) -> Result<Search, Error>
    ensures found { IfOk result (λ search. search.found.items ≡ (used_found table.now asked.now).0) }
    ensures free { IfOk result (λ search. search.free.items ≡ (used_found table.now asked.now).1) }
    ensures long { IfOk result (λ search. length search.found.items ≡ length asked.now) }
    ensures refused { IfErr result (λ e. fault_of e ≡ out_of_memory) }
{
    let mut found = given_numbers(alloc, asked)?;
    let mut free = free_numbers(alloc, table, asked, true)?;
    seek(table, MatchedBy::Guid, asked, &mut found, &mut free);
    seek(table, MatchedBy::Name, asked, &mut found, &mut free);
    seek(table, MatchedBy::Type, asked, &mut found, &mut free);
    Ok(Search { found, free })
}

/// Returns the layout with numbers for the requests without one: the lowest of unused entries that no request has.
///
/// Refuses `NoUnusedEntry` if there are too few.
pub fn number_added(
    alloc: Global,
    table: &GPT,
    layout: RequestedLayout,
) -> Result<RequestedLayout, Stop>
    ensures layout { IfOk result (IsAdded table.now layout) }
    ensures refused { IfErr result (IsStopFor (added table.now layout.asked.items)) }
{
    let found = given_numbers(alloc, &layout.asked)?;
    let unused = free_numbers(alloc, table, &layout.asked, false)?;
    let matches = match_all(alloc, table, &layout.asked, found, unused)?;
    Ok(RequestedLayout {
        asked: number_all(layout.asked, &matches),
        ..layout
    })
}

// Returns the entries of the numbers that the layout gives.
fn given_numbers(alloc: Global, asked: &[Asked]) -> Result<Vec<Option<EntryMatch>>, Error>
    ensures value { IfOk result (λ found. found.items ≡ map given asked.now) }
    ensures refused { IfErr result (λ e. fault_of e ≡ out_of_memory) }
{
    let mut found = Vec::new(alloc);
    for one in asked {
        found.push(given(one))?;
    }
    Ok(found)
}

fn given(asked: &Asked) -> Option<EntryMatch>
    ensures { result ≡ given asked.now }
{
    match asked.number {
        Some(number) => Some(EntryMatch {
            number,
            by: MatchedBy::Number,
        }),
        None => None,
    }
}

// Returns the numbers of the used or of the unused entries that no request has.
fn free_numbers(alloc: Global, table: &GPT, asked: &[Asked], used: bool) -> Result<Vec<u32>, Error>
    ensures value { IfOk result (λ numbers. numbers.items
        ≡ free_at_first (if used then is_used else is_unused) table.now asked.now) }
    ensures refused { IfErr result (λ e. fault_of e ≡ out_of_memory) }
{
    let mut numbers = Vec::new(alloc);
    for (number, entry) in table.iter() {
        if entry.is_used() == used && !is_given(number, asked) {
            numbers.push(number)?;
        }
    }
    Ok(numbers)
}

fn is_given(number: u32, asked: &[Asked]) -> bool
    ensures { result ≡ is_given number asked.now }
{
    asked.iter().any(|one| has_number(one, number))
}

fn has_number(asked: &Asked, number: u32) -> bool
    ensures { result ≡ has_number number asked.now }
{
    match asked.number {
        Some(given) => given == number,
        None => false,
    }
}

// Finds entries in this way for the requests that have none. Each, in their order, gets the first of the free numbers
// that it may mean.
fn seek(
    table: &GPT,
    by: MatchedBy,
    asked: &[Asked],
    found: &mut [Option<EntryMatch>],
    free: &mut Vec<u32>,
)
    requires { length found.old ≡ length asked.now }
    ensures found { found.new ≡ (passed table.now by asked.now asked.now found.old free.old.items).0 }
    ensures free { free.new.items ≡ (passed table.now by asked.now asked.now found.old free.old.items).1 }
{
    for i in 0..asked.len() {
        let one = &asked[i];
        if found[i].is_none() && may_seek(table, by, asked, one) {
            found[i] = take_first(table, by, one, free);
        }
    }
}

// Reports whether the request may seek an entry in this way: by a name only if it is the only one.
fn may_seek(table: &GPT, by: MatchedBy, all: &[Asked], asked: &Asked) -> bool
    ensures { result ≡ may_seek table.now by all.now asked.now }
{
    match by {
        MatchedBy::Name => is_only_name(table, all, name_asked(asked)),
        MatchedBy::Number => true,
        MatchedBy::Guid => true,
        MatchedBy::Type => true,
        MatchedBy::New => true,
    }
}

// Reports whether exactly one request and one used entry have this name, and it is not empty.
fn is_only_name(table: &GPT, all: &[Asked], name: &str) -> bool
    ensures { result ≡ is_only_name table.now all.now name.now }
{
    !name.is_empty() && count_asked(all, name) == 1 && count_used(table, name) == 1
}

// Returns the number of requests with this name.
fn count_asked(all: &[Asked], name: &str) -> usize
    ensures { result ≡ count_by (asks_name name.now) all.now }
{
    all.iter().filter(|asked| asks_name(asked, name)).count()
}

fn asks_name(asked: &Asked, name: &str) -> bool
    ensures { result ≡ asks_name name.now asked.now }
{
    name_asked(asked) == name
}

// Returns the number of used entries with this name.
fn count_used(table: &GPT, name: &str) -> usize
    ensures { result ≡ count_by (is_used_as name.now) (entries_in table.now) }
{
    let mut count = 0;
    for (_, entry) in table.iter() {
        if is_used_as(entry, name) {
            count += 1;
        }
    }
    count
}

// Takes the first of the free numbers that the request may mean.
fn take_first(table: &GPT, by: MatchedBy, asked: &Asked, free: &mut Vec<u32>) -> Option<EntryMatch>
    ensures found { result ≡ (taken by free.old.items (find (may_mean table.now by asked.now) free.old.items)).0 }
    ensures free { free.new.items ≡ (taken by free.old.items (find (may_mean table.now by asked.now) free.old.items)).1 }
{
    let number = find_first(table, by, asked, free)?;
    remove(free, number);
    Some(EntryMatch { number, by })
}

fn find_first(table: &GPT, by: MatchedBy, asked: &Asked, free: &[u32]) -> Option<u32>
    ensures { result ≡ find (may_mean table.now by asked.now) free.now }
{
    free.iter()
        .copied()
        .find(|number| may_mean(table, by, asked, *number))
}

fn remove(free: &mut Vec<u32>, number: u32)
    ensures { free.new.items ≡ others number free.old.items }
{
    free.retain(|other| *other != number);
}

// Reports whether the request may mean the entry of this number in this way.
fn may_mean(table: &GPT, by: MatchedBy, asked: &Asked, number: u32) -> bool
    ensures { result ≡ may_mean table.now by asked.now number }
{
    match table.get(number) {
        Some(entry) => fits(by, asked, entry),
        None => false,
    }
}

fn fits(by: MatchedBy, asked: &Asked, entry: &GPTPartitionEntry) -> bool
    ensures { result ≡ fits by asked.now entry.now }
{
    match by {
        MatchedBy::Number => false,
        MatchedBy::Guid => {
            entry.is_used() && is_asked(asked.unique_guid, entry.unique_partition_guid)
        }
        MatchedBy::Name => is_used_as(entry, name_asked(asked)),
        MatchedBy::Type => {
            entry.is_used()
                && is_asked(asked.type_guid, entry.partition_type_guid)
                && is_role(name_asked(asked), entry.partition_name.as_str())
        }
        MatchedBy::New => entry.is_unused(),
    }
}

// Reports whether two names do not tell a request and an entry apart.
fn is_role(name: &str, own: &str) -> bool
    ensures { result ≡ is_role name.now own.now }
{
    name.is_empty() || own.is_empty() || own == name
}

fn is_used_as(entry: &GPTPartitionEntry, name: &str) -> bool
    ensures { result ≡ is_used_as name.now entry.now }
{
    entry.is_used() && entry.partition_name.as_str() == name
}

// Returns the requested name; it is empty if none is requested.
fn name_asked(asked: &Asked) -> &str
    ensures { result.now ≡ name_asked asked.now }
{
    match &asked.name {
        Some(name) => name.as_str(),
        None => "",
    }
}

fn is_asked(asked: Option<[u8; 16]>, guid: [u8; 16]) -> bool
    ensures { result ≡ is_asked asked guid }
{
    match asked {
        Some(asked) => asked == guid,
        None => false,
    }
}

// Returns the numbers for new partitions: those of the unused entries that no request has, first the ones after all that
// are meant.
fn new_numbers(
    alloc: Global,
    table: &GPT,
    asked: &[Asked],
    found: &[Option<EntryMatch>],
) -> Result<Vec<u32>, Error>
    ensures value { IfOk result (λ numbers. numbers.items ≡ new_numbers table.now asked.now found.now) }
    ensures refused { IfErr result (λ e. fault_of e ≡ out_of_memory) }
{
    let last = highest(found);
    let free = free_numbers(alloc, table, asked, false)?;
    let mut numbers = Vec::new(alloc);
    push_side(&mut numbers, &free, true, last)?;
    push_side(&mut numbers, &free, false, last)?;
    Ok(numbers)
}

// Returns the highest number; 0 without one.
fn highest(found: &[Option<EntryMatch>]) -> u32
    ensures { result ≡ highest found.now 0 }
{
    let mut last = 0;
    for one in found {
        if let Some(one) = one {
            if last < one.number {
                last = one.number;
            }
        }
    }
    last
}

// Adds the numbers after `last`, or the others.
fn push_side(numbers: &mut Vec<u32>, free: &[u32], after: bool, last: u32) -> Result<(), Error>
    ensures items { OnOk result (numbers.new.items ≡ numbers.old.items ++ filter (is_on_side after last) free.now) }
    ensures refused { IfErr result (λ e. fault_of e ≡ out_of_memory) }
{
    for number in free {
        if is_on_side(after, last, *number) {
            numbers.push(*number)?;
        }
    }
    Ok(())
}

fn is_on_side(after: bool, last: u32, number: u32) -> bool
    ensures { result ≡ is_on_side after last number }
{
    if after { number > last } else { number <= last }
}

// Gives the requests that have no entry the numbers for new partitions.
fn match_new(
    alloc: Global,
    table: &GPT,
    asked: &[Asked],
    found: Vec<Option<EntryMatch>>,
) -> Result<Vec<EntryMatch>, Stop>
    requires { length found.items ≡ length asked.now }
    ensures matches { IfOk result (λ ms. all_found (new_found table.now asked.now (new_numbers table.now asked.now found.items) found.items) ≡ Ok ms.items) }
    ensures long { IfOk result (λ ms. length ms.items ≡ length asked.now) }
    ensures refused { IfErr result (IsStopFor (all_found (new_found table.now asked.now (new_numbers table.now asked.now found.items) found.items))) }
{
    let unused = new_numbers(alloc, table, asked, &found)?;
    match_all(alloc, table, asked, found, unused)
}

// Gives the requests that have no entry the first of these unused ones, and returns the entry of each request.
fn match_all(
    alloc: Global,
    table: &GPT,
    asked: &[Asked],
    mut found: Vec<Option<EntryMatch>>,
    mut unused: Vec<u32>,
) -> Result<Vec<EntryMatch>, Stop>
    requires { length found.items ≡ length asked.now }
    ensures matches { IfOk result (λ ms. all_found (new_found table.now asked.now unused.items found.items) ≡ Ok ms.items) }
    ensures long { IfOk result (λ ms. length ms.items ≡ length asked.now) }
    ensures refused { IfErr result (IsStopFor (all_found (new_found table.now asked.now unused.items found.items))) }
{
    seek(table, MatchedBy::New, asked, &mut found, &mut unused);
    all_found(alloc, &found)
}

// Returns the entries, if each request has one.
fn all_found(alloc: Global, found: &[Option<EntryMatch>]) -> Result<Vec<EntryMatch>, Stop>
    ensures matches { IfOk result (λ ms. all_found found.now ≡ Ok ms.items) }
    ensures long { IfOk result (λ ms. length ms.items ≡ length found.now) }
    ensures refused { IfErr result (IsStopFor (all_found found.now)) }
{
    let mut matches = Vec::new(alloc);
    for one in found {
        let Some(one) = *one else {
            return Err(Stop::Refused(Refusal::NoUnusedEntry));
        };
        matches.push(one)?;
    }
    Ok(matches)
}

// Refuses another type or GUID for an entry that is meant only by its name or type.
fn check_roles(table: &GPT, asked: &[Asked], matches: &[EntryMatch]) -> Result<(), Refusal>
    requires { length matches.now ≡ length asked.now }
    ensures { refusal_in result ≡ role_fault table.now asked.now matches.now }
{
    for i in 0..asked.len() {
        if has_new_role(table, &asked[i], matches[i]) {
            return Err(Refusal::NewRole(matches[i].number));
        }
    }
    Ok(())
}

fn has_new_role(table: &GPT, asked: &Asked, one: EntryMatch) -> bool
    ensures { result ≡ has_new_role table.now asked.now one }
{
    match table.get(one.number) {
        Some(entry) => {
            is_by_role(one.by)
                && (is_other(asked.type_guid, entry.partition_type_guid)
                    || is_other(asked.unique_guid, entry.unique_partition_guid))
        }
        None => false,
    }
}

fn is_by_role(by: MatchedBy) -> bool
    ensures { result ≡ is_by_role by }
{
    match by {
        MatchedBy::Name => true,
        MatchedBy::Type => true,
        MatchedBy::Number => false,
        MatchedBy::Guid => false,
        MatchedBy::New => false,
    }
}

fn is_other(asked: Option<[u8; 16]>, guid: [u8; 16]) -> bool
    ensures { result ≡ is_other asked guid }
{
    match asked {
        Some(asked) => asked != guid,
        None => false,
    }
}

// Gives each request the number of its entry.
fn number_all(mut asked: Vec<Asked>, matches: &[EntryMatch]) -> Vec<Asked>
    requires { length matches.now ≡ length asked.items }
    ensures { result.items ≡ numbered asked.items matches.now }
{
    for i in 0..asked.len() {
        asked[i].number = Some(matches[i].number);
    }
    asked
}
