//! Searches for free sectors, in tables whose alignment is not 0.

use crate::asserts::got;
use gptman::{Error, GPT};
use std::process::Abort;
use test_fixtures::calls;

/// A search for a place.
#[derive(Clone, Copy)]
pub(crate) enum Search {
    First,
    Last,
    Optimal,
}

/// Returns the place of `size` sectors that this search finds.
pub(crate) fn found(rt: &impl Abort, table: &GPT, search: Search, size: u64) -> Option<u64> {
    let place = match search {
        Search::First => calls::first_place(table, size),
        Search::Last => calls::last_place(table, size),
        Search::Optimal => calls::optimal_place(table, size),
    };
    got(rt, place)
}

// Asserts that the search finds this place.
fn assert_place(rt: &impl Abort, table: &GPT, search: Search, size: u64, place: Option<u64>) {
    assert!(rt; found(rt, table, search, size) == place, "{size}");
}

/// Asserts that the search finds these places. A row has the alignment, the number of sectors, and the place.
pub(crate) fn assert_found(
    rt: &impl Abort,
    mut table: GPT,
    search: Search,
    rows: &[(u64, u64, Option<u64>)],
) {
    for (align, size, place) in rows {
        table.align = *align;
        assert_place(rt, &table, search, *size, *place);
    }
}

/// Returns the largest size, or `None` if no space is left.
pub(crate) fn maximum(rt: &impl Abort, table: &GPT) -> Option<u64> {
    match calls::maximum_size(table) {
        Err(Error::NoSpaceLeft) => None,
        size => Some(got(rt, size)),
    }
}

/// Asserts that the table has this largest size with this alignment.
pub(crate) fn assert_maximum(rt: &impl Abort, table: &mut GPT, align: u64, size: Option<u64>) {
    table.align = align;
    assert!(rt; maximum(rt, table) == size, "by {align}");
}

/// Returns the aligned free ranges.
pub(crate) fn free_sectors(rt: &impl Abort, table: &GPT) -> Vec<(u64, u64)> {
    got(rt, calls::free_sectors(table))
}
