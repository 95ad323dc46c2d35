//! A second search for places, slow and written only from their definitions: it tests sector by sector. The library is
//! compared with it, on several tables.

use crate::asserts::{Host, got};
use crate::searches::{Search, found, free_sectors, maximum};
use gptman::GPT;
use std::process::Abort;
use test_fixtures::samples::table_within;

// The last sector of all cases.
const LAST: u64 = 30;

// Reports whether a used entry covers the sector.
fn is_covered(table: &GPT, sector: u64) -> bool {
    for (_, entry) in table.iter() {
        if entry.is_used() && entry.starting_lba <= sector && sector <= entry.ending_lba {
            return true;
        }
    }
    false
}

// Returns the number of contiguous free sectors from this one on.
fn run_from(table: &GPT, sector: u64) -> u64 {
    let first = table.header.first_usable_lba.max(1);
    let mut run = 0_u64;
    for it in sector..=LAST {
        if it < first || it > table.header.last_usable_lba || is_covered(table, it) {
            break;
        }
        run = run.saturating_add(1);
    }
    run
}

// Reports whether `size` sectors are free from this one on, and it is a multiple of the alignment.
fn is_place(table: &GPT, size: u64, sector: u64) -> bool {
    run_from(table, sector) >= size && sector.checked_rem(table.align) == Some(0)
}

// Returns the first and the last place.
fn places(table: &GPT, size: u64) -> (Option<u64>, Option<u64>) {
    let (mut least, mut greatest) = (None, None);
    for sector in 0..=LAST {
        if is_place(table, size, sector) {
            least = least.or(Some(sector));
            greatest = Some(sector);
        }
    }
    (least, greatest)
}

// Reports whether the sector is the first multiple of the alignment in a free range.
fn starts_slot(table: &GPT, sector: u64) -> bool {
    for earlier in 0..sector {
        if is_place(table, sector - earlier, earlier) {
            return false;
        }
    }
    is_place(table, 1, sector)
}

// Returns all aligned free ranges, as start and length.
fn slots(rt: &impl Host, table: &GPT) -> Vec<(u64, u64)> {
    let mut slots = Vec::new(rt.alloc());
    for sector in 0..=LAST {
        if starts_slot(table, sector) {
            got(rt, slots.push((sector, run_from(table, sector))));
        }
    }
    slots
}

// Returns the start of the shortest range that is long enough, the first one of equal length.
fn shortest(slots: &[(u64, u64)], size: u64) -> Option<u64> {
    let mut best = None;
    let mut least = u64::MAX;
    for (start, length) in slots {
        if *length >= size && *length < least {
            best = Some(*start);
            least = *length;
        }
    }
    best
}

// Returns the largest multiple of the alignment that fits in a range.
fn longest(slots: &[(u64, u64)], align: u64) -> Option<u64> {
    let mut longest = None;
    for (_, length) in slots {
        let rest = length.checked_rem(align).unwrap_or_default();
        longest = longest.max(Some(length.saturating_sub(rest)));
    }
    longest
}

// Asserts that the searches of the library find the same places of `size` sectors.
fn assert_places(rt: &impl Abort, table: &GPT, slots: &[(u64, u64)], size: u64) {
    let (least, greatest) = places(table, size.max(1));
    assert!(rt; found(rt, table, Search::First, size) == least);
    assert!(rt; found(rt, table, Search::Last, size) == greatest);
    assert!(rt; found(rt, table, Search::Optimal, size) == shortest(slots, size.max(1)));
}

// Asserts that all searches of the library agree.
fn assert_alike(rt: &impl Host, table: &GPT) {
    let slots = slots(rt, table);
    assert!(rt; free_sectors(rt, table).as_slice() == slots.as_slice());
    assert!(rt; maximum(rt, table) == longest(&slots, table.align));
    for size in 0..=12 {
        assert_places(rt, table, &slots, size);
    }
}

// Asserts the same of a table with these bounds, alignment and used sectors.
fn assert_shape(rt: &impl Host, bounds: (u64, u64), align: u64, used: &[(u64, u64)]) {
    let table = got(rt, table_within(rt.alloc(), bounds, align, used));
    assert_alike(rt, &table);
}

#[test]
fn places_are_those_of_a_plain_search(rt: HostRuntime) {
    assert_shape(&rt, (0, 30), 3, &[(4, 6), (12, 12), (20, 25)]);
    let overlapping = [(20, 25), (8, 15), (10, 12), (14, 17), (27, 26)];
    assert_shape(&rt, (2, 28), 1, &overlapping);
    assert_shape(&rt, (5, 21), 4, &[(0, 6), (15, 30)]);
    assert_shape(&rt, (9, 3), 2, &[(1, 2)]);
}
