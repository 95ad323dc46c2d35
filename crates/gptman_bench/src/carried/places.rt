//! Tests of places for new partitions.

use super::{first, second};
use crate::asserts::{Host, assert_used, got};
use crate::fixtures::{image_of, partition, put_entry, remove};
use crate::searches::{Search, assert_found, assert_maximum};
use gptman::{Edit, GPT};
use test_fixtures::calls::{apply, sort};

#[test]
fn add_partition_left(rt: HostRuntime) {
    let rows = [(1, 10_000, None), (1, 4, Some(44)), (1, 8, Some(53))];
    assert_found(&rt, first(&rt), Search::First, &rows);
}

#[test]
fn add_partition_left_aligned(rt: HostRuntime) {
    let rows = [(10_000, 1, None), (4, 4, Some(44)), (6, 4, Some(54))];
    assert_found(&rt, first(&rt), Search::First, &rows);
}

#[test]
fn add_partition_right(rt: HostRuntime) {
    let rows = [(1, 10_000, None), (1, 5, Some(90)), (1, 20, Some(50))];
    assert_found(&rt, second(&rt), Search::Last, &rows);
}

#[test]
fn add_partition_right_aligned(rt: HostRuntime) {
    let rows = [
        (10_000, 1, None),
        (4, 5, Some(88)),
        (8, 20, Some(48)),
        (1, 54, Some(16)),
        (1, 55, None),
        (10, 54, None),
    ];
    assert_found(&rt, second(&rt), Search::Last, &rows);
}

#[test]
fn add_partition_optimal(rt: HostRuntime) {
    let rows = [(1, 10_000, None), (1, 5, Some(80)), (1, 20, Some(16))];
    assert_found(&rt, second(&rt), Search::Optimal, &rows);
}

#[test]
fn add_partition_optimal_aligned(rt: HostRuntime) {
    let rows = [(10_000, 1, None), (6, 5, Some(84)), (9, 20, Some(18))];
    assert_found(&rt, second(&rt), Search::Optimal, &rows);
}

// Returns the first table with "Baz" in a free range, under this number.
fn with_baz(rt: &impl Host, number: u32) -> GPT {
    let mut baz = partition(rt, ("Baz", 1), (44, 47));
    baz.partition_type_guid = [1; 16];
    let mut table = first(rt);
    got(rt, apply(&mut table, Edit::Put(number, baz)));
    table
}

// Asserts the order of the entries after a write, and after sorting.
fn write_and_sort(rt: &impl Host, table: &mut GPT) {
    assert_used(rt, table, ", 1 Foo 34..43, 2 Bar 48..52, 10 Baz 44..47");
    image_of(rt, table);
    got(rt, sort(table));
    assert_used(rt, table, ", 1 Foo 34..43, 2 Baz 44..47, 3 Bar 48..52");
}

#[test]
fn sort_partitions(rt: HostRuntime) {
    assert_found(&rt, first(&rt), Search::First, &[(1, 4, Some(44))]);
    write_and_sort(&rt, &mut with_baz(&rt, 10));
}

#[test]
fn add_partition_on_unsorted_table(rt: HostRuntime) {
    assert_found(&rt, with_baz(&rt, 11), Search::First, &[(1, 8, Some(53))]);
}

// Returns the first table without entries.
fn emptied(rt: &impl Host) -> GPT {
    let mut table = first(rt);
    for number in 1..=table.header.number_of_partition_entries {
        remove(rt, &mut table, number);
    }
    table
}

#[test]
fn get_maximum_partition_size_on_empty_disk(rt: HostRuntime) {
    assert_maximum(&rt, &mut emptied(&rt), 1, Some(33));
}

// Returns the first table with one entry in all usable sectors.
fn filled(rt: &impl Host) -> GPT {
    let mut table = emptied(rt);
    put_entry(rt, &mut table, 1, ("Foo", 1), (34, 66));
    table
}

#[test]
fn get_maximum_partition_size_on_disk_full(rt: HostRuntime) {
    assert_maximum(&rt, &mut filled(&rt), 1, None);
}

#[test]
fn get_maximum_partition_size_on_empty_disk_and_aligned(rt: HostRuntime) {
    assert_maximum(&rt, &mut emptied(&rt), 10, Some(20));
    assert_maximum(&rt, &mut emptied(&rt), 6, Some(30));
}
