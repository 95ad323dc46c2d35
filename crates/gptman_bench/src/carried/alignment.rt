//! Tests of the alignment that a read derives.

use super::{first, second};
use crate::asserts::{Host, assert_same};
use crate::fixtures::{blank, new_table, put_entry, read_from, remove, reread, write};
use gptman::{GPT, MemoryDisk};
use std::process::Abort;

// Asserts that a read of the table derives this alignment.
fn assert_align(rt: &impl Host, table: &GPT, align: u64) {
    assert!(rt; reread(rt, table).align == align);
}

// Asserts that a read of the table without its entries derives the alignment of new tables.
fn assert_none(rt: &impl Host, mut table: GPT) {
    remove(rt, &mut table, 1);
    remove(rt, &mut table, 2);
    assert_align(rt, &table, 2048);
}

#[test]
fn determine_partition_alignment_no_partition(rt: HostRuntime) {
    assert_none(&rt, first(&rt));
    assert_none(&rt, second(&rt));
    assert!(rt; new_table(&rt, &mut blank(&rt, 0, 51_200), 512).align == 2048);
}

// Writes a table with entries from 5 to 6 and from 8 to 16 times the alignment to the disk.
fn write_multiples(rt: &impl Host, disk: &mut MemoryDisk, align: u16) -> GPT {
    let mut table = new_table(rt, disk, 512);
    let align = u64::from(align);
    put_entry(rt, &mut table, 1, ("", 1), (align * 5, align * 6));
    put_entry(rt, &mut table, 2, ("", 2), (align * 8, align * 16));
    write(rt, &mut table, disk);
    table
}

// Asserts that a read of that table derives this alignment, on a disk of 21 times as many sectors.
fn assert_multiples(rt: &impl Host, align: u16) {
    let mut disk = blank(rt, 0, 512 * 21 * usize::from(align));
    let mut table = write_multiples(rt, &mut disk, align);
    table.align = u64::from(align);
    assert_same(rt, &read_from(rt, &mut disk), &table);
}

#[test]
fn determine_partition_alignment(rt: HostRuntime) {
    for align in [8, 2048, 8192] {
        assert_multiples(&rt, align);
    }
}

// Asserts that a read of the table with only one entry, in these sectors, derives this alignment.
fn assert_full(rt: &impl Host, mut table: GPT, sectors: (u64, u64), align: u64) {
    put_entry(rt, &mut table, 1, ("", 1), sectors);
    remove(rt, &mut table, 2);
    assert_align(rt, &table, align);
}

#[test]
fn determine_partition_alignment_full_disk(rt: HostRuntime) {
    assert_full(&rt, first(&rt), (34, 66), 1);
    assert_full(&rt, first(&rt), (35, 66), 35);
    assert_full(&rt, second(&rt), (6, 94), 1);
    assert_full(&rt, second(&rt), (7, 94), 7);
}
