//! Lists of edits with a crash or failure at any call. The table after the completed edits, or after one more, must be
//! read.

use crate::asserts::{Host, failing_once, fused, got, read};
use crate::case::{fate_of, is_same_table};
use gptman::{Disk, Edit, Error, Fate, GPT, MemoryDisk, Progress};
use std::process::Abort;
use test_fixtures::calls::{apply, stopped};
use test_fixtures::samples::image_of_new;
use test_fixtures::tables::{commit, partition};

// The number of calls of the writes of three edits, 17 each.
const CALLS: u64 = 51;

// Returns the edit that puts an entry in these sectors under this number.
fn put_at(rt: &impl Host, number: u8, from: u64, to: u64) -> Edit {
    let entry = partition(rt.alloc(), "Foo", [number; 16], from, to);
    Edit::Put(u32::from(number), got(rt, entry))
}

// Returns three edits, each of which puts an entry after the previous one.
fn three_edits(rt: &impl Host) -> Vec<Edit> {
    let edits = vec![in rt.alloc();
        put_at(rt, 1, 34, 43),
        put_at(rt, 2, 44, 50),
        put_at(rt, 3, 51, 60),
    ];
    got(rt, edits)
}

// Returns the number of completed edits. The only permitted error is a failure of the disk.
fn done_of(rt: &impl Abort, progress: &Progress) -> usize {
    assert!(rt; matches!(&progress.fault, None | Some(Error::Io(_))));
    progress.done
}

// Commits the three edits on this disk, which holds the image. Returns the number of completed ones.
fn commit_three<D: Disk>(rt: &impl Host, disk: &mut D, image: &[u8]) -> usize {
    let mut table = read(rt, image);
    let progress = commit(&mut table, disk, three_edits(rt));
    done_of(rt, &got(rt, progress))
}

// Returns the table of the image after `count` edits.
fn table_after(rt: &impl Host, image: &[u8], count: usize) -> GPT {
    let mut table = read(rt, image);
    for edit in three_edits(rt).into_iter().take(count) {
        got(rt, apply(&mut table, edit));
    }
    table
}

// Reports whether this is the table of the image after `count` edits.
fn is_after(rt: &impl Host, table: &GPT, image: &[u8], count: usize) -> bool {
    is_same_table(table, &table_after(rt, image, count))
}

// Asserts that these bytes are read as the table after `done` edits, or one more.
fn assert_after(rt: &impl Host, bytes: &[u8], image: &[u8], done: usize) {
    let read = read(rt, bytes);
    let is_last = is_after(rt, &read, image, done);
    assert!(rt;
        is_last || is_after(rt, &read, image, done.saturating_add(1)),
        "{done} edits"
    );
}

// Asserts the same after a crash, with one fate for all pending writes.
fn assert_stopped(rt: &impl Host, disk: MemoryDisk, fate: Fate, image: &[u8], done: usize) {
    let left = got(rt, stopped(disk, &[fate; 6]));
    assert_after(rt, left.bytes(), image, done);
}

// Asserts that all three edits are completed exactly if no call fails.
fn assert_done(rt: &impl Abort, done: usize, call: u64) {
    assert!(rt; (done == 3) == (call == CALLS), "call {call}");
}

// Crashes after `calls` calls.
fn stop_after(rt: &impl Host, image: &[u8], calls: u64, fate: Fate) {
    let mut disk = fused(rt, image, calls);
    let done = commit_three(rt, &mut disk, image);
    assert_done(rt, done, calls);
    assert_stopped(rt, disk, fate, image, done);
}

// Lets one call fail, or none, then crashes.
fn fail_once(rt: &impl Host, image: &[u8], call: u64, fate: Fate) {
    let mut disk = failing_once(rt, image, call);
    let done = commit_three(rt, &mut disk, image);
    assert_done(rt, done, call);
    let left = disk.into_inner();
    assert_after(rt, left.bytes(), image, done);
    assert_stopped(rt, left, fate, image, done);
}

#[test]
fn a_fault_leaves_the_table_after_some_of_the_edits(rt: HostRuntime) {
    let image = got(&rt, image_of_new(rt.alloc(), 0));
    for number in 0..3 * (CALLS + 1) {
        stop_after(&rt, &image, number / 3, fate_of(number));
        fail_once(&rt, &image, number / 3, fate_of(number));
    }
}
