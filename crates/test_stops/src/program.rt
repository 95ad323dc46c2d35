//! Commands with a crash, or with one failed call of the disk. The old table or the new one must be read.

use crate::asserts::{Host, copied, failing_once, fused, got, holding, read};
use crate::case::{Case, assert_reads_one, fate_of, fates, is_same_table};
use crate::lines::{LINES, call_line, do_line, image_with_foo};
use gptman::{Fate, MemoryDisk};
use std::process::Abort;
use test_fixtures::calls::{bytes_of, stopped};

// Returns the bytes of the image after the line ran.
fn image_after(rt: &impl Host, image: &[u8], line: &str) -> Vec<u8> {
    let mut disk = holding(rt, image);
    do_line(rt, &mut disk, line);
    got(rt, bytes_of(rt.alloc(), &disk))
}

// Returns the case of a line on an image: the tables before and after it.
fn case_of(rt: &impl Host, image: Vec<u8>, line: &str) -> Case {
    let old = read(rt, &image);
    let new = read(rt, &image_after(rt, &image, line));
    Case { image, old, new }
}

// Asserts that these bytes are read as the old or the new table, and as the new one if the line succeeded.
fn assert_left(rt: &impl Host, case: &Case, bytes: &[u8], is_done: bool) {
    assert_reads_one(rt, case, bytes);
    assert!(rt; !is_done || is_same_table(&read(rt, bytes), &case.new));
}

// Asserts the same of this disk, and after a crash with this fate for all pending writes.
fn assert_disk(rt: &impl Host, case: &Case, left: MemoryDisk, fate: Fate, is_done: bool) {
    assert_left(rt, case, left.bytes(), is_done);
    let after = got(rt, stopped(left, &[fate; 6]));
    assert_left(rt, case, after.bytes(), is_done);
}

// Reports whether a line succeeded. If not, it must have reported that the disk failed. A lengthened disk has no backup
// copy at its end, so a read that fails in the primary copy reports both faults.
fn is_done(rt: &impl Abort, status: u8, printed: &[u8]) -> bool {
    let is_named = printed == b"fault: Io\n".as_slice()
        || printed == b"fault: ReadError(Io, InvalidSignature)\n".as_slice();
    assert!(rt; status == 0 || is_named);
    status == 0
}

// Runs the line with this call failing, then crashes. Returns whether the line makes that many calls.
fn fail_once(rt: &impl Host, case: &Case, line: &str, call: u64, fate: Fate) -> bool {
    let mut disk = failing_once(rt, &case.image, call);
    let (status, printed) = call_line(rt, &mut disk, line);
    let is_done = is_done(rt, status, &printed);
    let has_failed = disk.calls_left().is_none();
    assert_disk(rt, case, disk.into_inner(), fate, is_done);
    has_failed
}

// Does the same for each call of the line, with each fate.
fn fail_each_call(rt: &impl Host, image: Vec<u8>, line: &str) {
    let case = case_of(rt, image, line);
    for number in 0..120 {
        if !fail_once(rt, &case, line, number / 3, fate_of(number)) {
            return;
        }
    }
    panic!(rt; "{line} takes 40 calls or more");
}

#[test]
fn one_failed_call_of_a_command_loses_no_table(rt: HostRuntime) {
    let image = image_with_foo(&rt);
    for line in &LINES[4..] {
        fail_each_call(&rt, copied(&rt, &image), line);
    }
}

// Returns the image with "Foo", lengthened to 200 sectors.
fn longer_image(rt: &impl Host) -> Vec<u8> {
    let mut image = image_with_foo(rt);
    got(rt, image.resize(102_400, 0));
    image
}

#[test]
fn one_failed_call_of_a_grow_loses_no_table(rt: HostRuntime) {
    fail_each_call(&rt, longer_image(&rt), "512 grow");
    fail_each_call(&rt, longer_image(&rt), "auto grow");
}

// Asserts that these bytes are read as the new table, or as the old one if the line failed.
fn assert_old_or_new(rt: &impl Host, case: &Case, bytes: &[u8], is_done: bool) {
    let table = read(rt, bytes);
    let is_old = !is_done && is_same_table(&table, &case.old);
    assert!(rt; is_old || is_same_table(&table, &case.new));
}

// Crashes a `grow` after `calls` calls, with these fates. Returns whether it succeeded.
fn stop_with(rt: &impl Host, case: &Case, calls: u64, fates: &[Fate]) -> bool {
    let mut disk = fused(rt, &case.image, calls);
    let is_done = call_line(rt, &mut disk, "512 grow").0 == 0;
    let left = got(rt, stopped(disk, fates));
    assert_old_or_new(rt, case, left.bytes(), is_done);
    is_done
}

// Does the same with all pending writes lost, kept or torn, and with one torn and the others lost or kept.
fn stop_after(rt: &impl Host, case: &Case, calls: u64) -> bool {
    let mut is_done = false;
    for number in 0..15_usize {
        let fates = fates(fate_of(number as u64 / 7), number % 7);
        is_done = stop_with(rt, case, calls, &fates);
    }
    is_done
}

// Does the same after each number of calls, until the command succeeds.
fn stop_anywhere(rt: &impl Host, case: &Case) {
    for calls in 0..=40 {
        if stop_after(rt, case, calls) {
            return;
        }
    }
    panic!(rt; "the command takes more than 40 calls");
}

#[test]
fn a_stopped_grow_leaves_the_old_table_or_the_new_one(rt: HostRuntime) {
    let case = case_of(&rt, longer_image(&rt), "512 grow");
    assert!(rt; case.old.header.last_usable_lba == 66 && case.new.header.last_usable_lba == 166);
    stop_anywhere(&rt, &case);
}
