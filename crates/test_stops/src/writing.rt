//! Writes with a crash or failure at any call. The old table or the new one must be read, also from each readable copy
//! by itself.

use crate::asserts::{Host, assert_reads, assert_result, copied, failing_once, fused, got, read};
use crate::case::{Case, HEADERS, assert_reads_one, fate_of, fates, is_same_table, read_without};
use gptman::{Disk, Edit, Error, Fate, GPT, MemoryDisk};
use std::process::Abort;
use test_fixtures::calls::{apply, copy, has_bytes, stopped};
use test_fixtures::samples::{backup_form, disk_1, image_with, put, put_entry};
use test_fixtures::tables::write;

// The number of calls of a write of 128 entries.
const CALLS: u64 = 17;

// Returns an image with both copies of the table. The header at byte `zeroed` is zeroed, unless `zeroed` is 0.
fn image(rt: &impl Host, zeroed: usize) -> Vec<u8> {
    let table = got(rt, disk_1(rt.alloc()));
    let mut image = got(rt, image_with(rt.alloc(), &table));
    if zeroed > 0 {
        got(rt, put(&mut image, zeroed, &[0; 92]));
    }
    image
}

// Returns the old table with one more entry.
fn with_one_more(rt: &impl Host, old: &GPT) -> GPT {
    let mut new = got(rt, copy(old));
    got(rt, put_entry(rt.alloc(), &mut new, 3, ("Baz", 3), (54, 60)));
    new
}

// Returns the case that writes one more entry to that image.
fn one_more(rt: &impl Host, zeroed: usize) -> Case {
    let image = image(rt, zeroed);
    let old = read(rt, &image);
    let new = with_one_more(rt, &old);
    Case { image, old, new }
}

// Reports whether the table could be written. The only permitted error is a failure of the disk.
fn is_written<D: Disk>(rt: &impl Abort, disk: &mut D, table: &GPT) -> bool {
    let mut table = got(rt, copy(table));
    let outcome = write(&mut table, disk);
    assert!(rt; matches!(&outcome, Ok(_) | Err(Error::Io(_))));
    outcome.is_ok()
}

// Returns the disk after a crash of the write after `calls` calls, with these fates.
fn left_of(rt: &impl Host, case: &Case, calls: u64, fates: &[Fate]) -> MemoryDisk {
    let mut disk = fused(rt, &case.image, calls);
    let is_done = is_written(rt, &mut disk, &case.new);
    assert!(rt; is_done == (calls >= CALLS), "{calls} calls");
    assert!(rt; calls > 1 || has_bytes(&disk, &case.image));
    got(rt, stopped(disk, fates))
}

// Crashes the write after `calls` calls, with these fates.
fn stop_with(rt: &impl Host, case: &Case, calls: u64, fates: &[Fate]) {
    let left = left_of(rt, case, calls, fates);
    assert_reads_one(rt, case, left.bytes());
}

// Crashes the write after `calls` calls, with all pending writes lost, kept or torn, and with one torn and the others
// lost or kept.
fn stop_after(rt: &impl Host, case: &Case, calls: u64) {
    for number in 0..15_usize {
        let all = fate_of(number as u64 / 7);
        stop_with(rt, case, calls, &fates(all, number % 7));
    }
}

// Does the same after each number of calls, until the write succeeds.
fn stop_anywhere(rt: &impl Host, case: &Case) {
    for calls in 0..=CALLS {
        stop_after(rt, case, calls);
    }
}

// Does the same with a value in backup form.
fn stop_in_backup_form(rt: &impl Host) {
    let mut case = one_more(rt, 0);
    case.new.header = backup_form(&case.new.header);
    stop_anywhere(rt, &case);
}

#[test]
fn good_copies_survive_a_stop(rt: HostRuntime) {
    for zeroed in [0, 512, 50_688] {
        stop_anywhere(&rt, &one_more(&rt, zeroed));
    }
    stop_in_backup_form(&rt);
}

// Asserts what is read after a crash after `calls` calls.
fn assert_stop(rt: &impl Host, case: &Case, calls: u64, fates: &[Fate], said: &str) {
    assert_reads(rt, left_of(rt, case, calls, fates).bytes(), said);
}

// Asserts what is read after a crash that tears the header of the other copy, the only pending write, and after one
// when the other copy is synced and nothing is pending.
fn assert_order(rt: &impl Host, zeroed: usize, torn: &str, synced: &str) {
    let case = one_more(rt, zeroed);
    assert_stop(rt, &case, 3, &[Fate::Garbage(7)], torn);
    assert_stop(rt, &case, 9, &[], synced);
}

const OLD: &str = "512 1/99/2 34..66 align 2, 1 Foo 34..43, 2 Bar 48..52";

const OLD_BACKUP: &str = "512 99/1/67 34..66 align 2, 1 Foo 34..43, 2 Bar 48..52";

const NEW: &str = "512 1/99/2 34..66 align 2, 1 Foo 34..43, 2 Bar 48..52, 3 Baz 54..60";

#[test]
fn the_other_copy_is_written_first(rt: HostRuntime) {
    assert_order(&rt, 0, OLD, OLD);
    assert_order(&rt, 512, OLD_BACKUP, NEW);
    assert_order(&rt, 50_688, OLD, OLD);
}

// Asserts that each copy by itself is the new table after a write.
fn assert_each_new(rt: &impl Host, case: &Case) {
    let done = left_of(rt, case, 32, &[]);
    for header in HEADERS {
        let table = got(rt, read_without(rt, done.bytes(), header));
        assert!(rt; is_same_table(&table, &case.new), "without {header}");
    }
}

#[test]
fn after_ok_each_copy_alone_is_the_new_table(rt: HostRuntime) {
    for zeroed in [0, 512, 50_688] {
        assert_each_new(&rt, &one_more(&rt, zeroed));
    }
}

// Asserts that one of the two tables is read, with and without a crash.
fn assert_left(rt: &impl Host, case: &Case, left: MemoryDisk, fate: Fate) {
    assert_reads_one(rt, case, left.bytes());
    let after = got(rt, stopped(left, &[fate; 6]));
    assert_reads_one(rt, case, after.bytes());
}

// Writes the new table with one call failing, or none, then crashes.
fn fail_once(rt: &impl Host, case: &Case, call: u64, fate: Fate) {
    let mut disk = failing_once(rt, &case.image, call);
    let is_done = is_written(rt, &mut disk, &case.new);
    assert!(rt; is_done == (call == CALLS), "call {call}");
    assert_left(rt, case, disk.into_inner(), fate);
}

// Does the same for each call and each fate.
fn fail_anywhere(rt: &impl Host, case: &Case) {
    for number in 0..3 * (CALLS + 1) {
        fail_once(rt, case, number / 3, fate_of(number));
    }
}

// A single failed call is reported, although all later calls succeed.
#[test]
fn a_write_of_which_one_call_fails_is_refused(rt: HostRuntime) {
    for zeroed in [0, 512, 50_688] {
        fail_anywhere(&rt, &one_more(&rt, zeroed));
    }
}

// Returns the case that changes the disk GUID of the image.
fn with_guid(rt: &impl Host, image: Vec<u8>, byte: u8) -> Case {
    let old = read(rt, &image);
    let mut new = got(rt, copy(&old));
    got(rt, apply(&mut new, Edit::DiskGuid([byte; 16])));
    Case { image, old, new }
}

// Reads the table, changes its disk GUID, and crashes the write after `round` calls, with all pending writes torn.
fn live(rt: &impl Host, image: Vec<u8>, round: u8) -> Vec<u8> {
    let case = with_guid(rt, image, round);
    let left = left_of(rt, &case, u64::from(round), &[Fate::Garbage(7); 6]);
    assert_reads_one(rt, &case, left.bytes());
    copied(rt, left.bytes())
}

// Asserts that the last table has the last GUID.
fn assert_last(rt: &impl Host, image: &[u8]) {
    let last = read(rt, image);
    assert!(rt; last.header.disk_guid == [19; 16]);
    assert_result(rt, &Ok(last), OLD);
}

#[test]
fn a_life_of_stopped_writes_never_loses_the_table(rt: HostRuntime) {
    let mut left = image(&rt, 0);
    for round in 0..20 {
        left = live(&rt, left, round);
    }
    assert_last(&rt, &left);
}
