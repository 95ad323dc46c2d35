//! A protective MBR with a crash or a failed call. All bytes except its 66 must be unchanged.

use crate::asserts::{Host, assert_said, copied, failing_once, fused, got};
use gptman::{Fate, MemoryDisk};
use std::process::Abort;
use test_fixtures::calls::{has_bytes, stopped};
use test_fixtures::samples::{put, put_mbr, write_mbr};

// The number of calls of the write: length, seek and write.
const CALLS: u64 = 3;

// Returns 100 sectors of bytes 2.
fn old(rt: &impl Host) -> Vec<u8> {
    got(rt, vec![in rt.alloc(); 2; 51_200])
}

// Returns the sectors that a write of this fate leaves: unchanged, with the MBR, or with 66 bytes of garbage.
fn left_by(rt: &impl Host, is_bootable: bool, fate: Fate) -> Vec<u8> {
    let mut image = old(rt);
    match fate {
        Fate::Old => {}
        Fate::New => got(rt, put_mbr(&mut image, is_bootable, 99)),
        Fate::Garbage(byte) => got(rt, put(&mut image, 446, &[byte; 66])),
    }
    image
}

// Returns the text of the result if this call fails.
fn said(call: u64) -> &'static str {
    if call < CALLS {
        "generic I/O error"
    } else {
        "ok"
    }
}

// Asserts that a crash with this fate leaves these bytes.
fn assert_left(rt: &impl Abort, disk: MemoryDisk, fate: Fate, bytes: &[u8]) {
    assert!(rt; has_bytes(&got(rt, stopped(disk, &[fate])), bytes));
}

// Asserts the bytes after a write in which this call and all later ones fail, and a crash.
fn assert_from(rt: &impl Host, is_bootable: bool, call: u64, fate: Fate, left: &[u8]) {
    let mut disk = fused(rt, &old(rt), call);
    assert_said(rt, &write_mbr(&mut disk, 512, is_bootable), said(call));
    assert_left(rt, disk, fate, left);
}

// Asserts the same if only this call fails.
fn assert_once(rt: &impl Host, is_bootable: bool, call: u64, fate: Fate, left: &[u8]) {
    let mut disk = failing_once(rt, &old(rt), call);
    assert_said(rt, &write_mbr(&mut disk, 512, is_bootable), said(call));
    assert_left(rt, disk.into_inner(), fate, left);
}

// Asserts both. Nothing is changed before the write itself.
fn assert_stopped(rt: &impl Host, is_bootable: bool, call: u64, fate: Fate) {
    let left = left_by(rt, is_bootable, if call < 2 { Fate::Old } else { fate });
    assert_from(rt, is_bootable, call, fate, &left);
    assert_once(rt, is_bootable, call, fate, &left);
}

// Asserts the same for each call.
fn assert_stopped_at_each(rt: &impl Host, is_bootable: bool, fate: Fate) {
    for call in 0..=CALLS {
        assert_stopped(rt, is_bootable, call, fate);
    }
}

#[test]
fn a_failed_call_leaves_an_mbr_or_what_was_there(rt: HostRuntime) {
    for fate in [Fate::Old, Fate::New, Fate::Garbage(7)] {
        assert_stopped_at_each(&rt, false, fate);
        assert_stopped_at_each(&rt, true, fate);
    }
}
