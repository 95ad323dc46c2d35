//! Disks that fail while a table is read: at one call, or from one call on.
//!
//! A read of a copy makes these calls: seek to the header, read it, take the length, seek to the entries, read them in
//! four blocks. If the primary copy is not accepted, the length is taken before the seek to the backup copy.

use crate::asserts::{Host, assert_result, assert_said, failing_once, fused, got};
use gptman::disk::faulty::FaultyDisk;
use gptman::{Disk, GPTHeader, MemoryDisk};
use std::process::Abort;
use test_fixtures::calls::{find, has_bytes};
use test_fixtures::samples::{disk_2, image_of_new, image_with, new_header, put};
use test_fixtures::tables::{complement, read};

const PRIMARY: &str = "512 1/99/2 34..66 align 2048";

const BACKUP: &str = "512 99/1/67 34..66 align 2048";

const FAILED: &str = "generic I/O error";

const UNSIGNED_AND_FAILED: &str =
    "could not read primary header (invalid signature) nor backup header (generic I/O error)";

const REVISION_AND_FAILED: &str =
    "could not read primary header (invalid revision) nor backup header (generic I/O error)";

// Returns the image of a new table.
fn new_image(rt: &impl Host) -> Vec<u8> {
    got(rt, image_of_new(rt.alloc(), 0))
}

// Asserts the result of a read with sectors of 512 bytes, or of one that detects the sector size.
fn assert_read<D: Disk>(rt: &impl Host, disk: &mut D, is_found: bool, said: &str) {
    if is_found {
        assert_result(rt, &find(rt.alloc(), disk), said);
    } else {
        assert_result(rt, &read(rt.alloc(), disk, 512), said);
    }
}

// Asserts the result if only this call fails, and that no byte changes.
fn assert_once(rt: &impl Host, image: &[u8], call: u64, is_found: bool, said: &str) {
    let mut disk = failing_once(rt, image, call);
    assert_read(rt, &mut disk, is_found, said);
    assert!(rt; has_bytes(&disk.into_inner(), image));
}

// Asserts the same if this call and all later ones fail.
fn assert_from(rt: &impl Host, image: &[u8], call: u64, is_found: bool, said: &str) {
    let mut disk = fused(rt, image, call);
    assert_read(rt, &mut disk, is_found, said);
    assert!(rt; has_bytes(&disk, image));
}

// Asserts the result of both kinds of read: `once` if only this call fails, `from` if all later ones fail too.
fn assert_both(rt: &impl Host, image: &[u8], call: u64, once: &str, from: &str) {
    assert_once(rt, image, call, false, once);
    assert_once(rt, image, call, true, once);
    assert_from(rt, image, call, false, from);
    assert_from(rt, image, call, true, from);
}

// Two calls read the primary header, which has the first of `faults`. Two more take the length and seek to the backup
// header. The next seven read the backup copy.
fn assert_fallback(rt: &impl Host, image: &[u8], call: u64, faults: &str) {
    let said = match call {
        2 | 3 => FAILED,
        4..=10 => faults,
        _ => BACKUP,
    };
    assert_both(rt, image, call, said, if call < 2 { FAILED } else { said });
}

// Asserts the same for each call, with the byte at `at` complemented.
fn assert_fallbacks(rt: &impl Host, at: usize, faults: &str) {
    let mut image = new_image(rt);
    complement(&mut image, &[at]);
    for call in 0..13 {
        assert_fallback(rt, &image, call, faults);
    }
}

#[test]
fn a_failed_call_of_the_fallback_is_answered(rt: HostRuntime) {
    assert_fallbacks(&rt, 512, UNSIGNED_AND_FAILED);
    assert_fallbacks(&rt, 520, REVISION_AND_FAILED);
}

#[test]
fn one_failed_call_does_not_lose_a_good_table(rt: HostRuntime) {
    let image = new_image(&rt);
    for call in 0..8 {
        assert_both(&rt, &image, call, BACKUP, FAILED);
    }
    for call in 8..10 {
        assert_both(&rt, &image, call, PRIMARY, PRIMARY);
    }
}

const PRIMARY_2: &str = "4096 1/99/2 6..94 align 2, 1 Foo 6..15, 2 Bar 70..79";

const BACKUP_2: &str = "4096 99/1/95 6..94 align 2, 1 Foo 6..15, 2 Bar 70..79";

const FAILED_AND_UNSIGNED: &str =
    "could not read primary header (generic I/O error) nor backup header (invalid signature)";

// Returns the results for the second disk if only this call fails, and if all later ones fail too. Sectors of 512 bytes
// are tried first, in five calls, as no entries are read. The next eight calls try 4096.
fn said_of_second(call: u64) -> (&'static str, &'static str) {
    match call {
        0 | 1 => (FAILED_AND_UNSIGNED, FAILED),
        2 | 3 => (FAILED, FAILED),
        4 => (UNSIGNED_AND_FAILED, UNSIGNED_AND_FAILED),
        5..=12 => (BACKUP_2, FAILED),
        _ => (PRIMARY_2, PRIMARY_2),
    }
}

// Asserts these results.
fn assert_found(rt: &impl Host, image: &[u8], call: u64) {
    let (once, from) = said_of_second(call);
    assert_once(rt, image, call, true, once);
    assert_from(rt, image, call, true, from);
}

// Returns the image of the second disk.
fn second_image(rt: &impl Host) -> Vec<u8> {
    let table = got(rt, disk_2(rt.alloc()));
    got(rt, image_with(rt.alloc(), &table))
}

#[test]
fn a_failed_call_finds_no_other_sector_size(rt: HostRuntime) {
    let image = second_image(&rt);
    for call in 0..15 {
        assert_found(&rt, &image, call);
    }
}

// More calls than any read makes.
const MANY: u64 = 1000;

// Asserts that the disk, which had `MANY` calls left, has served this number.
fn assert_calls(rt: &impl Abort, disk: &FaultyDisk, calls: u64) {
    assert!(rt; disk.calls_left() == Some(MANY - calls.min(MANY)));
}

// Returns the header of a new table for 100 sectors of 512 bytes, with this number of entries.
fn header_counting(rt: &impl Host, count: u32) -> GPTHeader {
    GPTHeader {
        number_of_partition_entries: count,
        ..got(rt, new_header(rt.alloc()))
    }
}

// Asserts that reading `count` entries takes this number of calls. If it is one call, the read fails.
fn assert_entries(rt: &impl Host, image: &[u8], count: u32, calls: u64) {
    let mut disk = failing_once(rt, image, MANY);
    let header = header_counting(rt, count);
    let read = header.read_partitions(rt.alloc(), &mut disk, 512);
    assert_calls(rt, &disk, calls);
    if calls == 1 {
        assert_said(rt, &read, FAILED);
    }
}

// There are 392 entries of 128 bytes from byte 1024 to byte 51,200. Two calls take the length and seek to the entries,
// and 13 read them in blocks of 32.
#[test]
fn no_entry_is_read_where_they_pass_the_end(rt: HostRuntime) {
    let image = new_image(&rt);
    for (count, calls) in [(0, 0), (1, 3), (128, 6), (392, 15), (393, 1), (u32::MAX, 1)] {
        assert_entries(&rt, &image, count, calls);
    }
}

// Asserts the result of a read of the image, and the number of calls.
fn assert_calls_of(rt: &impl Host, image: &[u8], said: &str, calls: u64) {
    let mut disk = failing_once(rt, image, MANY);
    assert_read(rt, &mut disk, false, said);
    assert_calls(rt, &disk, calls);
}

// Puts a header with this number of entries and a right checksum into the image.
fn put_count(rt: &impl Host, image: &mut [u8], count: u32) {
    let mut header = header_counting(rt, count);
    assert!(rt; header.header_size == 92);
    header.update_crc32_checksum();
    got(rt, put(image, 512, &header.encode()));
}

// Two calls read the primary header, and one finds that its entries pass the end. Two take the length and seek to the
// backup copy, and seven read it.
#[test]
fn a_count_past_the_end_does_not_lose_the_table(rt: HostRuntime) {
    let mut image = new_image(&rt);
    assert_calls_of(&rt, &image, PRIMARY, 8);
    for count in [393, u32::MAX] {
        put_count(&rt, &mut image, count);
        assert_calls_of(&rt, &image, BACKUP, 12);
    }
}
