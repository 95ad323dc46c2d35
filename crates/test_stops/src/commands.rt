//! Commands on failing disks and with a failing output, and a worked example in memory and in a file. The rows of
//! `tests/program/` test all other output on the built program.

use crate::asserts::{Host, fused, got, holding};
use crate::lines::{LINES, call_line, image_with_foo, make_foo, try_line};
use gptimg_core::USAGE;
use gptman::{Disk, Error, FileDisk, Result};
use std::process::Abort;
use std::{fs, io};
use test_fixtures::calls::has_bytes;
use test_fixtures::samples::{disk_1, disk_2, disk_of, image_with, put};

// Reports whether one of these texts was printed.
fn is_one_of(printed: &[u8], texts: &[&str]) -> bool {
    texts.iter().any(|text| text.as_bytes() == printed)
}

// Asserts that the line returns this status and prints this text.
fn assert_line<D: Disk>(rt: &impl Host, disk: &mut D, line: &str, status: u8, text: &str) {
    let (answer, printed) = call_line(rt, disk, line);
    assert!(rt; answer == status, "{line}");
    assert!(rt; printed.as_slice() == text.as_bytes(), "{line}");
}

const SHOWN: &str =
    "sector 512 form primary disk ffffffffffffffffffffffffffffffff usable 34..66 entries 128 align 1\n\
     1 11111111111111111111111111111111 22222222222222222222222222222222 34..43 0000000000000000 Foo\n";

// Makes a table with "Foo" in 34..43 on this disk, and asserts the results of some lines.
fn assert_example<D: Disk>(rt: &impl Host, disk: &mut D) {
    make_foo(rt, disk);
    assert_line(rt, disk, "512 free 10", 0, "50 17\n");
    let line = "512 add 2 T V 24 best 1 Bar";
    assert_line(rt, disk, line, 1, "fault: NoSpaceLeft\n");
    assert_line(rt, disk, "auto show", 0, SHOWN);
    assert_line(rt, disk, "0 show", 2, USAGE);
}

#[test]
fn an_example_holds_in_memory_and_in_a_file(rt: HostRuntime) {
    assert_example(&rt, &mut got(&rt, disk_of(rt.alloc(), 0, 51_200)));
    let path = "example.img";
    got(&rt, fs::write(&rt, path, [0; 51_200].as_slice()));
    assert_example(&rt, &mut got(&rt, FileDisk::open(&rt, path)));
    got(&rt, fs::remove_file(&rt, path));
}

// Runs the line on a disk of these bytes that fails after `calls` calls. Asserts that it prints one of these texts if
// it fails, and changes nothing if no call succeeds. Returns whether it failed.
fn fails_after(rt: &impl Host, image: &[u8], calls: u64, line: &str, texts: &[&str]) -> bool {
    let mut disk = fused(rt, image, calls);
    let (status, printed) = call_line(rt, &mut disk, line);
    let is_done = status == 0;
    assert!(rt;
        is_done || (status == 1 && is_one_of(&printed, texts)),
        "{line}"
    );
    assert!(rt; is_done || calls > 0 || has_bytes(&disk, image), "{line}");
    !is_done
}

// Asserts the same for each number of calls, until the line succeeds.
fn assert_fails(rt: &impl Host, image: &[u8], line: &str, texts: &[&str]) {
    for calls in 0..=40 {
        if !fails_after(rt, image, calls, line, texts) {
            return;
        }
    }
    panic!(rt; "{line} takes more than 40 calls");
}

// Asserts the same for each line that begins with `start`.
fn assert_all_fail(rt: &impl Host, image: &[u8], start: &str, texts: &[&str]) {
    for line in LINES {
        if line.starts_with(start) {
            assert_fails(rt, image, line, texts);
        }
    }
}

const FAILED: &str = "fault: Io\n";

#[test]
fn a_failing_disk_is_named(rt: HostRuntime) {
    assert_all_fail(&rt, &image_with_foo(&rt), "", &[FAILED]);
}

// The errors of a failing disk with one bad copy. The fault of the primary copy is included if the disk fails in the
// backup copy.
const FAILED_LATER: [&str; 2] = [FAILED, "fault: ReadError(InvalidSignature, Io)\n"];

#[test]
fn a_failing_disk_with_one_copy_is_named(rt: HostRuntime) {
    let mut image = image_with_foo(&rt);
    got(&rt, put(&mut image, 512, &[0; 92]));
    assert_all_fail(&rt, &image, "", &FAILED_LATER);
}

#[test]
fn a_failing_disk_has_no_sector_size(rt: HostRuntime) {
    let table = got(&rt, disk_2(rt.alloc()));
    let image = got(&rt, image_with(rt.alloc(), &table));
    assert_all_fail(&rt, &image, "auto", &FAILED_LATER);
}

// The output of `check` on a failing disk.
const CHECKED: [&str; 3] = [
    FAILED,
    "primary fault Io\nbackup fault Io\nsame no\n",
    "primary ok\nbackup fault Io\nsame no\n",
];

#[test]
fn a_failing_disk_is_told_of_by_check(rt: HostRuntime) {
    let table = got(&rt, disk_1(rt.alloc()));
    let image = got(&rt, image_with(rt.alloc(), &table));
    assert_fails(&rt, &image, "512 check", &CHECKED);
}

// A writer that accepts `room` bytes, then fails.
#[derive(Drop)]
struct Short {
    room: usize,
}

impl io::Write for Short {
    fn write(&mut self, buf: &[u8]) -> io::Result<usize> {
        if self.room == 0 {
            return Err(io::Error::from(io::ErrorKind::Other));
        }
        let taken = self.room.min(buf.len());
        self.room -= taken;
        Ok(taken)
    }

    fn flush(&mut self) -> io::Result<()> {
        Ok(())
    }
}

// Asserts that the result is this status if there is room for the output, else an error.
fn assert_answer(rt: &impl Abort, answer: &Result<u8>, status: u8, has_room: bool, line: &str) {
    let is_right = match answer {
        Ok(answer) => *answer == status && has_room,
        Err(error) => matches!(error, Error::Io(_)) && !has_room,
    };
    assert!(rt; is_right, "{line}");
}

// Asserts that the line leaves these bytes on the disk, whatever room the output has, and succeeds only with `needed`
// bytes.
fn assert_room(
    rt: &impl Host,
    (image, left): (&[u8], &[u8]),
    line: &str,
    room: usize,
    (needed, status): (usize, u8),
) {
    let mut disk = holding(rt, image);
    let answer = try_line(rt, &mut disk, &mut Short { room }, line);
    assert_answer(rt, &answer, status, room == needed, line);
    assert!(rt; has_bytes(&disk, left), "{line}");
}

// Asserts that the line fails without room for its whole output, with the same effect on the disk.
fn assert_needs_its_room(rt: &impl Host, image: &[u8], line: &str) {
    let mut disk = holding(rt, image);
    let (status, printed) = call_line(rt, &mut disk, line);
    for room in 0..=printed.len() {
        assert_room(
            rt,
            (image, disk.bytes()),
            line,
            room,
            (printed.len(), status),
        );
    }
}

#[test]
fn a_failing_writer_is_an_error(rt: HostRuntime) {
    let image = image_with_foo(&rt);
    for line in LINES {
        assert_needs_its_room(&rt, &image, line);
    }
    assert_needs_its_room(&rt, &image, "512 shows");
    assert_needs_its_room(&rt, &image, "512 remove 0");
    assert_needs_its_room(&rt, &image, "512 check");
}
