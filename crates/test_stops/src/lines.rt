//! Command lines, and their effect.

use crate::asserts::{Host, got};
use gptimg_core::run;
use gptman::{Disk, Result};
use std::io;
use test_fixtures::calls::bytes_of;
use test_fixtures::samples::disk_of;
use test_fixtures::words::split;

/// Lines that read or change a table, or write the MBR, on an image with entry 1 used and entry 3 unused. The first
/// four only read.
pub(crate) const LINES: [&str; 15] = [
    "512 show",
    "auto show",
    "512 free 1",
    "auto free 1",
    "512 new V",
    "512 mbr plain",
    "512 mbr bootable",
    "512 add 3 T V 5 last 4 Bar",
    "auto add 3 T V 5 last 4 Bar",
    "512 remove 1",
    "auto remove 1",
    "512 sort",
    "auto sort",
    "512 grow",
    "auto grow",
];

/// Runs a line. Returns the status, or an error if the output failed.
pub(crate) fn try_line<D: Disk, W: io::Write>(
    rt: &impl Host,
    disk: &mut D,
    out: &mut W,
    line: &str,
) -> Result<u8> {
    let words = got(rt, split(rt.alloc(), line));
    run(rt.alloc(), &words, disk, out)
}

/// Runs a line. Returns the status and the output.
pub(crate) fn call_line<D: Disk>(rt: &impl Host, disk: &mut D, line: &str) -> (u8, Vec<u8>) {
    let mut printed = Vec::new(rt.alloc());
    let status = got(rt, try_line(rt, disk, &mut printed, line));
    (status, printed)
}

/// Runs a line, which must succeed.
pub(crate) fn do_line<D: Disk>(rt: &impl Host, disk: &mut D, line: &str) {
    assert!(rt; call_line(rt, disk, line).0 == 0, "{line}");
}

/// Makes a table with "Foo" in 34..43 on a disk of 100 zero sectors of 512 bytes.
pub(crate) fn make_foo<D: Disk>(rt: &impl Host, disk: &mut D) {
    do_line(rt, disk, "512 new F");
    do_line(rt, disk, "512 add 1 T U 10 first 1 Foo");
}

/// Returns the bytes of such a disk.
pub(crate) fn image_with_foo(rt: &impl Host) -> Vec<u8> {
    let mut disk = got(rt, disk_of(rt.alloc(), 0, 51_200));
    make_foo(rt, &mut disk);
    got(rt, bytes_of(rt.alloc(), &disk))
}
