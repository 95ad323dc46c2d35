//! The tables, disks and images of `test_fixtures`. A failure to make one ends the test.

use crate::asserts::{Host, assert_result, got};
use gptman::{Disk, GPT, GPTHeader, GPTPartitionEntry, MemoryDisk};
use std::process::Abort;
use test_fixtures::{calls, samples, tables};

/// Returns a disk of `len` bytes, each of them `byte`.
pub(crate) fn blank(rt: &impl Host, byte: u8, len: usize) -> MemoryDisk {
    got(rt, samples::disk_of(rt.alloc(), byte, len))
}

/// Returns a disk of these bytes.
pub(crate) fn holding(rt: &impl Host, bytes: &[u8]) -> MemoryDisk {
    got(rt, calls::holding(rt.alloc(), bytes))
}

/// Returns the bytes of a disk.
pub(crate) fn bytes_of(rt: &impl Host, disk: &MemoryDisk) -> Vec<u8> {
    got(rt, calls::bytes_of(rt.alloc(), disk))
}

/// Asserts that all bytes of the disk are `byte`.
pub(crate) fn assert_all(rt: &impl Abort, disk: &MemoryDisk, byte: u8) {
    assert!(rt; samples::are_all(disk.bytes(), byte));
}

/// Returns a new table for this disk.
pub(crate) fn new_table<D: Disk>(rt: &impl Host, disk: &mut D, sector_size: u64) -> GPT {
    got(rt, calls::new_on(rt.alloc(), disk, sector_size))
}

/// Returns a new header for 100 sectors of 512 bytes.
pub(crate) fn new_header(rt: &impl Host) -> GPTHeader {
    got(rt, samples::new_header(rt.alloc()))
}

/// Returns a used entry with this name, these sectors, and a GUID of 16 times this byte. Its type is 16 bytes 0a.
pub(crate) fn partition(
    rt: &impl Host,
    (name, guid): (&str, u8),
    (from, to): (u64, u64),
) -> GPTPartitionEntry {
    got(
        rt,
        tables::partition(rt.alloc(), name, [guid; 16], from, to),
    )
}

/// Puts such an entry under the number.
pub(crate) fn put_entry(
    rt: &impl Host,
    table: &mut GPT,
    number: u32,
    named: (&str, u8),
    sectors: (u64, u64),
) {
    got(
        rt,
        samples::put_entry(rt.alloc(), table, number, named, sectors),
    );
}

/// Removes the entry of this number.
pub(crate) fn remove(rt: &impl Abort, table: &mut GPT, number: u32) {
    got(rt, calls::remove(table, number));
}

/// Returns a table for 100 sectors of 512 bytes, with "Foo" in 34..43 and "Bar" in 48..52.
pub(crate) fn disk_1(rt: &impl Host) -> GPT {
    got(rt, samples::disk_1(rt.alloc()))
}

/// Returns a table for 100 sectors of 4096 bytes, with "Foo" in 6..15 and "Bar" in 70..79.
pub(crate) fn disk_2(rt: &impl Host) -> GPT {
    got(rt, samples::disk_2(rt.alloc()))
}

/// Writes the table. Returns the other header.
pub(crate) fn write<D: Disk>(rt: &impl Abort, table: &mut GPT, disk: &mut D) -> GPTHeader {
    got(rt, tables::write(table, disk))
}

/// Returns the bytes of a zero disk of 100 sectors after the table was written to it.
pub(crate) fn image_of(rt: &impl Host, table: &GPT) -> Vec<u8> {
    got(rt, samples::image_with(rt.alloc(), table))
}

/// Returns 100 sectors of 512 bytes, all of them `byte`, after a new table was written to them.
pub(crate) fn image_of_new(rt: &impl Host, byte: u8) -> Vec<u8> {
    got(rt, samples::image_of_new(rt.alloc(), byte))
}

/// Returns the table in these bytes.
pub(crate) fn read(rt: &impl Host, bytes: &[u8], sector_size: u64) -> GPT {
    got(rt, samples::read_image(rt.alloc(), bytes, sector_size))
}

/// Returns the table on this disk, with sectors of 512 bytes.
pub(crate) fn read_from<D: Disk>(rt: &impl Host, disk: &mut D) -> GPT {
    got(rt, tables::read(rt.alloc(), disk, 512))
}

/// Writes the table to a disk of 100 sectors and reads it back.
pub(crate) fn reread(rt: &impl Host, table: &GPT) -> GPT {
    read(rt, &image_of(rt, table), table.sector_size)
}

/// Asserts that reading these bytes returns a table or an error of this text.
pub(crate) fn assert_reads(rt: &impl Host, bytes: &[u8], sector_size: u64, said: &str) {
    assert_result(
        rt,
        &samples::read_image(rt.alloc(), bytes, sector_size),
        said,
    );
}

/// Asserts that reading these bytes and detecting the sector size returns a table or an error of this text.
pub(crate) fn assert_finds(rt: &impl Host, bytes: &[u8], said: &str) {
    assert_result(rt, &samples::find_image(rt.alloc(), bytes), said);
}

/// Overwrites bytes from `at` on.
pub(crate) fn put(rt: &impl Abort, bytes: &mut [u8], at: usize, over: &[u8]) {
    got(rt, samples::put(bytes, at, over));
}

/// Complements the byte at `at`.
pub(crate) fn complement(rt: &impl Abort, bytes: &mut [u8], at: usize) {
    assert!(rt; at < bytes.len());
    bytes[at] = !bytes[at];
}
