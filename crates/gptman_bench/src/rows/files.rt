//! Tests of `FileDisk`. Each has its own file in the current folder.

use crate::asserts::{Host, assert_said, assert_same, assert_shown, got};
use crate::fixtures::{image_of_new, new_table, put_entry, read_from, write};
use gptman::{Disk, FileDisk, GPT, Result};
use std::fs;
use std::fs::File;
use std::process::Abort;
use std::rt::Files;
use test_fixtures::samples::{are_all, put_mbr, write_mbr};
use test_fixtures::tables;

// The traits that tests of files need.
trait FileHost: Abort + Files<File = File> + AllocGlobal {}

impl<R: Abort + Files<File = File> + AllocGlobal> FileHost for R {}

// Makes a file of `len` bytes, each of them 2.
fn make_file(rt: &impl FileHost, path: &str, len: usize) {
    let bytes = got(rt, vec![in rt.alloc(); 2_u8; len]);
    got(rt, fs::write(rt, path, bytes.as_slice()));
}

// Opens a disk over a file, for reading only or also for writing.
fn opened(rt: &impl FileHost, path: &str, is_read: bool) -> Result<FileDisk> {
    if is_read {
        FileDisk::open_read(rt, path)
    } else {
        FileDisk::open(rt, path)
    }
}

// Opens a disk over an existing file.
fn disk_over(rt: &impl FileHost, path: &str, is_read: bool) -> FileDisk {
    got(rt, opened(rt, path, is_read))
}

// Writes a new table to the file.
fn write_new(rt: &impl FileHost, path: &str) -> GPT {
    let mut disk = disk_over(rt, path, false);
    let mut table = new_table(rt, &mut disk, 512);
    assert!(rt; write(rt, &mut table, &mut disk).primary_lba == 99);
    assert_same(rt, &read_from(rt, &mut disk), &table);
    table
}

// Asserts that the file holds the table, and these bytes.
fn assert_holds(rt: &impl FileHost, path: &str, table: &GPT, bytes: &[u8]) {
    let mut disk = disk_over(rt, path, true);
    assert_same(rt, &read_from(rt, &mut disk), table);
    assert!(rt; got(rt, fs::read(rt, path)).as_slice() == bytes);
}

fn remove_file(rt: &impl FileHost, path: &str) {
    got(rt, fs::remove_file(rt, path));
}

#[test]
fn a_table_is_written_to_a_file_and_read_back(rt: HostRuntime) {
    let path = "written.img";
    make_file(&rt, path, 51_200);
    let table = write_new(&rt, path);
    assert_holds(&rt, path, &table, &image_of_new(&rt, 2));
    remove_file(&rt, path);
}

// Reads from byte `at` of the disk, and returns whether all bytes are 2.
fn reads_from(disk: &mut FileDisk, at: u64, buf: &mut [u8]) -> Result<bool> {
    disk.seek_start(at)?;
    disk.read_exact(buf)?;
    Ok(are_all(buf, 2))
}

// Asserts that the disk has 51,201 bytes, and that a read past the last one fails.
fn assert_odd_length(rt: &impl FileHost, path: &str, is_read: bool) {
    let mut disk = disk_over(rt, path, is_read);
    assert!(rt; got(rt, disk.seek_end()) == 51_201);
    assert!(rt; reads_from(&mut disk, 51_199, &mut [0; 3]).is_err());
    assert!(rt; got(rt, reads_from(&mut disk, 51_199, &mut [0; 2])));
    got(rt, disk.sync());
}

#[test]
fn a_file_has_the_bytes_past_its_last_whole_sector(rt: HostRuntime) {
    let path = "odd.img";
    make_file(&rt, path, 51_201);
    assert_odd_length(&rt, path, false);
    assert_odd_length(&rt, path, true);
    remove_file(&rt, path);
}

// Asserts that a new table cannot be written to a file that is open for reading.
fn assert_not_written(rt: &impl FileHost, path: &str) {
    let mut disk = disk_over(rt, path, true);
    let mut table = new_table(rt, &mut disk, 512);
    assert_said(
        rt,
        &tables::write(&mut table, &mut disk),
        "generic I/O error",
    );
    assert!(rt; are_all(&got(rt, fs::read(rt, path)), 2));
}

#[test]
fn a_file_that_is_open_for_reading_is_not_written(rt: HostRuntime) {
    let path = "kept.img";
    make_file(&rt, path, 51_200);
    assert_not_written(&rt, path);
    remove_file(&rt, path);
}

#[test]
fn a_file_that_is_not_there_is_not_opened(rt: HostRuntime) {
    let path = "missing.img";
    assert_said(&rt, &opened(&rt, path, false), "generic I/O error");
    assert_said(&rt, &opened(&rt, path, true), "generic I/O error");
    assert!(rt; fs::read(&rt, path).is_err());
}

// Returns the disk over a sparse file of `len` zero bytes.
fn long_disk(rt: &impl FileHost, path: &str, len: u64) -> FileDisk {
    let file = got(rt, fs::create(rt, path));
    got(rt, file.set_len(len));
    disk_over(rt, path, false)
}

// Returns the first 1024 bytes of the disk.
fn first_bytes(rt: &impl Abort, disk: &mut FileDisk) -> [u8; 1024] {
    let mut bytes = [0; 1024];
    got(rt, disk.seek_start(0));
    got(rt, disk.read_exact(&mut bytes));
    bytes
}

// Asserts that the MBR of a disk of `len` bytes has this number of sectors.
fn assert_counted(rt: &impl FileHost, path: &str, len: u64, count: u32) {
    let mut disk = long_disk(rt, path, len);
    got(rt, write_mbr(&mut disk, 512, false));
    let mut wanted = [0; 1024];
    got(rt, put_mbr(&mut wanted, false, count));
    assert!(rt; first_bytes(rt, &mut disk) == wanted, "{len} bytes");
    remove_file(rt, path);
}

#[test]
fn an_mbr_counts_sectors_up_to_32_bits(rt: HostRuntime) {
    assert_counted(&rt, "counted.img", 2_199_023_255_040, 0xffff_fffe);
    assert_counted(&rt, "counted.img", 2_199_023_255_552, 0xffff_ffff);
    assert_counted(&rt, "counted.img", 4_398_046_511_104, 0xffff_ffff);
}

// Writes a new table with an entry in these sectors.
fn write_with_foo(rt: &impl Host, disk: &mut FileDisk, sectors: (u64, u64)) {
    let mut table = new_table(rt, disk, 512);
    put_entry(rt, &mut table, 1, ("Foo", 1), sectors);
    write(rt, &mut table, disk);
}

#[test]
fn a_table_is_written_past_32_bits_of_sectors(rt: HostRuntime) {
    let mut disk = long_disk(&rt, "long.img", 4_398_046_511_104);
    write_with_foo(&rt, &mut disk, (8_589_918_208, 8_589_934_558));
    let said = "512 1/8589934591/2 34..8589934558 align 16384, 1 Foo 8589918208..8589934558";
    assert_shown(&rt, &read_from(&rt, &mut disk), said);
    got(&rt, tables::write_at(&mut disk, 512, &[0; 8]));
    let said = "512 8589934591/1/8589934559 34..8589934558 align 16384, \
        1 Foo 8589918208..8589934558";
    assert_shown(&rt, &read_from(&rt, &mut disk), said);
    remove_file(&rt, "long.img");
}
