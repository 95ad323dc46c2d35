//! Tests of writing.

use super::{BACKUP_1, BACKUP_2, DISK_1, DISK_2, break_primary, first, second};
use crate::asserts::{BOUNDARIES, Host, assert_said, assert_same, got};
use crate::fixtures::{
    assert_all, assert_reads, blank, bytes_of, holding, image_of, put_entry, read, remove, write,
};
use gptman::GPT;
use std::process::Abort;
use test_fixtures::calls::has_bytes;
use test_fixtures::samples::{image_on, put_mbr, write_mbr};
use test_fixtures::tables;

// Asserts that the image is read with the first text, and with the second after its primary header is broken.
fn assert_both(rt: &impl Host, image: &mut [u8], sector_size: u64, said: (&str, &str)) {
    assert_reads(rt, image, sector_size, said.0);
    let read = read(rt, image, sector_size);
    break_primary(rt, image, &read);
    assert_reads(rt, image, sector_size, said.1);
}

// Writes the table and asserts the texts of its copies.
fn assert_written(rt: &impl Host, table: &GPT, said: (&str, &str)) {
    assert_both(rt, &mut image_of(rt, table), table.sector_size, said);
}

#[test]
fn write_from_primary(rt: HostRuntime) {
    assert_written(&rt, &first(&rt), (DISK_1, BACKUP_1));
    assert_written(&rt, &second(&rt), (DISK_2, BACKUP_2));
}

// Asserts the same of the table without its first entry.
fn assert_changed(rt: &impl Host, mut table: GPT, said: (&str, &str)) {
    remove(rt, &mut table, 1);
    assert_written(rt, &table, said);
}

#[test]
fn write_with_changes(rt: HostRuntime) {
    let said = (
        "512 1/99/2 34..66 align 48, 2 Bar 48..52",
        "512 99/1/67 34..66 align 48, 2 Bar 48..52",
    );
    assert_changed(&rt, first(&rt), said);
    let said = (
        "4096 1/99/2 6..94 align 70, 2 Bar 70..79",
        "4096 99/1/95 6..94 align 70, 2 Bar 70..79",
    );
    assert_changed(&rt, second(&rt), said);
}

// Returns an image of the table with a broken primary header.
fn broken(rt: &impl Host, table: &GPT) -> Vec<u8> {
    let mut image = image_of(rt, table);
    break_primary(rt, &mut image, table);
    image
}

// Reads the backup copy of these bytes and writes the table to both places.
fn restored(rt: &impl Host, image: &[u8], sector_size: u64) -> Vec<u8> {
    let mut table = read(rt, image, sector_size);
    assert!(rt; table.is_backup() && !table.is_primary());
    let mut disk = holding(rt, image);
    let header = write(rt, &mut table, &mut disk);
    assert!(rt; header.is_primary() && !header.is_backup());
    bytes_of(rt, &disk)
}

// Asserts that the table is then read back unchanged.
fn assert_restored(rt: &impl Host, table: &GPT, said: (&str, &str)) {
    let mut image = restored(rt, &broken(rt, table), table.sector_size);
    assert_same(rt, &read(rt, &image, table.sector_size), table);
    assert_both(rt, &mut image, table.sector_size, said);
}

#[test]
fn write_from_backup(rt: HostRuntime) {
    assert_restored(&rt, &first(&rt), (DISK_1, BACKUP_1));
    assert_restored(&rt, &second(&rt), (DISK_2, BACKUP_2));
}

// Asserts that the table is not written if this entry has these sectors.
fn assert_not_written(rt: &impl Host, mut table: GPT, number: u8, sectors: (u64, u64)) {
    let entry = ("Foo", 0x0a + number % 100);
    put_entry(rt, &mut table, u32::from(number), entry, sectors);
    let mut disk = blank(rt, 2, 409_600);
    assert_said(rt, &tables::write(&mut table, &mut disk), BOUNDARIES);
    assert_all(rt, &disk, 2);
}

#[test]
fn write_invalid_boundaries(rt: HostRuntime) {
    for (number, sectors) in [(1, (33, 43)), (1, (43, 34)), (1, (34, 48)), (2, (48, 67))] {
        assert_not_written(&rt, first(&rt), number, sectors);
    }
    for (number, sectors) in [(1, (5, 15)), (1, (15, 6)), (1, (6, 70)), (2, (70, 95))] {
        assert_not_written(&rt, second(&rt), number, sectors);
    }
    assert_written(&rt, &first(&rt), (DISK_1, BACKUP_1));
    assert_written(&rt, &second(&rt), (DISK_2, BACKUP_2));
}

// Asserts that the table is written to a disk of `len` bytes and read back equal.
fn assert_on_bigger_disk(rt: &impl Host, mut table: GPT, len: usize) {
    let image = got(rt, image_on(rt.alloc(), 0, len, &mut table));
    assert_same(rt, &read(rt, &image, table.sector_size), &table);
}

#[test]
fn read_from_smaller_disk_and_write_to_bigger_disk(rt: HostRuntime) {
    assert_on_bigger_disk(&rt, first(&rt), 102_400);
    assert_on_bigger_disk(&rt, second(&rt), 819_200);
}

// Asserts that a protective MBR changes only its 66 bytes.
fn assert_mbr(rt: &impl Host, sector_size: u16) {
    let mut disk = blank(rt, 2, 100 * usize::from(sector_size));
    let mut wanted = bytes_of(rt, &disk);
    got(rt, put_mbr(&mut wanted, false, 99));
    got(rt, write_mbr(&mut disk, u64::from(sector_size), false));
    assert!(rt; has_bytes(&disk, &wanted));
}

#[test]
fn writing_protective_mbr(rt: HostRuntime) {
    assert_mbr(&rt, 512);
    assert_mbr(&rt, 4096);
}
