//! Tests of the Rust crate, under their original names, on disks that are generated here.

use crate::asserts::{Host, got};
use crate::fixtures::{disk_1, disk_2, image_of, put};
use gptman::{GPT, GPTHeader};
use std::process::Abort;
use test_fixtures::samples::find_image;

mod alignment;
mod places;
mod reading;
mod writing;

// The texts of the tables of both disks, and of their backup copies.
const DISK_1: &str = "512 1/99/2 34..66 align 2, 1 Foo 34..43, 2 Bar 48..52";

const BACKUP_1: &str = "512 99/1/67 34..66 align 2, 1 Foo 34..43, 2 Bar 48..52";

const DISK_2: &str = "4096 1/99/2 6..94 align 2, 1 Foo 6..15, 2 Bar 70..79";

const BACKUP_2: &str = "4096 99/1/95 6..94 align 2, 1 Foo 6..15, 2 Bar 70..79";

// Writes the table to a disk and finds it again.
fn found_of(rt: &impl Host, table: &GPT) -> GPT {
    got(rt, find_image(rt.alloc(), &image_of(rt, table)))
}

// Returns the table that is found on the first disk.
fn first(rt: &impl Host) -> GPT {
    found_of(rt, &disk_1(rt))
}

// Returns the table that is found on the second disk.
fn second(rt: &impl Host) -> GPT {
    found_of(rt, &disk_2(rt))
}

// Puts the header of the table into sector 1 of the image, with the wrong checksum 1.
fn break_primary(rt: &impl Abort, image: &mut [u8], table: &GPT) {
    let header = GPTHeader {
        crc32_checksum: 1,
        ..table.header
    };
    let at = table.sector_size.min(4096) as usize;
    put(rt, image, at, &header.encode());
}
