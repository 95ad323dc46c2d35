//! Images that are damaged, cut, zeroed or crafted, each read by the library and by the second reader.

use crate::asserts::{Host, got};
use crate::fixtures::{assert_reads, blank, bytes_of, complement, new_header, partition, put};
use crate::oracle::{header_checksum, is_read_alike};
use gptman::{GPTHeader, GPTPartitionEntry, MemoryDisk};
use std::process::Abort;
use test_fixtures::tables::write_copy;

// The offsets of both headers, in bytes, in 40 sectors of 512 bytes.
const HEADERS: [usize; 2] = [512, 19_968];

// Returns four entries, two of them used.
fn four_entries(rt: &impl Host) -> Vec<GPTPartitionEntry> {
    let mut entries = Vec::new(rt.alloc());
    for (name, sectors) in [(("Foo", 0x0b), (5, 9)), (("Bar", 0x0c), (12, 20))] {
        got(rt, entries.push(partition(rt, name, sectors)));
        got(rt, entries.push(GPTPartitionEntry::empty(rt.alloc())));
    }
    entries
}

// Writes a copy of the table. `own`, `other` and `entries` are the sectors of its header, the other header and its
// entries.
fn write_one(rt: &impl Host, disk: &mut MemoryDisk, own: u64, other: u64, entries: u64) {
    let mut header = GPTHeader {
        primary_lba: own,
        backup_lba: other,
        partition_entry_lba: entries,
        first_usable_lba: 3,
        last_usable_lba: 35,
        number_of_partition_entries: 4,
        ..new_header(rt)
    };
    got(rt, write_copy(&mut header, disk, 512, &four_entries(rt)));
}

// Returns an image with both copies.
fn image(rt: &impl Host) -> Vec<u8> {
    let mut disk = blank(rt, 0, 20_480);
    write_one(rt, &mut disk, 1, 39, 2);
    write_one(rt, &mut disk, 39, 1, 36);
    bytes_of(rt, &disk)
}

// Asserts that both readers agree on these bytes.
fn agree(rt: &impl Host, bytes: &[u8], what: &str, at: usize) {
    assert!(rt; is_read_alike(rt, bytes, 512), "{what} at {at}");
}

// Asserts that both readers agree on the image with the byte at `at` complemented, also with one of the headers broken.
// The image is unchanged at the end.
fn agree_damaged(rt: &impl Host, image: &mut [u8], at: usize) {
    complement(rt, image, at);
    agree(rt, image, "damaged", at);
    for header in HEADERS {
        complement(rt, image, header);
        agree(rt, image, "damaged twice", at);
        complement(rt, image, header);
    }
    complement(rt, image, at);
}

// Asserts the same for `len` bytes from `start` on.
fn agree_all_damaged(rt: &impl Host, image: &mut [u8], start: usize, len: usize) {
    for at in start..start.saturating_add(len) {
        agree_damaged(rt, image, at);
    }
}

// Damages each byte of both copies, and the byte after each range.
#[test]
fn damaged_copies_are_read_alike(rt: HostRuntime) {
    let mut image = image(&rt);
    let said = "512 1/39/2 3..35 align 1, 1 Foo 5..9, 3 Bar 12..20";
    assert_reads(&rt, &image, 512, said);
    for (start, len) in [(512, 93), (19_968, 93), (1024, 513), (18_432, 513)] {
        agree_all_damaged(&rt, &mut image, start, len);
    }
}

// Complements this byte of a header and corrects the checksum.
fn craft(rt: &impl Abort, header: &mut [u8; 92], at: usize) {
    complement(rt, header, at);
    let checksum = header_checksum(header);
    put(rt, header, 16, &checksum.to_le_bytes());
}

// Returns the header at `start`, with a byte crafted.
fn crafted(rt: &impl Abort, image: &[u8], start: usize, at: usize) -> [u8; 92] {
    let mut header = [0; 92];
    for (byte, old) in header.iter_mut().zip(image.iter().skip(start)) {
        *byte = *old;
    }
    craft(rt, &mut header, at);
    header
}

// Asserts that both readers agree on the image with a byte of header `own` crafted, also with header `other` broken.
fn agree_crafted(rt: &impl Host, (own, other): (usize, usize), at: usize) {
    let mut bytes = image(rt);
    let header = crafted(rt, &bytes, own, at);
    put(rt, &mut bytes, own, &header);
    agree(rt, &bytes, "crafted", at);
    complement(rt, &mut bytes, other);
    agree(rt, &bytes, "crafted alone", at);
}

#[test]
fn crafted_headers_are_read_alike(rt: HostRuntime) {
    for at in 0..92 {
        agree_crafted(&rt, (512, 19_968), at);
        agree_crafted(&rt, (19_968, 512), at);
    }
}

// Asserts that both readers agree on the image, cut near this byte.
fn agree_cut(rt: &impl Host, image: &[u8], end: usize) {
    for len in end.saturating_sub(4)..end.saturating_add(4) {
        agree(rt, image.get(..len).unwrap_or(image), "cut", len);
    }
}

#[test]
fn cut_images_are_read_alike(rt: HostRuntime) {
    let image = image(&rt);
    for end in [
        4, 512, 604, 1024, 1536, 18_432, 18_944, 19_968, 20_060, 20_480,
    ] {
        agree_cut(&rt, &image, end);
    }
}

// Asserts that both readers agree on the image with these two sectors zeroed.
fn agree_zeroed(rt: &impl Host, image: &[u8], sectors: (u16, u16)) {
    let mut bytes = got(rt, image.to_vec(rt.alloc()));
    put(rt, &mut bytes, 512 * usize::from(sectors.0), &[0; 512]);
    put(rt, &mut bytes, 512 * usize::from(sectors.1), &[0; 512]);
    agree(rt, &bytes, "zeroed", usize::from(sectors.0));
}

#[test]
fn zeroed_images_are_read_alike(rt: HostRuntime) {
    let image = image(&rt);
    for first in 0..40_u16 {
        for second in [first, 1, 39] {
            agree_zeroed(&rt, &image, (first, second));
        }
    }
}
