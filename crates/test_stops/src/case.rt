//! A write of a new table over an old one, and what is read after a crash or failure.

use crate::asserts::{Host, copied, got, read};
use gptman::{Fate, GPT, GPTHeader, Result};
use std::process::Abort;
use test_fixtures::samples::{put, read_image};

/// The offsets of both headers in bytes, in 100 sectors of 512 bytes.
pub(crate) const HEADERS: [usize; 2] = [512, 50_688];

/// A write of a new table over an image that holds the old one.
#[derive(Drop)]
pub(crate) struct Case {
    pub(crate) image: Vec<u8>,
    pub(crate) old: GPT,
    pub(crate) new: GPT,
}

// Returns the header in primary form, without checksums.
fn primary_form(header: &GPTHeader) -> GPTHeader {
    let entries = match (header.primary_lba, header.partition_entry_lba) {
        (1, sector) => sector,
        (_, sector) if header.last_usable_lba.checked_add(1) == Some(sector) => 2,
        _ => 0,
    };
    GPTHeader {
        primary_lba: header.primary_lba.min(header.backup_lba),
        backup_lba: header.primary_lba.max(header.backup_lba),
        partition_entry_lba: entries,
        crc32_checksum: 0,
        partition_entry_array_crc32: 0,
        ..*header
    }
}

/// Reports whether two values are one table, in any form: all entries are equal, and all fields of the header except
/// the checksums.
pub(crate) fn is_same_table(a: &GPT, b: &GPT) -> bool {
    a.sector_size == b.sector_size
        && a.iter().eq(b.iter())
        && primary_form(&a.header) == primary_form(&b.header)
}

/// Reads the table after the header at this byte is broken.
pub(crate) fn read_without(rt: &impl Host, bytes: &[u8], header: usize) -> Result<GPT> {
    let mut bytes = copied(rt, bytes);
    got(rt, put(&mut bytes, header, &[0; 8]));
    read_image(rt.alloc(), &bytes, 512)
}

// Asserts that the table is the old or the new one.
fn assert_one(rt: &impl Abort, case: &Case, table: &GPT) {
    assert!(rt; is_same_table(table, &case.old) || is_same_table(table, &case.new));
}

// Asserts the same of the copy that is read after the header at this byte is broken, if one is.
fn assert_one_without(rt: &impl Host, case: &Case, bytes: &[u8], header: usize) {
    if let Ok(table) = read_without(rt, bytes, header) {
        assert_one(rt, case, &table);
    }
}

/// Asserts that the disk is read as one of the two tables, and also each readable copy by itself.
pub(crate) fn assert_reads_one(rt: &impl Host, case: &Case, bytes: &[u8]) {
    assert_one(rt, case, &read(rt, bytes));
    for header in HEADERS {
        assert_one_without(rt, case, bytes, header);
    }
}

/// Returns one of three fates for all pending writes.
pub(crate) fn fate_of(number: u64) -> Fate {
    match number % 3 {
        0 => Fate::Old,
        1 => Fate::New,
        _ => Fate::Garbage(7),
    }
}

/// Returns the fates of up to six writes: `all`, but the write `torn`, if it is one of the six, is torn.
pub(crate) fn fates(all: Fate, torn: usize) -> [Fate; 6] {
    let mut fates = [all; 6];
    if let Some(fate) = fates.get_mut(torn) {
        *fate = Fate::Garbage(7);
    }
    fates
}
