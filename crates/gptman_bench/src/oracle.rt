//! A second reader of images, slow and written only from the format: the checksum bit by bit, and field after field.
//! The library is compared with it.

use crate::asserts::{Host, got};
use gptman::{Error, GPT};
use test_fixtures::samples::read_image;
use test_fixtures::texts;

// Returns `len` bytes from `at` on, if there are as many.
fn part(bytes: &[u8], at: u128, len: u128) -> Option<&[u8]> {
    let start = usize::try_from(at).ok()?;
    let end = usize::try_from(at.checked_add(len)?).ok()?;
    bytes.get(start..end)
}

// Decodes a little-endian number.
fn number(bytes: &[u8]) -> u64 {
    let mut number = 0_u64;
    for byte in bytes.iter().rev() {
        number = number.wrapping_mul(256) | u64::from(*byte);
    }
    number
}

// Decodes a little-endian number of up to four bytes.
fn small(bytes: &[u8]) -> u32 {
    u32::try_from(number(bytes)).unwrap_or(u32::MAX)
}

// Advances the register of the checksum by one bit.
fn bit_later(register: u32) -> u32 {
    let half = register / 2;
    if register % 2 == 1 {
        half ^ 0xedb8_8320
    } else {
        half
    }
}

/// Returns the CRC-32 of the bytes, computed bit by bit.
pub(crate) fn slow_checksum(bytes: &[u8]) -> u32 {
    let mut register = u32::MAX;
    for byte in bytes {
        register ^= u32::from(*byte);
        for _ in 0..8_u8 {
            register = bit_later(register);
        }
    }
    !register
}

/// Returns the checksum of a header, with its own field as zero.
pub(crate) fn header_checksum(header: &[u8; 92]) -> u32 {
    let mut bytes = *header;
    bytes[16..20].fill(0);
    slow_checksum(&bytes)
}

fn text_of(rt: &impl Host, error: &Error) -> String {
    got(rt, texts::text_of(rt.alloc(), error))
}

// Returns the first fault of the header in these bytes, if any.
fn header_fault(header: &[u8; 92]) -> Option<Error> {
    if !header.starts_with(b"EFI PART") {
        return Some(Error::InvalidSignature);
    }
    if !header[8..].starts_with(&[0, 0, 1, 0]) {
        return Some(Error::InvalidRevision);
    }
    if number(&header[12..16]) != 92 {
        return Some(Error::InvalidHeaderSize);
    }
    let stored = small(&header[16..20]);
    let computed = header_checksum(header);
    if stored != computed {
        return Some(Error::InvalidChecksum(stored, computed));
    }
    None
}

// The error of a read past the end.
fn past_end() -> Error {
    Error::Io(std::io::Error::other("past the end"))
}

// Returns the entries to which the header refers, or their fault.
fn entries_of<'a>(bytes: &'a [u8], header: &[u8; 92], sector_size: u64) -> Result<&'a [u8], Error> {
    let count = u128::from(number(&header[80..84]));
    let size = small(&header[84..88]);
    if count > 0 && size != 128 {
        return Err(Error::InvalidPartitionEntrySize(size));
    }
    let start = u128::from(number(&header[72..80])) * u128::from(sector_size);
    if count > 0 && start > u128::from(u64::MAX) {
        return Err(Error::Overflow);
    }
    let start = if count > 0 { start } else { 0 };
    let Some(entries) = part(bytes, start, 128 * count) else {
        return Err(past_end());
    };
    let stored = small(&header[88..92]);
    let computed = slow_checksum(entries);
    if stored != computed {
        return Err(Error::InvalidPartitionEntryArrayChecksum(stored, computed));
    }
    Ok(entries)
}

// Returns the header and entries of the copy at this byte as hex text, or its fault.
fn copy(rt: &impl Host, bytes: &[u8], at: u64, sector_size: u64) -> Result<String, Error> {
    let Some(found) = part(bytes, u128::from(at), 92) else {
        return Err(past_end());
    };
    assert!(rt; found.len() == 92);
    let mut header = [0; 92];
    header.copy_from_slice(found);
    if let Some(fault) = header_fault(&header) {
        return Err(fault);
    }
    match entries_of(bytes, &header, sector_size) {
        Ok(entries) => Ok(hex_of(rt, &header, entries)),
        Err(fault) => Err(fault),
    }
}

fn hex_of(rt: &impl Host, header: &[u8; 92], entries: &[u8]) -> String {
    let mut text = got(rt, hex::encode(rt.alloc(), header));
    let more = got(rt, hex::encode(rt.alloc(), entries));
    got(rt, text.push_str(more.as_str()));
    text
}

// Returns the expected text of a read: the accepted copy, or the error.
fn expected(rt: &impl Host, bytes: &[u8], sector_size: u64) -> String {
    match copy(rt, bytes, sector_size, sector_size) {
        Ok(copy) => copy,
        Err(primary) => fallback(rt, bytes, sector_size, &primary),
    }
}

// Returns the same if the primary copy has this fault. A disk shorter than a sector has no backup place.
fn fallback(rt: &impl Host, bytes: &[u8], sector_size: u64, primary: &Error) -> String {
    let sectors = (bytes.len() as u64)
        .checked_div(sector_size)
        .unwrap_or_default();
    let Some(last) = sectors.checked_sub(1) else {
        return text_of(rt, &Error::InvalidSignature);
    };
    match copy(rt, bytes, last.saturating_mul(sector_size), sector_size) {
        Ok(copy) => copy,
        Err(backup) => two_faults(rt, primary, &backup),
    }
}

// Returns the text of the error if both copies have a fault.
fn two_faults(rt: &impl Host, primary: &Error, backup: &Error) -> String {
    if matches!(primary, Error::InvalidSignature) && matches!(backup, Error::InvalidSignature) {
        return text_of(rt, primary);
    }
    let said = format!(in rt.alloc();
        "could not read primary header ({primary}) nor backup header ({backup})"
    );
    got(rt, said)
}

// Returns the text of a table, as header and entries in hex.
fn text_of_table(rt: &impl Host, table: &GPT) -> String {
    let mut entries = Vec::new(rt.alloc());
    for (_, entry) in table.iter() {
        got(rt, entries.extend_from_slice(&entry.encode()));
    }
    hex_of(rt, &table.header.encode(), &entries)
}

// Returns the text of the library's result.
fn read(rt: &impl Host, bytes: &[u8], sector_size: u64) -> String {
    match read_image(rt.alloc(), bytes, sector_size) {
        Ok(table) => text_of_table(rt, &table),
        Err(error) => text_of(rt, &error),
    }
}

/// Reports whether the library reads these bytes like the second reader. `sector_size` must not be 0.
pub(crate) fn is_read_alike(rt: &impl Host, bytes: &[u8], sector_size: u64) -> bool {
    let wanted = expected(rt, bytes, sector_size);
    read(rt, bytes, sector_size).as_str() == wanted.as_str()
}
