//! Numbers and byte ranges at offsets of a record. Numbers are little endian.

ghost use Rattle.std.specs.Prelude.{◌≡◌, ◌+◌, ◌^◌, ◌<◌, ◌≤◌, ◌++◌, length, take, drop, slice_range};
ghost use Rattle.byteorder.specs.Endian.{little_bytes};
ghost use Rattle.gptman_disk.specs.Bytes.{le, AreBytes};

use byteorder::{ByteOrder, LittleEndian};

/// Does nothing. Its contract states that the elements of a byte slice are bytes.
pub(crate) fn note_bytes(bytes: &[u8])
    ensures { AreBytes bytes.now }
{}

/// Overwrites the bytes from offset `at` with `part`.
pub fn put(bytes: &mut [u8], at: usize, part: &[u8])
    requires { at + length part.now ≤ length bytes.old }
    ensures { bytes.new ≡ take at bytes.old ++ (part.now ++ drop (at + length part.now) bytes.old) }
{
    bytes[at..at + part.len()].copy_from_slice(part);
}

/// Writes a number into the 2 bytes at offset `at`.
pub(crate) fn put_u16(bytes: &mut [u8], at: usize, number: u16)
    requires { at + 2 ≤ length bytes.old }
    ensures written { bytes.new ≡ take at bytes.old ++ (little_bytes 2 number ++ drop (at + 2) bytes.old) }
    ensures in_range { number < 2 ^ 16 }
{
    LittleEndian::write_u16(&mut bytes[at..at + 2], number);
}

/// Writes a number into the 4 bytes at offset `at`.
pub fn put_u32(bytes: &mut [u8], at: usize, number: u32)
    requires { at + 4 ≤ length bytes.old }
    ensures written { bytes.new ≡ take at bytes.old ++ (little_bytes 4 number ++ drop (at + 4) bytes.old) }
    ensures in_range { number < 2 ^ 32 }
{
    LittleEndian::write_u32(&mut bytes[at..at + 4], number);
}

/// Writes a number into the 8 bytes at offset `at`.
pub(crate) fn put_u64(bytes: &mut [u8], at: usize, number: u64)
    requires { at + 8 ≤ length bytes.old }
    ensures written { bytes.new ≡ take at bytes.old ++ (little_bytes 8 number ++ drop (at + 8) bytes.old) }
    ensures in_range { number < 2 ^ 64 }
{
    LittleEndian::write_u64(&mut bytes[at..at + 8], number);
}

/// Returns the `N` bytes at offset `at`.
pub(crate) fn part_at<const N: usize>(bytes: &[u8], at: usize) -> [u8; N]
    requires { at + N ≤ length bytes.now }
    ensures { result ≡ slice_range bytes.now at (at + N) }
{
    let mut part = [0; N];
    part.copy_from_slice(&bytes[at..at + N]);
    part
}

/// Returns the number in the 2 bytes at offset `at`.
pub(crate) fn u16_at(bytes: &[u8], at: usize) -> u16
    requires { at + 2 ≤ length bytes.now }
    ensures { result ≡ le (slice_range bytes.now at (at + 2)) }
{
    LittleEndian::read_u16(&part_at::<2>(bytes, at))
}

/// Returns the number in the 4 bytes at offset `at`.
pub(crate) fn u32_at(bytes: &[u8], at: usize) -> u32
    requires { at + 4 ≤ length bytes.now }
    ensures { result ≡ le (slice_range bytes.now at (at + 4)) }
{
    LittleEndian::read_u32(&part_at::<4>(bytes, at))
}

/// Returns the number in the 8 bytes at offset `at`.
pub(crate) fn u64_at(bytes: &[u8], at: usize) -> u64
    requires { at + 8 ≤ length bytes.now }
    ensures { result ≡ le (slice_range bytes.now at (at + 8)) }
{
    LittleEndian::read_u64(&part_at::<8>(bytes, at))
}
