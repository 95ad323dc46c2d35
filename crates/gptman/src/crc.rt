//! CRC-32 (ISO-HDLC), the checksum of the header and of the entry array.
//!
//! Eight bytes at a time go through a register of 32 bits with eight tables of 256 words; the remaining bytes,
//! one by one, use only the first table. This module does not know the format, and does not allocate.

ghost use Rattle.std.specs.Prelude.{◌≡◌, ◌<◌, ◌*◌, suc, ℕ, List, [], ◌++◌, fold};
ghost use Rattle.gptman.specs.Crc.{crc_of};
ghost use Rattle.gptman.specs.Register.{steps, with_byte, with_message, HasTaken};

mod table;

use byteorder::{ByteOrder, LittleEndian};
use table::TABLES;

/// Returns the CRC-32 of the bytes, in the ISO-HDLC form that the GPT format uses: polynomial 0x04C11DB7,
/// lowest bit of a byte first, the register all ones at the start and complemented at the end. The CRC-32 of
/// the text "123456789" is 0xCBF43926.
pub fn crc32(bytes: &[u8]) -> u32
    ensures { result ≡ crc_of bytes.now }
{
    !take_in_all(u32::MAX, bytes)
}

/// A checksum of a message that arrives in pieces.
#[derive(Clone, Copy)]
pub(crate) struct Checksum {
    register: u32,
}

impl Checksum {
    /// Begins a checksum, of no bytes so far.
    pub(crate) fn new() -> Self
        ensures { HasTaken result [] }
    {
        Checksum { register: u32::MAX }
    }

    /// Adds bytes to the message.
    pub(crate) fn update(&mut self, bytes: &[u8])
        ensures { (m : List ℕ) → HasTaken self.old m → HasTaken self.new (m ++ bytes.now) }
    {
        self.register = take_in_all(self.register, bytes);
    }

    /// Returns the checksum of all bytes that were added.
    pub(crate) fn finish(self) -> u32
        ensures { (m : List ℕ) → HasTaken self m → result ≡ crc_of m }
    {
        !self.register
    }
}

// Returns the register after these bytes.
fn take_in_all(register: u32, bytes: &[u8]) -> u32
    ensures { result ≡ with_message register bytes.now }
{
    let (blocks, rest) = bytes.as_chunks::<8>();
    take_in_bytes(take_in_blocks(register, blocks), rest)
}

// Returns the register after these blocks, of eight bytes each.
fn take_in_blocks(mut register: u32, blocks: &[[u8; 8]]) -> u32
    ensures { result ≡ fold with_message register blocks.now }
{
    for block in blocks {
        register = take_in_block(register, block);
    }
    register
}

// Returns the register after these bytes, one by one.
fn take_in_bytes(mut register: u32, bytes: &[u8]) -> u32
    ensures { result ≡ with_message register bytes.now }
{
    for byte in bytes {
        register = take_in_byte(register, *byte);
    }
    register
}

// Returns the register after eight bytes. The register is linear over XOR, so each byte contributes a word of
// its own; the previous register affects only the first four bytes.
fn take_in_block(register: u32, block: &[u8; 8]) -> u32
    ensures { result ≡ with_message register block.now }
{
    let [a, b, c, d, e, f, g, h] = *block;
    let sum = LittleEndian::read_u32(&[a, b, c, d]) ^ register;
    let [a, b, c, d] = sum.to_le_bytes();
    let behind = word(3, e) ^ word(2, f) ^ word(1, g) ^ word(0, h);
    behind ^ word(7, a) ^ word(6, b) ^ word(5, c) ^ word(4, d)
}

// Returns the register after one byte.
fn take_in_byte(register: u32, byte: u8) -> u32
    ensures { result ≡ with_byte register byte }
{
    let index = (register ^ u32::from(byte)) & 0xff;
    word(0, index as u8) ^ (register >> 8)
}

// Returns a zero register after this byte and `followers` zero bytes.
fn word(followers: usize, byte: u8) -> u32
    requires { followers < 8 }
    ensures { result ≡ steps (8 * suc followers) byte }
{
    TABLES[followers][byte as usize]
}
