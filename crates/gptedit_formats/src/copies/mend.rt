//! Finds one wrong byte by a checksum.
//!
//! CRC-32 is linear: the effect of a change on the checksum does not depend on the other bytes. So the difference of
//! two checksums is undone byte by byte, from the last one, until it is that of a change of one byte.

use gptman::crc::crc32;

/// A byte to change: its index, and the bits to flip.
#[derive(Clone, Copy)]
pub struct WrongByte {
    pub index: usize,
    pub bits: u8,
}

/// Returns the byte of a message of this length whose change turns the computed checksum into the stored one, if it is
/// the only such byte that is allowed.
pub fn find_wrong_byte<F: Fn(usize) -> bool>(
    len: usize,
    stored: u32,
    computed: u32,
    is_allowed: F,
) -> Option<WrongByte>
    requires { F.IsAlwaysCallable is_allowed }
{
    let tables = Tables::new();
    let mut change = stored ^ computed;
    let mut found = None;
    for index in (0..len).rev() {
        let bits = tables.bits_of(change);
        if tables.change_of(bits) == change && bits != 0 && is_allowed(index) {
            if found.is_some() {
                return None;
            }
            found = Some(WrongByte { index, bits });
        }
        change = (change ^ tables.change_of(bits)) << 8 | u32::from(bits);
    }
    found
}

// The effect of each change of the last byte on the checksum, and the change for each highest byte of an effect.
#[derive(Drop)]
struct Tables {
    changes: [u32; 256],
    bits: [u8; 256],
}

impl Tables {
    fn new() -> Tables {
        let none = crc32(&[0]);
        let mut tables = Tables {
            changes: [0; 256],
            bits: [0; 256],
        };
        for bits in 0..=u8::MAX {
            let change = crc32(&[bits]) ^ none;
            tables.changes[bits as usize] = change;
            tables.bits[(change >> 24) as usize] = bits;
        }
        tables
    }

    // Returns the effect of a change of the last byte on the checksum.
    fn change_of(&self, bits: u8) -> u32 {
        self.changes[bits as usize]
    }

    // Returns the change of the last byte whose effect has this highest byte.
    fn bits_of(&self, change: u32) -> u8 {
        self.bits[(change >> 24) as usize]
    }
}
