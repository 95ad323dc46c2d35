//! Reads bytes of a disk, and numbers in them.

ghost use Rattle.std.specs.Prelude.{◌≡◌, ◌≤◌, ◌+◌, get_or, length};
ghost use Rattle.gptman.specs.Answers.{HasCause};
ghost use Rattle.gptman.specs.Disk.{Reads};

use gptman::{Disk, Result};
use std::alloc::Global;

/// Reads `length` bytes from `at`, or fewer if the disk ends before.
///
/// # Errors
/// `Io` if the disk fails, `OutOfMemory` if an allocation fails.
#[tactic(auto, using(gptman::proofs::Readers::both_read, gptman::proofs::Runs::rose_since))]
pub fn read_block<D: Disk>(alloc: Global, disk: &mut D, at: u64, length: u64) -> Result<Vec<u8>>
    ensures reads { Reads (D.state disk.old) (D.state disk.new) }
    ensures cause { HasCause result (D.state disk.old) (D.state disk.new) }
{
    let size = disk.seek_end()?;
    let at = at.min(size);
    let length = length.min(size - at);
    let mut bytes = vec![in alloc; 0; length as usize]?;
    read_at(disk, at, &mut bytes)?;
    Ok(bytes)
}

#[tactic(auto, using(gptman::proofs::Readers::both_read, gptman::proofs::Runs::rose_since))]
fn read_at<D: Disk>(disk: &mut D, at: u64, bytes: &mut [u8]) -> Result<()>
    requires { at + length bytes.old ≤ (D.state disk.old).size }
    ensures reads { Reads (D.state disk.old) (D.state disk.new) }
    ensures cause { HasCause result (D.state disk.old) (D.state disk.new) }
{
    disk.seek_start(at)?;
    disk.read_exact(bytes)?;
    Ok(())
}

/// Returns the byte at `at`, or 0 if there is none.
pub fn byte_at(bytes: &[u8], at: usize) -> u8
    ensures { result ≡ get_or bytes.now at 0 }
{
    match bytes.get(at) {
        Some(byte) => *byte,
        None => 0,
    }
}

/// Returns the little-endian number in the 4 bytes at `at`, or 0 if there are fewer.
pub fn u32_at(bytes: &[u8], at: usize) -> u32 {
    match bytes.get(at..) {
        Some([a, b, c, d, ..]) => u32::from_le_bytes([*a, *b, *c, *d]),
        _ => 0,
    }
}

/// Returns the little-endian number in the 2 bytes at `at`, or 0 if there are fewer.
pub fn u16_at(bytes: &[u8], at: usize) -> u16 {
    match bytes.get(at..) {
        Some([a, b, ..]) => u16::from_le_bytes([*a, *b]),
        _ => 0,
    }
}

/// Reports whether `text` is at `at`.
pub fn has_at(bytes: &[u8], at: usize, text: &[u8]) -> bool {
    match bytes.get(at..) {
        Some(rest) => rest.starts_with(text),
        None => false,
    }
}
