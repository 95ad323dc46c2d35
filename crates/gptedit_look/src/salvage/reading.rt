//! Reads headers, and a disk in bounded pieces.

ghost use Rattle.gptman.specs.Disk.{Reads};

use gptedit_formats::copies::{Seen, Spot, decode_header};
use gptman::Disk;
use std::alloc::{AllocError, Global};

// The size of a piece in bytes.
const PIECE: u64 = 4096;

/// Fills the buffer with the bytes from `at`. Reports whether the read succeeded.
#[tactic(auto, using(gptman::proofs::Readers::both_read))]
pub fn read_at<D: Disk>(disk: &mut D, at: u64, bytes: &mut [u8]) -> bool
    ensures reads { Reads (D.state disk.old) (D.state disk.new) }
{
    match disk.seek_start(at) {
        Ok(_) => disk.read_exact(bytes).is_ok(),
        Err(_) => false,
    }
}

/// Reads `len` bytes from `start`, or those before the first piece that fails. Allocates only for bytes that were read.
#[tactic(auto, using(gptman::proofs::Readers::both_read))]
pub fn read_range<D: Disk>(
    alloc: Global,
    disk: &mut D,
    start: u64,
    len: u64,
) -> Result<Vec<u8>, AllocError>
    ensures reads { Reads (D.state disk.old) (D.state disk.new) }
{
    let mut bytes = Vec::new(alloc);
    for piece in 0..len.div_ceil(PIECE) {
        let done = piece.saturating_mul(PIECE);
        let at = start.saturating_add(done);
        if !read_piece(disk, at, len.saturating_sub(done), &mut bytes)? {
            break;
        }
    }
    Ok(bytes)
}

// Appends `len` bytes from `at`, at most one piece. Reports whether the read succeeded.
#[tactic(auto, using(gptman::proofs::Readers::both_read))]
fn read_piece<D: Disk>(
    disk: &mut D,
    at: u64,
    len: u64,
    bytes: &mut Vec<u8>,
) -> Result<bool, AllocError>
    ensures reads { Reads (D.state disk.old) (D.state disk.new) }
{
    let mut piece = [0; 4096];
    let piece = &mut piece[..len.min(PIECE) as usize];
    let is_read = read_at(disk, at, piece);
    if is_read {
        bytes.extend_from_slice(piece)?;
    }
    Ok(is_read)
}

/// Reads the sector of a header.
#[tactic(auto, using(gptman::proofs::Readers::both_read))]
pub fn read_header<D: Disk>(alloc: Global, disk: &mut D, spot: Spot) -> Result<Seen, AllocError>
    ensures reads { Reads (D.state disk.old) (D.state disk.new) }
{
    if spot.lba >= spot.sectors {
        return Ok(Seen::Nothing);
    }
    let mut bytes = [0; 4096];
    let sector = &mut bytes[..spot.sector_size.min(4096) as usize];
    if !read_at(disk, spot.lba.saturating_mul(spot.sector_size), sector) {
        return Ok(Seen::Failure);
    }
    decode_header(alloc, sector, spot)
}
