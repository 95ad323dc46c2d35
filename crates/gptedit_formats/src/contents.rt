//! Contents: file systems, members of arrays, image formats. Does not recognise GPT or the MBR.

pub mod formats;
mod found;
mod lengths;
mod others;
mod piece;
mod plain;

pub use found::Found;
pub use piece::Piece;
use std::alloc::AllocError;

/// Adds the contents in the first piece of a range.
pub fn find_in_first(piece: &Piece, found: &mut Vec<Found>) -> Result<(), AllocError> {
    lengths::find_file_systems(piece, found)?;
    others::find_others(piece, found)?;
    plain::find_plain(piece, found)
}

/// Adds the contents in a piece between the first and the last.
pub fn find_in_next(piece: &Piece, found: &mut Vec<Found>) -> Result<(), AllocError> {
    if let Some(zfs) = others::find_zfs(piece) {
        found.push(zfs)?;
    }
    plain::find_plain(piece, found)
}

/// Adds the contents in the last piece of a range of `length` bytes.
pub fn find_in_last(piece: &Piece, length: u64, found: &mut Vec<Found>) -> Result<(), AllocError> {
    others::find_late(piece, length, found)
}
