//! The sectors of the entries of both copies, according to their headers.

use gptedit_look::{Look, Obstacle};
use gptedit_report::EntrySectors;
use gptman::copy::WholeCopy;
use gptman::{Disk, GPT, Result};

/// The sectors of the entries of each good copy.
#[derive(Clone, Copy)]
pub struct Own {
    primary: Option<EntrySectors>,
    backup: Option<EntrySectors>,
}

impl Own {
    /// Returns those of the good copies.
    pub fn of(look: &Look) -> Own {
        let sector_size = look.sector_size;
        Own {
            primary: entries_of(&look.copies.primary, sector_size),
            backup: entries_of(&look.copies.backup, sector_size),
        }
    }

    /// Reports whether a sector is one of them.
    pub fn has(self, sector: u64) -> bool {
        for entries in [self.primary, self.backup] {
            if let Some(entries) = entries {
                if entries.has(sector) {
                    return true;
                }
            }
        }
        false
    }
}

fn entries_of(copy: &Result<WholeCopy>, sector_size: u64) -> Option<EntrySectors> {
    match copy {
        Ok(copy) => Some(EntrySectors::of(copy, sector_size)),
        Err(_) => None,
    }
}

/// Reads bytes from byte `at` of the disk on.
pub fn read_at<D: Disk>(disk: &mut D, at: u64, bytes: &mut [u8]) -> Result<()> {
    disk.seek_start(at)?;
    disk.read_exact(bytes)?;
    Ok(())
}

/// Reports whether the sectors of `range`, in the place of the other copy's entries, hold the entries of the own copy.
pub fn has_same_entries<D: Disk>(
    disk: &mut D,
    look: &Look,
    next: &GPT,
    range: Obstacle,
) -> Result<bool> {
    let Some(other) = next.header.other() else {
        return Ok(false);
    };
    let sector_size = look.sector_size;
    let (mut here, mut there) = ([0; PIECE], [0; PIECE]);
    let first = other.partition_entry_lba;
    if range.first < first {
        return Ok(false);
    }
    let start = range.first.saturating_mul(sector_size);
    let end = range.last.saturating_add(1).saturating_mul(sector_size);
    let good = next
        .header
        .partition_entry_lba
        .saturating_add(range.first - first)
        .saturating_mul(sector_size);
    for piece in 0..end.saturating_sub(start) / PIECE_BYTES {
        let offset = piece.saturating_mul(PIECE_BYTES);
        read_at(disk, start.saturating_add(offset), &mut here)?;
        read_at(disk, good.saturating_add(offset), &mut there)?;
        if here != there {
            return Ok(false);
        }
    }
    Ok(true)
}

// The length of each comparison in bytes, the smallest sector size.
const PIECE: usize = 512;

const PIECE_BYTES: u64 = 512;
