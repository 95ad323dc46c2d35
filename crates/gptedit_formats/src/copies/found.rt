//! The result of a search for copies.

use crate::copies::fault::{EntryFault, Fault};
use gptman::{GPTHeader, GPTPartitionEntry};
use std::alloc::{AllocError, Global};

/// The result of a search.
#[derive(Drop)]
pub struct Salvaged {
    /// The length of the disk in bytes.
    pub size: u64,
    /// The requested sector size; all were tried if `None`.
    pub asked: Option<u64>,
    /// The findings for each copy.
    pub copies: Vec<FoundCopy>,
    /// The index of the best copy that has a header or entries.
    pub best: Option<usize>,
}

impl Salvaged {
    /// Reports whether nothing was found.
    pub fn is_empty(&self) -> bool {
        self.best_copy().is_none()
    }

    /// Returns the best copy.
    pub fn best_copy(&self) -> Option<&FoundCopy> {
        self.copies.get(self.best?)
    }

    /// Reports whether a read failed, so that there may be more than was found.
    pub fn has_failed(&self) -> bool {
        self.copies.iter().any(|copy| copy.is_unreadable())
    }
}

/// The kind of a copy.
#[derive(Clone, Copy)]
pub enum CopyKind {
    /// The primary copy, whose header is in sector 1.
    Primary,
    /// The backup copy, whose header is in the last sector.
    Backup,
    /// A copy in a sector that another header names.
    Other,
}

/// The place where a copy is, or would be.
#[derive(Clone, Copy)]
pub struct Spot {
    /// The sector size in bytes.
    pub sector_size: u64,
    /// The number of whole sectors of the disk.
    pub sectors: u64,
    /// The kind of the copy.
    pub kind: CopyKind,
    /// The sector of its header.
    pub lba: u64,
}

impl Spot {
    /// Returns the place of the primary copy on a disk of `size` bytes.
    pub fn primary(size: u64, sector_size: u64) -> Spot {
        Spot {
            sector_size,
            sectors: size.checked_div(sector_size).unwrap_or(0),
            kind: CopyKind::Primary,
            lba: 1,
        }
    }

    /// Returns the place of the backup copy.
    pub fn backup(self) -> Spot {
        Spot {
            kind: CopyKind::Backup,
            lba: self.sectors.saturating_sub(1),
            ..self
        }
    }
}

/// The findings for a copy.
#[derive(Drop)]
pub struct FoundCopy {
    /// Its place.
    pub spot: Spot,
    /// The fields of its header as stored; `None` if it has no header.
    pub header: Option<GPTHeader>,
    /// Its faults.
    pub faults: Vec<Fault>,
    /// The first sector of the array of entries; `None` if the header could not be read.
    pub entries_lba: Option<u64>,
    /// The entries that have a type, in the order of their numbers.
    pub entries: Vec<FoundEntry>,
}

impl FoundCopy {
    /// Returns a copy whose header cannot be read.
    pub fn unreadable(alloc: Global, spot: Spot) -> Result<FoundCopy, AllocError> {
        let mut faults = Vec::new(alloc);
        faults.push(Fault::Unreadable { lba: spot.lba })?;
        Ok(FoundCopy {
            spot,
            header: None,
            faults,
            entries_lba: None,
            entries: Vec::new(alloc),
        })
    }

    /// Reports whether it has a header or entries.
    pub fn is_there(&self) -> bool {
        self.header.is_some() || !self.entries.is_empty()
    }

    /// Returns the number of sensible entries.
    pub fn count_sensible(&self) -> usize {
        self.entries
            .iter()
            .filter(|entry| entry.is_sensible())
            .count()
    }

    /// Reports whether its entries were read at the place of the other copy.
    pub fn has_others_entries(&self) -> bool {
        self.faults
            .iter()
            .any(|fault| matches!(fault, Fault::OtherEntries { .. }))
    }

    /// Reports whether entries may be lost: they were not read, or do not match their checksum.
    pub fn may_lack_entries(&self) -> bool {
        self.faults.iter().any(|fault| fault.is_loss())
    }

    // Reports whether a read of it failed.
    fn is_unreadable(&self) -> bool {
        self.faults
            .iter()
            .any(|fault| matches!(fault, Fault::Unreadable { .. }))
    }
}

/// An entry that has a type.
#[derive(Drop)]
pub struct FoundEntry {
    /// Its number, from 1.
    pub number: u32,
    /// The entry.
    pub entry: GPTPartitionEntry,
    /// Its faults.
    pub faults: Vec<EntryFault>,
}

impl FoundEntry {
    /// Reports whether its sectors are in order and on the disk.
    pub fn is_sensible(&self) -> bool {
        !self.faults.iter().any(|fault| fault.is_senseless())
    }
}
