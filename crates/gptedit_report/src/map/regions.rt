//! The regions of a disk: copies of the table, partitions, free ranges, and sectors that are not usable.

use crate::bounds::{Edges, EntrySectors};
use gptman::copy::WholeCopy;
use gptman::{BothCopies, GPT, GPTPartitionEntry};
use std::alloc::{AllocError, Global};
use std::fmt;

/// The owner of a region.
#[derive(Clone, Copy)]
pub(crate) enum Owner<'a> {
    /// The table: the name of a part of it.
    Table(&'static str),
    /// A partition: its number and its entry.
    Partition(u32, &'a GPTPartitionEntry),
    /// A free range.
    Free,
    /// Sectors that no partition can use, such as the place of a bad copy.
    Unusable,
}

/// Consecutive sectors of one owner.
#[derive(Clone, Copy)]
pub(crate) struct Region<'a> {
    /// The first sector.
    pub(crate) first: u64,
    /// The sector after the last one.
    pub(crate) end: u64,
    /// The owner.
    pub(crate) owner: Owner<'a>,
}

/// The reason why a disk has no map.
#[derive(Clone, Copy)]
pub(crate) enum NoMap<'a> {
    /// The partition with this number ends before it starts.
    EndsBefore(u32),
    /// The partition with this number ends after the disk.
    EndsAfter(u32),
    /// Two owners overlap.
    Overlap(Owner<'a>, Owner<'a>),
}

/// A disk with a table.
#[derive(Clone, Copy)]
pub(crate) struct TableDisk<'a> {
    /// The length of the disk in sectors.
    pub(crate) sectors: u64,
    /// The table.
    pub(crate) table: &'a GPT,
    /// The copies of the table.
    pub(crate) copies: &'a BothCopies,
    /// The sectors between the copies, and the usable ones.
    pub(crate) edges: Edges,
}

impl<'a> TableDisk<'a> {
    /// Returns a disk of `size` bytes.
    pub(crate) fn new(size: u64, table: &'a GPT, copies: &'a BothCopies) -> TableDisk<'a> {
        TableDisk {
            sectors: size.checked_div(table.sector_size).unwrap_or(0),
            table,
            copies,
            edges: Edges::of(table, size),
        }
    }

    /// Returns the good copies and the partitions, in the order of their starts. Partitions that end before they start
    /// are left out.
    pub(crate) fn taken(&self, alloc: Global) -> Result<Vec<Region<'a>>, AllocError> {
        let mut taken = Vec::new(alloc);
        if let Ok(copy) = &self.copies.primary {
            self.push_primary(&mut taken, copy)?;
        }
        if let Ok(copy) = &self.copies.backup {
            self.push_backup(&mut taken, copy)?;
        }
        for (number, entry) in self.table.iter() {
            if entry.is_used() {
                let end = entry.ending_lba.saturating_add(1);
                let owner = Owner::Partition(number, entry);
                push(&mut taken, entry.starting_lba, end, owner)?;
            }
        }
        taken.sort_by_key(|region| region.first)?;
        Ok(taken)
    }

    /// Returns the reason why the disk has no map, if any. `taken` are the regions of [`TableDisk::taken`].
    pub(crate) fn fault(&self, taken: &[Region<'a>]) -> Option<NoMap<'a>> {
        for (number, entry) in self.table.iter() {
            if entry.is_unused() {
                continue;
            }
            if entry.ending_lba < entry.starting_lba {
                return Some(NoMap::EndsBefore(number));
            }
            if entry.ending_lba >= self.sectors {
                return Some(NoMap::EndsAfter(number));
            }
        }
        let mut last: Option<Region<'a>> = None;
        for region in taken {
            if let Some(before) = last {
                if region.first < before.end {
                    return Some(NoMap::Overlap(before.owner, region.owner));
                }
            }
            last = Some(*region);
        }
        None
    }

    /// Returns the regions of the whole disk in the order of sectors. `taken` are those of [`TableDisk::taken`].
    pub(crate) fn regions(
        &self,
        alloc: Global,
        taken: &[Region<'a>],
    ) -> Result<Vec<Region<'a>>, AllocError> {
        let mut regions = Vec::new(alloc);
        let mut at = 0;
        for region in taken {
            self.push_gap(&mut regions, at, region.first)?;
            regions.push(*region)?;
            at = region.end;
        }
        self.push_gap(&mut regions, at, self.sectors)?;
        Ok(regions)
    }

    // Adds sectors that are not taken, from `first` to before `end`. The usable ones are free.
    fn push_gap(
        &self,
        regions: &mut Vec<Region<'a>>,
        first: u64,
        end: u64,
    ) -> Result<(), AllocError> {
        let least = self.edges.first.max(self.edges.least);
        let most = self.edges.last.min(self.edges.most);
        let start = least.max(first).min(end);
        let stop = most.saturating_add(1).max(start).min(end);
        push(regions, first, start, Owner::Unusable)?;
        push(regions, start, stop, Owner::Free)?;
        push(regions, stop, end, Owner::Unusable)
    }

    // Adds the MBR and the primary copy.
    fn push_primary(
        &self,
        regions: &mut Vec<Region<'a>>,
        copy: &WholeCopy,
    ) -> Result<(), AllocError> {
        let EntrySectors { first, end } = self.entries_of(copy);
        if first == 2 {
            return push(regions, 0, end, Owner::Table("MBR and primary copy"));
        }
        push(regions, 0, 2, Owner::Table("MBR and primary header"))?;
        push(regions, first, end, Owner::Table("primary entries"))
    }

    // Adds the backup copy, whose header is in the last sector.
    fn push_backup(
        &self,
        regions: &mut Vec<Region<'a>>,
        copy: &WholeCopy,
    ) -> Result<(), AllocError> {
        let EntrySectors { first, end } = self.entries_of(copy);
        let header = self.sectors.saturating_sub(1);
        if end == header {
            return push(regions, first, self.sectors, Owner::Table("backup copy"));
        }
        push(regions, first, end, Owner::Table("backup entries"))?;
        push(regions, header, self.sectors, Owner::Table("backup header"))
    }

    fn entries_of(&self, copy: &WholeCopy) -> EntrySectors {
        EntrySectors::of(copy, self.table.sector_size)
    }
}

// Adds a region, unless it is empty.
fn push<'a>(
    regions: &mut Vec<Region<'a>>,
    first: u64,
    end: u64,
    owner: Owner<'a>,
) -> Result<(), AllocError> {
    if first < end {
        regions.push(Region { first, end, owner })?;
    }
    Ok(())
}

impl fmt::Display for Owner<'_> {
    fn fmt<W: fmt::Write>(&self, f: &mut fmt::Formatter<W>) -> fmt::Result {
        match self {
            Owner::Table(name) => f.write_str(name),
            Owner::Partition(number, _) => write!(f, "partition {number}"),
            Owner::Free => f.write_str("free"),
            Owner::Unusable => f.write_str("not usable"),
        }
    }
}

impl fmt::Display for NoMap<'_> {
    fn fmt<W: fmt::Write>(&self, f: &mut fmt::Formatter<W>) -> fmt::Result {
        match self {
            NoMap::EndsBefore(number) => write!(f, "partition {number} ends before it starts"),
            NoMap::EndsAfter(number) => write!(f, "partition {number} ends after the disk"),
            NoMap::Overlap(one, other) => write!(f, "{one} and {other} overlap"),
        }
    }
}
