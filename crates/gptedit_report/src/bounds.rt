//! The usable sectors of a table, compared with the sectors between its two copies.

use gptman::GPT;
use gptman::copy::WholeCopy;
use std::fmt;

/// The usable sectors of a table, and the sectors between its copies.
#[derive(Clone, Copy)]
pub struct Edges {
    /// The first usable sector.
    pub first: u64,
    /// The last usable sector.
    pub last: u64,
    /// The first sector after the primary copy.
    pub least: u64,
    /// The last sector before the backup copy at the end of the disk.
    pub most: u64,
}

// The length of an entry in bytes.
const ENTRY_BYTES: u64 = 128;

impl Edges {
    /// Returns those of a table on a disk of `size` bytes.
    pub fn of(table: &GPT, size: u64) -> Edges {
        let entries = sectors_of(table.header.number_of_partition_entries, table.sector_size);
        let sectors = size / table.sector_size.max(1);
        Edges {
            first: table.header.first_usable_lba,
            last: table.header.last_usable_lba,
            least: entries.saturating_add(2),
            most: sectors.saturating_sub(2).saturating_sub(entries),
        }
    }

    /// Reports whether the first usable sector is in the primary copy.
    pub fn is_first_over(&self) -> bool {
        self.first < self.least
    }

    /// Reports whether the last usable sector is in the backup copy or after it.
    pub fn is_last_over(&self) -> bool {
        self.last > self.most
    }

    /// Reports whether the usable sectors include a sector of a copy.
    pub fn are_over(&self) -> bool {
        self.is_first_over() || self.is_last_over()
    }

    /// Reports whether the disk has room for two copies.
    pub fn have_room(&self) -> bool {
        self.least <= self.most.saturating_add(1)
    }

    /// Reports whether the last usable sector is more than one before the first one.
    pub fn are_reversed(&self) -> bool {
        self.last < self.first.saturating_sub(1)
    }

    /// Reports whether sectors before the backup copy are not usable.
    pub fn is_low(&self) -> bool {
        self.last < self.most
    }
}

/// The sectors of the entries of a good copy.
#[derive(Clone, Copy)]
pub struct EntrySectors {
    /// The first sector.
    pub first: u64,
    /// The sector after the last one.
    pub end: u64,
}

impl EntrySectors {
    /// Returns those that the header gives, with sectors of `sector_size` bytes.
    pub fn of(copy: &WholeCopy, sector_size: u64) -> EntrySectors {
        let first = copy.header.partition_entry_lba;
        let count = sectors_of(copy.header.number_of_partition_entries, sector_size);
        EntrySectors {
            first,
            end: first.saturating_add(count),
        }
    }

    /// Reports whether the sector is one of them.
    pub fn has(self, sector: u64) -> bool {
        self.first <= sector && sector < self.end
    }
}

// Returns the number of sectors of this many entries.
fn sectors_of(entries: u32, sector_size: u64) -> u64 {
    let bytes = u64::from(entries).saturating_mul(ENTRY_BYTES);
    bytes.div_ceil(sector_size.max(1))
}

impl fmt::Display for Edges {
    fn fmt<W: fmt::Write>(&self, f: &mut fmt::Formatter<W>) -> fmt::Result {
        let Edges {
            first,
            last,
            least,
            most,
        } = *self;
        write!(f, "the usable sectors {first}..{last} ")?;
        match (self.is_first_over(), self.is_last_over()) {
            (true, true) => f.write_str("begin and end inside the copies of the table")?,
            (true, false) => f.write_str("begin inside the primary copy of the table")?,
            (false, true) => f.write_str("end inside the backup copy of the table")?,
            (false, false) => f.write_str("end too early")?,
        }
        write!(
            f,
            "; the sectors between the two copies are {least}..{most}"
        )
    }
}
