//! Faults of copies and entries.

use gptman::sizes::MAX_ENTRY_COUNT;
use std::fmt;

/// A fault of a copy.
#[derive(Clone, Copy)]
pub enum Fault {
    /// There is no header, but what looks like entries at their usual place.
    NoHeader {
        lba: u64,
    },
    /// A read failed from this sector on.
    Unreadable {
        lba: u64,
    },
    /// The header begins almost, but not quite, with `EFI PART`.
    Signature,
    /// The revision is not 1.0.
    Revision([u8; 4]),
    /// The header size is above 92 bytes, which the format allows.
    LongHeader(u32),
    /// The header size is below 92 bytes, or above that of a sector.
    HeaderSize(u32),
    /// The header does not match its checksum.
    HeaderChecksum {
        stored: u32,
        computed: u32,
    },
    /// One byte of the header was wrong: with the byte `is` the header matches its checksum.
    HeaderByte {
        index: usize,
        was: u8,
        is: u8,
    },
    /// The header names another sector as its own.
    OtherSector {
        said: u64,
    },
    /// The header names an unusual sector for the other copy.
    OtherCopy {
        said: u64,
        usual: u64,
        sectors: u64,
    },
    /// The usable sectors are out of order, or not on the disk.
    Bounds {
        first: u64,
        last: u64,
    },
    /// The header counts no entries.
    NoEntries,
    /// The header counts more entries than are read.
    TooMany(u32),
    /// The header has this entry size; entries of 128 bytes were read.
    EntrySize(u32),
    /// The entry size is a larger multiple of 128 bytes.
    LargeEntries(u32),
    /// The entries are not where the header says.
    MovedEntries {
        said: u64,
        found: u64,
    },
    /// The copy's own entries are lost; those of the other copy match the stored checksum.
    OtherEntries {
        said: u64,
        found: u64,
    },
    /// Another number of entries was read than the header counts.
    OtherCount {
        said: u32,
        read: u32,
    },
    /// Some of the entries are past the end of the disk.
    EntriesPastEnd {
        lba: u64,
    },
    /// The entries do not match their checksum.
    EntriesChecksum {
        stored: u32,
        computed: u32,
    },
    /// One byte of an entry was wrong: with the byte `is` the entries match their checksum.
    EntryByte {
        number: u32,
        index: usize,
        was: u8,
        is: u8,
    },
}

impl Fault {
    /// Reports whether entries may be lost: they were not read, or do not match their checksum.
    pub fn is_loss(&self) -> bool {
        matches!(
            self,
            Fault::Unreadable { .. }
                | Fault::TooMany(_)
                | Fault::EntriesPastEnd { .. }
                | Fault::EntriesChecksum { .. }
        )
    }

    /// Reports whether what was read matches its checksum in spite of this fault.
    pub fn is_mended(&self) -> bool {
        matches!(
            self,
            Fault::HeaderByte { .. }
                | Fault::EntryByte { .. }
                | Fault::MovedEntries { .. }
                | Fault::OtherEntries { .. }
        )
    }
}

impl fmt::Display for Fault {
    fn fmt<W: fmt::Write>(&self, f: &mut fmt::Formatter<W>) -> fmt::Result {
        match *self {
            Fault::NoHeader { lba } => {
                write!(f, "there is no header; entries were read from sector {lba}")
            }
            Fault::Unreadable { lba } => write!(f, "the device failed at sector {lba}"),
            Fault::Signature => f.write_str("the header does not begin with EFI PART"),
            Fault::Revision(bytes) => write_revision(f, bytes),
            Fault::LongHeader(size) => {
                write!(f, "the header size is {size} bytes; gptman reads only 92")
            }
            Fault::HeaderSize(size) => {
                write!(f, "the header size is {size} bytes, which is not valid")
            }
            Fault::HeaderChecksum { stored, computed } => {
                write!(f, "the header's checksum is wrong: ")?;
                write_sums(f, stored, computed)
            }
            Fault::HeaderByte { index, was, is } => {
                write!(
                    f,
                    "byte {index} of the header is {was:02x}, but was read as {is:02x}, "
                )?;
                f.write_str("which matches the header's checksum")
            }
            Fault::OtherSector { said } => write!(f, "the header says that it is in sector {said}"),
            Fault::OtherCopy {
                said,
                usual,
                sectors,
            } => write_other(f, said, usual, sectors),
            Fault::Bounds { first, last } => {
                write!(
                    f,
                    "the usable sectors {first}..{last} are not on the disk in this order"
                )
            }
            _ => write_entries_fault(f, *self),
        }
    }
}

// Writes a fault of the entries of a copy.
fn write_entries_fault<W: fmt::Write>(f: &mut fmt::Formatter<W>, fault: Fault) -> fmt::Result {
    match fault {
        Fault::NoEntries => f.write_str("the header counts no entries"),
        Fault::TooMany(count) => {
            let most = MAX_ENTRY_COUNT;
            write!(
                f,
                "the header counts {count} entries; at most {most} are read"
            )
        }
        Fault::EntrySize(size) => {
            write!(
                f,
                "the header says that an entry has {size} bytes; 128 were read"
            )
        }
        Fault::LargeEntries(size) => {
            write!(
                f,
                "an entry has {size} bytes; the first 128 of each are read"
            )
        }
        Fault::MovedEntries { said, found } => {
            write!(f, "the header says that the entries are in sector {said}; ")?;
            write!(f, "they were read from sector {found}")
        }
        Fault::OtherEntries { said, found } => {
            write!(
                f,
                "the entries in sector {said} do not have the checksum that the header "
            )?;
            write!(
                f,
                "stores; those of the other copy have it, and were read from sector {found}"
            )
        }
        Fault::OtherCount { said, read } => {
            write!(f, "the header counts {said} entries; {read} were read")
        }
        Fault::EntriesPastEnd { lba } => {
            write!(
                f,
                "the entries, from sector {lba} on, reach past the end of the disk"
            )
        }
        Fault::EntriesChecksum { stored, computed } => {
            write!(f, "the checksum of the entries is wrong: ")?;
            write_sums(f, stored, computed)
        }
        Fault::EntryByte {
            number,
            index,
            was,
            is,
        } => {
            write!(
                f,
                "byte {index} of entry {number} is {was:02x}, but was read as {is:02x}, "
            )?;
            f.write_str("which matches the checksum of the entries")
        }
        _ => Ok(()),
    }
}

fn write_revision<W: fmt::Write>(f: &mut fmt::Formatter<W>, bytes: [u8; 4]) -> fmt::Result {
    let number = u32::from_le_bytes(bytes);
    let (major, minor) = (number >> 16, number & 0xffff);
    write!(f, "the header's revision is {major}.{minor}, not 1.0")
}

// Writes a stored checksum and the computed one.
fn write_sums<W: fmt::Write>(f: &mut fmt::Formatter<W>, stored: u32, computed: u32) -> fmt::Result {
    write!(f, "{stored:08x} is stored, {computed:08x} is computed")
}

// Writes the sector that the header names for the other copy.
fn write_other<W: fmt::Write>(
    f: &mut fmt::Formatter<W>,
    said: u64,
    usual: u64,
    sectors: u64,
) -> fmt::Result {
    write!(
        f,
        "the header says that the other copy is in sector {said}, "
    )?;
    if said >= sectors {
        write!(f, "which is past the end of the disk")
    } else {
        write!(f, "not in sector {usual}")
    }
}

/// A fault of an entry.
#[derive(Clone, Copy)]
pub enum EntryFault {
    /// It ends before it starts.
    EndsBeforeStart,
    /// It ends past the end of the disk.
    PastEnd,
    /// It is not entirely within the usable sectors.
    NotUsable { first: u64, last: u64 },
    /// It overlaps the entry of this number, which does not end later.
    Overlaps(u32),
    /// It has the GUID of the earlier entry of this number.
    SharesGuid(u32),
}

impl EntryFault {
    /// Reports whether its sectors are out of order, or not on the disk.
    pub fn is_senseless(&self) -> bool {
        matches!(self, EntryFault::EndsBeforeStart | EntryFault::PastEnd)
    }
}

impl fmt::Display for EntryFault {
    fn fmt<W: fmt::Write>(&self, f: &mut fmt::Formatter<W>) -> fmt::Result {
        match *self {
            EntryFault::EndsBeforeStart => f.write_str("it ends before it starts"),
            EntryFault::PastEnd => f.write_str("it ends past the end of the disk"),
            EntryFault::NotUsable { first, last } => {
                write!(f, "it is not within the usable sectors {first}..{last}")
            }
            EntryFault::Overlaps(number) => write!(f, "it overlaps partition {number}"),
            EntryFault::SharesGuid(number) => write!(f, "it has the GUID of partition {number}"),
        }
    }
}
