//! Copies and headers as texts.

use crate::texts::GuidText;
use gptedit_formats::copies::{CopyKind, Spot};
use gptman::GPTHeader;
use std::fmt;

/// A copy, described by its place.
#[derive(Clone, Copy)]
pub struct SpotText(pub Spot);

impl fmt::Display for SpotText {
    fn fmt<W: fmt::Write>(&self, f: &mut fmt::Formatter<W>) -> fmt::Result {
        let Spot {
            sector_size,
            lba,
            kind,
            ..
        } = self.0;
        match kind {
            CopyKind::Primary => f.write_str("the primary copy")?,
            CopyKind::Backup => f.write_str("the backup copy")?,
            CopyKind::Other => f.write_str("another copy")?,
        }
        write!(
            f,
            " (header in sector {lba}, sectors of {sector_size} bytes)"
        )
    }
}

/// The fields of a header, as comment lines.
#[derive(Clone, Copy)]
pub struct HeaderText<'a>(pub &'a GPTHeader);

impl fmt::Display for HeaderText<'_> {
    fn fmt<W: fmt::Write>(&self, f: &mut fmt::Formatter<W>) -> fmt::Result {
        let header = self.0;
        write_form(f, header)?;
        let (first, last) = (header.first_usable_lba, header.last_usable_lba);
        let guid = GuidText(&header.disk_guid);
        writeln!(f, "#   usable sectors {first}..{last}, disk GUID {guid}")?;
        let (count, size) = (
            header.number_of_partition_entries,
            header.size_of_partition_entry,
        );
        let lba = header.partition_entry_lba;
        writeln!(
            f,
            "#   {count} entries of {size} bytes from sector {lba} on"
        )?;
        let (own, entries) = (header.crc32_checksum, header.partition_entry_array_crc32);
        writeln!(
            f,
            "#   checksums {own:08x} of the header, {entries:08x} of the entries"
        )
    }
}

// Writes the revision, the size and the places of a header.
fn write_form<W: fmt::Write>(f: &mut fmt::Formatter<W>, header: &GPTHeader) -> fmt::Result {
    let number = u32::from_le_bytes(header.revision);
    let (major, minor) = (number >> 16, number & 0xffff);
    let size = header.header_size;
    write!(f, "#   revision {major}.{minor}, {size} bytes, ")?;
    let (own, other) = (header.primary_lba, header.backup_lba);
    writeln!(f, "in sector {own}, the other copy in sector {other}")
}

/// A number of partitions.
#[derive(Clone, Copy)]
pub struct Partitions(pub usize);

impl fmt::Display for Partitions {
    fn fmt<W: fmt::Write>(&self, f: &mut fmt::Formatter<W>) -> fmt::Result {
        match self.0 {
            0 => f.write_str("no partitions"),
            1 => f.write_str("1 partition"),
            count => write!(f, "{count} partitions"),
        }
    }
}
