//! The result of a search as JSON.

use crate::json::print_json;
use crate::members::{Members, list_of_texts};
use gptedit_formats::copies::{CopyKind, FoundCopy, FoundEntry, Salvaged};
use gptedit_values::UnitsText;
use gptman::GPTHeader;
use serde_json::Value;
use std::alloc::{AllocError, Global};

/// Returns the result of a search as JSON: `device`, `size_bytes`, `best` (the index of the best copy, or null), and
/// `copies`. Each copy has `sector_size_bytes`, `place` (`primary`, `backup` or `other`), `lba`, `sectors`, `header` (or
/// null), `faults` and `entries`, each with its own `faults`. Hidden characters are escaped.
pub fn salvaged_json(
    alloc: Global,
    image: &str,
    salvaged: &Salvaged,
) -> Result<String, AllocError> {
    let mut copies = Vec::new(alloc);
    for copy in salvaged.copies.iter() {
        copies.push(copy_value(alloc, copy)?)?;
    }
    let mut members = Members::new(alloc);
    members.put_text("device", image)?;
    members.put_number("size_bytes", salvaged.size)?;
    match salvaged.best {
        Some(best) => members.put_number("best", best as u64)?,
        None => members.put("best", Value::Null)?,
    }
    members.put_list("copies", copies)?;
    print_json(alloc, &members.into_value())
}

fn copy_value(alloc: Global, copy: &FoundCopy) -> Result<Value, AllocError> {
    let mut entries = Vec::new(alloc);
    for found in copy.entries.iter() {
        entries.push(entry_value(alloc, found)?)?;
    }
    let spot = copy.spot;
    let mut members = Members::new(alloc);
    members.put_number("sector_size_bytes", spot.sector_size)?;
    members.put_text("place", kind_name(spot.kind))?;
    members.put_number("lba", spot.lba)?;
    members.put_number("sectors", spot.sectors)?;
    match &copy.header {
        Some(header) => members.put("header", header_value(alloc, header)?)?,
        None => members.put("header", Value::Null)?,
    }
    members.put_list("faults", list_of_texts(alloc, &copy.faults)?)?;
    members.put_list("entries", entries)?;
    Ok(members.into_value())
}

fn kind_name(kind: CopyKind) -> &'static str {
    match kind {
        CopyKind::Primary => "primary",
        CopyKind::Backup => "backup",
        CopyKind::Other => "other",
    }
}

fn header_value(alloc: Global, header: &GPTHeader) -> Result<Value, AllocError> {
    let mut members = Members::new(alloc);
    let revision = u32::from_le_bytes(header.revision);
    members.put_number("revision", u64::from(revision))?;
    members.put_number("header_size_bytes", u64::from(header.header_size))?;
    members.put_number("checksum", u64::from(header.crc32_checksum))?;
    members.put_number("my_lba", header.primary_lba)?;
    members.put_number("other_lba", header.backup_lba)?;
    members.put_number("first_usable_lba", header.first_usable_lba)?;
    members.put_number("last_usable_lba", header.last_usable_lba)?;
    members.put_guid("disk_guid", &header.disk_guid)?;
    members.put_number("entries_lba", header.partition_entry_lba)?;
    let count = header.number_of_partition_entries;
    members.put_number("entries", u64::from(count))?;
    let size = header.size_of_partition_entry;
    members.put_number("entry_size_bytes", u64::from(size))?;
    let checksum = header.partition_entry_array_crc32;
    members.put_number("entries_checksum", u64::from(checksum))?;
    Ok(members.into_value())
}

fn entry_value(alloc: Global, found: &FoundEntry) -> Result<Value, AllocError> {
    let entry = &found.entry;
    let mut members = Members::new(alloc);
    members.put_number("number", u64::from(found.number))?;
    members.put_guid("type", &entry.partition_type_guid)?;
    members.put_guid("uuid", &entry.unique_partition_guid)?;
    members.put_number("first_lba", entry.starting_lba)?;
    members.put_number("last_lba", entry.ending_lba)?;
    members.put_number("attribute_bits", entry.attribute_bits)?;
    let name = &entry.partition_name;
    members.put_text("name", name.as_str())?;
    let units = format!(in alloc; "{}", UnitsText(name.units()))?;
    members.put_text("name_utf16", units.as_str())?;
    members.put("makes_sense", Value::Bool(found.is_sensible()))?;
    members.put_list("faults", list_of_texts(alloc, &found.faults)?)?;
    Ok(members.into_value())
}
