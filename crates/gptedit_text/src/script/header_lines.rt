//! The headers of a script.

use crate::error::{Fault, LayoutError, Section, TextPlace};
use crate::script::extents::read_any_extent;
use crate::table_header::Header;
use gptedit_core::{Amount, DEFAULT_ALIGN};
use gptedit_values::{read_guid, read_number};
use gptman::sizes::MAX_ENTRY_COUNT;
use std::alloc::Global;

/// The headers that were read.
#[derive(Clone, Copy)]
pub struct HeaderLines {
    /// The GUID of the disk.
    pub disk_guid: Option<[u8; 16]>,
    /// The alignment.
    pub align: Amount,
    /// The values for the header of the table.
    pub header: Header,
}

/// Reports whether the line is a header of `sfdisk`, also if its value is wrong.
pub fn is_header(line: &str) -> bool {
    match header_of(line) {
        Some((name, _)) => Section::Header.keys().iter().any(|key| *key == name),
        None => false,
    }
}

/// Returns the name and the value of a line, if it has the form of a header.
pub fn header_of(line: &str) -> Option<(&str, &str)> {
    if line.contains('=') {
        return None;
    }
    let (name, value) = line.split_once(':')?;
    if name.is_empty() {
        return None;
    }
    Some((name.trim_end(), value.trim_start()))
}

impl HeaderLines {
    /// Returns the defaults.
    pub fn new() -> HeaderLines {
        HeaderLines {
            disk_guid: None,
            align: DEFAULT_ALIGN,
            header: Header::nothing(),
        }
    }

    /// Reads one more header.
    pub fn read(
        &mut self,
        alloc: Global,
        place: TextPlace,
        name: &str,
        value: &str,
    ) -> Result<(), LayoutError> {
        match name {
            "label" => expect(place, "label", value, "gpt", Fault::NotGpt),
            "unit" => expect(place, "unit", value, "sectors", Fault::NotInSectors),
            "device" => Ok(()),
            "label-id" => {
                self.disk_guid = Some(guid_in(place, value)?);
                Ok(())
            }
            "grain" => {
                self.align = grain_in(place, value)?;
                Ok(())
            }
            _ => self.read_count(alloc, place, name, value),
        }
    }

    // Reads a header with a number.
    fn read_count(
        &mut self,
        alloc: Global,
        place: TextPlace,
        name: &str,
        value: &str,
    ) -> Result<(), LayoutError> {
        let header = &mut self.header;
        match name {
            "sector-size" => header.sector_size = Some(count_in(place, "sector-size", value)?),
            "first-lba" => {
                header.first_usable = Some(count_in(place, "first-lba", value)?);
                return self.check_usable(place, "first-lba");
            }
            "last-lba" => {
                header.last_usable = Some(count_in(place, "last-lba", value)?);
                return self.check_usable(place, "last-lba");
            }
            "table-length" => header.entries = Some(entries_in(place, value)?),
            _ => {
                let key = String::from_str(alloc, name)?;
                return Err(LayoutError::Unknown { place, key });
            }
        }
        Ok(())
    }

    // Refuses usable sectors that end before they begin.
    fn check_usable(&self, place: TextPlace, key: &'static str) -> Result<(), LayoutError> {
        if self.header.ends_early() {
            Err(place.fault(key, Fault::EndsEarly))
        } else {
            Ok(())
        }
    }
}

// Refuses a value other than the only permitted one, in any case.
fn expect(
    place: TextPlace,
    key: &'static str,
    value: &str,
    only: &str,
    fault: Fault,
) -> Result<(), LayoutError> {
    if value.eq_ignore_ascii_case(only) {
        Ok(())
    } else {
        Err(place.fault(key, fault))
    }
}

fn count_in(place: TextPlace, key: &'static str, value: &str) -> Result<u64, LayoutError> {
    read_number(value).ok_or(place.fault(key, Fault::NotCount))
}

fn entries_in(place: TextPlace, value: &str) -> Result<u32, LayoutError> {
    let count = count_in(place, "table-length", value)?;
    match u32::try_from(count) {
        Ok(count) if count <= MAX_ENTRY_COUNT => Ok(count),
        _ => Err(place.fault("table-length", Fault::NotEntries)),
    }
}

fn guid_in(place: TextPlace, value: &str) -> Result<[u8; 16], LayoutError> {
    match read_guid(value) {
        Ok(guid) => Ok(guid),
        Err(wrong) => Err(place.fault("label-id", Fault::Value(wrong))),
    }
}

// Reads the alignment, which is in bytes also without a unit.
fn grain_in(place: TextPlace, value: &str) -> Result<Amount, LayoutError> {
    match read_any_extent(value) {
        Some(Amount::Sectors(bytes)) => Ok(Amount::Bytes(bytes)),
        Some(amount) => Ok(amount),
        None => Err(place.fault("grain", Fault::NotCount)),
    }
}
