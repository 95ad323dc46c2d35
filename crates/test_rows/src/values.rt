//! Calls on values: checksums, names, and the bytes of a protective MBR.

use crate::answer::{Answer, Answered, Fault};
use crate::row::Row;
use gptman::PartitionName;
use gptman::crc::crc32;
use gptman::table::mbr::protective_mbr;
use std::alloc::Global;

/// crc bytes=; name text=; units bytes=; mbr_bytes size= sector= [bootable=]
pub(crate) fn answer(alloc: Global, row: Row) -> Answered {
    match row.call() {
        "crc" => Ok(Answer::Checksum(crc32(&row.bytes(alloc, "bytes")?))),
        "name" => {
            let text = row.text(alloc)?;
            name_text(alloc, &PartitionName::new(alloc, text.as_str())?)
        }
        "units" => name_text(
            alloc,
            &PartitionName::from_units(alloc, units_of(alloc, row)?)?,
        ),
        _ => mbr_bytes(alloc, row),
    }
}

// Returns the text of the name, its units without trailing zeros, and whether it is plain: its display has no padding,
// and it is equal to its clone.
fn name_text(alloc: Global, name: &PartitionName) -> Answered {
    let mut units = String::new(alloc);
    let used = name.units().iter().rposition(|unit| *unit != 0);
    for unit in &name.units()[..used.map_or(0, |last| last + 1)] {
        let digits = format!(in alloc; "{unit:04x}")?;
        units.push_str(digits.as_str())?;
    }
    let text = name.as_str();
    let shown = format!(in alloc; "{name:*>40}")?;
    let is_plain = shown.as_str() == text && name.clone()? == *name;
    let end = if is_plain { "plain" } else { "not plain" };
    Ok(Answer::Text(format!(in alloc; "{text:?} {units} {end}")?))
}

// Returns units of four digits each, followed by zeros.
fn units_of(alloc: Global, row: Row) -> Result<[u16; 36], Fault> {
    let bytes = row.bytes(alloc, "bytes")?;
    let mut units = [0; 36];
    for (unit, pair) in units.iter_mut().zip(bytes.chunks_exact(2)) {
        *unit = u16::from(pair[0]) * 256 + u16::from(pair[1]);
    }
    Ok(units)
}

fn mbr_bytes(alloc: Global, row: Row) -> Answered {
    let sector_size = row.number("sector")?;
    if sector_size == 0 {
        return Err(Fault::Requires);
    }
    let bytes = protective_mbr(sector_size, row.number("size")?, row.has("bootable"))?;
    Ok(Answer::Bytes(bytes.to_vec(alloc)?))
}
