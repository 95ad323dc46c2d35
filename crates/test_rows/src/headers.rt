//! Calls on the header of a table.

ghost use Rattle.std.specs.Prelude.{IsTrue};
ghost use Rattle.gptman.specs.Copy.{IsCoherent};

use crate::answer::{Answer, Answered, Fault, hex_of};
use crate::bench::{Bench, held};
use crate::disks::write_at;
use crate::row::Row;
use gptman::{Disk, GPT, GPTHeader, GPTPartitionEntry};
use std::alloc::Global;

/// header T; sum T; seal T; seal_array T; set T KEY= ..; encode_header T; decode_header T bytes=
pub(crate) fn answer(bench: &mut Bench, row: Row) -> Answered {
    let alloc = bench.alloc;
    let table = bench.table(row)?;
    match row.call() {
        "header" => header(alloc, &table.header),
        "sum" => sum(alloc, table),
        "seal" => seal(&mut table.header),
        "seal_array" => seal_array(alloc, table),
        "set" => set(table, row),
        "encode_header" => Ok(Answer::Bytes(table.header.encode().to_vec(alloc)?)),
        _ => decode(table, &row.bytes(alloc, "bytes")?),
    }
}

// Returns the fields by the keys of `set`.
fn header(alloc: Global, header: &GPTHeader) -> Answered {
    let places = places_of(alloc, header)?;
    let (count, size) = (
        header.number_of_partition_entries,
        header.size_of_partition_entry,
    );
    let (length, sum) = (header.header_size, header.crc32_checksum);
    let (array, guid) = (
        header.partition_entry_array_crc32,
        hex_of(alloc, &header.disk_guid)?,
    );
    let text = format!(in alloc;
        "{places} count={count} size={size} header_size={length} sum={sum:#010x} array={array:#010x} guid={guid}"
    );
    Ok(Answer::Text(text?))
}

fn places_of(alloc: Global, header: &GPTHeader) -> Result<String, Fault> {
    let (own, other, entries) = (
        header.primary_lba,
        header.backup_lba,
        header.partition_entry_lba,
    );
    let (first, last) = (header.first_usable_lba, header.last_usable_lba);
    Ok(format!(in alloc; "own={own} other={other} entries={entries} first={first} last={last}")?)
}

fn entries_of(alloc: Global, table: &GPT) -> Result<Vec<GPTPartitionEntry>, Fault> {
    let mut entries = Vec::new(alloc);
    for (_, entry) in table.iter() {
        entries.push(entry.clone()?)?;
    }
    Ok(entries)
}

// Reports whether the header describes this list of entries.
fn is_coherent(header: &GPTHeader, entries: &[GPTPartitionEntry]) -> bool
    ensures { IsTrue result → IsCoherent header.now entries.now }
{
    header.header_size == 92
        && header.number_of_partition_entries as usize == entries.len()
        && (header.size_of_partition_entry == 128 || header.number_of_partition_entries == 0)
}

// Returns the two checksums that the header should have.
fn sum(alloc: Global, table: &GPT) -> Answered {
    let entries = entries_of(alloc, table)?;
    let header = &table.header;
    if !is_coherent(header, &entries) {
        return Err(Fault::Requires);
    }
    let own = header.generate_crc32_checksum();
    let array = header.generate_partition_entry_array_crc32(&entries);
    Ok(Answer::Text(format!(in alloc; "{own:08x} {array:08x}")?))
}

// Updates the checksum of the header.
fn seal(header: &mut GPTHeader) -> Answered {
    if header.header_size != 92 {
        return Err(Fault::Requires);
    }
    header.update_crc32_checksum();
    Ok(Answer::Done)
}

// Updates the checksum of the entries.
fn seal_array(alloc: Global, table: &mut GPT) -> Answered {
    let entries = entries_of(alloc, table)?;
    if !is_coherent(&table.header, &entries) {
        return Err(Fault::Requires);
    }
    table.header.update_partition_entry_array_crc32(&entries);
    Ok(Answer::Done)
}

// Sets the fields that the row has.
fn set(table: &mut GPT, row: Row) -> Answered {
    table.sector_size = row.number_or("sector", table.sector_size)?;
    table.align = row.number_or("align", table.align)?;
    set_places(&mut table.header, row)?;
    set_sizes(&mut table.header, row)?;
    if row.has("guid") {
        table.header.disk_guid = row.guid("guid")?;
    }
    Ok(Answer::Done)
}

fn set_places(header: &mut GPTHeader, row: Row) -> Result<(), Fault> {
    header.primary_lba = row.number_or("own", header.primary_lba)?;
    header.backup_lba = row.number_or("other", header.backup_lba)?;
    header.first_usable_lba = row.number_or("first", header.first_usable_lba)?;
    header.last_usable_lba = row.number_or("last", header.last_usable_lba)?;
    header.partition_entry_lba = row.number_or("entries", header.partition_entry_lba)?;
    Ok(())
}

fn set_sizes(header: &mut GPTHeader, row: Row) -> Result<(), Fault> {
    if row.has("header_size") {
        header.header_size = row.short("header_size")?;
    }
    if row.has("sum") {
        header.crc32_checksum = row.short("sum")?;
    }
    if row.has("count") {
        header.number_of_partition_entries = row.short("count")?;
    }
    if row.has("size") {
        header.size_of_partition_entry = row.short("size")?;
    }
    if row.has("array") {
        header.partition_entry_array_crc32 = row.short("array")?;
    }
    Ok(())
}

fn decode(table: &mut GPT, bytes: &[u8]) -> Answered {
    let mut whole = [0; 92];
    if bytes.len() != 92 {
        return Err(Fault::Row);
    }
    whole.copy_from_slice(bytes);
    table.header = GPTHeader::decode(&whole);
    Ok(Answer::Done)
}

/// read_header T on= at=; put_header T on= at=; new_header T on= sector= guid= [count=]; fit T on=; write_header T on=; read_entries T on=
pub(crate) fn on_disk(bench: &mut Bench, row: Row) -> Answered {
    let alloc = bench.alloc;
    let disk = held(&mut bench.disks, row.slot_of("on")?)?;
    let table = held(&mut bench.tables, row.slot()?)?;
    match row.call() {
        "read_header" => read_header(disk, table, row.number("at")?),
        "put_header" => write_at(disk, row.number("at")?, &table.header.encode()),
        "new_header" => new_header(disk, table, row),
        _ if table.sector_size == 0 => Err(Fault::Requires),
        "fit" => {
            let sector_size = table.sector_size;
            table.header.update_from(disk, sector_size)?;
            Ok(Answer::Done)
        }
        "write_header" => write_header(alloc, disk, table),
        _ => read_entries(alloc, disk, table),
    }
}

fn read_header<D: Disk>(disk: &mut D, table: &mut GPT, at: u64) -> Answered {
    disk.seek_start(at).map_err(gptman::Error::Io)?;
    table.header = GPTHeader::read_from(disk)?;
    Ok(Answer::Done)
}

fn new_header<D: Disk>(disk: &mut D, table: &mut GPT, row: Row) -> Answered {
    let (sector_size, guid) = (row.number("sector")?, row.guid("guid")?);
    if sector_size == 0 {
        return Err(Fault::Requires);
    }
    table.header = if row.has("count") {
        GPTHeader::with_entries(disk, sector_size, guid, row.short("count")?)?
    } else {
        GPTHeader::new_from(disk, sector_size, guid)?
    };
    Ok(Answer::Done)
}

fn write_header<D: Disk>(alloc: Global, disk: &mut D, table: &mut GPT) -> Answered {
    let entries = entries_of(alloc, table)?;
    let sector_size = table.sector_size;
    if sector_size == 0 || !is_coherent(&table.header, &entries) {
        return Err(Fault::Requires);
    }
    table.header.write_into(disk, sector_size, &entries)?;
    Ok(Answer::Done)
}

// Replaces the entries of the table with those on the disk to which its header refers.
fn read_entries<D: Disk>(alloc: Global, disk: &mut D, table: &mut GPT) -> Answered {
    let sector_size = table.sector_size;
    if sector_size == 0 {
        return Err(Fault::Requires);
    }
    let entries = table.header.read_partitions(alloc, disk, sector_size)?;
    if entries.len() > u32::MAX as usize {
        return Err(Fault::Requires);
    }
    *table = GPT::from_parts(sector_size, table.header, entries, table.align);
    Ok(Answer::Done)
}
