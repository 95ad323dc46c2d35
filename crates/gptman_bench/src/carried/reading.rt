//! Tests of reading.

use super::{BACKUP_1, BACKUP_2, DISK_1, DISK_2, break_primary, first, second};
use crate::asserts::{Host, assert_shown, got};
use crate::fixtures::{
    assert_finds, assert_reads, complement, holding, image_of, new_table, partition, reread,
};
use gptman::{Disk, Edit, GPT, GPTHeader, GPTPartitionEntry, MemoryDisk, PartitionName};
use std::process::Abort;
use test_fixtures::calls::apply;
use test_fixtures::samples::name_of_units;

// Reads the header at this byte of the disk.
fn header_at(rt: &impl Abort, disk: &mut MemoryDisk, at: u64) -> GPTHeader {
    got(rt, disk.seek_start(at));
    got(rt, GPTHeader::read_from(disk))
}

// Reads the entry at this byte of the disk.
fn read_entry(rt: &impl Host, disk: &mut MemoryDisk, at: u64) -> GPTPartitionEntry {
    got(rt, disk.seek_start(at));
    got(rt, GPTPartitionEntry::read_from(rt.alloc(), disk))
}

// Returns 128 bytes from this byte of the disk on.
fn bytes_at(rt: &impl Abort, disk: &mut MemoryDisk, at: u64) -> [u8; 128] {
    let mut bytes = [0; 128];
    got(rt, disk.seek_start(at));
    got(rt, disk.read_exact(&mut bytes));
    bytes
}

// Reads the entry at this byte of the disk. Asserts that it encodes to the bytes there, and whether it is used.
fn entry_at(rt: &impl Host, disk: &mut MemoryDisk, at: u64, is_used: bool) -> GPTPartitionEntry {
    let entry = read_entry(rt, disk, at);
    assert!(rt; entry.encode() == bytes_at(rt, disk, at), "at {at}");
    assert!(rt; entry.is_used() == is_used && entry.is_unused() != is_used);
    entry
}

// Reads the 128 entries from this byte on one by one. Only the first two are used.
fn entries_at(rt: &impl Host, disk: &mut MemoryDisk, at: u64) -> Vec<GPTPartitionEntry> {
    let mut entries = Vec::new(rt.alloc());
    for number in 0..128_u64 {
        let entry = entry_at(rt, disk, at.saturating_add(128 * number), number < 2);
        got(rt, entries.push(entry));
    }
    entries
}

// Asserts that both checksums of the header are right and not 0.
fn assert_checksums(rt: &impl Abort, header: &GPTHeader, entries: &[GPTPartitionEntry]) {
    assert!(rt; header.header_size == 92 && header.size_of_partition_entry == 128);
    assert!(rt; entries.len() == header.number_of_partition_entries as usize);
    let array = header.generate_partition_entry_array_crc32(entries);
    assert!(rt; array != 0 && array == header.partition_entry_array_crc32);
    let own = header.generate_crc32_checksum();
    assert!(rt; own != 0 && own == header.crc32_checksum);
}

// Asserts that updating the checksums does not change the header.
fn assert_updated(rt: &impl Abort, header: &GPTHeader, entries: &[GPTPartitionEntry]) {
    assert!(rt; header.header_size == 92 && header.size_of_partition_entry == 128);
    assert!(rt; entries.len() == header.number_of_partition_entries as usize);
    let mut updated = *header;
    updated.update_partition_entry_array_crc32(entries);
    updated.update_crc32_checksum();
    assert!(rt; updated == *header);
}

// Asserts that each entry can be read from a disk with the table of this header.
fn assert_entries(rt: &impl Host, disk: &mut MemoryDisk, header: &GPTHeader, sector_size: u64) {
    let at = header.partition_entry_lba.saturating_mul(sector_size);
    let entries = entries_at(rt, disk, at);
    assert_checksums(rt, header, &entries);
    assert_updated(rt, header, &entries);
}

// Asserts that both headers and each entry can be read from a disk with the table.
fn assert_read(rt: &impl Host, table: &GPT) {
    let size = table.sector_size;
    let mut disk = holding(rt, &image_of(rt, table));
    let header = header_at(rt, &mut disk, size);
    header_at(rt, &mut disk, header.backup_lba.saturating_mul(size));
    assert_entries(rt, &mut disk, &header, size);
}

#[test]
fn read_header_and_partition_entries(rt: HostRuntime) {
    assert_read(&rt, &first(&rt));
    assert_read(&rt, &second(&rt));
}

// Asserts that the table is read with its own sector size only, and that this size is detected.
fn assert_primary(rt: &impl Host, table: &GPT, other_size: u64, said: &str) {
    let image = image_of(rt, table);
    assert_reads(rt, &image, table.sector_size, said);
    assert_finds(rt, &image, said);
    assert_reads(rt, &image, other_size, "invalid signature");
}

#[test]
fn read_and_find_from_primary(rt: HostRuntime) {
    assert_primary(&rt, &first(&rt), 4096, DISK_1);
    assert_primary(&rt, &second(&rt), 512, DISK_2);
}

#[test]
fn input_too_short(rt: HostRuntime) {
    assert_reads(&rt, &[1; 5], 512, "invalid signature");
}

// Asserts that the backup copy is read and found if the primary header has a wrong checksum.
fn assert_backup(rt: &impl Host, table: &GPT, said: &str) {
    let mut image = image_of(rt, table);
    break_primary(rt, &mut image, table);
    assert_reads(rt, &image, table.sector_size, said);
    assert_finds(rt, &image, said);
}

#[test]
fn find_backup(rt: HostRuntime) {
    assert_backup(&rt, &first(&rt), BACKUP_1);
    assert_backup(&rt, &second(&rt), BACKUP_2);
}

// Returns a name of "Name with garbage", a zero, and letters.
fn garbage(rt: &impl Host) -> PartitionName {
    let mut units = [0x41; 36];
    for (unit, byte) in units.iter_mut().zip(b"Name with garbage\0") {
        *unit = u16::from(*byte);
    }
    let name = got(rt, name_of_units(rt.alloc(), &units));
    assert!(rt; *name.units() == units);
    name
}

// Asserts that the table is read with this text after its second entry got that name.
fn assert_label(rt: &impl Host, mut table: GPT, sectors: (u64, u64), said: &str) {
    let mut entry = partition(rt, ("", 0x0c), sectors);
    entry.partition_name = garbage(rt);
    got(rt, apply(&mut table, Edit::Put(2, entry)));
    assert_shown(rt, &reread(rt, &table), said);
}

#[test]
fn read_label_with_trailing_garbage_in_names(rt: HostRuntime) {
    let said = "512 1/99/2 34..66 align 2, 1 Foo 34..43, 2 Name with garbage 48..52";
    assert_label(&rt, first(&rt), (48, 52), said);
    let said = "4096 1/99/2 6..94 align 2, 1 Foo 6..15, 2 Name with garbage 70..79";
    assert_label(&rt, second(&rt), (70, 79), said);
}

#[test]
fn gpt_read_from_on_image_with_corrupted_partition_entry_array_crc32_in_primary(rt: HostRuntime) {
    let mut image = image_of(&rt, &first(&rt));
    complement(&rt, &mut image, 1024);
    assert_reads(&rt, &image, 512, BACKUP_1);
}

// Asserts that a new table for the disk of this one has the same bounds.
fn assert_same_bounds(rt: &impl Host, table: &GPT) {
    let mut disk = holding(rt, &image_of(rt, table));
    let new = new_table(rt, &mut disk, table.sector_size).header;
    assert!(rt; new.backup_lba == table.header.backup_lba);
    assert!(rt; new.last_usable_lba == table.header.last_usable_lba);
    assert!(rt; new.first_usable_lba == table.header.first_usable_lba);
}

#[test]
fn create_new_gpt(rt: HostRuntime) {
    assert_same_bounds(&rt, &first(&rt));
    assert_same_bounds(&rt, &second(&rt));
}
