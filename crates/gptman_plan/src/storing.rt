//! Stores the table that was read where the caller expects it.

ghost use Rattle.std.specs.Prelude.{◌≡◌, ◌≢◌, ◌<◌, ◌⊎◌, length, replicate, Ok};
ghost use Rattle.gptman.specs.TableReads.{copy_of, IsAsRead};
ghost use Rattle.gptman_plan.specs.Crossing.{copy_place_number, HasPlaces, IsReturned};
ghost use Rattle.gptman_plan.specs.Reading.{copy_place_of};

use crate::faults::LACKS_ROOM;
use crate::partitions::fill;
use crate::records::{Partition, Table};
use gptman::GPT;

/// Stores the table, and its entries if the array is long enough. Returns 0, or `LACKS_ROOM`.
pub fn store_table(
    found: &GPT,
    is_backup: bool,
    table: &mut Table,
    partitions: &mut [Partition],
) -> u32
    requires { IsAsRead found.now }
    ensures stored { result ≡ 0
        → IsReturned (Ok (copy_of found.now)) (copy_place_of is_backup) table.new partitions.new }
    ensures room { result ≡ 104 → length partitions.old < table.new.entry_count }
    ensures count { table.new.entry_count ≡ found.now.header.number_of_partition_entries }
    ensures answers { (result ≡ 0) ⊎ (result ≡ 104) }
    ensures partitions { result ≢ 0 → partitions.new ≡ partitions.old }
{
    *table = table_of(found, is_backup);
    if partitions.len() < found.header.number_of_partition_entries as usize {
        return LACKS_ROOM;
    }
    fill(found, partitions);
    0
}

// Returns the table in the form of C.
fn table_of(found: &GPT, is_backup: bool) -> Table
    ensures disk_guid { result.disk_guid ≡ found.now.header.disk_guid }
    ensures first_usable { result.first_usable_lba ≡ found.now.header.first_usable_lba }
    ensures last_usable { result.last_usable_lba ≡ found.now.header.last_usable_lba }
    ensures align { result.align ≡ found.now.align }
    ensures count { result.entry_count ≡ found.now.header.number_of_partition_entries }
    ensures from { result.is_backup ≡ copy_place_number (copy_place_of is_backup) }
    ensures places { HasPlaces (copy_place_of is_backup) found.now.header result }
    ensures reserved { result.reserved ≡ replicate 6 0 }
{
    let header = &found.header;
    let table = Table {
        disk_guid: header.disk_guid,
        first_usable_lba: header.first_usable_lba,
        last_usable_lba: header.last_usable_lba,
        align: found.align,
        entry_count: header.number_of_partition_entries,
        is_backup: u32::from(is_backup),
        primary_header_lba: header.primary_lba,
        primary_entries_lba: header.partition_entry_lba,
        backup_header_lba: header.backup_lba,
        backup_entries_lba: header.last_usable_lba.saturating_add(1),
        reserved: [0; 6],
    };
    if !is_backup {
        return table;
    }
    Table {
        primary_header_lba: header.backup_lba,
        primary_entries_lba: 2,
        backup_header_lba: header.primary_lba,
        backup_entries_lba: header.partition_entry_lba,
        ..table
    }
}
