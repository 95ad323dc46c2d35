//! Tests whether a table that was read has the stated layout.

ghost use Rattle.std.specs.Prelude.{◌≡◌, ◌<◌, ◌↔◌, ◌+◌, IsTrue};
ghost use Rattle.gptman.specs.Layout.{HasLayout, HasRightSectors, IsLaidOut};
ghost use Rattle.gptman.specs.Reading.{primary, backup};
ghost use Rattle.gptman.specs.Table.{table_in, IsHeaderForm};
ghost use Rattle.gptman_plan.specs.Reading.{copy_place_of};

use gptman::{GPT, GPTHeader};

/// Reports whether the two headers of the table are those of sector 1 and of the last whole sector of a disk of `size`
/// bytes.
pub fn is_made_for(table: &GPT, size: u64) -> bool
    requires { 0 < table.now.sector_size }
    ensures { IsTrue result ↔ HasRightSectors (table_in table.now) table.now.sector_size size }
{
    let header = &table.header;
    let last = (size / table.sector_size).saturating_sub(1);
    header.primary_lba.min(header.backup_lba) == last.min(1)
        && header.primary_lba.max(header.backup_lba) == last.max(1)
}

/// Reports whether the table has the stated layout on a disk of `size` bytes, and its header the form of its place.
pub fn is_stated(table: &GPT, is_backup: bool, size: u64) -> bool
    ensures { IsTrue result ↔ (IsHeaderForm (copy_place_of is_backup) table.now.header
        × IsLaidOut (table_in table.now) table.now.sector_size size) }
{
    is_of_side(&table.header, is_backup) && table.has_layout(size)
}

/// Reports whether the header has the form of the backup copy, or of the primary one.
pub fn is_of_side(header: &GPTHeader, is_backup: bool) -> bool
    ensures { IsTrue result ↔ IsHeaderForm (copy_place_of is_backup) header.now }
{
    if is_backup {
        is_backup_header(header)
    } else {
        is_primary_header(header)
    }
}

fn is_primary_header(header: &GPTHeader) -> bool
    ensures { IsTrue result ↔ IsHeaderForm primary header.now }
{
    header.primary_lba == 1 && header.partition_entry_lba == 2
}

fn is_backup_header(header: &GPTHeader) -> bool
    ensures { IsTrue result ↔ IsHeaderForm backup header.now }
{
    let entries = header.partition_entry_lba;
    header.backup_lba == 1 && entries > 0 && entries - 1 == header.last_usable_lba
}
