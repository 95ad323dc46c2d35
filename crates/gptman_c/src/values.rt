//! Places, names, bytes and numbers, without a disk.

ghost use Rattle.std.specs.Prelude.{◌≡◌, ◌≢◌, ◌≤◌, ◌<◌, ◌⊎◌, ◌+◌, None, Some, length, take, drop, nat_eq, ◌∷◌};
ghost use Rattle.std.specs.Prelude.{◌++◌, IsUtf8};
ghost use Rattle.std.specs.Str.{chars};
ghost use Rattle.gptman.specs.Crc.{crc_of};
ghost use Rattle.gptman.specs.Fault.{Fault, fault_number, variant_name};
ghost use Rattle.gptman.specs.Mbr.{mbr_bytes, mbr_fault};
ghost use Rattle.gptman.specs.Name.{units_of};
ghost use Rattle.gptman_plan.specs.Crossing.{IsOffer};
ghost use Rattle.gptman_plan.specs.Faults.{answer_name};
ghost use Rattle.gptman_plan.specs.Naming.{name_text};
ghost use Rattle.gptman_plan.specs.Planning.{IsNumberOf};

use gptman::crc::crc32;
use gptman::table::mbr::protective_mbr;
use gptman_plan::faults::{self, BAD_ARGUMENT, LACKS_ROOM, NO_SPACE_LEFT, OUT_OF_MEMORY};
use gptman_plan::naming::{copy_text, name_of, units_for};
use gptman_plan::offers::find_place;
use gptman_plan::records::{Partition, Table};
use std::alloc::Global;

/// Finds a place for a partition of `size` sectors (0 counts as 1) in the free sectors of a table with these
/// partitions. `choice` is 1 for the first place, 2 for the last, and 3 for one in the smallest free range that is
/// large enough. The place is a multiple of `table.align`, and stays free until `partitions` change.
///
/// Returns:
///
/// - 0: `first_lba` is the first sector of the place.
/// - 8: there is no such place.
/// - 15: an allocation failed.
/// - 105: `table.align` is 0, `choice` is none of the above, or `partitions` has more than 2^32 - 1 elements.
#[unsafe(no_mangle)]
pub extern "C" fn gptman_place(
    alloc: Global,
    table: &Table,
    partitions: &[Partition],
    size: u64,
    choice: u32,
    first_lba: &mut u64,
) -> u32
    ensures place { result ≡ 0 → IsOffer table.now partitions.now choice size (Some first_lba.new) }
    ensures none { result ≡ 8 → IsOffer table.now partitions.now choice size None }
    ensures bad { result ≡ 105
        → (table.now.align ≡ 0) ⊎ ((choice ≡ 0) ⊎ ((3 < choice) ⊎ (4294967295 < length partitions.now))) }
    ensures answers { (result ≡ 0) ⊎ ((result ≡ 8) ⊎ ((result ≡ 15) ⊎ (result ≡ 105))) }
    ensures first_lba { result ≢ 0 → first_lba.new ≡ first_lba.old }
{
    let is_long = partitions.len() as u64 > u64::from(u32::MAX);
    if table.align == 0 || choice == 0 || choice > 3 || is_long {
        return BAD_ARGUMENT;
    }
    match find_place(alloc, table, partitions, size, choice) {
        Ok(Some(first)) => {
            *first_lba = first;
            0
        }
        Ok(None) => NO_SPACE_LEFT,
        Err(_) => OUT_OF_MEMORY,
    }
}

/// Encodes the name of a partition as UTF-8 into `text`, followed by a zero. The name ends before its first zero unit;
/// an unpaired surrogate becomes U+FFFD.
///
/// Returns:
///
/// - 0: the name is stored; bytes after the zero are unchanged.
/// - 15: an allocation failed.
/// - 104: `text` is too short for the name and the zero; 109 bytes are always enough.
#[unsafe(no_mangle)]
pub extern "C" fn gptman_get_name(alloc: Global, partition: &Partition, text: &mut [u8]) -> u32
    ensures text { result ≡ 0 → text.new ≡ name_text partition.now.name
        ++ 0 ∷ drop (length (name_text partition.now.name) + 1) text.old }
    ensures room { result ≡ 104 → length text.old ≤ length (name_text partition.now.name) }
    ensures answers { (result ≡ 0) ⊎ ((result ≡ 15) ⊎ (result ≡ 104)) }
    ensures kept { result ≢ 0 → text.new ≡ text.old }
{
    let Ok(name) = name_of(alloc, partition) else {
        return OUT_OF_MEMORY;
    };
    if copy_text(name.as_str().as_bytes(), text) {
        0
    } else {
        LACKS_ROOM
    }
}

/// Sets the name of a partition to these bytes of UTF-8, padded with zeros.
///
/// Returns:
///
/// - 0: `gptman_get_name` returns these bytes.
/// - 15: an allocation failed.
/// - 105: the bytes are not UTF-8, contain a zero, or take more than 36 units of UTF-16.
#[unsafe(no_mangle)]
pub extern "C" fn gptman_set_name(alloc: Global, partition: &mut Partition, text: &[u8]) -> u32
    ensures name { result ≡ 0
        → partition.new ≡ record partition.old { name = units_of (chars text.now) } }
    ensures back { result ≡ 0 → name_text partition.new.name ≡ text.now }
    ensures bad { result ≡ 105 → IsUtf8 text.now → name_text (units_of (chars text.now)) ≢ text.now }
    ensures answers { (result ≡ 0) ⊎ ((result ≡ 15) ⊎ (result ≡ 105)) }
    ensures kept { result ≢ 0 → partition.new ≡ partition.old }
{
    let Ok(text) = str::from_utf8(text) else {
        return BAD_ARGUMENT;
    };
    match units_for(alloc, text) {
        Ok(Some(units)) => {
            partition.name = units;
            0
        }
        Ok(None) => BAD_ARGUMENT,
        Err(_) => OUT_OF_MEMORY,
    }
}

/// Encodes the name of an answer into `text`, followed by a zero: that of the error with this number, or of an answer of
/// the calls themselves. It is "Ok" for 0, and "Unknown" for a number that no call returns.
///
/// Returns:
///
/// - 0: the name is stored; bytes after the zero are unchanged.
/// - 104: `text` is too short for the name and the zero; 35 bytes are always enough.
#[unsafe(no_mangle)]
pub extern "C" fn gptman_fault_name(answer: u32, text: &mut [u8]) -> u32
    ensures text { result ≡ 0 → text.new ≡ answer_name answer
        ++ 0 ∷ drop (length (answer_name answer) + 1) text.old }
    ensures fault { result ≡ 0 → (fault : Fault) → answer ≡ fault_number fault
        → text.new ≡ variant_name fault ++ 0 ∷ drop (length (variant_name fault) + 1) text.old }
    ensures room { result ≡ 104 → length text.old ≤ length (answer_name answer) }
    ensures longest { result ≡ 104 → length text.old < 35 }
    ensures answers { (result ≡ 0) ⊎ (result ≡ 104) }
    ensures kept { result ≢ 0 → text.new ≡ text.old }
{
    if copy_text(faults::name_of(answer).as_bytes(), text) {
        0
    } else {
        LACKS_ROOM
    }
}

/// Encodes the protective MBR of a disk of `disk_size` bytes into the first 66 elements of `bytes`. They belong at byte
/// 446 of the disk, and show the whole disk as one partition to programs that do not know GUID partition tables.
/// `bootable` is 1 to mark that partition as bootable, else 0.
///
/// Returns:
///
/// - 0: the 66 bytes are stored; the other elements are unchanged.
/// - 8: the disk is at least one sector long, but shorter than 512 bytes.
/// - 14: the disk is shorter than a sector.
/// - 104: `bytes` has fewer than 66 elements.
/// - 105: `sector_size` is 0, or `bootable` is above 1.
#[unsafe(no_mangle)]
pub extern "C" fn gptman_mbr(
    disk_size: u64,
    sector_size: u64,
    bootable: u32,
    bytes: &mut [u8],
) -> u32
    ensures bytes { result ≡ 0 → take 66 bytes.new ≡ mbr_bytes (nat_eq bootable 1) sector_size disk_size }
    ensures rest { drop 66 bytes.new ≡ drop 66 bytes.old }
    ensures fits { result ≡ 0 → mbr_fault sector_size disk_size ≡ None }
    ensures refused { 0 < result → result ≤ 14
        → IsNumberOf (λ fault. mbr_fault sector_size disk_size ≡ Some fault) result }
    ensures room { result ≡ 104 → length bytes.old < 66 }
    ensures bad { result ≡ 105 → (sector_size ≡ 0) ⊎ (1 < bootable) }
    ensures answers { (result ≡ 0) ⊎ ((result ≡ 8) ⊎ ((result ≡ 14)
        ⊎ ((result ≡ 104) ⊎ (result ≡ 105)))) }
    ensures kept { result ≢ 0 → bytes.new ≡ bytes.old }
{
    if sector_size == 0 || bootable > 1 {
        return BAD_ARGUMENT;
    }
    if bytes.len() < 66 {
        return LACKS_ROOM;
    }
    match protective_mbr(sector_size, disk_size, bootable == 1) {
        Ok(mbr) => {
            bytes[..66].copy_from_slice(&mbr);
            0
        }
        Err(fault) => fault.number(),
    }
}

/// Returns the CRC-32 of these bytes, as used for headers and entries.
#[unsafe(no_mangle)]
pub extern "C" fn gptman_crc32(bytes: &[u8]) -> u32
    ensures { result ≡ crc_of bytes.now }
{
    crc32(bytes)
}

/// Returns the number of the binary interface.
#[unsafe(no_mangle)]
pub extern "C" fn gptman_abi() -> u32
    ensures { result ≡ 1 }
{
    1
}

/// Returns the version MAJOR.MINOR.PATCH of the library as MAJOR * 65536 + MINOR * 256 + PATCH.
#[unsafe(no_mangle)]
pub extern "C" fn gptman_version() -> u32
    ensures { result ≡ 256 }
{
    1 << 8
}
