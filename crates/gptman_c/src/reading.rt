//! Reads the table of a disk.

ghost use Rattle.std.specs.Prelude.{◌≡◌, ◌≢◌, ◌≤◌, ◌<◌, ◌⊎◌, ◌+◌, ℕ, List, length};
ghost use Rattle.gptman.specs.Reading.{reading_of, taken_from};
ghost use Rattle.gptman_plan.specs.Crossing.{HasCount, IsRefused, IsReturned};
ghost use Rattle.gptman_plan.specs.Ends.{HasEnds, IsKnown};
ghost use Rattle.gptman_plan.specs.Rounds.{reading_ranges, IsAmong};

use gptman_plan::ends::Ends;
use gptman_plan::faults::{BAD_ARGUMENT, LACKS_BYTES};
use gptman_plan::reading::{Reading, read};
use gptman_plan::records::{Needed, Partition, Table};
use gptman_plan::storing::store_table;
use std::alloc::Global;

/// Reads the table of a disk.
///
/// `head` has the first bytes of the disk and `tail` the last ones; both may have any length, and they do not overlap.
/// `disk_size` and `sector_size` are in bytes. The result is the same whatever the disk holds between the two ends; if
/// it would depend on that, 103 is returned. Then read more, and call again with longer ends.
///
/// Returns:
///
/// - 0: `table` is the table of the disk, and the first `table.entry_count` elements of `partitions` are its entries,
///   unused ones included. The other elements are unspecified.
/// - 1 to 16: no copy is good. 2 means that neither copy has a signature, or that the disk is shorter than a sector; 7,
///   that the copies have other faults; 15, that an allocation failed, which says nothing about the disk. A read
///   returns no other error.
/// - 103: neither `head` nor `tail` has all `needed.length` bytes of the disk from byte `needed.from`.
/// - 104: `partitions` is too short for the `table.entry_count` entries of the table.
/// - 105: `sector_size` is 0, or the two ends together are longer than the disk.
#[unsafe(no_mangle)]
pub extern "C" fn gptman_read(
    alloc: Global,
    head: &[u8],
    tail: &[u8],
    disk_size: u64,
    sector_size: u64,
    table: &mut Table,
    partitions: &mut [Partition],
    needed: &mut Needed,
) -> u32
    ensures read { result ≡ 0 → (b : List ℕ) → HasEnds b head.now tail.now disk_size
        → IsReturned (reading_of b sector_size) (taken_from b sector_size) table.new partitions.new }
    ensures refused { 0 < result → result ≤ 16 → result ≢ 15 → (b : List ℕ)
        → HasEnds b head.now tail.now disk_size → IsRefused (reading_of b sector_size) result }
    ensures faults { 0 < result → result ≤ 16 → (result ≡ 2) ⊎ ((result ≡ 7) ⊎ (result ≡ 15)) }
    ensures lacks { result ≡ 103
        → ¬ IsKnown (length head.now) (length tail.now) disk_size (needed.new.from, needed.new.length) }
    ensures within { result ≡ 103 → needed.new.from + needed.new.length ≤ disk_size }
    ensures whole { result ≡ 103 → length head.now + length tail.now < disk_size }
    ensures asked { result ≡ 103 → (b : List ℕ) → HasEnds b head.now tail.now disk_size
        → IsAmong (needed.new.from, needed.new.length) (reading_ranges b sector_size) }
    ensures room { result ≡ 104 → length partitions.old < table.new.entry_count }
    ensures count { result ≡ 104 → (b : List ℕ) → HasEnds b head.now tail.now disk_size
        → HasCount (reading_of b sector_size) table.new.entry_count }
    ensures bad { result ≡ 105
        → (sector_size ≡ 0) ⊎ (disk_size < length head.now + length tail.now) }
    ensures most { (result ≤ 16) ⊎ ((103 ≤ result) × (result ≤ 105)) }

    // Outputs that the result does not define are unchanged.
    ensures table { result ≢ 0 → result ≢ 104 → table.new ≡ table.old }
    ensures partitions { result ≢ 0 → partitions.new ≡ partitions.old }
    ensures needed { result ≢ 103 → needed.new ≡ needed.old }
{
    if sector_size == 0 {
        return BAD_ARGUMENT;
    }
    let Some(ends) = Ends::new(head, tail, disk_size) else {
        return BAD_ARGUMENT;
    };
    match read(alloc, &ends, sector_size) {
        Reading::Table {
            table: found,
            is_backup,
        } => store_table(&found, is_backup, table, partitions),
        Reading::Fault(fault) => fault.number(),
        Reading::Lacks(lack) => {
            needed.from = lack.from;
            needed.length = lack.length;
            LACKS_BYTES
        }
    }
}
