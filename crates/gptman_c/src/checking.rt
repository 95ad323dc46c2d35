//! Checks both copies, and looks for a partition table of DOS.

ghost use Rattle.std.specs.Prelude.{◌≡◌, ◌≢◌, ◌≤◌, ◌<◌, ◌⊎◌, ◌+◌, ℕ, List, length, [], ◌∷◌};
ghost use Rattle.gptman_plan.specs.Checking.{IsCheckResult};
ghost use Rattle.gptman_plan.specs.Dos.{IsDosDisk};
ghost use Rattle.gptman_plan.specs.Ends.{HasEnds, HaveRange, IsKnown};
ghost use Rattle.gptman_plan.specs.Reading.{OfEvery};
ghost use Rattle.gptman_plan.specs.Rounds.{first_sector, reading_ranges, IsAmong};

use gptman_plan::checking::{Look, look_at_both};
use gptman_plan::dos::{Seen, look_for_dos};
use gptman_plan::ends::Ends;
use gptman_plan::faults::{BAD_ARGUMENT, DOS_DISK, LACKS_BYTES, OUT_OF_MEMORY};
use gptman_plan::records::{Check, Needed};
use std::alloc::Global;

/// Reports the fault of each copy, and whether both places hold one table, as `gptimg check` does.
///
/// `head`, `tail`, `disk_size` and `sector_size` are as for `gptman_read`, and the result is the same whatever the disk
/// holds between the two ends.
///
/// Returns:
///
/// - 0: `check` describes both copies. A disk shorter than a sector has no backup copy, which is fault 2. Two good
///   copies are not the same if they are of two tables, or if one is not in the form of its place.
/// - 15: an allocation failed, which says nothing about the disk.
/// - 103 and 105: as for `gptman_read`.
#[unsafe(no_mangle)]
pub extern "C" fn gptman_check(
    alloc: Global,
    head: &[u8],
    tail: &[u8],
    disk_size: u64,
    sector_size: u64,
    check: &mut Check,
    needed: &mut Needed,
) -> u32
    ensures check { result ≡ 0 → (b : List ℕ) → HasEnds b head.now tail.now disk_size
        → IsCheckResult b sector_size check.new }
    ensures lacks { result ≡ 103
        → ¬ IsKnown (length head.now) (length tail.now) disk_size (needed.new.from, needed.new.length) }
    ensures within { result ≡ 103 → needed.new.from + needed.new.length ≤ disk_size }
    ensures whole { result ≡ 103 → length head.now + length tail.now < disk_size }
    ensures asked { result ≡ 103 → (b : List ℕ) → HasEnds b head.now tail.now disk_size
        → IsAmong (needed.new.from, needed.new.length) (reading_ranges b sector_size) }
    ensures bad { result ≡ 105
        → (sector_size ≡ 0) ⊎ (disk_size < length head.now + length tail.now) }
    ensures answers { (result ≡ 0) ⊎ ((result ≡ 15) ⊎ ((result ≡ 103) ⊎ (result ≡ 105))) }

    // Outputs that the result does not define are unchanged.
    ensures kept { result ≢ 0 → check.new ≡ check.old }
    ensures needed { result ≢ 103 → needed.new ≡ needed.old }
{
    if sector_size == 0 {
        return BAD_ARGUMENT;
    }
    let Some(ends) = Ends::new(head, tail, disk_size) else {
        return BAD_ARGUMENT;
    };
    match look_at_both(alloc, &ends, sector_size) {
        Ok(Look::Known(told)) => {
            *check = told;
            0
        }
        Ok(Look::Unknown(lack)) => {
            needed.from = lack.from;
            needed.length = lack.length;
            LACKS_BYTES
        }
        Err(_) => OUT_OF_MEMORY,
    }
}

/// Reports whether the first 512 bytes of a disk are an MBR with its own partitions, as for 102 of `gptman_write`. A
/// protective MBR would overwrite them.
///
/// `head`, `tail` and `disk_size` are as for `gptman_read`.
///
/// Returns:
///
/// - 0: they are not, or the disk is shorter than 512 bytes.
/// - 103: as for `gptman_read`.
/// - 105: the two ends together are longer than the disk.
/// - 102: they are.
#[unsafe(no_mangle)]
pub extern "C" fn gptman_dos(head: &[u8], tail: &[u8], disk_size: u64, needed: &mut Needed) -> u32
    ensures none { result ≡ 0 → (b : List ℕ) → HasEnds b head.now tail.now disk_size → ¬ IsDosDisk b }
    ensures dos_disk { result ≡ 102 → (b : List ℕ) → HasEnds b head.now tail.now disk_size → IsDosDisk b }
    ensures lacks { result ≡ 103
        → ¬ IsKnown (length head.now) (length tail.now) disk_size (needed.new.from, needed.new.length) }
    ensures within { result ≡ 103 → needed.new.from + needed.new.length ≤ disk_size }
    ensures whole { result ≡ 103 → length head.now + length tail.now < disk_size }
    ensures asked { result ≡ 103 → IsAmong (needed.new.from, needed.new.length) (first_sector ∷ []) }
    ensures bad { result ≡ 105 → disk_size < length head.now + length tail.now }
    ensures answers { (result ≡ 0) ⊎ ((result ≡ 103) ⊎ ((result ≡ 105) ⊎ (result ≡ 102))) }

    // Outputs that the result does not define are unchanged.
    ensures needed { result ≢ 103 → needed.new ≡ needed.old }
{
    let Some(ends) = Ends::new(head, tail, disk_size) else {
        return BAD_ARGUMENT;
    };
    refuse_dos(&ends, 0, needed)
}

// The flag that permits a write to a disk whose first sector has its own partitions.
pub(crate) const OVER_DOS: u32 = 1;

// Returns 102 or 103 if the first sector of the disk has its own partitions, or is not known; 0 if it has none, or the
// flag permits the write.
pub(crate) fn refuse_dos(ends: &Ends, flags: u32, needed: &mut Needed) -> u32
    requires flags { flags ≤ 1 }
    ensures none { result ≡ 0 → flags ≡ 0 → OfEvery ends.now (λ b. ¬ IsDosDisk b) }
    ensures dos_disk { result ≡ 102 → (flags ≡ 0) × OfEvery ends.now IsDosDisk }
    ensures lacks { result ≡ 103
        → ¬ HaveRange ends.now (needed.new.from, needed.new.length) }
    ensures within { result ≡ 103 → needed.new.from + needed.new.length ≤ ends.now.size }
    ensures whole { result ≡ 103 → length ends.now.head.now + length ends.now.tail.now < ends.now.size }
    ensures asked { result ≡ 103 → IsAmong (needed.new.from, needed.new.length) (first_sector ∷ []) }
    ensures answers { (result ≡ 0) ⊎ ((result ≡ 103) ⊎ (result ≡ 102)) }
    ensures needed { result ≢ 103 → needed.new ≡ needed.old }
{
    if flags == OVER_DOS {
        return 0;
    }
    match look_for_dos(ends) {
        Seen::Clear => 0,
        Seen::DosDisk => DOS_DISK,
        Seen::Unknown(lack) => {
            needed.from = lack.from;
            needed.length = lack.length;
            LACKS_BYTES
        }
    }
}
