//! Plans a write: of other entries, of a new table, or of the table fitted to another length.

ghost use Rattle.std.specs.Prelude.{◌≡◌, ◌≢◌, ◌≤◌, ◌<◌, ◌⊎◌, ◌+◌, ℕ, List, length, take, All, ◌∷◌};
ghost use Rattle.gptman.specs.Layout.{HasLayout};
ghost use Rattle.gptman.specs.Table.{new_table_of};
ghost use Rattle.gptman_plan.specs.Asking.{fit_ranges, plan_ranges, value_ranges};
ghost use Rattle.gptman_plan.specs.Dos.{IsDosDisk};
ghost use Rattle.gptman_plan.specs.Ends.{HasEnds, IsKnown};
ghost use Rattle.gptman_plan.specs.Plan.{acts_of, IsWriteOrSync, StepFits};
ghost use Rattle.gptman_plan.specs.Planning.{AreNoEnds, HasPlan, IsFitPlan, IsMiscounted, IsNewPlan};
ghost use Rattle.gptman_plan.specs.Planning.{IsNotStatedToFit, IsNumberOf, IsOfOtherLayout, IsOfOtherLength};
ghost use Rattle.gptman_plan.specs.Planning.{IsPlan, needed_after, refusal_number, RefusesFit, RefusesNew};
ghost use Rattle.gptman_plan.specs.Planning.{RefusesPlan};
ghost use Rattle.gptman_plan.specs.Rounds.{first_sector, IsAmong};

use crate::checking::{OVER_DOS, refuse_dos};
use gptman_plan::ends::Ends;
use gptman_plan::faults::{BAD_ARGUMENT, LACKS_BYTES, LACKS_ROOM, OTHER_LAYOUT, OTHER_LENGTH};
use gptman_plan::fitting::plan_fit;
use gptman_plan::making::plan_new;
use gptman_plan::planning::{PlanError, plan};
use gptman_plan::record::Record;
use gptman_plan::records::{Needed, Partition, Step, Table};
use std::alloc::Global;

/// Plans a write of the table on the disk with other entries.
///
/// `head`, `tail`, `disk_size` and `sector_size` are as for `gptman_read`. `partitions` has all entries of the new
/// table, unused ones included, as many as the table has. The steps are stored in `steps`, and the bytes that they
/// write in `bytes`. Carry out the steps in order, each only after the previous one succeeded. They write and sync the
/// other copy first, then the one that was read. A crash between or within the steps leaves the old table or the new
/// one in one place at least, whatever the state of the other copy, and bytes outside the two copies are unchanged.
/// After all steps both places hold the new table.
///
/// Returns:
///
/// - 0: `steps` has the `needed.steps` steps, and `bytes` their bytes.
/// - 1 to 16: the table cannot be read, as for `gptman_read`; or 9: two partitions would have the same unique GUID; 10:
///   an entry ends before it starts, two partitions overlap, or one is outside the usable sectors; 8 or 14: a copy
///   would end past the disk; 15: an allocation failed.
/// - 103: the plan needs `needed.length` bytes of the disk from byte `needed.from`, and neither `head` nor `tail` has
///   all of them.
/// - 104: `steps` has fewer than `needed.steps` elements, or `bytes` fewer than `needed.bytes`.
/// - 105: `sector_size` is 0, the two ends together are longer than the disk, `partitions` does not have as many
///   entries as the table, the table has none, or `flags` is above 1.
/// - 100: the table was made for a disk of another length: its headers are not those of sector 1 and the last whole
///   sector. `gptman_fit` fits it.
/// - 101: the table was made for this length, but the copy that was read is not in the form of its place, or the table
///   does not have the stated layout for another reason.
/// - 102: `flags` is 0, and the first 512 bytes are an MBR with its own partitions: it has the signature, each of its
///   four entries begins with a boot mark, one is used, and none is that of a protective MBR. If `flags` is 1, this is
///   not checked.
#[unsafe(no_mangle)]
pub extern "C" fn gptman_write(
    alloc: Global,
    head: &[u8],
    tail: &[u8],
    disk_size: u64,
    sector_size: u64,
    partitions: &[Partition],
    steps: &mut [Step],
    bytes: &mut [u8],
    needed: &mut Needed,
    flags: u32,
) -> u32
    ensures plan { result ≡ 0 → (b : List ℕ) → HasEnds b head.now tail.now disk_size
        → IsPlan b sector_size partitions.now (acts_of bytes.new (take needed.new.steps steps.new)) }
    ensures fits { result ≡ 0 → (needed.new.steps ≤ length steps.new) × (needed.new.bytes ≤ length bytes.new) }
    ensures steps_fit { result ≡ 0
        → All (StepFits disk_size needed.new.bytes) (take needed.new.steps steps.new) }
    ensures kinds { result ≡ 0 → All IsWriteOrSync (take needed.new.steps steps.new) }
    ensures refused { 0 < result → result ≤ 16 → result ≢ 15 → (b : List ℕ)
        → HasEnds b head.now tail.now disk_size
        → IsNumberOf (RefusesPlan b sector_size partitions.now) result }
    ensures lacks { result ≡ 103
        → ¬ IsKnown (length head.now) (length tail.now) disk_size (needed.new.from, needed.new.length) }
    ensures within { result ≡ 103 → needed.new.from + needed.new.length ≤ disk_size }
    ensures whole { result ≡ 103 → length head.now + length tail.now < disk_size }
    ensures asked { result ≡ 103 → (b : List ℕ) → HasEnds b head.now tail.now disk_size
        → IsAmong (needed.new.from, needed.new.length) (first_sector ∷ plan_ranges b sector_size) }
    ensures room { result ≡ 104
        → (length steps.old < needed.new.steps) ⊎ (length bytes.old < needed.new.bytes) }
    ensures suffices { result ≡ 104 → HasPlan (λ acts. (b : List ℕ) → HasEnds b head.now tail.now disk_size
        → IsPlan b sector_size partitions.now acts) needed.new }
    ensures bad { result ≡ 105 → AreNoEnds head.now tail.now disk_size sector_size ⊎ ((1 < flags)
        ⊎ ((b : List ℕ) → HasEnds b head.now tail.now disk_size → IsMiscounted b sector_size partitions.now)) }
    ensures other_length { result ≡ 100 → (b : List ℕ) → HasEnds b head.now tail.now disk_size
        → IsOfOtherLength b sector_size }
    ensures other_layout { result ≡ 101 → (b : List ℕ) → HasEnds b head.now tail.now disk_size
        → IsOfOtherLayout b sector_size }
    ensures dos_disk { result ≡ 102 → (flags ≡ 0) × ((b : List ℕ) → HasEnds b head.now tail.now disk_size
        → IsDosDisk b) }
    ensures no_dos_disk { result ≡ 0 → flags ≡ 0 → (b : List ℕ) → HasEnds b head.now tail.now disk_size
        → ¬ IsDosDisk b }
    ensures most { (result ≤ 16) ⊎ ((100 ≤ result) × (result ≤ 105)) }

    // Outputs that the result does not define are unchanged.
    ensures steps { result ≢ 0 → steps.new ≡ steps.old }
    ensures bytes { result ≢ 0 → bytes.new ≡ bytes.old }
    ensures needed { result ≢ 0 → result ≢ 103 → result ≢ 104 → needed.new ≡ needed.old }
{
    if sector_size == 0 || flags > OVER_DOS {
        return BAD_ARGUMENT;
    }
    let Some(ends) = Ends::new(head, tail, disk_size) else {
        return BAD_ARGUMENT;
    };
    let seen = refuse_dos(&ends, flags, needed);
    if seen != 0 {
        return seen;
    }
    match plan(alloc, &ends, sector_size, partitions) {
        Ok(plan) => give(&plan, steps, bytes, needed),
        Err(refusal) => refuse(&refusal, needed),
    }
}

/// Plans a write of a new table, in which all entries are unused. It takes the disk GUID and the number of entries from
/// `table`.
///
/// `head`, `tail`, `disk_size` and `sector_size` are as for `gptman_read`; the steps are returned and carried out as
/// for `gptman_write`. After all steps both places hold the table; bytes outside the two copies are unchanged. The
/// backup copy is written first. So if the primary place holds a table, and its copy there does not overlap the new
/// backup copy, a crash between or within the steps leaves that table or the new one.
///
/// Returns what `gptman_write` returns, except 100 and the errors of a read. 14 and 10 mean that the disk has too few
/// sectors for two copies; 105 also that the number of entries is 0, or that the disk is shorter than a sector; 101
/// that the table would not have the stated layout, as with sectors too short for a header.
#[unsafe(no_mangle)]
pub extern "C" fn gptman_new(
    alloc: Global,
    head: &[u8],
    tail: &[u8],
    disk_size: u64,
    sector_size: u64,
    table: &Table,
    steps: &mut [Step],
    bytes: &mut [u8],
    needed: &mut Needed,
    flags: u32,
) -> u32
    ensures plan { result ≡ 0 → (b : List ℕ) → HasEnds b head.now tail.now disk_size
        → IsNewPlan b (new_table_of table.now.entry_count table.now.disk_guid sector_size disk_size)
        (acts_of bytes.new (take needed.new.steps steps.new)) }
    ensures fits { result ≡ 0 → (needed.new.steps ≤ length steps.new) × (needed.new.bytes ≤ length bytes.new) }
    ensures steps_fit { result ≡ 0
        → All (StepFits disk_size needed.new.bytes) (take needed.new.steps steps.new) }
    ensures kinds { result ≡ 0 → All IsWriteOrSync (take needed.new.steps steps.new) }
    ensures refused { 0 < result → result ≤ 16 → result ≢ 15
        → IsNumberOf (RefusesNew table.now.entry_count table.now.disk_guid sector_size disk_size) result }
    ensures lacks { result ≡ 103
        → ¬ IsKnown (length head.now) (length tail.now) disk_size (needed.new.from, needed.new.length) }
    ensures within { result ≡ 103 → needed.new.from + needed.new.length ≤ disk_size }
    ensures whole { result ≡ 103 → length head.now + length tail.now < disk_size }
    ensures asked { result ≡ 103 → IsAmong (needed.new.from, needed.new.length) (first_sector ∷ value_ranges
        (new_table_of table.now.entry_count table.now.disk_guid sector_size disk_size) disk_size) }
    ensures room { result ≡ 104
        → (length steps.old < needed.new.steps) ⊎ (length bytes.old < needed.new.bytes) }
    ensures suffices { result ≡ 104 → HasPlan (λ acts. (b : List ℕ) → HasEnds b head.now tail.now disk_size
        → IsNewPlan b (new_table_of table.now.entry_count table.now.disk_guid sector_size disk_size) acts)
        needed.new }
    ensures bad { result ≡ 105 → AreNoEnds head.now tail.now disk_size sector_size ⊎ ((1 < flags)
        ⊎ ((table.now.entry_count ≡ 0) ⊎ (disk_size < sector_size))) }
    ensures other_layout { result ≡ 101
        → ¬ HasLayout (new_table_of table.now.entry_count table.now.disk_guid sector_size disk_size) disk_size }
    ensures dos_disk { result ≡ 102 → (flags ≡ 0) × ((b : List ℕ) → HasEnds b head.now tail.now disk_size
        → IsDosDisk b) }
    ensures no_dos_disk { result ≡ 0 → flags ≡ 0 → (b : List ℕ) → HasEnds b head.now tail.now disk_size
        → ¬ IsDosDisk b }
    ensures most { (result ≤ 16) ⊎ ((101 ≤ result) × (result ≤ 105)) }

    // Outputs that the result does not define are unchanged.
    ensures steps { result ≢ 0 → steps.new ≡ steps.old }
    ensures bytes { result ≢ 0 → bytes.new ≡ bytes.old }
    ensures needed { result ≢ 0 → result ≢ 103 → result ≢ 104 → needed.new ≡ needed.old }
{
    if sector_size == 0 || flags > OVER_DOS {
        return BAD_ARGUMENT;
    }
    let Some(ends) = Ends::new(head, tail, disk_size) else {
        return BAD_ARGUMENT;
    };
    let seen = refuse_dos(&ends, flags, needed);
    if seen != 0 {
        return seen;
    }
    let planned = plan_new(
        alloc,
        &ends,
        sector_size,
        table.disk_guid,
        table.entry_count,
    );
    match planned {
        Ok(plan) => give(&plan, steps, bytes, needed),
        Err(refusal) => refuse(&refusal, needed),
    }
}

/// Plans a write of the table on the disk, fitted to the length that the disk has now: it is longer or shorter than the
/// disk for which the table was made. The last usable sector and the place of the backup copy become those of the new
/// length; the entries are unchanged.
///
/// `head`, `tail`, `disk_size` and `sector_size` are as for `gptman_read`, with the present `disk_size`; the steps are
/// returned and carried out as for `gptman_write`. After all steps both places hold the fitted table; bytes outside its
/// two copies are unchanged. If the primary copy was read, the backup copy is written first, at its new place, and a
/// crash between or within the steps leaves the old table or the fitted one in one place at least, whatever else is on
/// the disk.
///
/// Returns:
///
/// - 0, 102, 103 and 104: as for `gptman_write`.
/// - 1 to 16: the table cannot be read, as for `gptman_read`; or 9: two partitions have the same unique GUID; 10: an
///   entry ends before it starts, two partitions overlap, or one is outside the usable sectors, as on a disk that has
///   become too short for it or for two copies; 14: the disk has too few sectors for one copy, or the table has no
///   entries; 15: an allocation failed.
/// - 105: `sector_size` is 0, the two ends together are longer than the disk, or `flags` is above 1.
/// - 101: the copy that was read is not in the form of its place, or the fitted table does not have the stated layout.
#[unsafe(no_mangle)]
pub extern "C" fn gptman_fit(
    alloc: Global,
    head: &[u8],
    tail: &[u8],
    disk_size: u64,
    sector_size: u64,
    steps: &mut [Step],
    bytes: &mut [u8],
    needed: &mut Needed,
    flags: u32,
) -> u32
    ensures plan { result ≡ 0 → (b : List ℕ) → HasEnds b head.now tail.now disk_size
        → IsFitPlan b sector_size (acts_of bytes.new (take needed.new.steps steps.new)) }
    ensures fits { result ≡ 0 → (needed.new.steps ≤ length steps.new) × (needed.new.bytes ≤ length bytes.new) }
    ensures steps_fit { result ≡ 0
        → All (StepFits disk_size needed.new.bytes) (take needed.new.steps steps.new) }
    ensures kinds { result ≡ 0 → All IsWriteOrSync (take needed.new.steps steps.new) }
    ensures refused { 0 < result → result ≤ 16 → result ≢ 15 → (b : List ℕ)
        → HasEnds b head.now tail.now disk_size → IsNumberOf (RefusesFit b sector_size) result }
    ensures lacks { result ≡ 103
        → ¬ IsKnown (length head.now) (length tail.now) disk_size (needed.new.from, needed.new.length) }
    ensures within { result ≡ 103 → needed.new.from + needed.new.length ≤ disk_size }
    ensures whole { result ≡ 103 → length head.now + length tail.now < disk_size }
    ensures asked { result ≡ 103 → (b : List ℕ) → HasEnds b head.now tail.now disk_size
        → IsAmong (needed.new.from, needed.new.length) (first_sector ∷ fit_ranges b sector_size) }
    ensures room { result ≡ 104
        → (length steps.old < needed.new.steps) ⊎ (length bytes.old < needed.new.bytes) }
    ensures suffices { result ≡ 104 → HasPlan (λ acts. (b : List ℕ) → HasEnds b head.now tail.now disk_size
        → IsFitPlan b sector_size acts) needed.new }
    ensures bad { result ≡ 105 → AreNoEnds head.now tail.now disk_size sector_size ⊎ (1 < flags) }
    ensures other_layout { result ≡ 101 → (b : List ℕ) → HasEnds b head.now tail.now disk_size
        → IsNotStatedToFit b sector_size }
    ensures dos_disk { result ≡ 102 → (flags ≡ 0) × ((b : List ℕ) → HasEnds b head.now tail.now disk_size
        → IsDosDisk b) }
    ensures no_dos_disk { result ≡ 0 → flags ≡ 0 → (b : List ℕ) → HasEnds b head.now tail.now disk_size
        → ¬ IsDosDisk b }
    ensures most { (result ≤ 16) ⊎ ((101 ≤ result) × (result ≤ 105)) }

    // Outputs that the result does not define are unchanged.
    ensures steps { result ≢ 0 → steps.new ≡ steps.old }
    ensures bytes { result ≢ 0 → bytes.new ≡ bytes.old }
    ensures needed { result ≢ 0 → result ≢ 103 → result ≢ 104 → needed.new ≡ needed.old }
{
    if sector_size == 0 || flags > OVER_DOS {
        return BAD_ARGUMENT;
    }
    let Some(ends) = Ends::new(head, tail, disk_size) else {
        return BAD_ARGUMENT;
    };
    let seen = refuse_dos(&ends, flags, needed);
    if seen != 0 {
        return seen;
    }
    match plan_fit(alloc, &ends, sector_size) {
        Ok(plan) => give(&plan, steps, bytes, needed),
        Err(refusal) => refuse(&refusal, needed),
    }
}

// Returns the number of a refusal, and the range that it asks for.
fn refuse(refusal: &PlanError, needed: &mut Needed) -> u32
    ensures answer { result ≡ refusal_number refusal.now }
    ensures needed { needed.new ≡ needed_after refusal.now needed.old }
{
    match refusal {
        PlanError::BadArgument => BAD_ARGUMENT,
        PlanError::Refused(fault) => fault.number(),
        PlanError::Lacks(lack) => {
            needed.from = lack.from;
            needed.length = lack.length;
            LACKS_BYTES
        }
        PlanError::OtherLength => OTHER_LENGTH,
        PlanError::OtherLayout => OTHER_LAYOUT,
    }
}

// Copies the plan into the arrays of the caller, if they are long enough.
fn give(plan: &Record, steps: &mut [Step], bytes: &mut [u8], needed: &mut Needed) -> u32
    ensures given { result ≡ 0 → acts_of bytes.new (take needed.new.steps steps.new)
        ≡ acts_of plan.now.bytes.items plan.now.steps.items }
    ensures fits { result ≡ 0 → (needed.new.steps ≤ length steps.new) × (needed.new.bytes ≤ length bytes.new) }
    ensures steps_fit { result ≡ 0
        → All (StepFits plan.now.size needed.new.bytes) (take needed.new.steps steps.new) }
    ensures kinds { result ≡ 0 → All IsWriteOrSync (take needed.new.steps steps.new) }
    ensures count { needed.new.steps ≡ length plan.now.steps.items }
    ensures filled { needed.new.bytes ≡ length plan.now.bytes.items }
    ensures room { result ≡ 104
        → (length steps.old < needed.new.steps) ⊎ (length bytes.old < needed.new.bytes) }
    ensures either { (result ≡ 0) ⊎ (result ≡ 104) }
    ensures steps { result ≢ 0 → steps.new ≡ steps.old }
    ensures bytes { result ≢ 0 → bytes.new ≡ bytes.old }
{
    needed.steps = plan.steps.len() as u64;
    needed.bytes = plan.bytes.len() as u64;
    if plan.give(steps, bytes) {
        0
    } else {
        LACKS_ROOM
    }
}
