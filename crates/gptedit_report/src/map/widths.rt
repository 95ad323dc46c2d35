//! Divides the cells of a map among the regions of a disk.

ghost use Rattle.std.specs.Prelude.{◌≡◌, ◌≢◌, ◌≤◌, ◌<◌, ◌+◌, ◌*◌, ◌-◌, ◌/◌, ◌^◌, [], length, max, sum, vec_len, All, IfOk};

use std::alloc::{AllocError, Global};

/// The width of a map in cells.
pub(crate) const CELLS: usize = 64;

/// Returns the widths in cells of regions of these lengths: one cell each, and what is left of [`CELLS`] in proportion.
/// Each region ends within half a cell of its exact place.
pub(crate) fn widths_of(alloc: Global, lengths: &[u64]) -> Result<Vec<usize>, AllocError>
    ensures count { IfOk result (λ widths. vec_len widths ≡ length lengths.now) }
    ensures least { IfOk result (λ widths. All (λ width. 1 ≤ width) widths.items) }
    ensures whole { lengths.now ≢ [] → IfOk result (λ widths. sum widths.items ≡ max 64 (length lengths.now)) }
{
    let spare = CELLS.saturating_sub(lengths.len());
    let total = total_of(lengths);
    let mut widths = Vec::with_capacity(alloc, lengths.len())?;
    let mut passed = 0;
    let mut used = 0;
    for length in lengths {
        passed += u128::from(*length);
        let until = share_of(spare, passed, total);
        widths.push(1 + until - used)?;
        used = until;
    }
    Ok(widths)
}

fn total_of(lengths: &[u64]) -> u128
    ensures value { result ≡ sum lengths.now }
    ensures bound { result ≤ length lengths.now * (2 ^ 64 - 1) }
{
    let mut total = 0;
    for length in lengths {
        total += u128::from(*length);
    }
    total
}

// Returns the share of `spare` cells that `part` has of `whole`, rounded.
fn share_of(spare: usize, part: u128, whole: u128) -> usize
    requires part { part ≤ whole }
    requires fits { (spare + 1) * whole < 2 ^ 128 }
    ensures whole { part ≡ whole → result ≡ spare }
    ensures share { part < whole → result ≡ (spare * part + whole / 2) / whole }
{
    if part == whole {
        return spare;
    }
    ((spare as u128 * part + whole / 2) / whole) as usize
}
