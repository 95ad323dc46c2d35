//! The alignment that a read derives from a table's entries.

ghost use Rattle.std.specs.Prelude.{◌<◌};
ghost use Rattle.std.specs.Int.{IsGcd};
ghost use Rattle.gptman.specs.Alignment.{used_starts, IsAlignmentOf, IsGreatestUpTo};

use crate::GPTPartitionEntry;

/// The alignment of a table without used entries, in sectors.
pub(crate) const DEFAULT_ALIGN: u64 = 2048;

// The largest alignment that is derived, in sectors.
const MAX_ALIGN: u64 = 16384;

/// Returns the alignment of these entries, in sectors: 2048 if none is used, 1 if the only used one starts at
/// the first usable sector or all start at 0, else the largest number up to 16384 that divides the start of
/// each used entry.
pub(crate) fn find_alignment(entries: &[GPTPartitionEntry], first_usable_lba: u64) -> u64
    ensures { IsAlignmentOf first_usable_lba (used_starts entries.now) result }
{
    let mut common = 0;
    let mut count = 0_usize;
    for entry in entries {
        if entry.is_used() {
            common = gcd(common, entry.starting_lba);
            count += 1;
        }
    }
    if count == 0 {
        DEFAULT_ALIGN
    } else if common == 0 {
        1
    } else if count == 1 && common == first_usable_lba {
        1
    } else {
        capped_divisor(common)
    }
}

// Returns the greatest common divisor.
fn gcd(mut a: u64, mut b: u64) -> u64
    ensures { IsGcd a b result }
{
    while b != 0 {
        let rest = a % b;
        a = b;
        b = rest;
    }
    a
}

// Returns the largest divisor of the number, up to `MAX_ALIGN`.
fn capped_divisor(number: u64) -> u64
    requires { 0 < number }
    ensures { IsGreatestUpTo number result }
{
    let mut divisor = number.min(MAX_ALIGN);
    while number % divisor != 0 {
        divisor -= 1;
    }
    divisor
}
