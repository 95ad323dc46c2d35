//! Times calls.

use crate::calls::{Call, Case};
use gptman::Result;
use std::time::{Clock, Instant};

// The number of rounds of each call.
const ROUNDS: u32 = 9;

// The approximate duration of a round in nanoseconds.
const ROUND: u64 = 4_000_000;

/// Returns the shortest time of the call in nanoseconds, of several rounds.
pub fn least_time<C: Clock>(clock: &C, case: &mut Case, call: Call) -> Result<u64> {
    let mut least = time_of(clock, case, call, 1)?;
    let repeats = repeats_for(least);
    for _ in 0..ROUNDS {
        least = least.min(time_of(clock, case, call, repeats)?);
    }
    Ok(least)
}

// Returns how many calls of `time` nanoseconds are made in a round.
fn repeats_for(time: u64) -> u32 {
    let repeats = ROUND / time.max(1);
    repeats.clamp(1, 10_000) as u32
}

// Returns the average time of `repeats` calls in nanoseconds.
fn time_of<C: Clock>(clock: &C, case: &mut Case, call: Call, repeats: u32) -> Result<u64> {
    let start = Instant::now(clock)?;
    for _ in 0..repeats {
        case.make(call)?;
    }
    let spent = start.elapsed(clock)?.as_nanos();
    Ok(u64::try_from(spent / u128::from(repeats.max(1))).unwrap_or(u64::MAX))
}

/// Returns the rate in megabytes per second of `bytes` bytes in `time` nanoseconds.
pub fn rate(bytes: usize, time: u64) -> u64 {
    (bytes as u64).saturating_mul(1000) / time.max(1)
}
