//! Times calls of the library, on a plain disk in memory that keeps no record.
//!
//! A line of standard input is a number of used entries. For each number and call, a line is printed with the call, the
//! number, nanoseconds, and for some calls megabytes per second. Each figure is the best of several rounds.
#![tactic(auto)]

mod calls;
mod timing;

use crate::calls::{CALLS, Call, Case};
use crate::timing::{least_time, rate};
use gptman::Result;
use std::time::Clock;

fn main(rt: HostRuntime) -> Result<()> {
    println!(rt; "{:<14} {:>8} {:>12} {:>8}", "call", "used", "ns", "MB/s")?;
    for line in rt.lines(rt.alloc()) {
        match line?.as_str().parse::<u32>() {
            Ok(count) => print_calls(&rt, count)?,
            Err(_) => println!(rt; "no count")?,
        }
    }
    Ok(())
}

// Prints a line for each call on a table with `count` used entries.
fn print_calls<R: Clock + Print + AllocGlobal>(rt: &R, count: u32) -> Result<()> {
    let mut case = Case::new(rt.alloc(), count)?;
    for call in CALLS {
        print_call(rt, &mut case, call, count)?;
    }
    Ok(())
}

// Prints the line of a call.
fn print_call<R: Clock + Print>(rt: &R, case: &mut Case, call: Call, count: u32) -> Result<()> {
    let name = call.name();
    let time = least_time(rt, case, call)?;
    match case.bytes_of(call) {
        Some(bytes) => println!(rt; "{name:<14} {count:>8} {time:>12} {:>8}", rate(bytes, time))?,
        None => println!(rt; "{name:<14} {count:>8} {time:>12}")?,
    }
    Ok(())
}
