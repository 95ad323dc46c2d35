//! Makes calls of `gptman` from rows of text. Each line of standard input is a call on named disks and tables (`row`),
//! and is printed with its answer. A line that is empty or begins with `#` is printed unchanged.
//!
//! So `stdout` is a table of expected values. `scripts/rows` makes `stdin` from it.
#![tactic(auto)]

mod answer;
mod bench;
mod disks;
mod edits;
mod entries;
mod headers;
mod places;
mod row;
mod tables;
mod values;

use crate::bench::Bench;
use std::io;

fn main(rt: HostRuntime) -> io::Result<()> {
    let mut bench = Bench::new(rt.alloc())?;
    for line in rt.lines(rt.alloc()) {
        let line = line?;
        if line.is_empty() || line.starts_with('#') {
            println!(rt; "{line}")?;
            continue;
        }
        match bench.answer(line.as_str()) {
            Ok(answer) => println!(rt; "{line} -> {answer}")?,
            Err(fault) => println!(rt; "{line} -> {fault}")?,
        }
    }
    Ok(())
}
