//! Calls that allocate memory, each made with ample memory or with one failing allocation. Prints whether each kept its
//! promises.
//!
//! A line of standard input is the name of a call, optionally with a second word (`Turn`). The line that is printed has
//! the name and `done`, `refused`, or the failure. The runner selects the allocation: `scripts/growths` lets each
//! allocation of a call fail.
#![tactic(auto)]

mod commands;
mod counted;
mod disks;
mod files;
mod held;
mod large;
mod lives;
mod memory;
mod noted;
mod places;
mod readings;
mod shape;
mod shape_calls;
mod values;
mod verdict;
mod writings;

use crate::memory::{Memory, Turn};
use crate::verdict::Verdict;
use gptman::Result;
use std::alloc::Global;
use std::fs::File;
use std::io;
use std::rt::Files;

fn main(rt: HostRuntime) -> io::Result<()> {
    for line in rt.lines(rt.alloc()) {
        try_line(&rt, line?.as_str())?;
    }
    Ok(())
}

// Makes the call that this line names, and prints the result.
fn try_line<R: Files<File = File> + Print + AllocGlobal>(rt: &R, line: &str) -> io::Result<()> {
    let mut words = line.split_whitespace();
    let name = words.next().unwrap_or("");
    let turn = Turn::named(words.next().unwrap_or(""));
    let mut memory = Memory::new(rt.alloc(), turn);
    let said = said_of(&try_call(rt, name, &mut memory));
    match memory.counted() {
        Some(growths) => println!(rt; "{name}: {said} {growths}"),
        None => println!(rt; "{name}: {said}"),
    }
}

// Returns the text of a result.
fn said_of(made: &Option<Result<Verdict>>) -> &'static str {
    match made {
        Some(Ok(verdict)) => verdict.text(),
        Some(Err(_)) => "what it needs could not be made",
        None => "there is no such call",
    }
}

// Makes the call of this name, or returns `None` if there is none.
fn try_call<R: Files<File = File> + AllocGlobal>(
    files: &R,
    name: &str,
    memory: &mut Memory,
) -> Option<Result<Verdict>> {
    if let Some(made) = values::try_call(name, memory) {
        return Some(made);
    }
    if let Some(made) = readings::try_call(name, memory) {
        return Some(made);
    }
    if let Some(made) = places::try_call(name, memory) {
        return Some(made);
    }
    if let Some(made) = disks::try_call(name, memory) {
        return Some(made);
    }
    if let Some(made) = writings::try_call(name, memory) {
        return Some(made);
    }
    if let Some(made) = commands::try_call(name, memory) {
        return Some(made);
    }
    if let Some(made) = files::try_call(files, name, memory) {
        return Some(made);
    }
    if let Some(made) = counted::try_call(name, memory) {
        return Some(made);
    }
    try_large(name, memory.alloc())
}

// The same for the calls that are made only with ample memory.
fn try_large(name: &str, alloc: Global) -> Option<Result<Verdict>> {
    if let Some(made) = large::try_call(name, alloc) {
        return Some(made);
    }
    if let Some(made) = lives::try_call(name, alloc) {
        return Some(made);
    }
    shape::try_call(name, alloc)
}
