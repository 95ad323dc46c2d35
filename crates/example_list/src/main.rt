//! Lists the partitions of a disk image: `example_list IMAGE`.
#![tactic(auto)]

use gptman::{FileDisk, GPT, Result};
use std::env;
use std::process::ExitCode;

fn main(rt: HostRuntime) -> Result<ExitCode> {
    let Some(image) = env::args(&rt)?.nth(1) else {
        println!(rt; "usage: example_list IMAGE")?;
        return Ok(ExitCode::FAILURE);
    };
    let mut disk = FileDisk::open_read(&rt, image.as_str())?;
    let table = GPT::find_from(rt.alloc(), &mut disk)?;
    for (number, entry) in table.iter() {
        if entry.is_used() {
            let (first, last, name) = (entry.starting_lba, entry.ending_lba, &entry.partition_name);
            println!(rt; "{number} {first}..{last} {name}")?;
        }
    }
    Ok(ExitCode::SUCCESS)
}
