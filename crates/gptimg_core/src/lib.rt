//! The program `gptimg` as a library: parses its arguments, runs the command on a disk, and prints the result.
//!
//! `run` works on any disk and any writer. The program calls it with a file and standard output.
#![tactic(auto)]

ghost use Rattle.std.specs.Prelude.{◌≡◌, ◌≢◌, ◌≤◌, ◌↔◌, ℕ, List, Ok, IfErr, IfOk, IsTrue, OnOk};
ghost use Rattle.std.specs.Io.KnownBytes.{Appends};
ghost use Rattle.gptman.specs.Disk.{IsHonest, Keeps, OnlyRead};
ghost use Rattle.gptman.specs.Fault.{fault_of, io as io_fault};
ghost use Rattle.gptimg_core.specs.Asks.{AskFor, AskForAny, AskToWrite};
ghost use Rattle.gptimg_core.specs.Prints.{outcome_status, Runs};
ghost use Rattle.gptimg_core.specs.Spelling.{spell, IsAllowed, IsSpelled};
ghost use Rattle.gptimg_core.specs.declared.words.Command.{Command};

use crate::commands::Report;
use gptman::{Disk, Result};
use std::alloc::Global;
use std::io::Write;

mod commands;
mod lines;
mod words;

/// The usage line, with its newline.
pub const USAGE: &str = "usage: gptimg IMAGE SECTOR COMMAND [WORDS]\n";

/// The status of a successful command.
const DONE: u8 = 0;

/// The status of a failed command.
const FAULT: u8 = 1;

/// The status for words that are not a command.
const NO_COMMAND: u8 = 2;

/// Runs the command `SECTOR COMMAND ..` on the disk, and prints the result to `out`. SECTOR is the sector size in
/// bytes, or, except for `new`, `mbr` and `check`, the word `auto`: then the size is found. Returns the exit status: 0
/// if the command succeeded, 1 if it failed, 2 if the words are not a command.
///
/// - `new GUID` writes a new table with this disk GUID to both places, and prints `ok`.
/// - `show` prints a line for the table on the disk, and a line for each used entry.
/// - `free ALIGN` prints the free ranges, each from its first multiple of ALIGN, as `START LENGTH`.
/// - `add NUMBER TYPE UNIQUE SIZE WHERE ALIGN NAME` adds a partition of SIZE sectors at a multiple of ALIGN, with the
///   number of an unused entry, and prints `NUMBER START..END`. WHERE is `first`, `last`, or `best`: the start of the
///   shortest range of `free ALIGN` that is large enough.
/// - `remove NUMBER` removes an entry, `sort` sorts the entries, and both print `ok`.
/// - `grow` fits the table to the length of the disk, and prints `ok`.
/// - `mbr KIND` writes a protective MBR, `plain` or `bootable`, and prints `ok`.
/// - `check` prints for each copy whether it is good or its fault, and whether both are one table. If they are not, the
///   status is 1.
///
/// If the command fails, it prints only `fault: NAME`. If the words are not a command, the usage line is printed and
/// the disk is not used.
///
/// # Errors
///
/// `Io` if `out` failed, and no other error. The disk then holds what the command wrote.
pub fn run<D: Disk, W: Write>(
    alloc: Global,
    words: &[String],
    disk: &mut D,
    out: &mut W,
) -> Result<u8>
    ensures keeps { Keeps (D.state disk.old) (D.state disk.new) }

    // The status is 2 exactly if the words are not a command. The only error is `Io`.
    ensures status { IfOk result (λ status. status ≤ 2) }
    ensures asks { IfOk result (λ status. (status ≡ 2) ↔ ¬ AskForAny words.now) }
    ensures asked { IfOk result (λ status. status ≢ 2 → AskForAny words.now) }
    ensures refused { IfErr result (λ e. fault_of e ≡ io_fault) }

    // If the words are not a command, the disk is not used, and the usage line is printed.
    ensures usage { result ≡ Ok 2 → disk.new ≡ disk.old }
    ensures not_asked { ¬ AskForAny words.now → disk.new ≡ disk.old }
    ensures prints_usage { ¬ AskForAny words.now
        → OnOk result (Appends (W.contents out.old) (W.contents out.new) USAGE.now) }

    // If the words are a command, it is run, and its result is printed.
    ensures runs { (command : Command) → AskFor words.now command
        → Runs command result (D.state disk.old) (D.state disk.new)
        (W.contents out.old) (W.contents out.new) }

    // Without a command that writes, the disk is only read.
    ensures reads { IsHonest (D.state disk.old) → ¬ AskToWrite words.now
        → OnlyRead (D.state disk.old) (D.state disk.new) }
{
    let Some(command) = words::parse(words) else {
        out.write_all(USAGE.as_bytes())?;
        return Ok(NO_COMMAND);
    };
    let outcome = commands::perform(alloc, &command, disk);
    lines::print_outcome(out, &outcome)?;
    Ok(status_of(&outcome))
}

/// Reports whether the words `SECTOR COMMAND ..` are a command that writes to the disk. Otherwise `run` at most reads
/// it.
pub fn may_write(words: &[String]) -> bool
    ensures { IsTrue result ↔ AskToWrite words.now }
{
    match words::parse(words) {
        Some(command) => command.writes(),
        None => false,
    }
}

/// A law: each command with allowed values is spelled by its usual words, with decimal numbers without leading zeros
/// and digits in lower case. The call does nothing.
pub fn usual_words_spell()
    ensures { (command : Command) → IsAllowed command → IsSpelled (spell command) command }
{}

/// A law: words spell at most one such command. The call does nothing.
pub fn words_spell_one()
    ensures { (words : List (List ℕ)) (a b : Command) → IsSpelled words a → IsAllowed a
        → IsSpelled words b → IsAllowed b → a ≡ b }
{}

// Returns the exit status for a result.
fn status_of(outcome: &Result<Report>) -> u8
    ensures { result ≡ outcome_status outcome.now }
{
    match outcome {
        Ok(Report::Copies(copies)) if !copies.are_same => FAULT,
        Ok(_) => DONE,
        Err(_) => FAULT,
    }
}
