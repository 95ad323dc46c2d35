//! The program `gptedit COMMAND IMAGE ..`: shows and edits the GUID partition table of a disk image or a block device.
//!
//! `gptedit_words` parses the command line, `gptedit_text` layouts, and `gptedit_report` prints. `gptedit_busy` opens
//! the image, `gptedit_look` inspects it, and `gptedit_core` changes the table. This crate plans a change as a dry run,
//! refuses it if it would overwrite something without the option for it, makes it, and reports it.
#![tactic(auto)]

mod backup;
mod changing;
mod checking;
mod commands;
mod drawing;
mod failure;
mod fitted;
mod image;
mod layouts;
mod looking;
mod losses;
mod making;
mod mbr;
mod measuring;
mod negatives;
mod own;
mod planning;
mod query;
mod remains;
mod reporting;
mod selecting;
mod task;
mod tasks;
mod telling;
mod using;
mod wiping;

use crate::failure::Failure;
use crate::negatives::place_negatives;
use gptedit_words::{CommandLine, read_words};
use std::fs::File;
use std::io::{BufWriter, ErrorKind, Write};
use std::process::ExitCode;
use std::random::RandomSource;
use std::rt::{Env, Files};
use std::{env, io};

/// The capacity of the output buffer in bytes. A table of 128 entries fits, whatever the names.
const PIECE: usize = 65536;

fn main(rt: HostRuntime) -> ExitCode {
    match run(&rt) {
        Ok(status) => ExitCode::from(status),
        Err(failure) => {
            let _ = eprintln!(rt; "gptedit: {failure}");
            ExitCode::from(failure.status())
        }
    }
}

// Runs the command line and returns the exit status: that of the command, else that of the parser (0 for `--help`, 2
// for a usage error).
fn run<R>(rt: &R) -> Result<u8, Failure>
where
    R: Env
        + Files<File = File>
        + RandomSource
        + Input
        + Print
        + Eprint
        + AllocGlobal
        + Clone
        + Drop,
{
    let alloc = rt.alloc();
    let words: Vec<String> = match env::args(rt) {
        Ok(words) => words.collect(alloc)?,
        Err(error) if error.kind() == ErrorKind::InvalidData => {
            eprint_not_utf8(rt);
            return Ok(2);
        }
        Err(error) => return Err(Failure::from(error)),
    };
    let words = place_negatives(alloc, words)?;
    let request = match read_words(alloc, words.as_slice()) {
        Ok(request) => request,
        Err(error) => {
            error.print(rt)?;
            return Ok(error.exit_code());
        }
    };
    let is_json = is_json(&request);
    match perform(rt, request) {
        Ok(status) => Ok(status),
        Err(failure) => {
            if is_json {
                failure.print_json(rt);
            }
            Err(failure)
        }
    }
}

// Reports whether the output is JSON.
fn is_json(request: &CommandLine<'_>) -> bool {
    match request {
        CommandLine::Types { is_json } => *is_json,
        CommandLine::Image(asked) => asked.is_json,
    }
}

// Performs a request and returns the exit status.
fn perform<R>(rt: &R, request: CommandLine<'_>) -> Result<u8, Failure>
where
    R: Files<File = File> + RandomSource + Input + Print + Eprint + AllocGlobal + Clone + Drop,
{
    let alloc = rt.alloc();
    let mut out = BufWriter::with_capacity(alloc, PIECE, io::writer(rt))?;
    let status = match request {
        CommandLine::Types { is_json } => commands::print_types(alloc, &mut out, is_json)?,
        CommandLine::Image(asked) => commands::perform(rt, &mut out, asked)?,
    };
    out.flush()?;
    Ok(status)
}

// Explains how to name an image whose path is not UTF-8.
fn eprint_not_utf8<R: Eprint>(rt: &R) {
    let _ = eprintln!(rt; "gptedit: an argument is not UTF-8");
    let _ = eprintln!(rt; "let the shell open such a path: `gptedit show /dev/fd/3 3<>PATH`");
}
