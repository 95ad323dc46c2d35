//! The command `check`: findings, and the commands that correct them.

use crate::failure::Failure;
use crate::image::Image;
use crate::looking::state_of;
use crate::planning::make_plan;
use crate::tasks::mend;
use gptedit_look::Look;
use gptedit_report::{Finding, Way, check_json, find_all, is_nothing_wrong, print_check};
use gptedit_words::{Lock, Options};
use std::fs::File;
use std::io::Write;
use std::random::RandomSource;
use std::rt::Files;

/// Prints the findings, each with the first command whose dry run is not refused. Returns the exit status.
pub fn check<R, W: Write>(
    rt: &R,
    out: &mut W,
    image: &mut Image<'_>,
    look: &Look,
    is_json: bool,
) -> Result<u8, Failure>
where
    R: Files<File = File> + RandomSource + AllocGlobal + Clone + Drop,
{
    let alloc = rt.alloc();
    let mut findings = find_all(alloc, look, image.opened.device.is_some())?;
    let mut tried = Vec::new(alloc);
    for finding in findings.iter_mut() {
        keep_way(rt, image, look, &mut tried, finding)?;
    }
    if is_json {
        let text = check_json(alloc, image.name, &state_of(look), &findings)?;
        writeln!(out, "{text}")?;
    } else {
        print_check(out, image.name, &findings)?;
    }
    Ok(status_of(look, &findings))
}

fn status_of(look: &Look, findings: &[Finding<'_>]) -> u8 {
    if look.table.is_none() {
        return 3;
    }
    if is_nothing_wrong(findings) { 0 } else { 1 }
}

// A command whose dry run was tried, and whether it was accepted.
#[derive(Drop)]
struct Tried {
    way: Way,
    is_done: bool,
}

// Keeps only the first command of a finding whose dry run is not refused.
fn keep_way<R>(
    rt: &R,
    image: &mut Image<'_>,
    look: &Look,
    tried: &mut Vec<Tried>,
    finding: &mut Finding<'_>,
) -> Result<(), Failure>
where
    R: Files<File = File> + RandomSource + AllocGlobal + Clone + Drop,
{
    let ways = std::mem::replace(&mut finding.ways, Vec::new(rt.alloc()));
    for way in ways {
        if !finding.ways.is_empty() {
            continue;
        }
        let known = tried.iter().find(|one| one.way == way);
        let is_done = match known {
            Some(one) => one.is_done,
            None => {
                let is_done = is_done(rt, image, look, &way)?;
                let way = way.clone()?;
                tried.push(Tried { way, is_done })?;
                is_done
            }
        };
        if is_done {
            finding.ways.push(way)?;
        }
    }
    Ok(())
}

// Reports whether a dry run of the command is not refused.
fn is_done<R>(rt: &R, image: &mut Image<'_>, look: &Look, way: &Way) -> Result<bool, Failure>
where
    R: Files<File = File> + RandomSource + AllocGlobal + Clone + Drop,
{
    let Some(table) = &look.table else {
        return Ok(false);
    };
    let mut task = mend(rt, image, look, table, way)?;
    match make_plan(rt, image, look, &mut task, &PLAIN) {
        Ok(_plan) => Ok(true),
        Err(Failure::OutOfMemory) => Err(Failure::OutOfMemory),
        Err(_refused) => Ok(false),
    }
}

// The options of a dry run without other options.
const PLAIN: Options<'static> = Options {
    is_fitted: false,
    is_dry: true,
    may_overwrite: false,
    may_use: false,
    lock: Lock::Wait,
    backup: None,
};
