//! Reports a change.

use crate::commands::How;
use crate::failure::{Failure, refuse_error};
use crate::image::Image;
use crate::looking::free_in;
use crate::planning::Plan;
use crate::task::{Task, Work};
use gptedit_look::{Look, MbrChange, MbrKind, Purpose};
use gptedit_report::{
    CopiesState, TableChange, UnlistedText, WhatText, changed_json, find_unlisted, print_changes,
    show_table,
};
use gptman::check;
use std::alloc::Global;
use std::io::Write;

/// The first line of the report of a dry run.
pub const DRY: &[u8] = b"a dry run, nothing is written:\n";

/// A change that was made, or would be.
#[derive(Clone, Copy)]
pub struct Done<'a> {
    /// The task.
    pub task: &'a Task,
    /// The plan.
    pub plan: &'a Plan,
    /// Whether a crash may leave neither the old table nor the new one.
    pub may_lose: bool,
}

/// Prints how the table changed, or would change.
pub fn report<W: Write>(
    out: &mut W,
    alloc: Global,
    image: &mut Image<'_>,
    look: &Look,
    done: &Done<'_>,
    how: How,
) -> Result<(), Failure> {
    let Done {
        task,
        plan,
        may_lose,
    } = *done;
    if how.is_json {
        return report_json(out, alloc, image, look, done, how);
    }
    if how.is_dry && plan.is_needed() {
        out.write_all(DRY)?;
    }
    if may_lose {
        out.write_all(b"a crash may leave neither table\n")?;
    }
    if let Some(replaced) = &plan.replaced {
        let (obstacle, remains) = (replaced.obstacle, replaced.remains);
        let (first, last) = (obstacle.first, obstacle.last);
        let what = WhatText {
            what: obstacle.what,
            remains,
        };
        writeln!(
            out,
            "sectors {first}..{last} are replaced, where there is {what}"
        )?;
    }
    report_table(out, alloc, image, look, task, plan)?;
    report_mbr(out, look, task.purpose, plan.mbr)?;
    report_hybrid(out, alloc, look, plan)
}

// Prints the table and the change as JSON, with the state of both copies after the change.
fn report_json<W: Write>(
    out: &mut W,
    alloc: Global,
    image: &mut Image<'_>,
    look: &Look,
    done: &Done<'_>,
    how: How,
) -> Result<(), Failure> {
    let plan = done.plan;
    if how.is_dry && plan.is_changed {
        return print_json(out, alloc, image, look, done, &CopiesState::Good, how);
    }
    let sector_size = plan.next.sector_size.max(1);
    let copies = match check(alloc, &mut image.opened.disk, sector_size) {
        Ok(copies) => copies,
        Err(error) => return Err(refuse_error(alloc, image.name, &error)),
    };
    let state = CopiesState::new(&copies.primary, &copies.backup, copies.are_same);
    print_json(out, alloc, image, look, done, &state, how)
}

// Prints the table and the change as JSON, with this state of both copies.
fn print_json<W: Write>(
    out: &mut W,
    alloc: Global,
    image: &Image<'_>,
    look: &Look,
    done: &Done<'_>,
    state: &CopiesState<'_>,
    how: How,
) -> Result<(), Failure> {
    let plan = done.plan;
    let table = &plan.next;
    let free = free_in(alloc, image, look, table, table.align)?;
    let change = TableChange {
        was: plan.was.as_ref(),
        next: Some(table),
        matches: &done.task.matches,
        is_needed: plan.is_needed(),
        is_dry: how.is_dry,
    };
    let text = changed_json(alloc, image.name, look.size, table, state, &free, change)?;
    writeln!(out, "{text}")?;
    Ok(())
}

// Prints how the table changes.
fn report_table<W: Write>(
    out: &mut W,
    alloc: Global,
    image: &Image<'_>,
    look: &Look,
    task: &Task,
    plan: &Plan,
) -> Result<(), Failure> {
    let next = &plan.next;
    match (&task.work, &plan.was) {
        _ if !plan.is_changed => out.write_all(b"unchanged\n")?,
        (Work::Edit(_), _) if task.purpose == Purpose::Repair => {
            out.write_all(b"both copies are rewritten\n")?
        }
        (Work::Edit(_) | Work::Reshape(_) | Work::Grow(_), Some(was)) => {
            print_changes(out, alloc, was, next, &task.matches)?
        }
        _ => show_table(out, alloc, image.name, look.size, next, &CopiesState::Good)?,
    }
    Ok(())
}

// Prints what happens to the MBR. Nothing is printed for a new table, which always has a protective MBR.
fn report_mbr<W: Write>(
    out: &mut W,
    look: &Look,
    purpose: Purpose,
    mbr: MbrChange,
) -> Result<(), Failure> {
    let may_move = matches!(purpose, Purpose::Repair | Purpose::Fit);
    match (mbr, purpose) {
        (MbrChange::Left, _) | (_, Purpose::New) => (),
        (MbrChange::Made, _) => out.write_all(b"a protective MBR is written\n")?,
        (MbrChange::Mended, _) => {
            if may_move && !look.first_sector.is_start_right {
                out.write_all(b"the protective MBR starts in sector 1 again\n")?;
            }
            out.write_all(b"the protective MBR gets the length of the disk\n")?
        }
    }
    Ok(())
}

// Prints the entries of a hybrid MBR that no longer match a partition.
fn report_hybrid<W: Write>(
    out: &mut W,
    alloc: Global,
    look: &Look,
    plan: &Plan,
) -> Result<(), Failure> {
    let Some(was) = &plan.was else {
        return Ok(());
    };
    if look.first_sector.kind != MbrKind::Hybrid {
        return Ok(());
    }
    for listed in find_unlisted(alloc, &look.first_sector, was, &plan.next)?.iter() {
        writeln!(out, "{}", UnlistedText(*listed))?;
    }
    Ok(())
}
