//! Executes a change: plans, checks, writes and reports it.

use crate::backup::{refuse_backup, write_backup};
use crate::commands::How;
use crate::failure::{Failure, refuse_asked, refuse_error};
use crate::image::Image;
use crate::mbr::change_mbr;
use crate::planning::{Plan, make_plan};
use crate::reporting::{Done, report};
use crate::task::{Became, Task, Work};
use crate::telling::kernel_line;
use gptedit_look::{Look, Purpose, clear_signatures};
use gptedit_words::Options;
use std::alloc::Global;
use std::fs::File;
use std::io::Write;
use std::rt::Files;

/// Makes a change, or with `is_dry` reports what it would do. Nothing is written before the last check. Returns the line
/// that names the command for the kernel, if a block device was written.
pub fn change<R, W: Write>(
    rt: &R,
    out: &mut W,
    image: &mut Image<'_>,
    look: &Look,
    task: &mut Task,
    options: &Options<'_>,
    how: How,
) -> Result<Option<String>, Failure>
where
    R: Files<File = File> + AllocGlobal + Clone + Drop,
{
    let alloc = rt.alloc();
    let plan = make_plan(rt, image, look, task, options)?;
    let is_needed = plan.is_needed();
    if let (Some(file), true) = (options.backup, is_needed) {
        refuse_backup(rt, image.name, file, plan.was.as_ref())?;
        if let (Some(was), false) = (&plan.was, how.is_dry) {
            write_backup(rt, image.name, file, was)?;
        }
    }
    if !how.is_dry && is_needed {
        write(alloc, image, look, task, &plan)?;
    }
    let done = Done {
        task,
        plan: &plan,
        may_lose: may_lose(look, task),
    };
    report(out, alloc, image, look, &done, how)?;
    if how.is_dry || !is_needed {
        return Ok(None);
    }
    Ok(kernel_line(alloc, image, plan.was.as_ref(), Some(&plan.next))?)
}

// Reports whether a crash during the write may leave neither table. That includes an old table of another sector size.
fn may_lose(look: &Look, task: &Task) -> bool {
    match &task.work {
        Work::Make(_) => look
            .signatures
            .iter()
            .any(|signature| signature.sector_size != look.sector_size),
        _ => task.may_lose(),
    }
}

// Writes the table, then the MBR, and last clears signatures of other sector sizes.
fn write(
    alloc: Global,
    image: &mut Image<'_>,
    look: &Look,
    task: &mut Task,
    plan: &Plan,
) -> Result<(), Failure> {
    let sector_size = look.sector_size;
    if plan.is_changed {
        if let Became::Refused { table, refusal } = task.run(alloc, image, sector_size, false)? {
            return Err(refuse_asked(alloc, image.name, table.as_ref(), sector_size, &refusal));
        }
    }
    change_mbr(alloc, image, look, task.mbr, plan.is_changed, false)?;
    if task.purpose == Purpose::New {
        if let Err(error) = clear_signatures(&mut image.opened.disk, look, sector_size) {
            return Err(refuse_error(alloc, image.name, &error));
        }
    }
    Ok(())
}
