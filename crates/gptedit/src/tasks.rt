//! The tasks of the commands that change an existing table.

use crate::drawing::{draw_guid, draw_guids, request_for};
use crate::failure::{Failure, refuse_asked, refuse_error};
use crate::fitted::ends_with_disk;
use crate::image::Image;
use crate::selecting::selected;
use crate::task::{Became, Edit, Reshaping, Task, Work};
use gptedit_core::{
    Amount, Asked, Bounds, Choice, DEFAULT_ALIGN, Growth, Job, Mode, NewGuid, Refusal,
    RequestedLayout, Setting, Shape, Size, Stop, Target, alteration, count_guids, extension,
    removal, renewal, setting_layout,
};
use gptedit_look::{Look, Purpose};
use gptedit_report::{Edges, Way};
use gptguid_core::from_name;
use gptman::GPT;
use std::alloc::Global;
use std::random::RandomSource;

/// Returns the task of a job on the table that was read.
pub fn edit<R: RandomSource + AllocGlobal>(rt: &R, job: Job) -> Result<Task, Failure> {
    let purpose = match &job {
        Job::Rewrite => Purpose::Repair,
        Job::Apply(_) | Job::Sort => Purpose::Edit,
    };
    task_of(rt, job, purpose, false)
}

/// Returns the task of a job on a table that is first fitted to the disk, in the same write. If the table already ends
/// with the disk, it is that of the job.
pub fn edit_fitted<R: RandomSource + AllocGlobal>(
    rt: &R,
    look: &Look,
    table: &GPT,
    job: Job,
) -> Result<Task, Failure> {
    if ends_with_disk(table, look) {
        return edit(rt, job);
    }
    task_of(rt, job, Purpose::Fit, true)
}

/// Returns the task of a job on a table that gets this number of entries and these usable sectors, in the same write. With
/// `is_fitted` the table is first fitted to the disk. A crash leaves the old or the new table, unless no order of writes
/// does.
pub fn reshape<R: RandomSource + AllocGlobal>(
    rt: &R,
    image: &mut Image<'_>,
    look: &Look,
    job: Job,
    shape: Shape,
    is_fitted: bool,
) -> Result<Task, Failure> {
    let only_removes = only_removes(&job);
    let purpose = if is_fitted {
        Purpose::Fit
    } else {
        Purpose::Edit
    };
    let work = Work::Reshape(Reshaping::new(request_for(rt, job)?, shape, is_fitted));
    let mut task = plain(rt.alloc(), work, purpose, only_removes);
    if let Became::Refused {
        refusal: Refusal::NoSafeOrder,
        ..
    } = task.run(rt.alloc(), image, look.sector_size, true)?
    {
        task.let_lose();
    }
    Ok(task)
}

fn task_of<R: RandomSource + AllocGlobal>(
    rt: &R,
    job: Job,
    purpose: Purpose,
    is_fitted: bool,
) -> Result<Task, Failure> {
    let only_removes = only_removes(&job);
    let work = Work::Edit(Edit::new(request_for(rt, job)?, is_fitted));
    Ok(plain(rt.alloc(), work, purpose, only_removes))
}

fn only_removes(job: &Job) -> bool {
    match job {
        Job::Apply(layout) => layout.asked.is_empty(),
        Job::Sort | Job::Rewrite => false,
    }
}

// Returns the task of this work, whose entries are named by number.
fn plain(alloc: Global, work: Work, purpose: Purpose, only_removes: bool) -> Task {
    Task {
        work,
        purpose,
        mbr: purpose,
        only_removes,
        matches: Vec::new(alloc),
    }
}

/// Returns the task of `grow`.
pub fn grow(alloc: Global) -> Task {
    fit(alloc, Bounds::Kept, Purpose::Fit)
}

/// Returns the layout that changes a partition.
pub fn setting<R: RandomSource + AllocGlobal>(
    rt: &R,
    image: &str,
    table: &GPT,
    number: u32,
    setting: &Setting,
) -> Result<RequestedLayout, Failure> {
    let alloc = rt.alloc();
    let random = draw_new_guid(rt, setting.guid.unwrap_or(NewGuid::Given([0; 16])))?;
    match setting_layout(alloc, table, number, setting, random) {
        Ok(layout) => Ok(layout),
        Err(Stop::Refused(refusal)) => {
            let size = table.sector_size;
            Err(refuse_asked(alloc, image, Some(table), size, &refusal))
        }
        Err(Stop::Failed(error)) => Err(refuse_error(alloc, image, &error)),
    }
}

/// Returns the layout that sets the GUID of the disk.
pub fn disk_guid<R: RandomSource + AllocGlobal>(
    rt: &R,
    guid: NewGuid,
) -> Result<RequestedLayout, Failure> {
    let mut layout = layout_of(rt.alloc(), Mode::Change);
    layout.disk_guid = Some(draw_new_guid(rt, guid)?);
    Ok(layout)
}

// Returns the GUID, or draws a random one.
fn draw_new_guid<R: RandomSource + AllocGlobal>(
    rt: &R,
    guid: NewGuid,
) -> Result<[u8; 16], Failure> {
    match guid {
        NewGuid::Given(guid) => Ok(guid),
        NewGuid::Random => draw_guid(rt),
    }
}

// Returns the task that sets the bounds of the usable sectors.
fn fit(alloc: Global, bounds: Bounds, purpose: Purpose) -> Task {
    let growth = Growth {
        bounds,
        is_dry: true,
    };
    plain(alloc, Work::Grow(growth), purpose, false)
}

/// Returns the task of `repair`. With `has_usual_bounds` it sets the usual bounds if the table has others.
pub fn repair<R: RandomSource + AllocGlobal>(
    rt: &R,
    image: &mut Image<'_>,
    look: &Look,
    has_usual_bounds: bool,
) -> Result<Task, Failure> {
    if has_usual_bounds {
        let mut bounds = fit(rt.alloc(), Bounds::Usual, Purpose::Repair);
        let became = bounds.run(rt.alloc(), image, look.sector_size, true)?;
        if !matches!(&became, Became::Unchanged { .. }) {
            return Ok(bounds);
        }
    }
    edit(rt, Job::Rewrite)
}

/// Returns the task of `repair` of a table that does not end with the disk: it is fitted to the disk. With
/// `has_usual_bounds` all sectors between the two copies become usable, in the same write.
pub fn refit<R: RandomSource + AllocGlobal>(
    rt: &R,
    image: &mut Image<'_>,
    look: &Look,
    table: &GPT,
    has_usual_bounds: bool,
) -> Result<Task, Failure> {
    if !has_usual_bounds {
        return Ok(grow(rt.alloc()));
    }
    let edges = Edges::of(table, look.size);
    let shape = Shape {
        entries: table.header.number_of_partition_entries,
        first_usable: edges.least,
        last_usable: edges.most,
    };
    reshape(rt, image, look, Job::Rewrite, shape, true)
}

/// Returns the layout of `grow`, which extends the target, if any, and may set random GUIDs.
pub fn growth<R: RandomSource + AllocGlobal>(
    rt: &R,
    image: &str,
    table: &GPT,
    target: Option<Target<'_>>,
    has_random_guids: bool,
) -> Result<RequestedLayout, Failure> {
    let alloc = rt.alloc();
    match target {
        Some(target) if !has_random_guids => {
            selected(alloc, image, extension(alloc, table, target))
        }
        _ => random_guids(rt, image, table, target),
    }
}

/// Returns the layout of `randomize`: random GUIDs for the disk and each partition. It also extends the target, if any.
pub fn random_guids<R: RandomSource + AllocGlobal>(
    rt: &R,
    image: &str,
    table: &GPT,
    extended: Option<Target<'_>>,
) -> Result<RequestedLayout, Failure> {
    let alloc = rt.alloc();
    let guids = draw_guids(rt, count_guids(table))?;
    selected(alloc, image, renewal(alloc, table, extended, &guids))
}

/// Returns the task of a command that corrects a finding.
pub fn mend<R: RandomSource + AllocGlobal>(
    rt: &R,
    image: &mut Image<'_>,
    look: &Look,
    table: &GPT,
    way: &Way,
) -> Result<Task, Failure> {
    let alloc = rt.alloc();
    match way {
        Way::Repair => repair(rt, image, look, false),
        Way::RepairBounds => repair(rt, image, look, true),
        Way::Grow => Ok(grow(alloc)),
        Way::Randomize => edit(rt, Job::Apply(random_guids(rt, image.name, table, None)?)),
        Way::Remove(numbers) => {
            let mut targets = Vec::with_capacity(alloc, numbers.len())?;
            for number in numbers.iter() {
                targets.push(Target::Number(*number))?;
            }
            let removed = removal(alloc, table, &targets);
            edit(rt, Job::Apply(selected(alloc, image.name, removed)?))
        }
        Way::SetGuid(number) => {
            let asked = Asked {
                unique_guid: Some(draw_guid(rt)?),
                ..Asked::nothing(None)
            };
            let target = Target::Number(*number);
            let altered = alteration(alloc, table, target, Amount::Sectors(1), asked);
            edit(rt, Job::Apply(selected(alloc, image.name, altered)?))
        }
        Way::PutOver(number) => put_over(rt, *number),
    }
}

// Returns a layout that requests nothing.
fn layout_of(alloc: Global, mode: Mode) -> RequestedLayout {
    RequestedLayout {
        mode,
        disk_guid: None,
        align: Amount::Sectors(1),
        removed: Vec::new(alloc),
        asked: Vec::new(alloc),
    }
}

// Returns the task of `add --number N --type linux --size 1MiB`.
fn put_over<R: RandomSource + AllocGlobal>(rt: &R, number: u32) -> Result<Task, Failure> {
    let mut layout = layout_of(rt.alloc(), Mode::Add);
    layout.align = DEFAULT_ALIGN;
    layout.asked.push(Asked {
        type_guid: from_name("linux"),
        size: Some(Size::Exactly(MIB)),
        choice: Choice::First,
        ..Asked::nothing(Some(number))
    })?;
    edit(rt, Job::Apply(layout))
}

const MIB: Amount = Amount::Bytes(1 << 20);
