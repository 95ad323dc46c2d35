//! Plans a change: what it makes of the table, and whether that may be written.

use crate::failure::{Failure, refuse, refuse_asked, refuse_error};
use crate::fitted::{copy_of, ends_with_disk, fit_bounds};
use crate::image::Image;
use crate::losses::refuse_losses;
use crate::mbr::change_mbr;
use crate::remains::find_remains;
use crate::task::{Became, Task};
use crate::using::UseText;
use gptedit_busy::find_users;
use gptedit_core::{Refusal, Shape};
use gptedit_look::{Look, MbrChange, MbrKind, Obstacle, Purpose, What, find_obstacle};
use gptedit_report::{
    Commands, CutText, Edges, Message, NoRoomText, ObstacleText, OtherLayoutText, Reason, Remains,
};
use gptedit_values::ShellWord;
use gptedit_words::Options;
use gptman::GPT;
use std::alloc::{AllocError, Global};
use std::fmt;
use std::fs::File;
use std::rt::Files;

/// An accepted change.
#[derive(Drop)]
pub struct Plan {
    /// The table before the change, if one was read.
    pub was: Option<GPT>,
    /// The table after the change.
    pub next: GPT,
    /// Whether the table is written.
    pub is_changed: bool,
    /// The change of the MBR.
    pub mbr: MbrChange,
    /// The data that `repair` replaces in the place of a broken copy, if anything.
    pub replaced: Option<Replaced>,
}

/// The data that `repair` replaces in the place of a broken copy.
#[derive(Clone, Copy)]
pub struct Replaced {
    /// The sectors.
    pub obstacle: Obstacle,
    /// Their contents.
    pub remains: Remains,
}

impl Plan {
    /// Reports whether anything is written.
    pub fn is_needed(&self) -> bool {
        self.is_changed || self.mbr != MbrChange::Left
    }
}

/// Plans a task as a dry run, and refuses a change that may not be written.
pub fn make_plan<R>(
    rt: &R,
    image: &mut Image<'_>,
    look: &Look,
    task: &mut Task,
    options: &Options<'_>,
) -> Result<Plan, Failure>
where
    R: Files<File = File> + AllocGlobal + Clone + Drop,
{
    let alloc = rt.alloc();
    image.refuse_unknown(alloc, look)?;
    if task.purpose == Purpose::Edit {
        refuse_bounds(alloc, image.name, look, task.only_removes)?;
    }
    let is_fitted = options.is_fitted || task.mbr == Purpose::Fit;
    let mut plan = draft(alloc, image, look, task, is_fitted)?;
    if !options.may_overwrite {
        refuse_obstacles(alloc, image, look, task, &plan)?;
    }
    let (purpose, is_changed) = (task.mbr, plan.is_changed);
    plan.mbr = change_mbr(alloc, image, look, purpose, is_changed, true)?;
    if !options.may_use && plan.is_needed() {
        refuse_users(rt, image, plan.was.as_ref(), Some(&plan.next))?;
    }
    if let (false, Some(was)) = (options.may_overwrite, &plan.was) {
        refuse_losses(alloc, image, look, &task.work, was, &plan.next)?;
    }
    if task.purpose == Purpose::Repair && plan.is_changed {
        plan.replaced = find_replaced(alloc, image, look, &plan.next)?;
    }
    Ok(plan)
}

// Returns what `repair` replaces in the place of a broken copy. Entries equal to those of the good copy do not count.
fn find_replaced(
    alloc: Global,
    image: &mut Image<'_>,
    look: &Look,
    next: &GPT,
) -> Result<Option<Replaced>, Failure> {
    let disk = &mut image.opened.disk;
    let obstacle = match find_obstacle(disk, look, Purpose::Edit, next) {
        Ok(Some(obstacle)) if obstacle.what == What::BoardCode => obstacle,
        Ok(_) => return Ok(None),
        Err(error) => return Err(refuse_error(alloc, image.name, &error)),
    };
    match find_remains(alloc, image, look, next, obstacle)? {
        Remains::SameEntries => Ok(None),
        remains => Ok(Some(Replaced { obstacle, remains })),
    }
}

// Runs the task as a dry run. `is_fitted` says whether the command fits the table to the disk.
fn draft(
    alloc: Global,
    image: &mut Image<'_>,
    look: &Look,
    task: &mut Task,
    is_fitted: bool,
) -> Result<Plan, Failure> {
    let sector_size = look.sector_size;
    match task.run(alloc, image, sector_size, true)? {
        Became::Changed { was, next } => Ok(Plan {
            was,
            next,
            is_changed: true,
            mbr: MbrChange::Left,
            replaced: None,
        }),
        Became::Unchanged { table } => Ok(Plan {
            was: Some(copy_of(&table)?),
            next: table,
            is_changed: false,
            mbr: MbrChange::Left,
            replaced: None,
        }),
        Became::Refused { table, refusal } => Err(refuse_task(
            alloc,
            image,
            look,
            task,
            is_fitted,
            table.as_ref(),
            &refusal,
        )),
    }
}

// Returns the refusal of a task. If partitions do not fit on a shortened disk, it includes a remedy.
fn refuse_task(
    alloc: Global,
    image: &Image<'_>,
    look: &Look,
    task: &Task,
    is_fitted: bool,
    table: Option<&GPT>,
    refusal: &Refusal,
) -> Failure {
    let is_unfit = is_fitted && matches!(refusal, Refusal::NotLaidOut | Refusal::TooSmall);
    if let (true, Some(table)) = (is_unfit, table) {
        return refuse_unfit(alloc, image, look, table, refusal);
    }
    let is_cut = task.is_fitted() && *refusal == Refusal::BadBoundaries;
    if let (true, Some(table)) = (is_cut, table) {
        let is_device = image.opened.device.is_some();
        if let Some(text) = CutText::of(table, look.size, is_device, image.name) {
            return refuse(alloc, image.name, &text);
        }
    }
    if let (Some(shape), Some(table)) = (task.shape(), table) {
        return refuse_shaped(alloc, image.name, shape, table, refusal);
    }
    if let (true, Some(table)) = (is_cut, table) {
        return match fit_bounds(table, look.size) {
            Ok(fitted) => {
                refuse_asked(alloc, image.name, Some(&fitted), look.sector_size, refusal)
            }
            Err(failure) => failure,
        };
    }
    refuse_asked(alloc, image.name, table, look.sector_size, refusal)
}

// Returns the refusal of a table that cannot be fitted to the disk. It does not name `grow`, which is refused too.
fn refuse_unfit(
    alloc: Global,
    image: &Image<'_>,
    look: &Look,
    table: &GPT,
    refusal: &Refusal,
) -> Failure {
    let is_device = image.opened.device.is_some();
    let image = image.name;
    if let Some(text) = NoRoomText::of(table, look.size, is_device, image) {
        return refuse(alloc, image, &text);
    }
    let edges = Edges::of(table, look.size);
    if !edges.have_room() || matches!(refusal, Refusal::TooSmall) {
        let (size, refusal) = (look.sector_size, Refusal::TooSmall);
        return refuse_asked(alloc, image, Some(table), size, &refusal);
    }
    let text = OtherLayoutText { table, image };
    if text.entries_sector().is_none() && ends_with_disk(table, look) && edges.are_over() {
        return refuse(alloc, image, &OverBounds { edges, image });
    }
    refuse(alloc, image, &text)
}

// Returns the refusal of a task that gives the table another shape. Its text is about the new shape.
fn refuse_shaped(
    alloc: Global,
    image: &str,
    shape: Shape,
    table: &GPT,
    refusal: &Refusal,
) -> Failure {
    let count = shape.entries;
    match refusal {
        Refusal::NoEntry(number) if *number > count => {
            let number = *number;
            return refuse(alloc, image, &AboveLast { number, count });
        }
        _ => (),
    }
    match copy_of(table) {
        Ok(mut shaped) => {
            shaped.header.number_of_partition_entries = count;
            shaped.header.first_usable_lba = shape.first_usable;
            shaped.header.last_usable_lba = shape.last_usable;
            refuse_asked(alloc, image, Some(&shaped), shaped.sector_size, refusal)
        }
        Err(failure) => failure,
    }
}

// Message: an entry would be used that the new table does not have.
#[derive(Clone, Copy)]
struct AboveLast {
    number: u32,
    count: u32,
}

impl fmt::Display for AboveLast {
    fn fmt<W: fmt::Write>(&self, f: &mut fmt::Formatter<W>) -> fmt::Result {
        let AboveLast { number, count } = *self;
        write!(
            f,
            "entry {number} would be used, but the table would have {count} entries"
        )
    }
}

impl Message for AboveLast {
    fn reason(&self) -> Reason {
        Reason::Request(Refusal::NoEntry(self.number))
    }
}

// Refuses a table whose usable sectors include its own. Removing the partitions there is permitted.
fn refuse_bounds(
    alloc: Global,
    image: &str,
    look: &Look,
    only_removes: bool,
) -> Result<(), Failure> {
    let Some(table) = &look.table else {
        return Ok(());
    };
    let edges = Edges::of(table, look.size);
    if !ends_with_disk(table, look) || !edges.are_over() {
        return Ok(());
    }
    if only_removes && has_partition_over(table, edges) {
        return Ok(());
    }
    Err(refuse(alloc, image, &OverBounds { edges, image }))
}

// Reports whether a partition includes a sector of the table itself.
fn has_partition_over(table: &GPT, edges: Edges) -> bool {
    table.iter().any(|(_, entry)| {
        entry.is_used() && (entry.starting_lba < edges.least || edges.most < entry.ending_lba)
    })
}

// Message: the usable sectors include those of the table.
#[derive(Clone, Copy)]
struct OverBounds<'a> {
    edges: Edges,
    image: &'a str,
}

impl fmt::Display for OverBounds<'_> {
    fn fmt<W: fmt::Write>(&self, f: &mut fmt::Formatter<W>) -> fmt::Result {
        writeln!(f, "{}", self.edges)?;
        let image = ShellWord(self.image);
        write!(f, "`gptedit repair {image} --bounds` sets the usual bounds")
    }
}

impl Message for OverBounds<'_> {
    fn reason(&self) -> Reason {
        Reason::BoundsOverTable
    }

    fn add_commands(&self, commands: &mut Commands) -> Result<(), AllocError> {
        commands.add(&["gptedit", "repair", self.image, "--bounds"])
    }
}

// Refuses to overwrite data without `--overwrite`.
fn refuse_obstacles(
    alloc: Global,
    image: &mut Image<'_>,
    look: &Look,
    task: &Task,
    plan: &Plan,
) -> Result<(), Failure> {
    if !plan.is_changed {
        return refuse_dos(alloc, image.name, look);
    }
    let disk = &mut image.opened.disk;
    match find_obstacle(disk, look, task.purpose, &plan.next) {
        Ok(None) => (),
        Ok(Some(obstacle)) => {
            let remains = find_remains(alloc, image, look, &plan.next, obstacle)?;
            let replaced = Replaced { obstacle, remains };
            return Err(refuse_obstacle(alloc, image.name, look, task.purpose, &replaced));
        }
        Err(error) => return Err(refuse_error(alloc, image.name, &error)),
    }
    if !task.may_lose() {
        return Ok(());
    }
    let (was, size) = (plan.was.as_ref(), plan.next.sector_size);
    Err(refuse_asked(alloc, image.name, was, size, &Refusal::NoSafeOrder))
}

// Refuses a DOS disk.
fn refuse_dos(alloc: Global, image: &str, look: &Look) -> Result<(), Failure> {
    if look.first_sector.kind != MbrKind::Dos {
        return Ok(());
    }
    let obstacle = Obstacle {
        first: 0,
        last: 0,
        what: What::DosDisk,
    };
    let remains = Remains::Unknown;
    let replaced = Replaced { obstacle, remains };
    Err(refuse_obstacle(alloc, image, look, Purpose::Edit, &replaced))
}

// Returns the refusal for an obstacle to a write.
fn refuse_obstacle(
    alloc: Global,
    image: &str,
    look: &Look,
    purpose: Purpose,
    replaced: &Replaced,
) -> Failure {
    let Replaced { obstacle, remains } = replaced;
    let text = ObstacleText {
        obstacle,
        remains: *remains,
        purpose,
        table: look.table.as_ref(),
        image,
    };
    refuse(alloc, image, &text)
}

/// Refuses a change that a use of the image or of a partition does not permit.
pub fn refuse_users<R>(
    rt: &R,
    image: &Image<'_>,
    was: Option<&GPT>,
    next: Option<&GPT>,
) -> Result<(), Failure>
where
    R: Files<File = File> + AllocGlobal + Clone + Drop,
{
    let users = match find_users(rt, image.name, &image.opened) {
        Ok(users) => users,
        Err(_) => return Err(Failure::OutOfMemory),
    };
    match users.find_harm(was, next) {
        None => Ok(()),
        Some(found) => Err(refuse(rt.alloc(), image.name, &UseText(found))),
    }
}
