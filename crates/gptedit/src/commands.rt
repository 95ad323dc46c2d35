//! Runs each command.

use crate::changing::change;
use crate::checking::check;
use crate::failure::Failure;
use crate::fitted::ends_with_disk;
use crate::image::{Image, Opening};
use crate::layouts::{
    Applied, added, layout_for, read_added, read_asked, shape_for, take_bootable, widened,
};
use crate::measuring::measured;
use crate::selecting::{number_of, refuse_twice, selected};
use crate::task::Task;
use crate::wiping::clear;
use crate::{looking, making, tasks};
use gptedit_core::{EntryMatch, Job, MatchedLayout, Shape, extension, put_used_first, removal};
use gptedit_look::{Look, Purpose};
use gptedit_report::types_json;
use gptedit_text::{Parsed, StatedPlace};
use gptedit_words::{Change, Command, ImageRequest, Lock, Options};
use gptman::GPT;
use std::alloc::Global;
use std::fs::File;
use std::io::Write;
use std::mem;
use std::random::RandomSource;
use std::rt::Files;

/// How a change is reported.
#[derive(Clone, Copy)]
pub struct How {
    /// Whether the report is JSON.
    pub is_json: bool,
    /// Whether nothing is written.
    pub is_dry: bool,
}

/// Prints the types that have names.
pub fn print_types<W: Write>(alloc: Global, out: &mut W, is_json: bool) -> Result<u8, Failure> {
    if is_json {
        let text = types_json(alloc)?;
        writeln!(out, "{text}")?;
    } else {
        gptedit_report::print_types(out, alloc)?;
    }
    Ok(0)
}

/// Runs a command on an image and returns the exit status.
pub fn perform<R, W: Write>(rt: &R, out: &mut W, asked: ImageRequest<'_>) -> Result<u8, Failure>
where
    R: Files<File = File> + RandomSource + Input + Eprint + AllocGlobal + Clone + Drop,
{
    let ImageRequest {
        image,
        sector_size,
        is_json,
        command,
    } = asked;
    match command {
        Command::Write { change, options } => {
            let asked = Asked {
                image,
                sector_size,
                is_json,
                options,
            };
            write(rt, out, asked, change)?;
            Ok(0)
        }
        reading => {
            let opening = Opening {
                sector_size,
                lock: gptedit_busy::Lock::None,
                writes: false,
            };
            let mut image = Image::open(rt, image, &opening)?;
            read(rt, out, &mut image, &reading, is_json)
        }
    }
}

// Runs a command that only reads, and returns the exit status.
fn read<R, W: Write>(
    rt: &R,
    out: &mut W,
    image: &mut Image<'_>,
    command: &Command<'_>,
    is_json: bool,
) -> Result<u8, Failure>
where
    R: Files<File = File> + RandomSource + Eprint + AllocGlobal + Clone + Drop,
{
    let alloc = rt.alloc();
    if matches!(command, Command::Salvage) {
        looking::look_for_dos(rt, image)?;
        return looking::print_salvage(out, alloc, image, is_json);
    }
    let look = image.look(alloc, None)?;
    if look.table.is_some() && !matches!(command, Command::Check) {
        looking::warn_of_dos(rt, image, &look.first_sector);
    }
    match command {
        Command::Show { view } => looking::show(out, alloc, image, &look, view, is_json)?,
        Command::Free { align } => looking::free(out, alloc, image, &look, *align, is_json)?,
        Command::Dump { is_script } => {
            if *is_script {
                looking::warn_of_losses(rt, image, &look)?;
            }
            looking::dump(out, alloc, image, &look, *is_script, is_json)?;
        }
        _ => return check(rt, out, image, &look, is_json),
    }
    Ok(0)
}

// The request of a change, without the change itself.
#[derive(Clone, Copy)]
struct Asked<'a> {
    image: &'a str,
    sector_size: Option<u64>,
    is_json: bool,
    options: Options<'a>,
}

impl Asked<'_> {
    fn opening(&self) -> Opening {
        Opening {
            sector_size: self.sector_size,
            lock: match self.options.lock {
                Lock::Wait => gptedit_busy::Lock::Wait,
                Lock::Fail => gptedit_busy::Lock::Fail,
                Lock::None => gptedit_busy::Lock::None,
            },
            writes: !self.options.is_dry,
        }
    }
}

// Makes a change, and then names the command by which the kernel learns of it. A layout is read before the image is
// opened.
fn write<R, W: Write>(
    rt: &R,
    out: &mut W,
    asked: Asked<'_>,
    change: Change<'_>,
) -> Result<(), Failure>
where
    R: Files<File = File> + RandomSource + Input + Eprint + AllocGlobal + Clone + Drop,
{
    let alloc = rt.alloc();
    let mut parsed = match &change {
        Change::Apply { file, .. } => Some(read_asked(rt, *file)?),
        Change::AddScript { file } => Some(read_added(rt, *file)?),
        _ => None,
    };
    let bootable = take_bootable(alloc, parsed.as_mut());
    let mut image = Image::open(rt, asked.image, &asked.opening())?;
    let usual = usual_size(&change, parsed.as_ref());
    let look = image.look(alloc, usual)?;
    let kernel_line = make(rt, out, &mut image, look, change, parsed, &asked)?;
    let flushed = out.flush();
    for line in bootable.iter() {
        let _ = eprintln!(rt; "line {line}: bootable sets the attribute legacy-boot");
    }
    if let Some(line) = &kernel_line {
        let _ = eprintln!(rt; "{line}");
    }
    flushed?;
    Ok(())
}

// Returns the sector size in bytes that this change assumes for a file if it is not known; `None` detects it.
fn usual_size(change: &Change<'_>, parsed: Option<&Parsed>) -> Option<u64> {
    match (change, parsed) {
        (Change::New(_), _) => Some(making::USUAL_SIZE),
        (Change::Apply { is_creating, .. }, Some(parsed)) if *is_creating => {
            making::size_in(&parsed.header)
        }
        _ => None,
    }
}

// Makes a change. Returns the line that names the command for the kernel, if a block device was written.
fn make<R, W: Write>(
    rt: &R,
    out: &mut W,
    image: &mut Image<'_>,
    look: Look,
    wanted: Change<'_>,
    parsed: Option<Parsed>,
    asked: &Asked<'_>,
) -> Result<Option<String>, Failure>
where
    R: Files<File = File> + RandomSource + Eprint + AllocGlobal + Clone + Drop,
{
    let options = &asked.options;
    let how = How {
        is_json: asked.is_json,
        is_dry: options.is_dry,
    };
    if matches!(&wanted, Change::Wipe) {
        return clear(rt, out, image, look, options, how);
    }
    let mut task = task_of(rt, image, &look, wanted, parsed, options.is_fitted)?;
    change(rt, out, image, &look, &mut task, options, how)
}

fn task_of<R>(
    rt: &R,
    image: &mut Image<'_>,
    look: &Look,
    wanted: Change<'_>,
    parsed: Option<Parsed>,
    is_fitted: bool,
) -> Result<Task, Failure>
where
    R: RandomSource + AllocGlobal + Eprint,
{
    if let Change::New(asked) = &wanted {
        return making::new(rt, image, look, *asked);
    }
    let Some(table) = &look.table else {
        return task_without(rt, image, look, &wanted, parsed);
    };
    match wanted {
        Change::Grow {
            target: None,
            has_random_guids: false,
        } => return Ok(tasks::grow(rt.alloc())),
        Change::Repair { has_usual_bounds } if is_fitted && !ends_with_disk(table, look) => {
            return tasks::refit(rt, image, look, table, has_usual_bounds);
        }
        Change::Repair { has_usual_bounds } => {
            return tasks::repair(rt, image, look, has_usual_bounds);
        }
        _ => (),
    }
    let is_growth = matches!(wanted, Change::Grow { .. });
    let wanted = job_of(rt, image, look, table, wanted, parsed, is_fitted)?;
    let Wanted {
        job,
        matches,
        shape,
    } = wanted;
    let mut task = match shape {
        Some(shape) => {
            let is_fitted = is_fitted && !ends_with_disk(table, look);
            tasks::reshape(rt, image, look, job, shape, is_fitted)?
        }
        None if is_fitted || is_growth => tasks::edit_fitted(rt, look, table, job)?,
        None => tasks::edit(rt, job)?,
    };
    task.matches = matches;
    if is_growth {
        task.mbr = Purpose::Fit;
    }
    Ok(task)
}

// A job, the entries that its layout means, and the shape that the table gets first, if any.
#[derive(Drop)]
struct Wanted {
    job: Job,
    matches: Vec<EntryMatch>,
    shape: Option<Shape>,
}

impl Wanted {
    // Returns a job that names its entries by number.
    fn plain(alloc: Global, job: Job) -> Wanted {
        Wanted {
            job,
            matches: Vec::new(alloc),
            shape: None,
        }
    }
}

// Returns the job of a change of entries.
fn job_of<R>(
    rt: &R,
    image: &mut Image<'_>,
    look: &Look,
    table: &GPT,
    wanted: Change<'_>,
    parsed: Option<Parsed>,
    is_fitted: bool,
) -> Result<Wanted, Failure>
where
    R: RandomSource + AllocGlobal + Eprint,
{
    let alloc = rt.alloc();
    let layout = match (wanted, parsed) {
        (Change::Sort, _) => return Ok(Wanted::plain(alloc, Job::Sort)),
        (
            Change::Add {
                layout,
                start,
                extent,
            },
            _,
        ) => {
            let place = StatedPlace {
                start,
                extent: Some(extent),
            };
            measured(rt, image, look, table, is_fitted, layout, &[place])?
        }
        (Change::AddScript { file }, Some(parsed)) => {
            added(alloc, image.name, file, parsed, table)?
        }
        (Change::Resize { target, extent }, _) => {
            let layout = selected(alloc, image.name, extension(alloc, table, target))?;
            let place = StatedPlace {
                start: None,
                extent: Some(extent),
            };
            measured(rt, image, look, table, is_fitted, layout, &[place])?
        }
        (Change::Set { target, setting }, _) => {
            let number = number_of(alloc, image.name, table, &target)?;
            tasks::setting(rt, image.name, table, number, &setting)?
        }
        (Change::SetDisk(guid), _) => tasks::disk_guid(rt, guid)?,
        (Change::Remove(targets), _) => {
            let layout = selected(alloc, image.name, removal(alloc, table, &targets))?;
            refuse_twice(alloc, image.name, table, &layout)?;
            layout
        }
        (
            Change::Grow {
                target,
                has_random_guids,
            },
            _,
        ) => tasks::growth(rt, image.name, table, target, has_random_guids)?,
        (Change::Randomize, _) => tasks::random_guids(rt, image.name, table, None)?,
        (
            Change::Apply {
                file,
                is_replacing,
                ..
            },
            Some(parsed),
        ) => {
            let applied = Applied {
                file,
                is_replacing,
                is_fitted,
            };
            return applied_to(rt, image, look, table, parsed, applied);
        }
        _ => return Err(image.no_table(alloc, look)),
    };
    Ok(Wanted::plain(alloc, Job::Apply(layout)))
}

// Returns the job of a layout. It is matched with the entries, and measured between the bounds, that the table gets.
fn applied_to<R>(
    rt: &R,
    image: &mut Image<'_>,
    look: &Look,
    table: &GPT,
    mut parsed: Parsed,
    applied: Applied<'_>,
) -> Result<Wanted, Failure>
where
    R: AllocGlobal + Eprint,
{
    let alloc = rt.alloc();
    let shape = shape_for(alloc, image.name, look, table, &parsed, applied)?;
    let shaped = match shape {
        Some(shape) => Some(widened(alloc, table, shape)?),
        None => None,
    };
    let is_fitted = applied.is_fitted && shaped.is_none();
    let table = shaped.as_ref().unwrap_or(table);
    let places = mem::replace(&mut parsed.places, Vec::new(alloc));
    let MatchedLayout { layout, matches } = layout_for(
        alloc,
        image.name,
        parsed.layout,
        table,
        applied.is_replacing,
    )?;
    let layout = measured(rt, image, look, table, is_fitted, layout, &places)?;
    Ok(Wanted {
        job: Job::Apply(put_used_first(alloc, table, layout)?),
        matches,
        shape,
    })
}

// Returns the task if no table was read: only `apply --create` makes a table.
fn task_without<R>(
    rt: &R,
    image: &mut Image<'_>,
    look: &Look,
    wanted: &Change<'_>,
    parsed: Option<Parsed>,
) -> Result<Task, Failure>
where
    R: RandomSource + AllocGlobal + Eprint,
{
    match (wanted, parsed) {
        (
            Change::Apply {
                file,
                is_creating,
                ..
            },
            Some(parsed),
        ) => {
            if *is_creating {
                return making::create(rt, image, look, *file, parsed);
            }
            Err(image.no_table_to_apply(rt.alloc(), look))
        }
        _ => Err(image.no_table(rt.alloc(), look)),
    }
}
