//! A task: a change of a table that is run dry first, then written.

ghost use Rattle.std.specs.Prelude.{◌<◌, length};
ghost use Rattle.gptedit.specs.Ready.{asks_random-prop, has_random_for-prop};
ghost use Rattle.gptedit_core.specs.Making.{has_random_in};
ghost use Rattle.gptedit_core.specs.Planning.{has_random};

use crate::failure::{Failure, refuse_error};
use crate::image::Image;
use gptedit_core::{
    Bounds, Creation, EntryMatch, FittedRequest, FittedReshapedRequest, Growth, Made, Outcome,
    Refusal, Request, ReshapedRequest, Shape,
};
use gptedit_look::Purpose;
use gptman::{GPT, Result};
use std::alloc::Global;

/// A change of a table, and its purpose.
#[derive(Drop)]
pub struct Task {
    /// The change.
    pub work: Work,
    /// The purpose of the write.
    pub purpose: Purpose,
    /// The purpose for the MBR. `grow` of a partition corrects the MBR, or writes a missing one, on each disk.
    pub mbr: Purpose,
    /// Whether the layout requests no partition, so that it can only remove some.
    pub only_removes: bool,
    /// The entries that a layout of `apply` means.
    pub matches: Vec<EntryMatch>,
}

/// The kinds of change.
#[derive(Drop)]
pub enum Work {
    /// Changes entries.
    Edit(Edit),
    /// Changes entries of a table that first gets another number of them, or other usable sectors.
    Reshape(Reshaping),
    /// Fits the table to the disk.
    Grow(Growth),
    /// Overwrites the table that was read with a new one.
    Remake(Anew),
    /// Writes a new table; none was read.
    Make(Anew),
}

/// A change of entries.
#[derive(Drop)]
pub struct Edit {
    fitted: FittedRequest,
    // Whether the table is first fitted to the disk.
    is_fitted: bool,
    ghost ready: { has_random fitted.request } by { asks_random-prop fitted.request.job (length fitted.request.random.items) },
}

/// A change of entries, of their number, and of the usable sectors.
#[derive(Drop)]
pub struct Reshaping {
    both: FittedReshapedRequest,
    // Whether the table is first fitted to the disk.
    is_fitted: bool,
    ghost ready: { has_random both.reshaped.request } by { asks_random-prop both.reshaped.request.job (length both.reshaped.request.random.items) },
}

/// A new table.
#[derive(Drop)]
pub struct Anew {
    creation: Creation,
    ghost ready: { has_random_in creation } by { has_random_for-prop creation.layout (length creation.random.items) },
}

/// The result of a task.
#[derive(Drop)]
pub enum Became {
    /// The table changes; `was` is `None` if none was read.
    Changed {
        was: Option<GPT>,
        next: GPT,
    },
    /// The table stays unchanged.
    Unchanged {
        table: GPT,
    },
    /// The task is refused.
    Refused {
        table: Option<GPT>,
        refusal: Refusal,
    },
}

impl Task {
    /// Runs the task on the disk of the image, or with `is_dry` returns its result without a write.
    pub fn run(
        &mut self,
        alloc: Global,
        image: &mut Image<'_>,
        sector_size: u64,
        is_dry: bool,
    ) -> std::result::Result<Became, Failure>
        requires { 0 < sector_size }
    {
        let done = match &mut self.work {
            Work::Edit(edit) => edit.run(alloc, image, sector_size, is_dry),
            Work::Reshape(reshaping) => reshaping.run(alloc, image, sector_size, is_dry),
            Work::Grow(growth) => run_growth(alloc, image, sector_size, growth.bounds, is_dry),
            Work::Remake(anew) => anew.remake(alloc, image, sector_size, is_dry),
            Work::Make(anew) => anew.make(alloc, image, sector_size, is_dry),
        };
        match done {
            Ok(became) => Ok(became),
            Err(error) => Err(refuse_error(alloc, image.name, &error)),
        }
    }

    /// Reports whether the table is fitted to the disk.
    pub fn is_fitted(&self) -> bool {
        match &self.work {
            Work::Grow(_) => true,
            Work::Edit(edit) => edit.is_fitted,
            Work::Reshape(reshaping) => reshaping.is_fitted(),
            Work::Remake(_) | Work::Make(_) => false,
        }
    }

    /// Returns the number of entries and the usable sectors that the table gets before entries change, if any.
    pub fn shape(&self) -> Option<Shape> {
        match &self.work {
            Work::Reshape(reshaping) => Some(reshaping.both.reshaped.shape),
            _ => None,
        }
    }

    /// Permits an order of writes in which a crash may leave neither table.
    pub fn let_lose(&mut self) {
        match &mut self.work {
            Work::Reshape(reshaping) => reshaping.both.reshaped.may_lose = true,
            Work::Remake(anew) => anew.let_lose(),
            _ => (),
        }
    }

    /// Reports whether a crash during the write may leave neither the old table nor the new one.
    pub fn may_lose(&self) -> bool {
        match &self.work {
            Work::Remake(anew) => anew.creation.may_lose,
            Work::Reshape(reshaping) => reshaping.both.reshaped.may_lose,
            _ => false,
        }
    }
}

fn run_growth(
    alloc: Global,
    image: &mut Image<'_>,
    sector_size: u64,
    bounds: Bounds,
    is_dry: bool,
) -> Result<Became>
    requires { 0 < sector_size }
{
    let growth = Growth { bounds, is_dry };
    let disk = &mut image.opened.disk;
    let outcome = gptedit_core::grow(alloc, disk, Some(sector_size), &growth)?;
    Ok(read_outcome(outcome))
}

impl Edit {
    /// Returns the change for a request. With `is_fitted` the table is first fitted to the disk, in the same write.
    pub fn new(request: Request, is_fitted: bool) -> Edit
        requires { has_random request }
    {
        Edit {
            fitted: FittedRequest { request },
            is_fitted,
        }
    }

    fn run(
        &mut self,
        alloc: Global,
        image: &mut Image<'_>,
        sector_size: u64,
        is_dry: bool,
    ) -> Result<Became>
        requires { 0 < sector_size }
    {
        self.fitted.request.is_dry = is_dry;
        let disk = &mut image.opened.disk;
        let size = Some(sector_size);
        let outcome = if self.is_fitted {
            gptedit_core::edit_fitted(alloc, disk, size, &self.fitted)?
        } else {
            gptedit_core::edit(alloc, disk, size, &self.fitted.request)?
        };
        Ok(read_outcome(outcome))
    }
}

impl Reshaping {
    /// Returns the change for a request, with this number of entries and these usable sectors. With `is_fitted` the table is
    /// first fitted to the disk, in the same write.
    pub fn new(request: Request, shape: Shape, is_fitted: bool) -> Reshaping
        requires { has_random request }
    {
        Reshaping {
            both: FittedReshapedRequest {
                reshaped: ReshapedRequest {
                    request,
                    shape,
                    may_lose: false,
                },
            },
            is_fitted,
        }
    }

    /// Reports whether the table is first fitted to the disk.
    pub fn is_fitted(&self) -> bool {
        self.is_fitted
    }

    fn run(
        &mut self,
        alloc: Global,
        image: &mut Image<'_>,
        sector_size: u64,
        is_dry: bool,
    ) -> Result<Became>
        requires { 0 < sector_size }
    {
        self.both.reshaped.request.is_dry = is_dry;
        let disk = &mut image.opened.disk;
        let size = Some(sector_size);
        let outcome = if self.is_fitted {
            gptedit_core::edit_fitted_reshaped(alloc, disk, size, &self.both)?
        } else {
            gptedit_core::edit_reshaped(alloc, disk, size, &self.both.reshaped)?
        };
        Ok(read_outcome(outcome))
    }
}

impl Anew {
    /// Returns the new table for a creation.
    pub fn new(creation: Creation) -> Anew
        requires { has_random_in creation }
    {
        Anew { creation }
    }

    /// Permits an order of writes in which a crash may leave neither table.
    pub fn let_lose(&mut self) {
        self.creation.may_lose = true;
    }

    /// Overwrites the table that is on the disk.
    pub fn remake(
        &mut self,
        alloc: Global,
        image: &mut Image<'_>,
        sector_size: u64,
        is_dry: bool,
    ) -> Result<Became>
        requires { 0 < sector_size }
    {
        self.creation.is_dry = is_dry;
        let disk = &mut image.opened.disk;
        let outcome = gptedit_core::remake(alloc, disk, Some(sector_size), &self.creation)?;
        Ok(read_outcome(outcome))
    }

    fn make(
        &mut self,
        alloc: Global,
        image: &mut Image<'_>,
        sector_size: u64,
        is_dry: bool,
    ) -> Result<Became>
        requires { 0 < sector_size }
    {
        self.creation.is_dry = is_dry;
        let disk = &mut image.opened.disk;
        match gptedit_core::make(alloc, disk, sector_size, &self.creation)? {
            Made::New { next } => Ok(Became::Changed { was: None, next }),
            Made::Refused { refusal } => {
                let (guid, count) = (self.creation.guid, self.creation.entries);
                let table = GPT::with_entries(alloc, disk, sector_size, guid, count).ok();
                Ok(Became::Refused { table, refusal })
            }
        }
    }
}

fn read_outcome(outcome: Outcome) -> Became {
    match outcome {
        Outcome::Changed { was, next } => Became::Changed {
            was: Some(was),
            next,
        },
        Outcome::Unchanged { table } => Became::Unchanged { table },
        Outcome::Refused { table, refusal } => Became::Refused {
            table: Some(table),
            refusal,
        },
    }
}
