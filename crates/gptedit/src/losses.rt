//! Refuses a change that would lose data on a partition, or in sectors that become usable.

use crate::failure::{Failure, refuse, refuse_error};
use crate::fitted::fit_bounds;
use crate::image::Image;
use crate::own::{Own, read_at};
use crate::task::Work;
use gptedit_core::Bounds;
use gptedit_look::{Look, find_contents};
use gptedit_report::{Lift, Message, Reason, Shortened, ShortenedText, find_shortened};
use gptman::GPT;
use std::alloc::Global;
use std::fmt;

/// Refuses a change from `was` to `next` that would lose data on partitions, or in sectors that become usable.
pub fn refuse_losses(
    alloc: Global,
    image: &mut Image<'_>,
    look: &Look,
    work: &Work,
    was: &GPT,
    next: &GPT,
) -> Result<(), Failure> {
    match work {
        Work::Grow(growth) if growth.bounds == Bounds::Usual => {
            refuse_freed(alloc, image, look, was, next)
        }
        Work::Edit(_) => refuse_shortening(alloc, image, was, next),
        Work::Reshape(reshaping) => {
            refuse_shortening(alloc, image, was, next)?;
            if reshaping.is_fitted() {
                let fitted = fit_bounds(was, look.size)?;
                return refuse_freed(alloc, image, look, &fitted, next);
            }
            refuse_freed(alloc, image, look, was, next)
        }
        _ => Ok(()),
    }
}

// Refuses to make partitions shorter than their contents.
fn refuse_shortening(
    alloc: Global,
    image: &mut Image<'_>,
    was: &GPT,
    next: &GPT,
) -> Result<(), Failure> {
    for shortened in find_shortened(alloc, was, next)?.iter() {
        refuse_shorter(alloc, image, was.sector_size, *shortened)?;
    }
    Ok(())
}

// Refuses to make a partition shorter than its contents.
fn refuse_shorter(
    alloc: Global,
    image: &mut Image<'_>,
    sector_size: u64,
    shortened: Shortened,
) -> Result<(), Failure> {
    let start = shortened.first.saturating_mul(sector_size);
    let end = shortened.last.saturating_add(1).saturating_mul(sector_size);
    let next_end = shortened
        .next_last
        .saturating_add(1)
        .saturating_mul(sector_size);
    let contents = match find_contents(alloc, &mut image.opened.disk, start, end) {
        Ok(contents) => contents,
        Err(error) => return Err(refuse_error(alloc, image.name, &error)),
    };
    for content in contents.iter() {
        let is_kept = match content.end {
            Some(end) => end <= next_end,
            None => false,
        };
        if !is_kept {
            let text = ShortenedText {
                shortened,
                content,
                sector_size,
            };
            return Err(refuse(alloc, image.name, &text));
        }
    }
    Ok(())
}

// Refuses to make sectors usable that are not zero, unless they held the entries of a copy.
fn refuse_freed(
    alloc: Global,
    image: &mut Image<'_>,
    look: &Look,
    was: &GPT,
    next: &GPT,
) -> Result<(), Failure> {
    let (was, next) = (&was.header, &next.header);
    let before = (next.first_usable_lba, was.first_usable_lba);
    let after = (
        was.last_usable_lba.saturating_add(1),
        next.last_usable_lba.saturating_add(1),
    );
    for (first, end) in [before, after] {
        if let Some(sector) = find_data(alloc, image, look, first, end)? {
            return Err(refuse(alloc, image.name, &Freed(sector)));
        }
    }
    Ok(())
}

// Returns the first sector of the range that is not zero and holds no entries of a good copy.
fn find_data(
    alloc: Global,
    image: &mut Image<'_>,
    look: &Look,
    first: u64,
    end: u64,
) -> Result<Option<u64>, Failure> {
    let sector_size = look.sector_size;
    let own = Own::of(look);
    let mut bytes = vec![in alloc; 0; sector_size.min(LARGEST) as usize]?;
    for sector in first..end {
        if own.has(sector) {
            continue;
        }
        let at = sector.saturating_mul(sector_size);
        match read_at(&mut image.opened.disk, at, &mut bytes) {
            Ok(()) => (),
            Err(error) => return Err(refuse_error(alloc, image.name, &error)),
        }
        if bytes.iter().any(|byte| *byte != 0) {
            return Ok(Some(sector));
        }
    }
    Ok(None)
}

// The largest sector size in bytes.
const LARGEST: u64 = 4096;

// Message: a sector that is not zero would become usable.
#[derive(Clone, Copy)]
struct Freed(u64);

impl fmt::Display for Freed {
    fn fmt<W: fmt::Write>(&self, f: &mut fmt::Formatter<W>) -> fmt::Result {
        writeln!(f, "sector {} would become usable, but is not zero", self.0)?;
        f.write_str("--overwrite sets the bounds anyway")
    }
}

impl Message for Freed {
    fn reason(&self) -> Reason {
        Reason::FreesData
    }

    fn lifted_by(&self) -> Option<Lift> {
        Some(Lift::Overwrite)
    }
}
