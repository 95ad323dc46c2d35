//! The partitions that a command names.

use crate::failure::{Failure, refuse, refuse_asked};
use gptedit_core::{NoLayout, NotFound, Refusal, RequestedLayout, Target, find_target};
use gptedit_report::NotFoundText;
use gptman::GPT;
use std::alloc::Global;
use std::collections::BTreeSet;

/// Returns the number of the partition.
pub fn number_of(
    alloc: Global,
    image: &str,
    table: &GPT,
    target: &Target<'_>,
) -> Result<u32, Failure> {
    match find_target(table, target) {
        Ok(number) => Ok(number),
        Err(not_found) => Err(not_selected(alloc, image, *target, not_found)),
    }
}

/// Returns the layout, or the refusal of a target that selects no partition.
pub fn selected(
    alloc: Global,
    image: &str,
    layout: Result<RequestedLayout, NoLayout<'_>>,
) -> Result<RequestedLayout, Failure> {
    match layout {
        Ok(layout) => Ok(layout),
        Err(NoLayout::OutOfMemory) => Err(Failure::OutOfMemory),
        Err(NoLayout::NotFound(target, not_found)) => {
            Err(not_selected(alloc, image, target, not_found))
        }
    }
}

/// Refuses a layout that removes an entry twice.
pub fn refuse_twice(
    alloc: Global,
    image: &str,
    table: &GPT,
    layout: &RequestedLayout,
) -> Result<(), Failure> {
    let mut seen = BTreeSet::new(alloc);
    for number in layout.removed.iter() {
        if !seen.insert(*number)? {
            let (size, refusal) = (table.sector_size, Refusal::Twice(*number));
            return Err(refuse_asked(alloc, image, Some(table), size, &refusal));
        }
    }
    Ok(())
}

fn not_selected(alloc: Global, image: &str, target: Target<'_>, not_found: NotFound) -> Failure {
    let text = NotFoundText {
        not_found,
        target,
        image,
    };
    refuse(alloc, image, &text)
}
