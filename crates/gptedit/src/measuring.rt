//! Measures the places that are stated for partitions against the table.

ghost use Rattle.std.specs.Prelude.{◌<◌};

use crate::failure::{Failure, refuse};
use crate::fitted::ends_with_disk;
use crate::image::Image;
use crate::task::Became;
use crate::tasks;
use gptedit_core::{
    Amount, Asked, Extent, MeasuredRequest, RequestedLayout, Scale, Size, Unmeasured,
    measure_request,
};
use gptedit_look::Look;
use gptedit_report::{RoundedOff, RoundedText, UnmeasuredText};
use gptedit_text::StatedPlace;
use gptman::GPT;
use std::alloc::AllocGlobal;

/// Returns the layout with the measured places of its first requests; the others keep theirs. Prints what was rounded.
/// With `is_fitted` the table is first fitted to the disk.
pub fn measured<R: AllocGlobal + Eprint>(
    rt: &R,
    image: &mut Image<'_>,
    look: &Look,
    table: &GPT,
    is_fitted: bool,
    layout: RequestedLayout,
    places: &[StatedPlace],
) -> Result<RequestedLayout, Failure> {
    if is_fitted && !places.is_empty() && !ends_with_disk(table, look) {
        let alloc = rt.alloc();
        let fitted = tasks::grow(alloc).run(alloc, image, look.sector_size, true)?;
        if let Became::Changed { next, .. } = &fitted {
            return measured_in(rt, image, look, next, layout, places);
        }
    }
    measured_in(rt, image, look, table, layout, places)
}

/// Returns the layout with the places measured in this table.
pub fn measured_in<R: AllocGlobal + Eprint>(
    rt: &R,
    image: &mut Image<'_>,
    look: &Look,
    table: &GPT,
    layout: RequestedLayout,
    places: &[StatedPlace],
) -> Result<RequestedLayout, Failure> {
    let RequestedLayout {
        mode,
        disk_guid,
        align,
        removed,
        asked,
    } = layout;
    let mut requests = Vec::new(rt.alloc());
    for (index, request) in asked.into_iter().enumerate() {
        let request = match places.get(index) {
            Some(place) => {
                let number = if places.len() > 1 {
                    request.number
                } else {
                    None
                };
                let stated = Stated {
                    align,
                    place,
                    number,
                };
                measured_request(rt, image, look, table, request, &stated)?
            }
            None => request,
        };
        requests.push(request)?;
    }
    Ok(RequestedLayout {
        mode,
        disk_guid,
        align,
        removed,
        asked: requests,
    })
}

// A stated place.
#[derive(Clone, Copy)]
struct Stated<'a> {
    align: Amount,
    place: &'a StatedPlace,
    // The number of the partition, if the layout has others.
    number: Option<u32>,
}

// Returns the request with the measured place. Prints what was rounded.
fn measured_request<R: AllocGlobal + Eprint>(
    rt: &R,
    image: &mut Image<'_>,
    look: &Look,
    table: &GPT,
    request: Asked,
    stated: &Stated<'_>,
) -> Result<Asked, Failure> {
    let sector_size = table.sector_size;
    if sector_size == 0 {
        return Err(image.no_table(rt.alloc(), look));
    }
    let Stated {
        align,
        place,
        number,
    } = *stated;
    match measure_request(request, table, align, place.start, place.extent) {
        Ok(measured) => {
            print_start(rt, &measured, number, sector_size);
            print_size(rt, &measured, number, sector_size);
            Ok(measured.asked)
        }
        Err(unmeasured) => {
            let text = UnmeasuredText {
                unmeasured,
                number,
                sector_size,
                rounded: rounded_off(table, align, place.extent, unmeasured),
            };
            Err(refuse(rt.alloc(), image.name, &text))
        }
    }
}

// Returns what was rounded down, if it left no size.
fn rounded_off(
    table: &GPT,
    align: Amount,
    extent: Option<Extent>,
    unmeasured: Unmeasured,
) -> Option<RoundedOff>
    requires { 0 < table.now.sector_size }
{
    let (Unmeasured::NoSize, Ok(scale)) = (unmeasured, Scale::of(table, align)) else {
        return None;
    };
    match extent? {
        Extent::Size(measure) => match scale.length(measure) {
            Ok(length) if length.is_rounded => Some(RoundedOff::Size(scale.align)),
            _ => None,
        },
        Extent::End(position) => match scale.sector(position) {
            Ok(end) if end.is_rounded => Some(RoundedOff::End(end.sectors)),
            _ => None,
        },
        _ => None,
    }
}

fn print_start<R: Eprint>(
    rt: &R,
    measured: &MeasuredRequest,
    number: Option<u32>,
    sector_size: u64,
) {
    if let (true, Some(Amount::Sectors(sectors))) = (
        measured.is_start_rounded,
        measured.asked.start,
    ) {
        print_rounded(rt, "start", number, sectors, sector_size);
    }
}

fn print_size<R: Eprint>(
    rt: &R,
    measured: &MeasuredRequest,
    number: Option<u32>,
    sector_size: u64,
) {
    if let (true, Some(Size::Exactly(Amount::Sectors(sectors)))) = (
        measured.is_size_rounded,
        measured.asked.size,
    ) {
        print_rounded(rt, "size", number, sectors, sector_size);
    }
}

// Prints that a start or a size was rounded.
fn print_rounded<R: Eprint>(
    rt: &R,
    what: &'static str,
    number: Option<u32>,
    sectors: u64,
    sector_size: u64,
) {
    let text = RoundedText {
        what,
        number,
        sectors,
        sector_size,
    };
    let _ = eprintln!(rt; "{text}");
}
