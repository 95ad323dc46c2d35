//! Measures the place that a user states for a partition: its start and how far it extends.
//!
//! `measure_request` sets the start and the size of a request. `measure_place` measures them by themselves.

ghost use Rattle.std.specs.Prelude.{◌≡◌, ◌<◌, IfErr, IfOk, option_map};
ghost use Rattle.gptedit_core.specs.Measuring.{range_at, sector_in, IsMeasuredPlace, IsMeasuredRequest, RefusesPlace};
ghost use Rattle.gptedit_core.specs.declared.amount.Amount.TheVariants.{Sectors};

use crate::amount::Amount;
use crate::asked::{Asked, Size};
use crate::measure::{Extent, Position, Scale};
use crate::scale::{Measured, MeasuredSize, Unmeasured};
use crate::sectors::SectorRange;
use gptman::GPT;

/// A measured place.
#[derive(Clone, Copy, PartialEq, Eq, Debug)]
pub struct MeasuredPlace {
    /// The first sector, if a start was stated.
    pub start: Option<Measured>,
    /// The size, if an extent was stated.
    pub size: Option<MeasuredSize>,
}

/// A request with a measured place.
#[derive(Drop, Debug)]
pub struct MeasuredRequest {
    /// The request.
    pub asked: Asked,
    /// Whether rounding made the start differ from what the user stated.
    pub is_start_rounded: bool,
    /// Whether rounding made the size differ from what the user stated.
    pub is_size_rounded: bool,
}

/// Returns the request with its start and its size replaced by the measured ones, `None` where none is stated. Its
/// other fields are unchanged. `More`, `Less`, and `End` without a start, refer to the used entry with its number.
///
/// Fails as `measure_place`.
pub fn measure_request(
    asked: Asked,
    table: &GPT,
    align: Amount,
    start: Option<Position>,
    extent: Option<Extent>,
) -> Result<MeasuredRequest, Unmeasured>
    requires sector { 0 < table.now.sector_size }
    ensures ok { IfOk result (IsMeasuredRequest table.now align start extent asked) }
    ensures refused { IfErr result (RefusesPlace table.now align start extent (range_at table.now asked.number)) }
{
    let there = find_range(table, asked.number);
    let place = measure_place(table, align, start, extent, there)?;
    let is_start_rounded = match place.start {
        Some(start) => start.is_rounded,
        None => false,
    };
    let is_size_rounded = match place.size {
        Some(size) => size.is_rounded,
        None => false,
    };
    Ok(MeasuredRequest {
        asked: Asked {
            start: first_sector(place.start),
            size: requested_size(place.size),
            ..asked
        },
        is_start_rounded,
        is_size_rounded,
    })
}

/// Returns the measured start and size of a partition in this table. `there` is its present place, if it has one.
///
/// Fails for the alignment as `Scale::of`, for the start as `Scale::sector`, and for the size as `Scale::size`.
pub fn measure_place(
    table: &GPT,
    align: Amount,
    start: Option<Position>,
    extent: Option<Extent>,
    there: Option<SectorRange>,
) -> Result<MeasuredPlace, Unmeasured>
    requires sector { 0 < table.now.sector_size }
    ensures ok { IfOk result (IsMeasuredPlace table.now align start extent there) }
    ensures refused { IfErr result (RefusesPlace table.now align start extent there) }
{
    let scale = Scale::of(table, align)?;
    let start = match start {
        Some(position) => Some(scale.sector(position)?),
        None => None,
    };
    let first = sector_in(start);
    let size = match extent {
        Some(extent) => Some(scale.size(extent, first, there)?),
        None => None,
    };
    Ok(MeasuredPlace { start, size })
}

// Returns the sectors of the used entry with this number.
fn find_range(table: &GPT, number: Option<u32>) -> Option<SectorRange>
    ensures { result ≡ range_at table.now number }
{
    let entry = table.get(number?)?;
    if entry.is_unused() {
        return None;
    }
    Some(SectorRange {
        first: entry.starting_lba,
        last: entry.ending_lba,
    })
}

fn sector_in(start: Option<Measured>) -> Option<u64>
    ensures { result ≡ sector_in start }
{
    match start {
        Some(measured) => Some(measured.sectors),
        None => None,
    }
}

fn first_sector(start: Option<Measured>) -> Option<Amount>
    ensures { result ≡ option_map (λ m. Sectors m.sectors) start }
{
    match start {
        Some(measured) => Some(Amount::Sectors(measured.sectors)),
        None => None,
    }
}

fn requested_size(size: Option<MeasuredSize>) -> Option<Size>
    ensures { result ≡ option_map (λ m. m.size) size }
{
    match size {
        Some(measured) => Some(measured.size),
        None => None,
    }
}
