//! Lengths, positions and sizes in sectors, as a user states them.

ghost use Rattle.std.specs.Prelude.{◌≡◌, ◌<◌, ◌≤◌, ◌*◌, ◌^◌, ℕ, not, nat_eq, None, Some, IfErr, IfOk};
ghost use Rattle.gptedit_core.specs.Measuring.{first_of, is_last, sectors_of};
ghost use Rattle.gptedit_core.specs.Measuring.{HasCount, IsFloor, IsMeasured, IsPosition, IsScale, IsSized};
ghost use Rattle.gptedit_core.specs.Measuring.{RefusesCount, RefusesLength, RefusesScale, RefusesSector, RefusesSize};
ghost use Rattle.gptedit_core.specs.declared.measure.Extent.TheVariants.{Size as Long, End, More, Less};
ghost use Rattle.gptedit_core.specs.declared.measure.Position.TheVariants.{FromStart, FromEnd};
ghost use Rattle.gptedit_core.specs.declared.scale.Unmeasured.TheVariants.{TooLarge};

use crate::amount::Amount;
use crate::asked::Size;
use crate::measure::{Extent, Measure, Position, Scale, WHOLE};
use crate::place::skip;
use crate::sectors::SectorRange;
use gptman::GPT;

/// Why a place or a size is not measured.
#[derive(Clone, Copy, PartialEq, Eq, Debug)]
pub enum Unmeasured {
    /// The amount is not a whole number of sectors.
    NotWhole(Amount),
    /// The alignment is zero.
    NoAlignment,
    /// The size is zero, or the end is not after the start.
    NoSize,
    /// A number of sectors, or the number of a sector, is 2^64 or more.
    TooLarge,
    /// An end is requested without a start.
    NoStart,
    /// A longer or shorter partition is requested where there is none.
    NoPartition,
    /// The position is before the start of the disk.
    BeforeStart,
}

/// A measured length or position.
#[derive(Clone, Copy, PartialEq, Eq, Debug)]
pub struct Measured {
    /// The number of sectors, or the sector.
    pub sectors: u64,
    /// Whether rounding made it differ from what the user stated.
    pub is_rounded: bool,
}

/// A measured size.
#[derive(Clone, Copy, PartialEq, Eq, Debug)]
pub struct MeasuredSize {
    /// The size: `Rest`, or a number of sectors.
    pub size: Size,
    /// Whether rounding made it differ from what the user stated.
    pub is_rounded: bool,
}

impl Scale {
    /// Returns the scale of a table with this alignment.
    ///
    /// Fails with `NotWhole` and `NoAlignment` for the alignment, and with `TooLarge` if a sector of the scale has no
    /// 64-bit number.
    #[tactic(auto, using(crate::proofs::Floors::floor_at))]
    pub fn of(table: &GPT, align: Amount) -> Result<Scale, Unmeasured>
        requires { 0 < table.now.sector_size }
        ensures ok { IfOk result (IsScale table.now align) }
        ensures refused { IfErr result (RefusesScale table.now align) }
    {
        let align = match align.sectors(table.sector_size) {
            Some(0) => return Err(Unmeasured::NoAlignment),
            Some(sectors) => sectors,
            None => return Err(Unmeasured::NotWhole(align)),
        };
        let low = table.header.first_usable_lba;
        let Some(first) = low.checked_add(skip(align, low)) else {
            return Err(Unmeasured::TooLarge);
        };
        let Some(end) = table.header.last_usable_lba.checked_add(1) else {
            return Err(Unmeasured::TooLarge);
        };
        Ok(Scale {
            sector_size: table.sector_size,
            align,
            first,
            last: end - end % align,
            end,
        })
    }

    /// Returns a length in sectors.
    ///
    /// Fails with `NotWhole` for an exact amount, and with `TooLarge` for a share of more than the whole.
    #[tactic(auto, using(crate::proofs::Floors::step_fits))]
    pub fn length(self, measure: Measure) -> Result<Measured, Unmeasured>
        ensures ok { IfOk result (IsMeasured self measure) }
        ensures refused { IfErr result (RefusesLength self measure) }
    {
        match measure {
            Measure::Exactly(amount) => match amount.sectors(self.sector_size) {
                Some(sectors) => Ok(Measured {
                    sectors,
                    is_rounded: false,
                }),
                None => Err(Unmeasured::NotWhole(amount)),
            },
            Measure::About(bytes) => round_down(self.align, self.sector_size, u128::from(bytes)),
            Measure::Share(parts) => {
                let all = self.last.saturating_sub(self.first);
                round_down(self.align, WHOLE, u128::from(parts) * u128::from(all))
            }
        }
    }

    /// Returns a position as a sector.
    ///
    /// Fails as `length`, with `TooLarge` for a sector without a 64-bit number, and with `BeforeStart`.
    pub fn sector(self, position: Position) -> Result<Measured, Unmeasured>
        ensures ok { IfOk result (IsPosition self position) }
        ensures refused { IfErr result (RefusesSector self position) }
    {
        match position {
            Position::FromStart(measure) => self.after_start(measure),
            Position::FromEnd(measure) => self.before_end(measure),
        }
    }

    fn after_start(self, measure: Measure) -> Result<Measured, Unmeasured>
        ensures ok { IfOk result (IsPosition self (FromStart measure)) }
        ensures refused { IfErr result (RefusesSector self (FromStart measure)) }
    {
        let length = self.length(measure)?;
        match measure {
            Measure::Share(_) => match self.first.checked_add(length.sectors) {
                Some(sectors) => Ok(Measured { sectors, ..length }),
                None => Err(Unmeasured::TooLarge),
            },
            _ => Ok(length),
        }
    }

    #[tactic(auto, using(crate::proofs::Floors::floor_at, crate::proofs::Floors::over_is))]
    fn before_end(self, measure: Measure) -> Result<Measured, Unmeasured>
        ensures ok { IfOk result (IsPosition self (FromEnd measure)) }
        ensures refused { IfErr result (RefusesSector self (FromEnd measure)) }
    {
        let length = self.length(measure)?;
        let Some(exact) = self.end.checked_sub(length.sectors) else {
            return Err(Unmeasured::BeforeStart);
        };
        let over = match measure {
            Measure::Exactly(Amount::Sectors(_)) => 0,
            _ => exact % self.align,
        };
        Ok(Measured {
            sectors: exact - over,
            is_rounded: over > 0 || length.is_rounded,
        })
    }

    /// Returns a size. `start` is the requested first sector, and `there` the present place of the partition.
    ///
    /// Fails as `length` and `sector`, with `NoSize` and `TooLarge` for the size, with `NoStart` for an end without a
    /// start and a present place, and with `NoPartition` for `More` and `Less` without a present place.
    pub fn size(
        self,
        extent: Extent,
        start: Option<u64>,
        there: Option<SectorRange>,
    ) -> Result<MeasuredSize, Unmeasured>
        ensures ok { IfOk result (IsSized self start there extent) }
        ensures refused { IfErr result (RefusesSize self start there extent) }
    {
        let measured = match extent {
            Extent::Rest => {
                return Ok(MeasuredSize {
                    size: Size::Rest,
                    is_rounded: false,
                });
            }
            Extent::Size(measure) => self.whole_size(measure)?,
            Extent::End(position) => match find_first(start, there) {
                Some(first) => self.size_until(first, position)?,
                None => return Err(Unmeasured::NoStart),
            },
            Extent::More(measure) => match there {
                Some(range) => self.longer_size(range, measure)?,
                None => return Err(Unmeasured::NoPartition),
            },
            Extent::Less(measure) => match there {
                Some(range) => self.shorter_size(range, measure)?,
                None => return Err(Unmeasured::NoPartition),
            },
        };
        Ok(MeasuredSize {
            size: Size::Exactly(Amount::Sectors(measured.sectors)),
            is_rounded: measured.is_rounded,
        })
    }

    fn whole_size(self, measure: Measure) -> Result<Measured, Unmeasured>
        ensures ok { IfOk result (HasCount self None None (Long measure)) }
        ensures refused { IfErr result (RefusesSize self None None (Long measure)) }
    {
        let length = self.length(measure)?;
        counted(u128::from(length.sectors), length.is_rounded)
    }

    fn size_until(self, first: u64, position: Position) -> Result<Measured, Unmeasured>
        ensures ok { IfOk result (HasCount self (Some first) None (End position)) }
        ensures refused { IfErr result (RefusesSize self (Some first) None (End position)) }
    {
        let end = self.sector(position)?;
        let more = if is_last(position) { 1 } else { 0 };
        let after = u128::from(end.sectors) + more;
        counted(after.saturating_sub(u128::from(first)), end.is_rounded)
    }

    fn longer_size(self, range: SectorRange, measure: Measure) -> Result<Measured, Unmeasured>
        ensures ok { IfOk result (HasCount self None (Some range) (More measure)) }
        ensures refused { IfErr result (RefusesSize self None (Some range) (More measure)) }
    {
        let more = self.length(measure)?;
        counted(
            sectors_of(range) + u128::from(more.sectors),
            more.is_rounded,
        )
    }

    fn shorter_size(self, range: SectorRange, measure: Measure) -> Result<Measured, Unmeasured>
        ensures ok { IfOk result (HasCount self None (Some range) (Less measure)) }
        ensures refused { IfErr result (RefusesSize self None (Some range) (Less measure)) }
    {
        let less = self.length(measure)?;
        counted(
            sectors_of(range).saturating_sub(u128::from(less.sectors)),
            less.is_rounded,
        )
    }
}

// Returns the largest multiple of the alignment that is at most `value` if each sector counts `unit`.
#[tactic(auto, using(crate::proofs::Floors::step_some, crate::proofs::Floors::step_fits, crate::proofs::Floors::times_fit, crate::proofs::Floors::floor_of, crate::proofs::Floors::rest_is))]
fn round_down(align: u64, unit: u64, value: u128) -> Result<Measured, Unmeasured>
    requires aligned { 0 < align }
    requires counts { 0 < unit }
    ensures ok { IfOk result (λ m. IsFloor align unit value m.sectors) }
    ensures rounded { IfOk result (λ m. m.is_rounded ≡ not (nat_eq (m.sectors * unit) value)) }
    ensures refused { IfErr result (λ r. (r ≡ TooLarge) × ((n : ℕ) × IsFloor align unit value n × (2 ^ 64 ≤ n))) }
{
    let step = u128::from(align) * u128::from(unit);
    let sectors = value / step * u128::from(align);
    match u64::try_from(sectors) {
        Ok(sectors) => Ok(Measured {
            sectors,
            is_rounded: value % step != 0,
        }),
        Err(_) => Err(Unmeasured::TooLarge),
    }
}

// Returns the size, unless it is zero or has no 64-bit number.
fn counted(sectors: u128, is_rounded: bool) -> Result<Measured, Unmeasured>
    ensures ok { IfOk result (λ m. (0 < m.sectors) × (m.sectors ≡ sectors) × (m.is_rounded ≡ is_rounded)) }
    ensures refused { IfErr result (RefusesCount (λ n. n ≡ sectors)) }
{
    match u64::try_from(sectors) {
        Ok(0) => Err(Unmeasured::NoSize),
        Ok(sectors) => Ok(Measured {
            sectors,
            is_rounded,
        }),
        Err(_) => Err(Unmeasured::TooLarge),
    }
}

// Returns the number of sectors of the range.
fn sectors_of(range: SectorRange) -> u128
    ensures { result ≡ sectors_of range }
{
    (u128::from(range.last) + 1).saturating_sub(u128::from(range.first))
}

// Returns the first sector of the partition.
fn find_first(start: Option<u64>, there: Option<SectorRange>) -> Option<u64>
    ensures { result ≡ first_of start there }
{
    match (start, there) {
        (Some(first), _) => Some(first),
        (None, Some(range)) => Some(range.first),
        (None, None) => None,
    }
}

// Reports whether an end at this position is the number of the last sector.
fn is_last(position: Position) -> bool
    ensures { result ≡ is_last position }
{
    matches!(
        position,
        Position::FromStart(Measure::Exactly(Amount::Sectors(_)))
    )
}
