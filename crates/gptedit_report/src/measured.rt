//! Explains how a stated place is measured.

use crate::reason::Reason;
use crate::refusal::write_not_whole;
use crate::report::Message;
use gptedit_core::Unmeasured;
use std::fmt;

/// Message: a start or a size was rounded. One line, without the last newline.
#[derive(Clone, Copy)]
pub struct RoundedText {
    /// `start` or `size`.
    pub what: &'static str,
    /// The number of the partition, to be named.
    pub number: Option<u32>,
    /// The rounded value in sectors.
    pub sectors: u64,
    /// The sector size in bytes.
    pub sector_size: u64,
}

impl fmt::Display for RoundedText {
    fn fmt<W: fmt::Write>(&self, f: &mut fmt::Formatter<W>) -> fmt::Result {
        let what = self.what;
        let value = SectorsAndBytes {
            sectors: self.sectors,
            sector_size: self.sector_size,
        };
        write_number(f, self.number)?;
        write!(f, "the {what} is rounded to {value}")
    }
}

// Writes which partition is meant.
fn write_number<W: fmt::Write>(f: &mut fmt::Formatter<W>, number: Option<u32>) -> fmt::Result {
    match number {
        Some(number) => write!(f, "partition {number}: "),
        None => Ok(()),
    }
}

/// Message: a stated place cannot be measured, and the remedy. One line, without the last newline.
#[derive(Clone, Copy)]
pub struct UnmeasuredText {
    /// Why.
    pub unmeasured: Unmeasured,
    /// The number of the partition, to be named.
    pub number: Option<u32>,
    /// The sector size in bytes.
    pub sector_size: u64,
    /// What was rounded down, if the size is zero.
    pub rounded: Option<RoundedOff>,
}

/// What was rounded down to no size.
#[derive(Clone, Copy)]
pub enum RoundedOff {
    /// The size, which is less than this alignment in sectors.
    Size(u64),
    /// The end, to this sector.
    End(u64),
}

// An amount in sectors, and in bytes if they have a 64-bit number.
#[derive(Clone, Copy)]
struct SectorsAndBytes {
    sectors: u64,
    sector_size: u64,
}

impl fmt::Display for SectorsAndBytes {
    fn fmt<W: fmt::Write>(&self, f: &mut fmt::Formatter<W>) -> fmt::Result {
        let sectors = self.sectors;
        write!(f, "{sectors}s")?;
        match sectors.checked_mul(self.sector_size) {
            Some(bytes) => write!(f, " ({bytes} bytes)"),
            None => Ok(()),
        }
    }
}

// Writes that rounding left no size.
fn write_rounded_off<W: fmt::Write>(
    f: &mut fmt::Formatter<W>,
    rounded: RoundedOff,
    sector_size: u64,
) -> fmt::Result {
    match rounded {
        RoundedOff::Size(sectors) => {
            let align = SectorsAndBytes {
                sectors,
                sector_size,
            };
            write!(
                f,
                "the size is less than the alignment of {align}, and is rounded down to zero; "
            )?;
            f.write_str("use a larger size")
        }
        RoundedOff::End(sectors) => {
            let end = SectorsAndBytes {
                sectors,
                sector_size,
            };
            write!(
                f,
                "the end is rounded down to {end}, which leaves a size of zero; "
            )?;
            f.write_str("use a later end")
        }
    }
}

impl fmt::Display for UnmeasuredText {
    fn fmt<W: fmt::Write>(&self, f: &mut fmt::Formatter<W>) -> fmt::Result {
        write_number(f, self.number)?;
        if let Some(rounded) = self.rounded {
            return write_rounded_off(f, rounded, self.sector_size);
        }
        let text = match self.unmeasured {
            Unmeasured::NotWhole(amount) => return write_not_whole(f, amount, self.sector_size),
            Unmeasured::NoAlignment => { "the alignment must not be zero; use for example 1MiB" }
            Unmeasured::NoSize =>
                "the partition would have a size of zero; use a larger size or a later end",
            Unmeasured::TooLarge => {
                "the partition would end past 2^64 sectors; use a smaller start or size"
            }
            Unmeasured::NoStart => "an end needs a start; state that too",
            Unmeasured::NoPartition => "there is no partition that could become longer or shorter",
            Unmeasured::BeforeStart => {
                "the position would be before the start of the disk; use a smaller one after the -"
            }
        };
        f.write_str(text)
    }
}

impl Message for UnmeasuredText {
    fn reason(&self) -> Reason {
        Reason::Place(self.unmeasured)
    }
}
