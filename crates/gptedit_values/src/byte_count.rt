//! Numbers of bytes, printed for people.

ghost use Rattle.std.specs.Prelude.{◌<◌, ◌≤◌, ◌^◌};

use crate::units::{EIB, GIB, KIB, MIB, PIB, TIB, Unit};
use std::fmt;

// The units, the largest first.
const UNITS: [Unit; 6] = [EIB, PIB, TIB, GIB, MIB, KIB];

/// A number of bytes, printed in the largest unit that is not larger, with at most one decimal, rounded down: `512
/// B`, `64 MiB`, `1.5 GiB`.
#[derive(Clone, Copy, PartialEq, Eq)]
pub struct ByteCount(pub u64);

impl fmt::Display for ByteCount {
    fn fmt<W: fmt::Write>(&self, f: &mut fmt::Formatter<W>) -> fmt::Result {
        let bytes = self.0;
        for unit in UNITS {
            if bytes >= unit.bytes {
                return write_in(f, bytes, unit.name, unit.bytes);
            }
        }
        write!(f, "{bytes} B")
    }
}

fn write_in<W: fmt::Write>(
    f: &mut fmt::Formatter<W>,
    bytes: u64,
    name: &str,
    unit: u64,
) -> fmt::Result
    requires some { 0 < unit }
    requires fits { unit ≤ 2 ^ 60 }
{
    let whole = bytes / unit;
    let tenths = bytes % unit * 10 / unit;
    if tenths == 0 {
        write!(f, "{whole} {name}")
    } else {
        write!(f, "{whole}.{tenths} {name}")
    }
}
