//! Why a request is refused.

ghost use Rattle.std.specs.Prelude.{◌≡◌};
ghost use Rattle.gptman.specs.Error.{OutOfMemory};
ghost use Rattle.gptedit_core.specs.declared.refusal.Stop.TheVariants.{Failed, Refused};

use crate::amount::Amount;
use crate::sectors::SectorRange;
use gptman::Error;
use std::alloc::AllocFailed;

/// Why a request is refused for this table. A number is that of an entry, unless another meaning is given.
#[derive(Clone, Copy, PartialEq, Eq, Debug)]
pub enum Refusal {
    /// All entries are used.
    NoUnusedEntry,
    /// There is no entry with this number.
    NoEntry(u32),
    /// The entry is used, and the request needs an unused one.
    IsUsed(u32),
    /// The entry is unused, and the request needs a used one.
    IsUnused(u32),
    /// The number is requested twice.
    Twice(u32),
    /// The entry would have no type.
    NoType(u32),
    /// The size is missing or zero.
    NoSize(u32),
    /// The amount is not a whole number of sectors.
    NotWhole(Amount),
    /// The partition would end at or after sector 2^64.
    TooLarge(u32),
    /// The partition would move or become shorter.
    WouldMove(u32),
    /// The entry is used, and the layout does not name it.
    NotAsked(u32),
    /// There is no room for the partition.
    NoRoom(u32),
    /// The alignment is zero.
    NoAlignment,
    /// The table does not have the stated layout on this disk.
    NotLaidOut,
    /// The disk is too small for the table, or the table has no entries.
    TooSmall,
    /// Two entries would have the same GUID.
    SharedGuid,
    /// Partitions would overlap, or be outside the usable sectors.
    BadBoundaries,
    /// The disk has no room for two copies of a table with this number of entries, or the number is 0.
    TooSmallFor(u32),
    /// The requested usable sectors are not a range, empty or not, within these: the usable sectors between the two
    /// copies.
    OutOfBounds(SectorRange),
    /// The new table would overwrite the only good copy of the old one before a copy of the new one is complete.
    NoSafeOrder,
    /// The layout gives another type or GUID to the entry, which it means only by its name or type.
    NewRole(u32),
}

/// Why no plan was made.
#[derive(Drop, Debug)]
pub enum Stop {
    /// The request is refused.
    Refused(Refusal),
    /// An allocation failed.
    Failed(Error),
}

impl From<Refusal> for Stop {
    ghost from_gives = { λ refusal stop. stop ≡ Refused refusal };

    fn from(refusal: Refusal) -> Stop {
        Stop::Refused(refusal)
    }
}

impl From<Error> for Stop {
    ghost from_gives = { λ e stop. stop ≡ Failed e };

    fn from(e: Error) -> Stop {
        Stop::Failed(e)
    }
}

impl<T: Drop> From<AllocFailed<T>> for Stop {
    ghost from_gives = { λ _ stop. stop ≡ Failed OutOfMemory };

    fn from(_e: AllocFailed<T>) -> Stop {
        Stop::Failed(Error::OutOfMemory)
    }
}
