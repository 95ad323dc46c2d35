//! The state of the two copies of a table.

use gptman::copy::WholeCopy;
use gptman::{Error, GPTHeader, Result};
use std::fmt;

/// The state of the two copies of a table, each read separately.
#[derive(Clone, Copy)]
pub enum CopiesState<'a> {
    /// Both are good and one table, each in its place.
    Good,
    /// The primary copy has this fault; the backup copy is good.
    PrimaryBad(&'a Error),
    /// The backup copy has this fault; the primary copy is good.
    BackupBad(&'a Error),
    /// The primary copy has the first fault, the backup copy the second.
    BothBad(&'a Error, &'a Error),
    /// Both are good, but the primary header has another place for itself or its entries.
    PrimaryElsewhere,
    /// Both are good, but the backup header does not refer to sector 1, or its entries do not follow the usable
    /// sectors.
    BackupElsewhere,
    /// Both are good and in their places, but are different tables.
    TwoTables,
}

impl<'a> CopiesState<'a> {
    /// Returns the state of two copies. `are_same` says whether they are one table, each in the form of its place.
    pub fn new(
        primary: &'a Result<WholeCopy>,
        backup: &'a Result<WholeCopy>,
        are_same: bool,
    ) -> CopiesState<'a> {
        match (primary, backup) {
            (Err(primary), Err(backup)) => CopiesState::BothBad(primary, backup),
            (Err(primary), Ok(_)) => CopiesState::PrimaryBad(primary),
            (Ok(_), Err(backup)) => CopiesState::BackupBad(backup),
            (Ok(_), Ok(_)) if are_same => CopiesState::Good,
            (Ok(primary), Ok(backup)) => difference(&primary.header, &backup.header),
        }
    }

    /// Returns the fault of the primary copy, if any.
    pub fn primary_fault(&self) -> Option<&'a Error> {
        match self {
            CopiesState::PrimaryBad(fault) => Some(*fault),
            CopiesState::BothBad(fault, _) => Some(*fault),
            _ => None,
        }
    }

    /// Returns the fault of the backup copy, if any.
    pub fn backup_fault(&self) -> Option<&'a Error> {
        match self {
            CopiesState::BackupBad(fault) => Some(*fault),
            CopiesState::BothBad(_, fault) => Some(*fault),
            _ => None,
        }
    }

    /// Reports whether both copies are good and one table, each in its place.
    pub fn is_good(&self) -> bool {
        matches!(self, CopiesState::Good)
    }
}

/// The state in a few words.
impl fmt::Display for CopiesState<'_> {
    fn fmt<W: fmt::Write>(&self, f: &mut fmt::Formatter<W>) -> fmt::Result {
        match self {
            CopiesState::Good => f.write_str("both copies good"),
            CopiesState::PrimaryBad(fault) => {
                write!(f, "backup copy good, primary bad ({})", fault.name())
            }
            CopiesState::BackupBad(fault) => {
                write!(f, "primary copy good, backup bad ({})", fault.name())
            }
            CopiesState::BothBad(_, _) => f.write_str("both copies bad"),
            CopiesState::PrimaryElsewhere => {
                f.write_str("both copies good, the primary not in its place")
            }
            CopiesState::BackupElsewhere => {
                f.write_str("both copies good, the backup not in its place")
            }
            CopiesState::TwoTables => f.write_str("both copies good, but they are two tables"),
        }
    }
}

// Returns how two good copies differ that are not one table in the forms of their places.
fn difference<'a>(primary: &GPTHeader, backup: &GPTHeader) -> CopiesState<'a> {
    if primary.primary_lba != 1 || primary.partition_entry_lba != 2 {
        return CopiesState::PrimaryElsewhere;
    }
    if backup.backup_lba != 1
        || backup.partition_entry_lba.checked_sub(1) != Some(backup.last_usable_lba)
    {
        return CopiesState::BackupElsewhere;
    }
    CopiesState::TwoTables
}
