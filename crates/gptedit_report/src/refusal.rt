//! Explains why a request is refused.

use crate::reason::{Lift, Reason};
use crate::report::{Commands, Message};
use crate::texts::EntryText;
use gptedit_core::{Amount, Refusal, SectorRange};
use gptedit_values::{AmountText, ShellWord};
use gptman::GPT;
use std::alloc::AllocError;
use std::fmt;

/// Message: a request is refused, and the remedy. One or two lines, without the last newline.
#[derive(Clone, Copy)]
pub struct RefusalText<'a> {
    /// The refusal.
    pub refusal: &'a Refusal,
    /// The table on the disk, or a new one without partitions; `None` if there is none.
    pub table: Option<&'a GPT>,
    /// The sector size in bytes.
    pub sector_size: u64,
    /// The path of the image or device, as given by the user.
    pub image: &'a str,
}

impl fmt::Display for RefusalText<'_> {
    fn fmt<W: fmt::Write>(&self, f: &mut fmt::Formatter<W>) -> fmt::Result {
        match self.refusal {
            Refusal::NotWhole(amount) => write_not_whole(f, *amount, self.sector_size),
            Refusal::NoAlignment => {
                f.write_str("the alignment must not be zero; use for example 1MiB")
            }
            Refusal::NoUnusedEntry => self.write_no_unused(f),
            Refusal::NoEntry(number) => self.write_no_entry(f, *number),
            Refusal::IsUsed(number) => self.write_is_used(f, *number),
            Refusal::IsUnused(number) => self.write_is_unused(f, *number),
            Refusal::WouldMove(number) => self.write_would_move(f, *number),
            Refusal::NotAsked(number) => self.write_not_asked(f, *number),
            Refusal::NewRole(number) => self.write_new_role(f, *number),
            Refusal::NoRoom(number) => self.write_no_room(f, *number),
            Refusal::Twice(number) => write!(f, "entry {number} is named twice; name it once"),
            Refusal::NoType(number) => write_no_type(f, *number),
            Refusal::NoSize(number) => write_no_size(f, *number),
            Refusal::TooLarge(number) => write_too_large(f, *number),
            Refusal::NotLaidOut => write_not_laid_out(f, self.image),
            Refusal::TooSmall => self.write_too_small(f),
            Refusal::SharedGuid if self.empty_table().is_some() => f.write_str(NEW_SHARED_GUID),
            Refusal::SharedGuid => write_shared_guid(f, self.image),
            Refusal::BadBoundaries if self.empty_table().is_some() => write_outside(f, self.table),
            Refusal::BadBoundaries => write_bad_boundaries(f, self.image, self.table),
            Refusal::TooSmallFor(count) => write_too_small_for(f, *count),
            Refusal::OutOfBounds(usable) => write_out_of_bounds(f, *usable),
            Refusal::NoSafeOrder => write_no_safe_order(f),
        }
    }
}

impl Message for RefusalText<'_> {
    fn reason(&self) -> Reason {
        Reason::Request(*self.refusal)
    }

    fn lifted_by(&self) -> Option<Lift> {
        match self.refusal {
            Refusal::NoSafeOrder => Some(Lift::Overwrite),
            _ => None,
        }
    }

    fn add_commands(&self, commands: &mut Commands) -> Result<(), AllocError> {
        let image = self.image;
        match self.refusal {
            Refusal::IsUnused(_) => commands.add_own("show", image),
            Refusal::NoRoom(_) if self.empty_table().is_none() => commands.add_own("free", image),
            Refusal::NoType(_) => commands.add(&["gptedit", "types"]),
            Refusal::SharedGuid | Refusal::BadBoundaries if self.empty_table().is_some() => Ok(()),
            Refusal::SharedGuid => commands.add_own("check", image),
            Refusal::NotLaidOut => {
                commands.add_own("grow", image)?;
                commands.add_own("check", image)
            }
            Refusal::BadBoundaries => {
                commands.add_own("free", image)?;
                commands.add_own("check", image)
            }
            _ => Ok(()),
        }
    }
}

impl RefusalText<'_> {
    // Returns the table if it has no partitions, as a new one, which may not be on the disk.
    fn empty_table(&self) -> Option<&GPT> {
        let table = self.table?;
        if table.iter().any(|(_, entry)| entry.is_used()) {
            return None;
        }
        Some(table)
    }

    // Returns the number of entries of the table.
    fn count(&self) -> u32 {
        match self.table {
            Some(table) => table.header.number_of_partition_entries,
            None => 0,
        }
    }

    fn write_no_unused<W: fmt::Write>(&self, f: &mut fmt::Formatter<W>) -> fmt::Result {
        let (count, image) = (self.count(), ShellWord(self.image));
        writeln!(f, "all {count} entries of the table are used")?;
        write!(
            f,
            "first remove a partition that is no longer needed: `gptedit remove {image} N --backup FILE`"
        )
    }

    fn write_no_entry<W: fmt::Write>(&self, f: &mut fmt::Formatter<W>, number: u32) -> fmt::Result {
        let count = self.count();
        write!(
            f,
            "entry {number} does not exist; the last entry is {count}"
        )
    }

    fn write_is_used<W: fmt::Write>(&self, f: &mut fmt::Formatter<W>, number: u32) -> fmt::Result {
        self.write_entry(f, number)?;
        f.write_str(
            " already exists\nuse the number of an unused entry, or none for the lowest one",
        )
    }

    fn write_is_unused<W: fmt::Write>(
        &self,
        f: &mut fmt::Formatter<W>,
        number: u32,
    ) -> fmt::Result {
        write!(
            f,
            "entry {number} is not used; `gptedit show {}` lists the partitions",
            ShellWord(self.image)
        )
    }

    fn write_would_move<W: fmt::Write>(
        &self,
        f: &mut fmt::Formatter<W>,
        number: u32,
    ) -> fmt::Result {
        self.write_entry(f, number)?;
        f.write_str(
            " would move or become shorter\n\
             omit its start and size to keep it; --replace changes it, but does not move its contents",
        )
    }

    fn write_not_asked<W: fmt::Write>(
        &self,
        f: &mut fmt::Formatter<W>,
        number: u32,
    ) -> fmt::Result {
        self.write_entry(f, number)?;
        f.write_str(" is not in the layout\nadd it there to keep it, or use --replace to remove it")
    }

    fn write_new_role<W: fmt::Write>(&self, f: &mut fmt::Formatter<W>, number: u32) -> fmt::Result {
        self.write_entry(f, number)?;
        f.write_str(
            " would get another type or GUID, and the layout does not name it by number or GUID\n\
             add its number there, or use --replace",
        )
    }

    fn write_no_room<W: fmt::Write>(&self, f: &mut fmt::Formatter<W>, number: u32) -> fmt::Result {
        write!(
            f,
            "partition {number} does not fit into a free range at this alignment; "
        )?;
        match self.empty_table() {
            Some(table) => {
                let (first, last) = (table.header.first_usable_lba, table.header.last_usable_lba);
                write!(f, "the usable sectors are {first}..{last}")
            }
            None => write!(
                f,
                "`gptedit free {}` lists the ranges",
                ShellWord(self.image)
            ),
        }
    }

    fn write_too_small<W: fmt::Write>(&self, f: &mut fmt::Formatter<W>) -> fmt::Result {
        if self.count() == 0 {
            return f.write_str("the table has no entries, and cannot be fitted to the disk");
        }
        f.write_str("the disk is too small for two copies of the table; a longer disk is needed")
    }

    // Writes the number of a partition, and its entry.
    fn write_entry<W: fmt::Write>(&self, f: &mut fmt::Formatter<W>, number: u32) -> fmt::Result {
        write!(f, "partition {number}")?;
        match self.table.and_then(|table| table.get(number)) {
            Some(entry) => {
                let sector_size = self.sector_size;
                write!(f, " ({})", EntryText { entry, sector_size })
            }
            None => Ok(()),
        }
    }
}

// Writes that an amount is not a whole number of sectors, and the next one that is, in bytes and in sectors.
pub(crate) fn write_not_whole<W: fmt::Write>(
    f: &mut fmt::Formatter<W>,
    amount: Amount,
    sector_size: u64,
) -> fmt::Result {
    write!(
        f,
        "{} is not a whole number of sectors of {sector_size} bytes",
        AmountText(amount)
    )?;
    let Some(whole) = round_up(amount, sector_size) else {
        return Ok(());
    };
    write!(f, "; use {}B or {}s", whole.bytes, whole.sectors)
}

// A whole number of sectors, also in bytes.
#[derive(Clone, Copy)]
struct Whole {
    bytes: u64,
    sectors: u64,
}

// Returns the amount, rounded up to a whole number of sectors.
fn round_up(amount: Amount, sector_size: u64) -> Option<Whole> {
    match amount {
        Amount::Bytes(bytes) if sector_size > 0 => {
            let sectors = bytes.div_ceil(sector_size);
            let bytes = sectors.checked_mul(sector_size)?;
            Some(Whole { bytes, sectors })
        }
        _ => None,
    }
}

fn write_no_type<W: fmt::Write>(f: &mut fmt::Formatter<W>, number: u32) -> fmt::Result {
    write!(f, "partition {number} has no type, or a type of zeros; ")?;
    f.write_str("use one that `gptedit types` lists, or another GUID")
}

fn write_no_size<W: fmt::Write>(f: &mut fmt::Formatter<W>, number: u32) -> fmt::Result {
    write!(
        f,
        "partition {number} has no size, or a size of zero; use for example 64MiB or 2048s"
    )
}

fn write_too_large<W: fmt::Write>(f: &mut fmt::Formatter<W>, number: u32) -> fmt::Result {
    write!(
        f,
        "partition {number} would end past 2^64 sectors; use a smaller start or size"
    )
}

/// Writes that a table does not have the stated layout, and the remedy.
pub fn write_not_laid_out<W: fmt::Write>(f: &mut fmt::Formatter<W>, image: &str) -> fmt::Result {
    let image = ShellWord(image);
    writeln!(
        f,
        "the table is for a disk of another length, or is not in the layout that gptedit writes"
    )?;
    write!(
        f,
        "if the length of the disk has changed, run `gptedit grow {image}`, or use --fit if the command has it; "
    )?;
    write!(f, "else see `gptedit check {image}`")
}

fn write_too_small_for<W: fmt::Write>(f: &mut fmt::Formatter<W>, count: u32) -> fmt::Result {
    if count == 0 {
        return f.write_str("the number of entries must not be zero; use for example 128");
    }
    write!(
        f,
        "the disk is too small for two copies of a table of {count} entries; use fewer, or a longer disk"
    )
}

fn write_out_of_bounds<W: fmt::Write>(
    f: &mut fmt::Formatter<W>,
    usable: SectorRange,
) -> fmt::Result {
    let SectorRange { first, last } = usable;
    write!(
        f,
        "the usable sectors must be within {first}..{last} and not end before they begin; correct the layout"
    )
}

fn write_no_safe_order<W: fmt::Write>(f: &mut fmt::Formatter<W>) -> fmt::Result {
    f.write_str("the new table would overwrite the only good copy of the old one\n")?;
    f.write_str("--overwrite writes it anyway; a crash during the write may then leave neither")
}

// The text of a shared GUID if the table has no partitions yet.
const NEW_SHARED_GUID: &str =
    "two partitions would have the same GUID\nuse another one, or omit it for a random one";

/// Writes that two partitions would have the same GUID, and the remedy.
pub fn write_shared_guid<W: fmt::Write>(f: &mut fmt::Formatter<W>, image: &str) -> fmt::Result {
    let image = ShellWord(image);
    writeln!(f, "two partitions would have the same GUID")?;
    f.write_str("use another one, or omit it for a random one; ")?;
    write!(
        f,
        "`gptedit check {image}` reports GUIDs that are shared already"
    )
}

/// Writes that partitions would overlap or be outside the usable sectors, and the remedy.
pub fn write_bad_boundaries<W: fmt::Write>(
    f: &mut fmt::Formatter<W>,
    image: &str,
    table: Option<&GPT>,
) -> fmt::Result {
    let image = ShellWord(image);
    write_outside(f, table)?;
    write!(
        f,
        "\n`gptedit free {image}` lists the free ranges; `gptedit check {image}` reports existing faults"
    )
}

// Writes that partitions would overlap or be outside the usable sectors.
fn write_outside<W: fmt::Write>(f: &mut fmt::Formatter<W>, table: Option<&GPT>) -> fmt::Result {
    f.write_str("partitions would overlap, or lie outside the usable sectors")?;
    match table {
        Some(table) => {
            let (first, last) = (table.header.first_usable_lba, table.header.last_usable_lba);
            write!(f, ", {first}..{last}")
        }
        None => Ok(()),
    }
}
