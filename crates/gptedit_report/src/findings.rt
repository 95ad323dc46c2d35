//! Finds faults of a table and disk, and the commands that may correct them.

use crate::bounds::Edges;
use crate::copies::CopiesState;
use crate::entries::{EntryFault, Removal, find_entry_faults};
use crate::fault::Meaning;
use crate::layout::{LayoutState, length_to};
use crate::way::{Otherwise, Way};
use gptedit_look::{HeaderPlace, Look, MbrKind, Signature};
use gptman::{Error, GPT};
use std::alloc::{AllocError, Global};
use std::fmt;

/// A finding of `check`.
#[derive(Drop)]
pub struct Finding<'a> {
    /// The fault or note.
    pub wrong: Wrong<'a>,
    /// The commands that may correct it, the best one first. The caller keeps the one to print.
    pub ways: Vec<Way>,
    /// The advice if no command corrects it.
    pub otherwise: Otherwise,
}

/// A fault or note.
#[derive(Clone, Copy)]
pub enum Wrong<'a> {
    /// The primary copy has this fault.
    PrimaryBad(&'a Error),
    /// The backup copy has this fault.
    BackupBad(&'a Error),
    /// The primary header has another place for itself or its entries.
    PrimaryElsewhere,
    /// The backup header does not name sector 1, or its entries do not follow the last usable sector.
    BackupElsewhere,
    /// The two copies are different tables.
    TwoTables,
    /// The disk is longer than the table, which ends at this sector.
    Grown(u64),
    /// The disk ends before this sector, where the table ends.
    Cut(u64),
    /// The table does not have the stated layout.
    NoLayout,
    /// The usable sectors include a sector of a copy, or the last one is too low.
    Bounds(Edges),
    /// A fault of entries.
    Entry(EntryFault),
    /// There is no MBR.
    NoMbr,
    /// Sector 0 is a boot sector, not an MBR.
    OtherMbr,
    /// The MBR is that of a DOS disk.
    DosMbr,
    /// The protective MBR has the length of another disk.
    MbrLength,
    /// The protective MBR does not start in sector 1.
    MbrStart,
    /// The MBR has this number of protective entries.
    Protective(u8),
    /// The MBR lists partitions beside the protective entry.
    Hybrid,
    /// There is a header of a table with another sector size.
    Signature(Signature),
    /// The disk ends with this footer.
    Footer(&'static str),
}

impl Wrong<'_> {
    /// Reports whether this is a note, not a fault.
    pub fn is_note(&self) -> bool {
        matches!(self, Wrong::Hybrid | Wrong::Footer(_))
    }
}

/// Returns all findings, in the order in which they are printed. `is_device` says whether the disk is a block device,
/// not an image file.
pub fn find_all<'a>(
    alloc: Global,
    look: &'a Look,
    is_device: bool,
) -> Result<Vec<Finding<'a>>, AllocError> {
    let mut findings = Findings::new(alloc, look, is_device)?;
    findings.add_copies()?;
    findings.add_layout_state()?;
    findings.add_bounds()?;
    findings.add_entries()?;
    findings.add_mbr()?;
    findings.add_others()?;
    let Findings { list, .. } = findings;
    Ok(list)
}

// The findings so far, and the disk.
#[derive(Drop)]
struct Findings<'a> {
    alloc: Global,
    look: &'a Look,
    is_device: bool,
    layout_state: Option<LayoutState>,
    faults: Vec<EntryFault>,
    removal: Removal,
    list: Vec<Finding<'a>>,
}

impl<'a> Findings<'a> {
    fn new(alloc: Global, look: &'a Look, is_device: bool) -> Result<Findings<'a>, AllocError> {
        let faults = match &look.table {
            Some(table) => find_entry_faults(alloc, table)?,
            None => Vec::new(alloc),
        };
        let layout_state = look
            .table
            .as_ref()
            .map(|table| LayoutState::of(table, look.size));
        Ok(Findings {
            alloc,
            look,
            is_device,
            layout_state,
            removal: Removal::of(alloc, &faults)?,
            faults,
            list: Vec::new(alloc),
        })
    }

    // Adds a finding that commands for the whole table may correct.
    fn add(&mut self, wrong: Wrong<'a>) -> Result<(), AllocError> {
        let mut ways = Vec::new(self.alloc);
        match self.layout_state {
            None => (),
            Some(LayoutState::Right) => ways.push(Way::Repair)?,
            Some(LayoutState::Grown(_)) | Some(LayoutState::Cut(_)) => ways.push(Way::Grow)?,
            Some(LayoutState::Other) if self.are_bounds_over() => ways.push(Way::RepairBounds)?,
            Some(LayoutState::Other) => (),
        }
        if let Some(way) = self.removal.way(self.alloc)? {
            ways.push(way)?;
        }
        self.push(wrong, ways, self.otherwise())
    }

    // Returns the advice if no command corrects a fault of the table.
    fn otherwise(&self) -> Otherwise {
        match self.layout_state {
            None => Otherwise::Save,
            Some(LayoutState::Cut(last)) => {
                let size = length_to(last, self.look.sector_size);
                if self.is_device {
                    Otherwise::LongerDisk(size)
                } else {
                    Otherwise::Lengthen(size)
                }
            }
            _ => Otherwise::OtherTool,
        }
    }

    // Reports whether the usable sectors include a sector of a copy.
    fn are_bounds_over(&self) -> bool {
        match &self.look.table {
            Some(table) => Edges::of(table, self.look.size).are_over(),
            None => false,
        }
    }

    fn push(
        &mut self,
        wrong: Wrong<'a>,
        ways: Vec<Way>,
        otherwise: Otherwise,
    ) -> Result<(), AllocError> {
        self.list.push(Finding {
            wrong,
            ways,
            otherwise,
        })?;
        Ok(())
    }

    // Adds a finding that no command corrects.
    fn add_only(&mut self, wrong: Wrong<'a>) -> Result<(), AllocError> {
        let ways = Vec::new(self.alloc);
        self.push(wrong, ways, Otherwise::OtherTool)
    }

    // Adds faults of the copies.
    fn add_copies(&mut self) -> Result<(), AllocError> {
        let copies = &self.look.copies;
        match CopiesState::new(&copies.primary, &copies.backup, copies.are_same) {
            CopiesState::Good => Ok(()),
            CopiesState::PrimaryBad(fault) => self.add(Wrong::PrimaryBad(fault)),
            CopiesState::BackupBad(fault) => self.add(Wrong::BackupBad(fault)),
            CopiesState::BothBad(primary, backup) => {
                self.add(Wrong::PrimaryBad(primary))?;
                self.add(Wrong::BackupBad(backup))
            }
            CopiesState::PrimaryElsewhere => self.add(Wrong::PrimaryElsewhere),
            CopiesState::BackupElsewhere => self.add(Wrong::BackupElsewhere),
            CopiesState::TwoTables => self.add(Wrong::TwoTables),
        }
    }

    // Adds a fault of the layout.
    fn add_layout_state(&mut self) -> Result<(), AllocError> {
        match self.layout_state {
            None | Some(LayoutState::Right) => Ok(()),
            Some(LayoutState::Grown(last)) => self.add(Wrong::Grown(last)),
            Some(LayoutState::Cut(last)) => self.add(Wrong::Cut(last)),
            Some(LayoutState::Other) => self.add(Wrong::NoLayout),
        }
    }

    // Adds usable sectors that include the table's own, or omit some at the end.
    fn add_bounds(&mut self) -> Result<(), AllocError> {
        let Some(table) = &self.look.table else {
            return Ok(());
        };
        let copies = &self.look.copies;
        let state = CopiesState::new(&copies.primary, &copies.backup, copies.are_same);
        let edges = Edges::of(table, self.look.size);
        let is_low = edges.is_low() && matches!(state, CopiesState::BackupElsewhere);
        if !edges.are_over() && !is_low {
            return Ok(());
        }
        let way = match self.layout_state {
            Some(LayoutState::Grown(_)) | Some(LayoutState::Cut(_)) => Way::Grow,
            _ => Way::RepairBounds,
        };
        let mut ways = vec![in self.alloc; way]?;
        if let Some(way) = self.removal.way(self.alloc)? {
            ways.push(way)?;
        }
        self.push(Wrong::Bounds(edges), ways, self.otherwise())
    }

    // Adds faults of entries.
    fn add_entries(&mut self) -> Result<(), AllocError> {
        let are_few = self.faults.len() <= MOST_SINGLE;
        for i in 0..self.faults.len() {
            let Some(fault) = self.faults.get(i).copied() else {
                return Ok(());
            };
            let mut ways = Vec::new(self.alloc);
            if are_few {
                fault.add_ways(self.alloc, &mut ways)?;
            }
            if fault.is_shared_guid() {
                ways.push(Way::Randomize)?;
            }
            if let Some(way) = self.removal.way(self.alloc)? {
                ways.push(way)?;
            }
            self.push(Wrong::Entry(fault), ways, self.otherwise())?;
        }
        Ok(())
    }

    // Adds faults of the MBR.
    fn add_mbr(&mut self) -> Result<(), AllocError> {
        let first = &self.look.first_sector;
        let count = first.protective_count;
        match first.kind {
            MbrKind::None => return self.add(Wrong::NoMbr),
            MbrKind::Other => return self.add_only(Wrong::OtherMbr),
            MbrKind::Dos => return self.add_only(Wrong::DosMbr),
            MbrKind::Hybrid => self.add_only(Wrong::Hybrid)?,
            MbrKind::Protective if !first.is_start_right => self.add(Wrong::MbrStart)?,
            MbrKind::Protective if count == 1 && !first.is_length_right => {
                self.add(Wrong::MbrLength)?
            }
            MbrKind::Protective => (),
        }
        if count > 1 {
            self.add_only(Wrong::Protective(count))?;
        }
        Ok(())
    }

    // Adds headers of tables with another sector size, and a footer.
    fn add_others(&mut self) -> Result<(), AllocError> {
        let look = self.look;
        for signature in look.signatures.iter() {
            if signature.sector_size != look.sector_size {
                self.add_only(Wrong::Signature(*signature))?;
            }
        }
        match &look.footer {
            Some(footer) => self.add_only(Wrong::Footer(footer.name)),
            None => Ok(()),
        }
    }
}

// With more entry faults than this, commands that correct a single one are not named.
const MOST_SINGLE: usize = 8;

impl fmt::Display for Wrong<'_> {
    fn fmt<W: fmt::Write>(&self, f: &mut fmt::Formatter<W>) -> fmt::Result {
        match self {
            Wrong::PrimaryBad(fault) => write_bad(f, "primary", *fault),
            Wrong::BackupBad(fault) => write_bad(f, "backup", *fault),
            Wrong::Grown(last) => {
                write!(
                    f,
                    "the disk is longer than the table, which ends at sector {last}"
                )
            }
            Wrong::Cut(last) => {
                write!(
                    f,
                    "the disk is shorter than the table, which ends at sector {last}"
                )
            }
            Wrong::Bounds(edges) => write!(f, "{edges}"),
            Wrong::Entry(fault) => write!(f, "{fault}"),
            Wrong::Protective(count) => write!(f, "the MBR has {count} entries of type 0xEE"),
            Wrong::Signature(signature) => write_signature(f, signature),
            Wrong::Footer(name) => write!(f, "the disk ends with {name}"),
            other => f.write_str(other.text()),
        }
    }
}

// Writes that a copy is bad, and why.
fn write_bad<W: fmt::Write>(f: &mut fmt::Formatter<W>, place: &str, fault: &Error) -> fmt::Result {
    let (name, meaning) = (fault.name(), Meaning(fault));
    write!(f, "the {place} copy is bad ({name}: {meaning})")
}

// Writes that there is a header of a table with another sector size.
fn write_signature<W: fmt::Write>(f: &mut fmt::Formatter<W>, signature: &Signature) -> fmt::Result {
    let Signature {
        sector_size,
        place,
        at,
    } = *signature;
    let place = match place {
        HeaderPlace::Start => "start",
        HeaderPlace::End => "end",
    };
    write!(
        f,
        "a header of a table with sectors of {sector_size} bytes is at the {place} of the disk, at byte {at}"
    )
}

impl Wrong<'_> {
    // Returns the text of a finding without numbers.
    fn text(&self) -> &'static str {
        match self {
            Wrong::PrimaryElsewhere =>
                "the primary copy is not in its usual place (header in sector 1, entries from sector 2 on)",
            Wrong::BackupElsewhere =>
                "the backup entries do not follow the last usable sector, or their header does not name sector 1",
            Wrong::TwoTables => "the copies are different tables; repair keeps the primary one",
            Wrong::NoLayout => "the table is not in the layout that gptedit writes",
            Wrong::NoMbr => "there is no protective MBR",
            Wrong::OtherMbr => "there is no protective MBR, but a boot sector in sector 0",
            Wrong::DosMbr => "the disk has a DOS partition table",
            Wrong::MbrLength => "the length in the protective MBR is not that of the disk",
            Wrong::MbrStart =>
                "the protective MBR does not start in sector 1, so Linux finds no table",
            Wrong::Hybrid => "the MBR is hybrid: it lists partitions besides the protective entry",
            _ => "a copy is bad",
        }
    }
}
