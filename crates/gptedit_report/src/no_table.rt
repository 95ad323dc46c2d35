//! The failure that no copy of a table is good.

use crate::fault::Meaning;
use crate::reason::Reason;
use crate::report::{Commands, Message};
use crate::way::SAVE;
use gptedit_formats::copies::{CopyKind, FoundCopy, Salvaged};
use gptedit_look::Look;
use gptedit_values::ShellWord;
use std::alloc::AllocError;
use std::fmt;

/// Message: no copy of the table is good, the fault of each, and the remedy. Three lines, without the last newline.
#[derive(Clone, Copy)]
pub struct NoTableText<'a> {
    /// The inspection of the disk.
    pub look: &'a Look,
    /// The readable remains.
    pub salvaged: &'a Salvaged,
    /// The path of the image or device, as given by the user.
    pub image: &'a str,
}

impl fmt::Display for NoTableText<'_> {
    fn fmt<W: fmt::Write>(&self, f: &mut fmt::Formatter<W>) -> fmt::Result {
        let copies = &self.look.copies;
        f.write_str("the disk has no good copy of a table")?;
        if let Err(primary) = &copies.primary {
            write!(f, "; primary: {}", Meaning(primary))?;
        }
        if let Err(backup) = &copies.backup {
            write!(f, "; backup: {}", Meaning(backup))?;
        }
        f.write_str("\n")?;
        let primary = count_in(self.salvaged, CopyKind::Primary);
        let backup = count_in(self.salvaged, CopyKind::Backup);
        if primary > 0 || backup > 0 {
            writeln!(
                f,
                "the primary copy still has {primary} readable entries, and the backup {backup}"
            )?;
        }
        let image = ShellWord(self.image);
        write!(
            f,
            "`gptedit salvage {image}` prints what can be read; {SAVE}"
        )?;
        if primary == 0 && backup == 0 {
            f.write_str("\nif its sectors have another size, use --sector")?;
        }
        Ok(())
    }
}

impl Message for NoTableText<'_> {
    fn reason(&self) -> Reason {
        Reason::NoTable
    }

    fn add_commands(&self, commands: &mut Commands) -> Result<(), AllocError> {
        commands.add_own("salvage", self.image)
    }
}

// Returns the number of readable entries in the place of a copy.
fn count_in(salvaged: &Salvaged, kind: CopyKind) -> usize {
    let mut most = 0;
    for copy in salvaged.copies.iter() {
        if place_of_entries(copy) == kind {
            most = copy.count_sensible().max(most);
        }
    }
    most
}

// Returns the place from which the entries of a copy were read.
fn place_of_entries(copy: &FoundCopy) -> CopyKind {
    match copy.spot.kind {
        kind if !copy.has_others_entries() => kind,
        CopyKind::Primary => CopyKind::Backup,
        CopyKind::Backup | CopyKind::Other => CopyKind::Primary,
    }
}
