//! Changes a table by a list of edits, and writes it once.

ghost use Rattle.std.specs.Prelude.{◌<◌, [], ◌∷◌, IfErr, OnOk};
ghost use Rattle.gptman.specs.Copy.{IsCoherent};
ghost use Rattle.gptman.specs.Crash.{IsReadInForm, StartsLaidOut, StartsSynced};
ghost use Rattle.gptman.specs.Edit.{edited_all};
ghost use Rattle.gptman.specs.Fault.{fault_of};
ghost use Rattle.gptman.specs.Stop.{IsStored, StopsAreReadAs};
ghost use Rattle.gptman.specs.Table.{entries_in, table_in};
ghost use Rattle.test_laws.specs.Edited.{RefusesEdited};

use gptman::table::laws::{edit_lists_keep_places, what_is_held_is_read, what_is_read_is_kept};
use gptman::{Disk, Edit, GPT, GPTHeader, Result};

/// Applies all edits and writes the table once. Returns the header of the other copy.
///
/// The errors are those of `GPT::apply_all` and `GPT::write_into`.
pub fn write_edited<D: Disk>(table: &mut GPT, disk: &mut D, edits: &[Edit]) -> Result<GPTHeader>
    requires sector { 0 < table.old.sector_size }
    requires coherent { IsCoherent table.old.header (entries_in table.old) }

    // After `Ok` both places hold the edited table, if the table had the stated layout on an honest disk.
    ensures stored { StartsLaidOut (D.state disk.old) table.old → OnOk result
        (IsStored (D.state disk.new) table.old.sector_size (table_in (edited_all table.old edits.now))) }

    ensures refused { IfErr result (λ e. RefusesEdited table.old edits.now (fault_of e)
        (D.state disk.old) (D.state disk.new)) }

    // If the table was read in the form of its place, and nothing is unsynced, a read after a crash at any moment
    // returns the old or the edited table, or a foreign copy. This holds also if a call failed.
    ensures safe { StartsSynced (D.state disk.old) table.old
        → IsReadInForm (D.state disk.old).view table.old
        → StopsAreReadAs (D.state disk.old) (D.state disk.new) table.old.sector_size
        (table_in table.old ∷ table_in (edited_all table.old edits.now) ∷ []) }
{
    edit_lists_keep_places();
    what_is_held_is_read();
    what_is_read_is_kept(disk);
    table.apply_all(edits)?;
    table.write_into(disk)
}

#[cfg(test)]
mod tests {
    use super::*;
    use crate::disks::shown;
    use gptman::MemoryDisk;
    use std::alloc::Global;
    use std::test::Fail;
    use test_fixtures::{samples, tables};

    // Returns disk 1 after these edits.
    fn edited(alloc: Global, edits: &[Edit]) -> Result<MemoryDisk> {
        let mut disk = samples::disk_of(alloc, 0, 51_200)?;
        let mut table = samples::disk_1(alloc)?;
        tables::write(&mut table, &mut disk)?;
        if table.sector_size > 0 && table.is_coherent() {
            write_edited(&mut table, &mut disk, edits)?;
        }
        Ok(disk)
    }

    #[test]
    fn a_list_of_edits_is_written(rt: HostRuntime) -> std::result::Result<(), Fail> {
        let alloc = rt.alloc();
        let mut edits = Vec::new(alloc);
        edits.push(Edit::Remove(1))?;
        edits.push(Edit::SortEntries)?;
        let shown = shown(alloc, &mut edited(alloc, &edits)?)?;
        assert!(rt; shown.as_str() == "512 1/99/2 34..66 align 48, 1 Bar 48..52");
        Ok(())
    }
}
