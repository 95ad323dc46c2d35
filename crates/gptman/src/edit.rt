//! Edits of a table as values, applied in order.

ghost use Rattle.std.specs.Prelude.{◌≡◌, ◌≤◌, ◌<◌, ◌⊎◌, [], ◌∷◌, ℕ, length};
ghost use Rattle.std.specs.Prelude.{IfErr, IfNone, IfOk, IfSome, IsOk, IsTrue, OnErr, OnOk};
ghost use Rattle.gptman.specs.Answers.{refusal_of, Refuses, ReportsFailure};
ghost use Rattle.gptman.specs.Copy.{IsCoherent};
ghost use Rattle.gptman_disk.specs.Disk.{HasFailedAsOften, HasFailedOnceAtMost, IsHonest, Keeps, OnlyRead};
ghost use Rattle.gptman_disk.specs.Disk.{Rose, Writes};
ghost use Rattle.gptman_disk.specs.Fault.{fault_of, out_of_memory};
ghost use Rattle.gptman_disk.specs.Ranges.{AreApart};
ghost use Rattle.gptman.specs.Commit.{is_failure, is_io, reached, tables_to, value_after, HoldsLast};
ghost use Rattle.gptman.specs.Commit.{BothPlacesAfterEdits, HasContentsAfter};
ghost use Rattle.gptman.specs.Commit.{IsAllowed, IsAllowedAt, IsRefusedAt, IsStoredAfter, RefusesEdit};
ghost use Rattle.gptman.specs.Crash.{StartsFromOne, StartsLaidOut, StartsStored, StartsSynced};
ghost use Rattle.gptman.specs.Crash.{AreReadFromEachCopy, BothPlacesAfter, StopsKeepOthers};
ghost use Rattle.gptman.specs.Edit.{after_edit, edit_fault, edited_all, edits_fault, table_after};
ghost use Rattle.gptman.specs.Layout.{HasLayout};
ghost use Rattle.gptman.specs.Stop.{IsStored, StopsAreReadAs, StopsHold};
ghost use Rattle.gptman.specs.Table.{entries_in, table_in};
ghost use Rattle.gptman.specs.TableWrites.{other_with_checksums, table_ranges, value_with_checksums};
ghost use Rattle.gptman.specs.TableWrites.{HasBothCopies, HasRoomOn, IsNotForRoom, RefusesUnwritten};
ghost use Rattle.gptman.specs.declared.edit.Edit.TheVariants.{SortEntries};

use crate::sizes::note_sizes;
use crate::table::GPT;
use crate::{Disk, Error, GPTPartitionEntry, Result};

/// A change of a table. Numbers of entries count from 1.
#[derive(Drop, Debug)]
pub enum Edit {
    /// Replaces the entry with this number.
    Put(u32, GPTPartitionEntry),
    /// Replaces the entry with this number by the unused entry.
    Remove(u32),
    /// Sorts the entries: used ones by their first sector, then unused ones.
    SortEntries,
    /// Sets the GUID of the disk, 16 bytes in their order on the disk.
    DiskGuid([u8; 16]),
}

/// The outcome of a list of edits.
#[derive(Drop, Debug)]
pub struct Progress {
    /// The number of edits that were applied and written.
    pub done: usize,
    /// Why the next edit failed, or `None` if all were written.
    pub fault: Option<Error>,
}

impl Edit {
    // Copies the edit. Only `Put` allocates, for the text of the name.
    fn clone(&self) -> Result<Edit>
        ensures ok { IfOk result (λ edit. edit ≡ self.now) }
        ensures refused { IfErr result (λ e. fault_of e ≡ out_of_memory) }
    {
        match self {
            Edit::Put(i, entry) => Ok(Edit::Put(*i, entry.clone()?)),
            Edit::Remove(i) => Ok(Edit::Remove(*i)),
            Edit::SortEntries => Ok(Edit::SortEntries),
            Edit::DiskGuid(guid) => Ok(Edit::DiskGuid(*guid)),
        }
    }
}

impl GPT {
    /// Applies the edit in memory.
    ///
    /// `InvalidPartitionNumber` if a number is 0, above the header's count or above the length of the list;
    /// `OutOfMemory` if sorting runs out of memory. The table is then unchanged.
    pub fn apply(&mut self, edit: Edit) -> Result<()>
        ensures answer { (refusal_of result ≡ edit_fault self.old edit)
            ⊎ ((edit ≡ SortEntries) × Refuses result out_of_memory) }
        ensures value { OnOk result (self.new ≡ after_edit self.old edit) }
        ensures kept { OnErr result (self.new ≡ self.old) }
    {
        match edit {
            Edit::Put(i, entry) => self.put(i, entry),
            Edit::Remove(i) => self.remove(i),
            Edit::SortEntries => self.sort(),
            Edit::DiskGuid(guid) => {
                self.header.disk_guid = guid;
                Ok(())
            }
        }
    }

    /// Applies all edits in order, in memory, or none of them. An empty list needs no memory.
    ///
    /// # Errors
    /// The error of `apply` for the first edit that it refuses, on the table that the edits before it made;
    /// `OutOfMemory` if the table or an entry cannot be copied, or sorting runs out of memory. The table is
    /// then unchanged.
    pub fn apply_all(&mut self, edits: &[Edit]) -> Result<()>
        ensures answer { (refusal_of result ≡ edits_fault self.old edits.now)
            ⊎ Refuses result out_of_memory }
        ensures value { OnOk result (self.new ≡ edited_all self.old edits.now) }
        ensures kept { OnErr result (self.new ≡ self.old) }
        ensures empty { edits.now ≡ [] → IsOk result }
    {
        if edits.is_empty() {
            return Ok(());
        }
        let mut edited = self.clone()?;
        edited.apply_each(edits)?;
        *self = edited;
        Ok(())
    }

    // Applies the edits in order, up to the first that fails.
    fn apply_each(&mut self, edits: &[Edit]) -> Result<()>
        ensures answer { (refusal_of result ≡ edits_fault self.old edits.now)
            ⊎ Refuses result out_of_memory }
        ensures value { OnOk result (self.new ≡ edited_all self.old edits.now) }
    {
        for edit in edits {
            self.apply(edit.clone()?)?;
        }
        Ok(())
    }

    /// Applies the edits one by one, and writes the table after each. Stops at the first error.
    ///
    /// `done` counts the edits that were applied and written. `fault` is the error of the next one. After an
    /// error of `apply` the value has `done` edits, after one of `write_into` `done + 1`. If all were written,
    /// its checksums are computed. An empty list writes and changes nothing.
    ///
    /// On an honest disk of the stated layout, after an error other than `Io` both places hold the table after
    /// `done` edits, or the disk is unchanged if `done` is 0. After `Io`, if nothing was unsynced before, this
    /// holds of each place separately, or the place holds the table after `done + 1` edits, or its header is
    /// unsynced.
    ///
    /// The sector size must be above 0, and the table coherent (`is_coherent`).
    pub fn commit_all<D: Disk>(&mut self, disk: &mut D, edits: Vec<Edit>) -> Progress
        requires sector { 0 < self.old.sector_size }
        requires coherent { IsCoherent self.old.header (entries_in self.old) }
        ensures keeps { Keeps (D.state disk.old) (D.state disk.new) }
        ensures counts { HasFailedAsOften (D.state disk.old) (D.state disk.new)
            ⊎ (IsTrue (is_failure result.fault)
            × HasFailedOnceAtMost (D.state disk.old) (D.state disk.new)) }

        // How many edits were applied and written, and why the next one failed. In the stated layout there is
        // room for each.
        ensures count { result.done ≤ length edits.items }
        ensures all { IfNone result.fault (result.done ≡ length edits.items) }
        ensures allowed { (k : ℕ) → k < result.done → IsAllowedAt self.old edits.items k }
        ensures fits { 0 < result.done → HasRoomOn self.old (D.state disk.old).size }
        ensures refused { IfSome result.fault (λ e. IsRefusedAt self.old edits.items result.done (fault_of e)
            self.new (D.state disk.old) (D.state disk.new)) }
        ensures room { HasLayout self.old (D.state disk.old).size
            → IfSome result.fault (λ e. IsNotForRoom (fault_of e)) }
        ensures cause { IsTrue (is_failure result.fault) → Rose (D.state disk.old) (D.state disk.new) }

        // The value, if all edits were written.
        ensures value { IfNone result.fault (self.new ≡ value_after self.old edits.items result.done) }

        // The disk. Unless it failed, in the stated layout both places hold the table of the last write;
        // without a write it was only read.
        ensures empty { edits.items ≡ [] → disk.new ≡ disk.old }
        ensures wrote { Writes (table_ranges self.old) (D.state disk.old) (D.state disk.new) }
        ensures untouched { IsHonest (D.state disk.old) → result.done ≡ 0
            → IsTrue (is_failure result.fault) ⊎ OnlyRead (D.state disk.old) (D.state disk.new) }
        ensures contents { IsHonest (D.state disk.old) → 0 < result.done → IsTrue (is_failure result.fault)
            ⊎ HasContentsAfter (D.state disk.new) self.old edits.items result.done }
        ensures stored { StartsLaidOut (D.state disk.old) self.old → IsTrue (is_failure result.fault)
            ⊎ IsStoredAfter self.old edits.items result.done (D.state disk.old) (D.state disk.new) }
        ensures each_copy { StartsLaidOut (D.state disk.old) self.old → 0 < result.done
            → IsTrue (is_failure result.fault)
            ⊎ AreReadFromEachCopy (D.state disk.new).view (table_after self.old edits.items result.done) }

        // From one good copy of the value's own table, a crash at any moment leaves the table after some of the
        // edits in at least one place.
        ensures one_good { StartsFromOne (D.state disk.old) self.old (table_in self.old)
            → StopsHold (D.state disk.old) (D.state disk.new) self.old.sector_size
            (tables_to self.old edits.items (reached result.done result.fault)) }
        ensures outside { StartsSynced (D.state disk.old) self.old
            → StopsKeepOthers (D.state disk.old) (D.state disk.new) self.old }
        ensures read { StartsFromOne (D.state disk.old) self.old (table_in self.old)
            → StopsAreReadAs (D.state disk.old) (D.state disk.new) self.old.sector_size
            (tables_to self.old edits.items (reached result.done result.fault)) }
        ensures last { StartsFromOne (D.state disk.old) self.old (table_in self.old)
            → IfSome result.fault (λ e. HoldsLast (D.state disk.new) self.old edits.items result.done
            (is_io (fault_of e))) }

        // After an error each place is unchanged, if no edit was written; or holds the table after `done` edits
        // or after the next one, whatever a crash leaves; or has an unsynced header.
        ensures after { StartsSynced (D.state disk.old) self.old
            → IfSome result.fault (λ e. BothPlacesAfterEdits self.old edits.items result.done
            (D.state disk.old) (D.state disk.new)) }

        // So from two good copies the disk is read as one of these tables, unless the read returns a foreign
        // copy.
        ensures crash_safe { StartsStored (D.state disk.old) self.old (table_in self.old)
            → StopsAreReadAs (D.state disk.old) (D.state disk.new) self.old.sector_size
            (tables_to self.old edits.items (reached result.done result.fault)) }
    {
        note_sizes(&self.header);
        let mut done = 0;
        for edit in edits {
            if let Err(fault) = self.commit(disk, edit) {
                return Progress {
                    done,
                    fault: Some(fault),
                };
            }
            done += 1;
        }
        Progress { done, fault: None }
    }

    // Applies the edit and writes the table.
    fn commit<D: Disk>(&mut self, disk: &mut D, edit: Edit) -> Result<()>
        requires sector { 0 < self.old.sector_size }
        requires coherent { IsCoherent self.old.header (entries_in self.old) }
        ensures keeps { Keeps (D.state disk.old) (D.state disk.new) }
        ensures failure { ReportsFailure result (D.state disk.old) (D.state disk.new) }

        // The result, and the edited value.
        ensures allowed { OnOk result (IsAllowed self.old edit) }
        ensures fits { OnOk result (HasRoomOn self.old (D.state disk.old).size) }
        ensures refused { IfErr result (λ e. RefusesEdit self.old edit (fault_of e) self.new
            (D.state disk.old) (D.state disk.new)) }
        ensures room { HasLayout self.old (D.state disk.old).size
            → IfErr result (λ e. IsNotForRoom (fault_of e)) }
        ensures value { OnOk result (self.new ≡ value_with_checksums (after_edit self.old edit)) }
        ensures sector { self.new.sector_size ≡ self.old.sector_size }
        ensures coherent { IsCoherent self.new.header (entries_in self.new) }

        // The disk: it has the edited table after `Ok`, and was only read after an error other than `Io`.
        ensures wrote { Writes (table_ranges self.old) (D.state disk.old) (D.state disk.new) }
        ensures synced { IsHonest (D.state disk.old) → OnOk result ((D.state disk.new).pending ≡ []) }
        ensures contents { IsHonest (D.state disk.old) → AreApart (table_ranges self.old) → OnOk result
            (HasBothCopies (D.state disk.new).view self.new
            (other_with_checksums (after_edit self.old edit))) }
        ensures untouched { RefusesUnwritten result (D.state disk.old) (D.state disk.new) }
        ensures stored { StartsLaidOut (D.state disk.old) self.old
            → OnOk result (IsStored (D.state disk.new) self.old.sector_size
            (table_in (after_edit self.old edit))) }
        ensures one_good { StartsFromOne (D.state disk.old) self.old (table_in self.old)
            → StopsHold (D.state disk.old) (D.state disk.new) self.old.sector_size
            (table_in self.old ∷ table_in (after_edit self.old edit) ∷ []) }
        ensures after { StartsSynced (D.state disk.old) self.old → OnErr result
            (BothPlacesAfter (after_edit self.old edit) (D.state disk.old) (D.state disk.new)) }
    {
        self.apply(edit)?;
        self.write_into(disk)?;
        Ok(())
    }
}
