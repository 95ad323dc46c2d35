//! One change of the table on a disk: the table is read, changed in memory by a plan, and written.
//!
//! A plan can make one edit or a whole layout. It is written once, so a crash leaves the old table or the planned one,
//! and never a part of the plan.
#![tactic(auto)]

ghost use Rattle.std.specs.Prelude.{◌≡◌, ◌<◌, ℕ, IfErr, IfOk, IfSome, OnErr, OnOk, Option};
ghost use Rattle.gptman.specs.Answers.{HasCause, ReportsFailure};
ghost use Rattle.gptman.specs.Copy.{IsCoherent};
ghost use Rattle.gptman.specs.Disk.{FailedOrUntouched, IsHonest, Keeps};
ghost use Rattle.gptman.specs.Disk.{Reads};
ghost use Rattle.gptman.specs.Fault.{Fault, fault_of};
ghost use Rattle.gptman.specs.Table.{Table, entries_in};
ghost use Rattle.gptman.specs.TableReads.{CountsReading};
ghost use Rattle.gptman.specs.declared.table.GPT.{GPT};
ghost use Rattle.gptman_change.specs.Changes.{AnswersChange, IsSafe, LeavesChange, RefusesChange};
ghost use Rattle.gptman_change.specs.Changes.{StartsGoodFor};
ghost use Rattle.gptman_change.specs.Planning.{AlwaysKeepsPlaces, IsAnswer, IsPlannedAs, RefusesPlan};
ghost use Rattle.gptman_change.specs.Reads.{size_for, IsReadFrom, RefusesReading};

use gptman::table::laws::what_is_read_is_kept;
use gptman::{Disk, GPT, Result};
use std::alloc::Global;

/// The decision of a plan, with its answer.
#[derive(Drop)]
pub enum Planned<A> {
    /// Write the changed table.
    Write(A),
    /// Write nothing; the table on the disk is unchanged.
    Leave(A),
}

/// A change of a table in memory.
pub trait Plan {
    /// The value that is returned with the changed table.
    type Answer: Drop;

    /// The precondition of `change` on the plan.
    ghost ready: { Self → Type 0 } = { λ _. Unit {0} };

    /// The relation between the plan, the length of the disk in bytes, the table before, the table after, and the
    /// answer.
    ghost makes: { Self → ℕ → GPT → GPT → Self.Answer → Type 0 };

    /// The relation between the plan, the length of the disk in bytes, a table that is left unchanged, and the answer.
    ghost leaves: { Self → ℕ → GPT → Self.Answer → Type 0 } = { λ _ _ _ _. ⊥ };

    /// The errors with which the plan refuses a table, on a disk of this length in bytes that does not fail.
    ghost refuses: { Self → ℕ → GPT → Fault → Type 0 };

    /// Holds if the plan may ask the disk for its length, and so may fail with the disk.
    ghost asks: { Self → Type 0 };

    /// Changes the table, or leaves it. The disk is only for plans that need its length, and is only read.
    fn change<D: Disk>(
        &self,
        alloc: Global,
        disk: &mut D,
        table: &mut GPT,
    ) -> Result<Planned<Self::Answer>>
        requires ready { ready self.now }
        requires sector { 0 < table.old.sector_size }
        requires coherent { IsCoherent table.old.header (entries_in table.old) }
        requires aligned { 0 < table.old.align }
        ensures reads { Reads (D.state disk.old) (D.state disk.new) }
        ensures failure { ReportsFailure result (D.state disk.old) (D.state disk.new) }
        ensures value { IfOk result (IsPlannedAs (makes self.now (D.state disk.old).size)
            (leaves self.now (D.state disk.old).size) table.old table.new) }
        ensures refused { IfErr result (λ e. RefusesPlan (refuses self.now (D.state disk.old).size)
            (asks self.now) table.old (fault_of e) (D.state disk.old) (D.state disk.new)) }
        ensures sector { OnOk result (table.new.sector_size ≡ table.old.sector_size) }
        ensures coherent { OnOk result (IsCoherent table.new.header (entries_in table.new)) };
}

/// Reads the table on the disk. Without a sector size it finds one: 512 bytes, or 4096 if a read with 512 finds no
/// signature.
///
/// # Errors
///
/// Those of `GPT::read_from` and `GPT::find_from`.
pub fn read_table<D: Disk>(alloc: Global, disk: &mut D, sector_size: Option<u64>) -> Result<GPT>
    requires { IfSome sector_size (λ size. 0 < size) }
    ensures reads { Reads (D.state disk.old) (D.state disk.new) }
    ensures counts { IsHonest (D.state disk.old)
        → IfOk result (CountsReading (D.state disk.old) (D.state disk.new)) }
    ensures refused { IsHonest (D.state disk.old)
        → IfErr result (λ e. RefusesReading sector_size (fault_of e) (D.state disk.old) (D.state disk.new)) }
    ensures cause { HasCause result (D.state disk.old) (D.state disk.new) }
    ensures value { IsHonest (D.state disk.old)
        → IfOk result (IsReadFrom sector_size (D.state disk.old) (D.state disk.new)) }
    ensures coherent { IfOk result (λ g. IsCoherent g.header (entries_in g)) }
    ensures sized { IfOk result (λ g. 0 < g.sector_size) }
    ensures aligned { IfOk result (λ g. 0 < g.align) }
{
    match sector_size {
        Some(size) => GPT::read_from(alloc, disk, size),
        None => GPT::find_from(alloc, disk),
    }
}

/// Reads the table on the disk as `read_table` does, lets the plan change it, and writes it to both places, unless the
/// plan leaves it. Returns the answer of the plan.
///
/// # Errors
///
/// Those of `read_table`, of the plan, and of `GPT::write_into`. After an error other than `Io` nothing was written.
pub fn change_table<D: Disk, P: Plan>(
    alloc: Global,
    disk: &mut D,
    sector_size: Option<u64>,
    plan: &P,
) -> Result<P::Answer>
    requires sector { IfSome sector_size (λ size. 0 < size) }
    requires ready { P.ready plan.now }
    ensures keeps { Keeps (D.state disk.old) (D.state disk.new) }

    // After Ok the plan returned this answer, and either the planned table was written to both places, or the plan left
    // the table and the disk was only read.
    ensures answer { IfOk result (IsAnswer (P.makes plan.now (D.state disk.old).size)
        (P.leaves plan.now (D.state disk.old).size)) }
    ensures changed { IsHonest (D.state disk.old) → IfOk result (λ answer. AnswersChange
        (P.makes plan.now (D.state disk.old).size) (P.leaves plan.now (D.state disk.old).size)
        sector_size answer (D.state disk.old) (D.state disk.new)) }

    // An error has one of three reasons. Unless the disk failed, nothing was written.
    ensures refused { IsHonest (D.state disk.old) → IfErr result (λ e. RefusesChange
        (P.makes plan.now (D.state disk.old).size) (P.refuses plan.now (D.state disk.old).size)
        (P.asks plan.now) sector_size (fault_of e) (D.state disk.old) (D.state disk.new)) }
    ensures cause { HasCause result (D.state disk.old) (D.state disk.new) }
    ensures kept { IsHonest (D.state disk.old)
        → OnErr result (FailedOrUntouched (D.state disk.old) (D.state disk.new)) }

    // A crash or fault at any moment leaves the old table or the planned one, if the disk starts with one good copy for
    // the planned table, or if the plan keeps the places of a table and all good copies are of one table.
    ensures leaves { IsHonest (D.state disk.old) → LeavesChange
        (P.makes plan.now (D.state disk.old).size) sector_size (D.state disk.old) (D.state disk.new) }
    ensures safe { AlwaysKeepsPlaces (P.makes plan.now (D.state disk.old).size)
        → (was : Table) → StartsGoodFor (D.state disk.old) sector_size was
        → IsSafe (P.makes plan.now (D.state disk.old).size)
        (size_for (D.state disk.old).view sector_size) was (D.state disk.old) (D.state disk.new) }
{
    let mut table = read_table(alloc, disk, sector_size)?;
    let planned = plan.change(alloc, disk, &mut table)?;
    let answer = match planned {
        Planned::Write(answer) => answer,
        Planned::Leave(answer) => return Ok(answer),
    };
    what_is_read_is_kept(disk); // a law, for the proof
    table.write_into(disk)?;
    Ok(answer)
}
