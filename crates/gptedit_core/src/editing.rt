//! Changes of the table on a disk.

ghost use Rattle.std.specs.Prelude.{◌≡◌, ◌<◌, false, true, IfErr, IfOk, IfSome, OnErr};
ghost use Rattle.gptman.specs.Answers.{HasCause};
ghost use Rattle.gptman.specs.Disk.{FailedOrUntouched, IsHonest, Keeps, OnlyRead};
ghost use Rattle.gptman.specs.Fault.{fault_of};
ghost use Rattle.gptman.specs.Table.{Table};
ghost use Rattle.gptman_change.specs.Changes.{AnswersChange, IsSafe, LeavesChange, RefusesChange};
ghost use Rattle.gptman_change.specs.Changes.{StartsGoodFor};
ghost use Rattle.gptman_change.specs.Reads.{size_for};
ghost use Rattle.gptedit_core.specs.FittedReshaping.{has_random_both, IsLeftBoth, IsWrittenBoth};
ghost use Rattle.gptedit_core.specs.Fitting.{has_random_fitted, IsLeftFitted, IsWrittenFitted};
ghost use Rattle.gptedit_core.specs.Growing.{IsLeftGrown, IsWrittenGrown, StartsPrimaryFor};
ghost use Rattle.gptedit_core.specs.Planning.{has_random, IsLeft, IsMemoryFault, IsWritten, MayAsk};
ghost use Rattle.gptedit_core.specs.Reshaping.{has_random_reshaped, IsLeftReshaped, IsWrittenReshaped};

use crate::fitted_reshaping::FittedReshapedRequest;
use crate::fitting::FittedRequest;
use crate::growth::Growth;
use crate::plan::{Outcome, Request};
use crate::reshaping::ReshapedRequest;
use gptman::{Disk, Result};
use gptman_change::change_table;
use std::alloc::Global;

/// Reads the table on the disk, changes it as requested, and writes it to both places in one write. Writes nothing if
/// the request is a dry run, is refused or changes nothing; `Job::Rewrite` always writes. `sector_size` is in bytes;
/// `None` means 512, or 4096 if a read with 512 finds no signature.
///
/// # Errors
///
/// Those of reading a table and of `GPT::write_into`, `Io` if the length of the disk cannot be read, and
/// `OutOfMemory`. After any error other than `Io` the disk is unchanged.
pub fn edit<D: Disk>(
    alloc: Global,
    disk: &mut D,
    sector_size: Option<u64>,
    request: &Request,
) -> Result<Outcome>
    requires sector { IfSome sector_size (λ size. 0 < size) }
    requires random { has_random request.now }
    ensures keeps { Keeps (D.state disk.old) (D.state disk.new) }

    // After `Ok` both places hold the planned table, and each copy by itself is read as it; or the disk was only
    // read, and the outcome says why nothing was written.
    ensures done { IsHonest (D.state disk.old) → IfOk result (λ outcome. AnswersChange
        (IsWritten request.now (D.state disk.old).size) (IsLeft request.now (D.state disk.old).size)
        sector_size outcome (D.state disk.old) (D.state disk.new)) }

    // After an error the disk is unchanged, unless the disk failed.
    ensures refused { IsHonest (D.state disk.old) → IfErr result (λ e. RefusesChange
        (IsWritten request.now (D.state disk.old).size) (IsMemoryFault request.now (D.state disk.old).size)
        (MayAsk request.now) sector_size (fault_of e) (D.state disk.old) (D.state disk.new)) }
    ensures cause { HasCause result (D.state disk.old) (D.state disk.new) }
    ensures kept { IsHonest (D.state disk.old)
        → OnErr result (FailedOrUntouched (D.state disk.old) (D.state disk.new)) }

    // A dry run only reads.
    ensures dry { IsHonest (D.state disk.old) → request.now.is_dry ≡ true
        → OnlyRead (D.state disk.old) (D.state disk.new) }

    // If nothing was unsynced before, a crash or disk fault at any moment leaves the old or the planned table.
    // `leaves`: from one good copy that is clear of the ranges written first. `safe`: from at least one good copy, if
    // all good copies are of one table.
    ensures leaves { IsHonest (D.state disk.old) → LeavesChange
        (IsWritten request.now (D.state disk.old).size) sector_size (D.state disk.old) (D.state disk.new) }
    ensures safe { (was : Table) → StartsGoodFor (D.state disk.old) sector_size was
        → IsSafe (IsWritten request.now (D.state disk.old).size)
        (size_for (D.state disk.old).view sector_size) was (D.state disk.old) (D.state disk.new) }
{
    change_table(alloc, disk, sector_size, request)
}

/// Reads the table on the disk, fits it to the length of the disk or sets the usual bounds there, and writes it to
/// both places in one write. Writes nothing if the growth is a dry run, is refused or changes nothing. `sector_size`
/// is as for `edit`.
///
/// # Errors
///
/// Those of `edit`.
pub fn grow<D: Disk>(
    alloc: Global,
    disk: &mut D,
    sector_size: Option<u64>,
    growth: &Growth,
) -> Result<Outcome>
    requires { IfSome sector_size (λ size. 0 < size) }
    ensures keeps { Keeps (D.state disk.old) (D.state disk.new) }
    ensures done { IsHonest (D.state disk.old) → IfOk result (λ outcome. AnswersChange
        (IsWrittenGrown growth.now (D.state disk.old).size) (IsLeftGrown growth.now (D.state disk.old).size)
        sector_size outcome (D.state disk.old) (D.state disk.new)) }
    ensures refused { IsHonest (D.state disk.old) → IfErr result (λ e. RefusesChange
        (IsWrittenGrown growth.now (D.state disk.old).size)
        (IsMemoryFault growth.now (D.state disk.old).size)
        (MayAsk growth.now) sector_size (fault_of e) (D.state disk.old) (D.state disk.new)) }
    ensures cause { HasCause result (D.state disk.old) (D.state disk.new) }
    ensures kept { IsHonest (D.state disk.old)
        → OnErr result (FailedOrUntouched (D.state disk.old) (D.state disk.new)) }
    ensures dry { IsHonest (D.state disk.old) → growth.now.is_dry ≡ true
        → OnlyRead (D.state disk.old) (D.state disk.new) }

    // If nothing was unsynced before, a crash or disk fault at any moment leaves the old or the grown table.
    // `leaves`: from one good copy that is clear of the ranges written first, as the primary copy is
    // (`growths_keep_the_primary_copy`). `safe`: from the primary copy, if it is the only good one.
    ensures leaves { IsHonest (D.state disk.old) → LeavesChange
        (IsWrittenGrown growth.now (D.state disk.old).size) sector_size
        (D.state disk.old) (D.state disk.new) }
    ensures safe { (was : Table) → StartsPrimaryFor (D.state disk.old) sector_size was
        → IsSafe (IsWrittenGrown growth.now (D.state disk.old).size)
        (size_for (D.state disk.old).view sector_size) was (D.state disk.old) (D.state disk.new) }
{
    change_table(alloc, disk, sector_size, growth)
}

/// Reads the table on the disk, fits it to the length of the disk, changes it as requested, and writes it to both places
/// in one write. Writes nothing if the request is a dry run, is refused or changes nothing; `Job::Rewrite` always
/// writes. `sector_size` is as for `edit`.
///
/// # Errors
///
/// Those of `edit`.
pub fn edit_fitted<D: Disk>(
    alloc: Global,
    disk: &mut D,
    sector_size: Option<u64>,
    fitted: &FittedRequest,
) -> Result<Outcome>
    requires sector { IfSome sector_size (λ size. 0 < size) }
    requires random { has_random_fitted fitted.now }
    ensures keeps { Keeps (D.state disk.old) (D.state disk.new) }
    ensures done { IsHonest (D.state disk.old) → IfOk result (λ outcome. AnswersChange
        (IsWrittenFitted fitted.now (D.state disk.old).size) (IsLeftFitted fitted.now (D.state disk.old).size)
        sector_size outcome (D.state disk.old) (D.state disk.new)) }
    ensures refused { IsHonest (D.state disk.old) → IfErr result (λ e. RefusesChange
        (IsWrittenFitted fitted.now (D.state disk.old).size)
        (IsMemoryFault fitted.now (D.state disk.old).size)
        (MayAsk fitted.now) sector_size (fault_of e) (D.state disk.old) (D.state disk.new)) }
    ensures cause { HasCause result (D.state disk.old) (D.state disk.new) }
    ensures kept { IsHonest (D.state disk.old)
        → OnErr result (FailedOrUntouched (D.state disk.old) (D.state disk.new)) }
    ensures dry { IsHonest (D.state disk.old) → fitted.now.request.is_dry ≡ true
        → OnlyRead (D.state disk.old) (D.state disk.new) }

    // If nothing was unsynced before, a crash or disk fault at any moment leaves the old or the planned table.
    // `leaves`: from one good copy that is clear of the ranges written first. `safe`: from the primary copy, if it is
    // the only good one.
    ensures leaves { IsHonest (D.state disk.old) → LeavesChange
        (IsWrittenFitted fitted.now (D.state disk.old).size) sector_size
        (D.state disk.old) (D.state disk.new) }
    ensures safe { (was : Table) → StartsPrimaryFor (D.state disk.old) sector_size was
        → IsSafe (IsWrittenFitted fitted.now (D.state disk.old).size)
        (size_for (D.state disk.old).view sector_size) was (D.state disk.old) (D.state disk.new) }
{
    change_table(alloc, disk, sector_size, fitted)
}

/// Reads the table on the disk, gives it the number of entries and the usable sectors of a shape, changes it as requested,
/// and writes it to both places in one write. Writes nothing if the request is a dry run, is refused or changes nothing;
/// `Job::Rewrite` always writes. The new table is written in the form of the copy that was read, so that this copy is
/// overwritten last. `sector_size` is as for `edit`.
///
/// # Errors
///
/// Those of `edit`.
pub fn edit_reshaped<D: Disk>(
    alloc: Global,
    disk: &mut D,
    sector_size: Option<u64>,
    reshaped: &ReshapedRequest,
) -> Result<Outcome>
    requires sector { IfSome sector_size (λ size. 0 < size) }
    requires random { has_random_reshaped reshaped.now }
    ensures keeps { Keeps (D.state disk.old) (D.state disk.new) }
    ensures done { IsHonest (D.state disk.old) → IfOk result (λ outcome. AnswersChange
        (IsWrittenReshaped reshaped.now (D.state disk.old).size)
        (IsLeftReshaped reshaped.now (D.state disk.old).size)
        sector_size outcome (D.state disk.old) (D.state disk.new)) }
    ensures refused { IsHonest (D.state disk.old) → IfErr result (λ e. RefusesChange
        (IsWrittenReshaped reshaped.now (D.state disk.old).size)
        (IsMemoryFault reshaped.now (D.state disk.old).size)
        (MayAsk reshaped.now) sector_size (fault_of e) (D.state disk.old) (D.state disk.new)) }
    ensures cause { HasCause result (D.state disk.old) (D.state disk.new) }
    ensures kept { IsHonest (D.state disk.old)
        → OnErr result (FailedOrUntouched (D.state disk.old) (D.state disk.new)) }
    ensures dry { IsHonest (D.state disk.old) → reshaped.now.request.is_dry ≡ true
        → OnlyRead (D.state disk.old) (D.state disk.new) }

    // If nothing was unsynced before, a crash or disk fault at any moment leaves the old or the planned table.
    // `leaves`: from one good copy that is clear of the ranges written first. `safe`: unless `may_lose` is set, from at
    // least one good copy, if all good copies are of one table.
    ensures leaves { IsHonest (D.state disk.old) → LeavesChange
        (IsWrittenReshaped reshaped.now (D.state disk.old).size) sector_size
        (D.state disk.old) (D.state disk.new) }
    ensures safe { reshaped.now.may_lose ≡ false → (was : Table)
        → StartsGoodFor (D.state disk.old) sector_size was
        → IsSafe (IsWrittenReshaped reshaped.now (D.state disk.old).size)
        (size_for (D.state disk.old).view sector_size) was (D.state disk.old) (D.state disk.new) }
{
    change_table(alloc, disk, sector_size, reshaped)
}

/// Reads the table on the disk, fits it to the length of the disk, gives it the shape, changes it as requested, and writes
/// it to both places in one write. Writes nothing if the request is a dry run, is refused or changes nothing;
/// `Job::Rewrite` always writes. `sector_size` is as for `edit`.
///
/// # Errors
///
/// Those of `edit`.
pub fn edit_fitted_reshaped<D: Disk>(
    alloc: Global,
    disk: &mut D,
    sector_size: Option<u64>,
    both: &FittedReshapedRequest,
) -> Result<Outcome>
    requires sector { IfSome sector_size (λ size. 0 < size) }
    requires random { has_random_both both.now }
    ensures keeps { Keeps (D.state disk.old) (D.state disk.new) }
    ensures done { IsHonest (D.state disk.old) → IfOk result (λ outcome. AnswersChange
        (IsWrittenBoth both.now (D.state disk.old).size) (IsLeftBoth both.now (D.state disk.old).size)
        sector_size outcome (D.state disk.old) (D.state disk.new)) }
    ensures refused { IsHonest (D.state disk.old) → IfErr result (λ e. RefusesChange
        (IsWrittenBoth both.now (D.state disk.old).size)
        (IsMemoryFault both.now (D.state disk.old).size)
        (MayAsk both.now) sector_size (fault_of e) (D.state disk.old) (D.state disk.new)) }
    ensures cause { HasCause result (D.state disk.old) (D.state disk.new) }
    ensures kept { IsHonest (D.state disk.old)
        → OnErr result (FailedOrUntouched (D.state disk.old) (D.state disk.new)) }
    ensures dry { IsHonest (D.state disk.old) → both.now.reshaped.request.is_dry ≡ true
        → OnlyRead (D.state disk.old) (D.state disk.new) }

    // If nothing was unsynced before, a crash or disk fault at any moment leaves the old or the planned table.
    // `leaves`: from one good copy that is clear of the ranges written first. `safe`: unless `may_lose` is set, from the
    // primary copy, if it is the only good one.
    ensures leaves { IsHonest (D.state disk.old) → LeavesChange
        (IsWrittenBoth both.now (D.state disk.old).size) sector_size
        (D.state disk.old) (D.state disk.new) }
    ensures safe { both.now.reshaped.may_lose ≡ false → (was : Table)
        → StartsPrimaryFor (D.state disk.old) sector_size was
        → IsSafe (IsWrittenBoth both.now (D.state disk.old).size)
        (size_for (D.state disk.old).view sector_size) was (D.state disk.old) (D.state disk.new) }
{
    change_table(alloc, disk, sector_size, both)
}
