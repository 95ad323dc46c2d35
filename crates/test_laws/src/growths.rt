//! Fits a table to the length of its disk.

ghost use Rattle.std.specs.Prelude.{◌≡◌, ◌<◌, IfNone, IfOk, IfSome, OnSome};
ghost use Rattle.gptman.specs.Copy.{IsCoherent};
ghost use Rattle.gptman.specs.Disk.{IsHonest};
ghost use Rattle.gptman.specs.Table.{entries_in};
ghost use Rattle.gptedit_core.specs.Growing.{IsGrown, IsLeftGrown};
ghost use Rattle.gptedit_core.specs.declared.plan.Outcome.{Outcome};
ghost use Rattle.gptedit_core.specs.declared.plan.Outcome.TheVariants.{Unchanged};
ghost use Rattle.test_laws.specs.Outcomes.{IsFitOutcome, IsOnDisk, IsWideOutcome};

use gptedit_core::growth_laws::{
    growths_again_change_nothing, growths_follow_the_end, usual_bounds_reach_the_end,
};
use gptedit_core::{Bounds, Growth, Outcome, grow};
use gptman::{Disk, GPT, Result};
use gptman_change::{Plan, Planned};
use std::alloc::Global;

/// Fits the table on the disk to the length of the disk. Its partitions are unchanged.
///
/// The errors are those of `grow`.
pub fn fit<D: Disk>(alloc: Global, disk: &mut D, sector_size: Option<u64>) -> Result<Outcome>
    requires { IfSome sector_size (λ size. 0 < size) }

    // Unless the request is refused, the table ends at the end of the disk, and a changed table is stored.
    ensures fitted { IsHonest (D.state disk.old) → IfOk result (IsFitOutcome (D.state disk.old).size) }
    ensures stored { IsHonest (D.state disk.old) → IfOk result (IsOnDisk (D.state disk.new)) }
{
    growths_follow_the_end();
    let growth = Growth {
        bounds: Bounds::Kept,
        is_dry: false,
    };
    grow(alloc, disk, sector_size, &growth)
}

/// Makes all sectors between the two copies of the table usable.
///
/// The errors are those of `grow`.
pub fn widen<D: Disk>(alloc: Global, disk: &mut D, sector_size: Option<u64>) -> Result<Outcome>
    requires { IfSome sector_size (λ size. 0 < size) }
    ensures wide { IsHonest (D.state disk.old) → IfOk result (IsWideOutcome (D.state disk.old).size) }
    ensures stored { IsHonest (D.state disk.old) → IfOk result (IsOnDisk (D.state disk.new)) }
{
    usual_bounds_reach_the_end();
    let growth = Growth {
        bounds: Bounds::Usual,
        is_dry: false,
    };
    grow(alloc, disk, sector_size, &growth)
}

/// Applies the growth to the table, and again to a clone of it. Returns the outcome for the clone, or `None` if the
/// table did not change.
///
/// The errors are those of the growth, and `OutOfMemory`.
pub fn grow_twice<D: Disk>(
    alloc: Global,
    disk: &mut D,
    table: &mut GPT,
    growth: &Growth,
) -> Result<Option<Outcome>>
    requires sector { 0 < table.old.sector_size }
    requires coherent { IsCoherent table.old.header (entries_in table.old) }
    requires aligned { 0 < table.old.align }

    // The table is the result of the growth, and for the clone there is nothing to change.
    ensures once { IfOk result (λ told.
        OnSome told (IsGrown growth.now.bounds (D.state disk.old).size table.old table.new)) }
    ensures again { IfOk result (λ told. IfSome told (λ outcome. outcome ≡ Unchanged table.new)) }

    // If the table did not change, the growth was refused, was a dry run, or had no effect.
    ensures left { IfOk result (λ told. IfNone told ((outcome : Outcome)
        × IsLeftGrown growth.now (D.state disk.old).size table.old outcome)) }
{
    growths_again_change_nothing();
    match growth.change(alloc, disk, table)? {
        Planned::Write(_) => {}
        Planned::Leave(_) => return Ok(None),
    }
    let mut clone = table.clone()?;
    match growth.change(alloc, disk, &mut clone)? {
        Planned::Write(told) => Ok(Some(told)),
        Planned::Leave(told) => Ok(Some(told)),
    }
}

#[cfg(test)]
mod tests {
    use super::*;
    use crate::disks::{LONGER, disk_of, shown, word_of};
    use std::test::Fail;
    use test_fixtures::tables;

    #[test]
    fn a_table_is_fitted(rt: HostRuntime) -> std::result::Result<(), Fail> {
        let mut disk = disk_of(rt.alloc(), LONGER)?;
        assert!(rt; word_of(fit(rt.alloc(), &mut disk, Some(512))?) == "changed");
        assert!(rt; word_of(widen(rt.alloc(), &mut disk, Some(512))?) == "unchanged");
        let shown = shown(rt.alloc(), &mut disk)?;
        assert!(rt; shown.as_str() == "512 1/199/2 34..166 align 2048");
        Ok(())
    }

    #[test]
    fn a_table_grows_once(rt: HostRuntime) -> std::result::Result<(), Fail> {
        let mut disk = disk_of(rt.alloc(), LONGER)?;
        let mut table = tables::read(rt.alloc(), &mut disk, 512)?;
        assert!(rt; table.sector_size > 0 && table.is_coherent() && table.align > 0);
        let growth = Growth {
            bounds: Bounds::Kept,
            is_dry: false,
        };
        let told = grow_twice(rt.alloc(), &mut disk, &mut table, &growth)?;
        assert!(rt; matches!(told, Some(Outcome::Unchanged { .. })));
        Ok(())
    }
}
