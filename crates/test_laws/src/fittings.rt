//! Changes a table and fits it to the length of its disk.

ghost use Rattle.std.specs.Prelude.{◌≡◌, ◌<◌, true, IfOk, IfSome};
ghost use Rattle.gptman.specs.Copy.{IsCoherent};
ghost use Rattle.gptman.specs.Disk.{IsHonest};
ghost use Rattle.gptman.specs.Table.{entries_in};
ghost use Rattle.gptedit_core.specs.Fitting.{has_random_fitted, IsPlannedFitted};
ghost use Rattle.gptedit_core.specs.Planning.{has_random};
ghost use Rattle.test_laws.specs.Outcomes.{IsOfSameEntries, IsOwnChange, IsNewEnd};

use gptedit_core::fitting_laws::{
    fitted_requests_are_both, fitted_requests_reach_the_end, fitting_keeps_the_entries,
};
use gptedit_core::{Bounds, FittedRequest, Growth, Outcome, Request, edit_fitted};
use gptman::{Disk, GPT, Result};
use gptman_change::{Plan, Planned};
use std::alloc::Global;

/// Changes the table on the disk and fits it, in one write.
///
/// The errors are those of `edit_fitted`.
pub fn change_fitted<D: Disk>(
    alloc: Global,
    disk: &mut D,
    sector_size: Option<u64>,
    fitted: &FittedRequest,
) -> Result<Outcome>
    requires sector { IfSome sector_size (λ size. 0 < size) }
    requires random { has_random_fitted fitted.now }

    // A changed table ends where the disk does. The request makes it of a table with the same entries, and of the same
    // table if that ended there.
    ensures ends { IsHonest (D.state disk.old) → IfOk result (IsNewEnd (D.state disk.old).size) }
    ensures alone { IsHonest (D.state disk.old)
        → IfOk result (IsOwnChange fitted.now.request (D.state disk.old).size) }
    ensures entries { IsHonest (D.state disk.old)
        → IfOk result (IsOfSameEntries fitted.now.request (D.state disk.old).size) }
{
    fitted_requests_reach_the_end();
    fitted_requests_are_both();
    fitting_keeps_the_entries();
    edit_fitted(alloc, disk, sector_size, fitted)
}

/// Fits the table, and then changes it, in memory. Returns whether both changed it.
///
/// The errors are those of the two plans.
pub fn grow_and_change<D: Disk>(
    alloc: Global,
    disk: &mut D,
    table: &mut GPT,
    request: &Request,
) -> Result<bool>
    requires ready { has_random request.now }
    requires sector { 0 < table.old.sector_size }
    requires coherent { IsCoherent table.old.header (entries_in table.old) }
    requires aligned { 0 < table.old.align }

    // It is what the fitted request makes at once.
    ensures both { IfOk result (λ is_made. is_made ≡ true
        → IsPlannedFitted request.now (D.state disk.old).size table.old table.new) }
{
    fitted_requests_are_both();
    let growth = Growth {
        bounds: Bounds::Kept,
        is_dry: false,
    };
    match growth.change(alloc, disk, table)? {
        Planned::Write(_) => {}
        Planned::Leave(_) => return Ok(false),
    }
    match request.change(alloc, disk, table)? {
        Planned::Write(_) => Ok(true),
        Planned::Leave(_) => Ok(false),
    }
}

#[cfg(test)]
mod tests {
    use super::*;
    use crate::disks::{LONGER, disk_of, shown, word_of};
    use gptedit_core::Job;
    use std::test::Fail;
    use test_fixtures::{tables, texts};

    fn sorting(alloc: Global) -> Request
        ensures ready { has_random result }
    {
        Request {
            job: Job::Sort,
            random: Vec::new(alloc),
            is_dry: false,
        }
    }

    #[test]
    fn a_fitted_request_is_written(rt: HostRuntime) -> std::result::Result<(), Fail> {
        let (alloc, size) = (rt.alloc(), Some(512));
        let mut disk = disk_of(alloc, LONGER)?;
        let request = sorting(alloc);
        let fitted = FittedRequest { request };
        assert!(rt; word_of(change_fitted(alloc, &mut disk, size, &fitted)?) == "changed");
        let shown = shown(alloc, &mut disk)?;
        assert!(rt; shown.as_str() == "512 1/199/2 34..166 align 2048");
        assert!(rt; word_of(change_fitted(alloc, &mut disk, size, &fitted)?) == "unchanged");
        Ok(())
    }

    #[test]
    fn a_growth_and_a_request(rt: HostRuntime) -> std::result::Result<(), Fail> {
        let mut disk = disk_of(rt.alloc(), LONGER)?;
        let mut table = tables::read(rt.alloc(), &mut disk, 512)?;
        assert!(rt; table.sector_size > 0 && table.is_coherent() && table.align > 0);
        let rewriting = Request {
            job: Job::Rewrite,
            ..sorting(rt.alloc())
        };
        assert!(rt; grow_and_change(rt.alloc(), &mut disk, &mut table, &rewriting)?);
        let shown = texts::shown(rt.alloc(), &table)?;
        assert!(rt; shown.as_str() == "512 1/199/2 34..166 align 2048");
        Ok(())
    }
}
