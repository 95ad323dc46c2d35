//! Fits a table to the length of its disk and changes its shape.

ghost use Rattle.std.specs.Prelude.{◌≡◌, ◌<◌, IfOk, IfSome};
ghost use Rattle.gptman.specs.Disk.{IsHonest};
ghost use Rattle.gptedit_core.specs.FittedReshaping.{has_random_both};
ghost use Rattle.test_laws.specs.Outcomes.{IsNewShape, IsOwnRefit};

use gptedit_core::fitting_laws::{fitted_shapes_are_both, fitted_shapes_reach_the_end};
use gptedit_core::{FittedReshapedRequest, Outcome, edit_fitted_reshaped};
use gptman::{Disk, Result};
use std::alloc::Global;

/// Changes the table on the disk, fits it and changes its shape, in one write.
///
/// The errors are those of `edit_fitted_reshaped`.
pub fn change_both<D: Disk>(
    alloc: Global,
    disk: &mut D,
    sector_size: Option<u64>,
    both: &FittedReshapedRequest,
) -> Result<Outcome>
    requires sector { IfSome sector_size (λ size. 0 < size) }
    requires random { has_random_both both.now }

    // A changed table has the shape, and the stated layout on the disk. The reshaped request makes it of a table that ended
    // where the disk does.
    ensures shape { IsHonest (D.state disk.old)
        → IfOk result (IsNewShape both.now.reshaped.shape (D.state disk.old).size) }
    ensures alone { IsHonest (D.state disk.old)
        → IfOk result (IsOwnRefit both.now.reshaped (D.state disk.old).size) }
{
    fitted_shapes_reach_the_end();
    fitted_shapes_are_both();
    edit_fitted_reshaped(alloc, disk, sector_size, both)
}

#[cfg(test)]
mod tests {
    use super::*;
    use crate::disks::{count_entries, disk_of, shown, word_of};
    use gptedit_core::{Job, Refusal, Request, ReshapedRequest, Shape};
    use std::process::Abort;
    use std::test::Fail;

    fn sorting(alloc: Global, entries: u32, first: u64, last: u64) -> FittedReshapedRequest
        ensures ready { has_random_both result }
    {
        FittedReshapedRequest {
            reshaped: ReshapedRequest {
                request: Request {
                    job: Job::Sort,
                    random: Vec::new(alloc),
                    is_dry: false,
                },
                shape: Shape {
                    entries,
                    first_usable: first,
                    last_usable: last,
                },
                may_lose: false,
            },
        }
    }

    #[test]
    fn a_fitted_table_gets_a_shape(rt: HostRuntime) -> std::result::Result<(), Fail> {
        for (size, entries, first, last, wanted) in [
            (102_400, 256, 66, 134, "512 1/199/2 66..134 align 2048"),
            (102_400, 56, 16, 184, "512 1/199/2 16..184 align 2048"),
            (46_080, 56, 16, 74, "512 1/89/2 16..74 align 2048"),
            (51_200, 56, 16, 84, "512 1/99/2 16..84 align 2048"),
        ] {
            let both = sorting(rt.alloc(), entries, first, last);
            assert_shaped(&rt, size, &both, wanted)?;
        }
        Ok(())
    }

    // Asserts that the request changes the table on a disk of `size` bytes to this one, and then changes nothing.
    fn assert_shaped<R: Abort + AllocGlobal>(
        rt: &R,
        size: usize,
        both: &FittedReshapedRequest,
        wanted: &str,
    ) -> std::result::Result<(), Fail>
        requires { has_random_both both.now }
    {
        let alloc = rt.alloc();
        let mut disk = disk_of(alloc, size)?;
        assert!(rt; word_of(change_both(alloc, &mut disk, Some(512), both)?) == "changed");
        assert!(rt; shown(alloc, &mut disk)?.as_str() == wanted);
        assert!(rt; count_entries(alloc, &mut disk)? == both.reshaped.shape.entries);
        assert!(rt; word_of(change_both(alloc, &mut disk, Some(512), both)?) == "unchanged");
        Ok(())
    }

    #[test]
    fn fitted_shapes_are_refused(rt: HostRuntime) -> std::result::Result<(), Fail> {
        for (size, entries, last, wanted) in [
            (17_408, 56, 20, Refusal::NotLaidOut),
            (46_080, 300, 10, Refusal::TooSmallFor(300)),
        ] {
            let mut disk = disk_of(rt.alloc(), size)?;
            let both = sorting(rt.alloc(), entries, 34, last);
            match change_both(rt.alloc(), &mut disk, Some(512), &both)? {
                Outcome::Refused { refusal, .. } => assert!(rt; refusal == wanted),
                _ => assert!(rt; false),
            }
        }
        Ok(())
    }
}
