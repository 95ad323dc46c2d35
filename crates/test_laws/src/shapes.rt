//! Changes the number of entries of a table and its usable sectors.

ghost use Rattle.std.specs.Prelude.{◌≡◌, ◌≤◌, ◌<◌, ◌+◌, IfOk, IfSome};
ghost use Rattle.gptman.specs.Copy.{IsCoherent};
ghost use Rattle.gptman.specs.Disk.{IsHonest};
ghost use Rattle.gptman.specs.Table.{entries_in};
ghost use Rattle.gptedit_core.specs.Reshaping.{has_random_reshaped, last_sector_of, new_sectors, old_sectors, HasShape};
ghost use Rattle.test_laws.specs.Outcomes.{IsNewShape, IsOwnReshape};
ghost use Rattle.test_laws.specs.Shaped.{EndBefore};

use gptedit_core::reshaping_laws::{
    complete_shapes_leave_room, complete_shapes_move_with_entries, entries_take_the_fewest_sectors,
    nothing_stated_is_kept, reshaped_requests_add_nothing, reshaped_tables_have_the_shape,
    stated_values_are_taken,
};
use gptedit_core::{Outcome, ReshapedRequest, Shape, StatedShape, edit_reshaped};
use gptman::{Disk, GPT, Result};
use std::alloc::Global;

/// Changes the table on the disk and its shape, in one write.
///
/// The errors are those of `edit_reshaped`.
pub fn change_reshaped<D: Disk>(
    alloc: Global,
    disk: &mut D,
    sector_size: Option<u64>,
    reshaped: &ReshapedRequest,
) -> Result<Outcome>
    requires sector { IfSome sector_size (λ size. 0 < size) }
    requires random { has_random_reshaped reshaped.now }

    // A changed table has the shape. The request alone makes it of a table that had the shape.
    ensures shape { IsHonest (D.state disk.old)
        → IfOk result (IsNewShape reshaped.now.shape (D.state disk.old).size) }
    ensures alone { IsHonest (D.state disk.old)
        → IfOk result (IsOwnReshape reshaped.now (D.state disk.old).size) }
{
    reshaped_tables_have_the_shape();
    reshaped_requests_add_nothing();
    edit_reshaped(alloc, disk, sector_size, reshaped)
}

/// Returns the shape of the table.
pub fn own_shape(table: &GPT) -> Shape
    requires { IsCoherent table.now.header (entries_in table.now) }
    ensures { HasShape result table.now }
{
    nothing_stated_is_kept();
    let stated = StatedShape {
        entries: None,
        first_usable: None,
        last_usable: None,
    };
    stated.complete(table)
}

/// Returns the shape of the table with other usable sectors.
pub fn with_bounds(table: &GPT, first: u64, last: u64) -> Shape
    ensures entries { result.entries ≡ table.now.header.number_of_partition_entries }
    ensures first { result.first_usable ≡ first }
    ensures last { result.last_usable ≡ last }
{
    stated_values_are_taken();
    let stated = StatedShape {
        entries: None,
        first_usable: Some(first),
        last_usable: Some(last),
    };
    stated.complete(table)
}

/// Returns the shape of the table with another number of entries.
pub fn with_count(table: &GPT, entries: u32) -> Shape
    requires { 0 < table.now.sector_size }
    ensures entries { result.entries ≡ entries }

    // The primary entries end before the first usable sector, if those of the table did.
    ensures first { EndBefore table.now.header.number_of_partition_entries table.now.sector_size
        table.now.header.first_usable_lba → EndBefore entries table.now.sector_size result.first_usable }

    // The backup entries begin after the last usable sector, if those of the table did and the new ones fit on the disk.
    ensures last { table.now.header.last_usable_lba + old_sectors table.now + 1 ≤ last_sector_of table.now
        → new_sectors table.now result + 1 ≤ last_sector_of table.now
        → result.last_usable + new_sectors table.now result + 1 ≤ last_sector_of table.now }
{
    entries_take_the_fewest_sectors();
    stated_values_are_taken();
    complete_shapes_leave_room();
    let stated = StatedShape {
        entries: Some(entries),
        first_usable: None,
        last_usable: None,
    };
    stated.complete(table)
}

/// Returns the shape with 256 entries of a table of 128 entries, on a disk with 512-byte sectors.
pub fn double(table: &GPT) -> Shape
    requires sector { table.now.sector_size ≡ 512 }
    requires count { table.now.header.number_of_partition_entries ≡ 128 }

    // Next to the entries the usable sectors move with them: 128 entries take 32 sectors, and 256 take 64.
    ensures first { table.now.header.first_usable_lba ≡ 34 → result.first_usable ≡ 66 }
    ensures last { table.now.header.last_usable_lba + 33 ≡ last_sector_of table.now
        → 65 ≤ last_sector_of table.now → result.last_usable + 65 ≡ last_sector_of table.now }

    // From 1 MiB, and before the new entries, they stay.
    ensures first_apart { table.now.header.first_usable_lba ≡ 2048 → result.first_usable ≡ 2048 }
    ensures last_apart { table.now.header.last_usable_lba + 65 ≤ last_sector_of table.now
        → result.last_usable ≡ table.now.header.last_usable_lba }
{
    stated_values_are_taken();
    complete_shapes_move_with_entries();
    let stated = StatedShape {
        entries: Some(256),
        first_usable: None,
        last_usable: None,
    };
    stated.complete(table)
}

#[cfg(test)]
mod tests {
    use super::*;
    use crate::disks::{count_entries, shown, word_of};
    use gptedit_core::{Job, Refusal, Request};
    use gptman::MemoryDisk;
    use std::test::Fail;
    use test_fixtures::{calls, samples, tables, texts};

    // Returns a disk of 100 sectors that holds a table.
    fn new_disk(alloc: Global) -> Result<MemoryDisk> {
        let image = samples::image_of_new(alloc, 0)?;
        calls::holding(alloc, &image)
    }

    fn rewriting(
        alloc: Global,
        entries: u32,
        first_usable: u64,
        last_usable: u64,
    ) -> ReshapedRequest
        ensures ready { has_random_reshaped result }
    {
        ReshapedRequest {
            request: Request {
                job: Job::Rewrite,
                random: Vec::new(alloc),
                is_dry: false,
            },
            shape: Shape {
                entries,
                first_usable,
                last_usable,
            },
            may_lose: false,
        }
    }

    #[test]
    fn a_table_gets_another_shape(rt: HostRuntime) -> std::result::Result<(), Fail> {
        let mut disk = new_disk(rt.alloc())?;
        for (entries, first, last, wanted) in [
            (56, 16, 84, "512 1/99/2 16..84 align 2048"),
            (160, 50, 58, "512 1/99/2 50..58 align 2048"),
            (128, 34, 66, "512 1/99/2 34..66 align 2048"),
            (128, 34, 60, "512 1/99/2 34..60 align 2048"),
        ] {
            let reshaped = rewriting(rt.alloc(), entries, first, last);
            let outcome = change_reshaped(rt.alloc(), &mut disk, Some(512), &reshaped)?;
            assert!(rt; word_of(outcome) == "changed");
            assert!(rt; shown(rt.alloc(), &mut disk)?.as_str() == wanted);
            assert!(rt; count_entries(rt.alloc(), &mut disk)? == entries);
        }
        Ok(())
    }

    #[test]
    fn other_shapes_are_refused(rt: HostRuntime) -> std::result::Result<(), Fail> {
        let mut disk = new_disk(rt.alloc())?;
        for (entries, first, last, is_too_many) in [
            (300, 77, 22, true),
            (0, 2, 97, true),
            (56, 15, 84, false),
            (56, 16, 85, false),
            (56, 50, 48, false),
        ] {
            let reshaped = rewriting(rt.alloc(), entries, first, last);
            match change_reshaped(rt.alloc(), &mut disk, Some(512), &reshaped)? {
                Outcome::Refused {
                    refusal: Refusal::TooSmallFor(count),
                    ..
                } => assert!(rt; is_too_many && count == entries),
                Outcome::Refused {
                    refusal: Refusal::OutOfBounds(usable),
                    ..
                } => assert!(rt; !is_too_many && usable.first == 16 && usable.last == 84),
                _ => assert!(rt; false),
            }
        }
        Ok(())
    }

    #[test]
    fn what_is_not_stated_is_kept(rt: HostRuntime) -> std::result::Result<(), Fail> {
        let mut disk = new_disk(rt.alloc())?;
        let mut table = tables::read(rt.alloc(), &mut disk, 512)?;
        for (first, last, entries, wanted) in [
            (34, 66, 56, (16, 84)),
            (34, 66, 160, (42, 58)),
            (40, 60, 56, (40, 60)),
            (40, 60, 160, (42, 58)),
            (40, 60, 127, (40, 60)),
        ] {
            table.header.first_usable_lba = first;
            table.header.last_usable_lba = last;
            let stated = StatedShape {
                entries: Some(entries),
                first_usable: None,
                last_usable: None,
            };
            let shape = stated.complete(&table);
            assert!(rt; shape.entries == entries);
            assert!(rt; (shape.first_usable, shape.last_usable) == wanted);
        }
        Ok(())
    }

    #[test]
    fn shapes_of_a_table(rt: HostRuntime) -> std::result::Result<(), Fail> {
        let mut disk = new_disk(rt.alloc())?;
        let mut table = tables::read(rt.alloc(), &mut disk, 512)?;
        assert!(rt; table.sector_size == 512 && table.is_coherent());
        let own = own_shape(&table);
        assert!(rt; (own.entries, own.first_usable, own.last_usable) == (128, 34, 66));
        let bounds = with_bounds(&table, 40, 60);
        assert!(rt; (bounds.entries, bounds.first_usable, bounds.last_usable) == (128, 40, 60));
        let less = with_count(&table, 56);
        assert!(rt; (less.entries, less.first_usable, less.last_usable) == (56, 16, 84));
        for (first, last, wanted) in [(34, 66, (66, 34)), (2048, 20, (2048, 20))] {
            table.header.first_usable_lba = first;
            table.header.last_usable_lba = last;
            assert!(rt; table.sector_size == 512);
            assert!(rt; table.header.number_of_partition_entries == 128);
            let more = double(&table);
            assert!(rt; (more.first_usable, more.last_usable) == wanted);
        }
        Ok(())
    }
}
