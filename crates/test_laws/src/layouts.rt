//! Applies layouts to a table in memory. After an error the table is unspecified.

ghost use Rattle.std.specs.Prelude.{◌≡◌, ◌<◌, ℕ, vec_len, IfErr, IfNone, IfOk, IfSome, OnOk, OnSome};
ghost use Rattle.gptman.specs.Coding.{empty_entry};
ghost use Rattle.gptman.specs.Copy.{IsCoherent};
ghost use Rattle.gptman.specs.Fault.{fault_of, out_of_memory};
ghost use Rattle.gptman.specs.Layout.{HasLayout};
ghost use Rattle.gptman.specs.Number.{entry_at, with_entry};
ghost use Rattle.gptman.specs.Place.{IsFreeIn};
ghost use Rattle.gptman.specs.Table.{entries_in, table_in};
ghost use Rattle.gptman.specs.Valid.{IsValid};
ghost use Rattle.gptedit_core.specs.Named.{IsLengthened};
ghost use Rattle.gptedit_core.specs.Planning.{has_random, IsLeft, IsPlanned};
ghost use Rattle.gptedit_core.specs.Setting.{IsSetIn};
ghost use Rattle.gptedit_core.specs.declared.plan.Outcome.{Outcome};
ghost use Rattle.gptedit_core.specs.declared.plan.Outcome.TheVariants.{Unchanged};
ghost use Rattle.test_laws.specs.Changed.{with_name, AsksAgain, IsChangeOf, IsForMemory, OthersStay};

use gptedit_core::applying::apply_layout;
use gptedit_core::laws::{
    layouts_again_are_taken, layouts_again_change_nothing, layouts_change_what_they_name,
    layouts_of_tables_are_taken, layouts_of_tables_give_them, layouts_only_lengthen,
};
use gptedit_core::setting::settings_change_one_entry;
use gptedit_core::{
    Amount, Asked, Mode, Outcome, Request, RequestedLayout, Setting, Size, Stop, layout_of,
    setting_layout,
};
use gptman::{Disk, GPT, PartitionName, Result};
use gptman_change::{Plan, Planned};
use std::alloc::Global;

/// Renames the partition of this number. Its other fields and all other entries are unchanged.
///
/// The errors are those of `apply_layout`.
pub fn rename(
    alloc: Global,
    table: &mut GPT,
    number: u32,
    name: PartitionName,
) -> std::result::Result<(), Stop>
    requires { 0 < table.old.sector_size }
    ensures renamed { OnOk result
        (entry_at table.new number ≡ with_name name (entry_at table.old number)) }
    ensures others { OnOk result (OthersStay number table.old table.new) }
{
    layouts_change_what_they_name();
    let asked = Asked {
        name: Some(name),
        ..Asked::nothing(Some(number))
    };
    let layout = change_of(alloc, 1, asked)?;
    apply_layout(alloc, table, &layout, &[[0; 16]])
}

/// Extends the partition of this number over the free sectors after it, up to the last multiple of `align` sectors. All
/// other entries are unchanged.
///
/// The errors are those of `apply_layout`.
pub fn lengthen(
    alloc: Global,
    table: &mut GPT,
    number: u32,
    align: u64,
) -> std::result::Result<(), Stop>
    requires { 0 < table.old.sector_size }

    // Its start is unchanged, its end is not earlier, and it gets only free sectors, as many as possible.
    ensures lengthened { OnOk result (IsLengthened align
        (entry_at table.old number) (entry_at table.new number)
        (IsFreeIn table.old) (IsFreeIn (with_entry table.new number empty_entry))) }
    ensures others { OnOk result (OthersStay number table.old table.new) }
{
    layouts_change_what_they_name();
    layouts_only_lengthen();
    let asked = Asked {
        size: Some(Size::Rest),
        ..Asked::nothing(Some(number))
    };
    let layout = change_of(alloc, align, asked)?;
    apply_layout(alloc, table, &layout, &[[0; 16]])
}

// Returns the layout that changes one used entry, with places at multiples of `align` sectors.
fn change_of(alloc: Global, align: u64, asked: Asked) -> Result<RequestedLayout>
    ensures { IfOk result (IsChangeOf asked align) }
{
    Ok(RequestedLayout {
        mode: Mode::Change,
        disk_guid: None,
        align: Amount::Sectors(align),
        removed: Vec::new(alloc),
        asked: vec![in alloc; asked]?,
    })
}

/// Changes the partition of this number as the setting says. All other entries are unchanged. `random` is the GUID for
/// `NewGuid::Random`.
///
/// The errors are those of `setting_layout` and `apply_layout`.
pub fn set(
    alloc: Global,
    table: &mut GPT,
    number: u32,
    setting: &Setting,
    random: [u8; 16],
) -> std::result::Result<(), Stop>
    requires { 0 < table.old.sector_size }
    ensures set { OnOk result (IsSetIn table.old number setting.now random table.new) }
{
    settings_change_one_entry();
    let layout = setting_layout(alloc, table, number, setting, random)?;
    apply_layout(alloc, table, &layout, &[random])
}

/// Applies a table's own layout to it, as when a dump is restored. The table is the same afterwards.
///
/// The errors are those of `apply_layout`.
pub fn put_back(alloc: Global, table: &mut GPT) -> std::result::Result<(), Stop>
    requires { 0 < table.old.sector_size }
    ensures same { OnOk result (table_in table.new ≡ table_in table.old) }

    // If the table may be written, only memory can run out.
    ensures taken { (len : ℕ) → 0 < table.old.align → HasLayout table.old len
        → IsValid table.old.header (entries_in table.old) → IfErr result IsForMemory }
{
    layouts_of_tables_give_them();
    layouts_of_tables_are_taken();
    let layout = layout_of(alloc, table)?;
    let random = zeros(alloc, layout.asked.len())?;
    apply_layout(alloc, table, &layout, &random)
}

// Returns `count` zero GUIDs in the place of random ones, which are not used.
fn zeros(alloc: Global, count: usize) -> Result<Vec<[u8; 16]>>
    ensures count { IfOk result (λ guids. vec_len guids ≡ count) }
    ensures refused { IfErr result (λ e. fault_of e ≡ out_of_memory) }
{
    Ok(vec![in alloc; [0; 16]; count]?)
}

/// Changes the table by the first request, and applies the second to a clone of it. Returns the outcome for the clone,
/// or `None` if the first request did not change the table.
///
/// The errors are those of the two requests, and `OutOfMemory`.
pub fn ask_twice<D: Disk>(
    alloc: Global,
    disk: &mut D,
    table: &mut GPT,
    first: &Request,
    again: &Request,
) -> Result<Option<Outcome>>
    requires first { has_random first.now }
    requires again { has_random again.now }
    requires sector { 0 < table.old.sector_size }
    requires coherent { IsCoherent table.old.header (entries_in table.old) }
    requires aligned { 0 < table.old.align }

    // The table is the result of the first request. If the second asks for the same, there is nothing to change.
    ensures once { IfOk result (λ told.
        OnSome told (IsPlanned first.now (D.state disk.old).size table.old table.new)) }
    ensures again { AsksAgain first.now again.now table.old → IfOk result (λ told.
        IfSome told (λ outcome. outcome ≡ Unchanged table.new)) }

    // If the first request changed nothing, it was refused, was a dry run, or asks for the present state.
    ensures left { IfOk result (λ told. IfNone told ((outcome : Outcome)
        × IsLeft first.now (D.state disk.old).size table.old outcome)) }
{
    layouts_again_change_nothing();
    layouts_again_are_taken();
    match first.change(alloc, disk, table)? {
        Planned::Write(_) => {}
        Planned::Leave(_) => return Ok(None),
    }
    let mut clone = table.clone()?;
    match again.change(alloc, disk, &mut clone)? {
        Planned::Write(told) => Ok(Some(told)),
        Planned::Leave(told) => Ok(Some(told)),
    }
}

#[cfg(test)]
mod tests {
    use super::*;
    use gptedit_core::Job;
    use std::process::Abort;
    use std::test::Fail;
    use test_fixtures::{samples, texts};

    // Asserts that the table has these used entries.
    fn assert_used<R: Abort + AllocGlobal>(
        rt: &R,
        table: &GPT,
        said: &str,
    ) -> std::result::Result<(), Fail> {
        assert!(rt; texts::used(rt.alloc(), table)?.as_str() == said);
        Ok(())
    }

    #[test]
    fn an_entry_is_changed(rt: HostRuntime) -> std::result::Result<(), Fail> {
        let mut table = samples::disk_1(rt.alloc())?;
        let name = PartitionName::new(rt.alloc(), "Baz")?;
        assert!(rt; table.sector_size > 0);
        rename(rt.alloc(), &mut table, 2, name)?;
        assert!(rt; table.sector_size > 0);
        lengthen(rt.alloc(), &mut table, 2, 4)?;
        assert_used(&rt, &table, ", 1 Foo 34..43, 2 Baz 48..63")
    }

    #[test]
    fn an_entry_is_set(rt: HostRuntime) -> std::result::Result<(), Fail> {
        let mut table = samples::disk_1(rt.alloc())?;
        let setting = Setting {
            type_guid: None,
            guid: None,
            attributes: None,
            name: Some(PartitionName::new(rt.alloc(), "Baz")?),
            number: Some(5),
        };
        assert!(rt; table.sector_size > 0);
        set(rt.alloc(), &mut table, 2, &setting, [0; 16])?;
        assert_used(&rt, &table, ", 1 Foo 34..43, 5 Baz 48..52")
    }

    #[test]
    fn a_table_is_put_back(rt: HostRuntime) -> std::result::Result<(), Fail> {
        let mut table = samples::disk_1(rt.alloc())?;
        assert!(rt; table.sector_size > 0);
        put_back(rt.alloc(), &mut table)?;
        assert_used(&rt, &table, ", 1 Foo 34..43, 2 Bar 48..52")
    }

    // Returns a request for the layout of disk 1, with a GUID for each entry.
    fn request_of_disk_1(alloc: Global) -> Result<Request>
        ensures { IfOk result (λ request. has_random request) }
    {
        let layout = layout_of(alloc, &samples::disk_1(alloc)?)?;
        let random = zeros(alloc, layout.asked.len())?;
        Ok(Request {
            job: Job::Apply(layout),
            random,
            is_dry: false,
        })
    }

    #[test]
    fn a_layout_is_asked_for_twice(rt: HostRuntime) -> std::result::Result<(), Fail> {
        let mut disk = samples::disk_of(rt.alloc(), 0, 51_200)?;
        let request = request_of_disk_1(rt.alloc())?;
        let mut table = test_fixtures::tables::new_table(rt.alloc())?;
        assert!(rt; table.sector_size > 0 && table.is_coherent() && table.align > 0);
        let told = ask_twice(rt.alloc(), &mut disk, &mut table, &request, &request)?;
        assert!(rt; matches!(told, Some(Outcome::Unchanged { .. })));
        assert_used(&rt, &table, ", 1 Foo 34..43, 2 Bar 48..52")
    }
}
