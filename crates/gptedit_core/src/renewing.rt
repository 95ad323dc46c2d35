//! The layout that gives a disk and its partitions new GUIDs.

ghost use Rattle.std.specs.Prelude.{◌≡◌, ◌≤◌, ◌++◌, [], length, IfErr, IfOk};
ghost use Rattle.std.specs.List.{enumerate_from};
ghost use Rattle.std.specs.Option.{option_to_list};
ghost use Rattle.gptman.specs.Table.{entries_in};
ghost use Rattle.gptedit_core.specs.Renewing.{align_anew, all_anew, asked_anew, guids_in, size_anew, unmet, IsRenewal, Renews};
ghost use Rattle.gptedit_core.specs.Selecting.{RefusesOne};

use crate::amount::{Amount, DEFAULT_ALIGN};
use crate::asked::{Asked, Mode, RequestedLayout, Size};
use crate::selecting::{NoLayout, number_of};
use crate::target::Target;
use gptman::GPT;
use std::alloc::{AllocError, Global};

/// Returns the number of GUIDs of a table: one for the disk, and one for each used entry.
pub fn count_guids(table: &GPT) -> usize
    ensures { result ≡ guids_in table.now }
{
    let mut count = 1;
    for (_, entry) in table.iter() {
        if entry.is_used() {
            count += 1;
        }
    }
    count
}

/// Returns the layout that gives the disk and each used entry a new GUID: the disk the first of `guids`, and the entries
/// the next ones, in their order. It also extends the selected entry, if any, over all that is free after it.
///
/// Fails with `NotFound` if the target selects no entry or several, and with `OutOfMemory`. The layout itself is refused
/// if the selected entry is unused, or if there is none.
pub fn renewal<'a>(
    alloc: Global,
    table: &GPT,
    extended: Option<Target<'a>>,
    guids: &[[u8; 16]],
) -> Result<RequestedLayout, NoLayout<'a>>
    requires { guids_in table.now ≤ length guids.now }
    ensures found { IfOk result (Renews table.now extended.entry guids.now) }
    ensures refused { IfErr result (RefusesOne table.now (option_to_list extended.entry)) }
{
    match extended {
        None => Ok(renew(alloc, table, None, guids)?),
        Some(target) => {
            let number = number_of(table, target)?;
            Ok(renew(alloc, table, Some(number), guids)?)
        }
    }
}

// Returns the layout that also extends the entry of this number.
fn renew(
    alloc: Global,
    table: &GPT,
    extended: Option<u32>,
    guids: &[[u8; 16]],
) -> Result<RequestedLayout, AllocError>
    requires { guids_in table.now ≤ length guids.now }
    ensures { IfOk result (IsRenewal table.now extended guids.now) }
{
    let mut asked = ask_all(alloc, table, extended, guids)?;
    if let Some(unmet) = find_unmet(table, extended) {
        asked.push(unmet)?;
    }
    Ok(RequestedLayout {
        mode: Mode::Change,
        disk_guid: Some(guids[0]),
        align: find_align(extended),
        removed: Vec::new(alloc),
        asked,
    })
}

// Returns the requests for the used entries.
fn ask_all(
    alloc: Global,
    table: &GPT,
    extended: Option<u32>,
    guids: &[[u8; 16]],
) -> Result<Vec<Asked>, AllocError>
    requires { guids_in table.now ≤ length guids.now }
    ensures { IfOk result (λ asked. asked.items
        ≡ all_anew extended guids.now 1 (enumerate_from 1 (entries_in table.now))) }
{
    let mut asked = Vec::new(alloc);
    for (number, entry) in table.iter() {
        if entry.is_used() {
            asked.push(ask(extended, number, guids[asked.len() + 1]))?;
        }
    }
    Ok(asked)
}

// Returns the request for a used entry.
fn ask(extended: Option<u32>, number: u32, guid: [u8; 16]) -> Asked
    ensures { result ≡ asked_anew extended number guid }
{
    Asked {
        unique_guid: Some(guid),
        size: find_size(extended, number),
        ..Asked::nothing(Some(number))
    }
}

fn find_size(extended: Option<u32>, number: u32) -> Option<Size>
    ensures { result ≡ size_anew extended number }
{
    match extended {
        Some(extended) if extended == number => Some(Size::Rest),
        _ => None,
    }
}

// Returns the request for an extended entry that is not used.
fn find_unmet(table: &GPT, extended: Option<u32>) -> Option<Asked>
    ensures { option_to_list result ≡ unmet table.now extended }
{
    let number = extended?;
    match table.get(number) {
        Some(entry) if entry.is_used() => None,
        _ => Some(Asked {
            size: Some(Size::Rest),
            ..Asked::nothing(extended)
        }),
    }
}

fn find_align(extended: Option<u32>) -> Amount
    ensures { result ≡ align_anew extended }
{
    match extended {
        Some(_) => DEFAULT_ALIGN,
        None => Amount::Sectors(1),
    }
}
