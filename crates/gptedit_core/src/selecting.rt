//! Layouts for the entries that targets select.

ghost use Rattle.std.specs.Prelude.{◌≡◌, ◌∷◌, [], IfErr, IfOk};
ghost use Rattle.gptedit_core.specs.Selecting.{Alters, AreOnly, Changes, Extends, Removes, RefusesOne};
ghost use Rattle.gptedit_core.specs.Targets.{IsOnly};
ghost use Rattle.gptedit_core.specs.declared.selecting.NoLayout.TheVariants.{OutOfMemory};

use crate::amount::{Amount, DEFAULT_ALIGN};
use crate::asked::{Asked, Mode, RequestedLayout, Size};
use crate::target::{NotFound, Target, find_target};
use gptman::GPT;
use std::alloc::{AllocError, AllocFailed, Global};

/// Why there is no layout.
#[derive(Clone, Copy, PartialEq, Eq, Debug)]
pub enum NoLayout<'a> {
    /// This target selects no entry, for this reason.
    NotFound(Target<'a>, NotFound),
    /// An allocation failed.
    OutOfMemory,
}

impl From<AllocError> for NoLayout<'_> {
    ghost from_gives = { λ _ error. error ≡ OutOfMemory };

    fn from(_e: AllocError) -> Self {
        NoLayout::OutOfMemory
    }
}

impl<T: Drop> From<AllocFailed<T>> for NoLayout<'_> {
    ghost from_gives = { λ _ error. error ≡ OutOfMemory };

    fn from(_e: AllocFailed<T>) -> Self {
        NoLayout::OutOfMemory
    }
}

/// Returns the layout that removes the entries that the targets select.
///
/// Fails with `NotFound` for a target that selects no entry or several, and with `OutOfMemory`.
pub fn removal<'a>(
    alloc: Global,
    table: &GPT,
    targets: &[Target<'a>],
) -> Result<RequestedLayout, NoLayout<'a>>
    ensures found { IfOk result (Removes table.now targets.now) }
    ensures refused { IfErr result (RefusesOne table.now targets.now) }
{
    Ok(RequestedLayout {
        removed: numbers_of(alloc, table, targets)?,
        ..changing(alloc, Amount::Sectors(1))
    })
}

/// Returns the layout that changes the entry that the target selects: the request, which gets the number of the entry,
/// with this alignment.
///
/// Fails with `NotFound` if the target selects no entry or several, and with `OutOfMemory`.
pub fn alteration<'a>(
    alloc: Global,
    table: &GPT,
    target: Target<'a>,
    align: Amount,
    asked: Asked,
) -> Result<RequestedLayout, NoLayout<'a>>
    ensures found { IfOk result (Alters table.now target.entry align asked) }
    ensures refused { IfErr result (RefusesOne table.now (target.entry ∷ [])) }
{
    let number = number_of(table, target)?;
    let asked = Asked {
        number: Some(number),
        ..asked
    };
    Ok(RequestedLayout {
        asked: vec![in alloc; asked]?,
        ..changing(alloc, align)
    })
}

/// Returns the layout that extends the entry that the target selects over all that is free after it.
///
/// Fails with `NotFound` if the target selects no entry or several, and with `OutOfMemory`.
pub fn extension<'a>(
    alloc: Global,
    table: &GPT,
    target: Target<'a>,
) -> Result<RequestedLayout, NoLayout<'a>>
    ensures found { IfOk result (Extends table.now target.entry) }
    ensures refused { IfErr result (RefusesOne table.now (target.entry ∷ [])) }
{
    let asked = Asked {
        size: Some(Size::Rest),
        ..Asked::nothing(None)
    };
    alteration(alloc, table, target, DEFAULT_ALIGN, asked)
}

// Returns the numbers of the entries that the targets select, in their order.
fn numbers_of<'a>(
    alloc: Global,
    table: &GPT,
    targets: &[Target<'a>],
) -> Result<Vec<u32>, NoLayout<'a>>
    ensures found { IfOk result (λ numbers. AreOnly table.now targets.now numbers.items) }
    ensures refused { IfErr result (RefusesOne table.now targets.now) }
{
    let mut numbers = Vec::new(alloc);
    for target in targets {
        numbers.push(number_of(table, *target)?)?;
    }
    Ok(numbers)
}

pub(crate) fn number_of<'a>(table: &GPT, target: Target<'a>) -> Result<u32, NoLayout<'a>>
    ensures found { IfOk result (IsOnly table.now target.entry) }
    ensures refused { IfErr result (RefusesOne table.now (target.entry ∷ [])) }
{
    match find_target(table, &target) {
        Ok(number) => Ok(number),
        Err(not_found) => Err(NoLayout::NotFound(target, not_found)),
    }
}

// Returns the layout that changes nothing.
fn changing(alloc: Global, align: Amount) -> RequestedLayout
    ensures changing { Changes align result }
    ensures removed { result.removed.items ≡ [] }
    ensures asked { result.asked.items ≡ [] }
{
    RequestedLayout {
        mode: Mode::Change,
        disk_guid: None,
        align,
        removed: Vec::new(alloc),
        asked: Vec::new(alloc),
    }
}
