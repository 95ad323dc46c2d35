//! Changes of one entry: its fields and its number.

ghost use Rattle.std.specs.Prelude.{◌≡◌, ◌<◌, ℕ, [], ◌∷◌, IfErr, IfOk, None};
ghost use Rattle.std.specs.Int.{bit_at};
ghost use Rattle.gptman.specs.Fault.{fault_of, out_of_memory};
ghost use Rattle.gptedit_core.specs.Applying.{IsStopOf};
ghost use Rattle.gptedit_core.specs.Setting.{bit_after_any, guid_after, number_after};
ghost use Rattle.gptedit_core.specs.Setting.{IsSetTo, IsSettingOf, RefusesSetting, SettingsChangeOne};
ghost use Rattle.gptedit_core.specs.declared.amount.Amount.TheVariants.{Sectors};
ghost use Rattle.gptedit_core.specs.declared.asked.Mode.TheVariants.{Add, Change};

use crate::amount::Amount;
use crate::asked::{Asked, Mode, RequestedLayout};
use crate::attributes::AttributeChange;
use crate::dump::ask_for;
use crate::refusal::{Refusal, Stop};
use gptman::{GPT, GPTPartitionEntry, PartitionName, Result};
use std::alloc::Global;

/// A new GUID.
#[derive(Clone, Copy, PartialEq, Eq, Debug)]
pub enum NewGuid {
    /// This one.
    Given([u8; 16]),
    /// A random one.
    Random,
}

/// A change of a used entry. A field that is `None` is unchanged.
#[derive(Drop, Debug)]
pub struct Setting {
    /// The type.
    pub type_guid: Option<[u8; 16]>,
    /// The GUID.
    pub guid: Option<NewGuid>,
    /// The change of the attributes.
    pub attributes: Option<AttributeChange>,
    /// The name.
    pub name: Option<PartitionName>,
    /// The number, which must be that of an unused entry, or its own.
    pub number: Option<u32>,
}

/// Returns the layout that changes the entry of this number as the setting says. `random` is the GUID for
/// `NewGuid::Random`.
///
/// Refuses `NoEntry` if there is no entry of this number, and `IsUnused` if it is unused. The layout itself is refused
/// if the entry of the new number is used, or if there is none.
pub fn setting_layout(
    alloc: Global,
    table: &GPT,
    number: u32,
    setting: &Setting,
    random: [u8; 16],
) -> std::result::Result<RequestedLayout, Stop>
    ensures laid { IfOk result (IsSettingOf table.now number setting.now random) }
    ensures refused { IfErr result (IsStopOf (RefusesSetting table.now number)) }
{
    let Some(entry) = table.get(number) else {
        return Err(Stop::Refused(Refusal::NoEntry(number)));
    };
    if entry.is_unused() {
        return Err(Stop::Refused(Refusal::IsUnused(number)));
    }
    let entry = change_entry(entry, setting, random)?;
    let to = setting.number.unwrap_or(number);
    let asked = ask_for(to, &entry)?;
    if to == number {
        Ok(change_of(alloc, asked)?)
    } else {
        Ok(move_of(alloc, number, asked)?)
    }
}

// Returns the entry with the fields of the setting.
fn change_entry(
    entry: &GPTPartitionEntry,
    setting: &Setting,
    random: [u8; 16],
) -> Result<GPTPartitionEntry>
    ensures set { IfOk result (IsSetTo setting.now random entry.now) }
    ensures refused { IfErr result (λ e. fault_of e ≡ out_of_memory) }
{
    let mut changed = entry.clone()?;
    if let Some(name) = &setting.name {
        changed.partition_name = name.clone()?;
    }
    changed.partition_type_guid = setting.type_guid.unwrap_or(changed.partition_type_guid);
    changed.unique_partition_guid = find_guid(setting.guid, random, changed.unique_partition_guid);
    changed.attribute_bits = change_bits(setting.attributes, changed.attribute_bits);
    Ok(changed)
}

// Returns the GUID of an entry that had the GUID `old`.
fn find_guid(guid: Option<NewGuid>, random: [u8; 16], old: [u8; 16]) -> [u8; 16]
    ensures { result ≡ guid_after guid random old }
{
    match guid {
        None => old,
        Some(NewGuid::Given(guid)) => guid,
        Some(NewGuid::Random) => random,
    }
}

fn change_bits(change: Option<AttributeChange>, bits: u64) -> u64
    ensures { (k : ℕ) → k < 64 → bit_at result k ≡ bit_after_any change k (bit_at bits k) }
{
    match change {
        None => bits,
        Some(change) => change.apply(bits),
    }
}

// Returns the layout that changes an entry at its number and its place.
fn change_of(alloc: Global, asked: Asked) -> Result<RequestedLayout>
    ensures mode { IfOk result (λ layout. layout.mode ≡ Change) }
    ensures disk_guid { IfOk result (λ layout. layout.disk_guid ≡ None) }
    ensures align { IfOk result (λ layout. layout.align ≡ Sectors 1) }
    ensures removed { IfOk result (λ layout. layout.removed.items ≡ []) }
    ensures asked { IfOk result (λ layout. layout.asked.items ≡ record asked { start = None; size = None } ∷ []) }
    ensures refused { IfErr result (λ e. fault_of e ≡ out_of_memory) }
{
    let asked = Asked {
        start: None,
        size: None,
        ..asked
    };
    Ok(RequestedLayout {
        mode: Mode::Change,
        disk_guid: None,
        align: Amount::Sectors(1),
        removed: Vec::new(alloc),
        asked: vec![in alloc; asked]?,
    })
}

// Returns the layout that removes an entry and adds one.
fn move_of(alloc: Global, number: u32, asked: Asked) -> Result<RequestedLayout>
    ensures mode { IfOk result (λ layout. layout.mode ≡ Add) }
    ensures disk_guid { IfOk result (λ layout. layout.disk_guid ≡ None) }
    ensures align { IfOk result (λ layout. layout.align ≡ Sectors 1) }
    ensures removed { IfOk result (λ layout. layout.removed.items ≡ number ∷ []) }
    ensures asked { IfOk result (λ layout. layout.asked.items ≡ asked ∷ []) }
    ensures refused { IfErr result (λ e. fault_of e ≡ out_of_memory) }
{
    Ok(RequestedLayout {
        mode: Mode::Add,
        disk_guid: None,
        align: Amount::Sectors(1),
        removed: vec![in alloc; number]?,
        asked: vec![in alloc; asked]?,
    })
}

/// The layout of a setting changes exactly one entry: it has the fields of the setting afterwards and keeps all others,
/// also its place, under its new number if it gets one. Its old number is unused then, and all else is unchanged.
pub fn settings_change_one_entry()
    ensures { SettingsChangeOne }
{}
