//! Applies a layout to a table in memory.

ghost use Rattle.std.specs.Prelude.{◌≡◌, ◌<◌, ◌≤◌, Ok, Err, IfErr, IfOk, OnOk, length};
ghost use Rattle.gptedit_core.specs.Applying.{align_asked, cleared, is_blank, lowest_used, others_fault};
ghost use Rattle.gptedit_core.specs.Applying.{removed_all, removed_one};
ghost use Rattle.gptedit_core.specs.Applying.{asks_rest, rest_numbers, AreExtended, ArePut, IsApplied, IsExtended, IsPut, IsStopOf, RefusesApplying, RefusesPut};
ghost use Rattle.gptedit_core.specs.Applying.{RefusesPutting};
ghost use Rattle.gptedit_core.specs.Resolving.{refusal_in, resolved_all, IsStopFor};
ghost use Rattle.gptedit_core.specs.Slots.{AreKept};

use crate::amount::Amount;
use crate::asked::{Asked, Mode, RequestedLayout, Size};
use crate::place::find_end;
use crate::refusal::{Refusal, Stop};
use crate::resolve::{ResolvedPartition, resolve};
use crate::slots::Slots;
use gptman::{GPT, GPTPartitionEntry};
use std::alloc::Global;

/// Applies the layout to the table. A named entry that was unused and has no GUID in the layout gets the random GUID
/// at its index in the list of requests.
pub fn apply_layout(
    alloc: Global,
    table: &mut GPT,
    layout: &RequestedLayout,
    random: &[[u8; 16]],
) -> Result<(), Stop>
    requires sector { 0 < table.old.sector_size }
    requires random { length layout.now.asked.items ≤ length random.now }
    ensures planned { OnOk result (IsApplied layout.now random.now table.old table.new) }
    ensures refused { IfErr result (RefusesApplying layout.now random.now table.old) }
{
    let partitions = resolve_all(alloc, table, layout.mode, &layout.asked, random)?;
    let align = table.align;
    table.align = find_align(layout.align, table.sector_size)?;
    remove_all(alloc, table, &layout.removed)?;
    clear(alloc, table, &partitions)?;
    check_others(table, layout.mode)?;
    put_all(table, &partitions)?;
    lengthen_all(table, &layout.asked, &partitions);
    table.align = align;
    table.header.disk_guid = layout.disk_guid.unwrap_or(table.header.disk_guid);
    Ok(())
}

fn resolve_all(
    alloc: Global,
    table: &GPT,
    mode: Mode,
    asked: &[Asked],
    random: &[[u8; 16]],
) -> Result<Vec<ResolvedPartition>, Stop>
    requires sector { 0 < table.now.sector_size }
    requires random { length asked.now ≤ length random.now }
    ensures ok { IfOk result (λ ps. resolved_all table.now mode asked.now random.now ≡ Ok ps.items) }
    ensures long { IfOk result (λ ps. length ps.items ≡ length asked.now) }
    ensures refused { IfErr result (IsStopFor (resolved_all table.now mode asked.now random.now)) }
{
    let mut partitions = Vec::new(alloc);
    for i in 0..asked.len() {
        let partition = resolve(alloc, table, mode, &asked[i], random[i])?;
        partitions.push(partition)?;
    }
    Ok(partitions)
}

// Returns the alignment in sectors.
fn find_align(align: Amount, sector_size: u64) -> Result<u64, Refusal>
    requires { 0 < sector_size }
    ensures { result ≡ align_asked align sector_size }
{
    match align.sectors(sector_size) {
        Some(0) => Err(Refusal::NoAlignment),
        Some(sectors) => Ok(sectors),
        None => Err(Refusal::NotWhole(align)),
    }
}

fn remove_all(alloc: Global, table: &mut GPT, numbers: &[u32]) -> Result<(), Refusal>
    ensures ok { OnOk result (removed_all numbers.now table.old ≡ Ok table.new) }
    ensures refused { IfErr result (λ r. removed_all numbers.now table.old ≡ Err r) }
    ensures align { table.new.align ≡ table.old.align }
{
    for number in numbers {
        remove(alloc, table, *number)?;
    }
    Ok(())
}

// Removes an entry. An unused entry is removed too, unless all its bytes are zero.
fn remove(alloc: Global, table: &mut GPT, number: u32) -> Result<(), Refusal>
    ensures ok { OnOk result (removed_one number table.old ≡ Ok table.new) }
    ensures refused { IfErr result (λ r. removed_one number table.old ≡ Err r) }
    ensures align { table.new.align ≡ table.old.align }
{
    let Some(entry) = table.get(number) else {
        return Err(Refusal::NoEntry(number));
    };
    if is_blank(entry) {
        return Err(Refusal::IsUnused(number));
    }
    table[number] = GPTPartitionEntry::empty(alloc);
    Ok(())
}

// Reports whether all bytes of the entry are zero.
fn is_blank(entry: &GPTPartitionEntry) -> bool
    ensures { result ≡ is_blank entry.now }
{
    entry.encode().iter().all(|byte| *byte == 0)
}

// Makes the entries of these partitions unused, so that their own sectors are free.
fn clear(alloc: Global, table: &mut GPT, partitions: &[ResolvedPartition]) -> Result<(), Refusal>
    ensures ok { OnOk result (cleared partitions.now table.old ≡ Ok table.new) }
    ensures refused { IfErr result (λ r. cleared partitions.now table.old ≡ Err r) }
    ensures align { table.new.align ≡ table.old.align }
{
    for partition in partitions {
        if table.get(partition.number).is_none() {
            return Err(Refusal::NoEntry(partition.number));
        }
        table[partition.number] = GPTPartitionEntry::empty(alloc);
    }
    Ok(())
}

// Refuses a table that is to become the layout and still has used entries that the layout does not name.
fn check_others(table: &GPT, mode: Mode) -> Result<(), Refusal>
    ensures { refusal_in result ≡ others_fault mode table.now }
{
    match mode {
        Mode::Add => Ok(()),
        Mode::Change => Ok(()),
        Mode::Become { replace: true } => Ok(()),
        Mode::Become { replace: false } => match find_used(table) {
            Some(number) => Err(Refusal::NotAsked(number)),
            None => Ok(()),
        },
    }
}

// Returns the lowest number of a used entry.
fn find_used(table: &GPT) -> Option<u32>
    ensures { result ≡ lowest_used table.now }
{
    for (number, entry) in table.iter() {
        if entry.is_used() {
            return Some(number);
        }
    }
    None
}

fn put_all(table: &mut GPT, partitions: &[ResolvedPartition]) -> Result<(), Stop>
    requires { 0 < table.old.align }
    ensures put { OnOk result (ArePut partitions.now table.old table.new) }
    ensures refused { IfErr result (IsStopOf (RefusesPutting partitions.now table.old)) }
    ensures align { OnOk result (table.new.align ≡ table.old.align) }
{
    let mut slots = Slots::unknown();
    for partition in partitions {
        put(table, &mut slots, partition)?;
    }
    Ok(())
}

// Puts the partition into an unused entry.
fn put(table: &mut GPT, slots: &mut Slots, partition: &ResolvedPartition) -> Result<(), Stop>
    requires aligned { 0 < table.old.align }
    requires kept { AreKept slots.old table.old }
    ensures put { OnOk result (IsPut partition.now table.old table.new) }
    ensures refused { IfErr result (IsStopOf (RefusesPut partition.now table.old)) }
    ensures align { OnOk result (table.new.align ≡ table.old.align) }
    ensures kept { OnOk result (AreKept slots.new table.new) }
{
    let number = partition.number;
    let Some(there) = table.get(number) else {
        return Err(Stop::Refused(Refusal::NoEntry(number)));
    };
    if there.is_used() {
        return Err(Stop::Refused(Refusal::Twice(number)));
    }
    let Some(range) = slots.find(table, partition.place)? else {
        return Err(Stop::Refused(Refusal::NoRoom(number)));
    };
    let entry = GPTPartitionEntry {
        starting_lba: range.first,
        ending_lba: range.last,
        ..partition.entry.clone()?
    };
    slots.leave_out(table, number, &entry)?;
    table[number] = entry;
    Ok(())
}

// Lengthens the partitions of size `Rest`, one after another.
fn lengthen_all(table: &mut GPT, asked: &[Asked], partitions: &[ResolvedPartition])
    requires aligned { 0 < table.old.align }
    requires long { length asked.now ≤ length partitions.now }
    ensures { AreExtended (rest_numbers asked.now partitions.now) table.old table.new }
{
    for i in 0..asked.len() {
        if asks_rest(asked[i].size) {
            lengthen(table, partitions[i].number);
        }
    }
}

fn asks_rest(size: Option<Size>) -> bool
    ensures { result ≡ asks_rest size }
{
    match size {
        Some(Size::Rest) => true,
        Some(Size::Exactly(_)) => false,
        None => false,
    }
}

// Lengthens the entry, if it exists, over the free sectors after it.
fn lengthen(table: &mut GPT, number: u32)
    requires { 0 < table.old.align }
    ensures lengthened { IsExtended number table.old table.new }
    ensures align { table.new.align ≡ table.old.align }
{
    let Some(entry) = table.get(number) else {
        return
    };
    let end = find_end(table, entry.starting_lba, entry.ending_lba);
    table[number].ending_lba = end;
}
