//! Callers whose contracts are proved from the contracts of the library only.

ghost use Rattle.std.specs.Prelude.{◌≡◌, ◌≢◌, ◌<◌, ◌+◌, ◌⊎◌, ◌↔◌, [], ◌∷◌, Ok, count_by};
ghost use Rattle.std.specs.Prelude.{filter, length, map, All, IsTrue, IfOk, List, MatchOption};
ghost use Rattle.std.specs.Prelude.{OnOk, OnErr};
ghost use Rattle.std.specs.List.{enumerate_from};
ghost use Rattle.gptman.specs.Copy.{CopyAt, IsCoherent};
ghost use Rattle.gptman.specs.Crash.{StartsLaidOut, StartsSynced};
ghost use Rattle.gptman.specs.Disk.{IsHonest, Rose};
ghost use Rattle.gptman.specs.Entry.{is_used};
ghost use Rattle.gptman.specs.Layout.{Holds};
ghost use Rattle.gptman.specs.Number.{with_entries, IsNumber};
ghost use Rattle.gptman.specs.Order.{by_rank, rank};
ghost use Rattle.gptman.specs.Place.{HasNoPlace, IsFreeIn, IsPlace};
ghost use Rattle.gptman.specs.Reading.{primary, taken_from};
ghost use Rattle.gptman.specs.Stop.{IsStored, StopsAreReadAs};
ghost use Rattle.gptman.specs.Table.{entries_in, grow_to, table_in, IsHeaderForm};
ghost use Rattle.gptman.specs.TableReads.{AnswersReading};
ghost use Rattle.gptman.specs.Valid.{IsValid};
ghost use Rattle.gptman.specs.declared.codec.entry.GPTPartitionEntry.{GPTPartitionEntry};
ghost use Rattle.gptman.specs.declared.codec.header.GPTHeader.{GPTHeader};
ghost use Rattle.gptman_bench.specs.Cleared.{cleared};

use crate::asserts::{Host, assert_same, assert_shown, assert_used, got};
use crate::fixtures::{disk_1, holding, image_of_new, partition};
use gptman::place::laws::{maximum_is_offered, placement_keeps_valid};
use gptman::table::laws::{
    growing_is_safe, right_copies_are_accepted, what_is_held_is_read, what_is_read_is_held,
};
use gptman::{Disk, Edit, GPT, GPTHeader, GPTPartitionEntry, MemoryDisk, Result};
use std::alloc::{AllocError, Global};
use std::process::Abort;
use test_fixtures::calls::apply;

/// Reports whether two tables are equal in all fields.
fn are_equal(a: &GPT, b: &GPT) -> bool
    ensures { IsTrue result ↔ (a.now ≡ b.now) }
{
    a == b
}

/// Reports whether two entries are equal in all fields, including the text and units of the name.
fn are_equal_entries(a: &gptman::GPTPartitionEntry, b: &gptman::GPTPartitionEntry) -> bool
    ensures { IsTrue result ↔ (a.now ≡ b.now) }
{
    a == b
}

/// Sorts the entries twice. The result is that of sorting them once.
fn sort_twice(table: &mut GPT) -> Result<()>
    ensures { OnOk result (table.new ≡ with_entries table.old (by_rank rank (entries_in table.old))) }
{
    table.sort()?;
    table.sort()
}

/// Puts an entry of `size` sectors (one if `size` is 0) under the number, at the first place. Returns whether there was
/// a place. A valid table stays valid, unless a used entry has the GUID of the new one.
fn add_first(table: &mut GPT, number: u32, entry: GPTPartitionEntry, size: u64) -> Result<bool>
    requires aligned { 0 < table.old.align }
    requires number { IsNumber table.old number }
    ensures valid { IsValid table.old.header (entries_in table.old)
        → All (λ e. IsTrue (is_used e) → e.unique_partition_guid ≢ entry.unique_partition_guid)
        (entries_in table.old)
        → OnOk result (IsValid table.new.header (entries_in table.new)) }
    ensures kept { OnErr result (table.new ≡ table.old) }
{
    placement_keeps_valid();
    let size = size.max(1);
    let Some(start) = table.find_first_place(size)? else {
        return Ok(false);
    };
    table[number] = GPTPartitionEntry {
        starting_lba: start,
        ending_lba: start + (size - 1),
        ..entry
    };
    Ok(true)
}

/// Returns the first place of the largest partition whose size is a multiple of `align`, as start and size in sectors.
/// Returns `None` only if not even `align` sectors have a place.
fn greatest_place(table: &GPT) -> Result<Option<(u64, u64)>>
    requires aligned { 0 < table.now.align }
    ensures { IfOk result (λ found. MatchOption found
        (HasNoPlace (IsFreeIn table.now) table.now.align table.now.align)
        (λ p. IsPlace (IsFreeIn table.now) table.now.align p.1 p.0
        × HasNoPlace (IsFreeIn table.now) table.now.align (p.1 + table.now.align))) }
{
    maximum_is_offered();
    let size = table.get_maximum_partition_size()?;
    if size == 0 {
        return Ok(None);
    }
    let Some(start) = table.find_first_place(size)? else {
        return Ok(None);
    };
    Ok(Some((start, size)))
}

/// Clears the attributes of each entry by number. The contract determines the whole list.
fn clear_by_number(table: &mut GPT)
    requires { IsCoherent table.old.header (entries_in table.old) }
    ensures { table.new ≡ with_entries table.old (map cleared (entries_in table.old)) }
{
    let count = table.header.number_of_partition_entries;
    for k in 0..count {
        table[k + 1].attribute_bits = 0;
    }
}

/// Clears the attributes of each entry with the iterator. The contract determines all but the entries.
fn clear_by_iterator(table: &mut GPT)
    ensures rest { table.new ≡ with_entries table.old (entries_in table.new) }
    ensures len { length (entries_in table.new) ≡ length (entries_in table.old) }
{
    for (_, entry) in table.iter_mut() {
        entry.attribute_bits = 0;
    }
}

/// Returns the number of used entries, counted in a loop.
#[tactic(auto, using(gptman::proofs::Numbering::count_numbered))]
fn count_used(table: &GPT) -> u64
    ensures { result ≡ count_by is_used (entries_in table.now) }
{
    let mut count = 0;
    for (_, entry) in table.iter() {
        if entry.is_used() {
            count += 1;
        }
    }
    count
}

/// Returns the numbers of the used entries, with iterator adapters.
fn used_numbers(alloc: Global, table: &GPT) -> std::result::Result<Vec<u32>, AllocError>
    ensures { IfOk result (λ v. v.items
        ≡ map (λ p. p.0) (filter (λ p. is_used p.1) (enumerate_from 1 (entries_in table.now)))) }
{
    table
        .iter()
        .filter(|(_, entry)| entry.is_used())
        .map(|(number, _)| number)
        .collect(alloc)
}

/// Reads the table. Unless the disk failed, the place from which it was read holds the table, if it is in the form of
/// that place.
fn read_held<D: Disk>(alloc: Global, disk: &mut D, sector_size: u64) -> Result<GPT>
    requires { 0 < sector_size }
    ensures coherent { IfOk result (λ g. IsCoherent g.header (entries_in g)) }
    ensures held { let side = taken_from (D.state disk.old).view sector_size in
        IsHonest (D.state disk.old) → Rose (D.state disk.old) (D.state disk.new)
        ⊎ IfOk result (λ g. IsHeaderForm side g.header
        → Holds (D.state disk.new).view sector_size side (table_in g)) }
{
    what_is_read_is_held();
    GPT::read_from(alloc, disk, sector_size)
}

/// Reads the table. If sector 1 has a right header and right entries (`CopyAt`), these are the result.
fn read_right_copy<D: Disk>(alloc: Global, disk: &mut D, sector_size: u64) -> Result<GPT>
    requires { 0 < sector_size }
    ensures { (h : GPTHeader) → (es : List GPTPartitionEntry)
        → CopyAt (D.state disk.old).view sector_size sector_size h es
        → AnswersReading (Ok (record { header = h; entries = es })) result
        (D.state disk.old) (D.state disk.new) }
{
    right_copies_are_accepted();
    GPT::read_from(alloc, disk, sector_size)
}

/// Fits the table to the disk and writes it. If the primary place holds the table, the value is in primary form and
/// nothing is unsynced, a read after a crash at any moment returns the old or the fitted table, or a foreign copy. This
/// holds also if a call failed.
fn grow<D: Disk>(table: &mut GPT, disk: &mut D) -> Result<GPTHeader>
    requires sector { 0 < table.old.sector_size }
    requires coherent { IsCoherent table.old.header (entries_in table.old) }
    ensures stored { let new = grow_to table.old (D.state disk.old).size in
        StartsLaidOut (D.state disk.old) new
        → OnOk result (IsStored (D.state disk.new) new.sector_size (table_in new)) }
    ensures safe { let new = grow_to table.old (D.state disk.old).size in
        StartsSynced (D.state disk.old) new → IsHeaderForm primary table.old.header
        → Holds (D.state disk.old).view table.old.sector_size primary (table_in table.old)
        → StopsAreReadAs (D.state disk.old) (D.state disk.new) new.sector_size
        (table_in table.old ∷ table_in new ∷ []) }
{
    what_is_held_is_read();
    table.header.update_from(disk, table.sector_size)?;
    growing_is_safe(disk);
    table.write_into(disk)
}

// Asserts that these entries are used, and no others.
fn assert_counted(rt: &impl Host, table: &GPT, numbers: &[u32]) {
    assert!(rt; count_used(table) == numbers.len() as u64);
    assert!(rt; got(rt, used_numbers(rt.alloc(), table)).as_slice() == numbers);
}

#[test]
fn entries_are_counted_and_sorted(rt: HostRuntime) {
    let mut table = disk_1(&rt);
    assert_counted(&rt, &table, &[1, 2]);
    clear_by_iterator(&mut table);
    got(&rt, sort_twice(&mut table));
    assert_used(&rt, &table, ", 1 Foo 34..43, 2 Bar 48..52");
}

// Returns the entry "Baz" with these attributes.
fn baz(rt: &impl Host, attribute_bits: u64) -> GPTPartitionEntry {
    let mut entry = partition(rt, ("Baz", 1), (44, 47));
    entry.attribute_bits = attribute_bits;
    entry
}

// Returns disk 1 with that entry.
fn with_baz(rt: &impl Host, attribute_bits: u64) -> GPT {
    let mut table = disk_1(rt);
    got(rt, apply(&mut table, Edit::Put(3, baz(rt, attribute_bits))));
    table
}

// Asserts that clearing the attributes of the table makes it equal to the other one, which it was not before.
fn assert_cleared(rt: &impl Abort, table: &mut GPT, other: &GPT) {
    assert!(rt; !are_equal(table, other));
    assert!(rt; table.is_coherent());
    clear_by_number(table);
    assert!(rt; are_equal(table, other));
}

#[test]
fn attributes_are_cleared(rt: HostRuntime) {
    assert!(rt; !are_equal_entries(&baz(&rt, 5), &baz(&rt, 0)));
    assert_cleared(&rt, &mut with_baz(&rt, 5), &with_baz(&rt, 0));
}

// Adds "Baz" with `size` sectors. Returns whether there was a place.
fn is_added(rt: &impl Host, table: &mut GPT, size: u64) -> bool {
    assert!(rt; table.align > 0 && table.is_coherent());
    assert!(rt; table.header.number_of_partition_entries > 3);
    got(rt, add_first(table, 3, baz(rt, 0), size))
}

// Returns the place of the largest partition with this alignment.
fn greatest(rt: &impl Abort, table: &mut GPT, align: u64) -> Option<(u64, u64)> {
    table.align = align;
    assert!(rt; table.align > 0);
    got(rt, greatest_place(table))
}

fn assert_greatest(rt: &impl Abort, table: &mut GPT, align: u64, place: Option<(u64, u64)>) {
    assert!(rt; greatest(rt, table, align) == place);
}

// The free ranges are 44..47 and 53..66.
fn assert_places(rt: &impl Host, table: &mut GPT) {
    assert_greatest(rt, table, 10, None);
    assert_greatest(rt, table, 4, Some((56, 8)));
    assert_greatest(rt, table, 1, Some((53, 14)));
}

// The entry is added in the first free range.
fn assert_added(rt: &impl Host, table: &mut GPT) {
    assert!(rt; !is_added(rt, table, 15));
    assert!(rt; is_added(rt, table, 4));
    assert_used(rt, table, ", 1 Foo 34..43, 2 Bar 48..52, 3 Baz 44..47");
}

#[test]
fn an_entry_is_added_where_there_is_a_place(rt: HostRuntime) {
    let mut table = disk_1(&rt);
    assert_places(&rt, &mut table);
    assert_added(&rt, &mut table);
}

// Returns the table that the disk holds.
fn held(rt: &impl Host, disk: &mut MemoryDisk) -> GPT {
    got(rt, read_held(rt.alloc(), disk, 512))
}

// Asserts that the disk holds this table, and that it has this text.
fn assert_held(rt: &impl Host, disk: &mut MemoryDisk, table: &GPT, said: &str) {
    assert_same(rt, &held(rt, disk), table);
    assert_same(rt, &got(rt, read_right_copy(rt.alloc(), disk, 512)), table);
    assert_shown(rt, table, said);
}

// Returns a disk of 200 sectors that holds a table for 100.
fn longer_disk(rt: &impl Host) -> MemoryDisk {
    let mut image = image_of_new(rt, 0);
    got(rt, image.resize(102_400, 0));
    holding(rt, &image)
}

// Fits the table to the disk and writes it.
fn grow_on(rt: &impl Abort, table: &mut GPT, disk: &mut MemoryDisk) {
    assert!(rt; table.sector_size > 0 && table.is_coherent());
    got(rt, grow(table, disk));
}

#[test]
fn a_table_grows_with_its_disk(rt: HostRuntime) {
    let mut disk = longer_disk(&rt);
    let mut table = held(&rt, &mut disk);
    grow_on(&rt, &mut table, &mut disk);
    assert_held(&rt, &mut disk, &table, "512 1/199/2 34..166 align 2048");
}
