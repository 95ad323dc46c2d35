//! Debug output of values.

use crate::asserts::{Host, assert_printed};
use crate::fixtures::{disk_1, partition};
use gptman::{Edit, Fate};

// Asserts the debug output of an edit that puts an entry.
fn assert_put_printed(rt: &impl Host) {
    let start = "Put(1, GPTPartitionEntry { partition_type_guid: [10, 10, ";
    let sectors = "starting_lba: 34, ending_lba: 43, attribute_bits: 0";
    assert_printed(
        rt,
        &Edit::Put(1, partition(rt, ("Foo", 0x0b), (34, 43))),
        start,
        sectors,
    );
}

// Asserts the debug output of a table.
fn assert_table_printed(rt: &impl Host) {
    let start = "GPT { sector_size: 512, header: GPTHeader { signature: [69, 70, ";
    assert_printed(rt, &disk_1(rt), start, ", align: 2048 }");
}

#[test]
fn values_are_printed_for_debugging(rt: HostRuntime) {
    assert_printed(&rt, &Edit::Remove(3), "Remove(3)", "");
    assert_printed(&rt, &Edit::SortEntries, "SortEntries", "");
    assert_printed(&rt, &Edit::DiskGuid([5; 16]), "DiskGuid([5, 5, ", ", 5])");
    assert_printed(&rt, &Fate::Garbage(7), "Garbage(7)", "");
    assert_put_printed(&rt);
    assert_table_printed(&rt);
}
