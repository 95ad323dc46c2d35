//! The calls that are timed.

use gptman::disk::plain::PlainDisk;
use gptman::{Edit, Error, GPT, Result};
use std::alloc::Global;
use test_fixtures::calls::{
    copy, first_place, free_sectors, last_place, maximum_size, optimal_place, sort,
};
use test_fixtures::shape::Shape;
use test_fixtures::tables::{commit, read, write};

/// A call of the library.
#[derive(Clone, Copy)]
pub enum Call {
    Checksum,
    Read,
    Write,
    FreeSectors,
    FirstPlace,
    LastPlace,
    OptimalPlace,
    MaximumSize,
    Sort,
    Clone,
    CommitTen,
}

/// All calls, in the order in which they are printed.
pub const CALLS: [Call; 11] = [
    Call::Checksum,
    Call::Read,
    Call::Write,
    Call::FreeSectors,
    Call::FirstPlace,
    Call::LastPlace,
    Call::OptimalPlace,
    Call::MaximumSize,
    Call::Sort,
    Call::Clone,
    Call::CommitTen,
];

impl Call {
    pub fn name(self) -> &'static str {
        match self {
            Call::Checksum => "crc32",
            Call::Read => "read",
            Call::Write => "write",
            Call::FreeSectors => "free sectors",
            Call::FirstPlace => "first place",
            Call::LastPlace => "last place",
            Call::OptimalPlace => "optimal place",
            Call::MaximumSize => "maximum size",
            Call::Sort => "sort",
            Call::Clone => "clone",
            Call::CommitTen => "commit 10",
        }
    }
}

/// A table, the disk that holds it, and the bytes of its entries.
#[derive(Drop)]
pub struct Case {
    alloc: Global,
    disk: PlainDisk,
    table: GPT,
    array: Vec<u8>,
}

impl Case {
    /// Returns a case with `used` used entries and at least 128 entries. The used ones are sorted, with one sector each
    /// and a free one after it. There is room for the unused ones too. The alignment is one sector.
    pub fn new(alloc: Global, used: u32) -> Result<Case> {
        let shape = shape_of(used);
        let mut disk = PlainDisk::new(vec![in alloc; 0; shape.bytes()]?);
        let mut table = shape.write_to(alloc, &mut disk)?;
        table.align = 1;
        let array = array_of(alloc, &table)?;
        Ok(Case {
            alloc,
            disk,
            table,
            array,
        })
    }

    /// Returns the number of bytes that the call processes, if a rate is to be printed.
    pub fn bytes_of(&self, call: Call) -> Option<usize> {
        match call {
            Call::Checksum | Call::Read => Some(self.array.len()),
            Call::Write => Some(self.array.len().saturating_mul(2)),
            _ => None,
        }
    }

    /// Makes the call once.
    pub fn make(&mut self, call: Call) -> Result<()> {
        match call {
            Call::Checksum => self.sum(),
            Call::Read => self.read(),
            Call::Write => self.write(),
            Call::Sort => sort(&mut self.table),
            Call::Clone => self.clone_table(),
            Call::CommitTen => self.commit(),
            _ => self.find(call),
        }
    }

    // Computes the checksum of all entries.
    fn sum(&self) -> Result<()> {
        if gptman::crc::crc32(&self.array) == self.table.header.partition_entry_array_crc32 {
            Ok(())
        } else {
            Err(Error::Overflow)
        }
    }

    fn read(&mut self) -> Result<()> {
        read(self.alloc, &mut self.disk, 512)?;
        Ok(())
    }

    fn write(&mut self) -> Result<()> {
        write(&mut self.table, &mut self.disk)?;
        Ok(())
    }

    fn clone_table(&self) -> Result<()> {
        copy(&self.table)?;
        Ok(())
    }

    // Finds the free sectors, a place for one sector, or the maximum size.
    fn find(&self, call: Call) -> Result<()> {
        match call {
            Call::FirstPlace => {
                first_place(&self.table, 1)?;
            }
            Call::LastPlace => {
                last_place(&self.table, 1)?;
            }
            Call::OptimalPlace => {
                optimal_place(&self.table, 1)?;
            }
            Call::MaximumSize => {
                maximum_size(&self.table)?;
            }
            _ => {
                free_sectors(&self.table)?;
            }
        }
        Ok(())
    }

    // Commits ten edits.
    fn commit(&mut self) -> Result<()> {
        let mut edits = Vec::new(self.alloc);
        for number in 0..10 {
            edits.push(Edit::DiskGuid([number; 16]))?;
        }
        match commit(&mut self.table, &mut self.disk, edits)?.fault {
            None => Ok(()),
            Some(error) => Err(error),
        }
    }
}

// Returns the shape of a table with `used` used entries.
fn shape_of(used: u32) -> Shape {
    let entries = used.max(128);
    let unused = u64::from(entries).saturating_sub(u64::from(used));
    Shape {
        sector_size: 512,
        entries,
        used,
        free: unused.saturating_mul(2).saturating_add(1),
        is_reversed: false,
        reserved: [0; 4],
    }
}

// Returns the bytes of all entries.
fn array_of(alloc: Global, table: &GPT) -> Result<Vec<u8>> {
    let mut bytes = Vec::new(alloc);
    for (_, entry) in table.iter() {
        bytes.extend_from_slice(&entry.encode())?;
    }
    Ok(bytes)
}
