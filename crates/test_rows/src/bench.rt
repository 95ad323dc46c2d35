//! The named disks and tables, and the calls on them.

use crate::answer::{Answer, Answered, Fault};
use crate::row::Row;
use crate::{disks, edits, entries, headers, places, tables, values};
use gptman::disk::faulty::FaultyDisk;
use gptman::{Edit, GPT, MemoryDisk};
use std::alloc::{AllocError, Global};

// The kinds of calls.
#[derive(Clone, Copy)]
enum Kind {
    Value,
    NewDisk,
    Disk,
    NewTable,
    Table,
    Header,
    HeaderOnDisk,
    Entry,
    EntryChange,
    Place,
    Edit,
}

// The calls of each kind.
const CALLS: [(Kind, &[&str]); 11] = [
    (Kind::Value, &["crc", "name", "units", "mbr_bytes"]),
    (
        Kind::NewDisk,
        &["disk", "copy", "fuse", "fault", "stop", "cut", "poke"],
    ),
    (
        Kind::Disk,
        &[
            "bytes", "same", "calls", "goto", "end", "take", "lay", "sync", "mbr",
        ],
    ),
    (Kind::NewTable, &["new", "read", "find", "clone", "parts"]),
    (
        Kind::Table,
        &["show", "used", "is", "equal", "fits", "layout", "write"],
    ),
    (
        Kind::Header,
        &[
            "header",
            "sum",
            "seal",
            "seal_array",
            "set",
            "encode_header",
            "decode_header",
        ],
    ),
    (
        Kind::HeaderOnDisk,
        &[
            "read_header",
            "put_header",
            "new_header",
            "fit",
            "write_header",
            "read_entries",
        ],
    ),
    (
        Kind::Entry,
        &["entry", "index", "size", "sectors", "range", "encode", "at"],
    ),
    (
        Kind::EntryChange,
        &[
            "put",
            "change",
            "swap",
            "give",
            "decode",
            "each",
            "remove",
            "free_at",
            "sort",
            "read_entry",
        ],
    ),
    (Kind::Place, &["free", "first", "last", "best", "maximum"]),
    (Kind::Edit, &["edit", "make", "apply", "commit"]),
];

// Returns the kind of the call, if there is such a call.
fn kind_of(call: &str) -> Option<Kind> {
    for (kind, calls) in CALLS {
        if calls.contains(&call) {
            return Some(kind);
        }
    }
    None
}

/// Up to 26 disks, 26 tables, and the listed edits.
#[derive(Drop)]
pub(crate) struct Bench {
    pub(crate) alloc: Global,
    pub(crate) disks: Vec<Option<FaultyDisk>>,
    pub(crate) tables: Vec<Option<GPT>>,
    pub(crate) edits: Vec<Edit>,
}

impl Bench {
    /// Returns a bench without disks, tables and edits.
    pub(crate) fn new(alloc: Global) -> Result<Bench, AllocError> {
        let mut bench = Bench {
            alloc,
            disks: Vec::new(alloc),
            tables: Vec::new(alloc),
            edits: Vec::new(alloc),
        };
        for _ in 0..26 {
            bench.disks.push(None)?;
            bench.tables.push(None)?;
        }
        Ok(bench)
    }

    /// Returns the answer to a row.
    pub(crate) fn answer(&mut self, line: &str) -> Answered {
        let row = Row::new(line);
        match kind_of(row.call()) {
            Some(Kind::Value) => values::answer(self.alloc, row),
            Some(Kind::NewDisk) => disks::make(self, row),
            Some(Kind::Disk) => disks::answer(self, row),
            Some(Kind::NewTable) => tables::make(self, row),
            Some(Kind::Table) => tables::answer(self, row),
            Some(Kind::Header) => headers::answer(self, row),
            Some(Kind::HeaderOnDisk) => headers::on_disk(self, row),
            Some(Kind::Entry) => entries::answer(self, row),
            Some(Kind::EntryChange) => entries::change(self, row),
            Some(Kind::Place) => places::answer(self, row),
            Some(Kind::Edit) => edits::answer(self, row),
            None => Err(Fault::Row),
        }
    }

    /// Returns the disk that the row names by this key.
    pub(crate) fn disk(&mut self, row: Row, key: &str) -> Result<&mut FaultyDisk, Fault> {
        held(&mut self.disks, row.slot_of(key)?)
    }

    /// Returns the table of the row.
    pub(crate) fn table(&mut self, row: Row) -> Result<&mut GPT, Fault> {
        held(&mut self.tables, row.slot()?)
    }

    /// Stores a disk under the name in the row.
    pub(crate) fn keep_disk(&mut self, row: Row, below: FaultyDisk) -> Answered {
        put(&mut self.disks, row.slot()?, below)
    }

    /// Stores a table under the name in the row.
    pub(crate) fn keep_table(&mut self, row: Row, table: GPT) -> Answered {
        put(&mut self.tables, row.slot()?, table)
    }
}

/// Returns the item in this slot.
pub(crate) fn held<T>(things: &mut Vec<Option<T>>, slot: usize) -> Result<&mut T, Fault> {
    match things.get_mut(slot) {
        Some(Some(thing)) => Ok(thing),
        _ => Err(Fault::Row),
    }
}

/// Takes the item out of this slot.
pub(crate) fn taken<T: Drop>(things: &mut Vec<Option<T>>, slot: usize) -> Result<T, Fault> {
    match things.get_mut(slot) {
        Some(place) => place.take().ok_or(Fault::Row),
        None => Err(Fault::Row),
    }
}

fn put<T: Drop>(things: &mut Vec<Option<T>>, slot: usize, thing: T) -> Answered {
    let Some(place) = things.get_mut(slot) else {
        return Err(Fault::Row);
    };
    *place = Some(thing);
    Ok(Answer::Done)
}

/// Returns a disk in memory of these bytes.
pub(crate) fn holding(alloc: Global, bytes: Vec<u8>) -> Result<FaultyDisk, Fault> {
    Ok(FaultyDisk::new(MemoryDisk::new(alloc, bytes)?, None))
}
