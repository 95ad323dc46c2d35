//! Lists of edits.

use crate::answer::{Answer, Answered, Fault, Named};
use crate::bench::{Bench, held};
use crate::entries::partition;
use crate::row::Row;
use gptman::{Edit, GPT, Progress};
use std::alloc::Global;

/// edit put number= KEY= ..; edit remove number=; edit sort; edit guid guid=; make T; apply T; commit T on=
pub(crate) fn answer(bench: &mut Bench, row: Row) -> Answered {
    match row.call() {
        "edit" => {
            let edit = edit_of(bench.alloc, row)?;
            bench.edits.push(edit)?;
            Ok(Answer::Done)
        }
        "apply" => apply(bench, row),
        "make" => make(bench, row),
        _ => commit(bench, row),
    }
}

fn edit_of(alloc: Global, row: Row) -> Result<Edit, Fault> {
    match row.kind() {
        "put" => Ok(Edit::Put(row.short("number")?, partition(alloc, row)?)),
        "remove" => Ok(Edit::Remove(row.short("number")?)),
        "sort" => Ok(Edit::SortEntries),
        "guid" => Ok(Edit::DiskGuid(row.guid("guid")?)),
        _ => Err(Fault::Row),
    }
}

// Applies the listed edits up to the first that is refused. The list is empty afterwards.
fn make(bench: &mut Bench, row: Row) -> Answered {
    let edits = listed(bench);
    let table = bench.table(row)?;
    for edit in edits {
        table.apply(edit)?;
    }
    Ok(Answer::Done)
}

// Applies all listed edits, or none.
fn apply(bench: &mut Bench, row: Row) -> Answered {
    let edits = listed(bench);
    bench.table(row)?.apply_all(edits.as_slice())?;
    Ok(Answer::Done)
}

fn listed(bench: &mut Bench) -> Vec<Edit> {
    let alloc = bench.alloc;
    std::mem::replace(&mut bench.edits, Vec::new(alloc))
}

// Commits the listed edits. Returns the number of completed ones, and the error.
fn commit(bench: &mut Bench, row: Row) -> Answered {
    let alloc = bench.alloc;
    let edits = listed(bench);
    let disk = held(&mut bench.disks, row.slot_of("on")?)?;
    let table = held(&mut bench.tables, row.slot()?)?;
    if table.sector_size == 0 || !table.is_coherent() {
        return Err(Fault::Requires);
    }
    progress_text(alloc, &table.commit_all(disk, edits))
}

fn progress_text(alloc: Global, progress: &Progress) -> Answered {
    let done = progress.done;
    let text = match &progress.fault {
        Some(error) => {
            let named = Named(error);
            format!(in alloc; "{done} {named}")
        }
        None => format!(in alloc; "{done} none"),
    };
    Ok(Answer::Text(text?))
}
