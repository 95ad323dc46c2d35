//! Free sectors and places.

use crate::answer::{Answer, Answered, Fault};
use crate::bench::Bench;
use crate::row::Row;

/// free T; first T size=; last T size=; best T size=; maximum T
pub(crate) fn answer(bench: &mut Bench, row: Row) -> Answered {
    let table = bench.table(row)?;
    if table.align == 0 {
        return Err(Fault::Requires);
    }
    Ok(match row.call() {
        "free" => Answer::Slots(table.find_free_sectors()?),
        "first" => Answer::Place(table.find_first_place(row.number("size")?)?),
        "last" => Answer::Place(table.find_last_place(row.number("size")?)?),
        "best" => Answer::Place(table.find_optimal_place(row.number("size")?)?),
        _ => Answer::Number(table.get_maximum_partition_size()?),
    })
}
