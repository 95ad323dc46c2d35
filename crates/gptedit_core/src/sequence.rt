//! The order in which a layout is carried out.

ghost use Rattle.std.specs.Prelude.{◌≡◌, IfOk};
ghost use Rattle.gptedit_core.specs.Sequence.{asks_used, IsUsedFirst};

use crate::asked::{Asked, RequestedLayout};
use gptman::GPT;
use std::alloc::{AllocError, Global};

/// Returns the layout with the requests for used entries before the others, otherwise in their order. Then no new
/// partition takes the sectors of one that stays.
pub fn put_used_first(
    alloc: Global,
    table: &GPT,
    layout: RequestedLayout,
) -> Result<RequestedLayout, AllocError>
    ensures order { IfOk result (IsUsedFirst table.now layout) }
{
    let mut first = Vec::new(alloc);
    let mut others = Vec::new(alloc);
    for request in layout.asked {
        if asks_used(table, &request) {
            first.push(request)?;
        } else {
            others.push(request)?;
        }
    }
    first.append(&mut others)?;
    Ok(RequestedLayout {
        mode: layout.mode,
        disk_guid: layout.disk_guid,
        align: layout.align,
        removed: layout.removed,
        asked: first,
    })
}

// Reports whether the request names a used entry.
fn asks_used(table: &GPT, asked: &Asked) -> bool
    ensures { result ≡ asks_used table.now asked.now }
{
    match asked.number.and_then(|number| table.get(number)) {
        Some(entry) => entry.is_used(),
        None => false,
    }
}
