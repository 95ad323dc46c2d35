//! The shapes of tables: several sector sizes, up to 10,000 entries, and nonzero reserved bytes. In each the used
//! entries are in reverse order, and ten sectors are free at the end.

use crate::shape_calls;
use crate::verdict::Verdict;
use gptman::Result;
use std::alloc::Global;
use test_fixtures::shape::Shape;

/// Makes the calls on the tables of this name, or returns `None` if there are none.
pub fn try_call(name: &str, alloc: Global) -> Option<Result<Verdict>> {
    let shapes = named(name.strip_prefix("calls_")?)?;
    Some(try_shapes(alloc, &shapes))
}

fn try_shapes(alloc: Global, shapes: &[Shape]) -> Result<Verdict> {
    for shape in shapes {
        if !shape_calls::is_right(alloc, shape)? {
            return Ok(Verdict::AnsweredWrongly);
        }
    }
    Ok(Verdict::Done)
}

// Returns the shapes of this name: three numbers of entries with this sector size, or three headers with nonzero
// reserved bytes.
fn named(name: &str) -> Option<[Shape; 3]> {
    if name == "reserved" {
        return Some([
            shape(512, 128, 126, [1, 0, 0, 0]),
            shape(520, 1024, 100, [0, 2, 0x80, 0]),
            shape(4096, 128, 100, [0xff; 4]),
        ]);
    }
    let sector_size = name.parse::<u16>().ok()?;
    let most = if sector_size == 512 { 9998 } else { 1100 };
    Some([
        shape(sector_size, 128, 126, [0; 4]),
        shape(sector_size, 1024, 1022, [0; 4]),
        shape(sector_size, 10_000, most, [0; 4]),
    ])
}

fn shape(sector_size: u16, entries: u32, used: u32, reserved: [u8; 4]) -> Shape {
    Shape {
        sector_size,
        entries,
        used,
        free: 10,
        is_reversed: true,
        reserved,
    }
}
