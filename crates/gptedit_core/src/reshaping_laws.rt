//! Laws of requests for reshaped tables. The calls do nothing; their clauses state theorems about the definitions.

ghost use Rattle.gptedit_core.specs.Reshaping.{CompleteShapesLeaveRoom, CompleteShapesMoveWithEntries};
ghost use Rattle.gptedit_core.specs.Reshaping.{EntriesTakeFewestSectors, NothingStatedIsKept, ReshapedRequestsAddNothing};
ghost use Rattle.gptedit_core.specs.Reshaping.{ReshapedTablesHaveShape, ReshapedTablesKeepEntries, StatedValuesAreTaken};

/// The table that is made has the shape and the stated layout. It has the entries of the result of the request.
pub fn reshaped_tables_have_the_shape()
    ensures shape { ReshapedTablesHaveShape }
    ensures entries { ReshapedTablesKeepEntries }
{}

/// For a table that has the shape, a reshaped request makes what the request makes.
pub fn reshaped_requests_add_nothing()
    ensures alone { ReshapedRequestsAddNothing }
{}

/// A shape of which nothing is stated is that of the table.
pub fn nothing_stated_is_kept()
    ensures kept { NothingStatedIsKept }
{}

/// Entries take the fewest sectors that have room for them.
pub fn entries_take_the_fewest_sectors()
    ensures fewest { EntriesTakeFewestSectors }
{}

/// A complete shape has each stated value. It has the number of entries of the table if none is stated.
pub fn stated_values_are_taken()
    ensures taken { StatedValuesAreTaken }
{}

/// A usable sector that is not stated leaves room for the entries of the complete shape, if that of the table leaves
/// room for the entries of the table.
pub fn complete_shapes_leave_room()
    ensures room { CompleteShapesLeaveRoom }
{}

/// A usable sector that is not stated stays next to the entries if it was. Otherwise it moves only if the entries of the
/// complete shape reach over it, and then to the sector next to them.
pub fn complete_shapes_move_with_entries()
    ensures moved { CompleteShapesMoveWithEntries }
{}
