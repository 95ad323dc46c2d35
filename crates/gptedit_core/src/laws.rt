//! Laws of layouts. The calls do nothing; their clauses state theorems about the definitions.

ghost use Rattle.gptedit_core.specs.Named.{LayoutsAreTaken, LayoutsAreTakenAgain, LayoutsChangeNamed};
ghost use Rattle.gptedit_core.specs.Named.{LayoutsGiveTable, LayoutsOnlyLengthen, LayoutsStay};

/// A layout changes only the entries that it names or removes. Each named entry has the requested fields afterwards,
/// at a place that was free for it, and ends later only if it gets the rest; each other entry is unchanged. With
/// `Mode::Become { replace: false }` no other entry is used, and a named one that was used does not move or end earlier.
pub fn layouts_change_what_they_name()
    ensures { LayoutsChangeNamed }
{}

/// Applying the layout of a table (`layout_of`) to that table changes nothing.
pub fn layouts_of_tables_give_them()
    ensures { LayoutsGiveTable }
{}

/// A request that applies the layout of a table to that table is not refused, if the table has the stated layout and
/// may be written, its alignment is above 0, and there is a random GUID for each requested entry.
pub fn layouts_of_tables_are_taken()
    ensures { LayoutsAreTaken }
{}

/// A layout that numbers each entry changes nothing if it is applied again, with `Mode::Become { replace: false }`
/// and nothing to remove.
pub fn layouts_again_change_nothing()
    ensures { LayoutsStay }
{}

/// A request that applies such a layout again is not refused, if the first one was planned and either the table could
/// only become the layout, or the layout names or removes each used entry.
pub fn layouts_again_are_taken()
    ensures { LayoutsAreTakenAgain }
{}

/// A request of `Size::Rest` for a used entry, from where it starts, never shortens or moves it. It ends before the
/// highest multiple of the alignment that the free sectors after it reach, or where it ended before.
pub fn layouts_only_lengthen()
    ensures { LayoutsOnlyLengthen }
{}
