//! Laws of requests for fitted tables. The calls do nothing; their clauses state theorems about the definitions.

ghost use Rattle.gptedit_core.specs.Fitting.{FittedRequestsAddNothing, FittedRequestsAreBoth};
ghost use Rattle.gptedit_core.specs.Fitting.{FittedRequestsReachEnd, FittingKeepsEntries};
ghost use Rattle.gptedit_core.specs.FittedReshaping.{FittedShapesAddNothing, FittedShapesAreBoth};
ghost use Rattle.gptedit_core.specs.FittedReshaping.{FittedShapesReachEnd};

/// The table that is made ends where the disk does.
pub fn fitted_requests_reach_the_end()
    ensures reached { FittedRequestsReachEnd }
{}

/// A fitted request makes in one write what `grow` and then the request make in two. For a table that ends where the
/// disk does, it makes what the request makes.
pub fn fitted_requests_are_both()
    ensures both { FittedRequestsAreBoth }
    ensures alone { FittedRequestsAddNothing }
{}

/// Fitting a table changes no entry.
pub fn fitting_keeps_the_entries()
    ensures kept { FittingKeepsEntries }
{}

/// The table that is made of a fitted table with another shape has this shape, and ends where the disk does.
pub fn fitted_shapes_reach_the_end()
    ensures reached { FittedShapesReachEnd }
{}

/// A fitted request with another shape makes in one write what `grow` and then the request make in two. For a table that
/// ends where the disk does, it makes what the request makes.
pub fn fitted_shapes_are_both()
    ensures both { FittedShapesAreBoth }
    ensures alone { FittedShapesAddNothing }
{}
