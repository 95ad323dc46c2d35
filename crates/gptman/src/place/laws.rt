//! Laws about the places that the searches return, for proofs of callers. The functions do nothing.

ghost use Rattle.gptman.specs.Placement.{MaximumIsOffered, PlacementKeepsValid};

/// States that a new entry at an offered place keeps a valid table valid. The entry covers the n sectors from
/// the place on, has a unique GUID that no used entry has, and may replace any entry; replace an unused one to
/// lose none.
pub fn placement_keeps_valid()
    ensures { PlacementKeepsValid }
{}

/// States that the maximum size m is a multiple of `align`. If m is above 0, there is a place for m sectors, so
/// every search that returns `Ok` finds one. For m + `align` sectors there is none.
pub fn maximum_is_offered()
    ensures { MaximumIsOffered }
{}
