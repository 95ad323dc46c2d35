//! Laws of growths. The calls do nothing; their clauses state theorems about the definitions.

ghost use Rattle.gptedit_core.specs.Growing.{GrowthsKeepFirst, GrowthsKeepPrimary, GrowthsLeaveEnds};
ghost use Rattle.gptedit_core.specs.Growing.{GrowthsReachEnd, GrowthsStay, UsualBoundsReachEnd};

use gptman::Disk;

/// With `Bounds::Kept` a table that ends elsewhere is made to end where the disk does, with its usable sectors. A
/// table that ends there is unchanged. The first usable sector stays, if it is after the primary entries and not
/// after the last usable sector of the grown table.
pub fn growths_follow_the_end()
    ensures reached { GrowthsReachEnd }
    ensures left { GrowthsLeaveEnds }
    ensures first { GrowthsKeepFirst }
{}

/// With `Bounds::Usual` all sectors between the two copies are usable.
pub fn usual_bounds_reach_the_end()
    ensures { UsualBoundsReachEnd }
{}

/// Growing a grown table again on the same disk is possible, and changes nothing.
pub fn growths_again_change_nothing()
    ensures { GrowthsStay }
{}

/// A table in the primary place is one good copy for the write of the grown table, if nothing is unsynced and the
/// value that is grown is in primary form and has the same number of entries.
pub fn growths_keep_the_primary_copy<D: Disk>(disk: &D)
    ensures { GrowthsKeepPrimary (D.state disk.now) }
{}
