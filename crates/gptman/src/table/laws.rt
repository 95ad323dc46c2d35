//! Laws about reads and writes, over lists of bytes or the state of a disk, for proofs of callers. The
//! functions do nothing.

ghost use Rattle.gptman.specs.Crash.{EditListsKeepPlaces, EditsKeepPlaces, GrowingIsSafe};
ghost use Rattle.gptman.specs.Crash.{KeepsWhatIsRead, TakesInForm};
ghost use Rattle.gptman.specs.Stop.{AcceptsRightCopies, HoldsWhatIsRead, ReadsWhatItHolds};

use crate::Disk;

/// States that a disk that holds a listed table in at least one place, and from which no foreign copy is read,
/// is read as a listed table. The layout of the disk does not matter.
pub fn what_is_held_is_read()
    ensures { ReadsWhatItHolds }
{}

/// States that if a read returns a copy in the form of its place, that place holds the copy's table. The layout
/// of the disk does not matter.
pub fn what_is_read_is_held()
    ensures { HoldsWhatIsRead }
{}

/// States that in a list of fewer than 2^64 bytes a copy is accepted at a byte, with this header and these
/// entries, exactly if they are there: a header with the right signature, revision, size and checksum, and at
/// its place on the disk entries with the right checksum. The text of each name is that of its units.
pub fn right_copies_are_accepted()
    ensures { AcceptsRightCopies }
{}

/// States that a table that the primary place holds is one good copy for writing a value whose header was
/// fitted to the disk, from one in primary form with as many entries. Nothing may be unsynced, and the value
/// must have the stated layout. The last usable sector and the backup copy may have moved.
pub fn growing_is_safe<D: Disk>(disk: &D)
    ensures { GrowingIsSafe (D.state disk.now) }
{}

/// States that a table that was read in the form of its place is one good copy for the next write: of the value
/// itself, or of any value with its sector size, form and four ranges. Nothing may be unsynced, and the written
/// value must have the stated layout. A table that `read_from` returns in the form of its place is such a
/// table, and each edit keeps what the written value must have.
pub fn what_is_read_is_kept<D: Disk>(disk: &D)
    ensures taken { TakesInForm (D.state disk.now).view }
    ensures kept { KeepsWhatIsRead (D.state disk.now) }
    ensures edited { EditsKeepPlaces }
{}

/// States that a list of edits, applied as by `apply_all`, keeps the sector size, the form and the four ranges
/// of a value, the stated layout and coherence. So the result may be passed to `write_into`.
pub fn edit_lists_keep_places()
    ensures { EditListsKeepPlaces }
{}
