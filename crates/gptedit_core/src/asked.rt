//! Requests: layouts, and what they ask of each entry.

ghost use Rattle.std.specs.Prelude.{◌≡◌};
ghost use Rattle.gptedit_core.specs.Resolving.{nothing_of};

use crate::amount::Amount;
use gptman::PartitionName;

/// Which free place a partition gets.
#[derive(Clone, Copy, PartialEq, Eq, Debug)]
pub enum Choice {
    /// The first.
    First,
    /// The last.
    Last,
    /// The start of the smallest free range that is large enough; the first of equals.
    Best,
    /// The first multiple of the alignment in the longest free range; the first of equals.
    Longest,
}

/// How large a partition is to be.
#[derive(Clone, Copy, PartialEq, Eq, Debug)]
pub enum Size {
    /// Exactly this size.
    Exactly(Amount),
    /// All free sectors from its first sector on; without a first sector, the longest free range. A used entry that
    /// starts there is never shortened. It is lengthened if it can be, after all other entries have their places.
    Rest,
}

/// A request for one entry. A field that is `None` keeps the value of a used entry.
#[derive(Drop, Debug)]
pub struct Asked {
    /// The number of the entry, from 1. `None` means the lowest unused one.
    pub number: Option<u32>,
    /// The type of the partition. An unused entry needs one.
    pub type_guid: Option<[u8; 16]>,
    /// The GUID of the partition. `None` means a random one for an unused entry.
    pub unique_guid: Option<[u8; 16]>,
    /// The attributes. `None` means no attributes for an unused entry.
    pub attributes: Option<u64>,
    /// The name. `None` means an empty name for an unused entry.
    pub name: Option<PartitionName>,
    /// The first sector. `None` means that of a used entry, or a chosen one.
    pub start: Option<Amount>,
    /// The size. `None` means that of a used entry; an unused entry needs one.
    pub size: Option<Size>,
    /// Which free place the partition gets, if one is chosen.
    pub choice: Choice,
}

impl Asked {
    /// Returns a request for the entry of this number with no other field set.
    pub fn nothing(number: Option<u32>) -> Asked
        ensures { result ≡ nothing_of number }
    {
        Asked {
            number,
            type_guid: None,
            unique_guid: None,
            attributes: None,
            name: None,
            start: None,
            size: None,
            choice: Choice::First,
        }
    }
}

/// The entries that a layout may name, and what happens to the others.
#[derive(Clone, Copy, PartialEq, Eq, Debug)]
pub enum Mode {
    /// It fills unused entries, and may not name a used one.
    Add,
    /// It changes used entries, and may not name an unused one.
    Change,
    /// The table becomes the layout. Unless `replace` is set, the layout must name or remove each used entry, and no
    /// used entry may move or become shorter.
    Become { replace: bool },
}

/// A request for a table.
#[derive(Drop, Debug)]
pub struct RequestedLayout {
    /// The permitted changes of the named entries.
    pub mode: Mode,
    /// The GUID of the disk. `None` keeps it.
    pub disk_guid: Option<[u8; 16]>,
    /// The alignment of places that are chosen.
    pub align: Amount,
    /// The numbers of the entries to remove.
    pub removed: Vec<u32>,
    /// The requests for entries.
    pub asked: Vec<Asked>,
}
