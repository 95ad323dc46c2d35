//! Sizes in bytes, and numbers of entries.

ghost use Rattle.std.specs.Prelude.{◌≡◌, length};

use crate::codec::header::GPTHeader;

/// The size of a header.
pub const HEADER_SIZE: u32 = 92;

/// The size of an entry.
pub const ENTRY_SIZE: u32 = 128;

/// The number of entries of a new table, unless the caller chooses another.
pub const DEFAULT_ENTRY_COUNT: u32 = 128;

/// The number of entries up to which Linux reads a table. The library reads more.
pub const MAX_ENTRY_COUNT: u32 = 32768;

/// The sector sizes that disks have.
pub const SECTOR_SIZES: [u64; 4] = [512, 1024, 2048, 4096];

/// Does nothing. Its contract states the lengths of the first two fields of a header.
pub(crate) fn note_sizes(header: &GPTHeader)
    ensures signature { length header.now.signature ≡ 8 }
    ensures revision { length header.now.revision ≡ 4 }
{
    let _signature = header.signature;
    let _revision = header.revision;
}
