//! Ranges of bytes that begin at a sector.

ghost use Rattle.std.specs.Prelude.{◌≡◌, ◌↔◌, ◌≤◌, ◌<◌, ◌+◌, ◌*◌, IsTrue};
ghost use Rattle.gptedit_look.specs.Guard.{IsIn};

/// The size of a header in bytes.
pub const HEADER_SIZE: u64 = 92;

/// The size of an entry in bytes.
pub const ENTRY_SIZE: u64 = 128;

/// Returns the first byte of this sector.
pub fn start_of(sector: u64, sector_size: u64) -> u128
    ensures { result ≡ sector * sector_size }
{
    u128::from(sector) * u128::from(sector_size)
}

/// Returns the first byte of the sector after this one.
#[tactic(auto, using(crate::proofs::Products::product_fits))]
pub fn start_after(sector: u64, sector_size: u64) -> u128
    ensures { result ≡ (sector + 1) * sector_size }
{
    (u128::from(sector) + 1) * u128::from(sector_size)
}

/// Reports whether byte `at` is one of the `length` bytes from `start`.
pub fn is_in(start: u128, length: u64, at: u64) -> bool
    ensures { IsTrue result ↔ IsIn start length at }
{
    let at = u128::from(at);
    start <= at && at - start < u128::from(length)
}
