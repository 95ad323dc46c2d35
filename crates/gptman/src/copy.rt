//! Reads one complete copy: its header, then its entries. Re-exports `write_summed`, which writes one.

ghost use Rattle.std.specs.Prelude.{◌≡◌, ◌≤◌, ◌<◌, ◌-◌, ◌*◌, ◌/◌, IfOk};
ghost use Rattle.gptman.specs.Answers.{is_copy_fault, AnswersInMemory, RefusesOnly};
ghost use Rattle.gptman.specs.Copy.{copy_at, copy_of_whole, IsCoherent};
ghost use Rattle.gptman.specs.Answers.{CountsFailure};
ghost use Rattle.gptman_disk.specs.Disk.{Reads};

use crate::codec::entry::GPTPartitionEntry;
use crate::codec::header::GPTHeader;
use crate::disk::Disk;
use crate::error::Result;
pub use crate::header::write::write_summed;
use std::alloc::Global;

/// A copy that passed the tests of a read.
#[derive(Drop)]
pub struct WholeCopy {
    /// Its header.
    pub header: GPTHeader,
    /// Its entries, as many as the header counts.
    pub entries: Vec<GPTPartitionEntry>,
}

/// Reads the copy whose header is at the disk's position. `sector_size` is in bytes, and must be above 0.
///
/// The errors are those of `GPTHeader::read_from`, then those of `GPTHeader::read_partitions`.
pub fn read_copy<D: Disk>(alloc: Global, disk: &mut D, sector_size: u64) -> Result<WholeCopy>
    requires { 0 < sector_size }
    ensures reads { Reads (D.state disk.old) (D.state disk.new) }
    ensures counts { CountsFailure result (D.state disk.old) (D.state disk.new) }
    ensures answer { AnswersInMemory copy_of_whole
        (copy_at (D.state disk.old).view (D.state disk.old).position sector_size) result
        (D.state disk.old) (D.state disk.new) }
    ensures refused { RefusesOnly is_copy_fault result }
    ensures coherent { IfOk result (λ copy. IsCoherent copy.header copy.entries.items) }
{
    let header = GPTHeader::read_from(disk)?;
    let entries = header.read_partitions(alloc, disk, sector_size)?;
    Ok(WholeCopy { header, entries })
}

/// Returns the first byte of the last whole sector of a disk of `size` bytes, where the backup header is. The
/// disk must have at least one sector.
pub fn last_sector(size: u64, sector_size: u64) -> u64
    requires sector { 0 < sector_size }
    requires room { sector_size ≤ size }
    ensures { result ≡ (size / sector_size - 1) * sector_size }
{
    (size / sector_size - 1) * sector_size
}
