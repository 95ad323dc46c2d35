//! Recognises a first sector with its own partitions: the partition table of DOS.

ghost use Rattle.std.specs.Prelude.{◌≡◌, ◌≢◌, ◌≤◌, ◌<◌, ◌⊎◌, ◌↔◌, ◌+◌, get_or, length, IsTrue};
ghost use Rattle.gptman_plan.specs.Dos.{AreMarked, AreUnprotected, HasBootMark, HasLength, HasUsed};
ghost use Rattle.gptman_plan.specs.Dos.{IsDosSector, IsSeen, IsUsedAt};

use crate::ends::Ends;
use crate::reader::EndsReader;
use crate::reading::{Lack, lack_of};

/// The kind of the first sector, or the range that decides it.
#[derive(Clone, Copy)]
pub enum Seen {
    Clear,
    DosDisk,
    Unknown(Lack),
}

/// Reports whether the first sector has its own partitions, if that is the same on every disk of this size with these
/// ends.
pub fn look_for_dos(ends: &Ends) -> Seen
    ensures { IsSeen ends.now result }
{
    if ends.size < 512 {
        return Seen::Clear;
    }
    if let Some(lack) = lack_of(ends, 0, 512) {
        return Seen::Unknown(lack);
    }
    let mut sector = [0u8; 512];
    let disk = EndsReader::new(ends);
    disk.fill(&mut sector);
    if is_dos_sector(&sector) {
        Seen::DosDisk
    } else {
        Seen::Clear
    }
}

// Reports whether these bytes of a first sector are an MBR with its own partitions.
fn is_dos_sector(sector: &[u8; 512]) -> bool
    ensures { IsTrue result ↔ IsDosSector sector.now }
{
    sector[510] == 0x55
        && sector[511] == 0xaa
        && are_marked(sector)
        && has_used(sector)
        && are_unprotected(sector)
}

fn are_marked(sector: &[u8; 512]) -> bool
    ensures { IsTrue result ↔ AreMarked sector.now }
{
    has_boot_mark(sector, 446)
        && has_boot_mark(sector, 462)
        && has_boot_mark(sector, 478)
        && has_boot_mark(sector, 494)
}

fn has_used(sector: &[u8; 512]) -> bool
    ensures { IsTrue result ↔ HasUsed sector.now }
{
    is_used_at(sector, 446)
        || is_used_at(sector, 462)
        || is_used_at(sector, 478)
        || is_used_at(sector, 494)
}

fn are_unprotected(sector: &[u8; 512]) -> bool
    ensures { IsTrue result ↔ AreUnprotected sector.now }
{
    sector[450] != 0xee && sector[466] != 0xee && sector[482] != 0xee && sector[498] != 0xee
}

fn has_boot_mark(sector: &[u8; 512], at: usize) -> bool
    requires { at + 16 ≤ 512 }
    ensures { IsTrue result ↔ HasBootMark sector.now at }
{
    sector[at] == 0 || sector[at] == 0x80
}

fn is_used_at(sector: &[u8; 512], at: usize) -> bool
    requires { at + 16 ≤ 512 }
    ensures { IsTrue result ↔ IsUsedAt sector.now at }
{
    sector[at + 4] != 0 && has_length(sector, at)
}

fn has_length(sector: &[u8; 512], at: usize) -> bool
    requires { at + 16 ≤ 512 }
    ensures { IsTrue result ↔ HasLength sector.now at }
{
    sector[at + 12] != 0 || sector[at + 13] != 0 || sector[at + 14] != 0 || sector[at + 15] != 0
}
