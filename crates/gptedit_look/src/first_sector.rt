//! The MBR in the first 512 bytes of a disk.

ghost use Rattle.std.specs.Prelude.{◌≡◌, ◌≢◌, ◌≤◌, ◌<◌, ℕ, false, get_or, IfOk, IsTrue};
ghost use Rattle.gptedit_look.specs.FirstSector.{IsVacant};
ghost use Rattle.gptedit_look.specs.Protective.{start_of, IsMisfit, IsOnlyProtective};
ghost use Rattle.gptedit_look.specs.declared.first_sector.MbrKind.TheVariants.{None as Empty};
ghost use Rattle.gptman.specs.Answers.{HasCause};
ghost use Rattle.gptman.specs.Disk.{Reads};

use crate::blocks::{byte_at, has_at, read_block, u16_at, u32_at};
use crate::protective::{find_misfit, starts_elsewhere};
use gptman::{Disk, Result};
use std::alloc::{AllocError, Global};

/// The length of an MBR in bytes.
pub const MBR_LENGTH: u64 = 512;

// The offsets of its four entries.
const ENTRIES: [usize; 4] = [446, 462, 478, 494];

// The type of a protective entry.
const PROTECTIVE: u8 = 0xee;

/// The kind of an MBR.
#[derive(Clone, Copy, PartialEq, Eq)]
pub enum MbrKind {
    /// No 55 AA; or all bytes of the entries are zero, and there is no FAT, exFAT or NTFS boot sector.
    None,
    /// 55 AA without an MBR, as in the boot sector of a file system.
    Other,
    /// Protective entries only, one or more.
    Protective,
    /// Protective and other entries.
    Hybrid,
    /// Entries, none of them protective.
    Dos,
}

/// An entry of an MBR that is not protective.
#[derive(Clone, Copy, PartialEq, Eq)]
pub struct Listed {
    /// Its number, from 1 to 4.
    pub number: u8,
    /// Its type.
    pub kind: u8,
    /// Its first sector.
    pub first: u64,
    /// Its length in sectors.
    pub sectors: u64,
}

/// The MBR of a disk.
#[derive(Drop)]
pub struct FirstSector {
    /// Its kind.
    pub kind: MbrKind,
    /// False if the only entry is protective, starts on the disk, and has a wrong length: neither one that ends with
    /// the disk nor `0xFFFFFFFF`.
    pub is_length_right: bool,
    /// False if the only entry is protective and does not start in sector 1.
    pub is_start_right: bool,
    /// The number of protective entries.
    pub protective_count: u8,
    /// Whether an entry is marked as bootable.
    pub is_bootable: bool,
    /// The used entries that are not protective.
    pub listed: Vec<Listed>,
}

// An entry as stored on the disk.
#[derive(Clone, Copy)]
struct Entry {
    number: u8,
    mark: u8,
    kind: u8,
    first: u32,
    sectors: u32,
}

impl Entry {
    // Decodes the entry at offset `at`. Missing bytes are 0.
    fn decode(bytes: &[u8], number: u8, at: usize) -> Entry {
        Entry {
            number,
            mark: bytes.get(at).copied().unwrap_or(0),
            kind: bytes.get(at.saturating_add(4)).copied().unwrap_or(0),
            first: u32_at(bytes, at.saturating_add(8)),
            sectors: u32_at(bytes, at.saturating_add(12)),
        }
    }

    // Reports whether the boot mark is valid.
    fn has_mark(self) -> bool {
        self.mark == 0 || self.mark == 0x80
    }

    fn is_protective(self) -> bool {
        self.kind == PROTECTIVE
    }

    // Reports whether the entry describes a partition.
    fn is_used(self) -> bool {
        self.kind != 0 && self.sectors != 0
    }
}

/// Reads the MBR of a disk with sectors of `sector_size` bytes.
///
/// # Errors
/// `Io` if the disk fails, `OutOfMemory` if an allocation fails.
#[tactic(auto, using(gptman::proofs::Readers::both_read, gptman::proofs::Runs::rose_since))]
pub fn read_first_sector<D: Disk>(
    alloc: Global,
    disk: &mut D,
    sector_size: u64,
) -> Result<FirstSector>
    ensures reads { Reads (D.state disk.old) (D.state disk.new) }
    ensures cause { HasCause result (D.state disk.old) (D.state disk.new) }
{
    let size = disk.seek_end()?;
    let bytes = read_block(alloc, disk, 0, MBR_LENGTH)?;
    let sectors = size.checked_div(sector_size).unwrap_or(0);
    Ok(decode(alloc, &bytes, sectors)?)
}

/// Decodes the first 512 bytes of a disk with `sectors` sectors. Fails only if an allocation fails.
pub fn decode(
    alloc: Global,
    bytes: &[u8],
    sectors: u64,
) -> std::result::Result<FirstSector, AllocError>
    ensures vacant { IfOk result (λ first. first.kind ≡ Empty → IsVacant bytes.now) }
    ensures fits { IfOk result (λ first. IsTrue first.is_length_right → (i : ℕ)
        → ¬ IsMisfit false bytes.now sectors i) }
    ensures misfit { IfOk result (λ first. (i : ℕ) → IsMisfit false bytes.now sectors i
        → first.is_length_right ≡ false) }
    ensures starts { IfOk result (λ first. IsTrue first.is_start_right → (i : ℕ)
        → IsOnlyProtective bytes.now i → start_of bytes.now i ≡ 1) }
    ensures elsewhere { IfOk result (λ first. first.is_start_right ≡ false
        → (i : ℕ) × IsOnlyProtective bytes.now i × (start_of bytes.now i ≢ 1)) }
{
    let entries = decode_entries(bytes);
    let mut listed = Vec::new(alloc);
    let kind = kind_of(bytes, &entries);
    let mut protective_count = 0u8;
    if has_entries(kind) {
        for entry in entries {
            if entry.is_protective() {
                protective_count = protective_count.saturating_add(1);
            } else if entry.is_used() {
                listed.push(listed_of(entry))?;
            }
        }
    }
    Ok(FirstSector {
        kind,
        is_length_right: has_right_length(bytes, sectors),
        is_start_right: !starts_elsewhere(bytes),
        protective_count,
        is_bootable: has_entries(kind) && entries.iter().any(|entry| entry.mark == 0x80),
        listed,
    })
}

// Reports whether an MBR of this kind has entries.
fn has_entries(kind: MbrKind) -> bool {
    !matches!(kind, MbrKind::None | MbrKind::Other)
}

fn decode_entries(bytes: &[u8]) -> [Entry; 4] {
    let [a, b, c, d] = ENTRIES;
    [
        Entry::decode(bytes, 1, a),
        Entry::decode(bytes, 2, b),
        Entry::decode(bytes, 3, c),
        Entry::decode(bytes, 4, d),
    ]
}

fn listed_of(entry: Entry) -> Listed {
    Listed {
        number: entry.number,
        kind: entry.kind,
        first: u64::from(entry.first),
        sectors: u64::from(entry.sectors),
    }
}

// Reports whether no entry has a wrong length, as `find_misfit` defines it.
fn has_right_length(bytes: &[u8], sectors: u64) -> bool
    ensures fits { IsTrue result → (i : ℕ) → ¬ IsMisfit false bytes.now sectors i }
    ensures misfit { (i : ℕ) → IsMisfit false bytes.now sectors i → result ≡ false }
{
    find_misfit(bytes, sectors, false).is_none()
}

fn kind_of(bytes: &[u8], entries: &[Entry; 4]) -> MbrKind
    ensures { result ≡ Empty → IsVacant bytes.now }
{
    if byte_at(bytes, 510) != 0x55 || byte_at(bytes, 511) != 0xaa {
        return MbrKind::None;
    }
    let has_protective = entries.iter().any(|entry| entry.is_protective());
    let has_others = entries
        .iter()
        .any(|entry| entry.is_used() && !entry.is_protective());
    match (has_protective, has_others) {
        (true, false) => MbrKind::Protective,
        (true, true) => MbrKind::Hybrid,
        (false, true) if is_partitioned(bytes, entries) => MbrKind::Dos,
        _ if is_empty(bytes) => MbrKind::None,
        _ => MbrKind::Other,
    }
}

/// Reports whether all bytes of the entries are zero, and this is not a boot sector.
pub fn is_empty(bytes: &[u8]) -> bool
    ensures { IsTrue result → (k : ℕ) → 446 ≤ k → k < 510 → get_or bytes.now k 0 ≡ 0 }
{
    are_zero(bytes, 446, 510) && !is_boot_sector(bytes)
}

// Reports whether the bytes from `first` to `end`, exclusive, are zero. Missing bytes are 0.
fn are_zero(bytes: &[u8], first: usize, end: usize) -> bool
    ensures { IsTrue result → (k : ℕ) → first ≤ k → k < end → get_or bytes.now k 0 ≡ 0 }
{
    for at in first..end {
        if byte_at(bytes, at) != 0 {
            return false;
        }
    }
    true
}

// Reports whether the entries are not boot code: all boot marks are valid, and this is not a boot sector.
fn is_partitioned(bytes: &[u8], entries: &[Entry; 4]) -> bool {
    entries.iter().all(|entry| entry.has_mark()) && !is_boot_sector(bytes)
}

/// Reports whether these are the first bytes of a FAT, exFAT or NTFS file system.
pub fn is_boot_sector(bytes: &[u8]) -> bool {
    is_ntfs_or_exfat(bytes) || is_fat(bytes)
}

fn is_ntfs_or_exfat(bytes: &[u8]) -> bool {
    has_jump(bytes) && (has_at(bytes, 3, b"NTFS    ") || has_at(bytes, 3, b"EXFAT   "))
}

// Reports whether a jump is first, and the text or the parameters of a FAT file system follow.
fn is_fat(bytes: &[u8]) -> bool {
    has_jump(bytes) && (has_fat_text(bytes) || has_fat_parameters(bytes))
}

fn has_jump(bytes: &[u8]) -> bool {
    has_at(bytes, 0, &[0xe9]) || has_at(bytes, 0, &[0xeb])
}

fn has_fat_text(bytes: &[u8]) -> bool {
    has_at(bytes, 54, b"FAT12   ")
        || has_at(bytes, 54, b"FAT16   ")
        || has_at(bytes, 54, b"FAT     ")
        || has_at(bytes, 82, b"FAT32   ")
}

// Reports whether the numbers after the jump are those of a FAT file system.
fn has_fat_parameters(bytes: &[u8]) -> bool {
    let sector_size = u16_at(bytes, 11);
    let cluster = bytes.get(13).copied().unwrap_or(0);
    let tables = bytes.get(16).copied().unwrap_or(0);
    let media = bytes.get(21).copied().unwrap_or(0);
    matches!(sector_size, 512 | 1024 | 2048 | 4096)
        && matches!(cluster, 1 | 2 | 4 | 8 | 16 | 32 | 64 | 128)
        && u16_at(bytes, 14) != 0
        && (tables == 1 || tables == 2)
        && (media == 0xf0 || media >= 0xf8)
}
