//! Header fields as stored on the disk, without validation.

ghost use Rattle.std.specs.Prelude.{◌≡◌, ◌≤◌, ◌+◌, IfOk};
ghost use Rattle.gptman.specs.Answers.{HasCause};
ghost use Rattle.gptman.specs.Disk.{IsHonest, Reads};
ghost use Rattle.gptman.specs.Bytes.{part as bytes_at};
ghost use Rattle.gptman.specs.Coding.{header_of};
ghost use Rattle.gptedit_look.specs.Seen.{header_at, raw_of, IsRawOf, IsSeenAt};

use crate::bytes::HEADER_SIZE;
use crate::signatures::{HeaderPlace, SIGNATURE, place_at};
use gptman::{Disk, GPTHeader, Result};

/// The fields of a header that begins with `EFI PART`, valid or not.
#[derive(Clone, Copy, PartialEq, Eq)]
pub struct RawHeader {
    /// Its first byte on the disk.
    pub at: u64,
    /// `Revision`.
    pub revision: [u8; 4],
    /// `HeaderSize`.
    pub header_size: u32,
    /// `MyLBA`: the sector of this header.
    pub my_lba: u64,
    /// `AlternateLBA`: the sector of the other header.
    pub other_lba: u64,
    /// `FirstUsableLBA`.
    pub first_usable_lba: u64,
    /// `LastUsableLBA`.
    pub last_usable_lba: u64,
    /// `DiskGUID`.
    pub disk_guid: [u8; 16],
    /// `PartitionEntryLBA`.
    pub entries_lba: u64,
    /// `NumberOfPartitionEntries`.
    pub count: u32,
    /// `SizeOfPartitionEntry`.
    pub entry_size: u32,
}

impl RawHeader {
    fn of(at: u64, header: &GPTHeader) -> RawHeader
        ensures { result ≡ raw_of at header.now }
    {
        RawHeader {
            at,
            revision: header.revision,
            header_size: header.header_size,
            my_lba: header.primary_lba,
            other_lba: header.backup_lba,
            first_usable_lba: header.first_usable_lba,
            last_usable_lba: header.last_usable_lba,
            disk_guid: header.disk_guid,
            entries_lba: header.partition_entry_lba,
            count: header.number_of_partition_entries,
            entry_size: header.size_of_partition_entry,
        }
    }
}

/// Reads the header at this place, if it begins with `EFI PART`.
///
/// # Errors
/// `Io` if the disk fails.
#[tactic(auto, using(gptman::proofs::Readers::both_read, gptman::proofs::Runs::rose_since))]
pub fn read_raw_header<D: Disk>(
    disk: &mut D,
    sector_size: u64,
    place: HeaderPlace,
) -> Result<Option<RawHeader>>
    ensures reads { Reads (D.state disk.old) (D.state disk.new) }
    ensures cause { HasCause result (D.state disk.old) (D.state disk.new) }
{
    let size = disk.seek_end()?;
    match place_at(place, sector_size, size) {
        Some(at) => read_raw_header_at(disk, at),
        None => Ok(None),
    }
}

/// Reads the header at byte `at`, if it begins with `EFI PART` and does not pass the end of the disk.
///
/// # Errors
/// `Io` if the disk fails.
#[tactic(auto, using(gptman::proofs::Readers::both_read, gptman::proofs::Runs::rose_since))]
pub fn read_raw_header_at<D: Disk>(disk: &mut D, at: u64) -> Result<Option<RawHeader>>
    ensures reads { Reads (D.state disk.old) (D.state disk.new) }
    ensures cause { HasCause result (D.state disk.old) (D.state disk.new) }

    // A header is returned exactly if there is one, with the fields on the disk.
    ensures seen { IsHonest (D.state disk.old) → IfOk result (IsSeenAt (D.state disk.old) at) }
{
    let size = disk.seek_end()?;
    if at > size || size - at < HEADER_SIZE {
        return Ok(None);
    }
    read_inside(disk, at)
}

// Reads a header that does not pass the end of the disk.
fn read_inside<D: Disk>(disk: &mut D, at: u64) -> Result<Option<RawHeader>>
    requires { at + 92 ≤ (D.state disk.old).size }
    ensures reads { Reads (D.state disk.old) (D.state disk.new) }
    ensures cause { HasCause result (D.state disk.old) (D.state disk.new) }
    ensures seen { IsHonest (D.state disk.old)
        → IfOk result (IsRawOf at (header_at (D.state disk.old) at)) }
{
    let header = read_header(disk, at)?;
    Ok(raw_of(at, &header))
}

// Returns the fields of this header, if it begins with `EFI PART`.
fn raw_of(at: u64, header: &GPTHeader) -> Option<RawHeader>
    ensures { IsRawOf at header.now result }
{
    if header.signature == SIGNATURE {
        Some(RawHeader::of(at, header))
    } else {
        None
    }
}

// Reads and decodes the header at this byte.
#[tactic(auto, using(gptman::proofs::Readers::both_read, gptman::proofs::Runs::rose_since))]
fn read_header<D: Disk>(disk: &mut D, at: u64) -> Result<GPTHeader>
    requires { at + 92 ≤ (D.state disk.old).size }
    ensures reads { Reads (D.state disk.old) (D.state disk.new) }
    ensures cause { HasCause result (D.state disk.old) (D.state disk.new) }
    ensures value { IsHonest (D.state disk.old)
        → IfOk result (λ header. header ≡ header_of (bytes_at (D.state disk.old).view at 92)) }
{
    let bytes = read_bytes(disk, at)?;
    Ok(decoded(&bytes))
}

#[tactic(auto, using(gptman::proofs::HeaderBytes::header_is))]
fn decoded(bytes: &[u8; 92]) -> GPTHeader
    ensures { result ≡ header_of bytes.now }
{
    GPTHeader::decode(bytes)
}

#[tactic(auto, using(gptman::proofs::Readers::both_read, gptman::proofs::Runs::rose_since))]
fn read_bytes<D: Disk>(disk: &mut D, at: u64) -> Result<[u8; 92]>
    requires { at + 92 ≤ (D.state disk.old).size }
    ensures reads { Reads (D.state disk.old) (D.state disk.new) }
    ensures cause { HasCause result (D.state disk.old) (D.state disk.new) }
    ensures value { IsHonest (D.state disk.old)
        → IfOk result (λ bytes. bytes ≡ bytes_at (D.state disk.old).view at 92) }
{
    let mut bytes = [0; 92];
    disk.seek_start(at)?;
    disk.read_exact(&mut bytes)?;
    Ok(bytes)
}
