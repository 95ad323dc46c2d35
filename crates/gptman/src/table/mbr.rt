//! The protective MBR: 66 of the first 512 bytes, which present the whole disk as one partition to programs
//! that do not know GPT.

ghost use Rattle.std.specs.Prelude.{◌≡◌, ◌≤◌, ◌<◌, ◌∷◌, [], true, false, IfOk};
ghost use Rattle.gptman.specs.Answers.{refusal_of, FailsPending, RefusesUntouched, ReportsFailure};
ghost use Rattle.gptman_disk.specs.Disk.{Keeps, Writes};
ghost use Rattle.gptman.specs.Mbr.{mbr_bytes, mbr_fault, mbr_range, AnswersMbr, WritesMbr};

use crate::cells::{put, put_u32};
use crate::table::GPT;
use crate::{Disk, Error, Result};

// The first of the 66 bytes.
const MBR_START: u64 = 446;

// The byte after them.
const MBR_END: u64 = 512;

impl GPT {
    /// Writes a protective MBR: only the 66 bytes from byte 446 of the disk on. Its partition begins at sector
    /// 1 and has all whole sectors from there on, at most 0xFFFFFFFF. `sector_size` is in bytes, and must be
    /// above 0; if it is 512 or more, the 66 bytes are in sector 0. Does not sync or allocate. The layout is
    /// that of a master boot record: four partition slots of 16 bytes from byte 446 on, and 55 aa.
    ///
    /// # Errors
    /// `Io` if the disk's length cannot be determined, then `Overflow` if the disk is shorter than a sector,
    /// then `NoSpaceLeft` if it is shorter than 512 bytes; nothing is written. Then `Io` if the seek or the
    /// write fails: nothing was written, or the 66 bytes are unsynced.
    pub fn write_protective_mbr_into<D: Disk>(disk: &mut D, sector_size: u64) -> Result<()>
        requires { 0 < sector_size }
        ensures keeps { Keeps (D.state disk.old) (D.state disk.new) }
        ensures failure { ReportsFailure result (D.state disk.old) (D.state disk.new) }
        ensures answer { AnswersMbr sector_size result (D.state disk.old) (D.state disk.new) }
        ensures wrote { Writes (mbr_range ∷ []) (D.state disk.old) (D.state disk.new) }
        ensures contents { WritesMbr false sector_size result (D.state disk.old) (D.state disk.new) }
        ensures untouched { RefusesUntouched result (D.state disk.old) (D.state disk.new) }
        ensures failed { FailsPending mbr_range result (D.state disk.old) (D.state disk.new) }
    {
        write_mbr(disk, sector_size, false)
    }

    /// Writes a protective MBR as `write_protective_mbr_into` does, with the same errors, but marks its
    /// partition as bootable: byte 446 is 0x80.
    pub fn write_bootable_protective_mbr_into<D: Disk>(disk: &mut D, sector_size: u64) -> Result<()>
        requires { 0 < sector_size }
        ensures keeps { Keeps (D.state disk.old) (D.state disk.new) }
        ensures failure { ReportsFailure result (D.state disk.old) (D.state disk.new) }
        ensures answer { AnswersMbr sector_size result (D.state disk.old) (D.state disk.new) }
        ensures wrote { Writes (mbr_range ∷ []) (D.state disk.old) (D.state disk.new) }
        ensures contents { WritesMbr true sector_size result (D.state disk.old) (D.state disk.new) }
        ensures untouched { RefusesUntouched result (D.state disk.old) (D.state disk.new) }
        ensures failed { FailsPending mbr_range result (D.state disk.old) (D.state disk.new) }
    {
        write_mbr(disk, sector_size, true)
    }
}

// Writes a protective MBR.
fn write_mbr<D: Disk>(disk: &mut D, sector_size: u64, bootable: bool) -> Result<()>
    requires { 0 < sector_size }
    ensures keeps { Keeps (D.state disk.old) (D.state disk.new) }
    ensures failure { ReportsFailure result (D.state disk.old) (D.state disk.new) }
    ensures answer { AnswersMbr sector_size result (D.state disk.old) (D.state disk.new) }
    ensures wrote { Writes (mbr_range ∷ []) (D.state disk.old) (D.state disk.new) }
    ensures contents { WritesMbr bootable sector_size result (D.state disk.old) (D.state disk.new) }
    ensures untouched { RefusesUntouched result (D.state disk.old) (D.state disk.new) }
    ensures failed { FailsPending mbr_range result (D.state disk.old) (D.state disk.new) }
{
    let size = disk.seek_end()?;
    let bytes = protective_mbr(sector_size, size, bootable)?;
    disk.seek_start(MBR_START)?;
    disk.write_all(&bytes)?;
    Ok(())
}

/// Returns the 66 bytes of a protective MBR for a disk of `size` bytes, to be written from byte 446 on.
/// `bootable` marks its partition. `sector_size` is in bytes, and must be above 0.
///
/// `Overflow` if the disk is shorter than a sector, then `NoSpaceLeft` if it is shorter than 512 bytes.
pub fn protective_mbr(sector_size: u64, size: u64, bootable: bool) -> Result<[u8; 66]>
    requires { 0 < sector_size }
    ensures answer { refusal_of result ≡ mbr_fault sector_size size }
    ensures bytes { IfOk result (λ bytes. bytes ≡ mbr_bytes bootable sector_size size) }
{
    if size < sector_size {
        return Err(Error::Overflow);
    }
    if size < MBR_END {
        return Err(Error::NoSpaceLeft);
    }
    Ok(mbr_bytes(bootable, sector_size, size))
}

// Returns the bytes of a protective MBR for a disk of at least one sector.
fn mbr_bytes(bootable: bool, sector_size: u64, size: u64) -> [u8; 66]
    requires sector { 0 < sector_size }
    requires room { sector_size ≤ size }
    ensures { result ≡ mbr_bytes bootable sector_size size }
{
    let status = if bootable { 0x80 } else { 0 };
    let sectors = (size / sector_size - 1).min(u64::from(u32::MAX));
    let mut bytes = [0; 66];
    put(&mut bytes, 0, &[status, 0, 2, 0, 0xee, 0xff, 0xff, 0xff]);
    put_u32(&mut bytes, 8, 1);
    put_u32(&mut bytes, 12, sectors as u32);
    put(&mut bytes, 64, &[0x55, 0xaa]);
    bytes
}
