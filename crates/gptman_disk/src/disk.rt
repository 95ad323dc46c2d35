//! The trait `Disk`: bytes of a fixed length that are read, written and synced.
//!
//! Until a sync succeeds, a write may be lost, torn or kept in part. The contracts say what a read returns, and what a
//! crash at any moment may leave.

ghost use Rattle.std.specs.Prelude.{◌≡◌, ◌≤◌, ◌<◌, ◌^◌, ◌+◌, ◌⊎◌, ◌↔◌, [], ◌∷◌, length, IfOk, OnOk, OnErr};
ghost use Rattle.std.specs.Prelude.{IsErr, IsTrue};
ghost use Rattle.std.specs.IoError.{error_kind};
ghost use Rattle.std.specs.declared.io.ErrorKind.TheVariants.{UnexpectedEof};
ghost use Rattle.gptman_disk.specs.Disk.{next_bytes, next_range, CoverTheSame, DiskState, HasFailedAsOften};
ghost use Rattle.gptman_disk.specs.Disk.{HasFailedOnce, HasNext, HasOverwritten, IsCountedOnce, IsHonest, IsSound};
ghost use Rattle.gptman_disk.specs.Disk.{IsPositionedAt, Keeps, MayHaveWritten, Moves, PassesEnd, Reads, Writes};

use std::io;

pub mod faulty;
pub mod file;
pub mod long;
pub mod memory;
pub mod plain;

/// A disk of a fixed length in bytes, with a position at which it reads and writes.
///
/// An honest disk returns what was written to it, and loses nothing that was synced. For any other disk only the
/// length, the position and the count of failures are specified.
///
/// To implement it, use `passes_end`, `past_end` and `count_failure`.
pub trait Disk {
    /// The state of the disk, as contracts see it.
    ghost state: { Self → DiskState };

    /// Moves the position to byte `at`, counted from 0, which may be past the end. Returns `at`.
    ///
    /// # Errors
    ///
    /// Only if the device failed.
    fn seek_start(&mut self, at: u64) -> io::Result<u64>
        ensures reads { Reads (state self.old) (state self.new) }
        ensures answer { IfOk result (IsPositionedAt (state self.new) at) }
        ensures counts { OnOk result (HasFailedAsOften (state self.old) (state self.new)) }
        ensures once { OnErr result (HasFailedOnce (state self.old) (state self.new)) };

    /// Moves the position to the end. Returns the length in bytes.
    ///
    /// # Errors
    ///
    /// Only if the device failed.
    fn seek_end(&mut self) -> io::Result<u64>
        ensures reads { Reads (state self.old) (state self.new) }
        ensures answer { IfOk result (IsPositionedAt (state self.new) (state self.old).size) }
        ensures counts { OnOk result (HasFailedAsOften (state self.old) (state self.new)) }
        ensures once { OnErr result (HasFailedOnce (state self.old) (state self.new)) };

    /// Fills `buf` with the bytes from the position, and moves the position past them.
    ///
    /// # Errors
    ///
    /// If the device failed, and always if the read passes the end. A read past the end is not counted as a failure of
    /// the device.
    fn read_exact(&mut self, buf: &mut [u8]) -> io::Result<()>
        ensures reads { Reads (state self.old) (state self.new) }
        ensures within { OnOk result (HasNext (state self.old) (length buf.old)) }
        ensures counts { OnOk result (HasFailedAsOften (state self.old) (state self.new)) }
        ensures once { OnErr result (HasFailedOnce (state self.old) (state self.new)
            ⊎ PassesEnd (state self.old) (length buf.old)) }
        ensures past_end { PassesEnd (state self.old) (length buf.old)
            → IsErr result × HasFailedAsOften (state self.old) (state self.new) }
        ensures value { IsHonest (state self.old)
            → OnOk result (buf.new ≡ next_bytes (state self.old) (length buf.old)) }
        ensures moves { OnOk result (Moves (state self.old) (state self.new) (length buf.old)) };

    /// Writes `buf` over the bytes from the position, and moves the position past it. Until a sync succeeds, a crash
    /// may leave any bytes in this range. A disk may merge the range with others that are not synced. The caller must
    /// ensure that the bytes do not pass the end of the disk.
    ///
    /// # Errors
    ///
    /// Only if the device failed. Then nothing is written, or the range may hold any bytes.
    fn write_all(&mut self, buf: &[u8]) -> io::Result<()>
        requires { HasNext (state self.old) (length buf.now) }
        ensures keeps { Keeps (state self.old) (state self.new) }
        ensures counts { OnOk result (HasFailedAsOften (state self.old) (state self.new)) }
        ensures once { OnErr result (HasFailedOnce (state self.old) (state self.new)) }
        ensures moves { OnOk result (Moves (state self.old) (state self.new) (length buf.now)) }
        ensures wrote { Writes (next_range (state self.old) (length buf.now) ∷ [])
            (state self.old) (state self.new) }
        ensures contents { IsHonest (state self.old)
            → OnOk result (HasOverwritten buf.now (state self.old) (state self.new)) }
        ensures failed { IsHonest (state self.old)
            → OnErr result (MayHaveWritten (length buf.now) (state self.old) (state self.new)) };

    /// Syncs all that was written. After it, a crash leaves what a read returns.
    ///
    /// # Errors
    ///
    /// Only if the device failed. Then what was written may still be lost.
    fn sync(&mut self) -> io::Result<()>
        ensures keeps { Keeps (state self.old) (state self.new) }
        ensures counts { OnOk result (HasFailedAsOften (state self.old) (state self.new)) }
        ensures once { OnErr result (HasFailedOnce (state self.old) (state self.new)) }
        ensures stays { OnOk result ((state self.new).position ≡ (state self.old).position) }
        ensures wrote { Writes [] (state self.old) (state self.new) }
        ensures view { IsHonest (state self.old) → (state self.new).view ≡ (state self.old).view }
        ensures synced { IsHonest (state self.old) → OnOk result ((state self.new).pending ≡ []) }
        ensures failed { IsHonest (state self.old)
            → OnErr result (CoverTheSame (state self.new).pending (state self.old).pending) };

    /// The length of a disk is below 2^64 bytes.
    ghost bounded: { (disk : Self) → (state disk).size < 2 ^ 64 };

    /// The laws of an honest disk: what a crash may leave now counts as left since any earlier moment, and since now
    /// nothing more.
    ghost sound: { (disk : Self) → IsHonest (state disk) → IsSound (state disk) };
}

/// Reports whether `len` bytes from `position` pass the end of a disk of `size` bytes.
pub fn passes_end(size: u64, position: u64, len: u64) -> bool
    ensures { IsTrue result ↔ (size < position + len) }
{
    position > size || len > size - position
}

/// Returns the error of a read that passes the end, which is not counted as a failure of the device.
pub fn past_end() -> io::Error
    ensures kind { error_kind result ≡ UnexpectedEof }
{
    io::Error::new(io::ErrorKind::UnexpectedEof, "past the end")
}

/// Adds one to the count of failures, which stops at 2^64 - 1.
pub fn count_failure(failures: &mut u64)
    ensures once { IsCountedOnce failures.old failures.new }
{
    *failures = failures.saturating_add(1);
}
