//! Writing zeros.

ghost use Rattle.std.specs.Prelude.{◌≤◌, ◌+◌, [], ◌∷◌, IfErr, OnOk};
ghost use Rattle.gptman.specs.Answers.{IsFailure};
ghost use Rattle.gptman.specs.Disk.{IsHonest, Keeps, Writes};
ghost use Rattle.gptman.specs.Fault.{fault_of};
ghost use Rattle.gptedit_look.specs.Wiped.{AreZeros};

use gptman::{Disk, Result};

// The maximum number of bytes per write.
const BLOCK: u64 = 512;

/// A range of bytes to fill with zeros.
#[derive(Clone, Copy, PartialEq, Eq)]
pub struct Zeroed {
    /// Its first byte.
    pub start: u64,
    /// Its length in bytes.
    pub length: u64,
}

/// Writes zeros over the range, up to the end of the disk. Does not sync.
///
/// # Errors
/// `Io` if the disk fails.
pub fn put_zeros<D: Disk>(disk: &mut D, range: Zeroed) -> Result<()>
    ensures keeps { Keeps (D.state disk.old) (D.state disk.new) }
    ensures failed { IfErr result (λ e. IsFailure (fault_of e) (D.state disk.old) (D.state disk.new)) }
    ensures wrote { Writes ((range.start, range.length) ∷ []) (D.state disk.old) (D.state disk.new) }
    ensures zeros { IsHonest (D.state disk.old)
        → OnOk result (AreZeros range.start range.length (D.state disk.new).view) }
{
    let size = disk.seek_end()?;
    let end = range.start.saturating_add(range.length).min(size);
    let mut at = range.start;
    while at < end {
        let count = (end - at).min(BLOCK);
        put_block(disk, at, count)?;
        at += count;
    }
    Ok(())
}

// Writes `count` zeros, at most 512, from byte `at`.
fn put_block<D: Disk>(disk: &mut D, at: u64, count: u64) -> Result<()>
    requires few { count ≤ 512 }
    requires room { at + count ≤ (D.state disk.old).size }
    ensures keeps { Keeps (D.state disk.old) (D.state disk.new) }
    ensures failed { IfErr result (λ e. IsFailure (fault_of e) (D.state disk.old) (D.state disk.new)) }
    ensures wrote { Writes ((at, count) ∷ []) (D.state disk.old) (D.state disk.new) }
    ensures zeros { IsHonest (D.state disk.old) → OnOk result (AreZeros at count (D.state disk.new).view) }
{
    let zeros = [0; 512];
    disk.seek_start(at)?;
    disk.write_all(&zeros[..count as usize])?;
    Ok(())
}
