//! Reads pieces of a range of the disk.

ghost use Rattle.std.specs.Prelude.{◌≡◌, ◌≤◌, ◌+◌};
ghost use Rattle.gptman.specs.Answers.{HasCause};
ghost use Rattle.gptman.specs.Disk.{Reads};

use gptedit_formats::contents::Piece;
use gptman::Disk;
use std::alloc::Global;

// The maximum length of a piece in bytes.
const GREATEST: u64 = 128 << 10;

/// The range of the disk that is searched: its first byte, and the byte after the last.
#[derive(Clone, Copy)]
pub struct Span {
    pub start: u64,
    pub end: u64,
}

impl Span {
    /// Returns the length in bytes.
    pub fn length(&self) -> u64 {
        self.end.saturating_sub(self.start)
    }
}

/// Reads at most `most` bytes of the range from its byte `at`, fewer if the range ends before.
pub fn read_piece<D: Disk>(
    alloc: Global,
    disk: &mut D,
    span: &Span,
    at: u64,
    most: u64,
) -> gptman::Result<Piece>
    requires { span.now.end ≤ (D.state disk.old).size }
    ensures reads { Reads (D.state disk.old) (D.state disk.new) }
    ensures cause { HasCause result (D.state disk.old) (D.state disk.new) }
{
    let start = span.start.saturating_add(at).min(span.end);
    let length = (span.end - start).min(most).min(GREATEST);
    let bytes = read_bytes(alloc, disk, start, length)?;
    Ok(Piece::new(at, bytes))
}

#[tactic(auto, using(gptman::proofs::Readers::both_read, gptman::proofs::Runs::rose_since))]
fn read_bytes<D: Disk>(
    alloc: Global,
    disk: &mut D,
    start: u64,
    length: u64,
) -> gptman::Result<Vec<u8>>
    requires { start + length ≤ (D.state disk.old).size }
    ensures reads { Reads (D.state disk.old) (D.state disk.new) }
    ensures cause { HasCause result (D.state disk.old) (D.state disk.new) }
{
    disk.seek_start(start)?;
    let mut bytes = vec![in alloc; 0; length as usize]?;
    disk.read_exact(&mut bytes)?;
    Ok(bytes)
}
