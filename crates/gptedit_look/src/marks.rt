//! Finds contents on the disk: file systems, members of arrays, image formats, footers.
//!
//! Only reads. Does not recognise GPT or the MBR.

ghost use Rattle.std.specs.Prelude.{◌≡◌, ◌≤◌, ◌<◌, All, IfOk, IfSome};
ghost use Rattle.gptman.specs.Answers.{HasCause};
ghost use Rattle.gptman.specs.Disk.{Reads};

mod piece;

use crate::marks::piece::{Span, read_piece};
use gptedit_formats::contents::{Found, Piece, find_in_first, find_in_last, find_in_next, formats};
use gptman::Disk;
use std::alloc::{AllocError, Global};

/// Contents recognised by their bytes.
#[derive(Clone, Copy)]
pub struct Content {
    /// A name for use in a sentence: "an XFS file system".
    pub name: &'static str,
    /// The first byte on the disk.
    pub start: u64,
    /// The byte after the last, if the length is known.
    pub end: Option<u64>,
}

// The length of the first piece in bytes.
const FIRST: u64 = 68 << 10;

// The length of the last piece in bytes.
const LAST: u64 = 128 << 10;

/// Returns the contents recognised between bytes `start` and `end` of the disk: the whole disk, or one partition. The
/// range is searched as if it were a disk.
///
/// # Errors
/// `Io` if the disk fails, `OutOfMemory` if an allocation fails.
#[tactic(auto, using(gptman::proofs::Readers::both_read, gptman::proofs::Runs::rose_since))]
pub fn find_contents<D: Disk>(
    alloc: Global,
    disk: &mut D,
    start: u64,
    end: u64,
) -> gptman::Result<Vec<Content>>
    ensures reads { Reads (D.state disk.old) (D.state disk.new) }
    ensures cause { HasCause result (D.state disk.old) (D.state disk.new) }
    ensures within { IfOk result (λ v. All (λ c. (start ≤ c.start) × (c.start < end)) v.items) }
{
    let size = disk.seek_end()?;
    let span = Span {
        start,
        end: end.min(size),
    };
    let found = find_all(alloc, disk, &span)?;
    Ok(place(alloc, found.as_slice(), start, end)?)
}

#[tactic(auto, using(gptman::proofs::Readers::both_read, gptman::proofs::Runs::rose_since))]
fn find_all<D: Disk>(alloc: Global, disk: &mut D, span: &Span) -> gptman::Result<Vec<Found>>
    requires { span.now.end ≤ (D.state disk.old).size }
    ensures reads { Reads (D.state disk.old) (D.state disk.new) }
    ensures cause { HasCause result (D.state disk.old) (D.state disk.new) }
{
    let mut found = Vec::new(alloc);
    let length = span.length();
    let first = read_piece(alloc, disk, span, 0, FIRST)?;
    find_in_first(&first, &mut found)?;
    if length <= FIRST {
        // The first piece is the whole range.
        find_in_last(&first, length, &mut found)?;
        return Ok(found);
    }
    find_far(alloc, disk, span, &mut found)?;
    let last = read_piece(alloc, disk, span, length.saturating_sub(LAST), LAST)?;
    find_in_last(&last, length, &mut found)?;
    Ok(found)
}

// Adds contents between the first piece and the last: at each power of two from 128 KiB to 4 MiB.
#[tactic(auto, using(gptman::proofs::Readers::both_read, gptman::proofs::Runs::rose_since))]
fn find_far<D: Disk>(
    alloc: Global,
    disk: &mut D,
    span: &Span,
    found: &mut Vec<Found>,
) -> gptman::Result<()>
    requires { span.now.end ≤ (D.state disk.old).size }
    ensures reads { Reads (D.state disk.old) (D.state disk.new) }
    ensures cause { HasCause result (D.state disk.old) (D.state disk.new) }
{
    find_at(alloc, disk, span, 128 << 10, 128 << 10, found)?;
    find_at(alloc, disk, span, 256 << 10, 2048, found)?;
    find_at(alloc, disk, span, 512 << 10, 512, found)?;
    find_farther(alloc, disk, span, found)
}

// Adds contents from 1 MiB on.
#[tactic(auto, using(gptman::proofs::Readers::both_read, gptman::proofs::Runs::rose_since))]
fn find_farther<D: Disk>(
    alloc: Global,
    disk: &mut D,
    span: &Span,
    found: &mut Vec<Found>,
) -> gptman::Result<()>
    requires { span.now.end ≤ (D.state disk.old).size }
    ensures reads { Reads (D.state disk.old) (D.state disk.new) }
    ensures cause { HasCause result (D.state disk.old) (D.state disk.new) }
{
    find_at(alloc, disk, span, 1 << 20, 512, found)?;
    find_at(alloc, disk, span, 2 << 20, 512, found)?;
    find_at(alloc, disk, span, 4 << 20, 512, found)
}

fn find_at<D: Disk>(
    alloc: Global,
    disk: &mut D,
    span: &Span,
    at: u64,
    most: u64,
    found: &mut Vec<Found>,
) -> gptman::Result<()>
    requires { span.now.end ≤ (D.state disk.old).size }
    ensures reads { Reads (D.state disk.old) (D.state disk.new) }
    ensures cause { HasCause result (D.state disk.old) (D.state disk.new) }
{
    let piece = read_piece(alloc, disk, span, at, most)?;
    find_in_next(&piece, found)?;
    Ok(())
}

// Returns the contents with their places on the disk.
fn place(alloc: Global, found: &[Found], start: u64, end: u64) -> Result<Vec<Content>, AllocError>
    ensures within { IfOk result (λ v. All (λ c. (start ≤ c.start) × (c.start < end)) v.items) }
{
    let mut contents = Vec::new(alloc);
    for one in found {
        let from = start.saturating_add(one.at);
        if from < end {
            contents.push(content_of(one, from))?;
        }
    }
    Ok(contents)
}

fn content_of(found: &Found, start: u64) -> Content
    ensures { result.start ≡ start }
{
    Content {
        name: found.name,
        start,
        end: end_of(found.length, start),
    }
}

// Returns the end for this length, if it fits in 64 bits.
fn end_of(length: Option<u64>, start: u64) -> Option<u64> {
    start.checked_add(length?)
}

/// Returns the image format of the disk, if the format does not store a disk byte for byte. The name of a compressed
/// image ends with "(compressed)".
///
/// # Errors
/// `Io` if the disk fails, `OutOfMemory` if an allocation fails.
#[tactic(auto, using(gptman::proofs::Readers::both_read, gptman::proofs::Runs::rose_since))]
pub fn find_format<D: Disk>(alloc: Global, disk: &mut D) -> gptman::Result<Option<&'static str>>
    ensures reads { Reads (D.state disk.old) (D.state disk.new) }
    ensures cause { HasCause result (D.state disk.old) (D.state disk.new) }
{
    let size = disk.seek_end()?;
    let span = Span {
        start: 0,
        end: size,
    };
    let first = read_piece(alloc, disk, &span, 0, 512)?;
    if let Some(name) = formats::find_first(&first) {
        return Ok(Some(name));
    }
    let last = read_piece(alloc, disk, &span, size.saturating_sub(512), 512)?;
    Ok(formats::find_last(&last, size))
}

/// Returns the footer at the end of the disk, if there is one: that of a fixed VHD, of 512 or 511 bytes.
///
/// # Errors
/// `Io` if the disk fails, `OutOfMemory` if an allocation fails.
#[tactic(auto, using(gptman::proofs::Readers::both_read, gptman::proofs::Runs::rose_since))]
pub fn find_footer<D: Disk>(alloc: Global, disk: &mut D) -> gptman::Result<Option<Content>>
    ensures reads { Reads (D.state disk.old) (D.state disk.new) }
    ensures cause { HasCause result (D.state disk.old) (D.state disk.new) }
    ensures there { IfOk result (λ footer. IfSome footer (λ c. c.start < (D.state disk.old).size)) }
{
    let size = disk.seek_end()?;
    let span = Span {
        start: 0,
        end: size,
    };
    let last = read_piece(alloc, disk, &span, size.saturating_sub(512), 512)?;
    Ok(footer_in(&last, size))
}

fn footer_in(piece: &Piece, size: u64) -> Option<Content>
    ensures { IfSome result (λ c. c.start < size) }
{
    let long = size.checked_sub(512)?;
    let start = if piece.has(long, b"conectix") {
        long
    } else if piece.has(long + 1, b"conectix") {
        long + 1
    } else {
        return None;
    };
    Some(Content {
        name: "the footer of a fixed VHD",
        start,
        end: Some(size),
    })
}
