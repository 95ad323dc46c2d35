//! The start and the length of the protective entry of an MBR.

ghost use Rattle.std.specs.Prelude.{◌≡◌, ◌≢◌, ◌↔◌, ◌⊎◌, ◌<◌, ◌+◌, ◌*◌, ◌-◌, ℕ, min, IfNone, IfSome, IsTrue};
ghost use Rattle.gptedit_look.specs.Protective.{length_of, number_at, right_length, right_start, start_of, type_of, IsAskew, IsMisfit, IsOnlyProtective};

use crate::blocks::byte_at;

// The offset of the first entry.
const ENTRIES: usize = 446;

// The size of an entry in bytes.
const ENTRY_SIZE: usize = 16;

// The type of a protective entry.
const PROTECTIVE: u8 = 0xee;

/// A protective entry that is out of place, the only entry of its MBR.
#[derive(Clone, Copy, PartialEq, Eq)]
pub struct Misfit {
    /// The index of the entry, from 0 to 3.
    pub entry: usize,
    /// The right first sector.
    pub start: u32,
    /// The right length in sectors.
    pub length: u32,
}

/// Returns the only entry of an MBR if it is protective and out of place, on a disk of `sectors` sectors. The right
/// length ends with the disk; `0xFFFFFFFF` is always accepted. With `may_move` the right start is sector 1, else the one
/// that it has; an entry that does not start on the disk is not returned then.
pub fn find_misfit(bytes: &[u8], sectors: u64, may_move: bool) -> Option<Misfit>
    ensures found { IfSome result (λ misfit. IsMisfit may_move bytes.now sectors misfit.entry
        × (misfit.start ≡ right_start may_move bytes.now misfit.entry)
        × (misfit.length ≡ right_length may_move bytes.now sectors misfit.entry)) }
    ensures none { IfNone result ((i : ℕ) → ¬ IsMisfit may_move bytes.now sectors i) }
{
    let entry = find_only(bytes)?;
    place_of(bytes, sectors, may_move, entry)
}

/// Reports whether the only entry of an MBR is protective and starts elsewhere than in sector 1. Linux and EDK II find
/// no table on such a disk.
pub fn starts_elsewhere(bytes: &[u8]) -> bool
    ensures elsewhere { IsTrue result → (i : ℕ) × IsOnlyProtective bytes.now i × (start_of bytes.now i ≢ 1) }
    ensures usual { (i : ℕ) → IsOnlyProtective bytes.now i → start_of bytes.now i ≢ 1 → IsTrue result }
{
    match find_only(bytes) {
        Some(entry) => start_at(bytes, entry) != 1,
        None => false,
    }
}

// Returns this entry with its right place, if it has another.
fn place_of(bytes: &[u8], sectors: u64, may_move: bool, entry: usize) -> Option<Misfit>
    requires { entry < 4 }
    ensures found { IfSome result (λ misfit. (misfit.entry ≡ entry) × IsAskew may_move bytes.now sectors entry
        × (misfit.start ≡ right_start may_move bytes.now entry)
        × (misfit.length ≡ right_length may_move bytes.now sectors entry)) }
    ensures none { IfNone result (¬ IsAskew may_move bytes.now sectors entry) }
{
    let stored = start_at(bytes, entry);
    let start = if may_move { 1 } else { stored };
    if u64::from(start) >= sectors {
        return None;
    }
    let length = (sectors - u64::from(start)).min(u64::from(u32::MAX)) as u32;
    if start == stored && is_length(length_at(bytes, entry), length) {
        return None;
    }
    Some(Misfit {
        entry,
        start,
        length,
    })
}

// Reports whether a length is accepted in the place of this one.
fn is_length(length: u32, right: u32) -> bool
    ensures { IsTrue result ↔ (length ≡ right) ⊎ (length ≡ 0xFFFFFFFF) }
{
    length == right || length == u32::MAX
}

// Returns the first sector of an entry.
fn start_at(bytes: &[u8], entry: usize) -> u32
    requires { entry < 4 }
    ensures { result ≡ start_of bytes.now entry }
{
    number_at(bytes, ENTRIES + ENTRY_SIZE * entry + 8)
}

// Returns the length of an entry in sectors.
fn length_at(bytes: &[u8], entry: usize) -> u32
    requires { entry < 4 }
    ensures { result ≡ length_of bytes.now entry }
{
    number_at(bytes, ENTRIES + ENTRY_SIZE * entry + 12)
}

// Returns the index of the protective entry, if all others have type 0.
fn find_only(bytes: &[u8]) -> Option<usize>
    ensures found { IfSome result (IsOnlyProtective bytes.now) }
    ensures none { IfNone result ((i : ℕ) → ¬ IsOnlyProtective bytes.now i) }
{
    let (a, b) = (type_of(bytes, 0), type_of(bytes, 1));
    let (c, d) = (type_of(bytes, 2), type_of(bytes, 3));
    if is_only_protective(a, b, c, d) {
        Some(0)
    } else if is_only_protective(b, a, c, d) {
        Some(1)
    } else if is_only_protective(c, a, b, d) {
        Some(2)
    } else if is_only_protective(d, a, b, c) {
        Some(3)
    } else {
        None
    }
}

// Reports whether the first type is protective and the others are 0.
fn is_only_protective(one: u8, second: u8, third: u8, fourth: u8) -> bool
    ensures { IsTrue result ↔ (one ≡ 0xEE) × (second ≡ 0) × (third ≡ 0) × (fourth ≡ 0) }
{
    one == PROTECTIVE && second == 0 && third == 0 && fourth == 0
}

fn type_of(bytes: &[u8], entry: usize) -> u8
    requires { entry < 4 }
    ensures { result ≡ type_of bytes.now entry }
{
    byte_at(bytes, ENTRIES + ENTRY_SIZE * entry + 4)
}

// Returns the little-endian number in the 4 bytes at `at`. Missing bytes are 0.
fn number_at(bytes: &[u8], at: usize) -> u32
    requires { at < 512 }
    ensures { result ≡ number_at bytes.now at }
{
    let a = u32::from(byte_at(bytes, at));
    let b = u32::from(byte_at(bytes, at + 1));
    let c = u32::from(byte_at(bytes, at + 2));
    let d = u32::from(byte_at(bytes, at + 3));
    a + 256 * (b + 256 * (c + 256 * d))
}
