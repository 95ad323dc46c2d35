//! Swap space, tables of other systems, pools, and contents with a mark near the end.

use crate::contents::found::{Found, product};
use crate::contents::piece::Piece;
use std::alloc::AllocError;

// The possible page sizes in bytes.
const PAGES: [u64; 5] = [4096, 8192, 16384, 32768, 65536];

// The end of the first page of a hibernation image.
static SUSPENDED: [&[u8]; 4] = [b"S1SUSPEND", b"S2SUSPEND", b"ULSUSPEND", b"LINHIB0001"];

/// Adds other contents in the first bytes of a range.
pub fn find_others(piece: &Piece, found: &mut Vec<Found>) -> Result<(), AllocError> {
    for one in [
        find_swap(piece),
        find_apple(piece),
        find_sun(piece),
        find_image(piece),
    ] {
        if let Some(one) = one {
            found.push(one)?;
        }
    }
    Ok(())
}

fn find_swap(piece: &Piece) -> Option<Found> {
    for page in PAGES {
        let at = page.checked_sub(10)?;
        let is_suspended = is_suspended(piece, at);
        if is_suspended || piece.has(at, b"SWAPSPACE2") {
            let name = if is_suspended {
                "swap space with a hibernation image"
            } else {
                "swap space"
            };
            return Some(Found::long(name, swap_length(piece, page)));
        }
        if piece.has(at, b"SWAP-SPACE") {
            return Some(Found::whole("swap space"));
        }
    }
    None
}

fn is_suspended(piece: &Piece, at: u64) -> bool {
    for mark in &SUSPENDED {
        if piece.has(at, mark) {
            return true;
        }
    }
    false
}

// Computes the length from the number of the last page.
fn swap_length(piece: &Piece, page: u64) -> Option<u64> {
    let last = if piece.le32(1024)? == 1 {
        piece.le32(1028)?
    } else {
        piece.be32(1028)?
    };
    product(last.checked_add(1), Some(page))
}

fn find_apple(piece: &Piece) -> Option<Found> {
    let is_there = piece.has(0, b"ER") && (piece.has(512, b"PM\0\0") || piece.has(2048, b"PM\0\0"));
    if is_there {
        Some(Found::whole("an Apple partition map"))
    } else {
        None
    }
}

// The XOR of all 16-bit words of a Sun label is 0.
fn find_sun(piece: &Piece) -> Option<Found> {
    if !piece.has(508, b"\xda\xbe") {
        return None;
    }
    let mut sum = 0;
    for word in 0..256u64 {
        sum ^= piece.be16(word * 2)?;
    }
    if sum == 0 {
        Some(Found::whole("a Sun label"))
    } else {
        None
    }
}

fn find_image(piece: &Piece) -> Option<Found> {
    if piece.has(0, b"\x27\x05\x19\x56") {
        let length = piece.be32(12)?.checked_add(64);
        return Some(Found::long("a boot image of U-Boot", length));
    }
    if piece.has(0, b"\xd0\x0d\xfe\xed") {
        return Some(Found::long("a device tree or FIT image", piece.be32(4)));
    }
    None
}

/// Returns the ZFS pool whose uberblock is in the piece.
pub fn find_zfs(piece: &Piece) -> Option<Found> {
    for slot in 128..256u64 {
        let at = slot * 1024;
        if piece.has(at, b"\x0c\xb1\xba\0\0\0\0\0") || piece.has(at, b"\0\0\0\0\0\xba\xb1\x0c") {
            return Some(Found::whole("a member of a ZFS pool"));
        }
    }
    None
}

// A name, the start counted from the end, the offset of the mark from that start, and the mark.
struct Late(&'static str, u64, u64, &'static [u8]);

static LATE: [Late; 12] = [
    Late("a DRBD device", 4096, 60, b"\x83\x74\x02\x6b"),
    Late("a DRBD device", 4096, 60, b"\x83\x74\x02\x6c"),
    Late("a DRBD device", 4096, 60, b"\x83\x74\x02\x6d"),
    Late(
        "a member of an Intel RAID array",
        1024,
        0,
        b"Intel Raid ISM Cfg Sig. ",
    ),
    Late(
        "a member of an Intel RAID array",
        8192,
        0,
        b"Intel Raid ISM Cfg Sig. ",
    ),
    Late("a member of a DDF RAID array", 512, 0, b"\xde\x11\xde\x11"),
    Late("a member of a DDF RAID array", 4096, 0, b"\xde\x11\xde\x11"),
    Late("a member of an NVIDIA RAID array", 1024, 0, b"NVIDIA"),
    Late("a member of an LSI RAID array", 512, 0, b"$XIDE$"),
    Late(
        "a member of an Adaptec RAID array",
        512,
        0,
        b"\x37\xfc\x4d\x1e",
    ),
    Late("a label of FreeBSD's GEOM", 512, 0, b"GEOM::"),
    Late(
        "a footer of Android Verified Boot",
        64,
        0,
        b"AVBf\0\0\0\x01",
    ),
];

/// Adds contents in the last bytes of a range of `length` bytes.
pub fn find_late(piece: &Piece, length: u64, found: &mut Vec<Found>) -> Result<(), AllocError> {
    for mark in &LATE {
        if let Some(at) = length.checked_sub(mark.1) {
            if piece.has(at.saturating_add(mark.2), mark.3) {
                found.push(Found::at(mark.0, at, Some(mark.1)))?;
            }
        }
    }
    for one in [find_md_090(piece, length), find_md_10(piece, length)] {
        if let Some(one) = one {
            found.push(one)?;
        }
    }
    Ok(())
}

fn find_md_090(piece: &Piece, length: u64) -> Option<Found> {
    let at = (length & !65535).checked_sub(65536)?;
    let is_there = piece.has(at, b"\xfc\x4e\x2b\xa9\0\0\0\0")
        || piece.has(at, b"\xa9\x2b\x4e\xfc\0\0\0\0");
    if is_there {
        Some(Found::at("a member of a RAID array", at, Some(4096)))
    } else {
        None
    }
}

fn find_md_10(piece: &Piece, length: u64) -> Option<Found> {
    let sector = (length / 512).checked_sub(16)? & !7;
    let at = sector.checked_mul(512)?;
    if piece.has(at, b"\xfc\x4e\x2b\xa9\x01\0\0\0") {
        Some(Found::at("a member of a RAID array", at, Some(4096)))
    } else {
        None
    }
}
