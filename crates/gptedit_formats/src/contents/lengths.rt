//! File systems that store their length, or whose mark needs a second test.

use crate::contents::found::{Found, is_size, is_some_number, power, product};
use crate::contents::piece::Piece;
use std::alloc::AllocError;

/// Adds the file systems in the first bytes of a range.
pub fn find_file_systems(piece: &Piece, found: &mut Vec<Found>) -> Result<(), AllocError> {
    let seen = [
        find_ext(piece),
        find_xfs(piece),
        find_btrfs(piece),
        find_f2fs(piece),
        find_ntfs(piece),
        find_exfat(piece),
        find_fat(piece),
        find_squashfs(piece),
        find_erofs(piece),
    ];
    for one in seen {
        if let Some(one) = one {
            found.push(one)?;
        }
    }
    find_rarer(piece, found)
}

fn find_rarer(piece: &Piece, found: &mut Vec<Found>) -> Result<(), AllocError> {
    let seen = [
        find_iso(piece),
        find_cramfs(piece),
        find_minix(piece),
        find_minix_3(piece),
        find_reiserfs(piece),
        find_nilfs(piece),
        find_hfs(piece),
        find_hfs_plus(piece),
        find_apfs(piece),
        find_lvm(piece),
    ];
    for one in seen {
        if let Some(one) = one {
            found.push(one)?;
        }
    }
    Ok(())
}

fn find_ext(piece: &Piece) -> Option<Found> {
    let exponent = piece.le32(1048)?;
    let is_sane = exponent <= 6
        && is_some_number(piece.le32(1024))
        && is_some_number(piece.le32(1056))
        && piece.le32(1044)? <= 1
        && piece.le32(1100)? <= 1;
    if !piece.has(1080, b"\x53\xef") || !is_sane {
        return None;
    }
    let high = if piece.le32(1120)? & 0x80 != 0 {
        piece.le32(1360)?
    } else {
        0
    };
    let blocks = high
        .checked_mul(1 << 32)
        .and_then(|high| high.checked_add(piece.le32(1028)?));
    let size = power(exponent.checked_add(10));
    Some(Found::long("an ext2, ext3 or ext4 file system", product(blocks, size)))
}

fn find_xfs(piece: &Piece) -> Option<Found> {
    if !piece.has(0, b"XFSB") {
        return None;
    }
    let length = product(piece.be64(8), piece.be32(4));
    Some(Found::long("an XFS file system", length))
}

fn find_btrfs(piece: &Piece) -> Option<Found> {
    if !piece.has(65600, b"_BHRfS_M") {
        return None;
    }
    Some(Found::long("a Btrfs file system", piece.le64(65745)))
}

fn find_f2fs(piece: &Piece) -> Option<Found> {
    if !piece.has(1024, b"\x10\x20\xf5\xf2") {
        return None;
    }
    let length = product(piece.le64(1060), power(piece.le32(1040)));
    Some(Found::long("an F2FS file system", length))
}

// The number of sectors does not count the last one, which has a copy of the first.
fn find_ntfs(piece: &Piece) -> Option<Found> {
    if !piece.has(3, b"NTFS    ") {
        return None;
    }
    let sectors = piece.le64(40)?.checked_add(1);
    Some(Found::long("an NTFS file system", product(sectors, piece.le16(11))))
}

fn find_exfat(piece: &Piece) -> Option<Found> {
    if !piece.has(3, b"EXFAT   ") {
        return None;
    }
    let length = product(piece.le64(72), power(piece.byte(108)));
    Some(Found::long("an exFAT file system", length))
}

fn find_fat(piece: &Piece) -> Option<Found> {
    let has_text = piece.has(54, b"FAT12   ")
        || piece.has(54, b"FAT16   ")
        || piece.has(82, b"FAT32   ");
    let is_sane = is_fat(piece).unwrap_or(false);
    if !has_text && !is_sane {
        return None;
    }
    let small = piece.le16(19)?;
    let sectors = if small == 0 { piece.le32(32)? } else { small };
    let length = if is_sane {
        product(Some(sectors), piece.le16(11))
    } else {
        None
    };
    Some(Found::long("a FAT file system", length))
}

// Reports whether the first sector is the boot sector of a FAT file system, by its numbers.
fn is_fat(piece: &Piece) -> Option<bool> {
    let has_jump = piece.byte(0)? == 0xe9 || (piece.byte(0)? == 0xeb && piece.byte(2)? == 0x90);
    let fats = piece.byte(16)?;
    let media = piece.byte(21)?;
    let sectors = piece.le16(19)?.max(piece.le32(32)?);
    Some(
        has_jump
            && piece.has(510, b"\x55\xaa")
            && is_size(piece.le16(11), 512, 4096)
            && is_size(piece.byte(13), 1, 128)
            && piece.le16(14)? != 0
            && (fats == 1 || fats == 2)
            && (media == 0xf0 || media >= 0xf8)
            && sectors != 0,
    )
}

fn find_squashfs(piece: &Piece) -> Option<Found> {
    if piece.has(0, b"hsqs") {
        let length = if piece.le16(28)? == 4 {
            piece.le64(40)
        } else {
            None
        };
        return Some(Found::long("a SquashFS file system", length));
    }
    if piece.has(0, b"sqsh") {
        return Some(Found::whole("a SquashFS file system"));
    }
    None
}

fn find_erofs(piece: &Piece) -> Option<Found> {
    if !piece.has(1024, b"\xe2\xe1\xf5\xe0") {
        return None;
    }
    let length = product(piece.le32(1060), power(piece.byte(1036)));
    Some(Found::long("an EROFS file system", length))
}

fn find_iso(piece: &Piece) -> Option<Found> {
    if !piece.has(32769, b"CD001") {
        return None;
    }
    let length = product(piece.le32(32848), Some(2048));
    Some(Found::long("an ISO 9660 file system", length))
}

fn find_cramfs(piece: &Piece) -> Option<Found> {
    for at in [0, 512] {
        if piece.has(at + 16, b"Compressed ROMFS") {
            if piece.has(at, b"\x45\x3d\xcd\x28") {
                return Some(Found::at("a cramfs file system", at, piece.le32(at + 4)));
            }
            return Some(Found::at("a cramfs file system", at, piece.be32(at + 4)));
        }
    }
    None
}

// Versions 1 and 2, with names of 14 or 30 bytes. The inode map must have a bit for each inode.
fn find_minix(piece: &Piece) -> Option<Found> {
    let magic = piece.le16(1040)?;
    let is_second = magic == 0x2468 || magic == 0x2478;
    let is_first = magic == 0x137f || magic == 0x138f;
    let inodes = piece.le16(1024)?;
    let bits = product(piece.le16(1028), Some(8192))?;
    let has_maps = is_some_number(piece.le16(1030)) && is_some_number(piece.le16(1032));
    if !(is_first || is_second) || inodes == 0 || bits <= inodes || !has_maps {
        return None;
    }
    let zones = if is_second {
        piece.le32(1044)
    } else {
        piece.le16(1026)
    };
    let size = power(piece.le16(1034)?.checked_add(10));
    Some(Found::long("a minix file system", product(zones, size)))
}

fn find_minix_3(piece: &Piece) -> Option<Found> {
    let inodes = piece.le32(1024)?;
    let size = piece.le16(1052)?;
    let bits = product(piece.le16(1030), size.checked_mul(8))?;
    let is_sane = piece.le16(1048)? == 0x4d5a && inodes != 0 && inodes < bits;
    if !is_sane || !is_size(Some(size), 512, 32768) {
        return None;
    }
    Some(Found::long("a minix file system", product(piece.le32(1044), Some(size))))
}

fn find_reiserfs(piece: &Piece) -> Option<Found> {
    for at in [8192, 65536] {
        if piece.has(at + 52, b"ReIsErFs")
            || piece.has(at + 52, b"ReIsEr2Fs")
            || piece.has(at + 52, b"ReIsEr3Fs")
        {
            let length = product(piece.le32(at), piece.le16(at + 44));
            return Some(Found::long("a reiserfs file system", length));
        }
    }
    None
}

fn find_nilfs(piece: &Piece) -> Option<Found> {
    let is_sane = piece.le32(1024)? == 2 && piece.le32(1044)? <= 6 && piece.le16(1032)? <= 1024;
    if !piece.has(1030, b"\x34\x34") || !is_sane {
        return None;
    }
    Some(Found::long("a NILFS2 file system", piece.le64(1056)))
}

fn find_hfs(piece: &Piece) -> Option<Found> {
    let size = piece.be32(1044)?;
    if !piece.has(1024, b"BD") || size == 0 || size % 512 != 0 || piece.be16(1038)? < 3 {
        return None;
    }
    Some(Found::whole("an HFS file system"))
}

fn find_hfs_plus(piece: &Piece) -> Option<Found> {
    let size = piece.be32(1064);
    let has_mark = piece.has(1024, b"H+\0\x04") || piece.has(1024, b"HX\0\x05");
    if !has_mark || !is_size(size, 512, 1 << 31) {
        return None;
    }
    Some(Found::long("an HFS+ file system", product(piece.be32(1068), size)))
}

fn find_apfs(piece: &Piece) -> Option<Found> {
    if !piece.has(32, b"NXSB") {
        return None;
    }
    let length = product(piece.le64(40), piece.le32(36));
    Some(Found::long("an APFS container", length))
}

fn find_lvm(piece: &Piece) -> Option<Found> {
    for at in [0, 512, 1024, 1536] {
        if piece.has(at, b"LABELONE") && piece.has(at + 24, b"LVM2 001") {
            return Some(Found::whole("a physical volume of LVM"));
        }
    }
    None
}
