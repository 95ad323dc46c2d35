//! Image formats that do not store a disk byte for byte.

use crate::contents::piece::Piece;

// A name, the offset of the mark, and the mark.
struct Mark(&'static str, u64, &'static [u8]);

static FORMATS: [Mark; 25] = [
    Mark("qcow2", 0, b"QFI\xfb"),
    Mark("VMDK", 0, b"KDMV"),
    Mark("VMDK", 0, b"COWD"),
    Mark("VMDK", 0, b"# Disk DescriptorFile"),
    Mark("VDI", 64, b"\x7f\x10\xda\xbe"),
    Mark("VHD", 0, b"conectix"),
    Mark("VHDX", 0, b"vhdxfile"),
    Mark("QED", 0, b"QED\0"),
    Mark("Parallels", 0, b"WithoutFreeSpace"),
    Mark("Parallels", 0, b"WithouFreSpacExt"),
    Mark("Bochs", 0, b"Bochs Virtual HD Image"),
    Mark("cloop", 0, b"#!/bin/sh\n#V2.0 Format\n"),
    Mark("Android sparse", 0, b"\x3a\xff\x26\xed\x01\0"),
    Mark("partclone", 0, b"partclone-image"),
    Mark("EWF", 0, b"EVF\x09\x0d\x0a\xff\0"),
    Mark("WIM", 0, b"MSWIM\0\0\0"),
    Mark("gzip (compressed)", 0, b"\x1f\x8b\x08\0"),
    Mark("gzip (compressed)", 0, b"\x1f\x8b\x08\x08"),
    Mark("xz (compressed)", 0, b"\xfd7zXZ\0"),
    Mark("zstd (compressed)", 0, b"\x28\xb5\x2f\xfd"),
    Mark("bzip2 (compressed)", 4, b"\x31\x41\x59\x26\x53\x59"),
    Mark("lz4 (compressed)", 0, b"\x04\x22\x4d\x18"),
    Mark("lzip (compressed)", 0, b"LZIP\x01"),
    Mark("zip (compressed)", 0, b"PK\x03\x04"),
    Mark("7z (compressed)", 0, b"7z\xbc\xaf\x27\x1c"),
];

/// Returns the format with a mark in the first bytes.
pub fn find_first(piece: &Piece) -> Option<&'static str> {
    for mark in &FORMATS {
        if piece.has(mark.1, mark.2) {
            return Some(mark.0);
        }
    }
    None
}

/// Returns the format with a mark in the last bytes of a disk of `length` bytes.
pub fn find_last(piece: &Piece, length: u64) -> Option<&'static str> {
    let at = length.checked_sub(512)?;
    if piece.has(at, b"koly\0\0\0\x04\0\0\x02\0") {
        Some("DMG")
    } else {
        None
    }
}
