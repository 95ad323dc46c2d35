//! Marks that need no second test, of contents whose length is unknown.

use crate::contents::found::Found;
use crate::contents::piece::Piece;
use std::alloc::AllocError;

// A name, the offset of the mark, and the mark.
struct Mark(&'static str, u64, &'static [u8]);

// Contents from the start of the range.
static WHOLE: [Mark; 54] = [
    Mark("a ReFS file system", 3, b"ReFS\0\0\0\0"),
    Mark("a UDF file system", 34816, b"\0NSR02\x01"),
    Mark("a UDF file system", 34816, b"\0NSR03\x01"),
    Mark("a UDF file system", 36864, b"\0NSR02\x01"),
    Mark("a UDF file system", 36864, b"\0NSR03\x01"),
    Mark("a UDF file system", 38912, b"\0NSR02\x01"),
    Mark("a UDF file system", 38912, b"\0NSR03\x01"),
    Mark("a romfs file system", 0, b"-rom1fs-"),
    Mark("a JFS file system", 32768, b"JFS1"),
    Mark("a reiser4 file system", 65536, b"ReIsEr4\0"),
    Mark("an OCFS2 file system", 1024, b"OCFSV2"),
    Mark("an OCFS2 file system", 2048, b"OCFSV2"),
    Mark("an OCFS2 file system", 4096, b"OCFSV2"),
    Mark("an OCFS2 file system", 8192, b"OCFSV2"),
    Mark("a GFS2 file system", 65536, b"\x01\x16\x19\x70\0\0\0\x01"),
    Mark(
        "a bcachefs file system",
        4120,
        b"\xc6\x85\x73\xf6\x66\xce\x90\xa9\xd9\x6a\x60\xcf\x80\x3d\xf7\xef",
    ),
    Mark(
        "a bcache device",
        4120,
        b"\xc6\x85\x73\xf6\x4e\x1a\x45\xca\x82\x65\xf5\x7f\x48\xba\x6d\x81",
    ),
    Mark("a UFS file system", 9564, b"\x54\x19\x01\0"),
    Mark("a UFS file system", 9564, b"\0\x01\x19\x54"),
    Mark("a UFS file system", 9564, b"\x19\x01\x54\x19"),
    Mark("a UFS file system", 9564, b"\x19\x54\x01\x19"),
    Mark("a UFS file system", 66908, b"\x54\x19\x01\0"),
    Mark("a UFS file system", 66908, b"\0\x01\x19\x54"),
    Mark("a UFS file system", 66908, b"\x19\x01\x54\x19"),
    Mark("a UFS file system", 66908, b"\x19\x54\x01\x19"),
    Mark("a VxFS file system", 1024, b"\xf5\xfc\x01\xa5"),
    Mark("a VxFS file system", 8192, b"\xa5\x01\xfc\xf5"),
    Mark("a BeFS file system", 544, b"1SFB"),
    Mark("a BeFS file system", 544, b"BFS1"),
    Mark("a BeFS file system", 32, b"1SFBEGIB"),
    Mark("a BeFS file system", 32, b"BFS1BIGE"),
    Mark("a volume encrypted with LUKS1", 0, b"LUKS\xba\xbe\0\x01"),
    Mark("a volume encrypted with LUKS2", 0, b"LUKS\xba\xbe\0\x02"),
    Mark("a volume encrypted with BitLocker", 3, b"-FVE-FS-"),
    Mark("a BlueStore device of Ceph", 0, b"bluestore block device"),
    Mark("a dm-integrity device", 0, b"integrt\0"),
    Mark("a dm-verity device", 0, b"verity\0\0"),
    Mark("a Stratis device", 516, b"!Stra0tis\x86\xff\x02^\x41rh"),
    Mark("a Stratis device", 4612, b"!Stra0tis\x86\xff\x02^\x41rh"),
    Mark("a member of a RAID array", 0, b"\xfc\x4e\x2b\xa9\x01\0\0\0"),
    Mark("a member of a RAID array", 0, b"\xa9\x2b\x4e\xfc\0\0\0\x01"),
    Mark(
        "a member of a RAID array",
        4096,
        b"\xfc\x4e\x2b\xa9\x01\0\0\0",
    ),
    Mark(
        "a member of a RAID array",
        4096,
        b"\xa9\x2b\x4e\xfc\0\0\0\x01",
    ),
    Mark("a VDO volume", 0, b"dmvdo001"),
    Mark("an SGI volume header", 0, b"\x0b\xe5\xa9\x41"),
    Mark("an Amiga partition table", 0, b"RDSK\0\0"),
    Mark("a zonefs file system", 0, b"SFOZ"),
    Mark("an Oracle ASM disk", 32, b"ORCLDISK"),
    Mark("an UBI volume", 0, b"UBI#\x01\0\0\0"),
    Mark("an Android sparse image", 0, b"\x3a\xff\x26\xed\x01\0"),
    Mark("a VMFS volume", 0x10_0000, b"\x0d\xd0\x01\xc0"),
    Mark("a VMFS file system", 0x20_0000, b"\x5e\xf1\xab\x2f"),
    Mark("a UFS file system", 263_516, b"\x19\x01\x54\x19"),
    Mark("a UFS file system", 263_516, b"\x19\x54\x01\x19"),
];

// A name, the offset of the mark, the offset of the mark from the start of the contents, and the mark.
struct Later(&'static str, u64, u64, &'static [u8]);

// Boot loaders, labels and second headers.
static LATER: [Later; 19] = [
    Later(
        "a boot loader for Rockchip boards",
        32768,
        0,
        b"\x3b\x8c\xdc\xfc\xbe\x9f\x9d\x51",
    ),
    Later("a boot loader for Rockchip boards", 32768, 0, b"RKNS"),
    Later("a boot loader for Amlogic boards", 528, 16, b"@AML"),
    Later("a boot loader for Allwinner boards", 8196, 4, b"eGON.BT0"),
    Later(
        "a boot loader for Allwinner boards",
        131_076,
        4,
        b"eGON.BT0",
    ),
    Later("a boot loader for i.MX boards", 1024, 0, b"\xd1\0\x20\x40"),
    Later("a boot loader for i.MX boards", 1024, 0, b"\xd1\0\x20\x41"),
    Later("a BSD disklabel", 512, 0, b"\x57\x45\x56\x82"),
    Later("a BSD disklabel", 64, 0, b"\x57\x45\x56\x82"),
    Later("a BSD disklabel", 512, 0, b"\x82\x56\x45\x57"),
    Later(
        "the second header of a LUKS2 volume",
        0x4000,
        0,
        b"SKUL\xba\xbe",
    ),
    Later(
        "the second header of a LUKS2 volume",
        0x8000,
        0,
        b"SKUL\xba\xbe",
    ),
    Later(
        "the second header of a LUKS2 volume",
        0x1_0000,
        0,
        b"SKUL\xba\xbe",
    ),
    Later(
        "the second header of a LUKS2 volume",
        0x2_0000,
        0,
        b"SKUL\xba\xbe",
    ),
    Later(
        "the second header of a LUKS2 volume",
        0x4_0000,
        0,
        b"SKUL\xba\xbe",
    ),
    Later(
        "the second header of a LUKS2 volume",
        0x8_0000,
        0,
        b"SKUL\xba\xbe",
    ),
    Later(
        "the second header of a LUKS2 volume",
        0x10_0000,
        0,
        b"SKUL\xba\xbe",
    ),
    Later(
        "the second header of a LUKS2 volume",
        0x20_0000,
        0,
        b"SKUL\xba\xbe",
    ),
    Later(
        "the second header of a LUKS2 volume",
        0x40_0000,
        0,
        b"SKUL\xba\xbe",
    ),
];

/// Adds contents with a mark in the piece.
pub fn find_plain(piece: &Piece, found: &mut Vec<Found>) -> Result<(), AllocError> {
    find_whole(piece, found)?;
    find_later(piece, found)
}

fn find_whole(piece: &Piece, found: &mut Vec<Found>) -> Result<(), AllocError> {
    for mark in &WHOLE {
        if piece.has(mark.1, mark.2) {
            found.push(Found::whole(mark.0))?;
        }
    }
    Ok(())
}

fn find_later(piece: &Piece, found: &mut Vec<Found>) -> Result<(), AllocError> {
    for mark in &LATER {
        if piece.has(mark.1, mark.3) {
            found.push(Found::at(mark.0, mark.1.saturating_sub(mark.2), None))?;
        }
    }
    Ok(())
}
