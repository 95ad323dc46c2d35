//! The structs that are shared with C.

/// A table without its partitions.
#[repr(C)]
#[derive(Clone, Copy)]
pub struct Table {
    /// The GUID of the disk: its 16 bytes as on the disk.
    pub disk_guid: [u8; 16],
    /// The first usable sector.
    pub first_usable_lba: u64,
    /// The last usable sector.
    pub last_usable_lba: u64,
    /// The alignment in sectors: partitions begin at multiples of it.
    pub align: u64,
    /// The number of entries, unused ones included.
    pub entry_count: u32,
    /// 1 if the primary copy has a fault and the backup copy was read, else 0.
    pub is_backup: u32,
    /// The sector of the primary header.
    pub primary_header_lba: u64,
    /// The first sector of the primary entries.
    pub primary_entries_lba: u64,
    /// The sector of the backup header.
    pub backup_header_lba: u64,
    /// The first sector of the backup entries.
    pub backup_entries_lba: u64,
    /// Zeros: room for later versions.
    pub reserved: [u64; 6],
}

/// An entry of a table. It is unused if the type GUID is zero.
#[repr(C)]
#[derive(Clone, Copy)]
pub struct Partition {
    /// The type GUID: its 16 bytes as on the disk.
    pub type_guid: [u8; 16],
    /// The unique GUID.
    pub unique_guid: [u8; 16],
    /// The first sector.
    pub first_lba: u64,
    /// The last sector.
    pub last_lba: u64,
    /// The attributes, one for each bit.
    pub attributes: u64,
    /// The name in UTF-16, padded with zeros.
    pub name: [u16; 36],
}

/// A step of a write: a write of bytes, or a sync.
#[repr(C)]
#[derive(Clone, Copy, PartialEq, Eq)]
pub struct Step {
    /// 1 for a write, 2 for a sync.
    pub kind: u64,
    /// The first byte of the disk to write.
    pub offset: u64,
    /// The number of bytes to write.
    pub length: u64,
    /// The position of these bytes in the array of bytes.
    pub start: u64,
}

/// What a call needs: room for a plan, or bytes of the disk that the ends do not have.
#[repr(C)]
#[derive(Clone, Copy)]
pub struct Needed {
    /// The number of steps in the plan.
    pub steps: u64,
    /// The number of bytes that they write.
    pub bytes: u64,
    /// The first missing byte of the disk.
    pub from: u64,
    /// The number of missing bytes from there.
    pub length: u64,
}

/// The result of a check of both copies.
#[repr(C)]
#[derive(Clone, Copy)]
pub struct Check {
    /// The number of the fault of the copy in sector 1, or 0.
    pub primary_fault: u32,
    /// The number of the fault of the copy in the last whole sector, or 0.
    pub backup_fault: u32,
    /// 1 if both places hold one table, each in the form of its place, else 0.
    pub are_same: u32,
    /// Zeros: room for later versions.
    pub reserved: [u32; 5],
}
