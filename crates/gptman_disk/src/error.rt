//! The errors of all calls: sixteen kinds, with their numbers and texts.

ghost use Rattle.std.specs.Prelude.{◌≡◌, ◌↔◌, ◌<◌, ◌≤◌, IsTrue};
ghost use Rattle.gptman_disk.specs.Fault.{fault_number, fault_of, is_signature_fault, out_of_memory, variant_name};
ghost use Rattle.gptman_disk.specs.declared.error.Error.{Io, OutOfMemory};

use std::alloc::{AllocError, AllocFailed};
use std::io;
use thiserror::Error;

/// The error of a call.
#[derive(Debug, Drop, Error)]
pub enum Error {
    /// The disk failed, or a read passed its end.
    #[error("generic I/O error")]
    Io(io::Error),
    /// The header does not begin with the text "EFI PART".
    #[error("invalid signature")]
    InvalidSignature,
    /// The header's revision is not 1.0.
    #[error("invalid revision")]
    InvalidRevision,
    /// The header's size is not 92 bytes.
    #[error("invalid header size")]
    InvalidHeaderSize,
    /// The stored checksum of the header (first) is not the computed one (second).
    #[error("corrupted CRC32 checksum ({0} != {1})")]
    InvalidChecksum(u32, u32),
    /// The stored checksum of the entry array (first) is not the computed one (second).
    #[error("corrupted partition entry array CRC32 checksum ({0} != {1})")]
    InvalidPartitionEntryArrayChecksum(u32, u32),
    /// Neither copy can be read: the error of the primary copy, then of the backup copy.
    #[error("could not read primary header ({0}) nor backup header ({1})")]
    ReadError(Box<Error>, Box<Error>),
    /// A range of bytes ends past the end of the disk, or no free range is large enough.
    #[error("no space left")]
    NoSpaceLeft,
    /// Two used entries have the same unique GUID.
    #[error("conflict of partition GUIDs")]
    ConflictPartitionGUID,
    /// An entry ends before it starts, two used ones overlap, one is outside the usable sectors, or the first usable
    /// sector is more than one after the last.
    #[error("invalid partition boundaries: partitions must have positive size, must not overlap, \
             and must fit within the disk")]
    InvalidPartitionBoundaries,
    /// No entry has this number. Entries are numbered from 1.
    #[error("invalid partition number: {0}")]
    InvalidPartitionNumber(u32),
    /// The entry is not used.
    #[error("unused partition")]
    UnusedPartition,
    /// No used entry covers the sector.
    #[error("partition not found")]
    PartitionNotFound,
    /// A position does not fit in 64 bits, the disk has too few sectors, or the entries of a header to be fitted take
    /// no bytes.
    #[error("an arithmetic operation overflowed")]
    Overflow,
    /// An allocation failed.
    #[error("no memory")]
    OutOfMemory,
    /// The header's entry size (in bytes) is not 128, and it counts at least one entry.
    #[error("invalid partition entry size: {0}")]
    InvalidPartitionEntrySize(u32),
}

/// The result of a call.
pub type Result<T> = std::result::Result<T, Error>;

impl Error {
    // Reports whether an allocation failed, which is not a fault of a disk or a copy.
    pub fn is_out_of_memory(&self) -> bool
        ensures { IsTrue result ↔ (fault_of self.now ≡ out_of_memory) }
    {
        matches!(self, Error::OutOfMemory)
    }

    // Reports whether the header does not begin with the signature.
    pub fn is_invalid_signature(&self) -> bool
        ensures { result ≡ is_signature_fault (fault_of self.now) }
    {
        matches!(self, Error::InvalidSignature)
    }

    /// Returns the name of the variant, without its numbers.
    pub fn name(&self) -> &'static str
        ensures { result.now ≡ variant_name (fault_of self.now) }
    {
        match self {
            Error::Io(_) => "Io",
            Error::InvalidSignature => "InvalidSignature",
            Error::InvalidRevision => "InvalidRevision",
            Error::InvalidHeaderSize => "InvalidHeaderSize",
            Error::InvalidChecksum(_, _) => "InvalidChecksum",
            Error::InvalidPartitionEntryArrayChecksum(_, _) => "InvalidPartitionEntryArrayChecksum",
            Error::ReadError(_, _) => "ReadError",
            Error::NoSpaceLeft => "NoSpaceLeft",
            Error::ConflictPartitionGUID => "ConflictPartitionGUID",
            Error::InvalidPartitionBoundaries => "InvalidPartitionBoundaries",
            Error::InvalidPartitionNumber(_) => "InvalidPartitionNumber",
            Error::UnusedPartition => "UnusedPartition",
            Error::PartitionNotFound => "PartitionNotFound",
            Error::Overflow => "Overflow",
            Error::OutOfMemory => "OutOfMemory",
            Error::InvalidPartitionEntrySize(_) => "InvalidPartitionEntrySize",
        }
    }

    /// Returns the number for callers in C, from 1 to 16.
    pub fn number(&self) -> u32
        ensures number { result ≡ fault_number (fault_of self.now) }
        ensures least { 0 < result }
        ensures most { result ≤ 16 }
    {
        match self {
            Error::Io(_) => 1,
            Error::InvalidSignature => 2,
            Error::InvalidRevision => 3,
            Error::InvalidHeaderSize => 4,
            Error::InvalidChecksum(_, _) => 5,
            Error::InvalidPartitionEntryArrayChecksum(_, _) => 6,
            Error::ReadError(_, _) => 7,
            Error::NoSpaceLeft => 8,
            Error::ConflictPartitionGUID => 9,
            Error::InvalidPartitionBoundaries => 10,
            Error::InvalidPartitionNumber(_) => 11,
            Error::UnusedPartition => 12,
            Error::PartitionNotFound => 13,
            Error::Overflow => 14,
            Error::OutOfMemory => 15,
            Error::InvalidPartitionEntrySize(_) => 16,
        }
    }
}

impl From<io::Error> for Error {
    ghost from_gives = { λ e r. r ≡ Io e };

    fn from(e: io::Error) -> Error {
        Error::Io(e)
    }
}

impl From<AllocError> for Error {
    ghost from_gives = { λ _ r. r ≡ OutOfMemory };

    fn from(_e: AllocError) -> Error {
        Error::OutOfMemory
    }
}

impl<T: Drop> From<AllocFailed<T>> for Error {
    ghost from_gives = { λ _ r. r ≡ OutOfMemory };

    fn from(_e: AllocFailed<T>) -> Error {
        Error::OutOfMemory
    }
}
