//! The numbers that calls return beside those of `Error`, and the names of all: errors of a table are below 100, results
//! of the calls themselves from 100 on.

ghost use Rattle.std.specs.Prelude.{◌≡◌, ◌<◌, length};
ghost use Rattle.gptman.specs.Fault.{Fault, fault_number, variant_name};
ghost use Rattle.gptman_plan.specs.Faults.{answer_name};

use gptman::Error;
use std::io;

/// The table was made for a disk of another length.
pub const OTHER_LENGTH: u32 = 100;

/// The table, or the copy that was read, does not have the stated layout.
pub const OTHER_LAYOUT: u32 = 101;

/// The first sector of the disk has its own partitions.
pub const DOS_DISK: u32 = 102;

/// The call needs bytes of the disk that the ends do not have.
pub const LACKS_BYTES: u32 = 103;

/// An array of the caller is too short.
pub const LACKS_ROOM: u32 = 104;

/// An argument that fits no disk or table.
pub const BAD_ARGUMENT: u32 = 105;

/// There is no place for a partition.
pub const NO_SPACE_LEFT: u32 = 8;

/// An allocation failed.
pub const OUT_OF_MEMORY: u32 = 15;

/// Returns the name of a number that a call returns, as `Error::name` has it, or "Unknown" if none returns it.
pub fn name_of(answer: u32) -> &'static str
    ensures name { result.now ≡ answer_name answer }
    ensures fault { (fault : Fault) → answer ≡ fault_number fault → result.now ≡ variant_name fault }
    ensures longest { length result.now < 35 }
{
    match answer {
        0 => "Ok",
        1 => Error::Io(io::Error::other("")).name(),
        2 => Error::InvalidSignature.name(),
        3 => Error::InvalidRevision.name(),
        4 => Error::InvalidHeaderSize.name(),
        5 => Error::InvalidChecksum(0, 0).name(),
        6 => Error::InvalidPartitionEntryArrayChecksum(0, 0).name(),
        7 => "ReadError", // the error itself has two others, which would have to be allocated
        8 => Error::NoSpaceLeft.name(),
        9 => Error::ConflictPartitionGUID.name(),
        10 => Error::InvalidPartitionBoundaries.name(),
        11 => Error::InvalidPartitionNumber(0).name(),
        12 => Error::UnusedPartition.name(),
        13 => Error::PartitionNotFound.name(),
        14 => Error::Overflow.name(),
        15 => Error::OutOfMemory.name(),
        16 => Error::InvalidPartitionEntrySize(0).name(),
        100 => "OtherLength",
        101 => "OtherLayout",
        102 => "DosDisk",
        103 => "LacksBytes",
        104 => "LacksRoom",
        105 => "BadArgument",
        150 => "AsksAgain",
        _ => "Unknown",
    }
}
