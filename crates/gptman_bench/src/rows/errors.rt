//! The texts of errors, and their debug output.

use crate::asserts::{BOUNDARIES, Host, OVERFLOW, assert_text, got};
use gptman::{Error, Progress};
use std::fmt::Debug;
use std::io;
use test_fixtures::texts::text_of;

// Asserts the debug output of the value.
fn assert_printed(rt: &impl Host, value: &impl Debug, printed: &str) {
    assert_text(
        rt,
        got(rt, format!(in rt.alloc(); "{value:?}")).as_str(),
        printed,
    );
}

// Asserts the text and the debug output of the error.
fn assert_error(rt: &impl Host, error: &Error, text: &str, printed: &str) {
    assert_text(rt, got(rt, text_of(rt.alloc(), error)).as_str(), text);
    assert_printed(rt, error, printed);
}

// Asserts the same of the errors of tables.
fn assert_of_tables(rt: &impl Host) {
    let name = "InvalidPartitionBoundaries";
    assert_error(rt, &Error::InvalidPartitionBoundaries, BOUNDARIES, name);
    let text = "conflict of partition GUIDs";
    assert_error(
        rt,
        &Error::ConflictPartitionGUID,
        text,
        "ConflictPartitionGUID",
    );
    assert_error(rt, &Error::NoSpaceLeft, "no space left", "NoSpaceLeft");
    assert_error(
        rt,
        &Error::UnusedPartition,
        "unused partition",
        "UnusedPartition",
    );
    assert_error(
        rt,
        &Error::PartitionNotFound,
        "partition not found",
        "PartitionNotFound",
    );
}

#[test]
fn errors_of_one_word_have_their_texts(rt: HostRuntime) {
    assert_error(
        &rt,
        &Error::InvalidSignature,
        "invalid signature",
        "InvalidSignature",
    );
    assert_error(
        &rt,
        &Error::InvalidRevision,
        "invalid revision",
        "InvalidRevision",
    );
    assert_error(
        &rt,
        &Error::InvalidHeaderSize,
        "invalid header size",
        "InvalidHeaderSize",
    );
    assert_error(&rt, &Error::Overflow, OVERFLOW, "Overflow");
    assert_error(&rt, &Error::OutOfMemory, "no memory", "OutOfMemory");
    assert_of_tables(&rt);
}

// Asserts the same of the errors of both checksums.
fn assert_checksums(rt: &impl Host) {
    let text = "corrupted CRC32 checksum (3 != 4)";
    assert_error(
        rt,
        &Error::InvalidChecksum(3, 4),
        text,
        "InvalidChecksum(3, 4)",
    );
    let text = "corrupted partition entry array CRC32 checksum (5 != 6)";
    let printed = "InvalidPartitionEntryArrayChecksum(5, 6)";
    assert_error(
        rt,
        &Error::InvalidPartitionEntryArrayChecksum(5, 6),
        text,
        printed,
    );
}

#[test]
fn errors_with_numbers_tell_them(rt: HostRuntime) {
    assert_checksums(&rt);
    let text = "invalid partition number: 129";
    let printed = "InvalidPartitionNumber(129)";
    assert_error(&rt, &Error::InvalidPartitionNumber(129), text, printed);
    let text = "invalid partition entry size: 256";
    let printed = "InvalidPartitionEntrySize(256)";
    assert_error(&rt, &Error::InvalidPartitionEntrySize(256), text, printed);
}

// Returns the error with the faults of both copies.
fn read_error(rt: &impl Host) -> Error {
    let primary = got(rt, Box::new(rt.alloc(), Error::InvalidChecksum(1, 2)));
    let backup = got(rt, Box::new(rt.alloc(), Error::InvalidSignature));
    Error::ReadError(primary, backup)
}

#[test]
fn errors_that_hold_others_tell_them(rt: HostRuntime) {
    let failed = Error::Io(io::Error::other("the device failed"));
    let printed = "Io(Custom { kind: Other, error: \"the device failed\" })";
    assert_error(&rt, &failed, "generic I/O error", printed);
    let text =
        "could not read primary header (corrupted CRC32 checksum (1 != 2)) nor backup header (invalid \
         signature)";
    let printed = "ReadError(InvalidChecksum(1, 2), InvalidSignature)";
    assert_error(&rt, &read_error(&rt), text, printed);
}

#[test]
fn progress_is_printed_with_its_fault(rt: HostRuntime) {
    let progress = Progress {
        done: 1,
        fault: Some(Error::InvalidPartitionBoundaries),
    };
    let text = "Progress { done: 1, fault: Some(InvalidPartitionBoundaries) }";
    assert_printed(&rt, &progress, text);
}
