//! Assertions on results of calls as text, and the disks of the tests.

use gptman::disk::faulty::{self, FaultyDisk};
use gptman::{GPT, MemoryDisk, Result};
use std::fmt::Debug;
use std::process::Abort;
use test_fixtures::{calls, samples, texts};

/// The traits that test helpers need: to fail a test, and memory.
pub(crate) trait Host: Abort + AllocGlobal {}

impl<R: Abort + AllocGlobal> Host for R {}

/// Returns the value of a call that must succeed.
pub(crate) fn got<T, E: Debug>(rt: &impl Abort, outcome: std::result::Result<T, E>) -> T {
    outcome.expect(rt, "a call that should be done was refused")
}

/// Asserts that the result of a call is "ok", or an error with this text.
pub(crate) fn assert_said<T>(rt: &impl Host, outcome: &Result<T>, said: &str) {
    let text = got(rt, texts::said(rt.alloc(), outcome));
    assert!(rt; text.as_str() == said, "{text}");
}

/// Asserts that the result of a call is a table of this text, or an error with this text.
pub(crate) fn assert_result(rt: &impl Host, outcome: &Result<GPT>, said: &str) {
    let text = got(rt, texts::text_of_result(rt.alloc(), outcome));
    assert!(rt; text.as_str() == said, "{text}");
}

/// Asserts the result of a read of these bytes with sectors of 512 bytes.
pub(crate) fn assert_reads(rt: &impl Host, bytes: &[u8], said: &str) {
    assert_result(rt, &samples::read_image(rt.alloc(), bytes, 512), said);
}

/// Returns the table in these bytes, with sectors of 512 bytes.
pub(crate) fn read(rt: &impl Host, bytes: &[u8]) -> GPT {
    got(rt, samples::read_image(rt.alloc(), bytes, 512))
}

/// Returns a copy of these bytes.
pub(crate) fn copied(rt: &impl Host, bytes: &[u8]) -> Vec<u8> {
    got(rt, bytes.to_vec(rt.alloc()))
}

/// Returns a disk of these bytes.
pub(crate) fn holding(rt: &impl Host, bytes: &[u8]) -> MemoryDisk {
    got(rt, calls::holding(rt.alloc(), bytes))
}

/// Returns a disk of these bytes that fails after `calls` calls.
pub(crate) fn fused(rt: &impl Host, bytes: &[u8], calls: u64) -> MemoryDisk {
    got(rt, calls::fused(rt.alloc(), bytes, calls))
}

/// Returns a disk of these bytes on which only this call fails.
pub(crate) fn failing_once(rt: &impl Host, bytes: &[u8], call: u64) -> FaultyDisk {
    got(rt, faulty::failing_once(rt.alloc(), bytes, call))
}
