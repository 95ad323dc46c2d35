//! Assertions on results of calls, as text.

use gptman::{GPT, Result};
use std::fmt::Debug;
use std::process::Abort;
use test_fixtures::{calls, texts};

/// The text of `InvalidPartitionBoundaries`.
pub(crate) const BOUNDARIES: &str =
    "invalid partition boundaries: partitions must have positive size, must not overlap, and must fit \
     within the disk";

/// The text of `Overflow`.
pub(crate) const OVERFLOW: &str = "an arithmetic operation overflowed";

/// The traits that test helpers need: to fail a test, and memory.
pub(crate) trait Host: Abort + AllocGlobal {}

impl<R: Abort + AllocGlobal> Host for R {}

/// Returns the value of a call that must succeed.
pub(crate) fn got<T, E: Debug>(rt: &impl Abort, outcome: std::result::Result<T, E>) -> T {
    outcome.expect(rt, "a call that should be done was refused")
}

/// Asserts that two texts are equal.
pub(crate) fn assert_text(rt: &impl Abort, text: &str, wanted: &str) {
    assert!(rt; text == wanted, "{text}");
}

/// Asserts that the result of a call is "ok", or an error with this text.
pub(crate) fn assert_said<T>(rt: &impl Host, outcome: &Result<T>, said: &str) {
    assert_text(rt, got(rt, texts::said(rt.alloc(), outcome)).as_str(), said);
}

/// Asserts that the table has these used entries.
pub(crate) fn assert_used(rt: &impl Host, table: &GPT, said: &str) {
    assert_text(rt, got(rt, texts::used(rt.alloc(), table)).as_str(), said);
}

/// Asserts that the table has this text.
pub(crate) fn assert_shown(rt: &impl Host, table: &GPT, said: &str) {
    assert_text(rt, got(rt, texts::shown(rt.alloc(), table)).as_str(), said);
}

/// Asserts that the result of a call is a table of this text, or an error with this text.
pub(crate) fn assert_result(rt: &impl Host, outcome: &Result<GPT>, said: &str) {
    assert_text(
        rt,
        got(rt, texts::text_of_result(rt.alloc(), outcome)).as_str(),
        said,
    );
}

/// Asserts that two tables are equal.
pub(crate) fn assert_same(rt: &impl Abort, one: &GPT, other: &GPT) {
    assert!(rt; calls::are_equal(one, other));
}

/// Asserts that the debug output of the value starts with `start` and contains `within`.
pub(crate) fn assert_printed(rt: &impl Host, value: &impl Debug, start: &str, within: &str) {
    let text = got(rt, format!(in rt.alloc(); "{value:?}"));
    assert!(rt; text.as_str().starts_with(start) && text.as_str().contains(within));
}
