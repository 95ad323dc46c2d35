//! Tests of `gptman`: those of the Rust crate, callers that are proved from its contracts, and cases that `test_rows`
//! cannot express. It exports nothing.
#![tactic(auto)]

#[cfg(test)]
mod asserts;
#[cfg(test)]
mod callers;
#[cfg(test)]
mod carried;
#[cfg(test)]
mod fixtures;
#[cfg(test)]
mod oracle;
#[cfg(test)]
mod rows;
#[cfg(test)]
mod searches;
