//! Tests of crashes and failed calls: for reads, writes, lists of edits, MBRs and commands, also with a failing output.
//! It exports nothing.
#![tactic(auto)]

#[cfg(test)]
mod asserts;
#[cfg(test)]
mod case;
#[cfg(test)]
mod commands;
#[cfg(test)]
mod edits;
#[cfg(test)]
mod lines;
#[cfg(test)]
mod mbr;
#[cfg(test)]
mod program;
#[cfg(test)]
mod reading;
#[cfg(test)]
mod writing;
