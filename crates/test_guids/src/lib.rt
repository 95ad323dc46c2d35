//! Tests of `gptguid_core` for properties without a clause: the use of the system's random bytes, and an output that
//! fails. `tests/program/guids.sh` tests forms and types on the built program.
#![tactic(auto)]

#[cfg(test)]
mod random;
