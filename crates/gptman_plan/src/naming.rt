//! Names of partitions as UTF-8.

ghost use Rattle.std.specs.Prelude.{◌≡◌, ◌≢◌, ◌≤◌, ◌+◌, ◌∷◌, ◌++◌, drop, length, true, false, IfErr, IfOk, MatchOption};
ghost use Rattle.std.specs.Str.{chars};
ghost use Rattle.gptman.specs.Fault.{fault_of, out_of_memory};
ghost use Rattle.gptman.specs.Name.{units_of};
ghost use Rattle.gptman_plan.specs.Naming.{name_text};

use crate::records::Partition;
use gptman::{PartitionName, Result};
use std::alloc::Global;

/// Returns the name of a partition.
///
/// # Errors
///
/// `OutOfMemory` if its text cannot be allocated.
pub fn name_of(alloc: Global, partition: &Partition) -> Result<PartitionName>
    ensures text { IfOk result (λ name. name.text ≡ name_text partition.now.name) }
    ensures refused { IfErr result (λ e. fault_of e ≡ out_of_memory) }
{
    PartitionName::from_units(alloc, partition.name)
}

/// Returns the 36 units of a name with this text, or `None` if a read of them would not return the whole text.
///
/// # Errors
///
/// `OutOfMemory` if an allocation fails.
pub fn units_for(alloc: Global, text: &str) -> Result<Option<[u16; 36]>>
    ensures units { IfOk result (λ found. MatchOption found
        (name_text (units_of (chars text.now)) ≢ text.now)
        (λ units. (units ≡ units_of (chars text.now)) × (name_text units ≡ text.now))) }
    ensures refused { IfErr result (λ e. fault_of e ≡ out_of_memory) }
{
    let name = PartitionName::new(alloc, text)?;
    let units = *name.units();
    let read = PartitionName::from_units(alloc, units)?;
    if read.as_str() != text {
        return Ok(None);
    }
    Ok(Some(units))
}

/// Copies these bytes and a zero to the start of the array, and reports whether it was long enough.
pub fn copy_text(bytes: &[u8], text: &mut [u8]) -> bool
    ensures contents { result ≡ true → text.new ≡ bytes.now ++ 0 ∷ drop (length bytes.now + 1) text.old }
    ensures room { result ≡ false → length text.old ≤ length bytes.now }
    ensures kept { result ≡ false → text.new ≡ text.old }
{
    if text.len() <= bytes.len() {
        return false;
    }
    text[..bytes.len()].copy_from_slice(bytes);
    text[bytes.len()] = 0;
    true
}
