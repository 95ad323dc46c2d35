//! Uses of a disk and its partitions, and the changes of the table that they permit.

ghost use Rattle.std.specs.Prelude.{◌↔◌, All, Contains, IfSome, IsNone, IsTrue, option_copied};
ghost use Rattle.gptedit_look.specs.Harm.{IsAllowed, IsHarmless, IsKept};

use gptman::{GPT, GPTPartitionEntry};

/// The part of a disk that is in use.
#[derive(Clone, Copy, PartialEq, Eq)]
pub enum Part {
    /// The whole disk.
    Whole,
    /// The partition of this number.
    Partition(u32),
}

/// How it is used.
#[derive(Drop)]
pub enum How {
    /// It is mounted at this path.
    Mounted(String),
    /// It is swap space.
    Swap,
    /// The device of this name is built on it.
    Held(String),
    /// It is part of a mounted Btrfs file system.
    Btrfs,
    /// This file of the kernel cannot be read, so uses are unknown.
    Unknown(&'static str),
}

/// A use of a part of a disk.
#[derive(Drop)]
pub struct Use {
    /// The part.
    pub part: Part,
    /// How it is used.
    pub how: How,
}

/// The uses of a disk.
#[derive(Drop)]
pub struct Users {
    /// All uses that were found.
    pub uses: Vec<Use>,
}

impl Users {
    /// Returns the first use that does not permit the change of the table from `was` to `next`. If either is `None`, no
    /// use permits it.
    pub fn find_harm(&self, was: Option<&GPT>, next: Option<&GPT>) -> Option<&Use>
        ensures none { IsNone result ↔ All (λ found. IsAllowed found.part (option_copied was.entry)
            (option_copied next.entry)) self.now.uses.items }
        ensures harmed { IfSome (option_copied result) (λ found. Contains self.now.uses.items found ×
            ¬ IsAllowed found.part (option_copied was.entry) (option_copied next.entry)) }
    {
        for found in self.uses.iter() {
            if !allows(found.part, was, next) {
                return Some(found);
            }
        }
        None
    }
}

// Reports whether a use of this part permits the change.
fn allows(part: Part, was: Option<&GPT>, next: Option<&GPT>) -> bool
    ensures { IsTrue result ↔ IsAllowed part (option_copied was.entry) (option_copied next.entry) }
{
    match (was, next) {
        (Some(was), Some(next)) => is_harmless(part, was, next),
        _ => false,
    }
}

/// Reports whether a part in use permits the change of the table from `was` to `next`: it is a partition, used in both,
/// that keeps its number, start, type and GUID and does not end earlier.
pub fn is_harmless(part: Part, was: &GPT, next: &GPT) -> bool
    ensures { IsTrue result ↔ IsHarmless part was.now next.now }
{
    match part {
        Part::Whole => false,
        Part::Partition(number) => match (was.get(number), next.get(number)) {
            (Some(old), Some(new)) => is_kept(old, new),
            _ => false,
        },
    }
}

// Reports whether a used entry keeps its start, type and GUID, and does not end earlier.
fn is_kept(old: &GPTPartitionEntry, new: &GPTPartitionEntry) -> bool
    ensures { IsTrue result ↔ IsKept old.now new.now }
{
    old.is_used()
        && old.starting_lba == new.starting_lba
        && old.partition_type_guid == new.partition_type_guid
        && old.unique_partition_guid == new.unique_partition_guid
        && old.ending_lba <= new.ending_lba
}
