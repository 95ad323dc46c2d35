//! Finds the entry that a number, a name or a GUID selects.

ghost use Rattle.std.specs.Prelude.{◌≡◌, IfErr, IfOk};
ghost use Rattle.gptedit_core.specs.Targets.{is_selected, IsOnly, RefusesTarget};

use gptman::{GPT, GPTPartitionEntry};

/// Selects an entry of a table.
#[derive(Clone, Copy, PartialEq, Eq, Debug)]
pub enum Target<'a> {
    /// The entry with this number.
    Number(u32),
    /// The used entry whose name has this text.
    Name(&'a str),
    /// The used entry with this unique GUID, 16 bytes in their order on the disk.
    Guid([u8; 16]),
}

/// Why no entry is selected.
#[derive(Clone, Copy, PartialEq, Eq, Debug)]
pub enum NotFound {
    /// No used entry has the name or GUID.
    None,
    /// Several used entries have the name or GUID. These are the numbers of the first two.
    Several(u32, u32),
}

/// Returns the number of the entry that the target selects. For `Target::Number` this is the number itself, which is not
/// checked: it may be that of an unused entry or of none.
///
/// Fails with `None` if no used entry has the name or GUID, and with `Several` if more than one has.
pub fn find_target(table: &GPT, target: &Target<'_>) -> Result<u32, NotFound>
    ensures found { IfOk result (IsOnly table.now target.now) }
    ensures refused { IfErr result (RefusesTarget table.now target.now) }
{
    if let Target::Number(number) = target {
        return Ok(*number);
    }
    let mut found = None;
    for (number, entry) in table.iter() {
        if is_selected(target, entry) {
            if let Some(first) = found {
                return Err(NotFound::Several(first, number));
            }
            found = Some(number);
        }
    }
    found.ok_or(NotFound::None)
}

// Reports whether the entry is used and has the name or GUID.
fn is_selected(target: &Target<'_>, entry: &GPTPartitionEntry) -> bool
    ensures { result ≡ is_selected target.now entry.now }
{
    let has_it = match target {
        Target::Number(_) => false,
        Target::Name(name) => entry.partition_name.as_str() == *name,
        Target::Guid(guid) => entry.unique_partition_guid == *guid,
    };
    has_it && entry.is_used()
}
