//! Fields of a table that its script omits.

use gptedit_text::has_whole_text;
use gptman::GPT;
use std::alloc::{AllocError, Global};
use std::fmt;

// The attribute bits that have no word in a script: 3 to 47.
const UNNAMED_BITS: u64 = 0x0000_ffff_ffff_fff8;

/// A field of a partition that a script does not hold in full.
#[derive(Clone, Copy)]
pub enum Loss {
    /// Bits 3 to 47 of the attributes of the partition with this number.
    Attributes(u32),
    /// The name of the partition with this number: it has half a surrogate pair, or units after a zero.
    Name(u32),
}

/// Returns the fields of the partitions that the script of the table does not hold in full.
pub fn find_losses(alloc: Global, table: &GPT) -> Result<Vec<Loss>, AllocError> {
    let mut losses = Vec::new(alloc);
    for (number, entry) in table.iter() {
        if entry.is_unused() {
            continue;
        }
        if entry.attribute_bits & UNNAMED_BITS != 0 {
            losses.push(Loss::Attributes(number))?;
        }
        if !has_whole_text(&entry.partition_name) {
            losses.push(Loss::Name(number))?;
        }
    }
    Ok(losses)
}

impl fmt::Display for Loss {
    fn fmt<W: fmt::Write>(&self, f: &mut fmt::Formatter<W>) -> fmt::Result {
        match self {
            Loss::Attributes(number) => write!(
                f,
                "the script omits bits 3 to 47 of the attributes of partition {number}"
            ),
            Loss::Name(number) => {
                write!(
                    f,
                    "the script does not hold all units of the name of partition {number}"
                )
            }
        }?;
        f.write_str("; the layout that `gptedit dump` prints without --sfdisk has them")
    }
}
