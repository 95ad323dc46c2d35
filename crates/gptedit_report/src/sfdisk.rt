//! The spellings of `sfdisk`, in JSON and scripts.

use gptedit_values::sfdisk_name;
use std::fmt;

// The folders of links to disks.
const LINKS: [&str; 3] = ["/dev/disk/by-id", "/dev/disk/by-path", "/dev/mapper"];

// The lowest attribute bit that belongs to the partition type.
const TYPE_BITS: u32 = 48;

/// The attributes as `sfdisk` spells them, for example `RequiredPartition GUID:60,63`. It has no spelling for bits 3 to
/// 47.
#[derive(Clone, Copy)]
pub(crate) struct Attributes(pub(crate) u64);

impl fmt::Display for Attributes {
    fn fmt<W: fmt::Write>(&self, f: &mut fmt::Formatter<W>) -> fmt::Result {
        let mut space = "";
        for bit in 0..TYPE_BITS {
            match sfdisk_name(u64::from(bit)) {
                Some(name) if self.0 >> bit & 1 == 1 => {
                    write!(f, "{space}{name}")?;
                    space = " ";
                }
                _ => (),
            }
        }
        if self.0 >> TYPE_BITS == 0 {
            return Ok(());
        }
        write!(f, "{space}GUID:")?;
        write_type_bits(f, self.0)
    }
}

// Writes the numbers of the bits that belong to the type.
fn write_type_bits<W: fmt::Write>(f: &mut fmt::Formatter<W>, bits: u64) -> fmt::Result {
    let mut comma = "";
    for bit in TYPE_BITS..64 {
        if bits >> bit & 1 == 1 {
            write!(f, "{comma}{bit}")?;
            comma = ",";
        }
    }
    Ok(())
}

/// The name of a partition's device without the number at its end, as `sfdisk` makes it from the path of the disk.
#[derive(Clone, Copy)]
pub(crate) struct NodePrefix<'a> {
    path: &'a str,
    separator: &'static str,
}

impl NodePrefix<'_> {
    /// Returns the prefix for a disk: its path, and `p` if it ends in a digit. At the end of a path `disc` becomes
    /// `part`. A link that `udev` or the device mapper makes is followed by `-part`.
    pub(crate) fn of(image: &str) -> NodePrefix<'_> {
        let (path, separator) = match (image.strip_suffix("disc"), image.as_bytes()) {
            (Some(path), _) => (path, "part"),
            (None, [.., b'0'..=b'9']) => (image, "p"),
            (None, _) => (image, ""),
        };
        let is_link = LINKS.iter().any(|folder| image.starts_with(*folder));
        NodePrefix {
            path,
            separator: if is_link { "-part" } else { separator },
        }
    }
}

impl fmt::Display for NodePrefix<'_> {
    fn fmt<W: fmt::Write>(&self, f: &mut fmt::Formatter<W>) -> fmt::Result {
        write!(f, "{}{}", self.path, self.separator)
    }
}
