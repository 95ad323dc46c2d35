//! The block device or file of a path.

use crate::kernel::read_first_line;
use std::alloc::AllocError;
use std::fs;
use std::fs::Metadata;
use std::os::unix::fs::{FileTypeExt, MetadataExt};
use std::rt::Files;

/// The block device or file of a path.
#[derive(Clone, Copy, PartialEq, Eq)]
pub(crate) enum Target {
    /// The block device with this number.
    Device { major: u64, minor: u64 },
    /// The file with this inode, on the file system with this device number.
    File { major: u64, minor: u64, inode: u64 },
}

impl Target {
    /// Returns the target with this metadata; `None` if it is neither a file nor a block device.
    pub(crate) fn of(metadata: &Metadata) -> Option<Target> {
        let kind = metadata.file_type();
        if kind.is_block_device() {
            let (major, minor) = split(metadata.rdev());
            return Some(Target::Device { major, minor });
        }
        if kind.is_file() {
            let (major, minor) = split(metadata.dev());
            let inode = metadata.ino();
            return Some(Target::File {
                major,
                minor,
                inode,
            });
        }
        None
    }

    /// Returns the target of the path.
    pub(crate) fn at<R: Files>(rt: &R, path: &str) -> Option<Target> {
        match fs::metadata(rt, path) {
            Ok(metadata) => Target::of(&metadata),
            Err(_missing) => None,
        }
    }

    /// Returns the block device whose number is in this file of `/sys`, such as `8:1`.
    pub(crate) fn named_in<R: Files + AllocGlobal>(
        rt: &R,
        path: &str,
    ) -> Result<Option<Target>, AllocError> {
        match read_first_line(rt, path)? {
            Some(line) => Ok(Target::read(line.as_str())),
            None => Ok(None),
        }
    }

    /// Parses the number of a block device, such as `8:1`.
    pub(crate) fn read(text: &str) -> Option<Target> {
        let (major, minor) = read_pair(text)?;
        Some(Target::Device { major, minor })
    }
}

/// Parses the major and minor number of a device, such as `8:1`.
pub(crate) fn read_pair(text: &str) -> Option<(u64, u64)> {
    let (major, minor) = text.split_once(":")?;
    let major = major.parse::<u64>().ok()?;
    let minor = minor.parse::<u64>().ok()?;
    Some((major, minor))
}

/// Splits a device number into major and minor, by the encoding of the C library.
pub(crate) fn split(number: u64) -> (u64, u64) {
    let major = number >> 32 & 0xffff_f000 | number >> 8 & 0xfff;
    let minor = number >> 12 & 0xffff_ff00 | number & 0xff;
    (major, minor)
}
