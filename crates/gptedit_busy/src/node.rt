//! The name of a file in the list of locks.

use crate::kernel::read_text;
use crate::target::{read_pair, split};
use std::alloc::AllocError;
use std::fs::{File, Metadata};
use std::os::fd::AsRawFd;
use std::os::unix::fs::MetadataExt;
use std::rt::Files;

/// The name of a file in the list of locks: the device of its file system, and its inode. On Btrfs and overlayfs its
/// metadata has another device.
#[derive(Clone, Copy)]
pub(crate) struct Node {
    system: System,
    inode: u64,
}

// The file system of a file.
#[derive(Clone, Copy)]
enum System {
    // The file system on this device.
    Device { major: u64, minor: u64 },
    // A file system without a device, whose number cannot be read.
    Unknown,
}

impl Node {
    /// Returns the name of an open file, by the kernel's data on its descriptor and mount.
    ///
    /// If the mount is not listed, as in a chroot, the device of the metadata is used. If that is not a real device, as
    /// on Btrfs, the file system is unknown, and matches every one without a device.
    pub(crate) fn of<R: Files + AllocGlobal>(
        rt: &R,
        file: &File,
        metadata: &Metadata,
    ) -> Result<Node, AllocError> {
        let path = format!(in rt.alloc(); "/proc/self/fdinfo/{}", file.as_raw_fd())?;
        let Some(info) = read_text(rt, path.as_str())? else {
            return Ok(Node {
                system: System::of(metadata),
                inode: metadata.ino(),
            });
        };
        let system = match value_in(info.as_str(), "mnt_id:") {
            Some(mount) => find_system(rt, mount)?,
            None => None,
        };
        let inode = value_in(info.as_str(), "ino:").and_then(|text| text.parse::<u64>().ok());
        Ok(Node {
            system: system.unwrap_or(System::of(metadata)),
            inode: inode.unwrap_or(metadata.ino()),
        })
    }

    /// Reports whether this is the name of the file in the list of locks, such as `08:01:123`: the device in
    /// hexadecimal, the inode in decimal digits.
    pub(crate) fn is_named(self, name: &str) -> bool {
        let mut parts = name.split(':');
        let major = u64::from_str_radix(parts.next().unwrap_or(""), 16).ok();
        let minor = u64::from_str_radix(parts.next().unwrap_or(""), 16).ok();
        let inode = parts.next().unwrap_or("").parse::<u64>().ok();
        let may_be_its_system = match self.system {
            System::Device {
                major: own_major,
                minor: own_minor,
            } => major == Some(own_major) && minor == Some(own_minor),
            System::Unknown => major == Some(0),
        };
        may_be_its_system && inode == Some(self.inode)
    }
}

impl System {
    // Returns the file system by the metadata of a file. The major number 0 is not a real device.
    fn of(metadata: &Metadata) -> System {
        match split(metadata.dev()) {
            (0, _) => System::Unknown,
            (major, minor) => System::Device { major, minor },
        }
    }
}

// Returns the value of the line that begins with this key.
fn value_in<'a>(text: &'a str, key: &str) -> Option<&'a str> {
    for line in text.lines() {
        if let Some(value) = line.strip_prefix(key) {
            return Some(value.trim());
        }
    }
    None
}

// Returns the file system of this mount.
fn find_system<R: Files + AllocGlobal>(rt: &R, mount: &str) -> Result<Option<System>, AllocError> {
    let Some(mounts) = read_text(rt, "/proc/self/mountinfo")? else {
        return Ok(None);
    };
    for line in mounts.as_str().lines() {
        let mut words = line.split(' ');
        if words.next() == Some(mount) {
            return Ok(words.nth(1).and_then(read_system));
        }
    }
    Ok(None)
}

// Parses the device of a file system, such as `0:39`.
fn read_system(text: &str) -> Option<System> {
    let (major, minor) = read_pair(text)?;
    Some(System::Device { major, minor })
}
