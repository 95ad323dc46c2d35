//! Opens a disk image or a block device so that output of the program cannot end up in it, and so that programs that
//! write to it do so one after another.

pub mod streams;

use crate::disk::file::FileDisk;
use crate::error::Result;
use std::fs::File;
use std::rt::Files;
pub use streams::{Held, hold};

/// Opens the image as a disk, read-only unless `writes`.
///
/// For writing it first waits for the advisory `flock` lock on `held.above`, which is released when that file is
/// closed. If locking fails, as in a file system without locks, the image is opened without a lock.
pub fn open<R: Files<File = File>>(
    files: &R,
    image: &str,
    held: &Held,
    writes: bool,
) -> Result<FileDisk> {
    if !writes {
        return FileDisk::open_read(files, image);
    }
    let _ = held.above.lock();
    FileDisk::open(files, image)
}
