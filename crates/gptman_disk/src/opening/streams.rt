//! The standard streams: nothing is opened for writing as descriptor 0, 1 or 2.

use std::alloc::Global;
use std::fs::File;
use std::io::ErrorKind;
use std::os::fd::AsRawFd;
use std::os::unix::fs::FileTypeExt;
use std::rt::Files;
use std::{fs, io, mem};

/// Read-only openings of the image. While they are held, no other file gets the descriptor of a closed standard stream,
/// and output to that stream fails.
#[derive(Drop)]
pub struct Held {
    /// One for each closed standard stream.
    pub streams: Vec<File>,

    /// The last one, whose descriptor is above 2.
    pub above: File,
}

/// Opens the image until its descriptor is above 2: the system assigns the lowest free one.
///
/// # Errors
///
/// If the image cannot be opened for reading, or is neither a file nor a device. The type is tested first, because
/// opening a pipe waits for another program.
pub fn hold<R: Files<File = File>>(files: &R, alloc: Global, image: &str) -> io::Result<Held> {
    if !is_file_or_device(files, image)? {
        return Err(io::Error::from(ErrorKind::InvalidInput));
    }
    let mut streams = Vec::new(alloc);
    let mut above = File::open(files, image)?;
    for _ in 0..3 {
        if above.as_raw_fd() > 2 {
            break;
        }
        let next = File::open(files, image)?;
        streams.push(mem::replace(&mut above, next))?;
    }
    Ok(Held { streams, above })
}

// Reports whether the file type may be a disk.
fn is_file_or_device<R: Files>(files: &R, image: &str) -> io::Result<bool> {
    let kind = fs::metadata(files, image)?.file_type();
    Ok(kind.is_file() || kind.is_block_device() || kind.is_char_device())
}
