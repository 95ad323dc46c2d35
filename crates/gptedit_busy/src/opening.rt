//! Opens an image, and locks it.

use crate::device::Device;
use crate::holders::{has_record_lock, is_held_by_ancestor};
use crate::node::Node;
use crate::target::Target;
use gptman::opening::streams::{Held, hold};
use gptman::{Error, FileDisk};
use std::alloc::AllocError;
use std::fs::{File, Metadata, OpenOptions, TryLockError};
use std::io::ErrorKind;
use std::os::fd::AsRawFd;
use std::os::unix::fs::MetadataExt;
use std::rt::Files;
use std::{fmt, fs, io};

/// The action if another program holds the lock.
#[derive(Clone, Copy)]
pub enum Lock {
    /// Waits for it.
    Wait,
    /// Refuses the image.
    Fail,
    /// Takes no lock.
    None,
}

/// An open image, which keeps its lock.
#[derive(Drop)]
pub struct Opened {
    /// The disk.
    pub disk: FileDisk,
    /// The block device; `None` for a file.
    pub device: Option<Device>,
    // The device or file of the path.
    pub(crate) target: Target,
    // Keeps the places of closed standard streams, and the lock.
    held: Held,
    // Keeps the lock if the file system has none for a read-only file.
    lock: Option<File>,
}

impl Opened {
    // Returns the descriptor of the read-only file.
    pub(crate) fn descriptor(&self) -> i32 {
        self.held.above.as_raw_fd()
    }
}

/// The holder of the lock.
#[derive(Clone, Copy)]
pub enum Holder {
    /// A program that started this one.
    Ancestor,
    /// Another program.
    Other,
    /// Another program with record locks on the image, such as qemu.
    Machine,
}

/// An error of opening an image.
#[derive(Drop)]
pub enum OpenError {
    /// The system does not open it.
    Io(io::Error),
    /// It is neither a file nor a block device.
    NotADisk,
    /// The lock is held.
    Locked { holder: Holder },
    /// Another file was put at the path meanwhile.
    Replaced,
    /// An allocation failed.
    OutOfMemory,
}

/// Opens an image, read-only unless `writes`. Takes the `flock` lock first, unless `lock` is `Lock::None`; prints a
/// line to standard error before it waits.
///
/// If the file system has no locks, none is taken. If it has none for a read-only file, as on NFS, the lock is taken on
/// one that is open for writing; if nothing is to be written, none is taken.
///
/// # Errors
/// `NotADisk` if the path leads to neither a file nor a block device. `Locked` if the lock is held and either `lock` is
/// `Lock::Fail` or an ancestor of this process holds it, for which it would wait forever; or if another program holds
/// record locks, as qemu does. `Replaced` if the path leads to another file under the lock. `Io` if the system does not
/// open the image, `OutOfMemory` if an allocation fails.
pub fn open<R>(rt: &R, name: &str, lock: Lock, writes: bool) -> Result<Opened, OpenError>
where
    R: Files<File = File> + AllocGlobal + Eprint + Clone + Drop,
{
    let Some(target) = Target::of(&fs::metadata(rt, name)?) else {
        return Err(OpenError::NotADisk);
    };
    let held = hold(rt, rt.alloc(), name)?;
    let metadata = held.above.metadata()?;
    let lock = match lock {
        Lock::None => None,
        lock => take_lock(rt, name, lock, writes, &held.above, &metadata)?,
    };
    let disk = if writes {
        FileDisk::open(rt, name)?
    } else {
        FileDisk::open_read(rt, name)?
    };
    if !is_same(&metadata, &fs::metadata(rt, name)?) || Target::of(&metadata) != Some(target) {
        return Err(OpenError::Replaced);
    }
    let device = Device::of(rt, target)?;
    Ok(Opened {
        disk,
        device,
        target,
        held,
        lock,
    })
}

// Reports whether both describe the same file.
fn is_same(one: &Metadata, other: &Metadata) -> bool {
    one.dev() == other.dev() && one.ino() == other.ino()
}

// Takes the `flock` lock on a read-only file, and refuses a file with record locks. Returns the file open for writing
// that keeps the lock, if that was necessary.
fn take_lock<R>(
    rt: &R,
    name: &str,
    lock: Lock,
    writes: bool,
    file: &File,
    metadata: &Metadata,
) -> Result<Option<File>, OpenError>
where
    R: Files<File = File> + AllocGlobal + Eprint + Clone + Drop,
{
    let mut keeper = None;
    if !lock_opening(rt, name, lock, file, metadata)? && writes {
        keeper = Some(lock_to_write(rt, name, lock, metadata)?);
    }
    if has_record_lock(rt, file, metadata)? {
        return Err(OpenError::Locked {
            holder: Holder::Machine,
        });
    }
    Ok(keeper)
}

// Opens the file for writing and takes the lock on that, if the file system has locks.
fn lock_to_write<R>(rt: &R, name: &str, lock: Lock, metadata: &Metadata) -> Result<File, OpenError>
where
    R: Files<File = File> + AllocGlobal + Eprint + Clone + Drop,
{
    let file = OpenOptions::new().read(true).write(true).open(rt, name)?;
    if !is_same(metadata, &file.metadata()?) {
        return Err(OpenError::Replaced);
    }
    lock_opening(rt, name, lock, &file, metadata)?;
    Ok(file)
}

// Takes the lock, and waits for it. Returns false if the file system has none for this file.
fn lock_opening<R>(
    rt: &R,
    name: &str,
    lock: Lock,
    file: &File,
    metadata: &Metadata,
) -> Result<bool, OpenError>
where
    R: Files + AllocGlobal + Eprint + Clone + Drop,
{
    match file.try_lock() {
        Ok(()) => Ok(true),
        Err(TryLockError::WouldBlock) => {
            wait_for_lock(rt, name, lock, file, metadata)?;
            Ok(true)
        }
        Err(TryLockError::Error(_refused)) => Ok(false),
    }
}

// Waits for the lock, unless an ancestor holds it or waiting is not wanted.
fn wait_for_lock<R>(
    rt: &R,
    name: &str,
    lock: Lock,
    file: &File,
    metadata: &Metadata,
) -> Result<(), OpenError>
where
    R: Files + AllocGlobal + Eprint + Clone + Drop,
{
    if is_held_by_ancestor(rt, Node::of(rt, file, metadata)?)? {
        return Err(OpenError::Locked {
            holder: Holder::Ancestor,
        });
    }
    if lock == Lock::Fail {
        return Err(OpenError::Locked {
            holder: Holder::Other,
        });
    }
    let _ = eprintln!(rt; "waiting for the lock on {name}");
    let _ = file.lock();
    Ok(())
}

impl fmt::Display for OpenError {
    fn fmt<W: fmt::Write>(&self, f: &mut fmt::Formatter<W>) -> fmt::Result {
        match self {
            OpenError::Io(error) => write!(f, "{error}"),
            OpenError::NotADisk => f.write_str("the image must be a file or a block device"),
            OpenError::Locked { holder } => write!(f, "{holder}"),
            OpenError::Replaced => {
                f.write_str("another file has replaced it meanwhile; run the command again")
            }
            OpenError::OutOfMemory => f.write_str("out of memory"),
        }
    }
}

impl fmt::Display for Holder {
    fn fmt<W: fmt::Write>(&self, f: &mut fmt::Formatter<W>) -> fmt::Result {
        f.write_str(match self {
            Holder::Ancestor => {
                "the program that started this one holds the lock\n\
                 use --lock none to run under that lock"
            }
            Holder::Other => {
                "another program holds the lock\n\
                 run the command again later, or with --lock wait"
            }
            Holder::Machine => {
                "another program, for example a virtual machine, has the image open and locked\n\
                 end that program first; --lock none ignores its lock, which may damage the contents"
            }
        })
    }
}

impl From<io::Error> for OpenError {
    fn from(error: io::Error) -> OpenError {
        match error.kind() {
            ErrorKind::OutOfMemory => OpenError::OutOfMemory,
            _ => OpenError::Io(error),
        }
    }
}

impl From<Error> for OpenError {
    fn from(error: Error) -> OpenError {
        match error {
            Error::Io(error) => OpenError::Io(error),
            _ => OpenError::OutOfMemory,
        }
    }
}

impl From<AllocError> for OpenError {
    fn from(_error: AllocError) -> OpenError {
        OpenError::OutOfMemory
    }
}
