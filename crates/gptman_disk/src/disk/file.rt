//! A disk over a file or a block device.
//!
//! It counts failed system calls. No contract says what the system keeps.

ghost use Rattle.std.specs.Prelude.{◌≡◌, ◌<◌, ◌^◌, IfOk, IfErr};
ghost use Rattle.gptman_disk.specs.File.{file_state, never_honest};

use super::{Disk, count_failure, passes_end, past_end};
use crate::error::Result;
use std::fs::{File, OpenOptions};
use std::io;
use std::io::{Read, Seek, SeekFrom, Write};
use std::rt::Files;

/// A disk over an open file. Its length in bytes is that of the file when it was opened.
///
/// Two things belong to the process, and the program must take care of them:
///
/// - **Standard streams.** A newly opened file gets the lowest free descriptor. If the program was started with
///   standard input, output or error closed, that is 0, 1 or 2, and output then goes into the disk. So first open the
///   same path read-only until the descriptor is above 2, and hold these files until the program ends: output to one of
///   them fails.
/// - **Several writers.** This type takes no lock, and if two programs read the same table and both write a change, one
///   change is lost. If others may write to the file, take `File::lock` on the last of those openings before you open
///   this disk, and hold it until the disk is dropped. Only programs that take this lock too are kept out.
///
/// `opening` does both.
#[derive(Drop)]
pub struct FileDisk {
    file: File,
    size: u64,
    position: u64,
    failures: u64,
    ghost small: { size < 2 ^ 64 },
}

impl FileDisk {
    ghost use Rattle.gptman_disk.specs.Fault.{fault_of, io as io_fault};

    /// Opens the file or block device at `path` for reading and writing, at position 0.
    ///
    ///     let mut disk = FileDisk::open(&rt, "disk.img")?;
    ///
    /// # Errors
    ///
    /// `Io` if the file cannot be opened, or its length cannot be found.
    pub fn open<R: Files<File = File>>(files: &R, path: &str) -> Result<FileDisk>
        ensures position { IfOk result (λ disk. (⟦<FileDisk as Disk>⟧.state disk).position ≡ 0) }
        ensures failures { IfOk result (λ disk. (⟦<FileDisk as Disk>⟧.state disk).failures ≡ 0) }
        ensures refused { IfErr result (λ e. fault_of e ≡ io_fault) }
    {
        FileDisk::over(OpenOptions::new().read(true).write(true).open(files, path)?)
    }

    /// Opens the file at `path` read-only, at position 0. Writes to it fail. Opening a pipe waits until another program
    /// opens it for writing.
    ///
    /// # Errors
    ///
    /// `Io` if the file cannot be opened, or its length cannot be found.
    pub fn open_read<R: Files<File = File>>(files: &R, path: &str) -> Result<FileDisk>
        ensures position { IfOk result (λ disk. (⟦<FileDisk as Disk>⟧.state disk).position ≡ 0) }
        ensures failures { IfOk result (λ disk. (⟦<FileDisk as Disk>⟧.state disk).failures ≡ 0) }
        ensures refused { IfErr result (λ e. fault_of e ≡ io_fault) }
    {
        FileDisk::over(OpenOptions::new().read(true).open(files, path)?)
    }

    // Takes the length, and seeks to the start.
    fn over(file: File) -> Result<FileDisk>
        ensures position { IfOk result (λ disk. (⟦<FileDisk as Disk>⟧.state disk).position ≡ 0) }
        ensures failures { IfOk result (λ disk. (⟦<FileDisk as Disk>⟧.state disk).failures ≡ 0) }
        ensures refused { IfErr result (λ e. fault_of e ≡ io_fault) }
    {
        let mut file = file;
        let size = file.seek(SeekFrom::End(0))?;
        file.seek(SeekFrom::Start(0))?;
        Ok(FileDisk {
            file,
            size,
            position: 0,
            failures: 0,
        })
    }
}

impl Disk for FileDisk {
    ghost state = { λ d. file_state d.size d.position d.failures };

    fn seek_start(&mut self, at: u64) -> io::Result<u64> {
        if let Err(error) = self.file.seek(SeekFrom::Start(at)) {
            count_failure(&mut self.failures);
            return Err(error);
        }
        self.position = at;
        Ok(at)
    }

    fn seek_end(&mut self) -> io::Result<u64> {
        if let Err(error) = self.file.seek(SeekFrom::Start(self.size)) {
            count_failure(&mut self.failures);
            return Err(error);
        }
        self.position = self.size;
        Ok(self.size)
    }

    /// Reads as the trait says. A read past the end fails without a system call.
    fn read_exact(&mut self, buf: &mut [u8]) -> io::Result<()> {
        let len = buf.len() as u64;
        if passes_end(self.size, self.position, len) {
            return Err(past_end());
        }
        if let Err(error) = self.file.read_exact(buf) {
            count_failure(&mut self.failures);
            return Err(error);
        }
        self.position += len;
        Ok(())
    }

    fn write_all(&mut self, buf: &[u8]) -> io::Result<()> {
        if let Err(error) = self.file.write_all(buf) {
            count_failure(&mut self.failures);
            return Err(error);
        }
        self.position += buf.len() as u64;
        Ok(())
    }

    fn sync(&mut self) -> io::Result<()> {
        if let Err(error) = self.file.sync_all() {
            count_failure(&mut self.failures);
            return Err(error);
        }
        Ok(())
    }

    ghost bounded = { λ d. d.small };

    ghost sound = { λ d honest. absurd (never_honest honest) };
}
