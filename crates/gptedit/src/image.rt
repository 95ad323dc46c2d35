//! An open image.

use crate::failure::{Failure, refuse, refuse_error, refuse_plain};
use gptedit_busy::{Holder, Lock, OpenError, Opened};
use gptedit_look::salvage::salvage;
use gptedit_look::{Look, Looked, find_format, look};
use gptedit_report::{Commands, Lift, Message, NoTableText, Reason};
use gptedit_values::ShellWord;
use gptman::sizes::MAX_ENTRY_COUNT;
use gptman::{Error, FileDisk};
use std::alloc::{AllocError, Global};
use std::fs::File;
use std::io::ErrorKind;
use std::rt::Files;
use std::{fmt, io};

/// An open image.
#[derive(Drop)]
pub struct Image<'a> {
    /// The path of the image or device, as given by the user.
    pub name: &'a str,
    /// The disk, and the device that it is.
    pub opened: Opened,
    // The sector size in bytes, if it is known before the table is read.
    known_size: Option<u64>,
}

/// How an image is opened.
#[derive(Clone, Copy)]
pub struct Opening {
    /// The sector size in bytes that was requested.
    pub sector_size: Option<u64>,
    /// How the lock is taken.
    pub lock: Lock,
    /// Whether it is opened for writing.
    pub writes: bool,
}

impl<'a> Image<'a> {
    /// Opens an image. Refuses anything but a regular file or block device, and an image in a format other than raw.
    pub fn open<R: Files<File = File> + AllocGlobal + Eprint + Clone + Drop>(
        rt: &R,
        name: &'a str,
        opening: &Opening,
    ) -> Result<Image<'a>, Failure> {
        let alloc = rt.alloc();
        let mut opened = match gptedit_busy::open(rt, name, opening.lock, opening.writes) {
            Ok(opened) => opened,
            Err(error) => return Err(not_opened(alloc, name, &error)),
        };
        refuse_other_formats(alloc, name, &mut opened.disk)?;
        let known_size = match (opening.sector_size, &opened.device) {
            (None, Some(device)) => device.sector_size(rt)?,
            (size, _) => size,
        };
        Ok(Image {
            name,
            opened,
            known_size,
        })
    }

    /// Inspects the disk. The sector size is the known one, else `usual_size`, else it is detected.
    pub fn look(&mut self, alloc: Global, usual_size: Option<u64>) -> Result<Look, Failure> {
        let sector_size = self.known_size.or(usual_size);
        match look(alloc, &mut self.opened.disk, sector_size) {
            Ok(Looked::Seen(look)) => Ok(look),
            Ok(Looked::TooMany(count)) => {
                let image = self.name;
                Err(refuse(alloc, image, &TooMany { count, image }))
            }
            Err(error) => Err(refuse_error(alloc, self.name, &error)),
        }
    }

    /// Returns the sector size in bytes, if it is known before the table is read.
    pub fn known_size(&self) -> Option<u64> {
        self.known_size
    }

    /// Returns the failure that no copy of the table is good, with the fault of each and what can be salvaged.
    pub fn no_table(&mut self, alloc: Global, look: &Look) -> Failure {
        self.without_table(alloc, look, "")
    }

    /// Returns the same failure for `apply`, and mentions `--create`.
    pub fn no_table_to_apply(&mut self, alloc: Global, look: &Look) -> Failure {
        self.without_table(
            alloc,
            look,
            "\nif there never was a table, use --create to make one",
        )
    }

    fn without_table(&mut self, alloc: Global, look: &Look, more: &'static str) -> Failure {
        let salvaged = match salvage(alloc, &mut self.opened.disk, self.known_size) {
            Ok(salvaged) => salvaged,
            Err(error) => return refuse_error(alloc, self.name, &error),
        };
        let text = NoTableText {
            look,
            salvaged: &salvaged,
            image: self.name,
        };
        refuse(alloc, self.name, &WithoutTable { text, more })
    }

    /// Refuses to change a device of unknown sector size, and a disk that failed while a copy of the table was read. A
    /// copy past the end of the disk is not such a failure.
    pub fn refuse_unknown(&self, alloc: Global, look: &Look) -> Result<(), Failure> {
        if self.opened.device.is_some() && self.known_size.is_none() {
            return Err(refuse_plain(alloc, self.name, Reason::NoSectorSize, NO_SECTOR_SIZE));
        }
        let copies = &look.copies;
        for copy in [&copies.primary, &copies.backup] {
            match copy {
                Err(Error::Io(error)) if error.kind() != ErrorKind::UnexpectedEof => {
                    return Err(refuse(alloc, self.name, &FailedReading(error)));
                }
                _ => (),
            }
        }
        Ok(())
    }
}

fn not_opened(alloc: Global, name: &str, error: &OpenError) -> Failure {
    match error {
        OpenError::OutOfMemory => Failure::OutOfMemory,
        error => refuse(alloc, name, &NotOpened(error)),
    }
}

// Message: the image is not opened.
#[derive(Clone, Copy)]
struct NotOpened<'a>(&'a OpenError);

impl fmt::Display for NotOpened<'_> {
    fn fmt<W: fmt::Write>(&self, f: &mut fmt::Formatter<W>) -> fmt::Result {
        write!(f, "{}", self.0)
    }
}

impl Message for NotOpened<'_> {
    fn reason(&self) -> Reason {
        match self.0 {
            OpenError::Io(_) => Reason::NotOpened,
            OpenError::NotADisk => Reason::NotADisk,
            OpenError::Locked { .. } => Reason::Locked,
            OpenError::Replaced => Reason::Replaced,
            OpenError::OutOfMemory => Reason::OutOfMemory,
        }
    }

    fn lifted_by(&self) -> Option<Lift> {
        match self.0 {
            OpenError::Locked { holder } => match holder {
                Holder::Ancestor | Holder::Machine => Some(Lift::NoLock),
                Holder::Other => None,
            },
            _ => None,
        }
    }
}

// Message: no copy of the table is good, and a further line.
#[derive(Clone, Copy)]
struct WithoutTable<'a> {
    text: NoTableText<'a>,
    more: &'static str,
}

impl fmt::Display for WithoutTable<'_> {
    fn fmt<W: fmt::Write>(&self, f: &mut fmt::Formatter<W>) -> fmt::Result {
        write!(f, "{}{}", self.text, self.more)
    }
}

impl Message for WithoutTable<'_> {
    fn reason(&self) -> Reason {
        self.text.reason()
    }

    fn add_commands(&self, commands: &mut Commands) -> Result<(), AllocError> {
        self.text.add_commands(commands)
    }
}

// Refuses an image that is not raw.
fn refuse_other_formats(alloc: Global, image: &str, disk: &mut FileDisk) -> Result<(), Failure> {
    match find_format(alloc, disk) {
        Ok(None) => Ok(()),
        Ok(Some(format)) => Err(refuse(alloc, image, &OtherFormat { format, image })),
        Err(error) => Err(refuse_error(alloc, image, &error)),
    }
}

// Message: the image is in another format.
#[derive(Clone, Copy)]
struct OtherFormat<'a> {
    format: &'static str,
    image: &'a str,
}

impl fmt::Display for OtherFormat<'_> {
    fn fmt<W: fmt::Write>(&self, f: &mut fmt::Formatter<W>) -> fmt::Result {
        let image = ShellWord(self.image);
        writeln!(f, "the format of the image is {}, not raw", self.format)?;
        if !is_of_qemu(self.format) {
            return f.write_str("convert it to a raw image with a program for that format");
        }
        write!(
            f,
            "convert it with `qemu-img convert -O raw {image} {image}.raw`, or export it with qemu-nbd"
        )
    }
}

impl Message for OtherFormat<'_> {
    fn reason(&self) -> Reason {
        Reason::NotRaw
    }

    fn add_commands(&self, commands: &mut Commands) -> Result<(), AllocError> {
        if !is_of_qemu(self.format) {
            return Ok(());
        }
        let raw = format!(in commands.alloc(); "{}.raw", self.image)?;
        commands.add(&["qemu-img", "convert", "-O", "raw", self.image, raw.as_str()])
    }
}

// Reports whether qemu-img reads images of this format.
fn is_of_qemu(format: &str) -> bool {
    match format {
        "qcow2" | "VMDK" | "VDI" | "VHD" | "VHDX" | "QED" | "Parallels" => true,
        "Bochs" | "cloop" | "DMG" => true,
        _ => false,
    }
}

// Message: a header counts too many entries.
#[derive(Clone, Copy)]
struct TooMany<'a> {
    count: u32,
    image: &'a str,
}

impl fmt::Display for TooMany<'_> {
    fn fmt<W: fmt::Write>(&self, f: &mut fmt::Formatter<W>) -> fmt::Result {
        let (count, image) = (self.count, ShellWord(self.image));
        writeln!(
            f,
            "a header of the table counts {count} entries, but gptedit reads at most {MAX_ENTRY_COUNT}"
        )?;
        write!(
            f,
            "`gptedit salvage {image}` prints what can be read; \
             copy the disk before anything is written to it"
        )
    }
}

impl Message for TooMany<'_> {
    fn reason(&self) -> Reason {
        Reason::TooManyEntries
    }

    fn add_commands(&self, commands: &mut Commands) -> Result<(), AllocError> {
        commands.add_own("salvage", self.image)
    }
}

// Message: the sector size of a device cannot be read.
const NO_SECTOR_SIZE: &str = "the sector size of the device cannot be read\n\
    use --sector, for example --sector 512";

// Message: the disk failed while a copy was read.
#[derive(Clone, Copy)]
struct FailedReading<'a>(&'a io::Error);

impl fmt::Display for FailedReading<'_> {
    fn fmt<W: fmt::Write>(&self, f: &mut fmt::Formatter<W>) -> fmt::Result {
        writeln!(
            f,
            "the disk failed while a copy of the table was read: {}",
            self.0
        )?;
        f.write_str("nothing was written; first copy its contents to another disk")
    }
}

impl Message for FailedReading<'_> {
    fn reason(&self) -> Reason {
        Reason::DeviceFailed
    }
}
