//! The file of `--backup`: the old table as a layout, written before a change.

use crate::failure::{Failure, refuse, refuse_failed, refuse_plain};
use crate::looking::layout_text;
use gptedit_report::{Commands, Message, Reason};
use gptedit_values::ShellWord;
use gptman::GPT;
use std::alloc::AllocError;
use std::fs::File;
use std::io::Write;
use std::rt::Files;
use std::{fmt, fs, io};

/// Refuses `--backup` if no table is read or the file exists.
pub fn refuse_backup<R: Files<File = File> + AllocGlobal>(
    rt: &R,
    image: &str,
    file: &str,
    was: Option<&GPT>,
) -> Result<(), Failure> {
    if was.is_none() {
        return Err(refuse(rt.alloc(), image, &NoBackup { image }));
    }
    if fs::symlink_metadata(rt, file).is_ok() {
        let text = "the file already exists; use another name for --backup";
        return Err(refuse_plain(rt.alloc(), file, Reason::BackupExists, text));
    }
    Ok(())
}

// Message: there is no table to save.
#[derive(Clone, Copy)]
struct NoBackup<'a> {
    image: &'a str,
}

impl fmt::Display for NoBackup<'_> {
    fn fmt<W: fmt::Write>(&self, f: &mut fmt::Formatter<W>) -> fmt::Result {
        f.write_str("there is no good table for --backup to save\n")?;
        let image = ShellWord(self.image);
        write!(
            f,
            "save what `gptedit salvage {image}` prints, then run this without --backup"
        )
    }
}

impl Message for NoBackup<'_> {
    fn reason(&self) -> Reason {
        Reason::NoBackup
    }

    fn add_commands(&self, commands: &mut Commands) -> Result<(), AllocError> {
        commands.add_own("salvage", self.image)
    }
}

/// Writes the table to a new file, in the form that `dump` prints, and syncs the file and its folder.
pub fn write_backup<R: Files<File = File> + AllocGlobal>(
    rt: &R,
    image: &str,
    file: &str,
    was: &GPT,
) -> Result<(), Failure> {
    let text = layout_text(rt.alloc(), image, was)?;
    match write_new(rt, file, text.as_bytes()) {
        Ok(()) => Ok(()),
        Err(error) => Err(refuse_failed(rt.alloc(), file, Reason::BackupFailed, &error)),
    }
}

fn write_new<R: Files<File = File>>(rt: &R, file: &str, bytes: &[u8]) -> io::Result<()> {
    let mut created = File::create_new(rt, file)?;
    created.write_all(bytes)?;
    created.sync_all()?;
    sync_folder_of(rt, file);
    Ok(())
}

// Syncs the folder of a new file, which a power failure may else remove. Some file systems do not sync folders.
fn sync_folder_of<R: Files<File = File>>(rt: &R, file: &str) {
    let folder = match file.rsplit_once('/') {
        Some(("", _)) => "/",
        Some((folder, _)) => folder,
        None => ".",
    };
    if let Ok(folder) = File::open(rt, folder) {
        let _ = folder.sync_all();
    }
}
