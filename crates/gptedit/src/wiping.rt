//! Clears a table.

use crate::backup::{refuse_backup, write_backup};
use crate::commands::How;
use crate::failure::{Failure, refuse, refuse_error};
use crate::image::Image;
use crate::planning::refuse_users;
use crate::reporting::DRY;
use crate::telling::kernel_line;
use gptedit_look::{Look, MbrKind, What, wipe};
use gptedit_report::{Lift, Message, Reason, wiped_json};
use gptedit_words::Options;
use std::fmt;
use std::fs::File;
use std::io::Write;
use std::rt::Files;

/// Clears both copies of the table, the headers at each sector size, and a protective MBR. Returns the line that names
/// the command for the kernel, if a block device was written.
pub fn clear<R, W: Write>(
    rt: &R,
    out: &mut W,
    image: &mut Image<'_>,
    look: Look,
    options: &Options<'_>,
    how: How,
) -> Result<Option<String>, Failure>
where
    R: Files<File = File> + AllocGlobal + Clone + Drop,
{
    let alloc = rt.alloc();
    image.refuse_unknown(alloc, &look)?;
    let kind = look.first_sector.kind;
    let is_needed = is_something(&look);
    if is_needed {
        refuse_wipe(rt, image, &look, options)?;
        if let Some(file) = options.backup {
            refuse_backup(rt, image.name, file, look.table.as_ref())?;
            if let (Some(was), false) = (&look.table, how.is_dry) {
                write_backup(rt, image.name, file, was)?;
            }
        }
    }
    if is_needed && !how.is_dry {
        if let Err(error) = wipe(alloc, &mut image.opened.disk, &look) {
            return Err(refuse_error(alloc, image.name, &error));
        }
    }
    if how.is_json {
        let text = wiped_json(
            alloc,
            image.name,
            look.table.as_ref(),
            is_needed,
            how.is_dry,
        )?;
        writeln!(out, "{text}")?;
    } else {
        report(out, is_needed, kind, how.is_dry)?;
    }
    if how.is_dry || !is_needed {
        return Ok(None);
    }
    Ok(kernel_line(alloc, image, look.table.as_ref(), None)?)
}

// Reports whether there is anything to clear.
fn is_something(look: &Look) -> bool {
    look.table.is_some()
        || !look.signatures.is_empty()
        || look.first_sector.kind == MbrKind::Protective
}

// Refuses to clear a table without `--overwrite`, or a disk in use without `--in-use`.
fn refuse_wipe<R>(
    rt: &R,
    image: &Image<'_>,
    look: &Look,
    options: &Options<'_>,
) -> Result<(), Failure>
where
    R: Files<File = File> + AllocGlobal + Clone + Drop,
{
    if !options.may_overwrite {
        return Err(refuse(rt.alloc(), image.name, &WouldWipe));
    }
    if options.may_use {
        return Ok(());
    }
    refuse_users(rt, image, look.table.as_ref(), None)
}

// Message: `wipe` needs `--overwrite`.
#[derive(Clone, Copy)]
struct WouldWipe;

impl fmt::Display for WouldWipe {
    fn fmt<W: fmt::Write>(&self, f: &mut fmt::Formatter<W>) -> fmt::Result {
        f.write_str(
            "there is a GUID partition table, or the remains of one, which would be lost\n\
             --overwrite clears it anyway",
        )
    }
}

impl Message for WouldWipe {
    fn reason(&self) -> Reason {
        Reason::Overwrites(What::Table)
    }

    fn lifted_by(&self) -> Option<Lift> {
        Some(Lift::Overwrite)
    }
}

// Reports the result for a disk whose MBR was of this kind.
fn report<W: Write>(
    out: &mut W,
    is_needed: bool,
    kind: MbrKind,
    is_dry: bool,
) -> Result<(), Failure> {
    if !is_needed {
        out.write_all(b"unchanged\n")?;
        return Ok(());
    }
    if is_dry {
        out.write_all(DRY)?;
    }
    let text = match kind {
        MbrKind::Protective => "both copies of the table and the protective MBR are cleared\n",
        MbrKind::Hybrid => "both copies of the table are cleared, and the hybrid MBR stays\n",
        _ => "both copies of the table are cleared\n",
    };
    out.write_all(text.as_bytes())?;
    Ok(())
}
