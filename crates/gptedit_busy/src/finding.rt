//! Finds the uses of a disk and its partitions.

use crate::device::{Device, KnownPart};
use crate::kernel::{is_there, list};
use crate::loops::{Loop, Shown, find_loops, list_attached};
use crate::mounts::Mounts;
use crate::opening::Opened;
use crate::target::Target;
use gptedit_look::{How, Part, Use, Users};
use std::alloc::AllocError;
use std::fs;
use std::rt::Files;

// Data of the kernel about uses.
#[derive(Drop)]
struct Reports {
    // The image itself; it is not a loop device over a part of itself.
    image: Target,
    mounts: Mounts,
    loops: Vec<Loop>,
    btrfs: Vec<Target>,
}

// The maximum number of stacked loop devices that are followed.
const LEVELS: u8 = 16;

// A device or file that contains a part of the disk.
#[derive(Clone, Copy)]
struct Piece {
    target: Target,
    part: Part,
}

/// Returns all visible uses of the disk and its partitions. A loop device that is only attached is not a use.
///
/// # Errors
/// `AllocError` if an allocation fails.
pub fn find_users<R>(rt: &R, _name: &str, opened: &Opened) -> Result<Users, AllocError>
where
    R: Files + AllocGlobal + Clone + Drop,
{
    let mut uses = Vec::new(rt.alloc());
    let attached = list_attached(rt)?;
    if opened.device.is_none() && attached.is_empty() {
        return Ok(Users { uses });
    }
    let image = shown(rt, opened)?;
    let loops = find_loops(rt, &attached, &image)?;
    if opened.device.is_none() && !is_attached(&loops, opened.target) {
        return Ok(Users { uses });
    }
    let reports = Reports {
        image: opened.target,
        mounts: Mounts::read(rt)?,
        loops,
        btrfs: find_btrfs(rt)?,
    };
    let mut pieces = Vec::new(rt.alloc());
    pieces.push(Piece {
        target: opened.target,
        part: Part::Whole,
    })?;
    if let Some(target) = backing_of(&reports.loops, opened.target) {
        pieces.push(Piece {
            target,
            part: Part::Whole,
        })?;
    }
    if let Some(device) = &opened.device {
        if let Some(file) = missing_in(rt, &reports) {
            uses.push(Use {
                part: Part::Whole,
                how: How::Unknown(file),
            })?;
        }
        put_uses(rt, &reports, device, &mut pieces, &mut uses)?;
    }
    put_loops(rt, &reports, pieces, &mut uses)?;
    Ok(Users { uses })
}

// Reports whether a loop device is over the image. A file has no other users.
fn is_attached(loops: &[Loop], image: Target) -> bool {
    loops.iter().any(|over| over.backing == Some(image))
}

// Returns the backing file of an image that is a loop device and starts at its first byte: other loop devices may have
// it too.
fn backing_of(loops: &[Loop], image: Target) -> Option<Target> {
    let own = loops.iter().find(|own| own.target == image)?;
    if own.is_whole { own.backing } else { None }
}

// Returns the image with its path by the kernel.
fn shown<R: Files + AllocGlobal>(rt: &R, opened: &Opened) -> Result<Shown, AllocError> {
    let link = format!(in rt.alloc(); "/proc/self/fd/{}", opened.descriptor())?;
    let path = match fs::read_link(rt, link.as_str()) {
        Ok(path) => Some(String::from_str(rt.alloc(), path.as_path().as_str())?),
        Err(_unreadable) => None,
    };
    Ok(Shown {
        target: opened.target,
        path,
    })
}

// Returns the file that is needed to find the uses of a device, and cannot be read.
fn missing_in<R: Files>(rt: &R, reports: &Reports) -> Option<&'static str> {
    if !is_there(rt, "/sys/class/block") {
        return Some("/sys/class/block");
    }
    reports.mounts.missing()
}

// Adds the uses of a device and its partitions, and the partitions to the pieces.
fn put_uses<R>(
    rt: &R,
    reports: &Reports,
    device: &Device,
    pieces: &mut Vec<Piece>,
    uses: &mut Vec<Use>,
) -> Result<(), AllocError>
where
    R: Files + AllocGlobal + Clone + Drop,
{
    for known in device.find_parts(rt)?.iter() {
        match known.number {
            None => put_use(rt, reports, known, Part::Whole, uses)?,
            Some(number) => {
                let part = Part::Partition(number);
                put_use(rt, reports, known, part, uses)?;
                pieces.push(Piece {
                    target: known.target,
                    part,
                })?;
            }
        }
    }
    Ok(())
}

// Returns how a part of a device is used, other than by a loop device.
fn find_use<R>(rt: &R, reports: &Reports, known: &KnownPart) -> Result<Option<How>, AllocError>
where
    R: Files + AllocGlobal + Clone + Drop,
{
    let alloc = rt.alloc();
    if let Some(at) = reports.mounts.find(rt, known.target)? {
        return Ok(Some(How::Mounted(at)));
    }
    if reports.mounts.is_swap(rt, known.target)? {
        return Ok(Some(How::Swap));
    }
    if reports.btrfs.iter().any(|found| *found == known.target) {
        return Ok(Some(How::Btrfs));
    }
    let folder = format!(in alloc; "{}/holders", known.folder)?;
    match list(rt, folder.as_str())?.first() {
        Some(holder) => Ok(Some(How::Held(String::from_str(alloc, holder.as_str())?))),
        None => Ok(None),
    }
}

// Adds the uses of loop devices over the pieces, and of those over these, level by level.
fn put_loops<R>(
    rt: &R,
    reports: &Reports,
    pieces: Vec<Piece>,
    uses: &mut Vec<Use>,
) -> Result<(), AllocError>
where
    R: Files + AllocGlobal + Clone + Drop,
{
    let mut pieces = pieces;
    for _ in 0..LEVELS {
        let mut above = Vec::new(rt.alloc());
        for piece in pieces.iter() {
            put_level(rt, reports, *piece, &mut above, uses)?;
        }
        if above.is_empty() {
            return Ok(());
        }
        pieces = above;
    }
    Ok(())
}

// Adds the uses of the loop devices over a piece, and the parts of these devices to `above`. If a loop device has the
// whole disk from its first byte, its partitions are those of the disk; otherwise they belong to the part.
fn put_level<R>(
    rt: &R,
    reports: &Reports,
    piece: Piece,
    above: &mut Vec<Piece>,
    uses: &mut Vec<Use>,
) -> Result<(), AllocError>
where
    R: Files + AllocGlobal + Clone + Drop,
{
    for over in reports.loops.iter() {
        if over.backing != Some(piece.target) || over.target == reports.image {
            continue;
        }
        for known in parts_of(rt, over)?.iter() {
            let part = part_in(piece.part, over, known);
            put_use(rt, reports, known, part, uses)?;
            above.push(Piece {
                target: known.target,
                part,
            })?;
        }
    }
    Ok(())
}

// Adds the use of a part of a device, if there is one.
fn put_use<R>(
    rt: &R,
    reports: &Reports,
    known: &KnownPart,
    part: Part,
    uses: &mut Vec<Use>,
) -> Result<(), AllocError>
where
    R: Files + AllocGlobal + Clone + Drop,
{
    if let Some(how) = find_use(rt, reports, known)? {
        uses.push(Use { part, how })?;
    }
    Ok(())
}

fn parts_of<R>(rt: &R, over: &Loop) -> Result<Vec<KnownPart>, AllocError>
where
    R: Files + AllocGlobal + Clone + Drop,
{
    match Device::of(rt, over.target)? {
        Some(device) => device.find_parts(rt),
        None => Ok(Vec::new(rt.alloc())),
    }
}

// Returns the part of the disk that a part of this loop device belongs to.
fn part_in(part: Part, over: &Loop, known: &KnownPart) -> Part {
    match (part, known.number) {
        (Part::Whole, Some(number)) if over.is_whole => Part::Partition(number),
        (part, _) => part,
    }
}

// Returns the devices of mounted Btrfs file systems.
fn find_btrfs<R>(rt: &R) -> Result<Vec<Target>, AllocError>
where
    R: Files + AllocGlobal + Clone + Drop,
{
    let alloc = rt.alloc();
    let mut devices = Vec::new(alloc);
    for system in list(rt, "/sys/fs/btrfs")?.iter() {
        let folder = format!(in alloc; "/sys/fs/btrfs/{system}/devices")?;
        for name in list(rt, folder.as_str())?.iter() {
            let path = format!(in alloc; "{folder}/{name}/dev")?;
            if let Some(device) = Target::named_in(rt, path.as_str())? {
                devices.push(device)?;
            }
        }
    }
    Ok(devices)
}
