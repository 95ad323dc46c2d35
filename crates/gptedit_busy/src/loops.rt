//! Loop devices.

use crate::kernel::{is_there, list, read_first_line, read_path, read_text};
use crate::target::Target;
use std::alloc::AllocError;
use std::rt::Files;

/// An attached loop device.
#[derive(Drop)]
pub(crate) struct Loop {
    /// Its block device.
    pub(crate) target: Target,
    /// The file or device that backs it.
    pub(crate) backing: Option<Target>,
    /// Whether it starts at the first byte of its backing file.
    pub(crate) is_whole: bool,
}

/// An image that may back loop devices.
#[derive(Drop)]
pub(crate) struct Shown {
    /// Its file or device.
    pub(crate) target: Target,
    /// Its path by the kernel; `None` if that is not UTF-8.
    pub(crate) path: Option<String>,
}

/// Returns the names of the attached loop devices.
pub(crate) fn list_attached<R>(rt: &R) -> Result<Vec<String>, AllocError>
where
    R: Files + AllocGlobal + Clone + Drop,
{
    let mut names = Vec::new(rt.alloc());
    for name in list_devices(rt)? {
        if name.as_str().starts_with("loop") {
            let file = format!(in rt.alloc(); "/sys/class/block/{name}/loop/backing_file")?;
            if is_there(rt, file.as_str()) {
                names.push(name)?;
            }
        }
    }
    Ok(names)
}

// Returns the names of the block devices and partitions. The list in `/proc` omits those without sectors, such as
// detached loop devices; if it is empty or cannot be read, all are returned.
fn list_devices<R>(rt: &R) -> Result<Vec<String>, AllocError>
where
    R: Files + AllocGlobal + Clone + Drop,
{
    let alloc = rt.alloc();
    let mut names = Vec::new(alloc);
    if let Some(text) = read_text(rt, "/proc/partitions")? {
        for line in text.as_str().lines() {
            if let Some(name) = line.split_ascii_whitespace().nth(3) {
                names.push(String::from_str(alloc, name)?)?;
            }
        }
    }
    if names.is_empty() {
        return list(rt, "/sys/class/block");
    }
    Ok(names)
}

/// Returns the loop devices of these names. If the backing path leads nowhere, the image is the backing file if both
/// have the same path, or neither path is UTF-8.
pub(crate) fn find_loops<R>(
    rt: &R,
    names: &[String],
    image: &Shown,
) -> Result<Vec<Loop>, AllocError>
where
    R: Files + AllocGlobal + Clone + Drop,
{
    let mut loops = Vec::new(rt.alloc());
    for name in names.iter() {
        if let Some(found) = read_loop(rt, name.as_str(), image)? {
            loops.push(found)?;
        }
    }
    Ok(loops)
}

// Returns the loop device of this name; `None` if it is gone.
fn read_loop<R: Files + AllocGlobal>(
    rt: &R,
    name: &str,
    image: &Shown,
) -> Result<Option<Loop>, AllocError> {
    let alloc = rt.alloc();
    let folder = format!(in alloc; "/sys/class/block/{name}")?;
    let number = format!(in alloc; "{folder}/dev")?;
    let Some(target) = Target::named_in(rt, number.as_str())? else {
        return Ok(None);
    };
    let offset = format!(in alloc; "{folder}/loop/offset")?;
    let is_whole = match read_first_line(rt, offset.as_str())? {
        Some(offset) => offset.as_str() == "0",
        None => true,
    };
    let file = format!(in alloc; "{folder}/loop/backing_file")?;
    let path = read_path(rt, file.as_str())?;
    Ok(Some(Loop {
        target,
        backing: find_backing(rt, path, image),
        is_whole,
    }))
}

// Returns the backing file or device for this path.
fn find_backing<R: Files>(rt: &R, path: Option<String>, image: &Shown) -> Option<Target> {
    let found = match &path {
        Some(path) => find_target(rt, path.as_str()),
        None => None,
    };
    if found.is_none() && path == image.path {
        return Some(image.target);
    }
    found
}

// Resolves the backing path. The kernel appends ` (deleted)` if the file was removed; the name may be back since.
fn find_target<R: Files>(rt: &R, path: &str) -> Option<Target> {
    match Target::at(rt, path) {
        Some(target) => Some(target),
        None => Target::at(rt, path.strip_suffix(" (deleted)")?),
    }
}
