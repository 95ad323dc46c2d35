//! Mounts in all mount namespaces, and swap spaces.

use crate::kernel::{list, read_text, unescaped};
use crate::target::Target;
use std::alloc::AllocError;
use std::collections::BTreeSet;
use std::fs;
use std::rt::Files;

/// The lists of mounts and swap spaces, as text of the kernel.
#[derive(Drop)]
pub(crate) struct Mounts {
    // The list of mounts of each namespace.
    namespaces: Vec<String>,
    // The list of swap spaces.
    swaps: Option<String>,
    // Whether the mounts of this process can be read.
    has_own: bool,
}

impl Mounts {
    /// Reads the lists. Skips processes that ended or may not be read.
    pub(crate) fn read<R>(rt: &R) -> Result<Mounts, AllocError>
    where
        R: Files + AllocGlobal + Clone + Drop,
    {
        let alloc = rt.alloc();
        let mut seen = BTreeSet::new(alloc);
        let mut namespaces = Vec::new(alloc);
        let has_own = put_namespace(rt, &mut seen, &mut namespaces, "self")?;
        for name in list(rt, "/proc")?.iter() {
            if is_number(name.as_str()) {
                put_namespace(rt, &mut seen, &mut namespaces, name.as_str())?;
            }
        }
        let swaps = read_text(rt, "/proc/swaps")?;
        Ok(Mounts {
            namespaces,
            swaps,
            has_own,
        })
    }

    /// Returns a file that is needed and cannot be read.
    pub(crate) fn missing(&self) -> Option<&'static str> {
        if !self.has_own {
            return Some("/proc/self/mountinfo");
        }
        match self.swaps {
            None => Some("/proc/swaps"),
            Some(_) => None,
        }
    }

    /// Returns the path at which the target is mounted.
    pub(crate) fn find<R: Files + AllocGlobal>(
        &self,
        rt: &R,
        target: Target,
    ) -> Result<Option<String>, AllocError> {
        for mounts in self.namespaces.iter() {
            for line in mounts.as_str().lines() {
                if is_mount_of(rt, line, target)? {
                    let at = line.split(' ').nth(4).unwrap_or("");
                    return Ok(Some(unescaped(rt.alloc(), at)?));
                }
            }
        }
        Ok(None)
    }

    /// Reports whether the target is swap space.
    pub(crate) fn is_swap<R: Files + AllocGlobal>(
        &self,
        rt: &R,
        target: Target,
    ) -> Result<bool, AllocError> {
        let Some(swaps) = &self.swaps else {
            return Ok(false);
        };
        for line in swaps.as_str().lines() {
            if is_path_of(rt, line.split(' ').next().unwrap_or(""), target)? {
                return Ok(true);
            }
        }
        Ok(false)
    }
}

fn is_number(name: &str) -> bool {
    !name.is_empty() && name.bytes().all(|byte| byte.is_ascii_digit())
}

// Adds the mounts of a process, if its namespace is new. Returns whether they can be read.
fn put_namespace<R: Files + AllocGlobal>(
    rt: &R,
    seen: &mut BTreeSet<String>,
    namespaces: &mut Vec<String>,
    process: &str,
) -> Result<bool, AllocError> {
    let alloc = rt.alloc();
    let path = format!(in alloc; "/proc/{process}/ns/mnt")?;
    let name = match fs::read_link(rt, path.as_str()) {
        Ok(link) => format!(in alloc; "{}", link.as_path().display())?,
        Err(_unreadable) => String::from_str(alloc, process)?,
    };
    if seen.contains(&name) {
        return Ok(true);
    }
    let path = format!(in alloc; "/proc/{process}/mountinfo")?;
    let Some(mounts) = read_text(rt, path.as_str())? else {
        return Ok(false);
    };
    seen.insert(name)?;
    namespaces.push(mounts)?;
    Ok(true)
}

// Reports whether a line of `mountinfo` is for the target: by its number or, for a file system over several devices, by
// its source.
fn is_mount_of<R: Files + AllocGlobal>(
    rt: &R,
    line: &str,
    target: Target,
) -> Result<bool, AllocError> {
    if line
        .split(' ')
        .nth(2)
        .and_then(|number| Target::read(number))
        == Some(target)
    {
        return Ok(true);
    }
    match line.split_once(" - ") {
        Some((_, rest)) => is_path_of(rt, rest.split(' ').nth(1).unwrap_or(""), target),
        None => Ok(false),
    }
}

// Reports whether the path in the list leads to the target.
fn is_path_of<R: Files + AllocGlobal>(
    rt: &R,
    path: &str,
    target: Target,
) -> Result<bool, AllocError> {
    if !path.starts_with('/') {
        return Ok(false);
    }
    let path = unescaped(rt.alloc(), path)?;
    Ok(Target::at(rt, path.as_str()) == Some(target))
}
