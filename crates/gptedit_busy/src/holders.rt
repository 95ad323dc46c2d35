//! The holders of a lock on a file.

use crate::kernel::{list, read_text};
use crate::node::Node;
use std::alloc::AllocError;
use std::fs::{File, Metadata};
use std::rt::Files;

// The maximum number of ancestors that are checked.
const GENERATIONS: u8 = 64;

/// Reports whether this process or an ancestor holds the `flock` lock on the file, by the list of locks or an open
/// descriptor. Programs such as `flock`, `udevadm lock` and growpart start others under their lock.
pub(crate) fn is_held_by_ancestor<R>(rt: &R, node: Node) -> Result<bool, AllocError>
where
    R: Files + AllocGlobal + Clone + Drop,
{
    let alloc = rt.alloc();
    let locks = read_text(rt, "/proc/locks")?;
    let mut name = String::from_str(alloc, "self")?;
    for _ in 0..GENERATIONS {
        let Some(Process { number, parent }) = read_process(rt, name.as_str())? else {
            return Ok(false);
        };
        if let Some(locks) = &locks {
            if holds_lock(locks.as_str(), number.as_str(), node) {
                return Ok(true);
            }
        }
        if has_descriptor_of(rt, number.as_str(), node)? {
            return Ok(true);
        }
        let Some(parent) = parent else {
            return Ok(false);
        };
        name = parent;
    }
    Ok(false)
}

/// Reports whether another program holds record locks on the file, as qemu does on an open image.
pub(crate) fn has_record_lock<R: Files + AllocGlobal>(
    rt: &R,
    file: &File,
    metadata: &Metadata,
) -> Result<bool, AllocError> {
    let Some(locks) = read_text(rt, "/proc/locks")? else {
        return Ok(false);
    };
    let locks = locks.as_str();
    if !locks.contains("POSIX") && !locks.contains("OFDLCK") {
        return Ok(false);
    }
    let node = Node::of(rt, file, metadata)?;
    Ok(
        locks
            .lines()
            .any(|line| is_record_lock(line) && is_on(line, node)),
    )
}

// Reports whether a line of the list of locks is about a record lock.
fn is_record_lock(line: &str) -> bool {
    let kind = word_of(line, 1);
    kind == "POSIX" || kind == "OFDLCK"
}

// A process.
#[derive(Drop)]
struct Process {
    // Its number.
    number: String,
    // The number of its parent; `None` for the first process of a container.
    parent: Option<String>,
}

// Reads the process of this name in `/proc`. The name of the program is between the two numbers, and may contain any
// characters.
fn read_process<R: Files + AllocGlobal>(rt: &R, name: &str) -> Result<Option<Process>, AllocError> {
    let alloc = rt.alloc();
    let path = format!(in alloc; "/proc/{name}/stat")?;
    let Some(text) = read_text(rt, path.as_str())? else {
        return Ok(None);
    };
    let number = text.as_str().split(' ').next().unwrap_or("");
    let Some((_, rest)) = text.as_str().rsplit_once(") ") else {
        return Ok(None);
    };
    let parent = match rest.split(' ').nth(1) {
        None | Some("0") => None,
        Some(parent) => Some(String::from_str(alloc, parent)?),
    };
    let number = String::from_str(alloc, number)?;
    Ok(Some(Process { number, parent }))
}

// Reports whether the list of locks has the `flock` lock on the file for this process.
fn holds_lock(locks: &str, process: &str, node: Node) -> bool {
    locks.lines().any(|line| {
        word_of(line, 1) == "FLOCK" && word_of(line, 4) == process && is_on(line, node)
    })
}

// Reports whether a descriptor of this process has the `flock` lock on the file.
fn has_descriptor_of<R>(rt: &R, process: &str, node: Node) -> Result<bool, AllocError>
where
    R: Files + AllocGlobal + Clone + Drop,
{
    let alloc = rt.alloc();
    let folder = format!(in alloc; "/proc/{process}/fdinfo")?;
    for name in list(rt, folder.as_str())?.iter() {
        let path = format!(in alloc; "{folder}/{name}")?;
        if let Some(text) = read_text(rt, path.as_str())? {
            if text
                .as_str()
                .lines()
                .any(|line| is_descriptor_lock(line, node))
            {
                return Ok(true);
            }
        }
    }
    Ok(false)
}

// Reports whether a line about a descriptor has the `flock` lock on the file: `lock:` and a line of the list of locks.
fn is_descriptor_lock(line: &str, node: Node) -> bool {
    match line.strip_prefix("lock:") {
        Some(rest) => word_of(rest, 1) == "FLOCK" && is_on(rest, node),
        None => false,
    }
}

// Returns a word of a line. A line for a waiting lock has `->` before the kind of lock, so it never matches.
fn word_of(line: &str, index: usize) -> &str {
    line.split_ascii_whitespace().nth(index).unwrap_or("")
}

// Reports whether a line of the list of locks is about the file.
fn is_on(line: &str, node: Node) -> bool {
    node.is_named(word_of(line, 5))
}
