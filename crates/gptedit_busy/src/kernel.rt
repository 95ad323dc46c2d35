//! Files of `/proc` and `/sys`.

use std::alloc::{AllocError, Global};
use std::fs;
use std::io::ErrorKind;
use std::rt::Files;

/// Returns the text of a file of the kernel; `None` if it cannot be read. Bytes that are not UTF-8 become U+FFFD.
pub(crate) fn read_text<R: Files + AllocGlobal>(
    rt: &R,
    path: &str,
) -> Result<Option<String>, AllocError> {
    match read_bytes(rt, path)? {
        Some(bytes) => Ok(Some(String::from_utf8_lossy(rt.alloc(), bytes.as_slice())?)),
        None => Ok(None),
    }
}

fn read_bytes<R: Files + AllocGlobal>(rt: &R, path: &str) -> Result<Option<Vec<u8>>, AllocError> {
    match fs::read(rt, path) {
        Ok(bytes) => Ok(Some(bytes)),
        Err(error) if error.kind() == ErrorKind::OutOfMemory => Err(AllocError),
        Err(_unreadable) => Ok(None),
    }
}

/// Returns the first line of such a file, trimmed.
pub(crate) fn read_first_line<R: Files + AllocGlobal>(
    rt: &R,
    path: &str,
) -> Result<Option<String>, AllocError> {
    match read_text(rt, path)? {
        Some(text) => {
            let line = text.as_str().lines().next().unwrap_or("").trim();
            Ok(Some(String::from_str(rt.alloc(), line)?))
        }
        None => Ok(None),
    }
}

/// Returns the path in such a file, without the line break at its end; `None` if it is not UTF-8.
pub(crate) fn read_path<R: Files + AllocGlobal>(
    rt: &R,
    file: &str,
) -> Result<Option<String>, AllocError> {
    let Some(bytes) = read_bytes(rt, file)? else {
        return Ok(None);
    };
    let Ok(text) = String::from_utf8(bytes) else {
        return Ok(None);
    };
    let path = text.as_str();
    let path = path.strip_suffix('\n').unwrap_or(path);
    Ok(Some(String::from_str(rt.alloc(), path)?))
}

/// Decodes a path from a list of mounts or swap spaces, where `\040` is a space.
pub(crate) fn unescaped(alloc: Global, text: &str) -> Result<String, AllocError> {
    let mut parts = text.split('\\');
    let mut path = String::from_str(alloc, parts.next().unwrap_or(""))?;
    for part in parts {
        match read_escape(part) {
            Some((c, rest)) => {
                path.push(c)?;
                path.push_str(rest)?;
            }
            None => {
                path.push('\\')?;
                path.push_str(part)?;
            }
        }
    }
    Ok(path)
}

// Returns the ASCII character for the three octal digits at the start of the text, and the rest.
fn read_escape(text: &str) -> Option<(char, &str)> {
    let (digits, rest) = text.split_at_checked(3)?;
    let code = u8::from_str_radix(digits, 8).ok()?;
    if code.is_ascii() {
        Some((char::from(code), rest))
    } else {
        None
    }
}

/// Returns the names in a folder, up to the first error.
pub(crate) fn list<R>(rt: &R, folder: &str) -> Result<Vec<String>, AllocError>
where
    R: Files + AllocGlobal + Clone + Drop,
{
    let mut names = Vec::new(rt.alloc());
    let Ok(entries) = fs::read_dir(rt, folder) else {
        return Ok(names);
    };
    for entry in entries {
        let Ok(entry) = entry else {
            return Ok(names);
        };
        names.push(String::from_str(rt.alloc(), entry.file_name())?)?;
    }
    Ok(names)
}

/// Reports whether there is a file or a folder at this path.
pub(crate) fn is_there<R: Files>(rt: &R, path: &str) -> bool {
    fs::metadata(rt, path).is_ok()
}
