//! Block devices, as Linux describes them.

use crate::kernel::{is_there, list, read_first_line};
use crate::target::Target;
use std::alloc::AllocError;
use std::rt::Files;

/// A block device.
#[derive(Drop)]
pub struct Device {
    // Its folder, such as `/sys/dev/block/8:0`.
    folder: String,
    // Whether it is a device-mapper device.
    is_mapped: bool,
}

/// A partition that the kernel knows, or the whole device.
#[derive(Drop)]
pub(crate) struct KnownPart {
    /// The number of the partition; `None` for the whole device.
    pub(crate) number: Option<u32>,
    /// Its folder in `/sys`.
    pub(crate) folder: String,
    /// Its block device.
    pub(crate) target: Target,
}

impl Device {
    /// Returns the block device of the target; `None` for a file.
    pub(crate) fn of<R: Files + AllocGlobal>(
        rt: &R,
        target: Target,
    ) -> Result<Option<Device>, AllocError> {
        let Target::Device { major, minor } = target else {
            return Ok(None);
        };
        let folder = format!(in rt.alloc(); "/sys/dev/block/{major}:{minor}")?;
        let mark = format!(in rt.alloc(); "{folder}/dm")?;
        let is_mapped = is_there(rt, mark.as_str());
        Ok(Some(Device { folder, is_mapped }))
    }

    /// Returns the sector size in bytes, as the kernel reports it; `None` if it cannot be read. A partition has the
    /// sector size of its disk.
    pub fn sector_size<R: Files + AllocGlobal>(&self, rt: &R) -> Result<Option<u64>, AllocError> {
        for place in ["queue", "../queue"] {
            let path = format!(in rt.alloc(); "{}/{place}/logical_block_size", self.folder)?;
            if let Some(line) = read_first_line(rt, path.as_str())? {
                return Ok(line.as_str().parse::<u64>().ok());
            }
        }
        Ok(None)
    }

    /// Reports whether it is a device-mapper device.
    pub fn is_mapped(&self) -> bool {
        self.is_mapped
    }

    /// Returns the whole device, and its partitions that the kernel knows.
    pub(crate) fn find_parts<R>(&self, rt: &R) -> Result<Vec<KnownPart>, AllocError>
    where
        R: Files + AllocGlobal + Clone + Drop,
    {
        let alloc = rt.alloc();
        let mut parts = Vec::new(alloc);
        let whole = String::from_str(alloc, self.folder.as_str())?;
        put_part(rt, &mut parts, None, whole)?;
        for name in list(rt, self.folder.as_str())?.iter() {
            let folder = format!(in alloc; "{}/{name}", self.folder)?;
            let path = format!(in alloc; "{folder}/partition")?;
            if let Some(line) = read_first_line(rt, path.as_str())? {
                let number = line.as_str().parse::<u32>().unwrap_or(0);
                put_part(rt, &mut parts, Some(number), folder)?;
            }
        }
        Ok(parts)
    }
}

// Appends the part in this folder, if the folder has a device number.
fn put_part<R: Files + AllocGlobal>(
    rt: &R,
    parts: &mut Vec<KnownPart>,
    number: Option<u32>,
    folder: String,
) -> Result<(), AllocError> {
    let path = format!(in rt.alloc(); "{folder}/dev")?;
    if let Some(target) = Target::named_in(rt, path.as_str())? {
        parts.push(KnownPart {
            number,
            folder,
            target,
        })?;
    }
    Ok(())
}
