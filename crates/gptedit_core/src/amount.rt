//! Amounts in sectors or bytes.

ghost use Rattle.std.specs.Prelude.{◌≡◌, ◌<◌};
ghost use Rattle.gptedit_core.specs.Resolving.{sectors_in};

/// A number of sectors, or a number of bytes that has to be a multiple of the sector size.
#[derive(Clone, Copy, PartialEq, Eq, Debug)]
pub enum Amount {
    /// A number of sectors.
    Sectors(u64),
    /// A number of bytes.
    Bytes(u64),
}

/// The alignment of partitions, unless the user sets another.
pub const DEFAULT_ALIGN: Amount = Amount::Bytes(1 << 20);

impl Amount {
    /// Returns the amount in sectors, or `None` if it is not a multiple of `sector_size`, which is in bytes.
    pub fn sectors(self, sector_size: u64) -> Option<u64>
        requires { 0 < sector_size }
        ensures { result ≡ sectors_in self sector_size }
    {
        match self {
            Amount::Sectors(sectors) => Some(sectors),
            Amount::Bytes(bytes) if bytes % sector_size == 0 => Some(bytes / sector_size),
            Amount::Bytes(_) => None,
        }
    }
}
