//! The units of bytes.

/// A unit of bytes.
#[derive(Clone, Copy)]
pub(crate) struct Unit {
    /// Its name.
    pub(crate) name: &'static str,
    /// Its letter, which a script of `sfdisk` may have instead.
    pub(crate) letter: &'static str,
    /// The number of bytes.
    pub(crate) bytes: u64,
}

pub(crate) const B: Unit = Unit {
    name: "B",
    letter: "B",
    bytes: 1,
};

pub(crate) const KIB: Unit = Unit {
    name: "KiB",
    letter: "K",
    bytes: 1 << 10,
};

pub(crate) const MIB: Unit = Unit {
    name: "MiB",
    letter: "M",
    bytes: 1 << 20,
};

pub(crate) const GIB: Unit = Unit {
    name: "GiB",
    letter: "G",
    bytes: 1 << 30,
};

pub(crate) const TIB: Unit = Unit {
    name: "TiB",
    letter: "T",
    bytes: 1 << 40,
};

pub(crate) const PIB: Unit = Unit {
    name: "PiB",
    letter: "P",
    bytes: 1 << 50,
};

pub(crate) const EIB: Unit = Unit {
    name: "EiB",
    letter: "E",
    bytes: 1 << 60,
};

pub(crate) const K: Unit = Unit { name: "K", ..KIB };

pub(crate) const M: Unit = Unit { name: "M", ..MIB };

pub(crate) const G: Unit = Unit { name: "G", ..GIB };

pub(crate) const T: Unit = Unit { name: "T", ..TIB };

pub(crate) const KB: Unit = Unit {
    name: "KB",
    letter: "KB",
    bytes: 1_000,
};

pub(crate) const MB: Unit = Unit {
    name: "MB",
    letter: "MB",
    bytes: 1_000_000,
};

pub(crate) const GB: Unit = Unit {
    name: "GB",
    letter: "GB",
    bytes: 1_000_000_000,
};

pub(crate) const TB: Unit = Unit {
    name: "TB",
    letter: "TB",
    bytes: 1_000_000_000_000,
};
