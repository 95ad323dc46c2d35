//! The findings in a range.

/// Contents that were found: the name, the start in the range, and the length if it is known.
#[derive(Clone, Copy)]
pub struct Found {
    pub name: &'static str,
    pub at: u64,
    pub length: Option<u64>,
}

impl Found {
    /// Returns contents from the start of the range, of unknown length.
    pub fn whole(name: &'static str) -> Found {
        Found {
            name,
            at: 0,
            length: None,
        }
    }

    /// Returns contents from the start of the range, of this length.
    pub fn long(name: &'static str, length: Option<u64>) -> Found {
        Found {
            name,
            at: 0,
            length,
        }
    }

    /// Returns contents from this byte of the range.
    pub fn at(name: &'static str, at: u64, length: Option<u64>) -> Found {
        Found { name, at, length }
    }
}

/// Returns the product, if both numbers are known and it fits.
pub fn product(count: Option<u64>, size: Option<u64>) -> Option<u64> {
    count?.checked_mul(size?)
}

/// Returns the power of two, if the exponent is known and it fits.
pub fn power(exponent: Option<u64>) -> Option<u64> {
    let exponent = exponent?;
    if exponent < 64 {
        Some(1 << exponent)
    } else {
        None
    }
}

/// Reports whether this is a power of two from `least` to `most`.
pub fn is_size(number: Option<u64>, least: u64, most: u64) -> bool {
    match number {
        Some(number) => number.is_power_of_two() && least <= number && number <= most,
        None => false,
    }
}

/// Reports whether there is a number above 0.
pub fn is_some_number(number: Option<u64>) -> bool {
    match number {
        Some(number) => number != 0,
        None => false,
    }
}
