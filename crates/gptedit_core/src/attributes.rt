//! Changes of attributes.

ghost use Rattle.std.specs.Prelude.{◌≡◌, ◌<◌, ℕ};
ghost use Rattle.std.specs.Int.{bit_at};
ghost use Rattle.gptedit_core.specs.Setting.{bit_after};

/// A change of attributes.
#[derive(Clone, Copy, PartialEq, Eq, Debug)]
pub struct AttributeChange {
    /// The bits that are cleared, unless they are set.
    pub clear: u64,
    /// The bits that are set.
    pub set: u64,
}

impl AttributeChange {
    /// Returns the changed attributes: each bit of `set` is set, each other bit of `clear` is cleared, and each other
    /// bit is unchanged.
    pub fn apply(self, attributes: u64) -> u64
        ensures bits { (k : ℕ) → k < 64 → bit_at result k ≡ bit_after self k (bit_at attributes k) }
    {
        (attributes & !self.clear) | self.set
    }

    /// Returns the change that makes this change, and then the next one.
    pub fn then(self, next: AttributeChange) -> AttributeChange
        ensures bits { (k b : ℕ) → k < 64 → bit_after result k b ≡ bit_after next k (bit_after self k b) }
    {
        AttributeChange {
            clear: self.clear | next.clear,
            set: next.apply(self.set),
        }
    }
}
