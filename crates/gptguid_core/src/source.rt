//! Sources of random bytes.

ghost use Rattle.std.specs.Prelude.{⊤, ℕ, List, length, OnErr, OnOk};

use std::io;
use std::random::RandomSource;

/// A source of random bytes. Its contract names the bytes that each call returned.
pub trait ByteSource {
    /// Relates the source before and after a successful call, and the bytes that it returned.
    ghost gives: { Self → Self → List ℕ → Type 0 };

    /// Relates the source before and after a failed call, and the number of requested bytes.
    ghost fails: { Self → Self → ℕ → Type 0 };

    /// Fills the buffer with the next bytes of the source, in order.
    ///
    /// Fails only if the source fails. The contents of the buffer are then unspecified.
    fn fill_bytes(&mut self, buf: &mut [u8]) -> io::Result<()>
        ensures given { OnOk result (gives self.old self.new buf.new) }
        ensures failed { OnErr result (fails self.old self.new (length buf.old)) };
}

/// The random bytes of the system, from the runtime. No contract describes them, or when the source fails.
#[derive(Drop)]
pub struct SystemSource<'a, R> {
    runtime: &'a R,
}

impl<'a, R: RandomSource> SystemSource<'a, R> {
    /// Returns the source of this runtime.
    pub fn new(runtime: &'a R) -> SystemSource<'a, R> {
        SystemSource { runtime }
    }
}

impl<'a, R: RandomSource> ByteSource for SystemSource<'a, R> {
    ghost gives = { λ _ _ _. ⊤ };

    ghost fails = { λ _ _ _. ⊤ };

    fn fill_bytes(&mut self, buf: &mut [u8]) -> io::Result<()> {
        self.runtime.fill_bytes(buf)
    }
}
