//! The steps of a plan, with their bytes.

ghost use Rattle.std.specs.Prelude.{◌≡◌, ◌≤◌, ◌<◌, ◌⊎◌, ◌+◌, [], ◌∷◌, ◌++◌, All, length, take, true, false};
ghost use Rattle.gptman_plan.specs.Plan.{acts_of, kinds-prop, IsWriteOrSync, StepFits};
ghost use Rattle.gptman_plan.specs.Plan.Act.{put, store};

use crate::records::Step;
use std::alloc::Global;

/// Writes and syncs of a disk of this size in bytes, in order.
#[derive(Drop)]
pub struct Record {
    pub size: u64,
    pub steps: Vec<Step>,
    pub bytes: Vec<u8>,
    ghost held: { All (StepFits size (length bytes.items)) steps.items },
    ghost kinds: { All IsWriteOrSync steps.items } by { kinds-prop steps.items },
}

impl Record {
    /// Returns a record without steps. It allocates nothing.
    pub fn new(alloc: Global, size: u64) -> Self
        ensures acts { acts_of result.bytes.items result.steps.items ≡ [] }
        ensures size { result.size ≡ size }
    {
        Record {
            size,
            steps: Vec::new(alloc),
            bytes: Vec::new(alloc),
        }
    }

    /// Adds a write, and reports whether it could be allocated.
    pub fn write(&mut self, at: u64, buf: &[u8]) -> bool
        requires { at + length buf.now ≤ self.old.size }
        ensures done { result ≡ true → acts_of self.new.bytes.items self.new.steps.items
            ≡ acts_of self.old.bytes.items self.old.steps.items ++ put at buf.now ∷ [] }
        ensures refused { result ≡ false → acts_of self.new.bytes.items self.new.steps.items
            ≡ acts_of self.old.bytes.items self.old.steps.items }
        ensures size { self.new.size ≡ self.old.size }
    {
        let step = Step {
            kind: 1,
            offset: at,
            length: buf.len() as u64,
            start: self.bytes.len() as u64,
        };
        if self.bytes.extend_from_slice(buf).is_err() {
            return false;
        }
        if self.steps.push(step).is_err() {
            return false;
        }
        true
    }

    /// Adds a sync, and reports whether it could be allocated.
    pub fn sync(&mut self) -> bool
        ensures done { result ≡ true → acts_of self.new.bytes.items self.new.steps.items
            ≡ acts_of self.old.bytes.items self.old.steps.items ++ store ∷ [] }
        ensures refused { result ≡ false → acts_of self.new.bytes.items self.new.steps.items
            ≡ acts_of self.old.bytes.items self.old.steps.items }
        ensures size { self.new.size ≡ self.old.size }
    {
        let step = Step {
            kind: 2,
            offset: 0,
            length: 0,
            start: 0,
        };
        self.steps.push(step).is_ok()
    }

    /// Copies the steps and their bytes into these arrays, and reports whether they were long enough.
    pub fn give(&self, steps: &mut [Step], bytes: &mut [u8]) -> bool
        ensures given { result ≡ true → acts_of bytes.new (take (length self.now.steps.items) steps.new)
            ≡ acts_of self.now.bytes.items self.now.steps.items }
        ensures fits { result ≡ true → (length self.now.steps.items ≤ length steps.new)
            × (length self.now.bytes.items ≤ length bytes.new) }
        ensures steps_fit { result ≡ true → All (StepFits self.now.size (length self.now.bytes.items))
            (take (length self.now.steps.items) steps.new) }
        ensures kinds { result ≡ true
            → All IsWriteOrSync (take (length self.now.steps.items) steps.new) }
        ensures room { result ≡ false → (length steps.old < length self.now.steps.items)
            ⊎ (length bytes.old < length self.now.bytes.items) }
        ensures steps { result ≡ false → steps.new ≡ steps.old }
        ensures bytes { result ≡ false → bytes.new ≡ bytes.old }
    {
        if self.steps.len() > steps.len() || self.bytes.len() > bytes.len() {
            return false;
        }
        steps[..self.steps.len()].copy_from_slice(&self.steps);
        bytes[..self.bytes.len()].copy_from_slice(&self.bytes);
        true
    }
}
