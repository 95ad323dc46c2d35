//! A disk that records its writes and syncs, given only its ends, with zeros between them.

ghost use Rattle.std.specs.Prelude.{◌≡◌, [], length};
ghost use Rattle.gptman_plan.specs.Ends.{zeroed};
ghost use Rattle.gptman_plan.specs.Plan.{acts_of, plan_sound, plan_state, bytes_after};

use crate::ends::Ends;
use crate::record::Record;
use gptman::Disk;
use gptman::disk::{count_failure, passes_end, past_end};
use std::alloc::Global;
use std::io;

/// A disk that records writes and syncs. A read from it fails.
#[derive(Drop)]
pub struct Recorder<'a> {
    pub ends: Ends<'a>,
    pub plan: Record,
    pub position: u64,
    // The number of reads, and of steps that could not be allocated.
    pub failures: u64,
    ghost long: { length (bytes_after (zeroed ends) (acts_of plan.bytes.items plan.steps.items)) ≡ ends.size },
    ghost same: { plan.size ≡ ends.size },
}

impl<'a> Recorder<'a> {
    /// Returns a disk with these ends, without steps.
    pub fn new(alloc: Global, ends: &Ends<'a>) -> Self
        ensures ends { result.ends ≡ ends.now }
        ensures acts { acts_of result.plan.bytes.items result.plan.steps.items ≡ [] }
        ensures position { result.position ≡ 0 }
        ensures failures { result.failures ≡ 0 }
    {
        Recorder {
            ends: *ends,
            plan: Record::new(alloc, ends.size),
            position: 0,
            failures: 0,
        }
    }

    /// Returns the recorded steps.
    pub fn into_plan(self) -> Record
        ensures { result ≡ self.entry.plan }
    {
        self.plan
    }
}

impl<'a> Disk for Recorder<'a> {
    ghost state = { λ d. plan_state (zeroed d.ends) (acts_of d.plan.bytes.items d.plan.steps.items)
        d.ends.size d.position d.failures };

    fn seek_start(&mut self, at: u64) -> io::Result<u64> {
        self.position = at;
        Ok(at)
    }

    fn seek_end(&mut self) -> io::Result<u64> {
        self.position = self.ends.size;
        Ok(self.ends.size)
    }

    fn read_exact(&mut self, buf: &mut [u8]) -> io::Result<()> {
        if passes_end(self.ends.size, self.position, buf.len() as u64) {
            return Err(past_end());
        }
        count_failure(&mut self.failures);
        Err(io::Error::other("a read of what is recorded"))
    }

    fn write_all(&mut self, buf: &[u8]) -> io::Result<()> {
        if !self.plan.write(self.position, buf) {
            count_failure(&mut self.failures);
            return Err(io::Error::other("no memory for a step"));
        }
        self.position += buf.len() as u64;
        Ok(())
    }

    fn sync(&mut self) -> io::Result<()> {
        if !self.plan.sync() {
            count_failure(&mut self.failures);
            return Err(io::Error::other("no memory for a step"));
        }
        Ok(())
    }

    ghost bounded = { λ d. d.ends.small };

    ghost sound = { λ d honest.
        plan_sound (zeroed d.ends) (acts_of d.plan.bytes.items d.plan.steps.items) d.ends.size d.position
        d.failures d.long };
}
