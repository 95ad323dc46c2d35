//! Random GUIDs.

ghost use Rattle.std.specs.Prelude.{◌≤◌, IfOk, length};
ghost use Rattle.gptedit_core.specs.Planning.{has_random};

use crate::failure::{Failure, refuse_failed};
use gptedit_core::{Job, Request};
use gptedit_report::Reason;
use gptguid_core::from_random;
use std::random::RandomSource;

/// Returns a random GUID of version 4.
pub fn draw_guid<R: RandomSource + AllocGlobal>(rt: &R) -> Result<[u8; 16], Failure> {
    let mut drawn = [0; 16];
    match rt.fill_bytes(&mut drawn) {
        Ok(()) => Ok(from_random(drawn)),
        Err(error) => {
            let reason = Reason::NoRandomBytes;
            Err(refuse_failed(rt.alloc(), "random bytes", reason, &error))
        }
    }
}

/// Returns the request for a job, with a random GUID for each requested entry.
pub fn request_for<R: RandomSource + AllocGlobal>(rt: &R, job: Job) -> Result<Request, Failure>
    ensures { IfOk result has_random }
{
    let count = match &job {
        Job::Apply(layout) => layout.asked.len(),
        Job::Sort => 0,
        Job::Rewrite => 0,
    };
    let random = draw_guids(rt, count)?;
    Ok(Request {
        job,
        random,
        is_dry: true,
    })
}

/// Returns `count` random GUIDs.
pub fn draw_guids<R: RandomSource + AllocGlobal>(
    rt: &R,
    count: usize,
) -> Result<Vec<[u8; 16]>, Failure>
    ensures { IfOk result (λ guids. count ≤ length guids.items) }
{
    let mut guids = Vec::new(rt.alloc());
    for drawn in 0..count {
        guids.push(draw_guid(rt)?)?;
    }
    Ok(guids)
}
