//! Each late request of a capture, and why it was late.

ghost use Rattle.std.specs.Prelude.{ℕ, ◌≡◌, ◌≤◌, List, Option, IfOk, length, zip};
ghost use Rattle.std.specs.List.{filter_map};
ghost use Rattle.edd_commands.specs.declared.Command.{Command as ACommand};
ghost use Rattle.blk_capture.specs.declared.requests.CapturedRequest.{CapturedRequest as ARequest};
ghost use Rattle.blk_blame.specs.Each.{late_of, lates_of};

use blk_bio::Dir;
use blk_capture::CapturedRequest;
use edd_blame::Cause;
use edd_commands::Command;
use std::alloc::{AllocError, Global};

/// A late request. Times are in nanoseconds.
#[derive(Clone, Copy, Debug, PartialEq, Eq)]
pub struct LateRequest {
    /// It as a command, whose rounds are dispatches; its id is the number of its dispatch, from 1 on.
    pub command: Command,
    /// The process that opened it.
    pub pid: u64,
    /// Which way its data goes.
    pub dir: Dir,
    /// Its first sector.
    pub first: u64,
    /// How many sectors it has.
    pub sectors: u64,
    /// How long it waited: from when it came in to its dispatch.
    pub wait: u64,
    /// How long after its deadline it went out.
    pub overrun: u64,
    /// When it was due.
    pub deadline: u64,
    /// When it was released, by its last bio.
    pub released: u64,
    /// Why.
    pub cause: Cause,
}

/// The request as a late one, where it has a cause.
fn late_of(command: Command, request: &CapturedRequest, cause: Option<Cause>) -> Option<LateRequest>
    ensures { result ≡ late_of ((command, request.now), cause) }
{
    match cause {
        Some(cause) => Some(LateRequest {
            command,
            pid: request.pid,
            dir: request.dir,
            first: request.first,
            sectors: request.sectors,
            wait: request.dispatched.saturating_sub(request.entry),
            overrun: request.dispatched.saturating_sub(request.deadline),
            deadline: request.deadline,
            released: request.released,
            cause,
        }),
        None => None,
    }
}

/// Those of the requests that have a cause, in their order. Fails only when out of memory.
pub fn lates_of(
    alloc: Global,
    commands: &[Command],
    requests: &[CapturedRequest],
    causes: &[Option<Cause>],
) -> Result<Vec<LateRequest>, AllocError>
    ensures { IfOk result (λ v. v.items ≡ lates_of commands.now requests.now causes.now) }
{
    commands
        .iter()
        .zip(requests)
        .zip(causes)
        .filter_map(|((command, request), cause)| late_of(*command, request, *cause))
        .collect(alloc)
}
