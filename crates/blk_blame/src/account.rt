//! The late requests of a capture, and what they are blamed on.

ghost use Rattle.std.specs.Prelude.{◌≡◌, ◌≤◌, IfOk, length, map};
ghost use Rattle.edd_commands.specs.declared.TheConstants.{MAX_COMMANDS};
ghost use Rattle.blk_capture.specs.Requests.{AreTimed};
ghost use Rattle.blk_blame.specs.Account.{IsBlameAccount};
ghost use Rattle.blk_blame.specs.Clock.{allowance_of, allowances_of, dispatches_of};

use blk_capture::{CapturedRequest, CountedSchedule, rounds_of};
use edd_blame::{Allowance, Blame, Cause, blame_of, causes};
use edd_commands::Capacity;
use std::alloc::{AllocError, Global};

/// What the late requests of a capture are blamed on.
#[derive(Debug, Drop)]
pub struct Account {
    /// The requests counted in rounds, each a dispatch.
    pub counted: CountedSchedule,
    /// How many were late and had to be, what made these late, and when the device stalled.
    pub blame: Blame,
    /// Why each late request was late, by place; one that was on time has no cause.
    pub causes: Vec<Option<Cause>>,
}

/// The time that each request has.
fn allowances(alloc: Global, requests: &[CapturedRequest]) -> Result<Vec<Allowance>, AllocError>
    ensures { IfOk result (λ v. v.items ≡ allowances_of requests.now) }
{
    requests
        .iter()
        .map(|request| Allowance {
            release: request.released,
            deadline: request.deadline,
        })
        .collect(alloc)
}

/// When the requests went out.
fn dispatches(alloc: Global, requests: &[CapturedRequest]) -> Result<Vec<u64>, AllocError>
    ensures { IfOk result (λ v. v.items ≡ dispatches_of requests.now) }
{
    requests
        .iter()
        .map(|request| request.dispatched)
        .collect(alloc)
}

/// What the late ones of these requests are blamed on. The requests are as [`blk_capture::match_records`] gives them, at most
/// [`edd_commands::MAX_COMMANDS`] of them. Fails only when out of memory. The time grows as n log n.
pub fn account_of(alloc: Global, requests: &[CapturedRequest]) -> Result<Account, AllocError>
    requires timed { AreTimed requests.now }
    requires few { length requests.now ≤ MAX_COMMANDS }
    ensures { IfOk result (IsBlameAccount requests.now) }
{
    let counted = rounds_of(alloc, requests)?;
    let allowances = allowances(alloc, requests)?;
    let dispatches = dispatches(alloc, requests)?;
    let capacity = Capacity::fixed(alloc, 1)?;
    let blame = blame_of(
        alloc,
        counted.commands.as_slice(),
        counted.rounds.as_slice(),
        &capacity,
        allowances.as_slice(),
        dispatches.as_slice(),
    )?;
    let causes = causes(
        alloc,
        counted.commands.as_slice(),
        counted.rounds.as_slice(),
        &capacity,
        allowances.as_slice(),
        dispatches.as_slice(),
    )?;
    Ok(Account {
        counted,
        blame,
        causes,
    })
}
