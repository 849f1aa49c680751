//! The cause of each late request.

ghost use Rattle.std.specs.Prelude.{◌≡◌, IfOk};
ghost use Rattle.edd_commands.specs.Schedule.{IsLegal};
ghost use Rattle.edd_oracle.specs.Input.{IsTaken};
ghost use Rattle.edd_blame.specs.Clock.{AreByClock};
ghost use Rattle.edd_blame.specs.Causes.{AreCauses, EachLateHasOneCause};
ghost use Rattle.edd_blame.specs.Inside.{cause_by, causes_by};

use edd_check::Window;
use edd_commands::{Capacity, Command};
use edd_verdict::{Verdict, law_of_verdicts, verdicts};
use std::alloc::{AllocError, Allocator};

/// The time that a request has: from its release to its deadline, both in it. There is none where the deadline comes first. The unit
/// is that of the dispatches, mostly nanoseconds.
#[derive(Clone, Copy, Debug, PartialEq, Eq)]
pub struct Allowance {
    /// When its last bio came in, so that it could go out whole.
    pub release: u64,
    /// By when it ought to have gone out.
    pub deadline: u64,
}

/// Why a late request was late.
#[derive(Clone, Copy, Debug, PartialEq, Eq)]
pub enum Cause {
    /// It was released after its deadline.
    Arrival,
    /// It was released by its deadline, and the device took nothing from then to the deadline.
    Stall,
    /// Some legal schedule has it on time, and all those that are on time here.
    Spare,
    /// The device took something in its time, but each dispatch of this window of rounds went to a request that was on time and had to
    /// go out in it. Of all such windows around the request it is the one that ends first, and of those the one that begins first.
    Full(Window),
}

/// The cause that a verdict stands for.
fn cause_of(verdict: Option<Verdict>, allowance: Allowance) -> Option<Cause>
    ensures { result ≡ cause_by verdict allowance }
{
    match verdict {
        None => None,
        Some(Verdict::Arrival) => {
            if allowance.deadline < allowance.release {
                Some(Cause::Arrival)
            } else {
                Some(Cause::Stall)
            }
        }
        Some(Verdict::Spare) => Some(Cause::Spare),
        Some(Verdict::Full(window)) => Some(Cause::Full(window)),
    }
}

/// Those that verdicts stand for, by place.
#[tactic(auto, unfolding(crate::specs::Inside::causes_by))]
fn causes_of<A: Allocator>(
    alloc: A,
    verdicts: &[Option<Verdict>],
    allowances: &[Allowance],
) -> Result<Vec<Option<Cause>, A>, AllocError>
    ensures { IfOk result (λ v. v.items ≡ causes_by verdicts.now allowances.now) }
{
    verdicts
        .iter()
        .zip(allowances)
        .map(|(verdict, allowance)| cause_of(*verdict, *allowance))
        .collect(alloc)
}

/// The cause of each late request of a legal schedule, by place; a request that is on time has none. The commands count the dispatches
/// by their times, `dispatches`: a request is released in the round after those before its release, and due in the last by its deadline.
///
/// Fails only when out of memory. The time grows as n log n in the number of requests.
pub fn causes<A: Allocator + Clone, B: Allocator>(
    alloc: A,
    commands: &[Command],
    rounds: &[u64],
    capacity: &Capacity<B>,
    allowances: &[Allowance],
    dispatches: &[u64],
) -> Result<Vec<Option<Cause>, A>, AllocError>
    requires taken { IsTaken commands.now }
    requires legal { IsLegal commands.now rounds.now capacity.now }
    requires by_clock { AreByClock dispatches.now allowances.now commands.now }
    ensures { IfOk result (λ v. AreCauses commands.now rounds.now capacity.now allowances.now dispatches.now v.items) }
{
    // the clauses alone speak of the dispatches
    let _ = dispatches.len();
    let verdicts = verdicts(alloc.clone()?, commands, rounds, capacity)?;
    let causes = causes_of(alloc, verdicts.as_slice(), allowances)?;
    Ok(causes)
}

/// Each late request of a legal schedule has one cause.
///
/// A theorem: it does nothing at run time, and a caller has its clause.
pub fn law_of_causes<A: Allocator>(
    commands: &[Command],
    rounds: &[u64],
    capacity: &Capacity<A>,
    allowances: &[Allowance],
    dispatches: &[u64],
)
    requires legal { IsLegal commands.now rounds.now capacity.now }
    requires by_clock { AreByClock dispatches.now allowances.now commands.now }
    ensures { EachLateHasOneCause commands.now rounds.now capacity.now allowances.now dispatches.now }
{
    law_of_verdicts();
    // brings the prover the invariants of what the clauses speak of
    let _ = (
        commands.len(),
        rounds.len(),
        capacity.at(0),
        allowances.len(),
        dispatches.len(),
    );
}
