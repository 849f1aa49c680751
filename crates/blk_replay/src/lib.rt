//! Captured requests, served again one a round by any scheduler.
#![tactic(auto)]

ghost use Rattle.std.specs.Prelude.{◌≡◌, ◌≤◌, ◌<◌, ◌↔◌, ℕ, None, Some, IfOk, OnOk, IsTrue, length};
ghost use Rattle.std.specs.FinMap as map;
ghost use Rattle.edd_commands.specs.Capacity.{fixed};
ghost use Rattle.edd_commands.specs.Schedule.{IsLegal};
ghost use Rattle.blk_sched.specs.Meaning.{Waiting, no_picks, at_start};
ghost use Rattle.blk_replay.specs.Inside.{HaveEntered, ChangesPending, ServesId, IsLater};
ghost use Rattle.blk_replay.specs.DueFirst.{ReplaysBest};
ghost use Rattle.blk_replay.specs.Replay.{CanReplay, HasOneReplay, IsReplay, commands_by_arrival, standing};

mod figures;
mod requests;

use blk_bio::Bio;
use blk_online::law_of_ties;
use blk_sched::{Queued, Scheduler};
use edd_commands::{MAX_COMMANDS, MAX_ROUNDS};
pub use figures::{ClockFigures, Outcome, figures_of};
pub use requests::{DueBy, Entrant, replay_requests};
use std::alloc::{AllocError, Allocator};

/// A captured request, of one bio.
#[derive(Clone, Copy, Debug, PartialEq, Eq)]
pub struct Arrived {
    /// The first round in which it can be served: one more than were served before it entered.
    pub release: u64,
    /// The round in which it is due.
    pub due: u64,
    /// Its bio.
    pub bio: Bio,
}

/// The requests from `first` on that are released in the round enter, and the place after them is answered.
fn enter<S: Scheduler>(
    scheduler: &mut S,
    requests: &[Arrived],
    first: usize,
    round: u64,
) -> Result<usize, AllocError>
    requires start { first ≤ length requests.now }
    requires few { length requests.now ≤ MAX_COMMANDS }
    requires before { (p : ℕ) → p < first → IsLater requests.now round p }
    requires new { (p : ℕ) → first ≤ p → map.get (S.meaning scheduler.old).pending p ≡ None }
    ensures entered { IfOk result (λ next. HaveEntered requests.now round first next (S.meaning scheduler.old) (S.meaning scheduler.new)) }
    ensures rest { OnOk result (ChangesPending (S.meaning scheduler.old) (S.meaning scheduler.new)) }
    ensures later { IfOk result (IsLater requests.now round) }
    ensures kept { OnOk result (S.kept scheduler.new ≡ S.kept scheduler.old) }
{
    for place in first..requests.len() {
        let request = requests[place];
        if request.release != round {
            return Ok(place);
        }
        let queued = Queued {
            id: place as u64,
            hw: 0,
            release: request.release,
            due: request.due,
            extent: request.bio.extent(),
        };
        scheduler.insert(queued)?;
    }
    Ok(requests.len())
}

/// Serves the request that the scheduler picks in the round, and begins the next one. Answers its id.
fn serve<S: Scheduler>(sched: &mut S, round: u64) -> u64
    requires last { round < MAX_ROUNDS }
    requires none_open { (S.meaning sched.old).open_picks ≡ no_picks }
    requires released { (id : ℕ) (w : Waiting) → map.get (S.meaning sched.old).pending id ≡ Some w → w.release ≤ round }
    requires own { (id : ℕ) (w : Waiting) → map.get (S.meaning sched.old).pending id ≡ Some w → w.hw ≡ 0 }
    requires some { 0 < map.len (S.meaning sched.old).pending }
    ensures { ServesId S.policy round (S.meaning sched.old) (S.kept sched.old) result (S.meaning sched.new) (S.kept sched.new) }
{
    let Some(queued) = sched.pick(0, round) else {
        unreachable!()
    };
    sched.on_done(0, queued.extent.dir(), round - queued.release);
    sched.on_tick(round + 1);
    queued.id
}

/// Whether captured requests can be served again: they are at most [`MAX_COMMANDS`], due below [`MAX_ROUNDS`], listed as they entered, and by
/// each round as many have entered as are served in it and before.
pub fn can_replay(requests: &[Arrived]) -> bool
    ensures { IsTrue result ↔ CanReplay requests.now }
{
    if requests.len() as u64 > MAX_COMMANDS {
        return false;
    }
    let mut last = 1;
    for place in 0..requests.len() {
        let request = requests[place];
        let release = request.release;
        if release < last || release > place as u64 + 1 {
            return false;
        }
        if request.due >= MAX_ROUNDS {
            return false;
        }
        last = release;
    }
    true
}

/// Serves captured requests again, one a round from round 1 on, under a scheduler in which nothing waits. In each round, which the scheduler
/// is told of as it begins, those of its release enter, and the one that the scheduler picks is done at once. Answers the round of each. Fails
/// only when memory runs out.
pub fn replay<S: Scheduler>(
    scheduler: S,
    alloc: S::A,
    requests: &[Arrived],
) -> Result<Vec<u64, S::A>, AllocError>
    requires can { CanReplay requests.now }
    requires start { S.meaning scheduler ≡ at_start (S.meaning scheduler).front }
    ensures replay { IfOk result (λ rounds. IsReplay S.policy (standing (S.meaning scheduler) (S.kept scheduler)) requests.now rounds.items) }
    ensures legal { IfOk result (λ rounds. IsLegal (commands_by_arrival requests.now) rounds.items (fixed 1)) }
{
    let mut scheduler = scheduler;
    scheduler.on_tick(1);
    let count = requests.len();
    let mut rounds = vec![in alloc; 0; count]?;
    let mut entered = 0;
    for served in 0..count as u64 {
        let round = served + 1;
        entered = enter(&mut scheduler, requests, entered, round)?;
        let id = serve(&mut scheduler, round);
        rounds[id as usize] = round;
    }
    Ok(rounds)
}

/// Where a scheduler's policy leaves nothing open, requests have one replay under it.
///
/// A theorem: it does nothing at run time, and a caller has its clause.
pub fn law_of_one_replay<S: Scheduler>()
    ensures { HasOneReplay S.policy }
{}

/// Where a scheduler's policy takes what is due first of all that waits, of two that are due in one round either, no order of the same dispatches is
/// less late than its replay of requests that are due by their deadlines; and where it takes so what can still be on time before the rest, none has
/// more on time.
///
/// A theorem: it does nothing at run time, and a caller has its clause.
pub fn law_of_due_first<S: Scheduler>()
    ensures { ReplaysBest S.policy }
{
    law_of_ties();
}
