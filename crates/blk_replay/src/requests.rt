//! The requests of a capture on their way into a scheduler, and their replay.

ghost use Rattle.std.specs.Prelude.{◌≡◌, ◌≤◌, ◌<◌, IfOk, OnOk, All, length};
ghost use Rattle.edd_commands.specs.Capacity.{fixed};
ghost use Rattle.edd_commands.specs.Schedule.{IsLegal};
ghost use Rattle.edd_commands.specs.declared.TheConstants.{MAX_COMMANDS};
ghost use Rattle.blk_capture.specs.Requests.{AreTimed};
ghost use Rattle.blk_sched.specs.Meaning.{at_start};
ghost use Rattle.blk_replay.specs.Replay.{standing};
ghost use Rattle.blk_replay.specs.Requests.{went_before, expire_by, due_round, as_one_bio, ArePlaces, AreArriving, ArePut, AreByRelease, AreApart, AreRounds, AreRoundCommands, AreLateByTheClock, IsReplayOf};

use crate::{Arrived, replay};
use blk_bio::{Bio, BioId, Dir, MAX_END};
use blk_capture::CapturedRequest;
use blk_sched::Scheduler;
use edd_commands::Command;
use std::alloc::{AllocError, Allocator};

/// By what requests are due in a scheduler.
#[derive(Clone, Copy, Debug, PartialEq, Eq)]
pub enum DueBy {
    /// By their deadlines: a request is due in the last round that goes out by then.
    Deadline,
    /// By FIFO expiries after their entries, in nanoseconds: a request is due in the first round that goes out by then or later.
    Fifo {
        /// That of reads.
        read: u64,
        /// That of writes.
        write: u64,
    },
}

/// A request on its way into a scheduler.
#[derive(Clone, Copy, Debug, PartialEq, Eq)]
pub struct Entrant {
    /// Its place among the requests, which stand in the order of their dispatches.
    pub place: usize,
    /// When it was released, by its last bio.
    pub released: u64,
}

/// How many of the requests went out before a time. It is found by halves.
fn went_before(requests: &[CapturedRequest], time: u64) -> u64
    requires { AreTimed requests.now }
    ensures value { result ≡ went_before requests.now time }
    ensures bound { result ≤ length requests.now }
{
    requests.partition_point(|request| request.dispatched < time) as u64
}

/// The FIFO expiry of a direction.
fn expire_by(read: u64, write: u64, dir: Dir) -> u64
    ensures { result ≡ expire_by read write dir }
{
    match dir {
        Dir::Read => read,
        Dir::Write => write,
    }
}

/// The round in which a request is due in a scheduler, where `due` is the one by its deadline.
fn due_round(requests: &[CapturedRequest], request: &CapturedRequest, due: u64, by: DueBy) -> u64
    requires timed { AreTimed requests.now }
    requires few { length requests.now ≤ MAX_COMMANDS }
    ensures { result ≡ due_round requests.now request.now due by }
{
    match by {
        DueBy::Deadline => due,
        DueBy::Fifo { read, write } => {
            let expire = expire_by(read, write, request.dir);
            went_before(requests, request.entry.saturating_add(expire)) + 1
        }
    }
}

/// A request as one bio of its sectors, as far as a bio reaches.
fn as_one_bio(place: usize, request: &CapturedRequest) -> Bio
    ensures { result ≡ as_one_bio place request.now }
{
    let first = request.first.min(MAX_END - 1);
    let sectors = request.sectors.min(MAX_END - first).max(1);
    let id = BioId {
        submitter: 0,
        serial: place as u64,
    };
    match Bio::new(id, request.dir, first, sectors) {
        Ok(bio) => bio,
        Err(_) => unreachable!(),
    }
}

/// The requests on their way, by place.
fn entrants_by_place<A: Allocator>(
    alloc: A,
    requests: &[CapturedRequest],
) -> Result<Vec<Entrant, A>, AllocError>
    ensures { IfOk result (λ v. ArePlaces requests.now v.items) }
{
    let mut entrants = Vec::with_capacity(alloc, requests.len())?;
    for (place, request) in requests.iter().enumerate() {
        let released = request.released;
        entrants.push(Entrant { place, released })?;
    }
    Ok(entrants)
}

/// Puts entrants in the order in which they enter: by their releases, and those of one release by place, as they stood.
fn put_by_release<A: Allocator + Clone>(entrants: &mut Vec<Entrant, A>) -> Result<(), AllocError>
    ensures { OnOk result (AreByRelease entrants.old.items entrants.new.items) }
{
    entrants.sort_by_key(|entrant| entrant.released)?;
    Ok(())
}

/// As they enter.
fn arrivals<A: Allocator>(
    alloc: A,
    requests: &[CapturedRequest],
    commands: &[Command],
    by: DueBy,
    entrants: &[Entrant],
) -> Result<Vec<Arrived, A>, AllocError>
    requires timed { AreTimed requests.now }
    requires few { length requests.now ≤ MAX_COMMANDS }
    requires each { length commands.now ≡ length requests.now }
    requires within { All (λ e. e.place < length requests.now) entrants.now }
    ensures { IfOk result (λ v. AreArriving requests.now commands.now by entrants.now v.items) }
{
    let mut arrived = Vec::with_capacity(alloc, entrants.len())?;
    for entrant in entrants {
        let place = entrant.place;
        let request = &requests[place];
        let command = commands[place];
        arrived.push(Arrived {
            release: command.release,
            due: due_round(requests, request, command.due, by),
            bio: as_one_bio(place, request),
        })?;
    }
    Ok(arrived)
}

/// The rounds of entrants, each at its request's place.
fn put_in_places<A: Allocator>(
    alloc: A,
    entrants: &[Entrant],
    own: &[u64],
) -> Result<Vec<u64, A>, AllocError>
    requires each { length own.now ≡ length entrants.now }
    requires within { All (λ e. e.place < length entrants.now) entrants.now }
    requires apart { AreApart entrants.now }
    ensures { IfOk result (λ v. ArePut entrants.now own.now v.items) }
{
    let mut rounds = vec![in alloc; 0; entrants.len()]?;
    for (k, entrant) in entrants.iter().enumerate() {
        rounds[entrant.place] = own[k];
    }
    Ok(rounds)
}

/// Serves the requests of a capture again under a scheduler in which nothing waits, as [`replay`] does: in the order of their releases and then
/// of their places, each as one bio. `commands` are those that [`blk_capture::rounds_of`] makes of them. Answers the round of each request, by place. Fails only when memory runs out.
pub fn replay_requests<S: Scheduler>(
    sched: S,
    alloc: S::A,
    requests: &[CapturedRequest],
    commands: &[Command],
    by: DueBy,
) -> Result<Vec<u64, S::A>, AllocError>
    requires timed { AreTimed requests.now }
    requires few { length requests.now ≤ MAX_COMMANDS }
    requires counted { AreRoundCommands requests.now commands.now }
    requires start { S.meaning sched ≡ at_start (S.meaning sched).front }
    ensures replay { IfOk result (λ v. IsReplayOf S.policy (standing (S.meaning sched) (S.kept sched)) requests.now commands.now by v.items) }
    ensures legal { IfOk result (λ v. IsLegal commands.now v.items (fixed 1)) }
    ensures in_range { IfOk result (λ v. AreRounds (length requests.now) v.items) }
    ensures late { IfOk result (λ v. AreLateByTheClock requests.now commands.now v.items) }
{
    let mut placed = entrants_by_place(alloc.clone()?, requests)?;
    put_by_release(&mut placed)?;
    let entrants = placed.as_slice();
    let arrived = arrivals(alloc.clone()?, requests, commands, by, entrants)?;
    let own = replay(sched, alloc.clone()?, arrived.as_slice())?;
    put_in_places(alloc, entrants, own.as_slice())
}
