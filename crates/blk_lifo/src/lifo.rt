//! A scheduler of one's own, to read before one writes another: what entered last is handed out first.
//!
//! It keeps one plain list and serves every request for every hardware queue. What it must do is said by the clauses of
//! `Scheduler`; here stand only its own list, and how that list is read as what waits.

ghost use Rattle.std.specs.Prelude.{◌≡◌, ◌==◌, ◌<◌, ◌+◌, length};
ghost use Rattle.std.specs.List.{position};
ghost use Rattle.blk_sched.specs.Meaning.{at_start};
ghost use Rattle.blk_lifo.specs.Stacks.{lifo_policy};
ghost use Rattle.blk_lifo.specs.Inside.Stacks.{IsNewestOf};

use blk_bio::{Dir, Extent, Limits, Side};
use blk_sched::{OpenPicks, Queued, Scheduler};
use std::alloc::{AllocError, Allocator, Global};
use std::marker::Model;

/// Requests in the order in which they entered, and how many picks of each direction are open.
#[derive(Drop)]
pub struct Lifo<A: Allocator = Global> {
    requests: Vec<Queued, A>,
    open_picks: OpenPicks,
}

impl<A: Allocator> Model for Lifo<A> {
    ghost use Rattle.std.specs.Prelude.{true};
    ghost use Rattle.blk_sched.specs.Meaning.{Meaning, meaning_code};
    ghost use Rattle.blk_lifo.specs.Stacks.{by_id};
    ghost use Rattle.blk_lifo.specs.Inside.Stacks.{HaveDistinctIds};

    ghost Value = { Meaning };

    ghost coded = { meaning_code };

    ghost view = { λ s. record {
      pending = by_id s.requests.items;
      open_picks = s.open_picks;
      front = true;
    } };

    ghost invariant = { λ s. HaveDistinctIds s.requests.items };
}

impl<A: Allocator + Clone> Lifo<A> {
    ghost use Rattle.std.specs.Prelude.{true};

    /// A scheduler in which nothing waits and no pick is open.
    pub fn new(alloc: A) -> Lifo<A>
        ensures { result ≡ at_start true }
    {
        Lifo {
            requests: Vec::new(alloc),
            open_picks: OpenPicks::none(),
        }
    }
}

impl<A: Allocator + Clone> Scheduler for Lifo<A> {
    type A = A;

    ghost meaning = { λ s. s };

    ghost policy = { lifo_policy };

    fn insert(&mut self, queued: Queued) -> Result<(), AllocError> {
        self.requests.push(queued)?;
        Ok(())
    }

    fn candidate(&self, hw: u8, limits: &Limits, newcomer: &Extent) -> Option<(u64, Side)> {
        let _ = hw;
        newest_fit(self.requests.as_slice(), newcomer, limits)
    }

    fn join(
        &mut self,
        hw: u8,
        id: u64,
        side: Side,
        now: u64,
        newcomer: &Extent,
    ) -> Result<(), AllocError> {
        let _ = hw;
        let Some(place) = place_of(self.requests.as_slice(), id) else {
            unreachable!()
        };
        let queued = &mut self.requests[place];
        *queued = queued.joined(newcomer, side, now);
        Ok(())
    }

    fn pick(&mut self, hw: u8, now: u64) -> Option<Queued> {
        let _ = (hw, now);
        let queued = self.requests.pop()?;
        self.open_picks.open(queued.extent.dir());
        Some(queued)
    }

    fn on_done(&mut self, hw: u8, dir: Dir, wait: u64) {
        let _ = (hw, wait);
        self.open_picks.close(dir);
    }

    fn on_requeue(&mut self, dir: Dir) {
        self.open_picks.requeue(dir);
    }

    fn on_reissue(&mut self, dir: Dir) {
        self.open_picks.reopen(dir);
    }

    fn on_tick(&mut self, now: u64) {
        let _ = now;
    }

    fn pending(&self) -> u64 {
        self.requests.len() as u64
    }

    fn picked(&self, dir: Dir) -> u64 {
        self.open_picks.of(dir)
    }

    fn requeued(&self, dir: Dir) -> u64 {
        self.open_picks.requeued(dir)
    }
}

/// The place of the request of an id, if there is one.
fn place_of(requests: &[Queued], id: u64) -> Option<usize>
    ensures { result ≡ position (λ w. w.id == id) requests.now }
{
    requests.iter().position(|queued| queued.id == id)
}

/// The greatest id of the requests that a newcomer fits, and the side.
fn newest_fit(requests: &[Queued], newcomer: &Extent, limits: &Limits) -> Option<(u64, Side)>
    ensures { IsNewestOf limits.now newcomer.now requests.now (length requests.now) result }
{
    let mut newest: Option<(u64, Side)> = None;
    for place in 0..requests.len() {
        newest = newer(requests, newest, place, newcomer, limits);
    }
    newest
}

/// Of the newest before a place and the request at that place the newer that the newcomer fits.
fn newer(
    requests: &[Queued],
    newest: Option<(u64, Side)>,
    place: usize,
    newcomer: &Extent,
    limits: &Limits,
) -> Option<(u64, Side)>
    requires place { place < length requests.now }
    requires newest { IsNewestOf limits.now newcomer.now requests.now place newest }
    ensures { IsNewestOf limits.now newcomer.now requests.now (place + 1) result }
{
    let queued = &requests[place];
    let Some(side) = queued.extent.fits(newcomer, limits) else {
        return newest;
    };
    let Some((id, _)) = newest else {
        return Some((queued.id, side));
    };
    if id > queued.id {
        newest
    } else {
        Some((queued.id, side))
    }
}
