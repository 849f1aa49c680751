//! The scheduler that goes by sectors within a batch and by due rounds between batches, after Linux's deadline-iosched.
#![tactic(auto)]

ghost use Rattle.std.specs.Prelude.{◌≡◌, ◌<◌, ◌+◌, ◌↔◌, ℕ, Option, None, Some, Err, IfOk, IfErr, IfSome, IfNone, IsTrue};
ghost use Rattle.std.specs.Option.{OnSome, option_copied};
ghost use Rattle.std.specs.FinMap as map;
ghost use Rattle.blk_sched.specs.Meaning.{Waiting, ServesNothing, Picks, RequeuesPick, opened, open_of, requeued_of, at_start};
ghost use Rattle.blk_index.specs.Index.{NoneOf};
ghost use Rattle.blk_index.specs.Inside.Search.{IsIdOf};
ghost use Rattle.blk_deadline.specs.Choice.{oldest_of, position_in, last_dir, due_or_next, taken, handed_out, batch_after, batch_at_first, deadline_kept, AreKnown, deadline_chooses, deadline_policy};
ghost use Rattle.blk_sched.specs.Policies.{serves_all};
ghost use Rattle.blk_deadline.specs.Names.{deadline_told};
ghost use Rattle.blk_deadline.specs.Shown.{batch_of, tunables_of, kept_in, choice_at, meaning_of};
ghost use Rattle.blk_deadline.specs.Inside.Parts.{IsBatchChoice, lies_at, after_last_in, from_in, next_in, batch_next};

use blk_bio::{Dir, Extent, Limits, MAX_QUEUES, Side};
use blk_index::{Place, Sorted};
use blk_sched::{MAX_OPEN, MAX_REQUEUED, OpenPicks, Queued, Scheduler};
use edd_commands::{Fault, Told, told};
use std::alloc::{AllocError, Allocator, Global};
use thiserror::Error;

/// How many positions there are from which requests go on by sectors.
#[derive(Clone, Copy, Debug, PartialEq, Eq)]
pub enum Positions {
    /// One, that of the last pick, as in Linux until 6.4: the other direction has none.
    One,
    /// One for each direction, that of its own last pick, as in Linux since 6.5.
    Each,
}

/// What the scheduler is tuned by, by the names of Linux's deadline-iosched.
#[derive(Clone, Copy, Debug, PartialEq, Eq)]
pub struct Tunables {
    /// How many requests go in one batch, 1 at least.
    pub fifo_batch: u16,
    /// How often a batch of reads begins while writes wait, before the writes' batch comes.
    pub writes_starved: u16,
    /// Whether a newcomer may join at the front.
    pub front_merges: bool,
    /// From where a direction goes on by sectors.
    pub positions: Positions,
}

impl Tunables {
    /// Whether the batch size is 0, for which there is no scheduler. [`Deadline::new`] asks this, and so may a caller that checks settings
    /// before it makes one.
    pub fn has_zero_batch(&self) -> bool
        ensures { IsTrue result ↔ (self.now.fifo_batch ≡ 0) }
    {
        self.fifo_batch == 0
    }
}

/// Why a scheduler is not made, in the order in which the reasons are looked for.
#[derive(Clone, Copy, Debug, PartialEq, Eq, Error)]
#[error("{}", self.name())]
pub enum DeadlineFault {
    /// A batch of no request.
    ZeroBatch,
    /// Memory ran out.
    Memory,
}

impl Fault for DeadlineFault {
    ghost told = { deadline_told };

    fn told(&self) -> Told {
        told!(self: DeadlineFault {
            ZeroBatch,
            Memory => Memory,
        })
    }
}

/// What was picked last.
#[derive(Clone, Copy, Debug, PartialEq, Eq)]
pub struct Last {
    /// Its direction.
    pub dir: Dir,
    /// Its first sector.
    pub first: u64,
    /// Its id.
    pub id: u64,
}

/// Where the scheduler stands: its last pick, its positions, how many requests went in this batch, and how often reads went first.
#[derive(Clone, Copy, Debug, PartialEq, Eq)]
pub struct BatchState {
    /// What was picked last.
    pub last: Option<Last>,
    /// The first sector of the read that was picked last, 0 before there is one.
    pub read_position: u64,
    /// The first sector of the write that was picked last, 0 before there is one.
    pub write_position: u64,
    /// How many requests went in the batch.
    pub batching: u16,
    /// How often reads went first while writes waited.
    pub starved: u16,
}

/// Requests by sectors within a batch, and by due rounds between them.
#[derive(Drop)]
pub struct Deadline<A: Allocator = Global> {
    index: Sorted<Place, A>,
    tunables: Tunables,
    batch: BatchState,
    open_picks: OpenPicks,
}

impl<A: Allocator + Clone> Deadline<A> {
    /// A scheduler in which nothing waits and no pick is open. Refused as `ZeroBatch` for a batch of no request, and as
    /// `Memory` where memory runs out.
    pub fn new(alloc: A, tunables: Tunables) -> Result<Deadline<A>, DeadlineFault>
        ensures zero { (tunables.fifo_batch ≡ 0) ↔ (result ≡ Err DeadlineFault.ZeroBatch) }
        ensures ok { IfOk result (λ s. meaning_of s ≡ at_start tunables.front_merges) }
        ensures batch { IfOk result (λ s. batch_of s ≡ batch_at_first) }
        ensures tunables { IfOk result (λ s. tunables_of s ≡ tunables) }
        ensures memory { IfErr result (λ e. 0 < tunables.fifo_batch → e ≡ DeadlineFault.Memory) }
        // the batch and the tunables are known by what the trait says is kept
        ensures known { AreKnown deadline_kept }
    {
        if tunables.has_zero_batch() {
            return Err(DeadlineFault::ZeroBatch);
        }
        let Ok(index) = Sorted::new(alloc) else {
            return Err(DeadlineFault::Memory);
        };
        Ok(Deadline {
            index,
            tunables,
            batch: BatchState {
                last: None,
                read_position: 0,
                write_position: 0,
                batching: 0,
                starved: 0,
            },
            open_picks: OpenPicks::none(),
        })
    }

    /// The oldest request of a direction.
    fn oldest(&self, dir: Dir) -> Option<&Queued>
        ensures value { option_copied result ≡ oldest_of dir (map.values self.now.index) }
        ensures there { IfSome result (λ q. map.get self.now.index q.now.id ≡ Some q.now) }
        ensures none { IfNone result (NoneOf dir (map.get self.now.index)) }
    {
        let Some(id) = self.index.oldest(dir) else {
            return None;
        };
        self.index.get(id)
    }

    /// The id of the next request of a direction after the last pick, where that was of it.
    #[inline(always)]
    fn after_last(&self, dir: Dir) -> Option<u64>
        ensures some { IfSome result (IsIdOf (map.get self.now.index) (after_last_in self.now dir)) }
        ensures none { IfNone result (after_last_in self.now dir ≡ None) }
    {
        let Some(last) = self.batch.last else {
            return None;
        };
        if last.dir != dir {
            return None;
        }
        self.index.next(dir, last.first, last.id)
    }

    /// Whether the request of id 0, which no other comes before at its sector, waits, is of the direction and begins at the sector.
    fn has_lowest(&self, dir: Dir, sector: u64) -> bool
        ensures value { result ≡ lies_at dir sector (map.get self.now.index 0) }
        ensures named { (k : ℕ) (w : Waiting) → map.get self.now.index k ≡ Some w → w.id ≡ k }
    {
        match self.index.get(0) {
            Some(queued) => queued.extent.dir() == dir && queued.extent.first() == sector,
            None => false,
        }
    }

    /// The id of the next request of a direction from a sector on.
    #[inline(always)]
    fn from_sector(&self, dir: Dir, sector: u64) -> Option<u64>
        ensures some { IfSome result (IsIdOf (map.get self.now.index) (from_in self.now dir sector)) }
        ensures none { IfNone result (from_in self.now dir sector ≡ None) }
    {
        if self.has_lowest(dir, sector) {
            return Some(0);
        }
        self.index.next(dir, sector, 0)
    }

    /// The id of the next request of a direction.
    #[inline(always)]
    fn next(&self, dir: Dir) -> Option<u64>
        ensures some { IfSome result (IsIdOf (map.get self.now.index) (next_in self.now dir)) }
        ensures none { IfNone result (next_in self.now dir ≡ None) }
    {
        match self.tunables.positions {
            Positions::One => self.after_last(dir),
            Positions::Each => self.from_sector(dir, self.batch.position(dir)),
        }
    }

    /// The id of the next request of the batch, if it goes on.
    #[inline(always)]
    fn in_batch(&self) -> Option<u64>
        ensures some { IfSome result (IsIdOf (map.get self.now.index) (batch_next self.now)) }
        ensures none { IfNone result (batch_next self.now ≡ None) }
        ensures room { OnSome result (self.now.batch.batching < self.now.tunables.fifo_batch) }
    {
        if self.batch.batching >= self.tunables.fifo_batch {
            return None;
        }
        self.next(self.batch.last_dir())
    }

    /// The id of the oldest of a direction where it is due or there is no next one, and otherwise of the next one.
    fn due_or_next(&self, now: u64, oldest: &Queued, dir: Dir) -> u64
        requires { map.get self.now.index oldest.now.id ≡ Some oldest.now }
        ensures { map.get self.now.index result ≡ Some (due_or_next now oldest.now (next_in self.now dir)) }
    {
        if oldest.due <= now {
            return oldest.id;
        }
        match self.next(dir) {
            Some(next) => next,
            None => oldest.id,
        }
    }

    /// The choice, by its id, how many went in the batch then, and how often reads went first.
    #[inline(always)]
    fn choose(&self, now: u64) -> Option<(u64, u16, u16)>
        ensures some { IfSome result (IsBatchChoice (map.get self.now.index) self.now.batch (choice_at self.now now)) }
        ensures none { IfNone result (choice_at self.now now ≡ None) }
        ensures all { IfNone result ((k : ℕ) (w : Waiting) → map.get self.now.index k ≡ Some w → ⊥) }
    {
        let starved = self.batch.starved;
        let batching = self.batch.batching;
        let limit = self.tunables.fifo_batch;
        let patience = self.tunables.writes_starved;
        if let Some(id) = self.in_batch() {
            prove!(batching < limit);
            return Some((id, batching + 1, starved));
        }
        match (self.oldest(Dir::Read), self.oldest(Dir::Write)) {
            (None, None) => None,
            (Some(read), None) => Some((self.due_or_next(now, read, Dir::Read), 1, starved)),
            (None, Some(write)) => Some((self.due_or_next(now, write, Dir::Write), 1, 0)),
            (Some(read), Some(write)) => {
                if starved >= patience {
                    Some((self.due_or_next(now, write, Dir::Write), 1, 0))
                } else {
                    Some((self.due_or_next(now, read, Dir::Read), 1, starved + 1))
                }
            }
        }
    }
}

impl BatchState {
    /// The direction of the last pick: reads before there is one.
    fn last_dir(&self) -> Dir
        ensures { result ≡ last_dir self.now.last }
    {
        match self.last {
            Some(last) => last.dir,
            None => Dir::Read,
        }
    }

    /// The position of a direction.
    fn position(&self, dir: Dir) -> u64
        ensures { result ≡ position_in self.now dir }
    {
        match dir {
            Dir::Read => self.read_position,
            Dir::Write => self.write_position,
        }
    }

    /// Where the scheduler stands after a pick.
    fn after(&self, queued: &Queued, batching: u16, starved: u16) -> BatchState
        ensures { result ≡ (taken self.now queued.now batching starved).1 }
    {
        let dir = queued.extent.dir();
        let first = queued.extent.first();
        let last = Last {
            dir,
            first,
            id: queued.id,
        };
        let (read_position, write_position) = match dir {
            Dir::Read => (first, self.write_position),
            Dir::Write => (self.read_position, first),
        };
        BatchState {
            last: Some(last),
            read_position,
            write_position,
            batching,
            starved,
        }
    }
}

impl<A: Allocator + Clone> Scheduler for Deadline<A> {
    type A = A;

    ghost meaning = { meaning_of };

    ghost policy = { deadline_policy };

    ghost kept = { λ s. deadline_kept s.batch s.tunables };

    #[inline(always)]
    fn insert(&mut self, queued: Queued) -> Result<(), AllocError> {
        self.index.insert(queued)
    }

    #[inline(always)]
    fn candidate(&self, hw: u8, limits: &Limits, newcomer: &Extent) -> Option<(u64, Side)> {
        let _ = hw;
        self.index
            .candidate(newcomer, limits, self.tunables.front_merges)
    }

    fn join(
        &mut self,
        hw: u8,
        id: u64,
        side: Side,
        now: u64,
        newcomer: &Extent,
    ) -> Result<(), AllocError> {
        let _ = hw;
        self.index.join_at(id, side, now, newcomer)
    }

    /// Hands out the request that the three rules choose, and stands then as they say.
    #[inline(always)]
    fn pick(&mut self, hw: u8, now: u64) -> Option<Queued>
        requires hw { hw < MAX_QUEUES }
        requires few { (meaning_of self.old).open_picks.reads + (meaning_of self.old).open_picks.writes < MAX_OPEN }
        ensures chosen { deadline_chooses (kept_in self.old) (meaning_of self.old) hw now result (kept_in self.new) }
        ensures choice { result ≡ handed_out (choice_at self.old now) }
        ensures batch { batch_of self.new ≡ batch_after (batch_of self.old) (choice_at self.old now) }
        ensures tunables { tunables_of self.new ≡ tunables_of self.old }
        ensures picked { IfSome result (λ w. Picks serves_all hw (meaning_of self.old) w (meaning_of self.new)) }
        ensures none { IfNone result (ServesNothing serves_all hw (meaning_of self.old)) }
        ensures same { IfNone result (self.new ≡ self.old) }
        ensures own { (w : Waiting) → IsTrue (serves_all w.hw w) }
    {
        let _ = hw;
        let Some((id, batching, starved)) = self.choose(now) else {
            return None;
        };
        let Some(queued) = self.index.remove(id) else {
            unreachable!()
        };
        self.open_picks.open(queued.extent.dir());
        self.batch = self.batch.after(&queued, batching, starved);
        Some(queued)
    }

    /// Closes an open pick; the batch and the tunables stay.
    fn on_done(&mut self, hw: u8, dir: Dir, wait: u64)
        requires hw { hw < MAX_QUEUES }
        requires is_open { 0 < open_of dir (meaning_of self.old).open_picks }
        ensures done { meaning_of self.old ≡ record (meaning_of self.new) { open_picks = opened dir (meaning_of self.new).open_picks } }
        ensures batch { batch_of self.new ≡ batch_of self.old }
        ensures tunables { tunables_of self.new ≡ tunables_of self.old }
    {
        let _ = (hw, wait);
        self.open_picks.close(dir);
    }

    /// Requeues an open pick; the batch and the tunables stay.
    fn on_requeue(&mut self, dir: Dir)
        requires is_open { 0 < open_of dir (meaning_of self.old).open_picks }
        requires few { (meaning_of self.old).open_picks.requeued_reads + (meaning_of self.old).open_picks.requeued_writes < MAX_REQUEUED }
        ensures back { RequeuesPick dir (meaning_of self.old) (meaning_of self.new) }
        ensures batch { batch_of self.new ≡ batch_of self.old }
        ensures tunables { tunables_of self.new ≡ tunables_of self.old }
    {
        self.open_picks.requeue(dir);
    }

    /// Opens a requeued pick again; the batch and the tunables stay.
    fn on_reissue(&mut self, dir: Dir)
        requires is_requeued { 0 < requeued_of dir (meaning_of self.old).open_picks }
        requires few { (meaning_of self.old).open_picks.reads + (meaning_of self.old).open_picks.writes < MAX_OPEN }
        ensures again { RequeuesPick dir (meaning_of self.new) (meaning_of self.old) }
        ensures batch { batch_of self.new ≡ batch_of self.old }
        ensures tunables { tunables_of self.new ≡ tunables_of self.old }
    {
        self.open_picks.reopen(dir);
    }

    /// Begins a round; the batch and the tunables stay.
    fn on_tick(&mut self, now: u64)
        ensures same { self.new ≡ self.old }
    {
        let _ = now;
    }

    fn pending(&self) -> u64 {
        self.index.len() as u64
    }

    fn picked(&self, dir: Dir) -> u64 {
        self.open_picks.of(dir)
    }

    fn requeued(&self, dir: Dir) -> u64 {
        self.open_picks.requeued(dir)
    }
}
