//! What the core tells its scheduler.

use crate::cores::given::{command, follow, setup};
use crate::cores::listed::CoreCall;
use blk_bio::{Dir, Extent, Limits, Side};
use blk_core::{Core, Placed};
use blk_lifo::Lifo;
use blk_sched::{Queued, Scheduler};
use std::alloc::{AllocError, Global};
use std::cell::Cell;
use std::process::Abort;

/// The last pick's hardware queue and round, the last done's hardware queue, direction and wait, the direction that
/// was last requeued, and that which last went out again, and the last tick's round.
#[derive(Drop)]
struct Notes {
    pick: Cell<Option<(u8, u64)>>,
    done: Cell<Option<(u8, Dir, u64)>>,
    back: Cell<Option<Dir>>,
    again: Cell<Option<Dir>>,
    tick: Cell<Option<u64>>,
}

impl Notes {
    /// Told nothing so far.
    fn new() -> Notes {
        Notes {
            pick: Cell::new(None),
            done: Cell::new(None),
            back: Cell::new(None),
            again: Cell::new(None),
            tick: Cell::new(None),
        }
    }
}

/// A scheduler that notes its calls, and does what another does.
#[derive(Drop)]
struct Noting<'a, S: Scheduler> {
    scheduler: S,
    told: &'a Notes,
}

impl<'a, S: Scheduler> Scheduler for Noting<'a, S> {
    type A = S::A;

    ghost meaning = { λ n. S.meaning n.scheduler };

    ghost policy = { S.policy };

    ghost kept = { λ n. S.kept n.scheduler };

    fn insert(&mut self, queued: Queued) -> Result<(), AllocError> {
        self.scheduler.insert(queued)
    }

    fn candidate(&self, hw: u8, limits: &Limits, newcomer: &Extent) -> Option<(u64, Side)> {
        self.scheduler.candidate(hw, limits, newcomer)
    }

    fn join(
        &mut self,
        hw: u8,
        id: u64,
        side: Side,
        now: u64,
        newcomer: &Extent,
    ) -> Result<(), AllocError> {
        self.scheduler.join(hw, id, side, now, newcomer)
    }

    fn pick(&mut self, hw: u8, now: u64) -> Option<Queued> {
        self.told.pick.set(Some((hw, now)));
        self.scheduler.pick(hw, now)
    }

    fn on_done(&mut self, hw: u8, dir: Dir, wait: u64) {
        self.told.done.set(Some((hw, dir, wait)));
        self.scheduler.on_done(hw, dir, wait);
    }

    fn on_requeue(&mut self, dir: Dir) {
        self.told.back.set(Some(dir));
        self.scheduler.on_requeue(dir);
    }

    fn on_reissue(&mut self, dir: Dir) {
        self.told.again.set(Some(dir));
        self.scheduler.on_reissue(dir);
    }

    fn on_tick(&mut self, now: u64) {
        self.told.tick.set(Some(now));
        self.scheduler.on_tick(now);
    }

    fn pending(&self) -> u64 {
        self.scheduler.pending()
    }

    fn picked(&self, dir: Dir) -> u64 {
        self.scheduler.picked(dir)
    }

    fn requeued(&self, dir: Dir) -> u64 {
        self.scheduler.requeued(dir)
    }
}

/// A core whose scheduler notes its calls.
type Heard<'a> = Core<Noting<'a, Lifo>>;

/// What is noted of the last pick, the last done and the last tick.
fn heard(told: &Notes) -> (Option<(u8, u64)>, Option<(u8, Dir, u64)>, Option<u64>) {
    (told.pick.get(), told.done.get(), told.tick.get())
}

/// A read is released in round 0 for queue 0, joined in round 3, which becomes its release, and issued in round 4 for
/// queue 1, so its wait is 1.
fn read_goes_out(rt: &impl Abort, alloc: Global, core: &mut Heard<'_>) {
    let calls = [
        CoreCall::Read(0, 0, 4, 0, Ok(Placed::New(0))),
        CoreCall::Tick(Ok(1)),
        CoreCall::Tick(Ok(2)),
        CoreCall::Tick(Ok(3)),
        CoreCall::Read(1, 4, 4, 0, Ok(Placed::Joined(0, Side::Back))),
        CoreCall::Tick(Ok(4)),
        CoreCall::Issue(1, 1, Ok(Some(command(0, 3, 5)))),
        CoreCall::Done(1, Ok(())),
        CoreCall::Tick(Ok(5)),
    ];
    follow(rt, &alloc, core, &calls);
}

/// Then a write of round 5 is issued at once, so its wait is 0.
fn write_goes_out(rt: &impl Abort, alloc: Global, core: &mut Heard<'_>) {
    let calls = [
        CoreCall::Write(2, 100, 8, 1, Ok(Placed::New(1))),
        CoreCall::Issue(0, 0, Ok(Some(command(1, 5, 5)))),
        CoreCall::Done(0, Ok(())),
    ];
    follow(rt, &alloc, core, &calls);
}

/// A read of round 5 is requeued then, and issued again in round 6, so its wait is 1; the scheduler isn't asked for it.
/// It entered at queue 0 and goes out for queue 1.
fn read_comes_back(rt: &impl Abort, alloc: Global, core: &mut Heard<'_>) {
    let calls = [
        CoreCall::Read(3, 200, 4, 0, Ok(Placed::New(2))),
        CoreCall::Issue(1, 1, Ok(Some(command(2, 5, 10)))),
        CoreCall::Back(1, Ok(2)),
        CoreCall::Tick(Ok(6)),
        CoreCall::Issue(1, 0, Ok(Some(command(2, 5, 10)))),
        CoreCall::Done(0, Ok(())),
    ];
    follow(rt, &alloc, core, &calls);
}

#[test]
fn told_the_scheduler(rt: HostRuntime) {
    let alloc = rt.alloc();
    let told = Notes::new();
    let scheduler = Noting {
        scheduler: Lifo::new(alloc),
        told: &told,
    };
    let Ok(mut core) = Core::new(alloc, setup(&rt, 2, 2, 5), scheduler) else {
        panic!(rt; "out of memory");
    };
    read_goes_out(&rt, alloc, &mut core);
    let read = (Some((1, 4)), Some((1, Dir::Read, 1)), Some(5));
    assert!(rt; heard(&told) == read);
    write_goes_out(&rt, alloc, &mut core);
    let write = (Some((0, 5)), Some((0, Dir::Write, 0)), Some(5));
    assert!(rt; heard(&told) == write);
    read_comes_back(&rt, alloc, &mut core);
    let again = (Some((1, 5)), Some((1, Dir::Read, 1)), Some(6));
    assert!(rt; heard(&told) == again);
    let handed = Some(Dir::Read);
    assert!(rt; told.back.get() == handed && told.again.get() == handed);
}
