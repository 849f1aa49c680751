//! Drawn lists of calls, whose answers are those of the layer's parts called directly.

ghost use Rattle.std.specs.Prelude.{true, ◌≡◌, ◌<◌, [], length};

use crate::asked::{close, last};
use crate::calls::by_either;
use crate::dice::Dice;
use crate::given::{core, limits, setup};
use crate::plain::{SOFT_DEPTH, Store, Tags};
use crate::seen::{ALL, CallOutcome, times};
use blk_bio::{Bio, Limits, Request};
use blk_core::Core;
use blk_layer::{Closed, Layer, MAX_WORKERS, Named, Submitter, Worker};
use blk_none::NoneSched;
use blk_queues::Map;
use blk_tags::TagSet;
use blk_trace::Event;
use std::alloc::Global;
use std::marker::Brand;
use std::process::Abort;
use std::sync::Wait;
use std::sync::ledger::Blank;

/// How many lists are drawn.
const LISTS: u64 = 200;

/// How many calls each has.
const CALLS: u64 = 500;

/// The parts of a layer of two submitters and two workers.
#[derive(Drop)]
struct Parts<'a> {
    core: Core<NoneSched>,
    zero: Store,
    one: Store,
    tags_zero: Tags<'a>,
    tags_one: Tags<'a>,
}

impl<'a> Parts<'a> {
    /// All empty.
    fn new(
        rt: &impl Abort,
        alloc: Global,
        core: Core<NoneSched>,
        limits: Limits,
        tags_zero: Tags<'a>,
        tags_one: Tags<'a>,
    ) -> Parts<'a> {
        Parts {
            core,
            zero: Store::new(rt, alloc, 0, limits),
            one: Store::new(rt, alloc, 1, limits),
            tags_zero,
            tags_one,
        }
    }

    /// The bios in the software queues, by rising number, and then those that wait in the core.
    fn left(&mut self, rt: &impl Abort, alloc: Global) -> Vec<Bio> {
        let mut left = Vec::new(alloc);
        self.zero.leave(rt, &mut left);
        self.one.leave(rt, &mut left);
        let waiting = self.core.trace().waiting().expect(rt, "memory");
        left.extend_from_slice(waiting.as_slice())
            .expect(rt, "memory");
        left
    }
}

/// Whether the same bios enter under the same id, or none by either.
fn enter_alike(one: Option<(u64, &Request)>, other: Option<(u64, &Request)>) -> bool {
    match (one, other) {
        (Some((id, request)), Some((id_there, there))) => {
            id == id_there && request.bios() == there.bios()
        }
        (None, None) => true,
        _ => false,
    }
}

/// Whether two events are the same.
fn is_same(one: &Event<Request>, other: &Event<Request>) -> bool {
    one.is_tick() == other.is_tick()
        && enter_alike(one.releases(), other.releases())
        && enter_alike(one.joins(), other.joins())
        && one.issues() == other.issues()
        && one.completes() == other.completes()
        && one.requeues() == other.requeues()
        && one.sets_depth() == other.sets_depth()
}

/// Whether two lists of events are the same.
fn are_same(ones: &[Event<Request>], others: &[Event<Request>]) -> bool {
    ones.len() == others.len()
        && ones
            .iter()
            .zip(others)
            .all(|(one, other)| is_same(one, other))
}

/// A drawn call, by the one submitter and worker or by the other.
fn call<R: Abort + Wait, L: Named>(
    rt: &R,
    alloc: Global,
    layer: &Layer<NoneSched, L>,
    first: &mut Submitter<L>,
    second: &mut Submitter<L>,
    zero: &mut Worker<L>,
    one: &mut Worker<L>,
    parts: &mut Parts,
    dice: &mut Dice,
    limits: Limits,
) -> CallOutcome
    requires first { first.old.number < length layer.now.map }
    requires second { second.old.number < length layer.now.map }
    requires limits { L.setup.limits ≡ limits }
    requires zero { zero.old.tag_set ≡ layer.now.tag_set }
    requires one { one.old.tag_set ≡ layer.now.tag_set }
    requires hand { L.by_hand ≡ true }
    ensures first { first.new.number ≡ first.old.number }
    ensures second { second.new.number ≡ second.old.number }
    ensures zero { zero.new.tag_set ≡ zero.old.tag_set }
    ensures one { one.new.tag_set ≡ one.old.tag_set }
{
    dice.calls = dice.calls.wrapping_add(1);
    let Parts {
        core,
        zero: store_zero,
        one: store_one,
        tags_zero,
        tags_one,
    } = parts;
    if dice.below(2) == 0 {
        by_either(
            rt, alloc, layer, first, zero, store_zero, tags_zero, core, dice, limits,
        )
    } else {
        by_either(
            rt, alloc, layer, second, one, store_one, tags_one, core, dice, limits,
        )
    }
}

/// All calls of a list.
fn play<R: Abort + Wait, L: Named>(
    rt: &R,
    alloc: Global,
    layer: &Layer<NoneSched, L>,
    first: &mut Submitter<L>,
    second: &mut Submitter<L>,
    zero: &mut Worker<L>,
    one: &mut Worker<L>,
    parts: &mut Parts,
    dice: &mut Dice,
    log: &mut Vec<CallOutcome>,
    limits: Limits,
)
    requires first { first.old.number < length layer.now.map }
    requires second { second.old.number < length layer.now.map }
    requires limits { L.setup.limits ≡ limits }
    requires zero { zero.old.tag_set ≡ layer.now.tag_set }
    requires one { one.old.tag_set ≡ layer.now.tag_set }
    requires hand { L.by_hand ≡ true }
{
    for _ in 0..CALLS {
        let seen = call(
            rt, alloc, layer, first, second, zero, one, parts, dice, limits,
        );
        log.push(seen).expect(rt, "memory");
    }
}

/// A closed layer leaves the trace and the bios that its parts do.
fn settles(rt: &impl Abort, alloc: Global, closed: &Closed, parts: &mut Parts) {
    assert!(rt; are_same(closed.trace.events(), parts.core.trace().events()));
    assert!(rt; closed.left.as_slice() == parts.left(rt, alloc).as_slice());
}

#[tactic(auto, using(crate::proofs::Seated::all_of))]
fn list<R: Abort + Wait, L: Named>(
    rt: &R,
    alloc: Global,
    blank: Blank,
    core: Core<NoneSched>,
    map: Map,
    worker_queues: Vec<u8>,
    limits: Limits,
    parts: &mut Parts,
    dice: &mut Dice,
    log: &mut Vec<CallOutcome>,
)
    requires name { blank.name ≡ L.name }
    requires parts { (blank.parts ≡ MAX_WORKERS) × (L.parts ≡ MAX_WORKERS) }
    requires setup { core.setup ≡ L.setup }
    requires start { core ≡ L.start }
    requires limits { L.setup.limits ≡ limits }
    requires map { L.map ≡ map }
    requires queues { L.queues ≡ worker_queues.items }
    requires empty { core.events ≡ [] }
    requires hand { L.by_hand ≡ true }
{
    let made = Layer::<NoneSched, L>::new(alloc, blank, core, map, SOFT_DEPTH, worker_queues);
    let Ok((layer, mut submitters, mut workers)) = made else {
        panic!(rt; "a layer");
    };
    let mut one = last(rt, &layer, &mut workers);
    let mut zero = last(rt, &layer, &mut workers);
    let count = submitters.len();
    let mut second = submitters.pop().expect(rt, "a submitter");
    let mut first = submitters.pop().expect(rt, "a submitter");
    assert!(rt; usize::from(first.number()) < count);
    assert!(rt; usize::from(second.number()) < count);
    play(
        rt,
        alloc,
        &layer,
        &mut first,
        &mut second,
        &mut zero,
        &mut one,
        parts,
        dice,
        log,
        limits,
    );
    assert!(rt; first.accepted() == parts.zero.accepted());
    assert!(rt; second.accepted() == parts.one.accepted());
    submitters.push(second).expect(rt, "memory");
    submitters.push(first).expect(rt, "memory");
    workers.push(one).expect(rt, "memory");
    workers.push(zero).expect(rt, "memory");
    let closed = close(rt, alloc, layer, submitters, workers);
    settles(rt, alloc, &closed, parts);
}

/// Draws a list of calls, and makes each of them twice.
fn draw<R: Abort + Wait>(rt: &R, alloc: Global, dice: &mut Dice, log: &mut Vec<CallOutcome>) {
    let limits = limits(rt);
    let (set, mut seat) = TagSet::new(alloc, 2).expect(rt, "a set");
    let tags_zero = Tags::new(&set, set.split(&mut seat).expect(rt, "memory"));
    let tags_one = Tags::new(&set, set.split(&mut seat).expect(rt, "memory"));
    let plain = core(rt, alloc, setup(rt, 2, 2, limits));
    let mut parts = Parts::new(rt, alloc, plain, limits, tags_zero, tags_one);
    let core = core(rt, alloc, setup(rt, 2, 2, limits));
    let entries = Vec::from_slice(alloc, &[0, 1]).expect(rt, "memory");
    let map = Map::new(entries).expect(rt, "a map");
    let queues = Vec::from_slice(alloc, &[0, 1]).expect(rt, "memory");
    list::<R, Brand>(
        rt,
        alloc,
        Blank::new(MAX_WORKERS),
        core,
        map,
        queues,
        limits,
        &mut parts,
        dice,
        log,
    );
}

// Whatever is drawn, the layer answers what its parts do; each answer is seen often enough to tell.
#[test]
fn layer_drawn_lists(rt: HostRuntime) {
    let alloc = rt.alloc();
    let mut dice = Dice::new();
    let mut log = Vec::new(alloc);
    for _ in 0..LISTS {
        draw(&rt, alloc, &mut dice, &mut log);
    }
    assert_eq!(rt; log.len() as u64, LISTS * CALLS);
    for seen in ALL {
        assert!(rt; times(log.as_slice(), seen) >= 500, "{seen:?}");
    }
}
