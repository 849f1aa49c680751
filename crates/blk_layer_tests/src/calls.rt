//! Drawn calls of a layer, each beside the same call of its parts.

ghost use Rattle.std.specs.Prelude.{true, ◌≡◌, ◌<◌, length};

use crate::dice::Dice;
use crate::given::bio;
use crate::plain::{Store, Tags};
use crate::seen::{CallOutcome, of_back, of_depth, of_done, of_flush, of_issue, of_tick};
use blk_bio::{Bio, Limits};
use blk_core::Core;
use blk_layer::{Layer, Named, Submitter, Worker};
use blk_none::NoneSched;
use blk_queues::Plug;
use std::alloc::Global;
use std::process::Abort;
use std::sync::Wait;

/// A read that a submitter is to flush: now and then one of another submitter, or one of an id that was accepted before.
fn drawn_bio(rt: &impl Abort, dice: &mut Dice, store: &Store, serial: u64) -> Bio {
    let first = dice.below(64).saturating_mul(8);
    match dice.below(32) {
        0 => bio(rt, 7, serial, first),
        1 => bio(
            rt,
            store.number(),
            known(store, dice.below(16), serial),
            first,
        ),
        _ => bio(rt, store.number(), serial, first),
    }
}

/// The serial number of an accepted bio, or another one where there are not as many.
fn known(store: &Store, place: u64, other: u64) -> u64 {
    match store.accepted().get(place as usize) {
        Some(bio) => bio.id().serial,
        None => other,
    }
}

/// One to three such reads.
fn drawn_bios(rt: &impl Abort, alloc: Global, dice: &mut Dice, store: &Store) -> Vec<Bio> {
    let serial = dice.calls.saturating_mul(3);
    let mut bios = Vec::new(alloc);
    for place in 0..3u64 {
        if place == 0 || dice.below(2) == 0 {
            let one = drawn_bio(rt, dice, store, serial.saturating_add(place));
            bios.push(one).expect(rt, "memory");
        }
    }
    bios
}

/// A plug of these bios.
fn plugged(rt: &impl Abort, alloc: Global, limits: Limits, bios: &[Bio]) -> Plug
    ensures { result.limits ≡ limits }
{
    let mut plug = Plug::new(alloc, limits).expect(rt, "memory");
    for bio in bios {
        assert!(rt; plug.add(*bio).is_ok());
    }
    plug
}

/// A flush of drawn bios.
fn flush<R: Abort + Wait, L: Named>(
    rt: &R,
    alloc: Global,
    layer: &Layer<NoneSched, L>,
    submitter: &mut Submitter<L>,
    store: &mut Store,
    dice: &mut Dice,
    limits: Limits,
) -> CallOutcome
    requires seat { submitter.old.number < length layer.now.map }
    requires limits { L.setup.limits ≡ limits }
    ensures { submitter.new.number ≡ submitter.old.number }
{
    let bios = drawn_bios(rt, alloc, dice, store);
    let mut plug = plugged(rt, alloc, limits, bios.as_slice());
    let mut other = plugged(rt, alloc, limits, bios.as_slice());
    let answer = layer.flush(rt, submitter, &mut plug);
    assert!(rt; answer == store.flush(rt, &mut other));
    of_flush(&answer)
}

/// A drain.
fn drain<R: Abort + Wait, L: Named>(
    rt: &R,
    layer: &Layer<NoneSched, L>,
    worker: &mut Worker<L>,
    store: &mut Store,
    core: &mut Core<NoneSched>,
) -> CallOutcome
    ensures { worker.new.tag_set ≡ worker.old.tag_set }
{
    let moved = store.drain(rt, core);
    assert!(rt; layer.drain(rt, worker) == Ok(moved));
    if moved == 0 {
        CallOutcome::NoneMoved
    } else {
        CallOutcome::Moved
    }
}

/// An issue.
fn issue<R: Abort + Wait, L: Named>(
    rt: &R,
    layer: &Layer<NoneSched, L>,
    worker: &mut Worker<L>,
    tags: &mut Tags,
    core: &mut Core<NoneSched>,
    hw: u8,
) -> CallOutcome
    requires { worker.old.tag_set ≡ layer.now.tag_set }
    ensures { worker.new.tag_set ≡ worker.old.tag_set }
{
    let answer = layer.issue(rt, worker);
    assert!(rt; answer == tags.issue(core, hw));
    of_issue(&answer)
}

/// A tag is reported done.
fn done<R: Abort + Wait, L: Named>(
    rt: &R,
    layer: &Layer<NoneSched, L>,
    worker: &mut Worker<L>,
    tags: &mut Tags,
    core: &mut Core<NoneSched>,
    tag: u16,
) -> CallOutcome
    requires { worker.old.tag_set ≡ layer.now.tag_set }
    ensures { worker.new.tag_set ≡ worker.old.tag_set }
{
    let answer = layer.done(rt, worker, tag);
    assert!(rt; answer == tags.done(core, tag));
    of_done(&answer)
}

/// A tag's command is requeued.
fn back<R: Abort + Wait, L: Named>(
    rt: &R,
    layer: &Layer<NoneSched, L>,
    worker: &mut Worker<L>,
    tags: &mut Tags,
    core: &mut Core<NoneSched>,
    tag: u16,
) -> CallOutcome
    requires { worker.old.tag_set ≡ layer.now.tag_set }
    ensures { worker.new.tag_set ≡ worker.old.tag_set }
{
    let answer = layer.back(rt, worker, tag);
    assert!(rt; answer == tags.back(core, tag));
    of_back(&answer)
}

/// A tick, or now and then a depth.
fn tick<R: Abort + Wait, L: Named>(
    rt: &R,
    layer: &Layer<NoneSched, L>,
    core: &mut Core<NoneSched>,
    dice: &mut Dice,
) -> CallOutcome
    requires hand { L.by_hand ≡ true }
{
    if dice.below(8) > 0 {
        let answer = layer.tick(rt);
        assert!(rt; answer == core.tick());
        return of_tick(&answer);
    }
    let depth = dice.below(4);
    let answer = layer.set_depth(rt, depth);
    assert!(rt; answer == core.set_depth(depth));
    of_depth(&answer)
}

/// A call of a worker.
pub fn by_worker<R: Abort + Wait, L: Named>(
    rt: &R,
    layer: &Layer<NoneSched, L>,
    worker: &mut Worker<L>,
    store: &mut Store,
    tags: &mut Tags,
    core: &mut Core<NoneSched>,
    dice: &mut Dice,
) -> CallOutcome
    requires tags { worker.old.tag_set ≡ layer.now.tag_set }
    requires hand { L.by_hand ≡ true }
    ensures { worker.new.tag_set ≡ worker.old.tag_set }
{
    let tag = drawn_tag(dice);
    match dice.below(8) {
        0 => drain(rt, layer, worker, store, core),
        1 | 2 => issue(rt, layer, worker, tags, core, store.number()),
        3 | 4 => done(rt, layer, worker, tags, core, tag),
        5 => back(rt, layer, worker, tags, core, tag),
        _ => tick(rt, layer, core, dice),
    }
}

/// A tag, or one past the last.
fn drawn_tag(dice: &mut Dice) -> u16 {
    match dice.below(5) {
        0 | 1 => 0,
        2 | 3 => 1,
        _ => 2,
    }
}

/// A call of a submitter or of a worker.
pub fn by_either<R: Abort + Wait, L: Named>(
    rt: &R,
    alloc: Global,
    layer: &Layer<NoneSched, L>,
    submitter: &mut Submitter<L>,
    worker: &mut Worker<L>,
    store: &mut Store,
    tags: &mut Tags,
    core: &mut Core<NoneSched>,
    dice: &mut Dice,
    limits: Limits,
) -> CallOutcome
    requires seat { submitter.old.number < length layer.now.map }
    requires limits { L.setup.limits ≡ limits }
    requires tags { worker.old.tag_set ≡ layer.now.tag_set }
    requires hand { L.by_hand ≡ true }
    ensures seat { submitter.new.number ≡ submitter.old.number }
    ensures tags { worker.new.tag_set ≡ worker.old.tag_set }
{
    if dice.below(5) == 0 {
        flush(rt, alloc, layer, submitter, store, dice, limits)
    } else {
        by_worker(rt, layer, worker, store, tags, core, dice)
    }
}
