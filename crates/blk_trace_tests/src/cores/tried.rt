//! Tries for a command, which end a round that is full.

use crate::cores::given::{alone, bio, in_order, setup};
use blk_bio::Dir;
use blk_core::{Core, IssueFault, NoneIssued, TickFault};
use blk_none::NoneSched;
use std::alloc::Global;
use std::process::Abort;

/// A read enters, of a serial number and a first sector.
fn enters(rt: &impl Abort, alloc: Global, core: &mut Core<NoneSched>, serial: u64, first: u64) {
    let limits = core.trace().setup().limits();
    let request = alone(rt, alloc, bio(rt, serial, Dir::Read, first, 8));
    assert!(rt; request.within(&limits));
    assert!(rt; core.release(request, 0).is_ok());
}

/// A core of this number of tags, in which two requests wait.
fn two_wait(rt: &impl Abort, alloc: Global, depth: u64) -> Core<NoneSched> {
    let mut core = in_order(rt, &alloc, setup(rt, depth, 1, 0));
    enters(rt, alloc, &mut core, 0, 0);
    enters(rt, alloc, &mut core, 1, 100);
    core
}

/// What a try issues under a tag that the setup has, or why nothing, and the round after it.
fn taken(rt: &impl Abort, core: &mut Core<NoneSched>, tag: u16) -> (Result<u64, NoneIssued>, u64) {
    assert!(rt; u64::from(tag) < core.trace().setup().depth());
    assert!(rt; core.trace().setup().hw() > 0);
    let answer = match core.try_issue(0, tag) {
        Ok(command) => Ok(command.id),
        Err(why) => Err(why),
    };
    (answer, core.trace().round())
}

/// A round of one tag is full at its first command, and the next try ends it, but not while that command is in flight; and a try that
/// finds nothing ends none.
#[test]
fn full_at_one_tag(rt: HostRuntime) {
    let mut core = two_wait(&rt, rt.alloc(), 1);
    assert!(rt; taken(&rt, &mut core, 0) == (Ok(0), 0));
    assert!(rt; taken(&rt, &mut core, 0) == (Err(NoneIssued::Tick(TickFault::InFlight(1))), 0));
    assert!(rt; core.done(0).is_ok());
    assert!(rt; taken(&rt, &mut core, 0) == (Err(NoneIssued::Ended), 1));
    assert!(rt; taken(&rt, &mut core, 0) == (Ok(1), 1));
    assert!(rt; core.done(0).is_ok());
    assert!(rt; taken(&rt, &mut core, 0) == (Err(NoneIssued::Ended), 2));
    assert!(rt; taken(&rt, &mut core, 0) == (Err(NoneIssued::Nothing), 2));
}

/// A round is full where as many commands were issued in it as there are tags: a used tag ends it then, but not while a command is in
/// flight, and not before.
#[test]
fn full_by_issues(rt: HostRuntime) {
    let mut core = two_wait(&rt, rt.alloc(), 2);
    assert!(rt; taken(&rt, &mut core, 1) == (Ok(0), 0));
    assert!(rt; taken(&rt, &mut core, 1) == (Err(NoneIssued::Issue(IssueFault::SlotUsed)), 0));
    assert!(rt; core.done(1).is_ok());
    assert!(rt; taken(&rt, &mut core, 1) == (Err(NoneIssued::Issue(IssueFault::SlotUsed)), 0));
    assert!(rt; taken(&rt, &mut core, 0) == (Ok(1), 0));
    assert!(rt; taken(&rt, &mut core, 0) == (Err(NoneIssued::Tick(TickFault::InFlight(1))), 0));
    assert!(rt; core.done(0).is_ok());
    assert!(rt; taken(&rt, &mut core, 1) == (Err(NoneIssued::Ended), 1));
    assert!(rt; taken(&rt, &mut core, 1) == (Err(NoneIssued::Nothing), 1));
}

/// A round of a smaller depth is full sooner, and none of the tags from the depth on is issued in it.
#[test]
fn full_at_a_smaller_depth(rt: HostRuntime) {
    let mut core = two_wait(&rt, rt.alloc(), 2);
    assert!(rt; core.set_depth(1).is_ok() && core.tick() == Ok(1));
    assert!(rt; taken(&rt, &mut core, 1) == (Err(NoneIssued::Issue(IssueFault::TagRange)), 1));
    assert!(rt; taken(&rt, &mut core, 0) == (Ok(0), 1));
    assert!(rt; taken(&rt, &mut core, 1) == (Err(NoneIssued::Tick(TickFault::InFlight(1))), 1));
    assert!(rt; core.done(0).is_ok());
    assert!(rt; taken(&rt, &mut core, 1) == (Err(NoneIssued::Ended), 2));
    assert!(rt; taken(&rt, &mut core, 0) == (Ok(1), 2));
}
