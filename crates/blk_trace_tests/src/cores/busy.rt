//! A busy device: commands that are requeued, and issued again from the queue that issued them.

use crate::cores::given::{command, follows, lifo_follows, setup};
use crate::cores::listed::CoreCall;
use blk_bio::Side;
use blk_core::{BackFault, IssueFault, NotIssued, Placed, TickFault};

/// What was requeued goes out before what never went, under another tag; a tag stays used in its round, and the round
/// of a command is that of its last issue.
#[test]
fn requeued_and_issued_again(rt: HostRuntime) {
    let calls = [
        CoreCall::Read(0, 0, 8, 0, Ok(Placed::New(0))),
        CoreCall::Read(1, 100, 8, 0, Ok(Placed::New(1))),
        CoreCall::Issue(0, 0, Ok(Some(command(0, 0, 0)))),
        CoreCall::Pending(1),
        CoreCall::Back(0, Ok(0)),
        CoreCall::Pending(2),
        CoreCall::Back(0, Err(BackFault::NotIssued)),
        CoreCall::Done(0, Err(NotIssued)),
        CoreCall::Issue(0, 0, Err(IssueFault::SlotUsed)),
        CoreCall::Issue(0, 1, Ok(Some(command(0, 0, 0)))),
        CoreCall::Done(1, Ok(())),
        CoreCall::Tick(Ok(1)),
        CoreCall::Issue(0, 0, Ok(Some(command(1, 0, 0)))),
        CoreCall::Rounds(&[0, 1]),
    ];
    follows(&rt, rt.alloc(), setup(&rt, 2, 1, 0), &calls);
}

/// A requeued request goes out for the queue that issued it alone, and no bio joins it.
#[test]
fn requeued_for_its_own_queue(rt: HostRuntime) {
    let calls = [
        CoreCall::Read(0, 0, 8, 1, Ok(Placed::New(0))),
        CoreCall::Back(0, Err(BackFault::NotIssued)),
        CoreCall::Back(2, Err(BackFault::NotIssued)),
        CoreCall::Issue(1, 0, Ok(Some(command(0, 0, 0)))),
        CoreCall::Back(1, Err(BackFault::NotIssued)),
        CoreCall::Back(0, Ok(0)),
        CoreCall::Issue(0, 1, Ok(None)),
        CoreCall::Read(1, 8, 8, 1, Ok(Placed::New(1))),
        CoreCall::Read(2, 16, 8, 1, Ok(Placed::Joined(1, Side::Back))),
        CoreCall::Pending(2),
        CoreCall::Tick(Ok(1)),
        CoreCall::Issue(0, 0, Ok(None)),
        CoreCall::Issue(1, 0, Ok(Some(command(0, 0, 0)))),
        CoreCall::Tick(Err(TickFault::InFlight(1))),
        CoreCall::Issue(1, 1, Ok(Some(command(1, 0, 0)))),
        CoreCall::Pending(0),
        CoreCall::Done(0, Ok(())),
        CoreCall::Done(1, Ok(())),
        CoreCall::Tick(Ok(2)),
        CoreCall::Len(11),
    ];
    follows(&rt, rt.alloc(), setup(&rt, 2, 2, 0), &calls);
}

/// Those requeued first go out first, whatever their ids; one requeued twice stands last.
#[test]
fn issued_in_the_order_of_requeueing(rt: HostRuntime) {
    let calls = [
        CoreCall::Read(0, 0, 8, 0, Ok(Placed::New(0))),
        CoreCall::Read(1, 100, 8, 0, Ok(Placed::New(1))),
        CoreCall::Read(2, 200, 8, 0, Ok(Placed::New(2))),
        CoreCall::Issue(0, 0, Ok(Some(command(0, 0, 0)))),
        CoreCall::Issue(0, 1, Ok(Some(command(1, 0, 0)))),
        CoreCall::Issue(0, 2, Ok(Some(command(2, 0, 0)))),
        CoreCall::Back(2, Ok(2)),
        CoreCall::Back(0, Ok(0)),
        CoreCall::Back(1, Ok(1)),
        CoreCall::Pending(3),
        CoreCall::Tick(Ok(1)),
        CoreCall::Issue(0, 1, Ok(Some(command(2, 0, 0)))),
        CoreCall::Back(1, Ok(2)),
        CoreCall::Issue(0, 0, Ok(Some(command(0, 0, 0)))),
        CoreCall::Issue(0, 2, Ok(Some(command(1, 0, 0)))),
        CoreCall::Done(0, Ok(())),
        CoreCall::Done(2, Ok(())),
        CoreCall::Tick(Ok(2)),
        CoreCall::Issue(0, 0, Ok(Some(command(2, 0, 0)))),
        CoreCall::Pending(0),
        CoreCall::Rounds(&[1, 1, 2]),
    ];
    follows(&rt, rt.alloc(), setup(&rt, 3, 1, 0), &calls);
}

/// A scheduler of one's own hears of what is requeued, too.
#[test]
fn last_in_first_out_is_told(rt: HostRuntime) {
    let calls = [
        CoreCall::Read(0, 0, 8, 0, Ok(Placed::New(0))),
        CoreCall::Read(1, 100, 8, 0, Ok(Placed::New(1))),
        CoreCall::Issue(0, 0, Ok(Some(command(1, 0, 0)))),
        CoreCall::Back(0, Ok(1)),
        CoreCall::Read(2, 200, 8, 0, Ok(Placed::New(2))),
        CoreCall::Issue(0, 1, Ok(Some(command(1, 0, 0)))),
        CoreCall::Back(1, Ok(1)),
        CoreCall::Tick(Ok(1)),
        CoreCall::Issue(0, 0, Ok(Some(command(1, 0, 0)))),
        CoreCall::Issue(0, 1, Ok(Some(command(2, 0, 0)))),
        CoreCall::Pending(1),
    ];
    lifo_follows(&rt, rt.alloc(), setup(&rt, 2, 1, 0), &calls);
}
