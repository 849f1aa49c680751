//! The core over a scheduler of one's own.

use crate::cores::given::{command, follow, in_order, lifo_follows, setup};
use crate::cores::listed::CoreCall;
use blk_bio::Side;
use blk_core::{Placed, TickFault};

#[test]
fn newest_first(rt: HostRuntime) {
    let commands = [command(2, 0, 5), command(1, 1, 5), command(0, 0, 5)];
    let calls = [
        CoreCall::Read(0, 100, 8, 0, Ok(Placed::New(0))),
        CoreCall::Read(1, 200, 8, 1, Ok(Placed::New(1))),
        CoreCall::Read(2, 300, 8, 0, Ok(Placed::New(2))),
        CoreCall::Tick(Ok(1)),
        CoreCall::Read(3, 192, 8, 0, Ok(Placed::Joined(1, Side::Front))),
        CoreCall::Pending(3),
        CoreCall::Issue(0, 0, Ok(Some(command(2, 0, 5)))),
        CoreCall::Issue(0, 1, Ok(Some(command(1, 1, 5)))),
        CoreCall::Tick(Err(TickFault::InFlight(2))),
        CoreCall::Done(1, Ok(())),
        CoreCall::Done(0, Ok(())),
        CoreCall::Tick(Ok(2)),
        CoreCall::Issue(1, 1, Ok(Some(command(0, 0, 5)))),
        CoreCall::Issue(1, 0, Ok(None)),
        CoreCall::Done(1, Ok(())),
        CoreCall::Pending(0),
        CoreCall::Commands(&commands),
        CoreCall::Rounds(&[1, 1, 2]),
    ];
    lifo_follows(&rt, rt.alloc(), setup(&rt, 2, 2, 5), &calls);
}

/// The trace that a core leaves, in which a round ended.
#[test]
fn a_core_leaves_its_trace(rt: HostRuntime) {
    let mut core = in_order(&rt, &rt.alloc(), setup(&rt, 1, 1, 0));
    follow(&rt, &rt.alloc(), &mut core, &[CoreCall::Tick(Ok(1))]);
    assert_eq!(rt; core.into_trace().len(), 1);
}
