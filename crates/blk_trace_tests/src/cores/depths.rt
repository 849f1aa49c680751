//! A depth that changes from round to round.

use crate::cores::given::{command, follow, follows, in_order, setup};
use crate::cores::listed::CoreCall;
use blk_bio::Dir;
use blk_core::{DepthFault, IssueFault, Placed};

/// A new depth is in force from the next round on, and no deeper than the setup's.
#[test]
fn depth_changes(rt: HostRuntime) {
    let calls = [
        CoreCall::Read(0, 0, 8, 0, Ok(Placed::New(0))),
        CoreCall::Read(1, 100, 8, 0, Ok(Placed::New(1))),
        CoreCall::Read(2, 200, 8, 0, Ok(Placed::New(2))),
        CoreCall::Read(3, 300, 8, 0, Ok(Placed::New(3))),
        CoreCall::Depth(0, Err(DepthFault::DepthRange)),
        CoreCall::Depth(3, Err(DepthFault::DepthRange)),
        CoreCall::Depth(1, Ok(())),
        CoreCall::Issue(0, 0, Ok(Some(command(0, 0, 0)))),
        CoreCall::Issue(0, 1, Ok(Some(command(1, 0, 0)))),
        CoreCall::Done(0, Ok(())),
        CoreCall::Done(1, Ok(())),
        CoreCall::Tick(Ok(1)),
        CoreCall::Issue(0, 1, Err(IssueFault::TagRange)),
        CoreCall::Depth(2, Ok(())),
        CoreCall::Tick(Ok(2)),
        CoreCall::Issue(0, 1, Ok(Some(command(2, 0, 0)))),
        CoreCall::Len(13),
    ];
    follows(&rt, rt.alloc(), setup(&rt, 2, 1, 0), &calls);
}

/// As many tags as there may be: all go out in one round.
#[test]
fn deepest(rt: HostRuntime) {
    let alloc = rt.alloc();
    let mut core = in_order(&rt, &alloc, setup(&rt, 256, 1, 0));
    follow(
        &rt,
        &alloc,
        &mut core,
        &[CoreCall::Enter(Dir::Read, 0, 0, 256)],
    );
    for tag in 0..256u16 {
        let goes = [CoreCall::Send(0, tag, &[tag as u64])];
        follow(&rt, &alloc, &mut core, &goes);
    }
    let last = [CoreCall::Issue(0, 256, Err(IssueFault::TagRange))];
    follow(&rt, &alloc, &mut core, &last);
}
