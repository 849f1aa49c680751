//! The core where allocations are refused.

use crate::cores::given::{command, follow, in_order, setup};
use crate::cores::listed::CoreCall;
use blk_bio::Side;
use blk_core::{Core, Placed};
use blk_none::NoneSched;
use refusing::Refusing;
use std::alloc::Global;
use std::process::Abort;

/// The core of this test.
type Under<'a> = Core<NoneSched<&'a Refusing<Global>>>;

/// A request of two bios enters, and a round ends.
fn enters<'a>(rt: &impl Abort, heap: &'a Refusing<Global>, core: &mut Under<'a>, id: u64) {
    assert!(rt; id < 1000);
    let (bio, sector) = (2 * id, 100 * id);
    let calls = [
        CoreCall::Read(bio, sector, 1, 0, Ok(Placed::New(id))),
        CoreCall::Read(
            bio + 1,
            sector + 1,
            1,
            0,
            Ok(Placed::Joined(id, Side::Back)),
        ),
        CoreCall::Tick(Ok(id + 1)),
    ];
    follow(rt, &heap, core, &calls);
}

/// A request goes out under each of two tags, the lesser id first.
fn leave<'a>(rt: &impl Abort, heap: &'a Refusing<Global>, core: &mut Under<'a>, id: u64) {
    assert!(rt; id < 1000);
    let next = id + 1;
    let calls = [
        CoreCall::Issue(0, 1, Ok(Some(command(id, id, id + 5)))),
        CoreCall::Issue(0, 0, Ok(Some(command(next, next, next + 5)))),
        CoreCall::Done(0, Ok(())),
        CoreCall::Done(1, Ok(())),
    ];
    follow(rt, &heap, core, &calls);
}

/// The first request goes out and comes back, twice, and the depth is set to what it is.
fn comes_back<'a>(rt: &impl Abort, heap: &'a Refusing<Global>, core: &mut Under<'a>) {
    let calls = [
        CoreCall::Issue(0, 0, Ok(Some(command(0, 0, 5)))),
        CoreCall::Back(0, Ok(0)),
        CoreCall::Issue(0, 1, Ok(Some(command(0, 0, 5)))),
        CoreCall::Back(1, Ok(0)),
        CoreCall::Pending(20),
        CoreCall::Depth(2, Ok(())),
        CoreCall::Tick(Ok(21)),
    ];
    follow(rt, &heap, core, &calls);
}

/// Twenty requests of two bios enter, one in each round; the first comes back; and then they go out two in a round.
fn come_and_go<'a>(rt: &impl Abort, heap: &'a Refusing<Global>) {
    let mut core = in_order(rt, &heap, setup(rt, 2, 1, 5));
    for id in 0..20u64 {
        enters(rt, heap, &mut core, id);
    }
    comes_back(rt, heap, &mut core);
    for n in 0..10u64 {
        leave(rt, heap, &mut core, 2 * n);
        follow(rt, &heap, &mut core, &[CoreCall::Tick(Ok(22 + n))]);
    }
    follow(
        rt,
        &heap,
        &mut core,
        &[CoreCall::Issue(0, 0, Ok(None)), CoreCall::Pending(0)],
    );
    assert_eq!(rt; core.trace().len(), 116);
}

#[test]
fn memory_refused(rt: HostRuntime) {
    let heap = Refusing::new(rt.alloc());
    for n in 1..1000u64 {
        heap.refuse(n);
        come_and_go(&rt, &heap);
        if heap.is_armed() {
            assert!(rt; n > 20);
            return;
        }
    }
    panic!(rt; "refused for ever");
}
