//! The kyber scheduler where allocations are refused: each allocation of a scenario in turn, after which the call is made
//! once more.

use crate::cores::kyber::given::{Under, targets, under};
use crate::cores::listed::{CoreCall, first_other};
use blk_bio::Side;
use blk_core::Placed;
use refusing::Refusing;
use std::alloc::Global;
use std::process::Abort;

/// How many requests enter, each of two bios, one joined at the front.
const REQUESTS: u64 = 10;

/// The core of this test.
type Refused<'a> = Under<&'a Refusing<Global>>;

/// A request of two bios enters at hardware queue 1, the second at the front of the first, 32 sectors above the one before.
fn enters<'a>(heap: &'a Refusing<Global>, core: &mut Refused<'a>, id: u64) -> bool {
    let (serial, below) = (id.wrapping_mul(2), id.wrapping_mul(32).wrapping_add(8));
    let joined = Ok(Placed::Joined(id, Side::Front));
    let calls = [
        CoreCall::Read(serial, below.wrapping_add(8), 8, 1, Ok(Placed::New(id))),
        CoreCall::Read(serial.wrapping_add(1), below, 8, 1, joined),
    ];
    first_other(&heap, core, &calls) == None
}

/// A request goes out for that queue, and its round ends.
fn goes<'a>(heap: &'a Refusing<Global>, core: &mut Refused<'a>, id: u64) -> bool {
    let calls = [
        CoreCall::Send(1, 0, &[id]),
        CoreCall::AllDone(1),
        CoreCall::Ticks(1),
    ];
    first_other(&heap, core, &calls) == None
}

/// Requests enter at one hardware queue and go out in their order; another queue has none.
fn come_and_go<'a>(rt: &impl Abort, heap: &'a Refusing<Global>) {
    let mut core = under(rt, &heap, 1, 2, targets(2, 10));
    for id in 0..REQUESTS {
        assert!(rt; enters(heap, &mut core, id));
    }
    let none = [CoreCall::Issue(0, 0, Ok(None))];
    assert!(rt; first_other(&heap, &mut core, &none) == None);
    for id in 0..REQUESTS {
        assert!(rt; goes(heap, &mut core, id));
    }
    assert!(rt; first_other(&heap, &mut core, &[CoreCall::Pending(0)]) == None);
}

#[test]
fn memory_refused(rt: HostRuntime) {
    let heap = Refusing::new(rt.alloc());
    for n in 1..1000u64 {
        heap.refuse(n);
        come_and_go(&rt, &heap);
        if heap.is_armed() {
            assert!(rt; n > REQUESTS);
            return;
        }
    }
    panic!(rt; "refused for ever");
}
