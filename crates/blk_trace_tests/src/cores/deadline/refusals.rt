//! The deadline scheduler where allocations are refused: each allocation of a scenario in turn, after which the
//! call is made once more.

use crate::cores::deadline::given::{Under, tuned, under};
use crate::cores::listed::{CoreCall, first_other};
use blk_bio::Side;
use blk_core::Placed;
use refusing::Refusing;
use std::alloc::Global;
use std::process::Abort;

/// How many requests enter, each of two bios, one joined at the front.
const REQUESTS: u64 = 12;

/// The core of this test.
type Refused<'a> = Under<&'a Refusing<Global>>;

/// A request of two bios enters, the second at the front of the first, 20 sectors below the one before.
fn enters<'a>(heap: &'a Refusing<Global>, core: &mut Refused<'a>, id: u64) -> bool {
    let (serial, first) = (
        id.wrapping_mul(2),
        1000u64.wrapping_sub(id.wrapping_mul(20)),
    );
    let joined = Ok(Placed::Joined(id, Side::Front));
    let calls = [
        CoreCall::Read(serial, first, 8, 0, Ok(Placed::New(id))),
        CoreCall::Read(serial.wrapping_add(1), first.wrapping_sub(8), 8, 0, joined),
    ];
    first_other(&heap, core, &calls) == None
}

/// A request goes out, and its round ends.
fn goes<'a>(heap: &'a Refusing<Global>, core: &mut Refused<'a>, id: u64) -> bool {
    let calls = [
        CoreCall::Send(0, 0, &[id]),
        CoreCall::AllDone(1),
        CoreCall::Ticks(1),
    ];
    first_other(&heap, core, &calls) == None
}

/// Requests enter from above downwards, and go out upwards after the first: nothing lies above it; the oldest that is left
/// begins a batch, and so on downwards.
fn come_and_go<'a>(rt: &impl Abort, heap: &'a Refusing<Global>) {
    let mut core = under(rt, &heap, 1, 1000, tuned(16, 2, true));
    for id in 0..REQUESTS {
        assert!(rt; enters(heap, &mut core, id));
    }
    for id in 0..REQUESTS {
        assert!(rt; goes(heap, &mut core, id));
    }
    let none = [CoreCall::Issue(0, 0, Ok(None)), CoreCall::Pending(0)];
    assert!(rt; first_other(&heap, &mut core, &none) == None);
}

#[test]
fn memory_refused(rt: HostRuntime) {
    let heap = Refusing::new(rt.alloc());
    for n in 1..1000u64 {
        heap.refuse(n);
        come_and_go(&rt, &heap);
        if heap.is_armed() {
            assert!(rt; n > REQUESTS);
            return;
        }
    }
    panic!(rt; "refused for ever");
}
