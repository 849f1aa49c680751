//! The rows of the rule. Requests are of 8 sectors, 16 apart, and named by the order in which they enter.

use crate::cores::kyber::given::{follows, targets};
use crate::cores::listed::CoreCall;
use blk_bio::Dir;
use blk_kyber::{Kyber, KyberFault};

/// A read that misses its target halves the limit of writes; without a miss it rises; and misses of both halve both. So
/// many commands of a direction are in flight as its limit says, and no more.
#[test]
fn kyber_limits(rt: HostRuntime) {
    let calls = [
        CoreCall::Ticks(2),
        CoreCall::Enter(Dir::Read, 0, 0, 1),
        CoreCall::Ticks(3),
        // done in round 5 after 3 rounds
        CoreCall::Send(0, 0, &[0]),
        CoreCall::AllDone(1),
        CoreCall::Ticks(3),
        // round 8: writes 4
        CoreCall::Enter(Dir::Write, 1, 1, 5),
        CoreCall::Send(1, 0, &[1, 2, 3, 4]),
        CoreCall::Issue(1, 4, Ok(None)),
        CoreCall::AllDone(4),
        CoreCall::Send(1, 4, &[5]),
        CoreCall::Done(4, Ok(())),
        CoreCall::Ticks(1),
        // and reads 8
        CoreCall::Enter(Dir::Read, 0, 6, 8),
        CoreCall::Send(0, 0, &[6, 7, 8, 9, 10, 11, 12, 13]),
        CoreCall::AllDone(8),
        CoreCall::Ticks(3),
        // a write that is to be late
        CoreCall::Enter(Dir::Write, 2, 14, 1),
        CoreCall::Ticks(4),
        // round 16: writes 5
        CoreCall::Enter(Dir::Write, 1, 15, 6),
        CoreCall::Send(1, 0, &[15, 16, 17, 18, 19]),
        CoreCall::Issue(1, 5, Ok(None)),
        CoreCall::AllDone(5),
        CoreCall::Send(1, 5, &[20]),
        CoreCall::Done(5, Ok(())),
        CoreCall::Ticks(1),
        // and reads 8
        CoreCall::Enter(Dir::Read, 0, 21, 8),
        CoreCall::Send(0, 0, &[21, 22, 23, 24, 25, 26, 27, 28]),
        CoreCall::AllDone(8),
        CoreCall::Ticks(3),
        // a read that is to be late
        CoreCall::Enter(Dir::Read, 2, 29, 1),
        CoreCall::Ticks(3),
        // done in round 23 after 3 rounds and after 11
        CoreCall::Send(2, 0, &[29, 14]),
        CoreCall::AllDone(2),
        CoreCall::Ticks(1),
        // round 24: reads 4, writes 2
        CoreCall::Enter(Dir::Read, 0, 30, 5),
        CoreCall::Enter(Dir::Write, 1, 35, 3),
        CoreCall::Send(0, 0, &[30, 31, 32, 33]),
        CoreCall::Issue(0, 4, Ok(None)),
        CoreCall::Send(1, 4, &[35, 36]),
        CoreCall::Issue(1, 6, Ok(None)),
    ];
    follows(&rt, rt.alloc(), 8, 3, targets(2, 10), &calls);
}

/// Both limits begin at the depth.
#[test]
fn limits_at_first(rt: HostRuntime) {
    let kyber = Kyber::new(rt.alloc(), targets(2, 10), 8).expect(&rt, "a scheduler");
    assert_eq!(rt; kyber.limit(Dir::Read), 8);
    assert_eq!(rt; kyber.limit(Dir::Write), 8);
}

/// Sixteen reads, eight writes, two reads, two writes, and then nothing.
#[test]
fn kyber_turns(rt: HostRuntime) {
    let calls = [
        CoreCall::Enter(Dir::Read, 0, 0, 18),
        CoreCall::Enter(Dir::Write, 0, 18, 10),
        CoreCall::Send(
            0,
            0,
            &[0, 1, 2, 3, 4, 5, 6, 7, 8, 9, 10, 11, 12, 13, 14, 15],
        ),
        CoreCall::Send(0, 16, &[18, 19, 20, 21, 22, 23, 24, 25]),
        CoreCall::Send(0, 24, &[16, 17]),
        CoreCall::Send(0, 26, &[26, 27]),
        CoreCall::Issue(0, 28, Ok(None)),
    ];
    follows(&rt, rt.alloc(), 64, 1, targets(2, 10), &calls);
}

/// The core tells rounds and waits: a read that waited two rounds misses its target of one, so in round 8 one write is in
/// flight at a time.
#[test]
fn kyber_under_the_core(rt: HostRuntime) {
    let calls = [
        CoreCall::Enter(Dir::Read, 0, 0, 1),
        CoreCall::Ticks(2),
        CoreCall::Send(0, 0, &[0]),
        CoreCall::AllDone(1),
        CoreCall::Ticks(6),
        CoreCall::Enter(Dir::Write, 0, 1, 2),
        CoreCall::Send(0, 0, &[1]),
        CoreCall::Issue(0, 1, Ok(None)),
        CoreCall::AllDone(1),
        CoreCall::Send(0, 1, &[2]),
    ];
    follows(&rt, rt.alloc(), 2, 1, targets(1, 10), &calls);
}

/// A target of no round is refused, and told of settings alone.
#[test]
fn constructors_refuse(rt: HostRuntime) {
    assert!(rt; !targets(1, 1).has_zero_target());
    for (read, write) in [(0, 10), (2, 0)] {
        assert!(rt; targets(read, write).has_zero_target());
        let refused = match Kyber::new(rt.alloc(), targets(read, write), 8) {
            Ok(_) => None,
            Err(why) => Some(why),
        };
        assert_eq!(rt; refused, Some(KyberFault::ZeroTarget));
    }
    assert!(rt; Kyber::new(rt.alloc(), targets(1, 1), 1).is_ok());
}

/// What is requeued counts as in flight: under a limit of one another queue's read stays, until it is done.
#[test]
fn handed_back_before_another_queue(rt: HostRuntime) {
    let calls = [
        CoreCall::Enter(Dir::Read, 0, 0, 1),
        CoreCall::Enter(Dir::Read, 1, 1, 1),
        CoreCall::Send(0, 0, &[0]),
        CoreCall::Back(0, Ok(0)),
        CoreCall::Ticks(1),
        CoreCall::Issue(1, 0, Ok(None)),
        CoreCall::Send(0, 0, &[0]),
        CoreCall::AllDone(1),
        CoreCall::Ticks(1),
        CoreCall::Send(1, 0, &[1]),
    ];
    follows(&rt, rt.alloc(), 1, 2, targets(2, 10), &calls);
}

/// A Back is no completion: a read that waited past its target is no miss until it is done.
#[test]
fn a_return_is_no_miss(rt: HostRuntime) {
    let calls = [
        CoreCall::Enter(Dir::Read, 0, 0, 1),
        CoreCall::Ticks(7),
        CoreCall::Send(0, 0, &[0]),
        CoreCall::Back(0, Ok(0)),
        CoreCall::Ticks(1),
        // round 8: writes may still be 4
        CoreCall::Enter(Dir::Write, 0, 1, 3),
        CoreCall::Send(0, 0, &[0, 1, 2, 3]),
        CoreCall::AllDone(4),
        CoreCall::Ticks(8),
        // round 16: the read was done after 8 rounds, so writes may be 2
        CoreCall::Enter(Dir::Write, 0, 4, 3),
        CoreCall::Send(0, 0, &[4, 5]),
        CoreCall::Issue(0, 2, Ok(None)),
    ];
    follows(&rt, rt.alloc(), 4, 1, targets(2, 10), &calls);
}
