//! Replays of a few requests.

use blk_bio::{Bio, BioId, Dir};
use blk_earliest::Earliest;
use blk_none::NoneSched;
use blk_replay::{Arrived, can_replay, replay};
use std::process::Abort;

fn arrived(rt: &impl Abort, serial: u8, release: u64, due: u64, dir: Dir) -> Arrived {
    let id = BioId {
        submitter: 0,
        serial: u64::from(serial),
    };
    Arrived {
        release,
        due,
        bio: Bio::new(id, dir, u64::from(serial) * 100, 8).expect(rt, "a bio"),
    }
}

#[test]
fn none_keeps_the_order_and_earliest_does_not(rt: HostRuntime) {
    let alloc = rt.alloc();
    let given = [
        arrived(&rt, 0, 1, 9, Dir::Read),
        arrived(&rt, 1, 1, 8, Dir::Write),
        arrived(&rt, 2, 2, 2, Dir::Read),
        arrived(&rt, 3, 2, 7, Dir::Read),
    ];
    assert!(&rt; can_replay(&given));
    let none = NoneSched::new(alloc).expect(&rt, "memory");
    let rounds = replay(none, alloc, &given).expect(&rt, "memory");
    assert!(&rt; rounds.as_slice() == [1, 2, 3, 4].as_slice());
    let earliest = Earliest::new(alloc, false).expect(&rt, "memory");
    let rounds = replay(earliest, alloc, &given).expect(&rt, "memory");
    assert!(&rt; rounds.as_slice() == [4, 1, 2, 3].as_slice());
    let late = [arrived(&rt, 0, 2, 9, Dir::Read)];
    assert!(&rt; !can_replay(&late));
}
