//! Records counted by their actions, and the letters of what they do.

use crate::given::{RecordLine, records_of, usual};
use blk_capture::{Action, ActionTally, Op, PassReason, count_passed, match_records, tally_of};

/// Of each action the records of requests that are taken, those of others, the unmatched and those passed over add up to all.
#[test]
fn by_action(rt: HostRuntime) {
    let lines: [RecordLine; 11] = [
        (10, 'Q', 'R', 1, 0, 8),
        (11, 'G', 'R', 1, 0, 8),
        (11, 'P', 'N', 1, 0, 0),
        (12, 'Q', 'D', 1, 64, 8),
        (12, 'Q', 'W', 1, 0, 0),
        (12, 'Q', 'R', 1, 1 << 48, 1),
        (13, 'U', 'N', 1, 0, 0),
        (14, 'Q', 'W', 1, 8, 8),
        (15, 'D', 'R', 0, 0, 8),
        (16, 'C', 'R', 0, 0, 8),
        (17, 'C', 'R', 0, 8, 8),
    ];
    let records = records_of(&rt, rt.alloc(), &lines);
    let Ok(matched) = match_records(rt.alloc(), records.as_slice(), &usual()) else {
        panic!(rt; "memory");
    };
    let queued = tally_of(records.as_slice(), matched.fates.as_slice(), Action::Queue);
    let wanted = ActionTally {
        records: 5,
        taken: 1,
        left_out: 1,
        unmatched: 0,
        passed_over: 3,
    };
    assert_eq!(rt; queued, wanted);
    let completed = tally_of(
        records.as_slice(),
        matched.fates.as_slice(),
        Action::Complete,
    );
    assert_eq!(rt; completed.taken, 1);
    assert_eq!(rt; completed.unmatched, 1);
    let fates = matched.fates.as_slice();
    assert_eq!(rt; count_passed(fates, PassReason::Plug), 1);
    assert_eq!(rt; count_passed(fates, PassReason::Unplug), 1);
    assert_eq!(rt; count_passed(fates, PassReason::Discard), 1);
    assert_eq!(rt; count_passed(fates, PassReason::Empty), 1);
    assert_eq!(rt; count_passed(fates, PassReason::PastEnd), 1);
    assert_eq!(rt; count_passed(fates, PassReason::Action), 0);
}

/// As blktrace writes them: a flush before a write, a write that is on the medium when it is done, one of zeroes, a read ahead, a discard, an
/// erase, a flush and none.
#[test]
fn letters(rt: HostRuntime) {
    let wanted = [
        (b"FWS".as_slice(), Op::Write),
        (b"WFS".as_slice(), Op::Write),
        (b"WZ".as_slice(), Op::Write),
        (b"RA".as_slice(), Op::Read),
        (b"D".as_slice(), Op::Discard),
        (b"DE".as_slice(), Op::Erase),
        (b"F".as_slice(), Op::Flush),
        (b"N".as_slice(), Op::Nothing),
        (b"".as_slice(), Op::Nothing),
    ];
    for (letters, op) in wanted {
        assert_eq!(rt; Op::of_letters(letters), op);
    }
}
