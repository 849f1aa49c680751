//! Records that are taken in one by one, worked by hand.

use crate::given::{RecordLine, records_of, usual};
use blk_capture::{Fate, Percentiles, Running, Summary};

/// A read that another is merged into at its back, and a completion of something else.
const LINES: [RecordLine; 7] = [
    (10, 'Q', 'R', 1, 0, 8),
    (11, 'G', 'R', 1, 0, 8),
    (12, 'Q', 'R', 1, 8, 8),
    (13, 'M', 'R', 1, 8, 8),
    (30, 'D', 'R', 0, 0, 16),
    (40, 'C', 'R', 0, 0, 16),
    (41, 'C', 'W', 0, 64, 8),
];

/// Percentiles of the one number 1, of none, and of the one number 10; the last record is unmatched, which is told at once.
#[test]
fn one_by_one(rt: HostRuntime) {
    let records = records_of(&rt, rt.alloc(), &LINES);
    let [a, b, c, d, e, f, g] = records.as_slice() else {
        panic!(rt; "records");
    };
    assert!(rt; a.time <= b.time && b.time <= c.time && c.time <= d.time);
    assert!(rt; d.time <= e.time && e.time <= f.time && f.time <= g.time);
    let mut running = Running::new(rt.alloc(), &usual()).expect(&rt, "memory");
    assert_eq!(rt; running.take(a).expect(&rt, "memory"), Fate::LeftOut);
    assert_eq!(rt; running.take(b).expect(&rt, "memory"), Fate::LeftOut);
    assert_eq!(rt; running.take(c).expect(&rt, "memory"), Fate::LeftOut);
    assert_eq!(rt; running.take(d).expect(&rt, "memory"), Fate::LeftOut);
    assert_eq!(rt; running.take(e).expect(&rt, "memory"), Fate::LeftOut);
    assert_eq!(rt; running.take(f).expect(&rt, "memory"), Fate::LeftOut);
    assert_eq!(rt; running.take(g).expect(&rt, "memory"), Fate::Unmatched);
    let summed = running.summary(rt.alloc(), 0, 1).expect(&rt, "memory");
    let one = |number: u64| Percentiles {
        count: 1,
        p50: Some(number),
        p99: Some(number),
        max: Some(number),
    };
    let wanted = Summary {
        records: 7,
        bios: 2,
        requests: 1,
        merges: 1,
        late_reads: 0,
        late_writes: 0,
        tag: one(1),
        scheduler: Percentiles {
            count: 0,
            p50: None,
            p99: None,
            max: None,
        },
        device: one(10),
        in_flight: 1,
    };
    assert!(rt; summed.left_out == 0);
    assert_eq!(rt; summed.summary, wanted);
}
