//! A capture as a table and in numbers, worked by hand.

use crate::given::{RecordLine, records_of, usual};
use blk_bio::Dir;
use blk_capture::{Options, Percentiles, RequestRow, Summary, match_records, rows_of, summarize};

/// A read that is late and a write that isn't, each from its queueing to its end.
const LINES: [RecordLine; 10] = [
    (10, 'Q', 'R', 1, 0, 8),
    (11, 'G', 'R', 1, 0, 8),
    (12, 'Q', 'W', 2, 64, 8),
    (15, 'G', 'W', 2, 64, 8),
    (20, 'I', 'R', 1, 0, 8),
    (21, 'I', 'W', 2, 64, 8),
    (30, 'D', 'R', 0, 0, 8),
    (31, 'D', 'W', 0, 64, 8),
    (40, 'C', 'R', 0, 0, 8),
    (45, 'C', 'W', 0, 64, 8),
];

/// Waits of 1 and 3 for a tag, of 10 and 10 in the scheduler, of 10 and 14 at the device; of two numbers the first is the median. From 31 to 40
/// both are at the device.
#[test]
fn in_numbers(rt: HostRuntime) {
    let records = records_of(&rt, rt.alloc(), &LINES);
    let options = Options {
        read_expire: 5,
        ..usual()
    };
    let Ok(matched) = match_records(rt.alloc(), records.as_slice(), &options) else {
        panic!(rt; "memory");
    };
    assert!(rt; matched.requests.len() <= 2);
    let Ok(summary) = summarize(rt.alloc(), records.as_slice(), &matched) else {
        panic!(rt; "memory");
    };
    let percentiles = |p50: u64, max: u64| Percentiles {
        count: 2,
        p50: Some(p50),
        p99: Some(max),
        max: Some(max),
    };
    let wanted = Summary {
        records: 10,
        bios: 2,
        requests: 2,
        merges: 0,
        late_reads: 1,
        late_writes: 0,
        tag: percentiles(1, 3),
        scheduler: percentiles(10, 10),
        device: percentiles(10, 14),
        in_flight: 2,
    };
    assert_eq!(rt; summary, wanted);
    let Ok(rows) = rows_of(rt.alloc(), matched.requests.as_slice(), 10) else {
        panic!(rt; "memory");
    };
    let second = RequestRow {
        id: 2,
        dir: Dir::Write,
        first: 64,
        sectors: 8,
        bios: 1,
        pid: 2,
        queued: 2,
        inserted: Some(11),
        dispatched: 21,
        completed: Some(35),
        due: 1011,
    };
    assert_eq!(rt; rows.len(), 2);
    assert_eq!(rt; rows[0].due, 15);
    assert_eq!(rt; rows[1], second);
}
