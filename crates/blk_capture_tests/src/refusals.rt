//! A capture where allocations are refused.

use crate::given::{Heap, RecordLine, is_matched, records_of, usual};
use blk_capture::{CaptureFault, Record, match_records, part_of, rounds_of};
use refusing::Refusing;
use std::process::Abort;

/// The records are matched and counted, or memory is refused once.
fn all_of_it(rt: &impl Abort, heap: Heap<'_>, records: &[Record]) {
    let armed = heap.is_armed();
    match match_records(heap, records, &usual()) {
        Err(fault) => {
            assert_eq!(rt; fault, CaptureFault::Memory);
            assert!(rt; armed && !heap.is_armed());
        }
        Ok(matched) => {
            let row = (0, 16, 2, 2, 102, 6);
            assert!(rt; is_matched(&matched, "0000000", &[row]));
            assert!(rt; matched.requests.len() <= 1);
            assert!(rt; matched.left_out <= 1);
            match rounds_of(heap, matched.requests.as_slice()) {
                Err(_) => assert!(rt; armed && !heap.is_armed()),
                Ok(schedule) => assert_eq!(rt; schedule.rounds.len(), 1),
            }
            match part_of(heap, matched, 0, 1) {
                Err(_) => assert!(rt; armed && !heap.is_armed()),
                Ok(part) => assert!(rt; is_matched(&part, "0000000", &[row])),
            }
        }
    }
}

#[test]
fn memory_refused(rt: HostRuntime) {
    let heap = Refusing::new(rt.alloc());
    let lines: [RecordLine; 7] = [
        (1, 'Q', 'R', 1, 0, 8),
        (1, 'G', 'R', 1, 0, 8),
        (2, 'I', 'R', 1, 0, 8),
        (3, 'Q', 'R', 1, 8, 8),
        (3, 'M', 'R', 1, 8, 8),
        (6, 'D', 'R', 0, 0, 16),
        (7, 'C', 'R', 0, 0, 16),
    ];
    let records = records_of(&rt, rt.alloc(), &lines);
    for n in 1..1000u64 {
        heap.refuse(n);
        all_of_it(&rt, &heap, records.as_slice());
        if heap.is_armed() {
            assert!(rt; n > 10);
            return;
        }
    }
    panic!(rt; "refused for ever");
}
