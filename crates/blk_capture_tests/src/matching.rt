//! Captures of a few records, by each rule of the matching.

use crate::given::{RecordLine, gives, is_matched, records_of, usual};
use blk_capture::{CaptureFault, Entry, Options, match_records, part_of};
use refusing::Refusing;

/// One read from its queueing to its end, under a scheduler and without one; a bio of no data and other actions are passed over.
#[test]
fn one_request(rt: HostRuntime) {
    let lines: [RecordLine; 9] = [
        (10, 'Q', 'R', 1, 0, 8),
        (11, 'G', 'R', 1, 0, 8),
        (11, 'P', 'N', 1, 0, 0),
        (12, 'Q', 'D', 1, 64, 8),
        (12, 'Q', 'W', 1, 0, 0),
        (13, 'U', 'N', 1, 0, 0),
        (20, 'I', 'R', 1, 0, 8),
        (30, 'D', 'R', 0, 0, 8),
        (40, 'C', 'R', 0, 0, 8),
    ];
    let row = (0, 8, 1, 20, 120, 30);
    assert!(rt; gives(&rt, rt.alloc(), &usual(), &lines, "00pppp000", &[row]));
    let queued = Options {
        entry: Entry::Queue,
        ..usual()
    };
    let row = (0, 8, 1, 10, 110, 30);
    assert!(rt; gives(&rt, rt.alloc(), &queued, &lines, "00pppp000", &[row]));
    let direct = [lines[0], lines[1], lines[7]];
    assert!(rt; gives(&rt, rt.alloc(), &usual(), &direct, "000", &[row]));
}

/// Of one range the first queued is opened first, and what was inserted goes out first. Then goes out what was only opened, though another
/// was inserted. After that an insertion finds nothing, nor a dispatch.
#[test]
fn first_in_first_out(rt: HostRuntime) {
    let lines: [RecordLine; 11] = [
        (1, 'Q', 'W', 1, 0, 8),
        (2, 'Q', 'W', 2, 0, 8),
        (3, 'G', 'W', 2, 0, 8),
        (4, 'G', 'W', 1, 0, 8),
        (5, 'I', 'W', 0, 0, 8),
        (6, 'D', 'W', 0, 0, 8),
        (7, 'D', 'W', 0, 0, 8),
        (8, 'I', 'W', 0, 0, 8),
        (9, 'D', 'W', 0, 0, 8),
        (10, 'D', 'W', 0, 0, 8),
        (11, 'G', 'W', 1, 0, 8),
    ];
    let rows = [(0, 8, 1, 5, 1005, 6), (0, 8, 1, 2, 1002, 7)];
    assert!(rt; gives(&rt, rt.alloc(), &usual(), &lines, "0101001uuuu", &rows));
}

/// A bio goes into the newest request of its process that was not inserted and that it abuts, at the back by M and at the front by F.
#[test]
fn merges_in_a_plug(rt: HostRuntime) {
    let lines: [RecordLine; 13] = [
        (1, 'Q', 'W', 1, 8, 8),
        (1, 'G', 'W', 1, 8, 8),
        (2, 'Q', 'W', 2, 8, 8),
        (2, 'G', 'W', 2, 8, 8),
        (3, 'Q', 'W', 1, 16, 8),
        (3, 'M', 'W', 1, 16, 8),
        (4, 'Q', 'W', 2, 0, 8),
        (4, 'F', 'W', 2, 0, 8),
        (5, 'I', 'W', 0, 8, 16),
        (6, 'I', 'W', 0, 0, 16),
        (7, 'D', 'W', 0, 0, 16),
        (8, 'D', 'W', 0, 8, 16),
        (9, 'M', 'W', 1, 24, 8),
    ];
    let rows = [(0, 16, 2, 6, 1006, 7), (8, 16, 2, 5, 1005, 8)];
    assert!(rt; gives(&rt, rt.alloc(), &usual(), &lines, "110011001001u", &rows));
}

/// Else it goes into the oldest one that was inserted and did not go out.
#[test]
fn merges_into_the_oldest(rt: HostRuntime) {
    let lines: [RecordLine; 11] = [
        (1, 'Q', 'W', 1, 0, 8),
        (1, 'G', 'W', 1, 0, 8),
        (1, 'I', 'W', 1, 0, 8),
        (2, 'Q', 'W', 1, 4, 4),
        (2, 'G', 'W', 1, 4, 4),
        (2, 'I', 'W', 1, 4, 4),
        (3, 'Q', 'W', 3, 8, 8),
        (3, 'M', 'W', 3, 8, 8),
        (4, 'D', 'W', 0, 0, 16),
        (5, 'D', 'W', 0, 4, 12),
        (6, 'D', 'W', 0, 4, 4),
    ];
    let rows = [(0, 16, 2, 1, 1001, 4), (4, 4, 1, 2, 1002, 6)];
    assert!(rt; gives(&rt, rt.alloc(), &usual(), &lines, "000111000u1", &rows));
}

/// An M of a whole waiting request is a merge of two: the bios of both, and the earlier deadline.
#[test]
fn two_requests_become_one(rt: HostRuntime) {
    let lines: [RecordLine; 8] = [
        (1, 'Q', 'R', 1, 8, 8),
        (1, 'G', 'R', 1, 8, 8),
        (2, 'I', 'R', 1, 8, 8),
        (3, 'Q', 'R', 1, 0, 8),
        (3, 'G', 'R', 1, 0, 8),
        (4, 'I', 'R', 1, 0, 8),
        (5, 'M', 'R', 1, 8, 8),
        (6, 'D', 'R', 0, 0, 16),
    ];
    let row = (0, 16, 2, 4, 102, 6);
    assert!(rt; gives(&rt, rt.alloc(), &usual(), &lines, "00000000", &[row]));
}

/// An insertion takes a request of equal size first, else the oldest of that first sector.
#[test]
fn inserted_by_size(rt: HostRuntime) {
    let lines: [RecordLine; 9] = [
        (1, 'Q', 'R', 1, 0, 16),
        (1, 'G', 'R', 1, 0, 16),
        (2, 'Q', 'R', 1, 0, 8),
        (2, 'G', 'R', 1, 0, 8),
        (3, 'I', 'R', 1, 0, 8),
        (4, 'I', 'R', 1, 0, 32),
        (5, 'I', 'R', 1, 0, 32),
        (6, 'D', 'R', 0, 0, 16),
        (7, 'D', 'R', 0, 0, 8),
    ];
    let rows = [(0, 16, 1, 4, 104, 6), (0, 8, 1, 3, 103, 7)];
    assert!(rt; gives(&rt, rt.alloc(), &usual(), &lines, "001110u01", &rows));
}

/// Requeued, it counts from its next dispatch; a completion in parts ends it when all are done; what is left goes out and is completed
/// by its own range.
#[test]
fn back_and_in_parts(rt: HostRuntime) {
    let lines: [RecordLine; 11] = [
        (1, 'Q', 'R', 1, 0, 8),
        (1, 'G', 'R', 1, 0, 8),
        (2, 'I', 'R', 1, 0, 8),
        (3, 'D', 'R', 0, 0, 8),
        (4, 'R', 'R', 0, 0, 8),
        (5, 'C', 'R', 0, 0, 8),
        (6, 'D', 'R', 0, 0, 8),
        (7, 'C', 'R', 0, 0, 2),
        (8, 'C', 'R', 0, 0, 6),
        (9, 'C', 'R', 0, 2, 6),
        (10, 'R', 'R', 0, 2, 6),
    ];
    let row = (0, 8, 1, 2, 102, 6);
    assert!(rt; gives(&rt, rt.alloc(), &usual(), &lines, "00000u00u0u", &[row]));
}

/// A bio that is cut in two is two, each with a request of its own, both queued when it was.
#[test]
fn cut_in_two(rt: HostRuntime) {
    let lines: [RecordLine; 7] = [
        (1, 'Q', 'W', 1, 0, 24),
        (2, 'X', 'W', 1, 0, 8),
        (3, 'G', 'W', 1, 0, 8),
        (4, 'G', 'W', 1, 8, 16),
        (5, 'D', 'W', 1, 8, 16),
        (6, 'D', 'W', 1, 0, 8),
        (7, 'X', 'W', 1, 0, 8),
    ];
    let rows = [(8, 16, 1, 1, 1001, 5), (0, 8, 1, 1, 1001, 6)];
    assert!(rt; gives(&rt, rt.alloc(), &usual(), &lines, "101001u", &rows));
}

/// What went out before the time that is skipped, and after the first ones, is left out.
#[test]
fn skipped_and_first(rt: HostRuntime) {
    let lines: [RecordLine; 9] = [
        (10, 'Q', 'R', 1, 0, 8),
        (10, 'Q', 'R', 1, 8, 8),
        (10, 'Q', 'R', 1, 16, 8),
        (10, 'G', 'R', 1, 0, 8),
        (10, 'G', 'R', 1, 8, 8),
        (10, 'G', 'R', 1, 16, 8),
        (19, 'D', 'R', 0, 0, 8),
        (20, 'D', 'R', 0, 8, 8),
        (21, 'D', 'R', 0, 16, 8),
    ];
    let heap = Refusing::new(rt.alloc());
    let records = records_of(&rt, rt.alloc(), &lines);
    let Ok(matched) = match_records(&heap, records.as_slice(), &usual()) else {
        panic!(rt; "memory");
    };
    assert_eq!(rt; matched.requests.len(), 3);
    assert!(rt; matched.requests.len() <= 3);
    assert!(rt; matched.left_out <= 3);
    let Ok(part) = part_of(&heap, matched, 20, 1) else {
        panic!(rt; "memory");
    };
    let row = (8, 8, 1, 10, 110, 20);
    assert!(rt; is_matched(&part, "l0ll0ll0l", &[row]));
    assert_eq!(rt; part.left_out, 2);
    assert_eq!(rt; part.bios.len(), 3);
}

/// A time that falls is a fault, at the first record whose time does.
#[test]
fn time_falls(rt: HostRuntime) {
    let lines: [RecordLine; 4] = [
        (3, 'P', 'N', 1, 0, 0),
        (3, 'P', 'N', 1, 0, 0),
        (2, 'P', 'N', 1, 0, 0),
        (1, 'P', 'N', 1, 0, 0),
    ];
    let records = records_of(&rt, rt.alloc(), &lines);
    match match_records(rt.alloc(), records.as_slice(), &usual()) {
        Ok(_) => assert!(rt; false),
        Err(fault) => assert_eq!(rt; fault, CaptureFault::Order(2)),
    }
}
