//! What the tests are given: records by blktrace's letters, and what is seen of what they are matched to.

use blk_capture::{
    Action, CapturedRequest, Entry, Fate, Matched, Op, Options, Record, match_records,
};
use refusing::Refusing;
use std::alloc::Global;
use std::process::Abort;

/// The allocator of all these tests. A refusal counts from the call that arms it.
pub type Heap<'a> = &'a Refusing<Global>;

/// A record: its time, its action and its direction by their letters (any other than R and W moves no data), its process, first sector
/// and sectors.
pub type RecordLine = (u64, char, char, u64, u64, u64);

/// The action of a letter.
fn action_of(letter: char) -> Action {
    match letter {
        'Q' => Action::Queue,
        'G' => Action::Get,
        'M' => Action::BackMerge,
        'F' => Action::FrontMerge,
        'I' => Action::Insert,
        'D' => Action::Issue,
        'C' => Action::Complete,
        'R' => Action::Requeue,
        'X' => Action::Split,
        'P' => Action::Plug,
        'U' => Action::Unplug,
        _ => Action::Other,
    }
}

/// The record of a line.
fn record_of(line: RecordLine) -> Record {
    let (time, action, dir, pid, first, sectors) = line;
    Record {
        time,
        cpu: 0,
        action: action_of(action),
        pid,
        op: match dir {
            'R' => Op::Read,
            'W' => Op::Write,
            'D' => Op::Discard,
            'E' => Op::Erase,
            'F' => Op::Flush,
            _ => Op::Nothing,
        },
        first,
        sectors,
    }
}

/// The records of lines.
pub fn records_of(rt: &impl Abort, alloc: Global, lines: &[RecordLine]) -> Vec<Record> {
    lines
        .iter()
        .map(|line| record_of(*line))
        .collect(alloc)
        .expect(rt, "memory")
}

/// Reads are due 100 after they were inserted, writes 1000.
pub fn usual() -> Options {
    Options {
        read_expire: 100,
        write_expire: 1000,
        entry: Entry::Insert,
    }
}

/// The letter of a fate: a digit is the request's place, l is for left out, u for unmatched, p for passed over.
fn letter_of(fate: Fate) -> u8 {
    match fate {
        Fate::Taken(place) => b'0' + (place % 10) as u8,
        Fate::LeftOut => b'l',
        Fate::Unmatched => b'u',
        Fate::PassedOver(_) => b'p',
    }
}

/// A request: its first sector, sectors and bios, and when it came in, was due and went out.
pub type Row = (u64, u64, u64, u64, u64, u64);

/// What of a request is looked at.
fn row_of(request: &CapturedRequest) -> Row {
    (
        request.first,
        request.sectors,
        request.bios,
        request.entry,
        request.deadline,
        request.dispatched,
    )
}

/// What is wanted of a capture's records: by the letters of their fates, and the requests.
pub fn is_matched<'a>(matched: &Matched<Heap<'a>>, fates: &str, rows: &[Row]) -> bool {
    let letters = fates.as_bytes();
    matched.fates.len() == letters.len()
        && matched
            .fates
            .iter()
            .zip(letters)
            .all(|(fate, letter)| letter_of(*fate) == *letter)
        && matched.requests.len() == rows.len()
        && matched
            .requests
            .iter()
            .zip(rows)
            .all(|(request, row)| row_of(request) == *row)
}

/// The same of lines.
pub fn gives(
    rt: &impl Abort,
    alloc: Global,
    options: &Options,
    lines: &[RecordLine],
    fates: &str,
    rows: &[Row],
) -> bool {
    let heap = Refusing::new(alloc);
    let records = records_of(rt, alloc, lines);
    match match_records(&heap, records.as_slice(), options) {
        Ok(matched) => is_matched(&matched, fates, rows),
        Err(_) => false,
    }
}
