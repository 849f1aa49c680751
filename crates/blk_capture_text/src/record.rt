//! A record of a capture.

ghost use Rattle.std.specs.Prelude.{◌≡◌, [], IfOk, IfErr, get_or};
ghost use Rattle.csv.specs.Records.{fields_of};
ghost use Rattle.blk_capture.specs.Passing.{action_by, op_by};
ghost use Rattle.blk_capture_text.specs.Recorded.{IsRecordAfter, RecordLacks, record_at};

use blk_capture::{Action, Op, Record};
use blk_records::TextReason;
use blk_records::fields::{ANY_SLOT, Slot, field, read_fields};
use blk_records::kinds::Kind;
use blk_records::names::FieldName;
use csv::ByteRecord;

/// How many fields a record of a capture has.
pub const WIDTH: usize = 8;

/// Whole seconds lie below this number: with nanoseconds they fit 64 bits, some 544 years.
const MAX_SECONDS: u64 = 1 << 34;

/// Whole seconds.
const SECONDS: Slot = Slot::Number {
    least: 0,
    most: MAX_SECONDS - 1,
};

/// The fields of a record: seconds, nanoseconds, processor, action, process, rwbs, first sector, sectors.
pub(crate) const RECORD: [Slot; WIDTH] = [
    SECONDS,
    Slot::Nanoseconds,
    ANY_SLOT,
    Slot::Text,
    ANY_SLOT,
    Slot::Text,
    ANY_SLOT,
    ANY_SLOT,
];

/// The row of a record, which begins with no word.
pub const RECORD_ROW: Kind<0, WIDTH> = Kind {
    word: *b"",
    since: 1,
    slots: RECORD,
    names: [
        FieldName::Seconds,
        FieldName::Nanoseconds,
        FieldName::Processor,
        FieldName::Action,
        FieldName::Process,
        FieldName::Rwbs,
        FieldName::First,
        FieldName::Sectors,
    ],
};

/// The action of a row.
fn action_at(row: &ByteRecord) -> Action
    ensures { result ≡ action_by (get_or (fields_of row.now) 3 []) }
{
    Action::of_letters(field(row, 3))
}

/// What is done to the sectors of a row.
fn op_at(row: &ByteRecord) -> Op
    ensures { result ≡ op_by (get_or (fields_of row.now) 5 []) }
{
    Op::of_letters(field(row, 5))
}

/// The record of a row whose time is not before `last`, or the first thing that is wrong with the row.
pub(crate) fn read_row(row: &ByteRecord, last: u64) -> Result<Record, TextReason>
    ensures after { IfOk result (λ r. IsRecordAfter last (fields_of row.now)) }
    ensures value { IfOk result (λ r. r ≡ record_at (fields_of row.now)) }
    ensures err { IfErr result (RecordLacks last (fields_of row.now)) }
{
    let numbers = match read_fields(row, &RECORD) {
        Ok(numbers) => numbers,
        Err(why) => return Err(why),
    };
    let time = numbers[0] * 1_000_000_000 + numbers[1];
    if time < last {
        return Err(TextReason::Order);
    }
    Ok(Record {
        time,
        cpu: numbers[2],
        action: action_at(row),
        pid: numbers[4],
        op: op_at(row),
        first: numbers[6],
        sectors: numbers[7],
    })
}
