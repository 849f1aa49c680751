//! A capture, read from its text.

ghost use Rattle.std.specs.Prelude.{◌≡◌, ◌⊎◌, ◌+◌, ◌++◌, ◌∷◌, ◌≤◌, ◌<◌, ◌-◌, ◌^◌, [], IfOk, IfErr, IfSome, OnOk, OnErr, length, codes};
ghost use Rattle.csv.specs.Records.{fields_of};
ghost use Rattle.blk_records.specs.Reads.{FaultsBy, Halts, Reaches};
ghost use Rattle.blk_capture.specs.Requests.{AreInOrder};
ghost use Rattle.blk_capture_text.specs.Recorded.{IsRecordAfter, RecordLacks, record_at, time_at};
ghost use Rattle.blk_capture_text.specs.Captures.{capture_form, records_body, SpellsCapture, CaptureTextFault};
ghost use Rattle.blk_capture_text.specs.Inside.Taking.{TellAll};
ghost use Rattle.blk_records.specs.Titles.{IsTitleOf};

use crate::record::{WIDTH, read_row};
use blk_capture::Record;
use blk_records::fields::Slot;
use blk_records::items::{ItemForm, gather};
use blk_records::names::FieldName;
use blk_records::titles::{TitleRow, read_title};
use blk_records::{Records, TextFault, TextReason};
use csv::ByteRecord;
use std::alloc::Global;
use std::io::Read;
use text_grammar::Repeats;

/// The most records of a capture, beside its title.
pub const MAX_RECORDS: u64 = 16_000_000;

/// The title record: the version, and nothing.
pub const CAPTURE: TitleRow<11, WIDTH> = TitleRow {
    word: *b"blk-capture",
    latest: 1,
    slots: [
        Slot::Given,
        Slot::Given,
        Slot::Blank,
        Slot::Blank,
        Slot::Blank,
        Slot::Blank,
        Slot::Blank,
        Slot::Blank,
    ],
    names: [
        FieldName::Title,
        FieldName::Version,
        FieldName::Unused,
        FieldName::Unused,
        FieldName::Unused,
        FieldName::Unused,
        FieldName::Unused,
        FieldName::Unused,
    ],
    later: None,
};

/// The records that were read, and the time of the last one, 0 before the first.
#[derive(Drop)]
pub(crate) struct RecordsRead {
    records: Vec<Record>,
    last: u64,
}

/// Adds the record of a row, where its time is not before the last one's.
fn take_row(read: &mut RecordsRead, row: &ByteRecord) -> Result<(), TextReason>
    ensures after { OnOk result (IsRecordAfter read.old.last (fields_of row.now)) }
    ensures records { OnOk result (read.new.records.items ≡ read.old.records.items ++ record_at (fields_of row.now) ∷ []) }
    ensures last { OnOk result (read.new.last ≡ time_at (fields_of row.now)) }
    ensures err { IfErr result (λ w. (w ≡ TextReason.Memory) ⊎ RecordLacks read.old.last (fields_of row.now) w) }
{
    let record = match read_row(row, read.last) {
        Ok(record) => record,
        Err(why) => return Err(why),
    };
    read.last = record.time;
    match read.records.push(record) {
        Ok(()) => Ok(()),
        Err(_) => Err(TextReason::Memory),
    }
}

/// The records of a capture, each after those before it. Of a row they keep seven numbers, and the form speaks of the whole row.
#[derive(Clone, Copy, Drop)]
struct RowForm;

impl ItemForm for RowForm {
    ghost use Rattle.blk_records.specs.Sources.{Row};
    ghost use Rattle.blk_capture_text.specs.Captures.{record_after};
    ghost use Rattle.blk_capture_text.specs.Inside.Taking.{HaveRows};

    type Items = RecordsRead;

    ghost View = { Row };

    ghost known = { λ _ read. HaveRows read };

    ghost seen = { λ _ _ known. known.0 };

    ghost part = { λ _ before. record_after before };

    ghost more = { 0 };

    fn gone(&self, items: &RecordsRead) -> TextReason {
        let _ = items;
        TextReason::Count
    }

    fn read<R: Read + Drop>(
        &self,
        alloc: Global,
        records: &mut Records<R>,
        items: &mut RecordsRead,
    ) -> Result<(), TextFault> {
        let _ = alloc;
        match take_row(items, records.row()) {
            Ok(()) => Ok(()),
            Err(why) => Err(records.fault(why)),
        }
    }
}

/// The records after the title, to the end of the text.
fn read_body<R: Read + Drop>(
    alloc: Global,
    records: &mut Records<R>,
) -> Result<Vec<Record>, TextFault>
    requires { records.old.at + MAX_RECORDS + 1 < 2 ^ 64 - 1 }
    ensures ok { IfOk result (λ v. TellAll records.old.left v.items) }
    ensures in_order { IfOk result (λ v. AreInOrder v.items (length v.items)) }
    ensures err { IfErr result (λ f. Halts records.new.failed records_body records.old.left records.old.at f.at f.why) }
    ensures last { IfErr result (λ f. f.at ≡ records.new.at) }
    ensures reads { (records.old.at < records.new.at) × (records.new.at ≤ records.old.at + MAX_RECORDS + 1) }
    ensures end { IfOk result (λ v. records.new.at ≡ records.old.at + length v.items + 1) }
{
    let mut read = RecordsRead {
        records: Vec::new(alloc),
        last: 0,
    };
    match gather(
        alloc,
        records,
        &RowForm,
        Repeats::AtMost(MAX_RECORDS),
        &mut read,
    ) {
        Ok(true) => return Ok(read.records),
        Ok(false) => {}
        Err(fault) => return Err(fault),
    }
    match records.advance() {
        Ok(true) => {}
        Ok(false) => return Ok(read.records),
        Err(fault) => return Err(fault),
    }
    match read_row(records.row(), read.last) {
        Ok(_) => Err(records.fault(TextReason::TooLong)),
        Err(why) => Err(records.fault(why)),
    }
}

/// The records of a capture, a text of records of eight fields: a title, and each record's seconds, nanoseconds in nine digits,
/// processor, action, process, rwbs, first sector and sectors, by times that don't fall. No record may have been read before. A time is in
/// nanoseconds; action and rwbs may be any texts, of which [`blk_capture::Action::of_letters`] and [`blk_capture::Op::of_letters`] tell
/// what they say.
///
/// The fault is the first one: of the least record, and in it the first in the order of [`TextReason`], where [`TextReason::Order`] says that its time is
/// earlier than that of the record before. [`TextReason::Read`] and [`TextReason::Memory`] come at the record that is being read. No record is asked for
/// past that of the fault, and never more than [`MAX_RECORDS`] + 2.
pub fn read_capture<R: Read + Drop>(
    alloc: Global,
    records: &mut Records<R>,
) -> Result<Vec<Record>, TextFault>
    requires { records.old.at ≡ 0 }
    ensures ok { IfOk result (λ v. IfSome records.old.left (λ rows. SpellsCapture rows v.items)) }
    // also where the reader's bytes are not known
    ensures in_order { IfOk result (λ v. AreInOrder v.items (length v.items)) }
    // at the record that was asked for last: none was read past it
    ensures last { IfErr result (λ f. f.at ≡ records.new.at) }
    ensures err { IfErr result (FaultsBy records.old records.new CaptureTextFault) }
    // also where it came from outside: at most one past the last record, and no record before it is wrong
    ensures reached { IfErr result (λ f. Reaches capture_form records.old.left 0 f.at) }
    ensures reads { (1 ≤ records.new.at) × (records.new.at ≤ MAX_RECORDS + 2) }
    // the last thing that was asked for is the record after these, which there is not
    ensures end { IfOk result (λ v. records.new.at ≡ length v.items + 2) }
    // the title is that of the form, by its name and its latest version
    ensures title { IsTitleOf CAPTURE (codes "blk-capture") 1 }
{
    match read_title(records, &CAPTURE) {
        Ok(_) => {}
        Err(fault) => return Err(fault),
    }
    match read_body(alloc, records) {
        Ok(body) => Ok(body),
        Err(fault) => Err(fault),
    }
}
