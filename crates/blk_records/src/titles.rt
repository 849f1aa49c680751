//! Titles, each a row of data: the name of a form, its latest version, and what may stand in the fields of its title record.

ghost use Rattle.std.specs.Prelude.{◌≡◌, ◌+◌, ◌-◌, ◌≤◌, ◌<◌, ◌^◌, IfOk, IfErr, OnOk, MatchOption, length};
ghost use Rattle.csv.specs.Records.{fields_of};
ghost use Rattle.text_output.specs.declared.block.TheConstants.{MAX_ROW_FIELDS};
ghost use Rattle.blk_records.specs.Cells.{IsPlainWord};
ghost use Rattle.blk_records.specs.Kinds.{AddsRecord};
ghost use Rattle.blk_records.specs.Titles.{slot_in, slots_in, HasNoVersion, IsOfVersion, TitleTells, TitleLacks, TakesTitle, StopsAtTitle};

use crate::fault::{TextFault, TextReason};
use crate::fields::{COUNT_SLOT, DEPTH_SLOT, Slot, field, parse_number, read_fields};
use crate::names::FieldName;
use crate::source::Records;
use crate::writing::push_row;
use csv::ByteRecord;
use std::alloc::AllocError;
use std::io::Read;
use text_output::Block;

/// A number of a title that may be greater from a version on.
#[derive(Clone, Copy, Drop)]
pub struct Wider {
    /// The place of its field.
    pub place: usize,
    /// The first version in which it may.
    pub since: u64,
    /// The most that it may be from then on.
    pub most: u64,
}

impl Wider {
    /// What may stand in its field in a version, by what may in the first one.
    pub fn slot_in(&self, version: u64, slot: Slot) -> Slot
        ensures { result ≡ slot_in self.now version slot }
    {
        match slot {
            Slot::Number { least, most } => Slot::Number {
                least,
                most: if self.since <= version {
                    self.most
                } else {
                    most
                },
            },
            Slot::Given
            | Slot::Blank
            | Slot::Direction
            | Slot::Lateness { .. }
            | Slot::Text
            | Slot::Nanoseconds => slot,
        }
    }
}

/// The title of a form.
#[derive(Clone, Copy, Drop)]
pub struct TitleRow<const L: usize, const N: usize> {
    /// The name of the form.
    pub word: [u8; L],
    /// Its latest version, which is written. The first one is 1.
    pub latest: u64,
    /// What may stand in its fields in version 1. The name is the first of them and the version the second.
    pub slots: [Slot; N],
    /// What its fields are called, `Unused` where the record doesn't use one.
    pub names: [FieldName; N],
    /// The number that may be greater in later versions, where there is one.
    pub later: Option<Wider>,
}

/// The fields of a title with a depth and a number of commands.
pub(crate) const COUNTED: [Slot; 4] = [Slot::Given, Slot::Given, DEPTH_SLOT, COUNT_SLOT];

/// What they are called.
pub(crate) const COUNTED_NAMES: [FieldName; 4] = [
    FieldName::Title,
    FieldName::Version,
    FieldName::Room,
    FieldName::Commands,
];

/// The version of a title record of the form of this name, if the form has one like it.
fn version_of(row: &ByteRecord, name: &[u8], latest: u64) -> Option<u64>
    ensures { MatchOption result (HasNoVersion name.now latest (fields_of row.now)) (IsOfVersion name.now latest (fields_of row.now)) }
{
    if row.len() < 2 || field(row, 0) != name {
        return None;
    }
    let Some(version) = parse_number(field(row, 1)) else {
        return None;
    };
    if version < 1 {
        return None;
    }
    if latest < version {
        return None;
    }
    Some(version)
}

impl<const L: usize, const N: usize> TitleRow<L, N> {
    /// What may stand in its fields in a version.
    fn slots_in(&self, version: u64) -> [Slot; N]
        ensures { result ≡ slots_in self.now version }
    {
        let mut slots = self.slots;
        if let Some(wider) = self.later {
            if wider.place < N {
                slots[wider.place] = wider.slot_in(version, slots[wider.place]);
            }
        }
        slots
    }

    /// The version of a title record and the numbers of its fields by place, or the first thing that is wrong with it.
    pub fn read(&self, row: &ByteRecord) -> Result<(u64, [u64; N]), TextReason>
        ensures ok { IfOk result (λ t. TitleTells self.now (fields_of row.now) t.0 t.1) }
        ensures err { IfErr result (TitleLacks self.now (fields_of row.now)) }
    {
        let Some(version) = version_of(row, &self.word, self.latest) else {
            return Err(TextReason::Title);
        };
        match read_fields(row, &self.slots_in(version)) {
            Ok(numbers) => Ok((version, numbers)),
            Err(why) => Err(why),
        }
    }

    /// Adds the title record with these numbers in the fields after its name, of which the version is the first, and empty
    /// ones after them.
    #[inline(always)]
    pub fn push(&self, draft: &mut Block, numbers: &[u64]) -> Result<(), AllocError>
        requires word { IsPlainWord self.now.word }
        requires wide { (2 ≤ N) × (N ≤ MAX_ROW_FIELDS) }
        requires few { length numbers.now < N }
        ensures text { OnOk result (AddsRecord draft.old draft.new self.now.word numbers.now (N - 1)) }
    {
        let word = self.word;
        push_row(draft, word.as_slice(), numbers, N - 1 - numbers.len())
    }
}

/// The version and the numbers of the next record, a title of this row.
pub fn read_title<R: Read + Drop, const L: usize, const N: usize>(
    records: &mut Records<R>,
    title: &TitleRow<L, N>,
) -> Result<(u64, [u64; N]), TextFault>
    requires { records.old.at < 2 ^ 64 - 1 }
    ensures at { records.new.at ≡ records.old.at + 1 }
    // the record that was taken tells them, also where the reader's bytes are not known
    ensures ok { IfOk result (λ t. TakesTitle title.now records.old.left records.new.left t.0 t.1) }
    // at the record that was asked for last: none was read past it
    ensures last { IfErr result (λ f. f.at ≡ records.new.at) }
    ensures err { IfErr result (λ f. StopsAtTitle title.now records.new.failed records.old.left f.why) }
{
    if !records.advance()? {
        return Err(records.fault(TextReason::Title));
    }
    match title.read(records.row()) {
        Ok(told) => Ok(told),
        Err(why) => Err(records.fault(why)),
    }
}
