//! The setup record, which is the second one of a script and of a trace.

ghost use Rattle.std.specs.Prelude.{◌≡◌, ◌++◌, ◌≤◌, ◌<◌, ◌∷◌, [], IfOk, IfErr, OnOk};
ghost use Rattle.csv.specs.Records.{fields_of};
ghost use Rattle.blk_records.specs.Fields.{FieldsSpell};
ghost use Rattle.blk_records.specs.Reads.{IsRowOf, IsWrongRecord};
ghost use Rattle.blk_records.specs.Texts.{rows_text};
ghost use Rattle.blk_records.specs.Words.{StartsWith};
ghost use Rattle.blk_text.specs.SetupRecord.{setup_cells, setup_row, IsWholeSetup, setup as setup_part};
ghost use Rattle.text_output.specs.Drafts.{draft_text};
ghost use Rattle.blk_bio.specs.declared.limits.TheConstants.{MAX_QUEUES as MAX_QUEUES};
ghost use Rattle.edd_commands.specs.declared.steps.TheConstants.{MAX_DEPTH as MAX_DEPTH};
ghost use Rattle.blk_records.specs.Tables.{slots_by};
ghost use Rattle.blk_records.specs.declared.fields.Slot.TheVariants as slot;

use blk_bio::{Limits, MAX_QUEUES, MAX_SECTORS, MAX_SEGMENTS};
use blk_records::fault::TextReason;
use blk_records::fields::{Slot, begins_with, read_fields, without_word};
use blk_records::items::RecordForm;
use blk_records::kinds::Kind;
use blk_records::names::FieldName;
use blk_records::titles::Wider;
use blk_trace::{MAX_EXPIRIES, Setup};
use csv::ByteRecord;
use edd_commands::MAX_DEPTH;
use std::alloc::AllocError;
use text_output::Block;

/// How many fields a record of a script and of a trace has.
pub const WIDTH: usize = 6;

/// The latest version of scripts and of traces, which is written.
pub const LATEST: u64 = 2;

/// The tags of a title, in version 1.
pub const DEPTHS: Slot = Slot::Number {
    least: 1,
    most: MAX_DEPTH_1,
};

/// The tags of a title, from version 2 on.
pub const MORE_TAGS: Wider = Wider {
    place: 2,
    since: 2,
    most: MAX_DEPTH,
};

/// The hardware queues of a title.
pub const QUEUES: Slot = Slot::Number {
    least: 1,
    most: MAX_QUEUES as u64,
};

/// The most tags of a version 1 script or trace.
pub const MAX_DEPTH_1: u64 = 64;

/// A number of rounds after which a request is due.
const EXPIRY: Slot = Slot::Number {
    least: 0,
    most: MAX_EXPIRIES - 1,
};

/// The record of a setup: the expiries of reads and of writes, the most sectors and segments of a request, and an empty field.
pub const SETUP: Kind<5, WIDTH> = Kind {
    word: *b"setup",
    since: 1,
    slots: [
        Slot::Given,
        EXPIRY,
        EXPIRY,
        Slot::Number {
            least: 1,
            most: MAX_SECTORS,
        },
        Slot::Number {
            least: 1,
            most: MAX_SEGMENTS,
        },
        Slot::Blank,
    ],
    names: [
        FieldName::Setup,
        FieldName::ReadExpire,
        FieldName::WriteExpire,
        FieldName::MaxSectors,
        FieldName::MaxSegments,
        FieldName::Unused,
    ],
};

/// The setup of the numbers of a record.
fn setup_with(row: &ByteRecord, depth: u64, hw: u8, numbers: &[u64; WIDTH]) -> Setup
    requires depth { (0 < depth) × (depth ≤ MAX_DEPTH) }
    requires hw { (0 < hw) × (hw ≤ MAX_QUEUES) }
    requires starts { StartsWith SETUP.word (fields_of row.now) }
    requires spells { FieldsSpell (slot.Given ∷ slots_by setup_cells) (fields_of row.now) numbers.now }
    ensures { IsRowOf (setup_part depth hw) (fields_of row.now) result }
{
    match Limits::new(numbers[3], numbers[4]) {
        Ok(limits) => match Setup::new(depth, hw, numbers[1], numbers[2], limits) {
            Ok(setup) => setup,
            Err(_) => unreachable!(),
        },
        Err(_) => unreachable!(),
    }
}

/// The setup of a record, for these numbers of tags and hardware queues.
fn setup_at(row: &ByteRecord, depth: u64, hw: u8) -> Result<Setup, TextReason>
    requires depth { (0 < depth) × (depth ≤ MAX_DEPTH) }
    requires hw { (0 < hw) × (hw ≤ MAX_QUEUES) }
    ensures ok { IfOk result (IsRowOf (setup_part depth hw) (fields_of row.now)) }
    ensures err { IfErr result (IsWrongRecord (setup_part depth hw) (fields_of row.now)) }
{
    if !begins_with(row, SETUP.word.as_slice()) {
        return Err(without_word(row, WIDTH));
    }
    match read_fields(row, &SETUP.slots) {
        Ok(numbers) => Ok(setup_with(row, depth, hw, &numbers)),
        Err(why) => Err(why),
    }
}

/// The setup record for these numbers of tags and hardware queues.
#[derive(Clone, Copy, Drop)]
pub(crate) struct SetupForm {
    pub depth: u64,
    pub hw: u8,
    ghost depth_in: { (0 < depth) × (depth ≤ MAX_DEPTH) },
    ghost hw_in: { (0 < hw) × (hw ≤ MAX_QUEUES) },
}

impl RecordForm for SetupForm {
    ghost use Rattle.blk_text.specs.SetupRecord.{setup as setup_part};

    type Value = Setup;

    ghost part = { λ f. setup_part f.depth f.hw };

    #[tactic(auto, using(crate::proofs::ScriptLaws::setup_one))]
    fn gone(&self) -> TextReason {
        TextReason::Word
    }

    fn value(&self, row: &ByteRecord) -> Result<Setup, TextReason> {
        setup_at(row, self.depth, self.hw)
    }
}

/// Adds the setup record.
pub fn push_setup(draft: &mut Block, setup: &Setup) -> Result<(), AllocError>
    ensures text { OnOk result (draft_text draft.new ≡ draft_text draft.old ++ rows_text (setup_row setup.now ∷ [])) }
    ensures whole { OnOk result (IsWholeSetup setup.now) }
{
    let limits = setup.limits();
    let numbers = [
        setup.read_expire(),
        setup.write_expire(),
        limits.max_sectors(),
        limits.max_segments(),
    ];
    SETUP.push(draft, &numbers)
}
