//! Scripts.

ghost use Rattle.std.specs.Prelude.{◌≡◌, ◌+◌, ◌++◌, ◌∷◌, ◌≤◌, [], IfOk, IfErr, IfSome, OnOk, get_or, length, codes};
ghost use Rattle.csv.specs.Records.{fields_of};
ghost use Rattle.blk_records.specs.Reads.{FaultsBy, IsRowOf, IsWrongRecord, Reaches};
ghost use Rattle.blk_records.specs.Texts.{rows_text};
ghost use Rattle.blk_text.specs.Script.{step, IsScript, SpellsScript, ScriptFault, scripted, script_form};
ghost use Rattle.blk_text.specs.StepRecords.{step_row};
ghost use Rattle.text_output.specs.Drafts.{draft_text};
ghost use Rattle.blk_bio.specs.declared.limits.TheConstants.{MAX_QUEUES as MAX_QUEUES, MAX_SOFT_QUEUES as MAX_SOFT_QUEUES};
ghost use Rattle.blk_records.specs.Titles.{IsTitleOf};

use crate::bios::{BIO, push_bio, read_bio};
use crate::heads::{BACK, DEPTH, DONE, ISSUE_WORD, ONE, PLACED, TICK, UNNAMED};
use crate::setup::{DEPTHS, LATEST, MORE_TAGS, QUEUES, SetupForm, WIDTH};
use blk_bio::{Bio, MAX_SOFT_DEPTH, MAX_SOFT_QUEUES};
use blk_records::fault::{TextFault, TextReason};
use blk_records::fields::{Slot, field, read_fields, without_word};
use blk_records::items::{RecordForm, read_record, read_records};
use blk_records::kinds::Kind;
use blk_records::names::FieldName;
use blk_records::source::Records;
use blk_records::titles::{TitleRow, read_title};
use blk_trace::{MAX_EVENTS, Setup};
use csv::ByteRecord;
use std::alloc::{AllocError, Global};
use std::io::Read;
use text_grammar::Repeats;
use text_output::Block;

/// The most steps of a script.
pub const MAX_STEPS: u64 = 999_998;

/// The most rounds of a run: each is an event of the trace.
pub const MAX_RUN: u64 = MAX_EVENTS;

/// A step of a script, each one record of it.
#[derive(Clone, Copy, Debug, PartialEq, Eq)]
pub enum Line {
    /// A bio enters the plug of its submitter.
    Bio(Bio),
    /// The requests of a submitter's plug move into its software queue.
    Flush(u8),
    /// The requests of a hardware queue's software queues move into the core.
    Drain { hw: u8 },
    /// A hardware queue is asked for a command to go out under a tag.
    Issue { hw: u8, tag: u16 },
    /// The command under a tag has completed.
    Done(u16),
    /// The device requeues the command under a tag.
    Back(u16),
    /// How many tags may be issued in a round, from the next one on: version 2 alone.
    Depth(u64),
    /// A round ends.
    Tick,
    /// Work is done for this number of rounds, 1 to [`MAX_RUN`].
    Run(u64),
}

/// A script: a setup, and what is to be done under it.
#[derive(Debug, Drop)]
pub struct Script {
    /// The tags, the hardware queues, the expiries in rounds and the limits of requests.
    pub setup: Setup,
    /// How many requests a software queue has room for, 1 to [`MAX_SOFT_DEPTH`].
    pub soft_depth: u64,
    /// How many submitters there are, 1 to [`MAX_SOFT_QUEUES`] and at least as many as hardware queues.
    pub submitters: u64,
    /// The steps in the order in which they are done, at most [`MAX_STEPS`].
    pub lines: Vec<Line>,
}

// The table of the steps: the rows of the events that are steps too, that of a bio, and these.

/// A submitter, below the number of a title.
pub(crate) const FLUSH: Kind<5, WIDTH> = Kind {
    word: *b"flush",
    since: 1,
    slots: ONE,
    names: [
        FieldName::Word,
        FieldName::Submitter,
        UNNAMED,
        UNNAMED,
        UNNAMED,
        UNNAMED,
    ],
};

/// A hardware queue, below the number of a title.
pub(crate) const DRAIN: Kind<5, WIDTH> = Kind {
    word: *b"drain",
    since: 1,
    slots: ONE,
    names: [
        FieldName::Word,
        FieldName::Queue,
        UNNAMED,
        UNNAMED,
        UNNAMED,
        UNNAMED,
    ],
};

/// A hardware queue, below the number of a title, and a tag. A trace has an id there.
pub(crate) const STEP_ISSUE: Kind<5, WIDTH> = Kind {
    word: ISSUE_WORD,
    since: 1,
    slots: PLACED,
    names: [
        FieldName::Word,
        FieldName::Queue,
        FieldName::Tag,
        UNNAMED,
        UNNAMED,
        UNNAMED,
    ],
};

/// How many rounds.
pub(crate) const RUN: Kind<3, WIDTH> = Kind {
    word: *b"run",
    since: 1,
    slots: [
        Slot::Given,
        ROUNDS,
        Slot::Blank,
        Slot::Blank,
        Slot::Blank,
        Slot::Blank,
    ],
    names: [
        FieldName::Word,
        FieldName::Rounds,
        UNNAMED,
        UNNAMED,
        UNNAMED,
        UNNAMED,
    ],
};

/// The rounds of a run.
const ROUNDS: Slot = Slot::Number {
    least: 1,
    most: MAX_RUN,
};

/// The title record: the version, the tags, the hardware queues, how many requests a software queue has room for, and the
/// submitters.
pub const SCRIPT: TitleRow<10, WIDTH> = TitleRow {
    word: *b"blk-script",
    latest: LATEST,
    slots: [
        Slot::Given,
        Slot::Given,
        DEPTHS,
        QUEUES,
        Slot::Number {
            least: 1,
            most: MAX_SOFT_DEPTH,
        },
        Slot::Number {
            least: 1,
            most: MAX_SOFT_QUEUES,
        },
    ],
    names: [
        FieldName::Title,
        FieldName::Version,
        FieldName::Tags,
        FieldName::Queues,
        FieldName::SoftDepth,
        FieldName::Submitters,
    ],
    later: Some(MORE_TAGS),
};

/// The steps of a version, for these numbers of hardware queues and submitters.
#[derive(Clone, Copy, Drop)]
pub(crate) struct StepForm {
    version: u64,
    hw: u8,
    submitters: u64,
    ghost hw_in: { (1 ≤ hw) × (hw ≤ MAX_QUEUES) },
    ghost submitters_in: { (1 ≤ submitters) × (submitters ≤ MAX_SOFT_QUEUES) },
}

/// The step of a record that is not a bio's.
#[inline(never)]
fn short_line(form: &StepForm, row: &ByteRecord) -> Result<Line, TextReason>
    requires other { ¬ (get_or (fields_of row.now) 0 [] ≡ BIO.word) }
    ensures ok { IfOk result (IsRowOf (step form.now.version form.now.hw form.now.submitters) (fields_of row.now)) }
    ensures err { IfErr result (IsWrongRecord (step form.now.version form.now.hw form.now.submitters) (fields_of row.now)) }
{
    let word = field(row, 0);
    if FLUSH.is(word, form.version) {
        let numbers = read_fields(row, &FLUSH.below(form.submitters))?;
        return Ok(Line::Flush(numbers[1] as u8));
    }
    if DRAIN.is(word, form.version) {
        let numbers = read_fields(row, &DRAIN.below(form.hw as u64))?;
        return Ok(Line::Drain {
            hw: numbers[1] as u8,
        });
    }
    if STEP_ISSUE.is(word, form.version) {
        let numbers = read_fields(row, &STEP_ISSUE.below(form.hw as u64))?;
        return Ok(Line::Issue {
            hw: numbers[1] as u8,
            tag: numbers[2] as u16,
        });
    }
    if DONE.is(word, form.version) {
        let numbers = read_fields(row, &DONE.slots)?;
        return Ok(Line::Done(numbers[1] as u16));
    }
    if TICK.is(word, form.version) {
        read_fields(row, &TICK.slots)?;
        return Ok(Line::Tick);
    }
    if RUN.is(word, form.version) {
        let numbers = read_fields(row, &RUN.slots)?;
        return Ok(Line::Run(numbers[1]));
    }
    if BACK.is(word, form.version) {
        let numbers = read_fields(row, &BACK.slots)?;
        return Ok(Line::Back(numbers[1] as u16));
    }
    if DEPTH.is(word, form.version) {
        let numbers = read_fields(row, &DEPTH.slots)?;
        return Ok(Line::Depth(numbers[1]));
    }
    Err(without_word(row, WIDTH))
}

impl RecordForm for StepForm {
    ghost use Rattle.blk_text.specs.Script.{step};

    type Value = Line;

    ghost part = { λ f. step f.version f.hw f.submitters };

    fn gone(&self) -> TextReason {
        TextReason::Count
    }

    fn value(&self, row: &ByteRecord) -> Result<Line, TextReason> {
        if BIO.is(field(row, 0), self.version) {
            return match read_bio(row, self.submitters) {
                Ok(bio) => Ok(Line::Bio(bio)),
                Err(why) => Err(why),
            };
        }
        short_line(self, row)
    }
}

/// Adds the record of a step.
pub fn push_step(draft: &mut Block, step: &Line) -> Result<(), AllocError>
    ensures { OnOk result (draft_text draft.new ≡ draft_text draft.old ++ rows_text (step_row step.now ∷ [])) }
{
    match step {
        Line::Bio(bio) => push_bio(draft, bio),
        Line::Flush(submitter) => FLUSH.push(draft, &[*submitter as u64]),
        Line::Drain { hw } => DRAIN.push(draft, &[*hw as u64]),
        Line::Issue { hw, tag } => STEP_ISSUE.push(draft, &[*hw as u64, *tag as u64]),
        Line::Done(tag) => DONE.push(draft, &[*tag as u64]),
        Line::Back(tag) => BACK.push(draft, &[*tag as u64]),
        Line::Depth(depth) => DEPTH.push(draft, &[*depth]),
        Line::Tick => TICK.push(draft, &[]),
        Line::Run(rounds) => RUN.push(draft, &[*rounds]),
    }
}

/// The script of a text of records of six fields, in version 1 or 2: a title with the depth (to [`crate::MAX_DEPTH_1`] in
/// version 1, to [`edd_commands::MAX_DEPTH`] in version 2), the hardware queues, the soft depth and the submitters, a setup, and at
/// most [`MAX_STEPS`] steps, which set a depth in version 2 alone. No record may have been read before.
///
/// The fault is the first one: of the least record, and in it the first in the order of [`TextReason`].
/// [`TextReason::Read`] and [`TextReason::Memory`] come at the record that is being read. No record is asked for past
/// that of the fault, and never more than [`MAX_STEPS`] + 3.
pub fn read_script<R: Read + Drop>(
    alloc: Global,
    records: &mut Records<R>,
) -> Result<Script, TextFault>
    requires { records.old.at ≡ 0 }
    ensures ok { IfOk result (λ s. IfSome records.old.left (λ rows. SpellsScript rows (scripted s))) }
    // also where the reader's bytes are not known
    ensures in_range { IfOk result (λ s. IsScript (scripted s)) }
    // at the record that was asked for last: none was read past it
    ensures last { IfErr result (λ f. f.at ≡ records.new.at) }
    ensures err { IfErr result (FaultsBy records.old records.new ScriptFault) }
    // also where it came from outside: at most one past the last record, and no record before it is wrong
    ensures reached { IfErr result (λ f. Reaches script_form records.old.left 0 f.at) }
    ensures reads { (1 ≤ records.new.at) × (records.new.at ≤ MAX_STEPS + 3) }
    // the last thing that was asked for is the record after the steps, which there is not
    ensures end { IfOk result (λ s. records.new.at ≡ length s.lines.items + 3) }
    // the title is that of the form, by its name and its latest version
    ensures title { IsTitleOf SCRIPT (codes "blk-script") LATEST }
{
    let (version, [_, _, depth, queues, soft_depth, submitters]) = match read_title(
        records, &SCRIPT,
    ) {
        Ok(title) => title,
        Err(fault) => return Err(fault),
    };
    if submitters < queues {
        return Err(records.fault(TextReason::Range));
    }
    let hw = queues as u8;
    let setup_form = SetupForm { depth, hw };
    let setup = match read_record(records, &setup_form) {
        Ok(setup) => setup,
        Err(fault) => return Err(fault),
    };
    let form = StepForm {
        version,
        hw,
        submitters,
    };
    match read_records(alloc, records, form, Repeats::AtMost(MAX_STEPS)) {
        Ok(lines) => Ok(Script {
            setup,
            soft_depth,
            submitters,
            lines,
        }),
        Err(fault) => Err(fault),
    }
}
