//! The table of the events of a trace: the row of each kind's first record, how it is read, and how an event is written.

ghost use Rattle.std.specs.Prelude.{◌≡◌, ◌++◌, ◌≤◌, All, OnOk, length};
ghost use Rattle.blk_trace.specs.Events.{bios_of};
ghost use Rattle.blk_records.specs.Cells.{IsPlainWord};
ghost use Rattle.blk_records.specs.Texts.{rows_text};
ghost use Rattle.text_output.specs.Drafts.{draft_text};
ghost use Rattle.blk_text.specs.Inside.TraceRecords.{group_rows, event_rows};
ghost use Rattle.blk_text.specs.TraceRecords.{BioFits, EventFits};

use crate::bios::push_bio;
use crate::setup::{DEPTHS, LATEST, MORE_TAGS, QUEUES, WIDTH};
use blk_bio::{Bio, MAX_SEGMENTS, Request};
use blk_records::fault::TextReason;
use blk_records::fields::{ANY_SLOT, Slot, field, read_fields, without_word};
use blk_records::items::RecordForm;
use blk_records::kinds::Kind;
use blk_records::names::FieldName;
use blk_records::titles::TitleRow;
use blk_trace::{Event, MAX_EVENTS, MAX_TAGS};
use csv::ByteRecord;
use std::alloc::{AllocError, Allocator};
use text_output::Block;

/// The title record: the version, the tags, the hardware queues, how many events follow, and an empty field.
pub const TRACE: TitleRow<9, WIDTH> = TitleRow {
    word: *b"blk-trace",
    latest: LATEST,
    slots: [
        Slot::Given,
        Slot::Given,
        DEPTHS,
        QUEUES,
        Slot::Number {
            least: 0,
            most: MAX_EVENTS,
        },
        Slot::Blank,
    ],
    names: [
        FieldName::Title,
        FieldName::Version,
        FieldName::Tags,
        FieldName::Queues,
        FieldName::Events,
        FieldName::Unused,
    ],
    later: Some(MORE_TAGS),
};

const BLANK: Slot = Slot::Blank;

pub(crate) const UNNAMED: FieldName = FieldName::Unused;

/// A word alone.
const ALONE: [Slot; WIDTH] = [Slot::Given, BLANK, BLANK, BLANK, BLANK, BLANK];

/// The id of a request, and how many bios follow.
const GROUP: [Slot; WIDTH] = [Slot::Given, ANY_SLOT, BIOS, BLANK, BLANK, BLANK];

/// What they are called.
const GROUP_NAMES: [FieldName; WIDTH] = [
    FieldName::Word,
    FieldName::Id,
    FieldName::Bios,
    UNNAMED,
    UNNAMED,
    UNNAMED,
];

/// Any number, and a tag.
pub(crate) const PLACED: [Slot; WIDTH] = [Slot::Given, ANY_SLOT, TAG, BLANK, BLANK, BLANK];

/// A tag.
const TAGGED: [Slot; WIDTH] = [Slot::Given, TAG, BLANK, BLANK, BLANK, BLANK];

/// What it is called.
const TAGGED_NAMES: [FieldName; WIDTH] = [
    FieldName::Word,
    FieldName::Tag,
    UNNAMED,
    UNNAMED,
    UNNAMED,
    UNNAMED,
];

/// Any number.
pub(crate) const ONE: [Slot; WIDTH] = [Slot::Given, ANY_SLOT, BLANK, BLANK, BLANK, BLANK];

/// A tag.
const TAG: Slot = Slot::Number {
    least: 0,
    most: MAX_TAGS - 1,
};

/// How many bios a group has.
const BIOS: Slot = Slot::Number {
    least: 1,
    most: MAX_SEGMENTS,
};

// The table of the events: a row for each kind, by which its first record is read and written.

/// A round ends.
pub(crate) const TICK: Kind<4, WIDTH> = Kind {
    word: *b"tick",
    since: 1,
    slots: ALONE,
    names: [FieldName::Word, UNNAMED, UNNAMED, UNNAMED, UNNAMED, UNNAMED],
};

/// A request enters under an id; its bios follow.
pub(crate) const RELEASE: Kind<7, WIDTH> = Kind {
    word: *b"release",
    since: 1,
    slots: GROUP,
    names: GROUP_NAMES,
};

/// Bios join the request of an id; they follow.
pub(crate) const JOIN: Kind<4, WIDTH> = Kind {
    word: *b"join",
    since: 1,
    slots: GROUP,
    names: GROUP_NAMES,
};

/// The word of an issue, in a trace and in a script.
pub(crate) const ISSUE_WORD: [u8; 5] = *b"issue";

/// The request of an id goes out under a tag.
pub(crate) const ISSUE: Kind<5, WIDTH> = Kind {
    word: ISSUE_WORD,
    since: 1,
    slots: PLACED,
    names: [
        FieldName::Word,
        FieldName::Id,
        FieldName::Tag,
        UNNAMED,
        UNNAMED,
        UNNAMED,
    ],
};

/// The command under a tag has completed.
pub(crate) const DONE: Kind<4, WIDTH> = Kind {
    word: *b"done",
    since: 1,
    slots: TAGGED,
    names: TAGGED_NAMES,
};

/// The device requeues the command under a tag.
pub(crate) const BACK: Kind<4, WIDTH> = Kind {
    word: *b"back",
    since: 1,
    slots: TAGGED,
    names: TAGGED_NAMES,
};

/// How many tags may be issued in a round, from the next one on.
pub(crate) const DEPTH: Kind<5, WIDTH> = Kind {
    word: *b"depth",
    since: 2,
    slots: ONE,
    names: [
        FieldName::Word,
        FieldName::Depth,
        UNNAMED,
        UNNAMED,
        UNNAMED,
        UNNAMED,
    ],
};

/// The first records of the events of a version. Each tells the event with the number of the bios that follow, 1 to
/// [`MAX_SEGMENTS`], in place of a request.
#[derive(Clone, Copy, Drop)]
pub(crate) struct HeadForm {
    pub version: u64,
}

impl RecordForm for HeadForm {
    ghost use Rattle.blk_text.specs.TraceForm.{first_record};

    type Value = Event<u64>;

    ghost part = { λ f. first_record f.version };

    fn gone(&self) -> TextReason {
        TextReason::Count
    }

    // Each kind lends the slots of its row: copying them took half as long as reading a record by them.
    fn value(&self, row: &ByteRecord) -> Result<Event<u64>, TextReason> {
        let word = field(row, 0);
        if TICK.is(word, self.version) {
            read_fields(row, &ALONE)?;
            return Ok(Event::Tick);
        }
        if RELEASE.is(word, self.version) {
            let numbers = read_fields(row, &GROUP)?;
            return Ok(Event::Release {
                id: numbers[1],
                request: numbers[2],
            });
        }
        if JOIN.is(word, self.version) {
            let numbers = read_fields(row, &GROUP)?;
            return Ok(Event::Join {
                id: numbers[1],
                request: numbers[2],
            });
        }
        if ISSUE.is(word, self.version) {
            let numbers = read_fields(row, &PLACED)?;
            return Ok(Event::Issue {
                id: numbers[1],
                tag: numbers[2] as u16,
            });
        }
        if DONE.is(word, self.version) {
            let numbers = read_fields(row, &TAGGED)?;
            return Ok(Event::Done {
                tag: numbers[1] as u16,
            });
        }
        if BACK.is(word, self.version) {
            let numbers = read_fields(row, &TAGGED)?;
            return Ok(Event::Back {
                tag: numbers[1] as u16,
            });
        }
        if DEPTH.is(word, self.version) {
            let numbers = read_fields(row, &ONE)?;
            return Ok(Event::Depth { depth: numbers[1] });
        }
        Err(without_word(row, WIDTH))
    }
}

/// Adds the records of a group: its own, and those of its bios.
#[inline(always)]
fn push_group<const L: usize>(
    draft: &mut Block,
    kind: &Kind<L, WIDTH>,
    id: u64,
    bios: &[Bio],
) -> Result<(), AllocError>
    requires { IsPlainWord kind.now.word }
    ensures text { OnOk result (draft_text draft.new ≡ draft_text draft.old ++ rows_text (group_rows kind.now.word id bios.now)) }
    ensures fits { OnOk result (All BioFits bios.now) }
{
    kind.push(draft, &[id, bios.len() as u64])?;
    for i in 0..bios.len() {
        push_bio(draft, &bios[i])?;
    }
    Ok(())
}

/// Adds the records of an event.
pub(crate) fn push_event<A: Allocator + Clone>(
    draft: &mut Block,
    event: &Event<Request<A>>,
) -> Result<(), AllocError>
    requires { length (bios_of event.now) ≤ MAX_SEGMENTS }
    ensures text { OnOk result (draft_text draft.new ≡ draft_text draft.old ++ rows_text (event_rows event.now)) }
    ensures fits { OnOk result (EventFits event.now) }
{
    match event {
        Event::Tick => TICK.push(draft, &[]),
        Event::Release { id, request } => push_group(draft, &RELEASE, *id, request.bios()),
        Event::Join { id, request } => push_group(draft, &JOIN, *id, request.bios()),
        Event::Issue { id, tag } => ISSUE.push(draft, &[*id, *tag as u64]),
        Event::Done { tag } => DONE.push(draft, &[*tag as u64]),
        Event::Back { tag } => BACK.push(draft, &[*tag as u64]),
        Event::Depth { depth } => DEPTH.push(draft, &[*depth]),
    }
}
