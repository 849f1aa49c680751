//! The forms of texts: their titles, and what their records have in each field.

ghost use Rattle.std.specs.Prelude.{◌≡◌, ◌↔◌, IsTrue, MatchOption};
ghost use Rattle.blk_explain.specs.Forms.{form_kinds, form_later, form_counted, worded_kinds, form_row, form_name, IsWorded, IsRecordKind};
ghost use Rattle.blk_explain.specs.declared.forms.TextForm.{TextForm as AForm};

use crate::counts::Counted;
use crate::others::{OTHER_EVENT, OTHER_STEP};
use blk_capture_text::{CAPTURE, RECORD_ROW};
use blk_records::any::AnyKind;
use blk_records::certificate::{BOUND, CERTIFICATE, SERVED_ROW};
use blk_records::commands::{COMMAND_ROW, COMMANDS};
use blk_records::on_time::{NUMBERS, ON_TIME, WINDOW};
use blk_records::schedule::SCHEDULE;
use blk_text::script::SCRIPT;
use blk_text::{BIO, SETUP, TRACE, event_kinds, step_kinds};

/// The form of a text.
#[derive(Clone, Copy, Debug, PartialEq, Eq)]
pub enum TextForm {
    /// A command list.
    Commands,
    /// A certificate.
    Certificate,
    /// A certificate of how many commands can be on time.
    OnTime,
    /// A schedule.
    Schedule,
    /// A capture.
    Capture,
    /// A script.
    Script,
    /// A trace.
    Trace,
}

/// The records after the second that begin with words.
#[derive(Clone, Copy)]
pub enum LaterRecords {
    /// None does.
    Wordless,
    /// Windows.
    Windows,
    /// The steps of a script.
    Steps,
    /// The events of a trace, and the bios that follow one.
    Events,
}

/// A form.
#[derive(Clone, Copy, Drop)]
pub struct FormRow {
    /// The kind of its title.
    pub title: AnyKind,
    /// That of its second record.
    pub second: AnyKind,
    /// Those of its later records that begin with words.
    pub later: LaterRecords,
    /// That of its other records.
    pub item: AnyKind,
    /// How many records are announced.
    pub counted: Counted,
}

impl TextForm {
    /// The kinds of its title, of its second record, and of those that begin with none of the words of its later ones.
    fn kinds(self) -> (AnyKind, AnyKind, AnyKind)
        ensures { result ≡ form_kinds self }
    {
        match self {
            TextForm::Commands => (COMMANDS.any(), COMMAND_ROW.any(), COMMAND_ROW.any()),
            TextForm::Certificate => (CERTIFICATE.any(), BOUND.any(), SERVED_ROW.any()),
            TextForm::OnTime => (ON_TIME.any(), NUMBERS.any(), SERVED_ROW.any()),
            TextForm::Schedule => (SCHEDULE.any(), SERVED_ROW.any(), SERVED_ROW.any()),
            TextForm::Capture => (CAPTURE.any(), RECORD_ROW.any(), RECORD_ROW.any()),
            TextForm::Script => (SCRIPT.any(), SETUP.any(), OTHER_STEP.any()),
            TextForm::Trace => (TRACE.any(), SETUP.any(), OTHER_EVENT.any()),
        }
    }

    /// Its records after the second that begin with words.
    fn later(self) -> LaterRecords
        ensures { result ≡ form_later self }
    {
        match self {
            TextForm::OnTime => LaterRecords::Windows,
            TextForm::Script => LaterRecords::Steps,
            TextForm::Trace => LaterRecords::Events,
            TextForm::Commands | TextForm::Certificate | TextForm::Schedule | TextForm::Capture =>
                LaterRecords::Wordless,
        }
    }

    /// How many records it announces.
    fn counted(self) -> Counted
        ensures { result ≡ form_counted self }
    {
        match self {
            TextForm::Certificate => Counted::Commands(2),
            TextForm::Schedule => Counted::Commands(1),
            TextForm::OnTime => Counted::Windows,
            TextForm::Trace => Counted::Events,
            TextForm::Commands | TextForm::Capture | TextForm::Script => Counted::Nothing,
        }
    }

    /// Its row.
    pub fn row(self) -> FormRow
        ensures { result ≡ form_row self }
    {
        let (title, second, item) = self.kinds();
        FormRow {
            title,
            second,
            later: self.later(),
            item,
            counted: self.counted(),
        }
    }

    /// Whether its title begins with this name.
    fn is_named(self, field: &[u8]) -> bool
        ensures { IsTrue result ↔ (field.now ≡ form_name self) }
    {
        let row = self.row();
        field == row.title.word()
    }
}

/// The form whose title begins with this name.
pub fn form_named(field: &[u8]) -> Option<TextForm>
    ensures { MatchOption result ((f : AForm) → ¬ (field.now ≡ form_name f)) (λ f. field.now ≡ form_name f) }
{
    if TextForm::Commands.is_named(field) {
        Some(TextForm::Commands)
    } else if TextForm::Certificate.is_named(field) {
        Some(TextForm::Certificate)
    } else if TextForm::OnTime.is_named(field) {
        Some(TextForm::OnTime)
    } else if TextForm::Schedule.is_named(field) {
        Some(TextForm::Schedule)
    } else if TextForm::Capture.is_named(field) {
        Some(TextForm::Capture)
    } else if TextForm::Script.is_named(field) {
        Some(TextForm::Script)
    } else if TextForm::Trace.is_named(field) {
        Some(TextForm::Trace)
    } else {
        None
    }
}

/// The kind of these that begins with this word, or, where none does, another.
fn kind_named(kinds: &[AnyKind], other: AnyKind, word: &[u8]) -> AnyKind
    ensures { IsWorded kinds.now other word.now result }
{
    for kind in kinds {
        if word == kind.word() {
            return *kind;
        }
    }
    other
}

/// The kind of a later record that begins with this word, or, where none does, another.
fn later_kind(later: LaterRecords, other: AnyKind, word: &[u8]) -> AnyKind
    ensures { IsWorded (worded_kinds later) other word.now result }
{
    match later {
        LaterRecords::Wordless => other,
        LaterRecords::Windows => kind_named(&[WINDOW.any()], other, word),
        LaterRecords::Steps => kind_named(&step_kinds(), other, word),
        LaterRecords::Events => {
            let otherwise = kind_named(&[BIO.any()], other, word);
            kind_named(&event_kinds(), otherwise, word)
        }
    }
}

/// The kind of a record of a form, by its number and the word that it begins with.
pub fn kind_of(row: &FormRow, at: u64, word: &[u8]) -> AnyKind
    ensures { IsRecordKind row.now at word.now result }
{
    if at == 1 {
        return row.title;
    }
    if at == 2 {
        return row.second;
    }
    later_kind(row.later, row.item, word)
}
