//! Certificates of the greatest number of commands that a schedule can have on time.

ghost use Rattle.std.specs.Prelude.{◌≡◌, ◌+◌, ◌*◌, ◌≤◌, ◌<◌, ◌-◌, ◌^◌, ◌∷◌, All, IfOk, IfErr, IfSome, OnOk, map, length, codes};
ghost use Rattle.edd_check.specs.Window.{WindowInRange};
ghost use Rattle.blk_records.specs.Reads.{FaultsBy, Reads, ReadsAll, Halts, Reaches};
ghost use Rattle.blk_records.specs.Tables.{row_by};
ghost use Rattle.blk_records.specs.Texts.{rows_text, AddsRows};
ghost use Rattle.blk_records.specs.Titles.{IsCounted, IsTitleOf};
ghost use Rattle.blk_records.specs.OnTime.{on_time_claimed, on_time_form, IsOnTimeClaim, SpellsOnTime, OnTimeClaimFault, on_time_rows, text_of, window_cells, windows, on_time_body, on_time_told};

use crate::certificate::{ServedForm, push_schedule, split};
use crate::fault::{TextFault, TextReason};
use crate::fields::{COUNT_SLOT, ROUND_SLOT, Slot, begins_with, read_fields, without_word};
use crate::items::{Each, RecordForm, gather, read_record, read_records};
use crate::kinds::Kind;
use crate::names::FieldName;
use crate::source::Records;
use crate::titles::{COUNTED, COUNTED_NAMES, TitleRow, read_title};
use csv::ByteRecord;
use edd_check::Window;
use edd_commands::{Command, MAX_COMMANDS};
use std::alloc::{AllocError, Global};
use std::io::Read;
use text_grammar::Repeats;
use text_output::Block;

/// The title record.
pub const ON_TIME: TitleRow<7, 4> = TitleRow {
    word: *b"blk-met",
    latest: 1,
    slots: COUNTED,
    names: COUNTED_NAMES,
    later: None,
};

/// A schedule of commands, with the claim that none has more of them on time.
#[derive(Debug, Drop)]
pub struct OnTimeCertificate {
    /// How many commands a round has room for.
    pub depth: u64,
    /// The commands, each by its id and its release and due rounds.
    pub commands: Vec<Command>,
    /// The round of each command, by its place.
    pub rounds: Vec<u64>,
    /// How many commands run no later than they are due.
    pub on_time: u64,
    /// Windows of rounds, each from its `from` to its `due`, that are to bound how many any schedule has on time.
    pub cover: Vec<Window>,
}

/// The record of the numbers: how many commands are on time, how many windows there are, and an empty field.
pub const NUMBERS: Kind<3, 4> = Kind {
    word: *b"met",
    since: 1,
    slots: [Slot::Given, COUNT_SLOT, COUNT_SLOT, Slot::Blank],
    names: [
        FieldName::OnTime,
        FieldName::CommandsOnTime,
        FieldName::Windows,
        FieldName::Unused,
    ],
};

/// The record of a window: its first round, its last round, and an empty field.
pub const WINDOW: Kind<6, 4> = Kind {
    word: *b"window",
    since: 1,
    slots: [Slot::Given, ROUND_SLOT, ROUND_SLOT, Slot::Blank],
    names: [
        FieldName::Word,
        FieldName::From,
        FieldName::Until,
        FieldName::Unused,
    ],
};

/// The record that says how many commands are on time, and how many windows there are.
#[derive(Clone, Copy, Drop)]
struct NumbersForm;

impl RecordForm for NumbersForm {
    ghost use Rattle.blk_records.specs.OnTime.{on_time_numbers};

    type Value = (u64, u64);

    ghost part = { λ _. on_time_numbers };

    #[tactic(auto, using(crate::proofs::OnTimeLaws::numbers_one))]
    fn gone(&self) -> TextReason {
        TextReason::Word
    }

    fn value(&self, row: &ByteRecord) -> Result<(u64, u64), TextReason> {
        if !begins_with(row, &NUMBERS.word) {
            return Err(without_word(row, 4));
        }
        match read_fields(row, &NUMBERS.slots) {
            Ok(numbers) => Ok((numbers[1], numbers[2])),
            Err(why) => Err(why),
        }
    }
}

/// The record of a window.
#[derive(Clone, Copy, Drop)]
struct WindowForm;

impl RecordForm for WindowForm {
    ghost use Rattle.blk_records.specs.OnTime.{window as window_part};

    type Value = Window;

    ghost part = { λ _. window_part };

    #[tactic(auto, using(crate::proofs::OnTimeLaws::window_one))]
    fn gone(&self) -> TextReason {
        TextReason::Count
    }

    fn value(&self, row: &ByteRecord) -> Result<Window, TextReason> {
        if !begins_with(row, &WINDOW.word) {
            return Err(without_word(row, 4));
        }
        match read_fields(row, &WINDOW.slots) {
            Ok(numbers) => Ok(Window {
                from: numbers[1],
                due: numbers[2],
            }),
            Err(why) => Err(why),
        }
    }
}

/// This number of windows.
fn read_windows<R: Read + Drop>(
    alloc: Global,
    records: &mut Records<R>,
    count: u64,
) -> Result<Vec<Window>, TextFault>
    requires { records.old.at + count < 2 ^ 64 - 1 }
    ensures ok { IfOk result (λ v. Reads (windows count) records.old.left records.new.left v.items) }
    ensures fit { IfOk result (λ v. All WindowInRange v.items × (length v.items ≡ count)) }
    ensures err { IfErr result (λ f. Halts records.new.failed (windows count) records.old.left records.old.at f.at f.why) }
    ensures last { IfErr result (λ f. f.at ≡ records.new.at) }
    ensures reads { (records.old.at ≤ records.new.at) × (records.new.at ≤ records.old.at + count) }
    ensures end { IfOk result (λ v. records.new.at ≡ records.old.at + length v.items) }
{
    let form = Each { form: WindowForm };
    let mut cover = Vec::new(alloc);
    match gather(alloc, records, &form, Repeats::Exactly(count), &mut cover) {
        Ok(true) => unreachable!(),
        Ok(false) => Ok(cover),
        Err(fault) => Err(fault),
    }
}

/// The rest of a certificate after its title.
pub(crate) fn read_on_time_body<R: Read + Drop>(
    alloc: Global,
    records: &mut Records<R>,
    depth: u64,
    count: u64,
) -> Result<OnTimeCertificate, TextFault>
    requires at { records.old.at ≡ 1 }
    requires counted { IsCounted (depth, count) }
    ensures ok { IfOk result (λ c. ReadsAll (on_time_body count) records.old.left (on_time_told (on_time_claimed c))) }
    ensures told { IfOk result (λ c. (c.depth ≡ depth) × (length c.commands.items ≡ count)) }
    ensures in_range { IfOk result (λ c. IsOnTimeClaim (on_time_claimed c)) }
    ensures last { IfErr result (λ f. f.at ≡ records.new.at) }
    ensures err { IfErr result (λ f. Halts records.new.failed (on_time_body count) records.old.left 1 f.at f.why) }
    ensures reads { (2 ≤ records.new.at) × (records.new.at ≤ 2 * MAX_COMMANDS + 3) }
    ensures end { IfOk result (λ c. records.new.at ≡ length c.cover.items + length c.commands.items + 3) }
{
    let (on_time, many) = match read_record(records, &NumbersForm) {
        Ok(numbers) => numbers,
        Err(fault) => return Err(fault),
    };
    let cover = match read_windows(alloc, records, many) {
        Ok(cover) => cover,
        Err(fault) => return Err(fault),
    };
    let served = match read_records(alloc, records, ServedForm, Repeats::Exactly(count)) {
        Ok(served) => served,
        Err(fault) => return Err(fault),
    };
    match split(alloc, served.as_slice()) {
        Ok((commands, rounds)) => Ok(OnTimeCertificate {
            depth,
            commands,
            rounds,
            on_time,
            cover,
        }),
        Err(AllocError) => Err(records.fault(TextReason::Memory)),
    }
}

/// The certificate of a text of records of four fields: a title with the depth and the number of commands, how many of
/// them are on time and how many windows there are, each window, and each command with its round. No record may have been read before.
///
/// Whether the windows bound how many are on time is left to [`edd_check::check_on_time`]: here they are numbers alone.
///
/// The fault is the first one: of the least record, and in it the first in the order of [`TextReason`].
/// [`TextReason::Read`] and [`TextReason::Memory`] come at the record that is being read. A second record that isn't there or begins
/// with another word than `met`, or another word in the place of an announced window, is [`TextReason::Word`]; a text that ends
/// before an announced window or command came is [`TextReason::Count`], one past the last record. No record is asked for past
/// that of the fault, and never more than 2 * [`MAX_COMMANDS`] + 3.
pub fn read_on_time<R: Read + Drop>(
    alloc: Global,
    records: &mut Records<R>,
) -> Result<OnTimeCertificate, TextFault>
    requires { records.old.at ≡ 0 }
    ensures ok { IfOk result (λ c. IfSome records.old.left (λ rows. SpellsOnTime rows (on_time_claimed c))) }
    // also where the reader's bytes are not known
    ensures in_range { IfOk result (λ c. IsOnTimeClaim (on_time_claimed c)) }
    // at the record that was asked for last: none was read past it
    ensures last { IfErr result (λ f. f.at ≡ records.new.at) }
    ensures err { IfErr result (FaultsBy records.old records.new OnTimeClaimFault) }
    // also where it came from outside: at most one past the last record, and no record before it is wrong
    ensures reached { IfErr result (λ f. Reaches on_time_form records.old.left 0 f.at) }
    ensures reads { (1 ≤ records.new.at) × (records.new.at ≤ 2 * MAX_COMMANDS + 3) }
    // the last thing that was asked for is the record after the commands, which there is not
    ensures end { IfOk result (λ c. records.new.at ≡ length c.cover.items + length c.commands.items + 3) }
    // the title is that of the form, by its name and its latest version
    ensures title { IsTitleOf ON_TIME (codes "blk-met") 1 }
{
    let (_, [_, _, depth, count]) = match read_title(records, &ON_TIME) {
        Ok(title) => title,
        Err(fault) => return Err(fault),
    };
    match read_on_time_body(alloc, records, depth, count) {
        Ok(certificate) => Ok(certificate),
        Err(fault) => Err(fault),
    }
}

/// Adds the record of each window.
fn push_cover(draft: &mut Block, cover: &[Window]) -> Result<(), AllocError>
    ensures text { OnOk result (AddsRows draft.old draft.new (map (λ w. WINDOW.word ∷ row_by window_cells w) cover.now)) }
{
    for i in 0..cover.len() {
        let window = cover[i];
        WINDOW.push(draft, &[window.from, window.due])?;
    }
    Ok(())
}

/// The text of a certificate: of at most [`MAX_COMMANDS`] commands with a round each and at most as many windows, and numbers in the
/// ranges of the form.
pub fn on_time_text(alloc: Global, certificate: &OnTimeCertificate) -> Result<Vec<u8>, AllocError>
    requires { IsOnTimeClaim (on_time_claimed certificate.now) }
    ensures { IfOk result (λ v. v.items ≡ rows_text (on_time_rows (on_time_claimed certificate.now))) }
{
    let mut draft = Block::new(alloc);
    let commands = certificate.commands.as_slice();
    let cover = certificate.cover.as_slice();
    ON_TIME.push(
        &mut draft,
        &[ON_TIME.latest, certificate.depth, commands.len() as u64],
    )?;
    NUMBERS.push(&mut draft, &[certificate.on_time, cover.len() as u64])?;
    push_cover(&mut draft, cover)?;
    push_schedule(&mut draft, commands, certificate.rounds.as_slice())?;
    draft.finish()
}
