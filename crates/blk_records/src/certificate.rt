//! Certificates.

ghost use Rattle.std.specs.Prelude.{◌≡◌, ◌+◌, ◌++◌, ◌≤◌, ◌<◌, ◌-◌, ◌∷◌, [], IfOk, IfErr, IfSome, OnOk, map, length, codes, None, Some, IsTrue, ◌↔◌};
ghost use Rattle.std.specs.Fmt.{signed_decimal};
ghost use Rattle.std.specs.List.{zip};
ghost use Rattle.csv.specs.Records.{fields_of};
ghost use Rattle.blk_records.specs.Reads.{FaultsBy, IsRowOf, IsWrongRecord, ReadsAll, Halts, Reaches};
ghost use Rattle.blk_records.specs.Tables.{IsUpTo, FitsCells, row_by, slots_by};
ghost use Rattle.blk_records.specs.Fields.{IsSized, FieldsSpell};
ghost use Rattle.blk_records.specs.declared.fields.Slot.TheVariants as slot;
ghost use Rattle.blk_records.specs.Words.{StartsWith};
ghost use Rattle.blk_records.specs.Texts.{rows_text, AddsRows};
ghost use Rattle.text_output.specs.Drafts.{draft_text};
ghost use Rattle.blk_records.specs.Titles.{IsCounted, IsTitleOf};
ghost use Rattle.blk_records.specs.Certificate.{claimed, claim_form, IsClaim, SpellsClaim, ClaimFault, claim_rows, claim_body, claim_told, bound as bound_part, bound_cells, no_bound_row, served_cells};
ghost use Rattle.blk_records.specs.Inside.Certificate.{bound_row};

use crate::fault::{TextFault, TextReason};
use crate::fields::{
    ANY_SLOT, RELEASE_SLOT, ROUND_SLOT, Slot, after_minus, begins_with, field, read_fields,
    without_word,
};
use crate::items::{RecordForm, read_record, read_records};
use crate::kinds::Kind;
use crate::names::FieldName;
use crate::source::Records;
use crate::titles::{COUNTED, COUNTED_NAMES, TitleRow, read_title};
use crate::writing::push_numbers;
use csv::ByteRecord;
use edd_check::Window;
use edd_commands::{Command, MAX_COMMANDS, MAX_ROUNDS};
use std::alloc::{AllocError, Global};
use std::io::Read;
use text_grammar::Repeats;
use text_output::Block;
use text_output::pieces::{put, put_two};

/// The title record.
pub const CERTIFICATE: TitleRow<15, 4> = TitleRow {
    word: *b"blk-certificate",
    latest: 1,
    slots: COUNTED,
    names: COUNTED_NAMES,
    later: None,
};

/// The record of a bound.
pub const BOUND: Kind<5, 4> = Kind {
    word: *b"bound",
    since: 1,
    slots: [Slot::Given, LATE, ROUND_SLOT, ROUND_SLOT],
    names: [
        FieldName::Bound,
        FieldName::Lateness,
        FieldName::BoundFrom,
        FieldName::BoundUntil,
    ],
};

/// A lateness in rounds.
const LATE: Slot = Slot::Lateness {
    most: MAX_ROUNDS - 1,
};

/// A schedule of commands, with the claim that it is least late.
#[derive(Debug, Drop)]
pub struct Certificate {
    /// How many commands a round has room for.
    pub depth: u64,
    /// The commands, each by its id and its release and due rounds.
    pub commands: Vec<Command>,
    /// The round of each command, by its place.
    pub rounds: Vec<u64>,
    /// The greatest lateness in rounds, and a window that asks for it; none without commands.
    pub bound: Option<(i64, Window)>,
}

/// The bound beside this number of commands.
#[derive(Clone, Copy, Drop)]
pub(crate) struct BoundForm {
    count: u64,
}

impl RecordForm for BoundForm {
    ghost use Rattle.blk_records.specs.Certificate.{bound as bound_part};

    type Value = Option<(i64, Window)>;

    ghost part = { λ f. bound_part f.count };

    fn gone(&self) -> TextReason {
        TextReason::Word
    }

    fn value(&self, row: &ByteRecord) -> Result<Option<(i64, Window)>, TextReason> {
        if !begins_with(row, &BOUND.word) {
            return Err(without_word(row, 4));
        }
        bound_of(row, self.count)
    }
}

/// The fields of a command with its round: id, release, due, round.
pub(crate) const SERVED: [Slot; 4] = [ANY_SLOT, RELEASE_SLOT, ROUND_SLOT, ROUND_SLOT];

/// The row of a command with its round, which begins with no word.
pub const SERVED_ROW: Kind<0, 4> = Kind {
    word: *b"",
    since: 1,
    slots: SERVED,
    names: [
        FieldName::Id,
        FieldName::Release,
        FieldName::Due,
        FieldName::Round,
    ],
};

/// The record of a command with its round.
#[derive(Clone, Copy, Drop)]
pub(crate) struct ServedForm;

impl RecordForm for ServedForm {
    ghost use Rattle.blk_records.specs.Certificate.{served_record};

    type Value = (Command, u64);

    ghost part = { λ _. served_record };

    #[tactic(auto, using(crate::proofs::ClaimLaws::served_one))]
    fn gone(&self) -> TextReason {
        TextReason::Count
    }

    fn value(&self, row: &ByteRecord) -> Result<(Command, u64), TextReason> {
        match read_fields(row, &SERVED) {
            Ok(numbers) => {
                let command = Command {
                    id: numbers[0],
                    release: numbers[1],
                    due: numbers[2],
                };
                Ok((command, numbers[3]))
            }
            Err(why) => Err(why),
        }
    }
}

/// The lateness of a field, by its size.
fn lateness_of(field: &[u8], size: u64) -> i64
    requires sized { IsSized field.now size }
    requires small { size < MAX_ROUNDS }
    ensures text { field.now ≡ signed_decimal result }
    ensures range { IsUpTo (MAX_ROUNDS - 1) result }
{
    match after_minus(field) {
        Some(_) => -(size as i64),
        None => size as i64,
    }
}

/// Whether a record says that there is no bound, beside no commands.
fn is_no_bound(row: &ByteRecord, count: u64) -> bool
    ensures { IsTrue result ↔ ((count ≡ 0) × (fields_of row.now ≡ no_bound_row)) }
{
    let none = b"none".as_slice();
    if count != 0 || row.len() != 4 || field(row, 0) != BOUND.word.as_slice() {
        return false;
    }
    if field(row, 1) != none || field(row, 2) != none {
        return false;
    }
    field(row, 3) == none
}

/// The bound of the numbers of a record.
fn bound_with(row: &ByteRecord, numbers: &[u64; 4], count: u64) -> (i64, Window)
    requires starts { StartsWith BOUND.word (fields_of row.now) }
    requires spells { FieldsSpell (slot.Given ∷ slots_by (bound_cells count)) (fields_of row.now) numbers.now }
    ensures row { fields_of row.now ≡ BOUND.word ∷ row_by (bound_cells count) result }
    ensures fits { FitsCells (bound_cells count) result }
{
    let window = Window {
        from: numbers[2],
        due: numbers[3],
    };
    (lateness_of(field(row, 1), numbers[1]), window)
}

/// The slots of a bound, beside this number of commands.
fn bound_slots(count: u64) -> [Slot; 4]
    ensures { result ≡ slot.Given ∷ slots_by (bound_cells count) }
{
    if count == 0 {
        let none = Slot::Number { least: 1, most: 0 };
        return [Slot::Given, LATE, none, none];
    }
    BOUND.slots
}

/// The bound of a record that begins with its word, beside this number of commands.
fn bound_of(row: &ByteRecord, count: u64) -> Result<Option<(i64, Window)>, TextReason>
    requires { StartsWith BOUND.word (fields_of row.now) }
    ensures ok { IfOk result (IsRowOf (bound_part count) (fields_of row.now)) }
    ensures err { IfErr result (IsWrongRecord (bound_part count) (fields_of row.now)) }
{
    if is_no_bound(row, count) {
        return Ok(None);
    }
    let slots = bound_slots(count);
    match read_fields(row, &slots) {
        Ok(numbers) => Ok(Some(bound_with(row, &numbers, count))),
        Err(why) => Err(why),
    }
}

/// The commands of lines.
fn commands_of(alloc: Global, served: &[(Command, u64)]) -> Result<Vec<Command>, AllocError>
    ensures { IfOk result (λ v. v.items ≡ map (λ s. s.0) served.now) }
{
    served.iter().map(|(command, _)| *command).collect(alloc)
}

/// The rounds of lines.
fn rounds_of(alloc: Global, served: &[(Command, u64)]) -> Result<Vec<u64>, AllocError>
    ensures { IfOk result (λ v. v.items ≡ map (λ s. s.1) served.now) }
{
    served.iter().map(|(_, round)| *round).collect(alloc)
}

/// The commands and the rounds of lines.
pub(crate) fn split(
    alloc: Global,
    served: &[(Command, u64)],
) -> Result<(Vec<Command>, Vec<u64>), AllocError>
    ensures commands { IfOk result (λ p. p.0.items ≡ map (λ s. s.0) served.now) }
    ensures rounds { IfOk result (λ p. p.1.items ≡ map (λ s. s.1) served.now) }
{
    let commands = commands_of(alloc, served)?;
    let rounds = rounds_of(alloc, served)?;
    Ok((commands, rounds))
}

/// The rest of a certificate after its title.
pub(crate) fn read_claim_body<R: Read + Drop>(
    alloc: Global,
    records: &mut Records<R>,
    depth: u64,
    count: u64,
) -> Result<Certificate, TextFault>
    requires at { records.old.at ≡ 1 }
    requires counted { IsCounted (depth, count) }
    ensures ok { IfOk result (λ c. ReadsAll (claim_body count) records.old.left (claim_told (claimed c))) }
    ensures told { IfOk result (λ c. (c.depth ≡ depth) × (length c.commands.items ≡ count)) }
    ensures in_range { IfOk result (λ c. IsClaim (claimed c)) }
    ensures last { IfErr result (λ f. f.at ≡ records.new.at) }
    ensures err { IfErr result (λ f. Halts records.new.failed (claim_body count) records.old.left 1 f.at f.why) }
    ensures reads { (2 ≤ records.new.at) × (records.new.at ≤ MAX_COMMANDS + 3) }
    ensures end { IfOk result (λ c. records.new.at ≡ length c.commands.items + 3) }
{
    let bound = match read_record(records, &BoundForm { count }) {
        Ok(bound) => bound,
        Err(fault) => return Err(fault),
    };
    let served = match read_records(alloc, records, ServedForm, Repeats::Exactly(count)) {
        Ok(served) => served,
        Err(fault) => return Err(fault),
    };
    match split(alloc, served.as_slice()) {
        Ok((commands, rounds)) => Ok(Certificate {
            depth,
            commands,
            rounds,
            bound,
        }),
        Err(AllocError) => Err(records.fault(TextReason::Memory)),
    }
}

/// The certificate of a text of records of four fields: a title with the depth and the number of
/// commands, a bound, and each command with its round. No record may have been read before.
///
/// The fault is the first one: of the least record, and in it the first in the order of [`TextReason`].
/// [`TextReason::Read`] and [`TextReason::Memory`] come at the record that is being read.
/// Fewer commands than announced is a fault one past the last record. No record is asked for past
/// that of the fault, and never more than [`MAX_COMMANDS`] + 3.
pub fn read_certificate<R: Read + Drop>(
    alloc: Global,
    records: &mut Records<R>,
) -> Result<Certificate, TextFault>
    requires { records.old.at ≡ 0 }
    ensures ok { IfOk result (λ c. IfSome records.old.left (λ rows. SpellsClaim rows (claimed c))) }
    // also where the reader's bytes are not known
    ensures in_range { IfOk result (λ c. IsClaim (claimed c)) }
    // at the record that was asked for last: none was read past it
    ensures last { IfErr result (λ f. f.at ≡ records.new.at) }
    ensures err { IfErr result (FaultsBy records.old records.new ClaimFault) }
    // also where it came from outside: at most one past the last record, and no record before it is wrong
    ensures reached { IfErr result (λ f. Reaches claim_form records.old.left 0 f.at) }
    ensures reads { (1 ≤ records.new.at) × (records.new.at ≤ MAX_COMMANDS + 3) }
    // the last thing that was asked for is the record after the commands, which there is not
    ensures end { IfOk result (λ c. records.new.at ≡ length c.commands.items + 3) }
    // the title is that of the form, by its name and its latest version
    ensures title { IsTitleOf CERTIFICATE (codes "blk-certificate") 1 }
{
    let (_, [_, _, depth, count]) = match read_title(records, &CERTIFICATE) {
        Ok(title) => title,
        Err(fault) => return Err(fault),
    };
    match read_claim_body(alloc, records, depth, count) {
        Ok(certificate) => Ok(certificate),
        Err(fault) => Err(fault),
    }
}

/// Adds the record of a lateness and its window.
fn push_some_bound(
    alloc: Global,
    draft: &mut Block,
    lateness: i64,
    window: Window,
) -> Result<(), AllocError>
    ensures text { OnOk result (draft_text draft.new ≡ draft_text draft.old ++ rows_text (bound_row (Some (lateness, window)) ∷ [])) }
{
    let late = lateness.to_string(alloc)?;
    let start = draft.room()?;
    let buf = &mut draft.block;
    let head = put(b"bound,", buf, start);
    let named = put(late.as_bytes(), buf, head);
    let mark = put(b",", buf, named);
    let end = put_two(window.from, window.due, buf, mark);
    draft.at = put(b"\n", buf, end);
    Ok(())
}

/// Adds the record of a bound.
fn push_bound(
    alloc: Global,
    draft: &mut Block,
    bound: Option<(i64, Window)>,
) -> Result<(), AllocError>
    ensures text { OnOk result (draft_text draft.new ≡ draft_text draft.old ++ rows_text (bound_row bound ∷ [])) }
{
    match bound {
        None => draft.push(b"bound,none,none,none\n"),
        Some((lateness, window)) => push_some_bound(alloc, draft, lateness, window),
    }
}

/// Adds the record of each command and its round.
pub(crate) fn push_schedule(
    draft: &mut Block,
    commands: &[Command],
    rounds: &[u64],
) -> Result<(), AllocError>
    requires { length rounds.now ≡ length commands.now }
    ensures text { OnOk result (AddsRows draft.old draft.new (map (row_by served_cells) (zip commands.now rounds.now))) }
{
    for i in 0..commands.len() {
        let command = commands[i];
        push_numbers(
            draft,
            command.id,
            &[command.release, command.due, rounds[i]],
        )?;
    }
    Ok(())
}

/// The text of a certificate: of at most [`MAX_COMMANDS`] commands with a round each, numbers in the ranges of the form, and no bound
/// exactly where there are no commands.
pub fn certificate_text(alloc: Global, certificate: &Certificate) -> Result<Vec<u8>, AllocError>
    requires { IsClaim (claimed certificate.now) }
    ensures { IfOk result (λ v. v.items ≡ rows_text (claim_rows (claimed certificate.now))) }
{
    let mut draft = Block::new(alloc);
    let commands = certificate.commands.as_slice();
    let rounds = certificate.rounds.as_slice();
    CERTIFICATE.push(
        &mut draft,
        &[CERTIFICATE.latest, certificate.depth, commands.len() as u64],
    )?;
    push_bound(alloc, &mut draft, certificate.bound)?;
    push_schedule(&mut draft, commands, rounds)?;
    draft.finish()
}
