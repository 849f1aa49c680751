//! Schedules, by whatever scheduler.

ghost use Rattle.std.specs.Prelude.{◌≡◌, ◌⊎◌, ◌+◌, ◌≤◌, ◌<◌, ◌-◌, ◌^◌, false, All, IfOk, IfErr, IfSome, OnOk, length, codes};
ghost use Rattle.std.specs.Bool.{OnTrue};
ghost use Rattle.csv.specs.Records.{fields_of};
ghost use Rattle.blk_records.specs.Reads.{FaultsBy, ReadsAll, Halts, Reaches};
ghost use Rattle.blk_records.specs.Texts.{rows_text};
ghost use Rattle.blk_records.specs.Schedule.{viewed, schedule_form, schedule_body, schedule_rows, IsNew, IsScheduleView, SpellsSchedule, ScheduleFault};
ghost use Rattle.blk_records.specs.Inside.Schedule.{IsPastCommands, IsAdded, AreFit, AreIds, DoRise, HasIds};
ghost use Rattle.blk_records.specs.Titles.{IsTitleOf};

use crate::certificate::{ServedForm, push_schedule, split};
use crate::fault::{TextFault, TextReason};
use crate::items::{ItemForm, RecordForm, gather};
use crate::source::Records;
use crate::titles::{COUNTED, COUNTED_NAMES, TitleRow, read_title};
use csv::ByteRecord;
use edd_commands::{Command, MAX_COMMANDS};
use std::alloc::{AllocError, Global};
use std::collections::BTreeSet;
use std::io::Read;
use text_grammar::Repeats;
use text_output::Block;

/// The title record.
pub const SCHEDULE: TitleRow<12, 4> = TitleRow {
    word: *b"blk-schedule",
    latest: 1,
    slots: COUNTED,
    names: COUNTED_NAMES,
    later: None,
};

/// A schedule of commands, of which nothing is claimed.
#[derive(Debug, Drop)]
pub struct Schedule {
    /// How many commands a round has room for.
    pub depth: u64,
    /// The commands by the order of their records, each by its id and its release and due rounds.
    pub commands: Vec<Command>,
    /// The round of each command, by its place.
    pub rounds: Vec<u64>,
}

/// The commands that were read, each with its round, and their ids, once these don't rise from each to the next.
#[derive(Drop)]
pub(crate) struct ServedCommands {
    served: Vec<(Command, u64)>,
    rise: bool,
    ids: BTreeSet<u64>,
}

/// Whether an id is above those of commands whose ids rise.
fn is_above(served: &[(Command, u64)], id: u64) -> bool
    requires { DoRise served.now }
    ensures { OnTrue result (All (λ s. s.0.id < id) served.now) }
{
    match served.last() {
        Some(last) => last.0.id < id,
        None => true,
    }
}

/// The ids of commands.
fn ids_of(alloc: Global, served: &[(Command, u64)]) -> Result<BTreeSet<u64>, AllocError>
    ensures { IfOk result (AreIds served.now) }
{
    let mut ids = BTreeSet::new(alloc);
    for command in served {
        ids.insert(command.0.id)?;
    }
    Ok(ids)
}

/// Puts the ids into the set, where they rose so far. On a refusal nothing is changed.
fn gather_ids(alloc: Global, known: &mut ServedCommands) -> Result<(), AllocError>
    requires { HasIds known.old }
    ensures served { known.new.served.items ≡ known.old.served.items }
    ensures ids { OnOk result (AreIds known.new.served.items known.new.ids) }
    ensures rise { OnOk result (known.new.rise ≡ false) }
{
    if !known.rise {
        return Ok(());
    }
    let ids = ids_of(alloc, known.served.as_slice())?;
    known.ids = ids;
    known.rise = false;
    Ok(())
}

/// Adds a command, where none before has its id. Ids that rise aren't looked for in a set.
fn add(alloc: Global, known: &mut ServedCommands, served: (Command, u64)) -> Result<(), TextReason>
    requires { HasIds known.old }
    ensures ok { OnOk result (IsAdded known.old known.new served) }
    ensures err { IfErr result (λ w. (w ≡ TextReason.Memory) ⊎ ((w ≡ TextReason.RepeatedId) × ¬ IsNew known.old.served.items served)) }
{
    if !known.rise {
        return add_among(alloc, known, served);
    }
    if !is_above(known.served.as_slice(), served.0.id) {
        return add_among(alloc, known, served);
    }
    match known.served.push(served) {
        Ok(()) => Ok(()),
        Err(_) => Err(TextReason::Memory),
    }
}

/// The same, where the ids need not rise.
#[cold]
#[inline(never)]
fn add_among(
    alloc: Global,
    known: &mut ServedCommands,
    served: (Command, u64),
) -> Result<(), TextReason>
    requires { HasIds known.old }
    ensures ok { OnOk result (IsAdded known.old known.new served) }
    ensures err { IfErr result (λ w. (w ≡ TextReason.Memory) ⊎ ((w ≡ TextReason.RepeatedId) × ¬ IsNew known.old.served.items served)) }
{
    let Ok(()) = gather_ids(alloc, known) else {
        return Err(TextReason::Memory);
    };
    match known.ids.insert(served.0.id) {
        Ok(true) => {}
        Ok(false) => return Err(TextReason::RepeatedId),
        Err(_) => return Err(TextReason::Memory),
    }
    match known.served.push(served) {
        Ok(()) => Ok(()),
        Err(_) => Err(TextReason::Memory),
    }
}

/// The commands of a schedule, each with its round.
#[derive(Clone, Copy, Drop)]
struct NewForm;

impl ItemForm for NewForm {
    ghost use Rattle.std.specs.Prelude.{ℕ};
    ghost use Rattle.edd_commands.specs.declared.Command.{Command as ACommand};
    ghost use Rattle.blk_records.specs.Schedule.{new_record};
    ghost use Rattle.blk_records.specs.Inside.Schedule.{HasIds};

    type Items = ServedCommands;

    ghost View = { ACommand × ℕ };

    ghost known = { λ _ k. HasIds k };

    ghost seen = { λ _ k _. k.served.items };

    ghost part = { λ _ before. new_record before };

    ghost more = { 0 };

    #[tactic(auto, using(crate::proofs::ScheduleLaws::new_gone))]
    fn gone(&self, items: &ServedCommands) -> TextReason {
        let _ = items;
        TextReason::Count
    }

    fn read<R: Read + Drop>(
        &self,
        alloc: Global,
        records: &mut Records<R>,
        items: &mut ServedCommands,
    ) -> Result<(), TextFault> {
        let form = ServedForm;
        let served = match form.value(records.row()) {
            Ok(served) => served,
            Err(why) => return Err(records.fault(why)),
        };
        match add(alloc, items, served) {
            Ok(()) => Ok(()),
            Err(why) => Err(records.fault(why)),
        }
    }
}

/// What is wrong with a record after all commands: its own fault, that its id stood before, and else that it is one
/// too many.
fn past_fault(alloc: Global, row: &ByteRecord, known: &mut ServedCommands) -> TextReason
    requires { HasIds known.old }
    ensures { (result ≡ TextReason.Memory) ⊎ IsPastCommands known.old.served.items (fields_of row.now) result }
{
    let form = ServedForm;
    let served = match form.value(row) {
        Ok(served) => served,
        Err(why) => return why,
    };
    match add(alloc, known, served) {
        Ok(()) => TextReason::Count,
        Err(why) => why,
    }
}

/// This number of commands with their rounds, to the end of the text.
fn read_new<R: Read + Drop>(
    alloc: Global,
    records: &mut Records<R>,
    count: u64,
) -> Result<Vec<(Command, u64)>, TextFault>
    requires { records.old.at + count + 1 < 2 ^ 64 - 1 }
    ensures ok { IfOk result (λ v. ReadsAll (schedule_body count) records.old.left v.items) }
    ensures err { IfErr result (λ f. Halts records.new.failed (schedule_body count) records.old.left records.old.at f.at f.why) }
    ensures last { IfErr result (λ f. f.at ≡ records.new.at) }
    ensures fit { IfOk result (λ v. AreFit v.items × (length v.items ≡ count)) }
    ensures reads { (records.old.at < records.new.at) × (records.new.at ≤ records.old.at + count + 1) }
    ensures end { IfOk result (λ v. records.new.at ≡ records.old.at + length v.items + 1) }
{
    let mut known = ServedCommands {
        served: Vec::new(alloc),
        rise: true,
        ids: BTreeSet::new(alloc),
    };
    match gather(
        alloc,
        records,
        &NewForm,
        Repeats::Exactly(count),
        &mut known,
    ) {
        Ok(true) => unreachable!(),
        Ok(false) => {}
        Err(fault) => return Err(fault),
    }
    match records.advance() {
        Ok(true) => {}
        Ok(false) => return Ok(known.served),
        Err(fault) => return Err(fault),
    }
    let why = past_fault(alloc, records.row(), &mut known);
    Err(records.fault(why))
}

/// The schedule of a text of records of four fields: a title with the depth, 1 to [`edd_commands::MAX_DEPTH`], and the number
/// of commands, and each command with its round, by any order. No record may have been read before.
///
/// Whether the schedule is legal isn't looked at. The fault is the first one: of the least record, and in it the first in the
/// order of [`TextReason`]; an id that stood before is [`TextReason::RepeatedId`] at the later record. [`TextReason::Read`] and [`TextReason::Memory`]
/// come at the record that is being read. Fewer commands than announced is a fault one past the last record. No record is
/// asked for past that of the fault, and never more than [`MAX_COMMANDS`] + 2.
pub fn read_schedule<R: Read + Drop>(
    alloc: Global,
    records: &mut Records<R>,
) -> Result<Schedule, TextFault>
    requires { records.old.at ≡ 0 }
    ensures ok { IfOk result (λ s. IfSome records.old.left (λ rows. SpellsSchedule rows (viewed s))) }
    // also where the reader's bytes are not known
    ensures in_range { IfOk result (λ s. IsScheduleView (viewed s)) }
    // at the record that was asked for last: none was read past it
    ensures last { IfErr result (λ f. f.at ≡ records.new.at) }
    ensures err { IfErr result (FaultsBy records.old records.new ScheduleFault) }
    // also where it came from outside: at most one past the last record, and no record before it is wrong
    ensures reached { IfErr result (λ f. Reaches schedule_form records.old.left 0 f.at) }
    ensures reads { (1 ≤ records.new.at) × (records.new.at ≤ MAX_COMMANDS + 2) }
    // the last thing that was asked for is the record after the commands, which there is not
    ensures end { IfOk result (λ s. records.new.at ≡ length s.commands.items + 2) }
    // the title is that of the form, by its name and its latest version
    ensures title { IsTitleOf SCHEDULE (codes "blk-schedule") 1 }
{
    let (_, [_, _, depth, count]) = match read_title(records, &SCHEDULE) {
        Ok(title) => title,
        Err(fault) => return Err(fault),
    };
    let served = match read_new(alloc, records, count) {
        Ok(served) => served,
        Err(fault) => return Err(fault),
    };
    match split(alloc, served.as_slice()) {
        Ok((commands, rounds)) => Ok(Schedule {
            depth,
            commands,
            rounds,
        }),
        Err(AllocError) => Err(records.fault(TextReason::Memory)),
    }
}

/// The text of a schedule: of at most [`MAX_COMMANDS`] commands, no two of one id, with a round each, and numbers in the ranges of the
/// form: a depth of 1 to [`edd_commands::MAX_DEPTH`], releases below round [`edd_commands::MAX_RELEASES`], dues and rounds below
/// [`edd_commands::MAX_ROUNDS`].
pub fn schedule_text(alloc: Global, schedule: &Schedule) -> Result<Vec<u8>, AllocError>
    requires { IsScheduleView (viewed schedule.now) }
    ensures { IfOk result (λ v. v.items ≡ rows_text (schedule_rows (viewed schedule.now))) }
{
    let mut draft = Block::new(alloc);
    let commands = schedule.commands.as_slice();
    SCHEDULE.push(
        &mut draft,
        &[SCHEDULE.latest, schedule.depth, commands.len() as u64],
    )?;
    push_schedule(&mut draft, commands, schedule.rounds.as_slice())?;
    draft.finish()
}
