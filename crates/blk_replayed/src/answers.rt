//! What is said of replays, as an answer.

ghost use Rattle.std.specs.Prelude.{◌≡◌, ◌++◌, ◌∷◌, [], IfOk, OnOk, map};
ghost use Rattle.blk_replayed.specs.Answers.{expiry, expiries_of, plan_settings, chooser_name, chooser_settings, replay_row, replay_columns, best_replays, replay_rows, is_least, proof_told, told_line, best_told, best_of_row, best_of_none, best_of_rows, replays_parts};

use crate::replays::Replays;
use crate::row::{Chooser, ReplayRow};
use answer::names::{
    AVOIDABLE, BEST, CAPTURED, FIFO_READ_EXPIRE, FIFO_WRITE_EXPIRE, GREATEST, LATE, LATE_READS,
    LATE_WRITES, NONE, PROVED, READ_MAX, READ_P50, READ_P99, ROWS, SCHED, SETTINGS, UNAVOIDABLE,
    WRITE_MAX, WRITE_P50, WRITE_P99,
};
use answer::{
    Answer, Cell, Column, Layout, Line, Part, Row, Rows, Set, Setting, Settings, Value, Word,
    count_or_none, member, record_columns,
};
use blk_schedulers::Plan;
use blk_schedulers::told::told_settings;
use std::alloc::{AllocError, Global};

/// An expiry of a FIFO list as a setting, in nanoseconds.
fn expiry(name: &'static str, time: u64) -> Setting
    ensures { result ≡ expiry name.now time }
{
    Setting {
        name: Word::new(name),
        set: Set::Number(time),
    }
}

/// Adds the expiries by which a replay goes, where its scheduler has FIFO lists.
fn push_expiries(all: &mut Vec<Setting>, plan: &Plan) -> Result<(), AllocError>
    ensures { OnOk result (all.new.items ≡ all.old.items ++ expiries_of plan.now) }
{
    if plan.sched.kind.has_fifo_lists() {
        all.push(expiry(FIFO_READ_EXPIRE, plan.fifo.read))?;
        all.push(expiry(FIFO_WRITE_EXPIRE, plan.fifo.write))?;
    }
    Ok(())
}

/// The settings of a replay, and its expiries too where they are shown.
fn plan_settings(alloc: Global, expiries: bool, plan: &Plan) -> Result<Vec<Setting>, AllocError>
    ensures { IfOk result (λ all. all.items ≡ plan_settings expiries plan.now) }
{
    let settings = plan.sched.settings();
    let mut told = told_settings(alloc, settings.as_slice())?;
    if expiries {
        push_expiries(&mut told, plan)?;
    }
    Ok(told)
}

/// Who chose an order.
fn chooser_word(chooser: &Chooser) -> Word
    ensures { result ≡ chooser_name chooser.now }
{
    match chooser {
        Chooser::Machine => Word::new(CAPTURED),
        Chooser::Replay(plan) => Word::new(plan.sched.name()),
    }
}

/// By which settings it was chosen.
fn settings_value(alloc: Global, expiries: bool, chooser: &Chooser) -> Result<Value, AllocError>
    ensures { IfOk result (λ value. value ≡ Value.Settings (chooser_settings expiries chooser.now)) }
{
    match chooser {
        Chooser::Machine => Ok(Value::Settings(Settings::new(Vec::new(alloc)))),
        Chooser::Replay(plan) => {
            let told = plan_settings(alloc, expiries, plan)?;
            Ok(Value::Settings(Settings::new(told)))
        }
    }
}

/// A row.
#[tactic(auto, unfolding(crate::specs::Answers::replay_row))]
fn replay_row(alloc: Global, expiries: bool, row: &ReplayRow) -> Result<Row, AllocError>
    ensures { IfOk result (λ told. told ≡ replay_row expiries row.now) }
{
    let clock = &row.clock;
    let values = Vec::from_array(
        alloc,
        [
            Value::Text(chooser_word(&row.chooser)),
            settings_value(alloc, expiries, &row.chooser)?,
            Value::Count(row.late),
            Value::Count(clock.late_reads),
            Value::Count(clock.late_writes),
            Value::Count(row.unavoidable),
            Value::Count(row.avoidable),
            Value::Count(clock.greatest),
            count_or_none(clock.reads.p50),
            count_or_none(clock.reads.p99),
            count_or_none(clock.reads.max),
            count_or_none(clock.writes.p50),
            count_or_none(clock.writes.p99),
            count_or_none(clock.writes.max),
        ],
    )?;
    Ok(Row::new(values))
}

/// Adds rows.
fn push_rows(
    all: &mut Vec<Row>,
    alloc: Global,
    expiries: bool,
    rows: &[ReplayRow],
) -> Result<(), AllocError>
    ensures { OnOk result (all.new.items ≡ all.old.items ++ map (λ r. replay_row expiries r) rows.now) }
{
    for row in rows {
        all.push(replay_row(alloc, expiries, row)?)?;
    }
    Ok(())
}

/// The rows that are shown: all, or so many of them.
fn best_replays(top: Option<u64>, rows: &[ReplayRow]) -> &[ReplayRow]
    ensures { result.now ≡ best_replays top rows.now }
{
    match top {
        None => rows,
        Some(top) => {
            if top < rows.len() as u64 {
                &rows[..top as usize]
            } else {
                rows
            }
        }
    }
}

/// What the rows have.
fn replay_columns(alloc: Global) -> Result<Vec<Column>, AllocError>
    ensures { IfOk result (λ columns. columns.items ≡ replay_columns) }
{
    let names = [
        SCHED,
        SETTINGS,
        LATE,
        LATE_READS,
        LATE_WRITES,
        UNAVOIDABLE,
        AVOIDABLE,
        GREATEST,
        READ_P50,
        READ_P99,
        READ_MAX,
        WRITE_P50,
        WRITE_P99,
        WRITE_MAX,
    ];
    record_columns(alloc, &names)
}

/// The rows: that of the capture, and the best of the replays.
fn rows_part(
    alloc: Global,
    expiries: bool,
    top: Option<u64>,
    replays: &Replays,
) -> Result<Part, AllocError>
    ensures { IfOk result (λ part. part ≡ replay_rows expiries top replays.now.captured replays.now.replayed.items) }
{
    let columns = replay_columns(alloc)?;
    let mut rows = vec![in alloc; replay_row(alloc, expiries, &replays.captured)?]?;
    push_rows(
        &mut rows,
        alloc,
        expiries,
        best_replays(top, replays.replayed.as_slice()),
    )?;
    Ok(Part::Rows(Rows::new(ROWS, columns, true, rows)))
}

/// Whether no order has fewer late than a row has.
fn is_least(row: &ReplayRow) -> bool
    ensures { result ≡ is_least row.now }
{
    row.requests > 0 && row.avoidable == 0
}

/// That it is so, where it is.
fn proof_told(row: &ReplayRow) -> Value
    ensures { result ≡ proof_told row.now }
{
    if is_least(row) {
        Value::Remark(Word::new("no order has fewer"))
    } else {
        Value::Nothing(Word::new(""))
    }
}

/// A line that says what is proved, where something is.
fn proved_line(alloc: Global, told: Value, end: &'static str) -> Result<Part, AllocError>
    ensures { IfOk result (λ part. part ≡ told_line told end.now) }
{
    let cell = Cell {
        column: Column::new(Layout::Plain, PROVED),
        value: told,
    };
    let cells = vec![in alloc; cell]?;
    Ok(Part::Line(Line::new(cells, end)))
}

/// Which scheduler of which settings a row is of, as the best.
fn best_told(alloc: Global, expiries: bool, row: &ReplayRow) -> Result<Part, AllocError>
    ensures { IfOk result (λ part. part ≡ best_told expiries row.now) }
{
    let sched = Cell {
        column: Column::new(Layout::OtherName(Word::new(BEST)), SCHED),
        value: Value::Text(chooser_word(&row.chooser)),
    };
    let settings = Cell {
        column: Column::new(Layout::Space, SETTINGS),
        value: settings_value(alloc, expiries, &row.chooser)?,
    };
    let mut cells = vec![in alloc; sched]?;
    cells.push(settings)?;
    Ok(Part::Object(Word::new(BEST), Line::new(cells, "")))
}

/// Adds which row is the best.
fn add_best_row(
    answer: &mut Answer,
    alloc: Global,
    expiries: bool,
    row: &ReplayRow,
) -> Result<(), AllocError>
    ensures { OnOk result (answer.new ≡ answer.old ++ best_of_row expiries row.now) }
{
    let best = best_told(alloc, expiries, row)?;
    let proved = proved_line(alloc, proof_told(row), "\n")?;
    answer.add(best)?;
    answer.add(proved)
}

/// Adds that there is none.
fn add_best_of_none(answer: &mut Answer, alloc: Global) -> Result<(), AllocError>
    ensures { OnOk result (answer.new ≡ answer.old ++ best_of_none) }
{
    let proved = proved_line(alloc, Value::Nothing(Word::new("")), "")?;
    answer.add(member(BEST, Value::Nothing(Word::new(NONE))))?;
    answer.add(proved)
}

/// Adds the best of the rows, the first one.
fn add_best(
    answer: &mut Answer,
    alloc: Global,
    expiries: bool,
    rows: &[ReplayRow],
) -> Result<(), AllocError>
    ensures { OnOk result (answer.new ≡ answer.old ++ best_of_rows expiries rows.now) }
{
    match rows.first() {
        None => add_best_of_none(answer, alloc),
        Some(row) => add_best_row(answer, alloc, expiries, row),
    }
}

/// What is said of replays: the rows `rows`, first that of the capture, `captured`, and then those of the replays as they stand, at most `top`
/// of these; each with `sched` and `settings`, how many requests were `late`, of them `late_reads` and `late_writes`, how many had to be,
/// `unavoidable`, and how many hadn't, `avoidable`, by how much the latest was late, `greatest` (ns, 0 where none was), and the percentiles of the
/// waits from their entry to their dispatch, `read_p50` and so on (ns, `none` where there are none); then `best`, the first of the replays, and in
/// `proved` that no order has fewer late, where it is so. With `expiries` the settings have those of FIFO lists too (`fifo_read_expire`,
/// `fifo_write_expire`, ns), where the scheduler has such lists. Fails only when out of memory.
pub fn replays_answer(
    alloc: Global,
    expiries: bool,
    top: Option<u64>,
    replays: &Replays,
) -> Result<Answer, AllocError>
    ensures { IfOk result (λ answer. answer ≡ replays_parts expiries top replays.now.captured replays.now.replayed.items) }
{
    let mut answer = Answer::new(alloc);
    answer.add(rows_part(alloc, expiries, top, replays)?)?;
    add_best(&mut answer, alloc, expiries, replays.replayed.as_slice())?;
    Ok(answer)
}
