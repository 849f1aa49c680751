//! What is said of a trial, as an answer.

ghost use Rattle.std.specs.Prelude.{◌≡◌, ◌++◌, IfOk, OnOk, map};
ghost use Rattle.blk_schedulers.specs.Scheds.{settings_of};
ghost use Rattle.blk_tune.specs.Answers.{settings_value, trial_row, is_proved, proved_words, proved_value, proved_line, best_cells, best_parts, shown, trial_parts};

use crate::row::TrialRow;
use answer::names::{
    AVOIDABLE, BEST, COMMANDS, GREATEST, LATE, LEAST, NONE_SERVED, PROVED, ROWS, SCHED, SETTINGS,
    SHORTFALL, UNAVOIDABLE, WAIT_READ, WAIT_WRITE, WAITING,
};
use answer::{
    Answer, Cell, Layout, Line, Part, Row, Rows, Settings, Value, Word, member, record_columns,
    signed_or_none,
};
use blk_schedulers::told::told_settings;
use blk_schedulers::{RankBy, Sched};
use std::alloc::{AllocError, Global};

/// The settings of a scheduler, by the names that the command line has for them.
fn settings_value(alloc: Global, sched: Sched) -> Result<Value, AllocError>
    ensures { IfOk result (λ value. value ≡ settings_value sched) }
{
    let settings = sched.settings();
    let all = told_settings(alloc, settings.as_slice())?;
    Ok(Value::Settings(Settings::new(all)))
}

/// A row of a trial.
#[tactic(auto, unfolding(crate::specs::Answers::trial_row))]
fn trial_row(alloc: Global, row: &TrialRow) -> Result<Row, AllocError>
    ensures { IfOk result (λ told. told ≡ trial_row row.now) }
{
    let settings = settings_value(alloc, row.sched)?;
    let values = Vec::from_array(
        alloc,
        [
            Value::Text(Word::new(row.sched.name())),
            settings,
            Value::Count(row.report.commands),
            Value::Count(row.report.waiting),
            signed_or_none(row.report.greatest()),
            signed_or_none(row.report.least()),
            signed_or_none(row.report.shortfall()),
            Value::Count(row.tally.late),
            Value::Count(row.tally.unavoidable),
            Value::Count(row.tally.avoidable),
            signed_or_none(row.wait_read),
            signed_or_none(row.wait_write),
        ],
    )?;
    Ok(Row::new(values))
}

/// The rows of a trial.
fn trial_rows(alloc: Global, rows: &[TrialRow]) -> Result<Vec<Row>, AllocError>
    ensures { IfOk result (λ all. all.items ≡ map (λ r. trial_row r) rows.now) }
{
    let mut all = Vec::new(alloc);
    for row in rows {
        all.push(trial_row(alloc, row)?)?;
    }
    Ok(all)
}

/// Whether no schedule of a row's commands is better.
fn is_proved(by: RankBy, row: &TrialRow) -> bool
    ensures { result ≡ is_proved by row.now }
{
    match by {
        RankBy::Misses => row.tally.commands > 0 && row.tally.avoidable == 0,
        RankBy::Lateness => match row.report.shortfall() {
            Some(lost) => lost == 0,
            None => false,
        },
    }
}

/// How that is said.
fn proved_words(by: RankBy) -> &'static str
    ensures { result.now ≡ proved_words by }
{
    match by {
        RankBy::Misses => "no schedule misses fewer",
        RankBy::Lateness => "no schedule is less late",
    }
}

/// What is proved of a row, or nothing.
fn proved_value(by: RankBy, row: &TrialRow) -> Value
    ensures { result ≡ proved_value by row.now }
{
    if is_proved(by, row) {
        Value::Remark(Word::new(proved_words(by)))
    } else {
        Value::Nothing(Word::new(""))
    }
}

/// The scheduler of the best row and its settings.
fn best_cells(alloc: Global, row: &TrialRow) -> Result<Vec<Cell>, AllocError>
    ensures { IfOk result (λ cells. cells.items ≡ best_cells row.now) }
{
    let settings = settings_value(alloc, row.sched)?;
    let name = Value::Text(Word::new(row.sched.name()));
    let cells = Vec::from_array(
        alloc,
        [
            Cell::new(Layout::OtherName(Word::new(BEST)), SCHED, name),
            Cell::new(Layout::Space, SETTINGS, settings),
        ],
    )?;
    Ok(cells)
}

/// What is proved, and what ends its line.
fn proved_line(alloc: Global, value: Value, end: &'static str) -> Result<Line, AllocError>
    ensures { IfOk result (λ line. line ≡ proved_line value end.now) }
{
    let cells = Vec::from_array(alloc, [Cell::new(Layout::Plain, PROVED, value)])?;
    Ok(Line::new(cells, end))
}

/// Adds the best row, and what is proved of it.
fn add_best(
    answer: &mut Answer,
    alloc: Global,
    by: RankBy,
    rows: &[TrialRow],
) -> Result<(), AllocError>
    ensures { OnOk result (answer.new ≡ answer.old ++ best_parts by rows.now) }
{
    match rows.first() {
        None => {
            let nothing = proved_line(alloc, Value::Nothing(Word::new("")), "")?;
            answer.add(member(BEST, Value::Nothing(Word::new(NONE_SERVED))))?;
            answer.add(Part::Line(nothing))
        }
        Some(row) => {
            let best = Line::new(best_cells(alloc, row)?, "");
            let proved = proved_line(alloc, proved_value(by, row), "\n")?;
            answer.add(Part::Object(Word::new(BEST), best))?;
            answer.add(Part::Line(proved))
        }
    }
}

/// The rows that are shown of those that stand best first: the first `top`, or all where there are fewer, or without it.
fn shown(top: Option<u64>, rows: &[TrialRow]) -> &[TrialRow]
    ensures { result.now ≡ shown top rows.now }
{
    match top {
        None => rows,
        Some(top) => {
            if top < rows.len() as u64 {
                &rows[..top as usize]
            } else {
                rows
            }
        }
    }
}

/// What is said of rows that stand best first: a row for each that is shown, of its scheduler, its settings, how many commands and bios waiting
/// it has, its greatest lateness, the least and the shortfall, how many commands were late, how many of those had to be and how many didn't, and
/// how long 99 of 100 reads and of 100 writes waited at most, in rounds, `none` where there is no such number; then the best one, and whether
/// no schedule of its commands is better. Fails only when out of memory.
pub fn trial_answer(
    alloc: Global,
    by: RankBy,
    top: Option<u64>,
    rows: &[TrialRow],
) -> Result<Answer, AllocError>
    ensures { IfOk result (λ answer. answer ≡ trial_parts by top rows.now) }
{
    let names = [
        SCHED,
        SETTINGS,
        COMMANDS,
        WAITING,
        GREATEST,
        LEAST,
        SHORTFALL,
        LATE,
        UNAVOIDABLE,
        AVOIDABLE,
        WAIT_READ,
        WAIT_WRITE,
    ];
    let columns = record_columns(alloc, &names)?;
    let all = trial_rows(alloc, shown(top, rows))?;
    let mut answer = Answer::new(alloc);
    answer.add(Part::Rows(Rows::new(ROWS, columns, true, all)))?;
    add_best(&mut answer, alloc, by, rows)?;
    Ok(answer)
}
