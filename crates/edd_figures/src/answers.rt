//! What figures, counts, windows and verdicts say in an answer.

ghost use Rattle.std.specs.Prelude.{◌≡◌, ◌++◌, ◌∷◌, [], IfOk, OnOk, map};
ghost use Rattle.edd_figures.specs.Answers.{values_parts, figures_parts, crowd_columns, crowd_row, crowds_part, verdict_value, from_value, until_value};

use crate::{Crowd, Figures};
use answer::names::{
    ARRIVAL, CARRIES, COMMANDS, FROM, FULL, GREATEST, LEAST, LOAD, SHORTFALL, SPARE, UNTIL, WINDOW,
    WINDOWS,
};
use answer::{
    Answer, Column, Layout, Part, Row, Rows, Value, Word, count_or_none, member, signed_or_none,
    window_or_none,
};
use edd_verdict::Verdict;
use std::alloc::{AllocError, Global};

/// Adds these values, each `none` where there is none.
fn add_values(
    answer: &mut Answer,
    greatest: Option<i64>,
    least: Option<i64>,
    shortfall: Option<i64>,
    window: Option<(u64, u64)>,
    load: Option<u64>,
) -> Result<(), AllocError>
    ensures { OnOk result (answer.new ≡ answer.old ++ values_parts greatest least shortfall window load) }
{
    answer.add(member(GREATEST, signed_or_none(greatest)))?;
    answer.add(member(LEAST, signed_or_none(least)))?;
    answer.add(member(SHORTFALL, signed_or_none(shortfall)))?;
    answer.add(member(WINDOW, window_or_none(window)))?;
    answer.add(member(LOAD, count_or_none(load)))
}

/// Adds the five members of figures: `greatest`, `least`, `shortfall`, `window` and `load`, each `none` where there are no figures.
pub fn add_figures(answer: &mut Answer, figures: Option<Figures>) -> Result<(), AllocError>
    ensures { OnOk result (answer.new ≡ answer.old ++ figures_parts figures) }
{
    match figures {
        Some(figures) => add_values(
            answer,
            Some(figures.greatest),
            Some(figures.least),
            Some(figures.shortfall),
            Some((figures.window.from, figures.window.due)),
            Some(figures.load),
        ),
        None => add_values(answer, None, None, None, None, None),
    }
}

/// The columns of windows.
fn crowd_columns(alloc: Global) -> Result<Vec<Column>, AllocError>
    ensures { IfOk result (λ columns. columns.items ≡ crowd_columns) }
{
    let columns = Vec::from_array(
        alloc,
        [
            Column::new(Layout::OtherName(Word::new(WINDOW)), FROM),
            Column::new(Layout::Space, UNTIL),
            Column::new(Layout::NextName, COMMANDS),
            Column::new(Layout::NextName, CARRIES),
        ],
    )?;
    Ok(columns)
}

/// The row of a window.
fn crowd_row(alloc: Global, crowd: &Crowd) -> Result<Row, AllocError>
    ensures { IfOk result (λ row. row ≡ crowd_row crowd.now) }
{
    let values = Vec::from_array(
        alloc,
        [
            Value::Count(crowd.window.from),
            Value::Count(crowd.window.due),
            Value::Count(crowd.commands),
            Value::Count(crowd.carries),
        ],
    )?;
    Ok(Row::new(values))
}

/// The rows of windows.
fn crowd_rows(alloc: Global, crowds: &[Crowd]) -> Result<Vec<Row>, AllocError>
    ensures { IfOk result (λ rows. rows.items ≡ map (λ c. crowd_row c) crowds.now) }
{
    let mut rows = Vec::new(alloc);
    for crowd in crowds {
        rows.push(crowd_row(alloc, crowd)?)?;
    }
    Ok(rows)
}

/// Adds windows: the first and the last round of each, how many commands lie in it, and how many its rounds carry.
pub fn add_crowds(answer: &mut Answer, alloc: Global, crowds: &[Crowd]) -> Result<(), AllocError>
    ensures { OnOk result (answer.new ≡ answer.old ++ crowds_part crowds.now ∷ []) }
{
    let columns = crowd_columns(alloc)?;
    let rows = crowd_rows(alloc, crowds)?;
    answer.add(Part::Rows(Rows::new(WINDOWS, columns, false, rows)))
}

/// Why a command was late.
pub fn verdict_value(verdict: Verdict) -> Value
    ensures { result ≡ verdict_value verdict }
{
    match verdict {
        Verdict::Arrival => Value::Text(Word::new(ARRIVAL)),
        Verdict::Spare => Value::Text(Word::new(SPARE)),
        Verdict::Full(_) => Value::Text(Word::new(FULL)),
    }
}

/// The first round of its window, or nothing.
pub fn from_value(verdict: Verdict) -> Value
    ensures { result ≡ from_value verdict }
{
    match verdict {
        Verdict::Arrival | Verdict::Spare => Value::Nothing(Word::new("")),
        Verdict::Full(window) => Value::Count(window.from),
    }
}

/// The last round of its window, or nothing.
pub fn until_value(verdict: Verdict) -> Value
    ensures { result ≡ until_value verdict }
{
    match verdict {
        Verdict::Arrival | Verdict::Spare => Value::Nothing(Word::new("")),
        Verdict::Full(window) => Value::Count(window.due),
    }
}
