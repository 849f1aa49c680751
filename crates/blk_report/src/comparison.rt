//! Which of several reports is the best.

ghost use Rattle.std.specs.Prelude.{◌≡◌, ◌<◌, IfOk, IfSome, IsNone, ◌↔◌, length};
ghost use Rattle.blk_report.specs.Comparison.{IsFirstBest, HasNoBest};
ghost use Rattle.blk_report.specs.Inside.Best.{better_of};
ghost use Rattle.blk_report.specs.Table.{names_of, table_row, table_rows, table_columns, best_value, IsTable};

use crate::Report;
use answer::names::{
    BEST, COMMANDS, GREATEST, LEAST, NONE_SERVED, SCHED, SCHEDULERS, SHORTFALL, WAITING,
};
use answer::{Answer, Column, Layout, Part, Row, Rows, Value, Word, member, signed_or_none};
use std::alloc::{AllocError, Global};

/// The better of the best so far and the next report, which is at this place and has this greatest lateness: the best so far,
/// unless there is none or the next one is less late.
fn better(best: Option<(usize, i64)>, place: usize, late: Option<i64>) -> Option<(usize, i64)>
    ensures { result ≡ better_of best place late }
{
    match (best, late) {
        (Some((_, least)), Some(late)) if late < least => Some((place, late)),
        (None, Some(late)) => Some((place, late)),
        _ => best,
    }
}

/// The place of the report with the smallest greatest lateness, the first on a tie; there is none exactly where no report has
/// commands. It takes no memory.
pub fn compare(reports: &[Report]) -> Option<usize>
    ensures best { IfSome result (IsFirstBest reports.now) }
    ensures none { IsNone result ↔ HasNoBest reports.now }
{
    let mut best = None;
    for place in 0..reports.len() {
        best = better(best, place, reports[place].greatest());
    }
    match best {
        Some((place, _)) => Some(place),
        None => None,
    }
}

/// The row of a report under a name.
fn table_row(alloc: Global, name: &'static str, report: &Report) -> Result<Row, AllocError>
    ensures { IfOk result (λ row. row ≡ table_row name.now report.now) }
{
    let values = Vec::from_array(
        alloc,
        [
            Value::Text(Word::new(name)),
            Value::Count(report.commands),
            Value::Count(report.waiting),
            signed_or_none(report.greatest()),
            signed_or_none(report.least()),
            signed_or_none(report.shortfall()),
        ],
    )?;
    Ok(Row::new(values))
}

/// The rows of reports, each under its name.
fn table_rows(
    alloc: Global,
    names: &[&'static str],
    reports: &[Report],
) -> Result<Vec<Row>, AllocError>
    requires { length names.now ≡ length reports.now }
    ensures { IfOk result (λ rows. rows.items ≡ table_rows (names_of names.now) reports.now) }
{
    let mut rows = Vec::new(alloc);
    for place in 0..reports.len() {
        rows.push(table_row(alloc, names[place], &reports[place])?)?;
    }
    Ok(rows)
}

/// The columns of a table.
fn table_columns(alloc: Global) -> Result<Vec<Column>, AllocError>
    ensures { IfOk result (λ columns. columns.items ≡ table_columns) }
{
    let columns = Vec::from_array(
        alloc,
        [
            Column::new(Layout::Left(8), SCHED),
            Column::new(Layout::Right(10), COMMANDS),
            Column::new(Layout::Right(10), WAITING),
            Column::new(Layout::Right(10), GREATEST),
            Column::new(Layout::Right(10), LEAST),
            Column::new(Layout::Right(10), SHORTFALL),
        ],
    )?;
    Ok(columns)
}

/// The name of the best.
fn best_value(names: &[&'static str], best: Option<usize>) -> Value
    requires { IfSome best (λ place. place < length names.now) }
    ensures { result ≡ best_value (names_of names.now) best }
{
    match best {
        Some(place) => Value::Text(Word::new(names[place])),
        None => Value::Nothing(Word::new(NONE_SERVED)),
    }
}

/// What is said of some reports, each under its scheduler's name: a row for each of its commands, the waiting bios, the greatest lateness, the
/// least and the shortfall (`none` where there is no number), and the member `best`, the name of the report that [`compare`] picks, or
/// `none-served`. Fails only when out of memory.
pub fn table_answer(
    alloc: Global,
    names: &[&'static str],
    reports: &[Report],
) -> Result<Answer, AllocError>
    requires { length names.now ≡ length reports.now }
    ensures { IfOk result (IsTable (names_of names.now) reports.now) }
{
    let columns = table_columns(alloc)?;
    let rows = table_rows(alloc, names, reports)?;
    let best = best_value(names, compare(reports));
    let mut answer = Answer::new(alloc);
    answer.add(Part::Rows(Rows::new(SCHEDULERS, columns, true, rows)))?;
    answer.add(member(BEST, best))?;
    Ok(answer)
}
