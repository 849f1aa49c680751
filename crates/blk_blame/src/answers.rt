//! What is said of who was late, and why.

ghost use Rattle.std.specs.Prelude.{ℕ, ◌≡◌, IfOk, OnOk, count_by, map, nat_le};
ghost use Rattle.std.specs.List.Sorted.{IsNonDecreasingBy};
ghost use Rattle.answer.specs.Parts.{cell, clocked};
ghost use Rattle.blk_capture.specs.Requests.{AreTimed};
ghost use Rattle.blk_capture.specs.Summaries.{back_by};
ghost use Rattle.blk_blame.specs.Answers.{shared, time_after, time_of_dispatch, time_between, requests_part, late_part, unavoidable_part, avoidable_part, overrun_part, with_totals, stall_columns, stall_row, with_stalls, window_columns, window_row, with_windows};

use crate::flying::in_flight_from;
use crate::totals::Totals;
use answer::names::{
    ARRIVALS, AVOIDABLE, CARRIES, CROWDED, FROM, IN_FLIGHT, LATE, LATE_READS, LATE_WRITES, LENGTH,
    MAX, NONE, OVERRUN, P50, P99, REQUESTS, SPAN, STALLED, STALLS, UNAVOIDABLE, UNTIL, WAITED,
    WINDOWS,
};
use answer::{Answer, Cell, Column, Layout, Line, Part, Row, Rows, Value, Word, time_or_none};
use blk_capture::{CapturedRequest, Percentiles};
use edd_blame::{Reasons, StallTime};
use edd_figures::{Counts, Crowd};
use std::alloc::{AllocError, Global};

/// A cell.
pub(crate) fn cell(layout: Layout, name: &'static str, value: Value) -> Cell
    ensures { result ≡ cell layout name.now value }
{
    Cell {
        column: Column::new(layout, name),
        value,
    }
}

/// A cell of a number behind words.
pub(crate) fn count_behind(words: &'static str, name: &'static str, count: u64) -> Cell
    ensures { result ≡ cell (Layout.Words words.now) name.now (Value.Count count) }
{
    cell(Layout::Words(Word::new(words)), name, Value::Count(count))
}

/// A cell of a time behind words.
fn time_behind(words: &'static str, name: &'static str, time: Option<u64>) -> Cell
    ensures { result ≡ cell (Layout.Words words.now) name.now (clocked time) }
{
    cell(Layout::Words(Word::new(words)), name, time_or_none(time))
}

/// A cell of a time behind words and its name.
fn time_named(words: &'static str, name: &'static str, time: Option<u64>) -> Cell
    ensures { result ≡ cell (Layout.WordsName words.now) name.now (clocked time) }
{
    cell(
        Layout::WordsName(Word::new(words)),
        name,
        time_or_none(time),
    )
}

/// A share, or `none` where there is none.
pub(crate) fn share_or_none(share: Option<u64>) -> Value
    ensures { result ≡ shared share }
{
    match share {
        Some(share) => Value::Share(share),
        None => Value::Nothing(Word::new(NONE)),
    }
}

/// A cell of a share behind words.
fn share_behind(words: &'static str, name: &'static str, share: Option<u64>) -> Cell
    ensures { result ≡ cell (Layout.Words words.now) name.now (shared share) }
{
    cell(Layout::Words(Word::new(words)), name, share_or_none(share))
}

/// How many requests, how long, and in which share of that at least one waited.
fn requests_part(alloc: Global, totals: &Totals) -> Result<Part, AllocError>
    ensures { IfOk result (λ part. part ≡ requests_part totals.now) }
{
    let cells = Vec::from_array(
        alloc,
        [
            count_behind("", REQUESTS, totals.requests),
            time_behind(" requests in ", SPAN, Some(totals.span)),
            share_behind(" ms, at least one waiting in ", WAITED, totals.waited),
        ],
    )?;
    Ok(Part::Line(Line::new(cells, " % of it\n")))
}

/// How many were late, by direction.
fn late_part(alloc: Global, totals: &Totals, counts: Counts) -> Result<Part, AllocError>
    ensures { IfOk result (λ part. part ≡ late_part totals.now counts) }
{
    let cells = Vec::from_array(
        alloc,
        [
            cell(Layout::Name, LATE, Value::Count(counts.late)),
            count_behind(": reads ", LATE_READS, totals.late_reads),
            count_behind(", writes ", LATE_WRITES, totals.late_writes),
        ],
    )?;
    Ok(Part::Line(Line::new(cells, "\n")))
}

/// How many had to be late, by what made them so.
fn unavoidable_part(alloc: Global, counts: Counts, reasons: Reasons) -> Result<Part, AllocError>
    ensures { IfOk result (λ part. part ≡ unavoidable_part counts reasons) }
{
    let cells = Vec::from_array(
        alloc,
        [
            count_behind("had to be ", UNAVOIDABLE, counts.unavoidable),
            count_behind(": by stall ", STALLED, reasons.stalled),
            count_behind(", by crowding ", CROWDED, reasons.crowded),
            count_behind(", by arrival ", ARRIVALS, reasons.arrivals),
        ],
    )?;
    Ok(Part::Line(Line::new(cells, "\n")))
}

/// How many need not have been late.
fn avoidable_part(alloc: Global, counts: Counts) -> Result<Part, AllocError>
    ensures { IfOk result (λ part. part ≡ avoidable_part counts) }
{
    let cells = Vec::from_array(
        alloc,
        [count_behind("the scheduler's ", AVOIDABLE, counts.avoidable)],
    )?;
    Ok(Part::Line(Line::new(cells, "\n")))
}

/// By how much late ones were late.
fn overrun_part(alloc: Global, overrun: Percentiles) -> Result<Part, AllocError>
    ensures { IfOk result (λ part. part ≡ overrun_part overrun) }
{
    let cells = Vec::from_array(
        alloc,
        [
            time_named("overrun in ms: ", P50, overrun.p50),
            time_named(", ", P99, overrun.p99),
            time_named(", ", MAX, overrun.max),
        ],
    )?;
    Ok(Part::Object(Word::new(OVERRUN), Line::new(cells, "\n")))
}

/// Adds what is said of a capture as a whole.
pub fn add_totals(
    answer: &mut Answer,
    alloc: Global,
    totals: &Totals,
    counts: Counts,
    reasons: Reasons,
) -> Result<(), AllocError>
    ensures { OnOk result (answer.new ≡ with_totals totals.now counts reasons answer.old) }
{
    answer.add(requests_part(alloc, totals)?)?;
    answer.add(late_part(alloc, totals, counts)?)?;
    answer.add(unavoidable_part(alloc, counts, reasons)?)?;
    answer.add(avoidable_part(alloc, counts)?)?;
    answer.add(overrun_part(alloc, totals.overrun)?)
}

/// When the dispatch of a number, counted from 1, was, from a beginning on; before the first there is none.
pub(crate) fn time_of_dispatch(begin: u64, requests: &[CapturedRequest], number: u64) -> Option<u64>
    ensures { result ≡ time_of_dispatch begin requests.now number }
{
    if number == 0 {
        return None;
    }
    time_after(begin, requests, number - 1)
}

/// When the one after so many dispatches was.
pub(crate) fn time_after(begin: u64, requests: &[CapturedRequest], count: u64) -> Option<u64>
    ensures { result ≡ time_after begin requests.now count }
{
    match requests.get(count as usize) {
        Some(request) => Some(request.dispatched.saturating_sub(begin)),
        None => None,
    }
}

/// How long it is between two times, where both are known.
pub(crate) fn time_between(from: Option<u64>, until: Option<u64>) -> Option<u64>
    ensures { result ≡ time_between from until }
{
    match from {
        Some(from) => match until {
            Some(until) => Some(until.saturating_sub(from)),
            None => None,
        },
        None => None,
    }
}

/// The columns of stalls.
fn stall_columns(alloc: Global) -> Result<Vec<Column>, AllocError>
    ensures { IfOk result (λ columns. columns.items ≡ stall_columns) }
{
    let columns = Vec::from_array(
        alloc,
        [
            Column::new(Layout::Right(12), FROM),
            Column::new(Layout::Right(12), UNTIL),
            Column::new(Layout::Right(10), LENGTH),
            Column::new(Layout::Right(10), REQUESTS),
            Column::new(Layout::Right(11), IN_FLIGHT),
        ],
    )?;
    Ok(columns)
}

/// The row of a stall: from the dispatch before it to the next one, and how many were at the device then.
fn stall_row(
    alloc: Global,
    begin: u64,
    requests: &[CapturedRequest],
    completions: &[u64],
    stall: StallTime,
) -> Result<Row, AllocError>
    requires timed { AreTimed requests.now }
    requires sorted { IsNonDecreasingBy (λ x. x) completions.now }
    requires counted { (t : ℕ) → count_by (λ x. nat_le x t) completions.now ≡ count_by (back_by t) requests.now }
    ensures { IfOk result (λ row. row ≡ stall_row begin requests.now stall) }
{
    let from = time_of_dispatch(begin, requests, stall.after);
    let until = time_after(begin, requests, stall.after);
    let values = Vec::from_array(
        alloc,
        [
            time_or_none(from),
            time_or_none(until),
            time_or_none(time_between(from, until)),
            Value::Count(stall.requests),
            Value::Count(in_flight_from(requests, completions, stall.after)),
        ],
    )?;
    Ok(Row::new(values))
}

/// The rows of stalls.
fn stall_rows(
    alloc: Global,
    begin: u64,
    requests: &[CapturedRequest],
    completions: &[u64],
    stalls: &[StallTime],
) -> Result<Vec<Row>, AllocError>
    requires timed { AreTimed requests.now }
    requires sorted { IsNonDecreasingBy (λ x. x) completions.now }
    requires counted { (t : ℕ) → count_by (λ x. nat_le x t) completions.now ≡ count_by (back_by t) requests.now }
    ensures { IfOk result (λ rows. rows.items ≡ map (λ s. stall_row begin requests.now s) stalls.now) }
{
    let mut rows = Vec::new(alloc);
    for stall in stalls {
        rows.push(stall_row(alloc, begin, requests, completions, *stall)?)?;
    }
    Ok(rows)
}

/// Adds stalls, with times from a beginning on. `completions` are those of [`blk_capture::completions_of`].
pub fn add_stalls(
    answer: &mut Answer,
    alloc: Global,
    begin: u64,
    requests: &[CapturedRequest],
    completions: &[u64],
    stalls: &[StallTime],
) -> Result<(), AllocError>
    requires timed { AreTimed requests.now }
    requires sorted { IsNonDecreasingBy (λ x. x) completions.now }
    requires counted { (t : ℕ) → count_by (λ x. nat_le x t) completions.now ≡ count_by (back_by t) requests.now }
    ensures { OnOk result (answer.new ≡ with_stalls begin requests.now stalls.now answer.old) }
{
    let columns = stall_columns(alloc)?;
    let rows = stall_rows(alloc, begin, requests, completions, stalls)?;
    let title = Line::new(
        Vec::new(alloc),
        "\nstalls, in which the device took nothing, the greatest first, in ms:\n",
    );
    answer.add(Part::Line(title))?;
    answer.add(Part::Rows(Rows::new(STALLS, columns, true, rows)))?;
    Ok(())
}

/// The columns of windows.
fn window_columns(alloc: Global) -> Result<Vec<Column>, AllocError>
    ensures { IfOk result (λ columns. columns.items ≡ window_columns) }
{
    let columns = Vec::from_array(
        alloc,
        [
            Column::new(Layout::Right(12), FROM),
            Column::new(Layout::Right(12), UNTIL),
            Column::new(Layout::Right(10), LENGTH),
            Column::new(Layout::Right(10), REQUESTS),
            Column::new(Layout::Right(10), CARRIES),
        ],
    )?;
    Ok(columns)
}

/// The row of a window: from its first dispatch to its last.
fn window_row(
    alloc: Global,
    begin: u64,
    requests: &[CapturedRequest],
    crowd: &Crowd,
) -> Result<Row, AllocError>
    ensures { IfOk result (λ row. row ≡ window_row begin requests.now crowd.now) }
{
    let from = time_of_dispatch(begin, requests, crowd.window.from);
    let until = time_of_dispatch(begin, requests, crowd.window.due);
    let values = Vec::from_array(
        alloc,
        [
            time_or_none(from),
            time_or_none(until),
            time_or_none(time_between(from, until)),
            Value::Count(crowd.commands),
            Value::Count(crowd.carries),
        ],
    )?;
    Ok(Row::new(values))
}

/// The rows of windows.
fn window_rows(
    alloc: Global,
    begin: u64,
    requests: &[CapturedRequest],
    crowds: &[Crowd],
) -> Result<Vec<Row>, AllocError>
    ensures { IfOk result (λ rows. rows.items ≡ map (λ w. window_row begin requests.now w) crowds.now) }
{
    let mut rows = Vec::new(alloc);
    for crowd in crowds {
        rows.push(window_row(alloc, begin, requests, crowd)?)?;
    }
    Ok(rows)
}

/// Adds windows, with times from a beginning on.
pub fn add_windows(
    answer: &mut Answer,
    alloc: Global,
    begin: u64,
    requests: &[CapturedRequest],
    crowds: &[Crowd],
) -> Result<(), AllocError>
    ensures { OnOk result (answer.new ≡ with_windows begin requests.now crowds.now answer.old) }
{
    let columns = window_columns(alloc)?;
    let rows = window_rows(alloc, begin, requests, crowds)?;
    let title = Line::new(
        Vec::new(alloc),
        "\ncrowded windows, with more requests than dispatches, the greatest first, in ms:\n",
    );
    answer.add(Part::Line(title))?;
    answer.add(Part::Rows(Rows::new(WINDOWS, columns, true, rows)))
}
