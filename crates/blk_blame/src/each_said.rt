//! What is said of each late request.

ghost use Rattle.std.specs.Prelude.{ℕ, ◌≡◌, IfOk, OnOk, ◌++◌, ◌∷◌, [], count_by, map, nat_le};
ghost use Rattle.std.specs.List.Sorted.{IsNonDecreasingBy};
ghost use Rattle.blk_capture.specs.Requests.{AreTimed};
ghost use Rattle.blk_capture.specs.Summaries.{back_by};
ghost use Rattle.blk_blame.specs.EachSaid.{dir_value, cause_value, gap_from, gap_until, gap_length, first_number, last_number, gap_flying, spoken, number_spoken, each_columns, each_row, each_part};

use crate::answers::{time_after, time_between, time_of_dispatch};
use crate::each::LateRequest;
use crate::flying::in_flight_from;
use answer::names::{
    ARRIVAL, CAUSE, DIR, FIRST, FROM, FROM_ID, FULL, ID, IN_FLIGHT, LATE, LENGTH, OVERRUN, PID,
    READS, SECTORS, SPARE, STALL, UNTIL, UNTIL_ID, WAIT, WRITES,
};
use answer::{Answer, Column, Part, Row, Rows, Value, Word, record_columns};
use blk_bio::Dir;
use blk_capture::CapturedRequest;
use edd_blame::Cause;
use std::alloc::{AllocError, Global};

/// A direction.
pub(crate) fn dir_value(dir: Dir) -> Value
    ensures { result ≡ dir_value dir }
{
    match dir {
        Dir::Read => Value::Text(Word::new(READS)),
        Dir::Write => Value::Text(Word::new(WRITES)),
    }
}

/// Why a request was late.
fn cause_value(cause: Cause) -> Value
    ensures { result ≡ cause_value cause }
{
    match cause {
        Cause::Arrival => Value::Text(Word::new(ARRIVAL)),
        Cause::Stall => Value::Text(Word::new(STALL)),
        Cause::Spare => Value::Text(Word::new(SPARE)),
        Cause::Full(_) => Value::Text(Word::new(FULL)),
    }
}

/// When one that came in late was due, the dispatch before the time of one that stalled was, or the first of its full window.
fn gap_from(begin: u64, requests: &[CapturedRequest], late: &LateRequest) -> Option<u64>
    ensures { result ≡ gap_from begin requests.now late.now }
{
    match late.cause {
        Cause::Arrival => Some(late.deadline.saturating_sub(begin)),
        Cause::Spare => None,
        Cause::Stall => time_of_dispatch(begin, requests, late.command.due),
        Cause::Full(window) => time_of_dispatch(begin, requests, window.from),
    }
}

/// When its last bio came in, the one after it was, or the last of its window.
fn gap_until(begin: u64, requests: &[CapturedRequest], late: &LateRequest) -> Option<u64>
    ensures { result ≡ gap_until begin requests.now late.now }
{
    match late.cause {
        Cause::Arrival => Some(late.released.saturating_sub(begin)),
        Cause::Spare => None,
        Cause::Stall => time_after(begin, requests, late.command.due),
        Cause::Full(window) => time_of_dispatch(begin, requests, window.due),
    }
}

/// How long it is from the one to the other.
fn gap_length(begin: u64, requests: &[CapturedRequest], late: &LateRequest) -> Option<u64>
    ensures { result ≡ gap_length begin requests.now late.now }
{
    time_between(
        gap_from(begin, requests, late),
        gap_until(begin, requests, late),
    )
}

/// The number of the first dispatch of its full window.
fn first_number(late: &LateRequest) -> Option<u64>
    ensures { result ≡ first_number late.now }
{
    match late.cause {
        Cause::Arrival | Cause::Stall | Cause::Spare => None,
        Cause::Full(window) => Some(window.from),
    }
}

/// The number of the last.
fn last_number(late: &LateRequest) -> Option<u64>
    ensures { result ≡ last_number late.now }
{
    match late.cause {
        Cause::Arrival | Cause::Stall | Cause::Spare => None,
        Cause::Full(window) => Some(window.due),
    }
}

/// How many were at the device when the stall of one that stalled began.
fn gap_flying(requests: &[CapturedRequest], completions: &[u64], late: &LateRequest) -> Option<u64>
    requires timed { AreTimed requests.now }
    requires sorted { IsNonDecreasingBy (λ x. x) completions.now }
    requires counted { (t : ℕ) → count_by (λ x. nat_le x t) completions.now ≡ count_by (back_by t) requests.now }
    ensures { result ≡ gap_flying requests.now late.now }
{
    match late.cause {
        Cause::Arrival | Cause::Spare | Cause::Full(_) => None,
        Cause::Stall => Some(in_flight_from(requests, completions, late.command.due)),
    }
}

/// A time, or nothing.
fn spoken(time: Option<u64>) -> Value
    ensures { result ≡ spoken time }
{
    match time {
        Some(time) => Value::Time(time),
        None => Value::Nothing(Word::new("")),
    }
}

/// A number, or nothing.
fn number_spoken(number: Option<u64>) -> Value
    ensures { result ≡ number_spoken number }
{
    match number {
        Some(number) => Value::Count(number),
        None => Value::Nothing(Word::new("")),
    }
}

/// The columns of late requests.
fn each_columns(alloc: Global) -> Result<Vec<Column>, AllocError>
    ensures { IfOk result (λ columns. columns.items ≡ each_columns) }
{
    record_columns(
        alloc,
        &[
            ID, PID, DIR, FIRST, SECTORS, WAIT, OVERRUN, CAUSE, FROM, UNTIL, LENGTH, FROM_ID,
            UNTIL_ID, IN_FLIGHT,
        ],
    )
}

/// The row of a late request.
fn each_row(
    alloc: Global,
    begin: u64,
    requests: &[CapturedRequest],
    completions: &[u64],
    late: &LateRequest,
) -> Result<Row, AllocError>
    requires timed { AreTimed requests.now }
    requires sorted { IsNonDecreasingBy (λ x. x) completions.now }
    requires counted { (t : ℕ) → count_by (λ x. nat_le x t) completions.now ≡ count_by (back_by t) requests.now }
    ensures { IfOk result (λ row. row ≡ each_row begin requests.now late.now) }
{
    let values = Vec::from_array(
        alloc,
        [
            Value::Count(late.command.id),
            Value::Count(late.pid),
            dir_value(late.dir),
            Value::Count(late.first),
            Value::Count(late.sectors),
            Value::Time(late.wait),
            Value::Time(late.overrun),
            cause_value(late.cause),
            spoken(gap_from(begin, requests, late)),
            spoken(gap_until(begin, requests, late)),
            spoken(gap_length(begin, requests, late)),
            number_spoken(first_number(late)),
            number_spoken(last_number(late)),
            number_spoken(gap_flying(requests, completions, late)),
        ],
    )?;
    Ok(Row::new(values))
}

/// The rows of late requests.
fn each_rows(
    alloc: Global,
    begin: u64,
    requests: &[CapturedRequest],
    completions: &[u64],
    lates: &[LateRequest],
) -> Result<Vec<Row>, AllocError>
    requires timed { AreTimed requests.now }
    requires sorted { IsNonDecreasingBy (λ x. x) completions.now }
    requires counted { (t : ℕ) → count_by (λ x. nat_le x t) completions.now ≡ count_by (back_by t) requests.now }
    ensures { IfOk result (λ rows. rows.items ≡ map (λ l. each_row begin requests.now l) lates.now) }
{
    let mut rows = Vec::new(alloc);
    for late in lates {
        rows.push(each_row(alloc, begin, requests, completions, late)?)?;
    }
    Ok(rows)
}

/// Adds late requests, with times from a beginning on. `completions` are those of [`blk_capture::completions_of`].
pub fn add_each(
    answer: &mut Answer,
    alloc: Global,
    begin: u64,
    requests: &[CapturedRequest],
    completions: &[u64],
    lates: &[LateRequest],
) -> Result<(), AllocError>
    requires timed { AreTimed requests.now }
    requires sorted { IsNonDecreasingBy (λ x. x) completions.now }
    requires counted { (t : ℕ) → count_by (λ x. nat_le x t) completions.now ≡ count_by (back_by t) requests.now }
    ensures { OnOk result (answer.new ≡ answer.old ++ each_part begin requests.now lates.now ∷ []) }
{
    let columns = each_columns(alloc)?;
    let rows = each_rows(alloc, begin, requests, completions, lates)?;
    answer.add(Part::Rows(Rows::new(LATE, columns, true, rows)))
}
