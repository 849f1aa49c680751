//! Requests as a table.

ghost use Rattle.std.specs.Prelude.{◌≡◌, IfOk, map};
ghost use Rattle.answer.specs.Lines.{answer_lines};
ghost use Rattle.blk_capture_text.specs.TableText.{direction_value, known_value, table_row, table_parts, table_lines};

use answer::names::{
    BIOS, COMPLETED, DIR, DISPATCHED, DUE, FIRST, ID, INSERTED, PID, QUEUED, READS, REQUESTS,
    SECTORS, WRITES,
};
use answer::{Answer, Part, Row, Rows, Value, Word, lines, record_columns};
use blk_bio::Dir;
use blk_capture::RequestRow;
use std::alloc::{AllocError, Global};

/// How many requests are an answer at a time, so that a table of a million takes little more memory than its text.
const AT_ONCE: usize = 1024;

/// A direction, as it is told.
fn direction_value(dir: Dir) -> Value
    ensures { result ≡ direction_value dir }
{
    match dir {
        Dir::Read => Value::Text(Word::new(READS)),
        Dir::Write => Value::Text(Word::new(WRITES)),
    }
}

/// A time, or nothing where it isn't known.
fn known_value(time: Option<u64>) -> Value
    ensures { result ≡ known_value time }
{
    match time {
        Some(time) => Value::Count(time),
        None => Value::Nothing(Word::new("")),
    }
}

/// The row of a request.
fn table_row(alloc: Global, row: &RequestRow) -> Result<Row, AllocError>
    ensures { IfOk result (λ told. told ≡ table_row row.now) }
{
    let values = Vec::from_array(
        alloc,
        [
            Value::Count(row.id),
            direction_value(row.dir),
            Value::Count(row.first),
            Value::Count(row.sectors),
            Value::Count(row.bios),
            Value::Count(row.pid),
            Value::Count(row.queued),
            known_value(row.inserted),
            Value::Count(row.dispatched),
            known_value(row.completed),
            Value::Count(row.due),
        ],
    )?;
    Ok(Row::new(values))
}

/// The rows of requests.
fn table_rows(alloc: Global, rows: &[RequestRow]) -> Result<Vec<Row>, AllocError>
    ensures { IfOk result (λ told. told.items ≡ map (λ r. table_row r) rows.now) }
{
    let mut told = Vec::with_capacity(alloc, rows.len())?;
    for row in rows {
        told.push(table_row(alloc, row)?)?;
    }
    Ok(told)
}

/// Requests as an answer, behind a head line or without.
fn table_answer(alloc: Global, head: bool, rows: &[RequestRow]) -> Result<Answer, AllocError>
    ensures { IfOk result (λ answer. answer ≡ table_parts head rows.now) }
{
    let names = [
        ID, DIR, FIRST, SECTORS, BIOS, PID, QUEUED, INSERTED, DISPATCHED, COMPLETED, DUE,
    ];
    let columns = record_columns(alloc, &names)?;
    let rows = table_rows(alloc, rows)?;
    let mut answer = Answer::new(alloc);
    answer.add(Part::Rows(Rows::new(REQUESTS, columns, head, rows)))?;
    Ok(answer)
}

/// The same as lines.
fn part_text(alloc: Global, head: bool, rows: &[RequestRow]) -> Result<Vec<u8>, AllocError>
    ensures { IfOk result (λ text. text.items ≡ answer_lines (table_parts head rows.now)) }
{
    let answer = table_answer(alloc, head, rows)?;
    lines(alloc, &answer)
}

/// Requests as records of comma-separated fields: a head line of the columns' names, and a line for each, in their order. The direction is `R`
/// or `W`, times are in nanoseconds, and one that isn't known is empty. Fails only when out of memory.
pub fn table_text(alloc: Global, rows: &[RequestRow]) -> Result<Vec<u8>, AllocError>
    ensures { IfOk result (λ text. text.items ≡ table_lines rows.now) }
{
    let mut end = rows.len().min(AT_ONCE);
    let mut text = part_text(alloc, true, &rows[..end])?;
    while end < rows.len() {
        let begin = end;
        end += (rows.len() - begin).min(AT_ONCE);
        let more = part_text(alloc, false, &rows[begin..end])?;
        text.extend_from_slice(more.as_slice())?;
    }
    Ok(text)
}
