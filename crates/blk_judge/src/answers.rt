//! What is said of a schedule, as answers.

ghost use Rattle.std.specs.Prelude.{◌≡◌, ◌++◌, IfOk, OnOk, map};
ghost use Rattle.blk_judge.specs.Answers.{counts_parts, judged_parts, miss_cause, miss_row, missed_parts};

use crate::{Judged, Miss};
use answer::names::{
    AVOIDABLE, COMMANDS, DUE, FROM, GAP, ID, LATE, LATENESS, RELEASE, ROUND, SPARE, UNAVOIDABLE,
    UNTIL, VERDICT,
};
use answer::{Answer, Part, Row, Rows, Value, Word, member, record_columns};
use edd_figures::Counts;
use edd_figures::answers::{add_crowds, add_figures, from_value, until_value, verdict_value};
use std::alloc::{AllocError, Allocator, Global};

/// Adds counts.
pub(crate) fn add_counts(answer: &mut Answer, counts: Counts) -> Result<(), AllocError>
    ensures { OnOk result (answer.new ≡ answer.old ++ counts_parts counts) }
{
    answer.add(member(COMMANDS, Value::Count(counts.commands)))?;
    answer.add(member(LATE, Value::Count(counts.late)))?;
    answer.add(member(UNAVOIDABLE, Value::Count(counts.unavoidable)))?;
    answer.add(member(AVOIDABLE, Value::Count(counts.avoidable)))?;
    answer.add(member(SPARE, Value::Count(counts.spare)))
}

/// What a judgement says: the members `commands`, `late`, `unavoidable`, `avoidable`, `spare`, `greatest`, `least`, `shortfall`, `window` (two
/// rounds) and `load`, of which the last five are `none` without commands, and the windows that prove how many had to be late. Fails only when
/// out of memory.
pub fn judged_answer<A: Allocator>(alloc: Global, judged: &Judged<A>) -> Result<Answer, AllocError>
    ensures { IfOk result (λ a. a ≡ judged_parts judged.now.misses.counts judged.now.figures judged.now.misses.windows.items) }
{
    let mut answer = Answer::new(alloc);
    add_counts(&mut answer, judged.misses.counts)?;
    add_figures(&mut answer, judged.figures)?;
    add_crowds(&mut answer, alloc, judged.misses.windows.as_slice())?;
    Ok(answer)
}

/// Why a command was late, as far as rounds tell.
fn miss_cause(miss: &Miss) -> Value
    ensures { result ≡ miss_cause miss.now }
{
    if miss.command.release.saturating_sub(miss.command.due) == 1 {
        Value::Text(Word::new(GAP))
    } else {
        verdict_value(miss.verdict)
    }
}

/// The row of a late command.
fn miss_row(alloc: Global, miss: &Miss) -> Result<Row, AllocError>
    ensures { IfOk result (λ row. row ≡ miss_row miss.now) }
{
    let values = Vec::from_array(
        alloc,
        [
            Value::Count(miss.command.id),
            Value::Count(miss.command.release),
            Value::Count(miss.command.due),
            Value::Count(miss.round),
            Value::Count(miss.lateness),
            miss_cause(miss),
            from_value(miss.verdict),
            until_value(miss.verdict),
        ],
    )?;
    Ok(Row::new(values))
}

/// The rows of late commands.
fn miss_rows(alloc: Global, misses: &[Miss]) -> Result<Vec<Row>, AllocError>
    ensures { IfOk result (λ rows. rows.items ≡ map (λ m. miss_row m) misses.now) }
{
    let mut rows = Vec::new(alloc);
    for miss in misses {
        rows.push(miss_row(alloc, miss)?)?;
    }
    Ok(rows)
}

/// What is said of the late commands of a schedule: a row for each, in their order. The verdict is `gap`, `arrival` or `spare` with no window, or
/// `full` with the first and the last round of its window. It is `gap` of a command that is due in the round before its release: rounds don't tell
/// whether a deadline that lies between the two passed before the command came in. Fails only when out of memory.
pub fn missed_answer(alloc: Global, misses: &[Miss]) -> Result<Answer, AllocError>
    ensures { IfOk result (λ answer. answer ≡ missed_parts misses.now) }
{
    let names = [ID, RELEASE, DUE, ROUND, LATENESS, VERDICT, FROM, UNTIL];
    let columns = record_columns(alloc, &names)?;
    let rows = miss_rows(alloc, misses)?;
    let mut answer = Answer::new(alloc);
    answer.add(Part::Rows(Rows::new(LATE, columns, true, rows)))?;
    Ok(answer)
}
