//! What is said of processes, or of processors.

ghost use Rattle.std.specs.Prelude.{◌≡◌, IfOk, OnOk, map};
ghost use Rattle.blk_blame.specs.GroupsSaid.{key_name, groups_name, groups_title, group_columns, group_row, with_groups, with_groups_by};

use crate::grouped::GroupedBy;
use crate::groups::Group;
use answer::names::{
    ARRIVALS, CPU, LATE, LEAST, OVERRUN, PID, PROCESSES, PROCESSORS, REQUESTS, SAVABLE, STALLED,
    WAIT_P50, WAIT_P99,
};
use answer::{Answer, Column, Layout, Line, Part, Row, Rows, Value, time_or_none};
use std::alloc::{AllocError, Global};

/// The name of the column of their numbers.
fn key_name(by: GroupedBy) -> &'static str
    ensures { result.now ≡ key_name by }
{
    match by {
        GroupedBy::Process => PID,
        GroupedBy::Processor => CPU,
    }
}

/// What all of them are named.
fn groups_name(by: GroupedBy) -> &'static str
    ensures { result.now ≡ groups_name by }
{
    match by {
        GroupedBy::Process => PROCESSES,
        GroupedBy::Processor => PROCESSORS,
    }
}

/// What stands above them.
fn groups_title(by: GroupedBy) -> &'static str
    ensures { result.now ≡ groups_title by }
{
    match by {
        GroupedBy::Process => {
            "\nprocesses, the most late ones first, waits and the greatest overrun in ms:\n"
        }
        GroupedBy::Processor => {
            "\nprocessors, the most late ones first, waits and the greatest overrun in ms:\n"
        }
    }
}

/// Their columns.
fn group_columns(alloc: Global, by: GroupedBy) -> Result<Vec<Column>, AllocError>
    ensures { IfOk result (λ columns. columns.items ≡ group_columns by) }
{
    let columns = Vec::from_array(
        alloc,
        [
            Column::new(Layout::Right(10), key_name(by)),
            Column::new(Layout::Right(10), REQUESTS),
            Column::new(Layout::Right(8), LATE),
            Column::new(Layout::Right(9), STALLED),
            Column::new(Layout::Right(10), ARRIVALS),
            Column::new(Layout::Right(8), LEAST),
            Column::new(Layout::Right(9), SAVABLE),
            Column::new(Layout::Right(11), WAIT_P50),
            Column::new(Layout::Right(11), WAIT_P99),
            Column::new(Layout::Right(11), OVERRUN),
        ],
    )?;
    Ok(columns)
}

/// The row of one of them.
fn group_row(alloc: Global, group: &Group) -> Result<Row, AllocError>
    ensures { IfOk result (λ row. row ≡ group_row group.now) }
{
    let values = Vec::from_array(
        alloc,
        [
            Value::Count(group.key),
            Value::Count(group.requests),
            Value::Count(group.late),
            Value::Count(group.stalled),
            Value::Count(group.arrivals),
            Value::Count(group.least),
            Value::Count(group.savable),
            time_or_none(group.wait.p50),
            time_or_none(group.wait.p99),
            time_or_none(group.overrun.max),
        ],
    )?;
    Ok(Row::new(values))
}

/// Their rows.
fn group_rows(alloc: Global, groups: &[Group]) -> Result<Vec<Row>, AllocError>
    ensures { IfOk result (λ rows. rows.items ≡ map (λ p. group_row p) groups.now) }
{
    let mut rows = Vec::new(alloc);
    for group in groups {
        rows.push(group_row(alloc, group)?)?;
    }
    Ok(rows)
}

/// Adds processes, or processors.
fn add_groups_by(
    answer: &mut Answer,
    alloc: Global,
    by: GroupedBy,
    groups: &[Group],
) -> Result<(), AllocError>
    ensures { OnOk result (answer.new ≡ with_groups_by by groups.now answer.old) }
{
    let columns = group_columns(alloc, by)?;
    let rows = group_rows(alloc, groups)?;
    let title = Line::new(Vec::new(alloc), groups_title(by));
    answer.add(Part::Line(title))?;
    answer.add(Part::Rows(Rows::new(groups_name(by), columns, true, rows)))?;
    Ok(())
}

/// Adds these, where they are asked for.
pub fn add_groups(
    answer: &mut Answer,
    alloc: Global,
    by: Option<GroupedBy>,
    groups: &[Group],
) -> Result<(), AllocError>
    ensures { OnOk result (answer.new ≡ with_groups by groups.now answer.old) }
{
    match by {
        Some(by) => add_groups_by(answer, alloc, by, groups),
        None => Ok(()),
    }
}
