//! What is said of stages.

ghost use Rattle.std.specs.Prelude.{◌≡◌, IfOk, OnOk, map};
ghost use Rattle.blk_blame.specs.StagesSaid.{stage_name, stage_columns, stage_cells, with_stages};

use crate::answers::share_or_none;
use crate::each_said::dir_value;
use crate::stages::{Stage, StageRow};
use answer::names::{COUNT, D2C, DIR, G2I, I2D, MAX, P50, P99, Q2C, Q2G, SHARE, STAGE, STAGES};
use answer::{Answer, Column, Layout, Line, Part, Row, Rows, Value, Word, time_or_none};
use std::alloc::{AllocError, Global};

/// The letters of a stage.
fn stage_name(stage: Stage) -> Value
    ensures { result ≡ stage_name stage }
{
    match stage {
        Stage::Tag => Value::Text(Word::new(Q2G)),
        Stage::Plug => Value::Text(Word::new(G2I)),
        Stage::Scheduler => Value::Text(Word::new(I2D)),
        Stage::Device => Value::Text(Word::new(D2C)),
        Stage::Whole => Value::Text(Word::new(Q2C)),
    }
}

/// The columns of stages.
fn stage_columns(alloc: Global) -> Result<Vec<Column>, AllocError>
    ensures { IfOk result (λ columns. columns.items ≡ stage_columns) }
{
    let columns = Vec::from_array(
        alloc,
        [
            Column::new(Layout::Left(6), STAGE),
            Column::new(Layout::Left(4), DIR),
            Column::new(Layout::Right(9), COUNT),
            Column::new(Layout::Right(12), P50),
            Column::new(Layout::Right(12), P99),
            Column::new(Layout::Right(12), MAX),
            Column::new(Layout::Right(8), SHARE),
        ],
    )?;
    Ok(columns)
}

/// The row of a stage.
fn stage_cells(alloc: Global, row: &StageRow) -> Result<Row, AllocError>
    ensures { IfOk result (λ cells. cells ≡ stage_cells row.now) }
{
    let values = Vec::from_array(
        alloc,
        [
            stage_name(row.stage),
            dir_value(row.dir),
            Value::Count(row.times.count),
            time_or_none(row.times.p50),
            time_or_none(row.times.p99),
            time_or_none(row.times.max),
            share_or_none(row.share),
        ],
    )?;
    Ok(Row::new(values))
}

/// The rows of stages.
fn stage_rows(alloc: Global, stages: &[StageRow]) -> Result<Vec<Row>, AllocError>
    ensures { IfOk result (λ rows. rows.items ≡ map (λ s. stage_cells s) stages.now) }
{
    let mut rows = Vec::new(alloc);
    for stage in stages {
        rows.push(stage_cells(alloc, stage)?)?;
    }
    Ok(rows)
}

/// Adds stages.
pub fn add_stages(answer: &mut Answer, alloc: Global, stages: &[StageRow]) -> Result<(), AllocError>
    ensures { OnOk result (answer.new ≡ with_stages stages.now answer.old) }
{
    let columns = stage_columns(alloc)?;
    let rows = stage_rows(alloc, stages)?;
    let title = Line::new(Vec::new(alloc), "\nstages, in ms:\n");
    answer.add(Part::Line(title))?;
    answer.add(Part::Rows(Rows::new(STAGES, columns, true, rows)))?;
    Ok(())
}
