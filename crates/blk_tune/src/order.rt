//! The rows put in order.

ghost use Rattle.std.specs.Prelude.{OnOk, ◌≡◌};
ghost use Rattle.blk_tune.specs.Order.{AreBestFirst};
ghost use Rattle.blk_tune.specs.Inside.Order.{misses_key, lateness_key};

use crate::row::TrialRow;
use blk_schedulers::RankBy;
use std::alloc::AllocError;

/// What is avoidable in a row, and then what breaks ties.
fn by_misses(row: &TrialRow) -> (u64, Option<i64>, Option<i64>, Option<i64>)
    ensures { result ≡ misses_key row.now }
{
    let avoidable = row.tally.avoidable;
    let shortfall = row.report.shortfall();
    (avoidable, shortfall, row.wait_read, row.wait_write)
}

/// By how much a row falls short, and then what breaks ties.
fn by_lateness(row: &TrialRow) -> (Option<i64>, u64, Option<i64>, Option<i64>)
    ensures { result ≡ lateness_key row.now }
{
    let shortfall = row.report.shortfall();
    let avoidable = row.tally.avoidable;
    (shortfall, avoidable, row.wait_read, row.wait_write)
}

/// Puts rows in order by what is avoidable.
fn sort_by_misses(rows: &mut Vec<TrialRow>) -> Result<(), AllocError>
    ensures { OnOk result (AreBestFirst RankBy.Misses rows.old.items rows.new.items) }
{
    rows.sort_by_key(|row| by_misses(row))?;
    Ok(())
}

/// Puts rows in order by how much they fall short.
fn sort_by_lateness(rows: &mut Vec<TrialRow>) -> Result<(), AllocError>
    ensures { OnOk result (AreBestFirst RankBy.Lateness rows.old.items rows.new.items) }
{
    rows.sort_by_key(|row| by_lateness(row))?;
    Ok(())
}

/// Puts rows in order, the best first; of rows that are as good the one that stands first stays first.
pub fn best_first(by: RankBy, rows: &mut Vec<TrialRow>) -> Result<(), AllocError>
    ensures { OnOk result (AreBestFirst by rows.old.items rows.new.items) }
{
    match by {
        RankBy::Misses => sort_by_misses(rows),
        RankBy::Lateness => sort_by_lateness(rows),
    }
}
