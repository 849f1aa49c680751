//! Replays put in order.

ghost use Rattle.std.specs.Prelude.{OnOk, ◌≡◌};
ghost use Rattle.blk_replayed.specs.Order.{AreBetterFirst};
ghost use Rattle.blk_replayed.specs.Inside.Order.{late_key, greatest_key, read_p99_key};

use crate::row::ReplayRow;
use blk_schedulers::ReplayBy;
use std::alloc::AllocError;

/// How many were late in a row, and then what breaks ties.
fn by_late(row: &ReplayRow) -> (u64, u64, Option<u64>, Option<u64>)
    ensures { result ≡ late_key row.now }
{
    let clock = row.clock;
    (row.late, clock.greatest, clock.reads.p99, clock.writes.p99)
}

/// How late the latest was in a row, and then what breaks ties.
fn by_lateness(row: &ReplayRow) -> (u64, u64, Option<u64>, Option<u64>)
    ensures { result ≡ greatest_key row.now }
{
    let clock = row.clock;
    (clock.greatest, row.late, clock.reads.p99, clock.writes.p99)
}

/// How long reads waited in a row, and then what breaks ties.
fn by_read_p99(row: &ReplayRow) -> (Option<u64>, u64, u64, Option<u64>)
    ensures { result ≡ read_p99_key row.now }
{
    let clock = row.clock;
    (clock.reads.p99, row.late, clock.greatest, clock.writes.p99)
}

/// Puts rows in order by how many were late.
fn sort_by_late(rows: &mut Vec<ReplayRow>) -> Result<(), AllocError>
    ensures { OnOk result (AreBetterFirst ReplayBy.Late rows.old.items rows.new.items) }
{
    rows.sort_by_key(|row| by_late(row))?;
    Ok(())
}

/// Puts rows in order by how late the latest was.
fn sort_by_lateness(rows: &mut Vec<ReplayRow>) -> Result<(), AllocError>
    ensures { OnOk result (AreBetterFirst ReplayBy.Lateness rows.old.items rows.new.items) }
{
    rows.sort_by_key(|row| by_lateness(row))?;
    Ok(())
}

/// Puts rows in order by how long reads waited.
fn sort_by_read_p99(rows: &mut Vec<ReplayRow>) -> Result<(), AllocError>
    ensures { OnOk result (AreBetterFirst ReplayBy.ReadP99 rows.old.items rows.new.items) }
{
    rows.sort_by_key(|row| by_read_p99(row))?;
    Ok(())
}

/// Puts rows in order, the best first; of rows that are as good the one that stands first stays first.
pub fn better_first(by: ReplayBy, rows: &mut Vec<ReplayRow>) -> Result<(), AllocError>
    ensures { OnOk result (AreBetterFirst by rows.old.items rows.new.items) }
{
    match by {
        ReplayBy::Late => sort_by_late(rows),
        ReplayBy::Lateness => sort_by_lateness(rows),
        ReplayBy::ReadP99 => sort_by_read_p99(rows),
    }
}
