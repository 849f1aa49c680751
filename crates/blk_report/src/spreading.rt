//! How long the commands of a trace waited, and how late they were, by quantiles.

ghost use Rattle.std.specs.Prelude.{◌≡◌, ◌≤◌, IfOk, filter, length, map};
ghost use Rattle.edd_commands.specs.declared.TheConstants.{MAX_COMMANDS};
ghost use Rattle.blk_trace.specs.Setups.{same_dir};
ghost use Rattle.blk_report.specs.Services.{AreWithinLimits};
ghost use Rattle.blk_report.specs.Spread.{wait_of, late_by, at_rank, quantiles_of, IsQuantiles, AreSpreads, quantiles_row, quantiles_columns, quantiles_entries, spread_head, spread_parts};

use crate::serving::Service;
use answer::names::{
    ALL, COUNT, DIR, LATENESS, MAX, P50, P90, P99, P999, READS, WAIT, WHAT, WRITES,
};
use answer::{
    Answer, Column, Entry, Group, Layout, Part, Row, Value, Word, record_columns, signed_or_none,
};
use blk_bio::Dir;
use std::alloc::{AllocError, Allocator, Global};

/// How many numbers there are, and their quantiles by nearest rank, each an element of them: of the n numbers in their order the
/// one at place p n, counted from 1 and rounded up. Without numbers there are none.
#[derive(Clone, Copy, Debug, PartialEq, Eq)]
pub struct Quantiles {
    /// How many numbers there are.
    pub count: u64,
    /// The median: half of the numbers are no greater.
    pub p50: Option<i64>,
    /// 90 of 100 numbers are no greater.
    pub p90: Option<i64>,
    /// 99 of 100 numbers are no greater.
    pub p99: Option<i64>,
    /// 999 of 1000 numbers are no greater.
    pub p999: Option<i64>,
    /// The greatest number.
    pub max: Option<i64>,
}

/// The quantiles of a number that each command has.
#[derive(Clone, Copy, Debug, PartialEq, Eq)]
pub struct ByDir {
    /// Of the reads.
    pub reads: Quantiles,
    /// Of the writes.
    pub writes: Quantiles,
    /// Of both.
    pub all: Quantiles,
}

/// How long commands waited and how late they were, in rounds.
#[derive(Clone, Copy, Debug, PartialEq, Eq)]
pub struct Spreads {
    /// The wait: the round of the Issue less that of the release.
    pub wait: ByDir,
    /// The lateness: the round of the Issue less the due round, below 0 where it was early.
    pub lateness: ByDir,
}

/// The number at the place of a share in thousandths.
fn at_rank(sorted: &[i64], thousandths: usize) -> Option<i64>
    requires few { length sorted.now ≤ MAX_COMMANDS }
    requires part { thousandths ≤ 1000 }
    ensures { result ≡ at_rank thousandths sorted.now }
{
    let rank = (thousandths * sorted.len() + 999) / 1000;
    sorted.get(rank.saturating_sub(1)).copied()
}

/// The quantiles of numbers in their order.
fn of_sorted(sorted: &[i64]) -> Quantiles
    requires { length sorted.now ≤ MAX_COMMANDS }
    ensures { result ≡ quantiles_of sorted.now }
{
    Quantiles {
        count: sorted.len() as u64,
        p50: at_rank(sorted, 500),
        p90: at_rank(sorted, 900),
        p99: at_rank(sorted, 990),
        p999: at_rank(sorted, 999),
        max: at_rank(sorted, 1000),
    }
}

/// The quantiles of numbers, which it puts in order.
fn quantiles_of(values: &mut [i64]) -> Quantiles
    requires { length values.old ≤ MAX_COMMANDS }
    ensures { IsQuantiles values.old result }
{
    values.sort_unstable();
    of_sorted(values)
}

/// The commands of a direction.
fn going<A: Allocator>(
    alloc: A,
    services: &[Service],
    dir: Dir,
) -> Result<Vec<Service, A>, AllocError>
    requires { AreWithinLimits services.now }
    ensures services { IfOk result (λ v. v.items ≡ filter (λ s. same_dir s.dir dir) services.now) }
    ensures timed { IfOk result (λ v. AreWithinLimits v.items) }
{
    services
        .iter()
        .copied()
        .filter(|service| goes(service, dir))
        .collect(alloc)
}

/// Whether a command has the direction.
fn goes(service: &Service, dir: Dir) -> bool
    ensures { result ≡ same_dir service.now.dir dir }
{
    service.dir == dir
}

/// The quantiles of the waits.
fn waits<A: Allocator>(alloc: A, services: &[Service]) -> Result<Quantiles, AllocError>
    requires { AreWithinLimits services.now }
    ensures { IfOk result (IsQuantiles (map wait_of services.now)) }
{
    let mut values = Vec::new(alloc);
    for service in services {
        values.push(service.issue as i64 - service.release as i64)?;
    }
    Ok(quantiles_of(values.as_mut_slice()))
}

/// The quantiles of the latenesses.
fn latenesses<A: Allocator>(alloc: A, services: &[Service]) -> Result<Quantiles, AllocError>
    requires { AreWithinLimits services.now }
    ensures { IfOk result (IsQuantiles (map late_by services.now)) }
{
    let mut values = Vec::new(alloc);
    for service in services {
        values.push(service.issue as i64 - service.due as i64)?;
    }
    Ok(quantiles_of(values.as_mut_slice()))
}

/// How long the commands waited and how late they were: of the reads, of the writes and of both how many there are, and the
/// quantiles by nearest rank, in rounds. The commands are as [`crate::services`] gives them. Fails only when out of memory. The time
/// grows as n log n in the number of commands.
pub fn spread<A: Allocator + Clone>(alloc: A, services: &[Service]) -> Result<Spreads, AllocError>
    requires { AreWithinLimits services.now }
    ensures { IfOk result (AreSpreads services.now) }
{
    let reads = going(alloc.clone()?, services, Dir::Read)?;
    let writes = going(alloc.clone()?, services, Dir::Write)?;
    let wait = ByDir {
        reads: waits(alloc.clone()?, reads.as_slice())?,
        writes: waits(alloc.clone()?, writes.as_slice())?,
        all: waits(alloc.clone()?, services)?,
    };
    let lateness = ByDir {
        reads: latenesses(alloc.clone()?, reads.as_slice())?,
        writes: latenesses(alloc.clone()?, writes.as_slice())?,
        all: latenesses(alloc, services)?,
    };
    Ok(Spreads { wait, lateness })
}

/// The row of some quantiles.
fn quantiles_row(alloc: Global, quantiles: &Quantiles) -> Result<Row, AllocError>
    ensures { IfOk result (λ row. row ≡ quantiles_row quantiles.now) }
{
    let values = Vec::from_array(
        alloc,
        [
            Value::Count(quantiles.count),
            signed_or_none(quantiles.p50),
            signed_or_none(quantiles.p90),
            signed_or_none(quantiles.p99),
            signed_or_none(quantiles.p999),
            signed_or_none(quantiles.max),
        ],
    )?;
    Ok(Row::new(values))
}

/// The columns of quantiles.
fn quantiles_columns(alloc: Global) -> Result<Vec<Column>, AllocError>
    ensures { IfOk result (λ columns. columns.items ≡ quantiles_columns) }
{
    let columns = Vec::from_array(
        alloc,
        [
            Column::new(Layout::Comma, COUNT),
            Column::new(Layout::Comma, P50),
            Column::new(Layout::Comma, P90),
            Column::new(Layout::Comma, P99),
            Column::new(Layout::Comma, P999),
            Column::new(Layout::Comma, MAX),
        ],
    )?;
    Ok(columns)
}

/// The rows of the reads, the writes and both.
fn quantiles_entries(alloc: Global, quantiles: &ByDir) -> Result<Vec<Entry>, AllocError>
    ensures { IfOk result (λ entries. entries.items ≡ quantiles_entries quantiles.now) }
{
    let reads = quantiles_row(alloc, &quantiles.reads)?;
    let writes = quantiles_row(alloc, &quantiles.writes)?;
    let all = quantiles_row(alloc, &quantiles.all)?;
    let entries = Vec::from_array(
        alloc,
        [
            Entry {
                name: Word::new(READS),
                row: reads,
            },
            Entry {
                name: Word::new(WRITES),
                row: writes,
            },
            Entry {
                name: Word::new(ALL),
                row: all,
            },
        ],
    )?;
    Ok(entries)
}

/// The columns of the head line of a spread.
fn spread_head(alloc: Global) -> Result<Vec<Column>, AllocError>
    ensures { IfOk result (λ columns. columns.items ≡ spread_head) }
{
    record_columns(alloc, &[WHAT, DIR, COUNT, P50, P90, P99, P999, MAX])
}

/// What is said of a spread: a row for the waits of the reads, of the writes and of both, and the same three for their latenesses. A quantile of
/// no commands is `none`. Fails only when out of memory.
pub fn spread_answer(alloc: Global, spread: &Spreads) -> Result<Answer, AllocError>
    ensures { IfOk result (λ answer. answer ≡ spread_parts spread.now) }
{
    let waits = quantiles_entries(alloc, &spread.wait)?;
    let wait = Group::new(WAIT, spread_head(alloc)?, quantiles_columns(alloc)?, waits);
    let latenesses = quantiles_entries(alloc, &spread.lateness)?;
    let lateness = Group::new(
        LATENESS,
        Vec::new(alloc),
        quantiles_columns(alloc)?,
        latenesses,
    );
    let mut answer = Answer::new(alloc);
    answer.add(Part::Group(wait))?;
    answer.add(Part::Group(lateness))?;
    Ok(answer)
}
