//! What each column of a picture stands for.

ghost use Rattle.std.specs.Prelude.{ℕ, ◌≡◌, ◌≤◌, ◌<◌, ◌+◌, ◌==◌, ◌++◌, ◌^◌, [], cond, IfOk, OnOk, length, slice_index_or};
ghost use Rattle.std.specs.List.{cons_option};
ghost use Rattle.blk_trace.specs.Kinds.{is_tick};
ghost use Rattle.blk_trace.specs.declared.trace.TheConstants.{MAX_EVENTS};
ghost use Rattle.blk_trace.specs.Meaning.{greatest};
ghost use Rattle.blk_picture.specs.Boxes.{boxes_of};
ghost use Rattle.blk_picture.specs.Made.{made};
ghost use Rattle.blk_picture.specs.Columns.{is_late, round_in, rounds_in, entry_in, entered_in, in_column, waits_of, peaks_of, rooms_of, column_of};
ghost use Rattle.blk_picture.specs.Inside.Counted.{column_from, CountsOneMore, AreCounts, most_waits, by_column};

use crate::scale::Scale;
use blk_bio::{Dir, Request};
use blk_report::Service;
use blk_trace::{Event, Trace};
use edd_commands::Capacity;
use std::alloc::{AllocError, Global};

/// Which Issues are counted.
#[derive(Clone, Copy)]
pub enum IssueKind {
    /// Reads on time.
    Reads,
    /// Writes on time.
    Writes,
    /// Late ones.
    Lates,
    /// Those that were requeued.
    Backs,
    /// Reads that were not requeued.
    GoneReads,
    /// Writes that were not requeued.
    GoneWrites,
}

/// The numbers of the rounds that a column stands for.
#[derive(Clone, Copy)]
pub struct Column {
    /// Reads on time.
    pub reads: u32,
    /// Writes on time.
    pub writes: u32,
    /// Late ones of both directions.
    pub lates: u32,
    /// Those that were requeued.
    pub backs: u32,
    /// How many commands the rounds carry.
    pub room: u64,
    /// The most reads that waited at the end of a round.
    pub read_waits: u32,
    /// The most writes that waited at the end of a round.
    pub write_waits: u32,
}

/// Whether it was issued after it was due.
pub(crate) fn is_late(issued: &Service) -> bool
    ensures { result ≡ is_late issued.now }
{
    issued.due < issued.issue
}

/// Its round, if it is of the kind.
fn round_in(kind: IssueKind, issued: &Service) -> Option<u64>
    ensures { result ≡ round_in kind issued.now }
{
    let on_time = !issued.back && !is_late(issued);
    let counted = match kind {
        IssueKind::Reads => on_time && issued.dir == Dir::Read,
        IssueKind::Writes => on_time && issued.dir == Dir::Write,
        IssueKind::Lates => !issued.back && is_late(issued),
        IssueKind::Backs => issued.back,
        IssueKind::GoneReads => !issued.back && issued.dir == Dir::Read,
        IssueKind::GoneWrites => !issued.back && issued.dir == Dir::Write,
    };
    if counted { Some(issued.issue) } else { None }
}

/// The rounds of those of the kind.
fn rounds_in(alloc: Global, boxes: &[Service], kind: IssueKind) -> Result<Vec<u64>, AllocError>
    ensures rounds { IfOk result (λ v. v.items ≡ rounds_in kind boxes.now) }
    ensures few { IfOk result (λ v. length v.items ≤ length boxes.now) }
{
    let mut rounds = Vec::new(alloc);
    for issued in boxes {
        push_some(&mut rounds, round_in(kind, issued))?;
    }
    Ok(rounds)
}

/// The round, if a request of the direction enters by the event.
fn entry_in(event: &Event<Request>, round: u64, dir: Dir) -> Option<u64>
    ensures { result ≡ entry_in dir (round, event.now) }
{
    match event.releases() {
        Some((_, request)) => {
            if request.dir() == dir {
                Some(round)
            } else {
                None
            }
        }
        None => None,
    }
}

/// The round after an event.
fn next_round(event: &Event<Request>, round: u64) -> u64
    requires { round < 2 ^ 31 }
    ensures { result ≡ cond (is_tick event.now) (round + 1) round }
{
    if event.is_tick() { round + 1 } else { round }
}

/// Adds a number, if there is one.
fn push_some(numbers: &mut Vec<u64>, number: Option<u64>) -> Result<(), AllocError>
    ensures { OnOk result (numbers.new.items ≡ numbers.old.items ++ cons_option number []) }
{
    match number {
        None => Ok(()),
        Some(number) => match numbers.push(number) {
            Ok(()) => Ok(()),
            Err(_) => Err(AllocError),
        },
    }
}

/// The rounds in which requests of a direction enter.
fn entered(alloc: Global, events: &[Event<Request>], dir: Dir) -> Result<Vec<u64>, AllocError>
    requires { length events.now ≤ MAX_EVENTS }
    ensures rounds { IfOk result (λ v. v.items ≡ entered_in dir events.now) }
    ensures few { IfOk result (λ v. length v.items ≤ length events.now) }
{
    let mut rounds = Vec::new(alloc);
    let mut round = 0;
    for event in events {
        push_some(&mut rounds, entry_in(event, round, dir))?;
        round = next_round(event, round);
    }
    Ok(rounds)
}

/// Counts one more in a column, where there is such a column.
fn count_at(counts: &mut Vec<u32>, column: usize)
    requires { (c : ℕ) → c < length counts.old.items → slice_index_or counts.old.items c 0 < 2 ^ 31 }
    ensures each { length counts.new.items ≡ length counts.old.items }
    ensures counts { CountsOneMore column counts.old.items counts.new.items }
{
    if column < counts.len() {
        counts[column] += 1;
    }
}

/// For each column how many of the rounds stand in it.
fn counts(alloc: Global, rounds: &[u64], per: u32, columns: usize) -> Result<Vec<u32>, AllocError>
    requires few { length rounds.now ≤ MAX_EVENTS }
    requires some { 0 < per }
    ensures each { IfOk result (λ v. length v.items ≡ columns) }
    ensures counts { IfOk result (λ v. AreCounts per columns rounds.now v.items) }
{
    let mut counts = Vec::new(alloc);
    counts.resize(columns, 0)?;
    for round in rounds {
        count_at(&mut counts, (*round / u64::from(per)) as usize);
    }
    Ok(counts)
}

/// How many requests wait at the end of each round, where these entered and those went out.
fn waits(
    alloc: Global,
    entered: &[u64],
    gone: &[u64],
    rounds: usize,
) -> Result<Vec<u32>, AllocError>
    requires entered { length entered.now ≤ MAX_EVENTS }
    requires gone { length gone.now ≤ MAX_EVENTS }
    ensures { IfOk result (λ v. v.items ≡ waits_of entered.now gone.now rounds) }
{
    let came = counts(alloc, entered, 1, rounds)?;
    let went = counts(alloc, gone, 1, rounds)?;
    let mut waits = Vec::new(alloc);
    let mut all_came: u32 = 0;
    let mut all_went: u32 = 0;
    for round in 0..rounds {
        all_came += came[round];
        all_went += went[round];
        waits.push(all_came.saturating_sub(all_went))?;
    }
    Ok(waits)
}

/// The greatest of some numbers, 0 without any.
fn greatest(numbers: &[u32]) -> u32
    ensures { result ≡ greatest numbers.now }
{
    let mut most = 0;
    for number in numbers {
        most = (*number).max(most);
    }
    most
}

/// The greatest of each `per` numbers.
fn peaks(alloc: Global, numbers: &[u32], per: u32, columns: usize) -> Result<Vec<u32>, AllocError>
    ensures { IfOk result (λ v. v.items ≡ peaks_of per columns numbers.now) }
{
    let mut rest = numbers;
    let mut peaks = Vec::new(alloc);
    for column in 0..columns {
        let (some, more) = rest.split_at((per as usize).min(rest.len()));
        peaks.push(greatest(some))?;
        rest = more;
    }
    Ok(peaks)
}

/// How many commands the rounds of each column carry.
fn rooms(alloc: Global, capacity: &Capacity, scale: Scale) -> Result<Vec<u64>, AllocError>
    ensures { IfOk result (λ v. v.items ≡ rooms_of capacity.now scale.per scale.rounds 0 scale.columns) }
{
    let mut rooms = Vec::new(alloc);
    let mut start: u64 = 0;
    for column in 0..scale.columns {
        let stop = (start + u64::from(scale.per)).min(u64::from(scale.rounds));
        rooms.push(capacity.sum(start, stop))?;
        start = stop;
    }
    Ok(rooms)
}

/// How many Issues of the kind each column has.
fn counted(
    alloc: Global,
    boxes: &[Service],
    kind: IssueKind,
    scale: Scale,
) -> Result<Vec<u32>, AllocError>
    requires few { length boxes.now ≤ MAX_EVENTS }
    requires some { 0 < scale.per }
    ensures each { IfOk result (λ v. length v.items ≡ scale.columns) }
    ensures counts { IfOk result (λ v. AreCounts scale.per scale.columns (rounds_in kind boxes.now) v.items) }
{
    let rounds = rounds_in(alloc, boxes, kind)?;
    counts(alloc, rounds.as_slice(), scale.per, scale.columns as usize)
}

/// The most requests of a direction that waited at the end of a round of each column.
fn most_waited(
    alloc: Global,
    trace: &Trace,
    boxes: &[Service],
    kind: IssueKind,
    dir: Dir,
    scale: Scale,
) -> Result<Vec<u32>, AllocError>
    requires few { length boxes.now ≤ MAX_EVENTS }
    ensures { IfOk result (λ v. v.items ≡ most_waits scale dir kind trace.now.events boxes.now) }
{
    // brings the prover the trace's invariant
    let _ = trace.len();
    let entered = entered(alloc, trace.events(), dir)?;
    let gone = rounds_in(alloc, boxes, kind)?;
    let waits = waits(
        alloc,
        entered.as_slice(),
        gone.as_slice(),
        scale.rounds as usize,
    )?;
    peaks(alloc, waits.as_slice(), scale.per, scale.columns as usize)
}

/// The columns with these numbers.
fn joined(
    alloc: Global,
    reads: &[u32],
    writes: &[u32],
    lates: &[u32],
    backs: &[u32],
    rooms: &[u64],
    read_waits: &[u32],
    write_waits: &[u32],
) -> Result<Vec<Column>, AllocError>
    requires writes { length writes.now ≡ length reads.now }
    requires lates { length lates.now ≡ length reads.now }
    requires backs { length backs.now ≡ length reads.now }
    requires rooms { length rooms.now ≡ length reads.now }
    requires read_waits { length read_waits.now ≡ length reads.now }
    requires write_waits { length write_waits.now ≡ length reads.now }
    ensures { IfOk result (λ v. v.items ≡ by_column reads.now writes.now lates.now backs.now rooms.now read_waits.now write_waits.now) }
{
    let mut columns = Vec::new(alloc);
    for column in 0..reads.len() {
        columns.push(Column {
            reads: reads[column],
            writes: writes[column],
            lates: lates[column],
            backs: backs[column],
            room: rooms[column],
            read_waits: read_waits[column],
            write_waits: write_waits[column],
        })?;
    }
    Ok(columns)
}

/// The columns of a trace whose boxes are these.
#[tactic(auto, using(crate::proofs::Counting::peaks_length, crate::proofs::Counting::rooms_length))]
pub(crate) fn columns(
    alloc: Global,
    trace: &Trace,
    boxes: &[Service],
    scale: Scale,
) -> Result<Vec<Column>, AllocError>
    requires boxes { boxes.now ≡ boxes_of trace.now.setup trace.now.events }
    requires few { length boxes.now ≤ MAX_EVENTS }
    requires some { 0 < scale.per }
    ensures { IfOk result (λ v. v.items ≡ made (column_of trace.now.setup trace.now.events scale) scale.columns) }
{
    let reads = counted(alloc, boxes, IssueKind::Reads, scale)?;
    let writes = counted(alloc, boxes, IssueKind::Writes, scale)?;
    let lates = counted(alloc, boxes, IssueKind::Lates, scale)?;
    let backs = counted(alloc, boxes, IssueKind::Backs, scale)?;
    let capacity = trace.capacity()?;
    let rooms = rooms(alloc, &capacity, scale)?;
    let read_waits = most_waited(alloc, trace, boxes, IssueKind::GoneReads, Dir::Read, scale)?;
    let write_waits = most_waited(
        alloc,
        trace,
        boxes,
        IssueKind::GoneWrites,
        Dir::Write,
        scale,
    )?;
    let columns = joined(
        alloc,
        reads.as_slice(),
        writes.as_slice(),
        lates.as_slice(),
        backs.as_slice(),
        rooms.as_slice(),
        read_waits.as_slice(),
        write_waits.as_slice(),
    )?;
    Ok(columns)
}
