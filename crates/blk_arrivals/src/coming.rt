//! Which bios of a capture come in, and from whom.

ghost use Rattle.std.specs.Prelude.{◌≡◌, ◌<◌, ◌≤◌, ◌+◌, ◌↔◌, None, IsTrue, IfOk, IfSome, MatchOption, OnOk};
ghost use Rattle.blk_capture.specs.Passing.{passed_range};
ghost use Rattle.blk_arrivals.specs.Coming.{way_of, begin_of, round_of_time, AreFewSubmitters, ComeInTime, key_of, keys_of, submitters_of, with_key};
ghost use Rattle.blk_arrivals.specs.Inside.Coming.{AreMany, AreKeys, AreSubmitters};

use blk_bio::{Dir, MAX_END, MAX_SOFT_QUEUES};
use blk_capture::{Action, Record};
use blk_text::MAX_RUN;
use std::alloc::{AllocError, Global};

/// What tells submitters apart.
#[derive(Clone, Copy, Debug, PartialEq, Eq)]
pub enum ToldBy {
    /// The process that queued the bio.
    Process,
    /// The processor on which it ran.
    Processor,
}

impl ToldBy {
    /// The key of the submitter of a record.
    pub(crate) fn key_of(self, record: &Record) -> u64
        ensures { result ≡ key_of self record.now }
    {
        match self {
            ToldBy::Process => record.pid,
            ToldBy::Processor => record.cpu,
        }
    }
}

/// Whether a record has sectors, none of them past the last one.
fn has_range(record: &Record) -> bool
    ensures { IsTrue result ↔ ((0 < record.now.sectors) × (record.now.first + record.now.sectors ≤ MAX_END)) }
{
    record.sectors != 0 && record.first <= MAX_END && record.sectors <= MAX_END - record.first
}

/// The direction of the bio that a record brings in, if it brings one in.
pub(crate) fn way_of(record: &Record) -> Option<Dir>
    ensures way { result ≡ way_of record.now }
    ensures range { IfSome result (λ _. (0 < record.now.sectors) × (record.now.first + record.now.sectors ≤ MAX_END)) }
{
    match record.action {
        Action::Queue => {
            if !has_range(record) {
                return None;
            }
            record.op.dir()
        }
        Action::Get
        | Action::BackMerge
        | Action::FrontMerge
        | Action::Insert
        | Action::Issue
        | Action::Complete
        | Action::Requeue
        | Action::Split
        | Action::Plug
        | Action::Unplug
        | Action::Other => None,
    }
}

/// When a capture begins.
pub(crate) fn begin_of(records: &[Record]) -> u64
    ensures { result ≡ begin_of records.now }
{
    match records {
        [first, ..] => first.time,
        [] => 0,
    }
}

/// The round of a record, of rounds of a length from a beginning on.
pub(crate) fn round_of_time(begin: u64, span: u64, record: &Record) -> u64
    requires { 0 < span }
    ensures { result ≡ round_of_time begin span record.now.time }
{
    record.time.saturating_sub(begin) / span
}

/// Whether a record brings in no bio after the last round that a script can have.
fn is_in_time(begin: u64, span: u64, record: &Record) -> bool
    requires { 0 < span }
    ensures { IsTrue result ↔ IfSome (way_of record.now) (λ _. round_of_time begin span record.now.time ≤ MAX_RUN) }
{
    match way_of(record) {
        Some(_) => round_of_time(begin, span, record) <= MAX_RUN,
        None => true,
    }
}

/// Whether no bio comes in after the last round that a script can have.
pub(crate) fn come_in_time(begin: u64, span: u64, records: &[Record]) -> bool
    requires { 0 < span }
    ensures { IsTrue result ↔ ComeInTime begin span records.now }
{
    records.iter().all(|record| is_in_time(begin, span, record))
}

/// Adds the key of a bio, if one comes in, unless it is among them.
fn note(keys: &mut Vec<u64>, way: Option<Dir>, key: u64) -> Result<(), AllocError>
    ensures { OnOk result (keys.new.items ≡ with_key way key keys.old.items) }
{
    if way.is_none() {
        return Ok(());
    }
    if keys.contains(&key) {
        return Ok(());
    }
    keys.push(key)?;
    Ok(())
}

/// The keys of all bios that come in; none where there are too many.
fn keys_of(alloc: Global, told: ToldBy, records: &[Record]) -> Result<Option<Vec<u64>>, AllocError>
    ensures { IfOk result (λ v. MatchOption v (AreMany (keys_of told records.now)) (λ keys. AreKeys told records.now keys.items)) }
{
    let mut keys = Vec::new(alloc);
    for record in records {
        note(&mut keys, way_of(record), told.key_of(record))?;
        if keys.len() as u64 > MAX_SOFT_QUEUES {
            return Ok(None);
        }
    }
    Ok(Some(keys))
}

/// What tells the submitters of a capture apart, and their keys.
#[derive(Drop)]
pub(crate) struct Submitters {
    pub(crate) told: ToldBy,
    pub(crate) keys: Vec<u64>,
}

/// The submitters of a capture: its processes, or, where those are too many, its processors; none where both are.
pub(crate) fn submitters_of(
    alloc: Global,
    records: &[Record],
) -> Result<Option<Submitters>, AllocError>
    ensures { IfOk result (λ v. MatchOption v (¬ AreFewSubmitters (submitters_of records.now)) (AreSubmitters records.now)) }
{
    let told = ToldBy::Process;
    if let Some(keys) = keys_of(alloc, told, records)? {
        return Ok(Some(Submitters { told, keys }));
    }
    let told = ToldBy::Processor;
    match keys_of(alloc, told, records)? {
        Some(keys) => Ok(Some(Submitters { told, keys })),
        None => Ok(None),
    }
}
