//! A capture that is put in numbers as it is read: of its records none is kept.

ghost use Rattle.std.specs.Prelude.{◌≡◌, ◌+◌, ◌++◌, ◌∷◌, ◌≤◌, ◌<◌, ◌==◌, [], ℕ, List, cond, min, IfOk, OnOk, length};
ghost use Rattle.blk_capture.specs.declared.record.TheConstants.{MAX_TIME};
ghost use Rattle.blk_capture_text.specs.Streaming.{stream_time, stream_count, stream_options, IsAtWork, HasStreamed, IsStreamed};
ghost use Rattle.blk_capture_text.specs.Inside.Along.{GoBehind};

use crate::counts::RecordCounts;
use crate::importing::ImportAsked;
use crate::numbers::UnusedCounts;
use blk_capture::{MAX_STREAMED, Options, Record, RunSummary, Running, Summary};
use std::alloc::{AllocError, Global};

/// What is known of the records of a capture, one after another: how they are matched, and how many they are.
#[derive(Drop)]
pub struct Streamed {
    running: Running,
    counts: RecordCounts,
    unused: UnusedCounts,
    /// The time of the first one.
    first: u64,
}

/// A capture in numbers, as it was read.
#[derive(Drop)]
pub struct StreamedSummary {
    /// The figures of the requests that are taken, and how many records there are.
    pub summary: Summary,
    /// How many of the other requests weren't merged into others.
    pub left_out: u64,
    /// What became of the records of no known request.
    pub unused: UnusedCounts,
    /// What is asked of the records where something is dubious.
    pub counts: RecordCounts,
}

/// The time of the first record: that of the next one, where there is none yet.
fn first_of(count: u64, first: u64, time: u64) -> u64
    ensures { result ≡ cond (count == 0) time first }
{
    if count == 0 { time } else { first }
}

/// From when requests are taken.
fn begin_from(first: u64, skip: u64) -> u64
    ensures { result ≡ min (first + skip) MAX_TIME }
{
    first.saturating_add(skip)
}

impl Streamed {
    /// No record yet. Fails only when out of memory.
    pub fn new(alloc: Global, options: &Options) -> Result<Streamed, AllocError>
        ensures steady { IfOk result IsAtWork }
        ensures streamed { IfOk result (HasStreamed []) }
        ensures options { IfOk result (λ s. stream_options s ≡ options.now) }
        ensures none { IfOk result (λ s. stream_count s ≡ 0) }
    {
        Ok(Streamed {
            running: Running::new(alloc, options)?,
            counts: RecordCounts::none(),
            unused: UnusedCounts::none(),
            first: 0,
        })
    }

    /// Takes in one record more, which is no earlier than those before it. At most [`blk_capture::MAX_STREAMED`] records. Fails only when out
    /// of memory.
    pub fn take(&mut self, next: &Record) -> Result<(), AllocError>
        requires steady { IsAtWork self.old }
        requires time { stream_time self.old ≤ next.now.time }
        requires few { stream_count self.old < MAX_STREAMED }
        ensures steady { OnOk result (IsAtWork self.new) }
        ensures streamed { (records : List Record) → HasStreamed records self.old → OnOk result (HasStreamed (records ++ next.now ∷ []) self.new) }
        ensures options { OnOk result (stream_options self.new ≡ stream_options self.old) }
        ensures time { OnOk result (stream_time self.new ≡ next.now.time) }
        ensures count { OnOk result (stream_count self.new ≡ stream_count self.old + 1) }
    {
        self.first = first_of(self.counts.records, self.first, next.time);
        self.counts = self.counts.with(next);
        let fate = self.running.take(next)?;
        self.unused.count(fate);
        Ok(())
    }

    /// Takes in records, which go on from those before them. Fails only when out of memory.
    pub fn take_all(&mut self, records: &[Record]) -> Result<(), AllocError>
        requires steady { IsAtWork self.old }
        requires behind { GoBehind records.now self.old }
        requires few { stream_count self.old + length records.now ≤ MAX_STREAMED }
        ensures steady { OnOk result (IsAtWork self.new) }
        ensures streamed { (past : List Record) → HasStreamed past self.old → OnOk result (HasStreamed (past ++ records.now) self.new) }
        ensures options { OnOk result (stream_options self.new ≡ stream_options self.old) }
        ensures count { OnOk result (stream_count self.new ≡ stream_count self.old + length records.now) }
    {
        for record in records {
            self.take(record)?;
        }
        Ok(())
    }

    /// The capture in numbers, of the requests that are asked for. Fails only when out of memory. The time grows as n log n.
    pub fn summary(self, alloc: Global, asked: &ImportAsked) -> Result<StreamedSummary, AllocError>
        requires steady { IsAtWork self }
        requires options { stream_options self ≡ asked.now.options }
        requires streamed { (records : List Record) × HasStreamed records self }
        requires few { stream_count self ≤ MAX_STREAMED }
        ensures { (records : List Record) → HasStreamed records self → IfOk result (IsStreamed records asked.now) }
    {
        let Streamed {
            running,
            counts,
            unused,
            first,
        } = self;
        let begin = begin_from(first, asked.skip);
        let RunSummary { summary, left_out } = running.summary(alloc, begin, asked.first)?;
        Ok(StreamedSummary {
            summary,
            left_out,
            unused,
            counts,
        })
    }
}
