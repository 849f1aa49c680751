//! What is asked of the records of a capture of which none is kept.

ghost use Rattle.std.specs.Prelude.{◌≡◌, ◌+◌, ◌<◌, ◌≤◌, ◌^◌, List, length};
ghost use Rattle.std.specs.List.{filter_map};
ghost use Rattle.blk_capture.specs.Summaries.{time_in, ArePercentiles};
ghost use Rattle.blk_capture.specs.declared.requests.CapturedRequest.{CapturedRequest};
ghost use Rattle.blk_capture.specs.declared.summary.Phase.TheVariants.{Device};
ghost use Rattle.blk_capture_text.specs.Counts.{no_records, counted_with, records_counted};
ghost use Rattle.blk_capture_text.specs.Doubts.{is_still, lacked_action, has_nothing_whole};

use crate::doubts::{one_if_at, tells_action};
use blk_capture::{Action, Percentiles, Record};

/// What is asked of the records of a capture where something of it may be dubious. It is known of each record after those before it, so that
/// none need be kept.
#[derive(Clone, Copy, Debug, PartialEq, Eq)]
pub struct RecordCounts {
    /// How many there are.
    pub records: u64,
    /// How many have the time of the record before them.
    pub still: u64,
    /// The time of the last one, if there is one.
    pub last: Option<u64>,
    /// Whether some bio was queued.
    pub queues: bool,
    /// Whether some request was opened.
    pub gets: bool,
    /// Whether some went out.
    pub issues: bool,
    /// Whether some was completed.
    pub completes: bool,
}

impl RecordCounts {
    /// Of no records.
    pub fn none() -> RecordCounts
        ensures { result ≡ no_records }
    {
        RecordCounts {
            records: 0,
            still: 0,
            last: None,
            queues: false,
            gets: false,
            issues: false,
            completes: false,
        }
    }

    /// With one record more.
    pub fn with(self, next: &Record) -> RecordCounts
        requires few { self.records < 2 ^ 63 }
        requires still { self.still ≤ self.records }
        ensures value { result ≡ counted_with self next.now }
        ensures still { result.still ≤ result.records }
    {
        RecordCounts {
            records: self.records + 1,
            still: one_if_at(self.still, self.last, next.time),
            last: Some(next.time),
            queues: self.queues || tells_action(next, Action::Queue),
            gets: self.gets || tells_action(next, Action::Get),
            issues: self.issues || tells_action(next, Action::Issue),
            completes: self.completes || tells_action(next, Action::Complete),
        }
    }

    /// Of these records.
    pub fn of(records: &[Record]) -> RecordCounts
        ensures { result ≡ records_counted records.now }
    {
        // brings the prover how many there can be
        let _ = records.len();
        let mut counts = RecordCounts::none();
        for record in records {
            counts = counts.with(record);
        }
        counts
    }

    /// How many records there are.
    pub fn count(&self) -> u64
        ensures { (rs : List Record) → self.now ≡ records_counted rs → result ≡ length rs }
    {
        self.records
    }

    /// Whether times stand still: more than half of the records have the time of the record before them.
    pub fn is_still(&self) -> bool
        ensures { (rs : List Record) → self.now ≡ records_counted rs → result ≡ is_still rs }
    {
        self.still > self.records / 2
    }

    /// The first of the actions queue, get, issue and complete of which there is no record, if one lacks.
    pub fn lacked_action(&self) -> Option<Action>
        ensures { (rs : List Record) → self.now ≡ records_counted rs → result ≡ lacked_action rs }
    {
        if !self.queues {
            Some(Action::Queue)
        } else if !self.gets {
            Some(Action::Get)
        } else if !self.issues {
            Some(Action::Issue)
        } else if !self.completes {
            Some(Action::Complete)
        } else {
            None
        }
    }

    /// Whether there are records, and no request of which it is known when it came in, went out and was completed.
    /// `device` tells how long the requests that are taken were at the device.
    pub fn has_nothing_whole(&self, device: &Percentiles) -> bool
        ensures { (rs : List Record) (qs : List CapturedRequest) → self.now ≡ records_counted rs → ArePercentiles (filter_map (time_in Device) qs) device.now → result ≡ has_nothing_whole rs qs }
    {
        if self.records == 0 {
            return false;
        }
        device.count == 0
    }
}
