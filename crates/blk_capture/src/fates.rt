//! What became of the records of a capture, and how many of each action.

ghost use Rattle.std.specs.Prelude.{◌≡◌, ◌+◌, ◌<◌, ◌^◌, length, count_by};
ghost use Rattle.blk_capture.specs.Fates.{is_of_kind, tally_of, AddsUp};
ghost use Rattle.blk_capture.specs.Inside.Tallies.{tally_with};

use crate::record::{Action, PassReason, Record};

/// What became of a record.
#[derive(Clone, Copy, Debug, PartialEq, Eq)]
pub enum Fate {
    /// It is of the request at this place, or of a bio that went out with it.
    Taken(usize),
    /// It was matched, but its request is not taken.
    LeftOut,
    /// Its request or bio isn't known, mostly because that began before the capture.
    Unmatched,
    /// It was passed over.
    PassedOver(PassReason),
}

/// How many records there are of an action, and what became of them.
#[derive(Clone, Copy, Debug, PartialEq, Eq)]
pub struct ActionTally {
    /// How many records there are.
    pub records: u64,
    /// How many are of requests that are taken, or of their bios.
    pub taken: u64,
    /// How many were matched to requests that are not taken.
    pub left_out: u64,
    /// How many were not matched.
    pub unmatched: u64,
    /// How many were passed over.
    pub passed_over: u64,
}

impl ActionTally {
    /// With one more record.
    fn with(self, fate: Fate) -> ActionTally
        requires few { self.records < 2 ^ 63 }
        requires up { AddsUp self }
        ensures value { result ≡ tally_with self fate }
        ensures up { AddsUp result }
        ensures records { result.records ≡ self.records + 1 }
    {
        let records = self.records + 1;
        match fate {
            Fate::Taken(_) => ActionTally {
                records,
                taken: self.taken + 1,
                ..self
            },
            Fate::LeftOut => ActionTally {
                records,
                left_out: self.left_out + 1,
                ..self
            },
            Fate::Unmatched => ActionTally {
                records,
                unmatched: self.unmatched + 1,
                ..self
            },
            Fate::PassedOver(_) => ActionTally {
                records,
                passed_over: self.passed_over + 1,
                ..self
            },
        }
    }
}

/// How many of the records are of an action, and how many of these are of requests that are taken, left out, unmatched and passed over,
/// which add up to them. `fates` has what became of each record, as [`crate::match_records`] tells it.
pub fn tally_of(records: &[Record], fates: &[Fate], action: Action) -> ActionTally
    requires { length fates.now ≡ length records.now }
    ensures value { result ≡ tally_of action records.now fates.now }
    ensures sum { AddsUp result }
    ensures few { result.records < 2 ^ 63 }
{
    let mut counts = ActionTally {
        records: 0,
        taken: 0,
        left_out: 0,
        unmatched: 0,
        passed_over: 0,
    };
    for (place, fate) in fates.iter().enumerate() {
        if records[place].action.place() == action.place() {
            counts = counts.with(*fate);
        }
    }
    counts
}

/// Whether a record was passed over for a reason.
fn is_of_kind(fate: Fate, kind: PassReason) -> bool
    ensures { result ≡ is_of_kind kind fate }
{
    match fate {
        Fate::PassedOver(found) => found.place() == kind.place(),
        Fate::Taken(_) | Fate::LeftOut | Fate::Unmatched => false,
    }
}

/// How many records were passed over for a reason.
pub fn count_passed(fates: &[Fate], kind: PassReason) -> u64
    ensures { result ≡ count_by (is_of_kind kind) fates.now }
{
    let mut count = 0;
    for fate in fates {
        if is_of_kind(*fate, kind) {
            count += 1;
        }
    }
    count
}
