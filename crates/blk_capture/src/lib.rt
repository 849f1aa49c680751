//! What a machine's block layer did, read from a capture and counted in rounds.
//!
//! [`count_rounds`] counts requests of which it is known when they came in, when they were due and when they went to the
//! device, all by the clock. A round is a dispatch that the device took: the dispatches are numbered 1, 2, .. in their order, and a
//! request's round is the number of its own. So a schedule of one command a round is another order of the same dispatches.
#![tactic(auto)]

mod clock;
mod counting;
mod fates;
mod figures;
mod index;
mod lookup;
mod matching;
mod members;
mod opened;
mod part;
mod record;
mod requests;
mod running;
mod summary;
mod table;
mod taken;

pub use counting::{CountedSchedule, TimedRequest, are_served, count_rounds};
pub use fates::{ActionTally, Fate, count_passed, tally_of};
pub use part::part_of;
pub use record::{Action, MAX_TIME, Op, PassReason, Record};
pub use requests::{
    CaptureFault, CapturedBio, CapturedRequest, Entry, Matched, Options, match_records, rounds_of,
};
pub use running::{RunSummary, Running};
pub use summary::{
    MAX_STREAMED, Percentiles, Phase, Summary, completions_of, in_flight_at, summarize,
};
pub use table::{RequestRow, rows_of};
