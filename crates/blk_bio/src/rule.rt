//! The rules of a legal trace of requests, by name; `blk_trace` says where each is broken.

ghost use Rattle.std.specs.Prelude.{◌≡◌};
ghost use Rattle.blk_bio.specs.Names.{rule_name};

use edd_commands::variant_name;
use thiserror::Error;

/// The rule that an event would break, in the order in which the rules are looked for.
#[derive(Clone, Copy, Debug, PartialEq, Eq, Error)]
#[error("{}", self.name())]
pub enum TraceRule {
    /// A Release of an id that was released before.
    ReleasedTwice,
    /// A Join or an Issue of an id that was not released.
    Unknown,
    /// A Join of an id that was issued before, or an Issue of one that was and wasn't requeued.
    AlreadyIssued,
    /// A bio's id that stands in the trace, or earlier in the same request.
    BioTwice,
    /// A Release past the limits, or a Join whose request has another direction, abuts at neither side
    /// or passes the limits.
    Fit,
    /// An Issue under a tag that is not below the depth of the round.
    TagRange,
    /// An Issue under a tag that was issued in this round.
    TagUsed,
    /// A Done or a Back of a tag without an open Issue.
    NotIssued,
    /// A Tick with an open Issue.
    InFlight,
    /// The events, with an end counted for each open Issue, would be more than `MAX_EVENTS`.
    TooLong,
    /// A Depth of 0, or above the setup's.
    DepthRange,
}

impl TraceRule {
    /// Its name, which the program prints.
    pub fn name(self) -> &'static str
        ensures { result.now ≡ rule_name self }
    {
        variant_name!(self: TraceRule {
            ReleasedTwice,
            Unknown,
            AlreadyIssued,
            BioTwice,
            Fit,
            TagRange,
            TagUsed,
            NotIssued,
            InFlight,
            TooLong,
            DepthRange,
        })
    }
}
