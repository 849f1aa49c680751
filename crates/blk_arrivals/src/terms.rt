//! How a capture becomes a script, and why it doesn't.

ghost use Rattle.std.specs.Prelude.{◌≡◌, ◌<◌, IfOk, IfErr};
ghost use Rattle.edd_commands.specs.Order.{IsFirstFault};
ghost use Rattle.blk_trace.specs.Setups.{IsSetup};
ghost use Rattle.blk_arrivals.specs.Names.{arrivals_told};
ghost use Rattle.blk_arrivals.specs.Scripts.{usual_limits, expiry_rounds, script_setup};
ghost use Rattle.blk_arrivals.specs.Inside.Scripts.{term_rules};

use blk_bio::{Limits, MAX_SEGMENTS};
use blk_queues::MAX_STAGED;
use blk_text::MAX_DEPTH_1;
use blk_trace::{Setup, SetupFault};
use edd_commands::{Fault, Told, told};
use thiserror::Error;

/// The depth where none is asked for: the most tags of a version 1 script.
pub const USUAL_DEPTH: u64 = MAX_DEPTH_1;

/// The most sectors of a request of several bios: Linux's default `max_sectors_kb` of 1,280.
const USUAL_SECTORS: u64 = 2_560;

/// The most bios of a request: Linux's default of segments.
const USUAL_SEGMENTS: u64 = MAX_SEGMENTS;

/// How many requests a software queue has room for: as many as two full plugs.
pub(crate) const USUAL_SOFT_DEPTH: u64 = 2 * MAX_STAGED as u64;

/// How a capture becomes a script.
#[derive(Clone, Copy, Debug, PartialEq, Eq)]
pub struct Terms {
    /// The length of a round, in nanoseconds, at least 1.
    pub round: u64,
    /// How many commands a round carries, 1 to [`edd_commands::MAX_DEPTH`].
    pub depth: u64,
    /// How soon a read is due, in nanoseconds. In rounds, rounded down and at least 1, it lies below [`blk_trace::MAX_EXPIRIES`].
    pub read_expire: u64,
    /// How soon a write is due, likewise.
    pub write_expire: u64,
}

/// Why a capture can't become a script, in the order in which the reasons are looked for.
#[derive(Clone, Copy, Debug, PartialEq, Eq, Error)]
#[error("{}", self.name())]
pub enum ArrivalsFault {
    /// A round has no length.
    Round,
    /// No setup has this depth or, in rounds, these expiries. It is never for the hardware queues, since there is one.
    Setup(SetupFault),
    /// There are more than [`blk_bio::MAX_SOFT_QUEUES`] submitters, by their processes and by the processors too.
    TooMany,
    /// A bio comes in after round [`blk_text::MAX_RUN`]: a trace has no room for that many ticks.
    TraceFull,
    /// There are more than [`blk_text::MAX_STEPS`] steps.
    TooLong,
    /// Memory ran out.
    Memory,
}

impl Fault for ArrivalsFault {
    ghost told = { arrivals_told };

    fn told(&self) -> Told {
        told!(self: ArrivalsFault {
            Round,
            Setup(fault) by fault,
            TooMany,
            TraceFull,
            TooLong,
            Memory => Memory,
        })
    }
}

/// The limits of a request of several bios.
fn usual_limits() -> Limits
    ensures { result ≡ usual_limits }
{
    match Limits::new(USUAL_SECTORS, USUAL_SEGMENTS) {
        Ok(limits) => limits,
        Err(_) => unreachable!(),
    }
}

/// An expiry in rounds of a length.
fn expiry_rounds(expire: u64, span: u64) -> u64
    requires { 0 < span }
    ensures { result ≡ expiry_rounds expire span }
{
    (expire / span).max(1)
}

/// The setup of the script.
pub(crate) fn script_setup(terms: &Terms) -> Result<Setup, ArrivalsFault>
    ensures ok { IfOk result (λ setup. setup ≡ script_setup terms.now) }
    ensures kept { IfOk result (λ _. (0 < terms.now.round) × IsSetup (script_setup terms.now)) }
    ensures err { IfErr result (IsFirstFault (term_rules terms.now)) }
{
    if terms.round == 0 {
        return Err(ArrivalsFault::Round);
    }
    let read = expiry_rounds(terms.read_expire, terms.round);
    let write = expiry_rounds(terms.write_expire, terms.round);
    match Setup::new(terms.depth, 1, read, write, usual_limits()) {
        Ok(setup) => Ok(setup),
        Err(fault) => Err(ArrivalsFault::Setup(fault)),
    }
}
