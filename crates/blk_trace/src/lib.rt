//! What a block layer did, as a list of events that is legal.
#![tactic(auto)]

mod event;
mod issued;
mod known;
pub mod laws;
mod rule;
mod setup;
mod trace;

pub use blk_bio::TraceRule;
pub use event::{Event, MAX_TAGS};
pub use issued::{Issued, Outcome};
pub use known::Entry;
pub use rule::{PushFault, TraceFault};
pub use setup::{MAX_EXPIRIES, Setup, SetupFault};
pub use trace::{MAX_EVENTS, Prepared, Trace};
