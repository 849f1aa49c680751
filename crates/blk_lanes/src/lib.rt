//! Pictures of requests as bars in lanes: when each came in, was due and went out, which were late and why, and when the device stalled or
//! more was wanted of it than it carried.
#![tactic(auto)]

mod bars;
mod draw;
mod facts;
mod intervals;
mod lanes;
mod panel;
mod ruler;
mod shapes;
mod words;

pub use crate::bars::{Bar, Mark, Span, Unit, Way};
pub use crate::draw::drawn;
