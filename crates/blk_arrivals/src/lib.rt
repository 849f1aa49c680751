//! The arrivals of a capture as a script: what came in, to be run under the schedulers of the model.
//!
//! [`script_of`] makes the script, and [`script_text`] its text. Rounds have a fixed length, so the script is good for comparing policies
//! on a shape of load, and says nothing of misses by the clock: for these there is [`blk_capture::rounds_of`].
#![tactic(auto)]

mod builder;
mod coming;
mod effects;
pub mod laws;
mod script;
mod terms;
mod text;

pub use coming::ToldBy;
pub use script::script_of;
pub use terms::{ArrivalsFault, Terms, USUAL_DEPTH};
pub use text::script_text;
