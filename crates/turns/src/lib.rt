//! Runs at which threads take turns, and how far they have come.
//!
//! What comes of them is the same for any number of threads.
#![tactic(auto)]

mod progress;
mod walk;

pub use crate::progress::{Progress, ProgressLine, Quiet};
pub use crate::walk::{Stopped, in_turn};
