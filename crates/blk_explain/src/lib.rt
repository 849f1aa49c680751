//! What a text is, or what is wrong with it, for an author who wrote it by hand.
#![tactic(auto)]

mod broken;
mod counts;
mod details;
mod explaining;
mod fields;
mod findings;
mod flushing;
mod forms;
mod lines;
mod others;
mod printed;
mod refused;
mod telling;
mod titles;
mod wanted;

pub use crate::counts::Tally;
pub use crate::details::Detail;
pub use crate::explaining::{Explained, explain};
pub use crate::fields::Allowed;
pub use crate::findings::Finding;
pub use crate::flushing::{Staged, staged_in};
pub use crate::forms::{TextForm, form_named};
pub use crate::printed::{LinesExplained, explain_lines};
pub use crate::refused::{RefusedStep, StepState, explain_step};
pub use crate::titles::called;
