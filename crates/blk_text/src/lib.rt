//! The text forms of scripts and traces, their readers, and how a trace is written.
#![tactic(auto)]

mod bios;
mod events;
mod groups;
mod heads;
pub mod laws;
pub mod script;
mod setup;
mod tables;
mod trace;

pub use crate::bios::{BIO, MAX_SUBMITTERS};
pub use crate::events::read_trace;
pub use crate::heads::TRACE;
pub use crate::script::{Line, MAX_RUN, MAX_STEPS, Script, push_step, read_script};
pub use crate::setup::{LATEST, MAX_DEPTH_1, MORE_TAGS, SETUP, push_setup};
pub use crate::tables::{event_kinds, step_kinds};
pub use crate::trace::trace_text;
