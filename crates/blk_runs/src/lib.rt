//! A script under a scheduler of given settings: the trace that comes of it, or why there is none. Whatever runs scripts, one or many
//! of them, stands on this.
#![tactic(auto)]

mod fault;
mod tracing;

pub use crate::fault::RunFault;
pub use crate::tracing::{traced, unmade};
