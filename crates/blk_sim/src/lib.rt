//! The simulation of a script: its steps run one after the other over plugs, software queues and the core, as a bio
//! travels through Linux's blk-mq.
#![tactic(auto)]

pub mod laws;
mod refusal;
mod rounds;
mod simulation;
mod steps;

pub use refusal::{Overflow, SimFault, SimReason};
pub use simulation::{FIRST_STEP, SETUP_RECORD, simulate};
