//! The core of a block layer: a scheduler beside the trace of what was done with it, where one call is one event.
//!
//! Requests are released to a hardware queue, joined or scheduled as Linux's blk-mq does on insertion into an
//! elevator, issued under tags, completed, or requeued when the device is busy, and rounds end by ticks. Every list of
//! calls, the refused ones among them, leaves a legal trace. Time is counted in rounds: a command takes one, and a tag is
//! issued once in a round.
#![tactic(auto)]

mod calls;
pub mod laws;
mod refusals;
mod tags;
mod trying;

pub use crate::calls::{Core, Placed};
pub use crate::refusals::{BackFault, CoreFault, DepthFault, IssueFault, NotIssued, TickFault};
pub use crate::trying::NoneIssued;
