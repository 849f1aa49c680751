//! Texts in the making, and how they reach a writer.
#![tactic(auto)]

mod block;
mod draft;
mod fault;
mod mark;
mod output;
pub mod pieces;

pub use crate::block::Block;
pub use crate::draft::Draft;
pub use crate::fault::WriteFault;
pub use crate::output::Output;
