//! A scheduler of one's own, to read before one writes another.
#![tactic(auto)]

mod lifo;

pub use crate::lifo::Lifo;
