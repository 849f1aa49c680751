//! Sets and maps of ids that take no memory for what room was made for: lists for ids that count up, as those of a block layer
//! do, and ordered sets for all others, so that no choice of ids makes them slow.
#![tactic(auto)]

mod by_id;
mod id_set;
mod serials;

pub use crate::by_id::ById;
pub use crate::id_set::IdSet;
