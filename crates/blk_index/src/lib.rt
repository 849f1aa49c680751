//! What schedulers keep waiting requests in, so that the one that a newcomer joins is found by the sectors that it touches.
#![tactic(auto)]

mod edges;
mod entry;
mod ids;
mod index;
mod lane;
mod queues;
mod requests;
mod shapes;
mod sorted;

pub use crate::index::Index;
pub use crate::queues::Queues;
pub use crate::shapes::Place;
pub use crate::sorted::{Due, Key, Sorted};
