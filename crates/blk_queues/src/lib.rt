//! The queues between a submitter and a scheduler: plugs, software queues, the map to hardware queues, and the requests that were
//! requeued from those.
#![tactic(auto)]

mod candidate;
mod hardware;
mod plug;
mod soft;

pub use crate::hardware::{Map, MapFault, RequeueList, RequeueLists};
pub use crate::plug::{Added, MAX_STAGED, Plug, PlugFault};
pub use crate::soft::{MAX_BIOS, SoftQueue};
