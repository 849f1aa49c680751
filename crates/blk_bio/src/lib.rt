//! Bios, and the requests that they make up.
//!
//! A bio is one transfer of a range of sectors, as the block layer of Linux is handed it (`struct bio`). Bios of one
//! direction that lie one after the other are merged into a request (`struct request`), which a device gets as one
//! command: a back merge appends, a front merge puts before. The limits of a request are those of Linux's request
//! queue, `max_sectors` and `max_segments`, each bio being one segment. No data is moved here, only ranges are kept.
#![tactic(auto)]

mod bio;
mod extent;
mod limits;
mod list;
mod request;
mod rule;

pub use crate::bio::{Bio, BioFault, BioId, Dir, MAX_END};
pub use crate::extent::Extent;
pub use crate::limits::{
    Limits, LimitsFault, MAX_QUEUES, MAX_SECTORS, MAX_SEGMENTS, MAX_SOFT_DEPTH, MAX_SOFT_QUEUES,
};
pub use crate::request::{JoinFault, Request, Side};
pub use crate::rule::TraceRule;
