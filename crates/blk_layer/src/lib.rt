//! A block layer that threads share: submitters flush their plugs into software queues, and workers drain these into the
//! core, issue commands under tags and report them done.
//!
//! After blk-mq of Linux: a software queue for each submitter (`struct blk_mq_ctx`), hardware queues that drain those mapped to
//! them, and driver tags. The core, a scheduler beside its trace, lies under one lock, each software queue under a lock of
//! its own. Tags are taken and given back by atomic steps: by single calls outside of the core's lock, by [`Layer::work`] under it,
//! since that is faster, so that they gain a load nothing. What each seat had accepted is in its account.
#![tactic(auto)]

mod accounts;
mod batch;
mod checking;
mod closing;
mod layer;
mod locked;
mod seats;
mod serving;
mod submitting;

pub use crate::batch::MAX_BATCH;
pub use crate::closing::{CloseFault, CloseRefused, Closed};
pub use crate::layer::{Layer, LayerFault, MAX_WORKERS, Named};
pub use crate::seats::{Submitter, Worker};
pub use crate::serving::{
    After, Device, Issued, LayerIssueFault, Passed, Ran, WorkFault, Worked, after_pass,
};
pub use crate::submitting::{DrainFault, FlushFault, FlushReason, Flushed, MAX_MOVES};
