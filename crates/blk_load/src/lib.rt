//! A load on a running block layer: submitters and workers in threads of their own, whose accounts are settled once all have ended.
//!
//! As fio loads a block device of Linux, but over a device of no medium, which answers at once: what is measured and settled is
//! the layer.
#![tactic(auto)]

mod counts;
mod device;
mod fault;
pub mod laws;
mod running;
mod serving;
mod site;
mod submitting;
mod under;

pub use crate::fault::LoadFault;
pub use crate::under::OnThreads;
