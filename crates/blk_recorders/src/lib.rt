//! What recorders print of a block layer's steps, read line by line as the records of a capture: blkparse, ftrace's blk tracer, perf script
//! and bpftrace.
#![tactic(auto)]

mod detect;
mod device;
mod fault;
pub mod laws;
mod layout;
mod lines;
mod recorder;
mod steps;
mod words;

pub use crate::detect::{CaptureForm, FIRST_LINES, form_of};
pub use crate::device::Device;
pub use crate::fault::{LineFault, LineReason};
pub use crate::recorder::Recorder;
pub use crate::steps::{MAX_STEPS, StepReader, Steps, read_lines};
