//! The arguments of the command line, and what they ask for. It stands on clap and on plain settings alone, so that what the program does
//! and what its arguments are can be proved side by side.
#![tactic(auto)]

pub mod asking;
mod blaming;
mod command;
mod grids;
mod inputs;
pub mod laws;
mod lists;
mod option_names;
mod replaying;
mod source;
mod table;
mod takers;
mod times;
mod words;

pub use crate::blaming::{BlameBy, Blaming, ShownBlame, TightestAsked};
pub use crate::grids::{NoGrid, grid_asked, plans_asked};
pub use crate::inputs::{Running, ShownLoad, Solving, TextJob, TextKind, TraceOutput};
pub use crate::replaying::{GridReplaying, Replaying, ShownReplay};
pub use crate::table::{FiguresAsked, JobKind, MAX_TAGS, MAX_THREADS, MAX_TOP};
pub use crate::takers::{figures_name, takers_text, takes_what_it_reads};
pub use crate::words::{
    CaptureSource, Import, Job, Kept, NoJob, Refusal, Tuning, Written, choose, version,
};
pub use blk_schedulers::Form;
