//! The figures of a legal schedule: how late its latest command is and had to be, how many of its commands are late and how many had
//! to be, and what an answer says of these.
//!
//! The first is the greatest lateness (Lmax of Pinedo, Scheduling) beside the least that a legal schedule of the same commands has;
//! the second the number of tardy jobs beside the fewest. A window of rounds with more commands than they carry proves the one, and
//! disjoint such windows the other.
#![tactic(auto)]

pub mod answers;
mod lateness;
mod missing;

pub use crate::lateness::{Figures, figures_of};
pub use crate::missing::{Counts, Crowd, Misses, misses_of};
