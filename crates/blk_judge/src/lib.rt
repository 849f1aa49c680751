//! Anyone's schedule, judged: whether it is legal, how many of its commands are late and how many of these had to be, how late
//! the latest one is and had to be, and why each late command is late.
//!
//! Commands are unit jobs with release and due rounds on as many machines as a round has (Pinedo, Scheduling: Lmax and the number of
//! tardy jobs). Whoever made the schedule, its judgement is measured against all legal schedules of the same commands.
#![tactic(auto)]

mod answers;
mod drawing;
mod judging;
mod legality;
mod missing;

pub use crate::answers::{judged_answer, missed_answer};
pub use crate::drawing::schedule_picture;
pub use crate::judging::{Judged, judge};
pub use crate::missing::{Miss, late_of};
