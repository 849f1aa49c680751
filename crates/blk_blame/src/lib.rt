//! What the late requests of a capture are blamed on: how many were late, how many had to be and by what, and what proves it.
//!
//! The requests are those of a capture, counted in rounds that are its dispatches, and their causes are told by the clock.
#![tactic(auto)]

mod account;
mod answers;
mod blamed;
mod drawing;
mod each;
mod each_said;
mod flying;
mod grouped;
mod groups;
mod groups_said;
mod late_groups;
mod percentiles;
mod stages;
mod stages_said;
mod tightest;
mod tightest_said;
mod top;
mod totals;
mod waited;

pub use crate::account::{Account, account_of};
pub use crate::blamed::{Findings, blame_answer, each_answer, findings_of};
pub use crate::drawing::blame_picture;
pub use crate::each::{LateRequest, lates_of};
pub use crate::grouped::GroupedBy;
pub use crate::groups::{Group, group_of};
pub use crate::late_groups::{LateGroup, late_groups_of};
pub use crate::stages::{Stage, StageRow, stages_of};
pub use crate::tightest::{OnTimeTarget, OtherDirection, tightest_of};
pub use crate::tightest_said::tightest_answer;
pub use crate::totals::{Totals, totals_of};
