//! What becomes of a machine's requests in replays: how many would have been late under each scheduler, beside how many were and had to be.
#![tactic(auto)]

mod answers;
mod order;
mod replays;
mod row;
mod serving;
mod shown;
mod text;

pub use crate::answers::replays_answer;
pub use crate::replays::{Replays, ReplaysAsked, replay_plans};
pub use crate::row::{Chooser, ReplayRow};
pub use crate::serving::rounds_under;
pub use crate::shown::{replay_schedule_text, replay_table_text};
pub use crate::text::replays_text;
