//! Why the late requests of a capture were late, and which had to be, by the clock.
//!
//! A capture is a schedule whose rounds are the dispatches that a device took, so that rounds alone can't tell a request that came in
//! after its deadline from one that came in before it while the device took nothing: both are released in the round after their due
//! round. The times of the dispatches can.
#![tactic(auto)]

mod late;
mod part;
mod sum;

pub use late::{Allowance, Cause, causes, law_of_causes};
pub use part::{least_late_at, least_late_beside, least_late_marked, most_saved_at};
pub use sum::{Blame, Reasons, StallTime, blame_of};
