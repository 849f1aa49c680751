//! Commands, and how many of them each round carries.
//!
//! Commands are unit jobs with release and due rounds, and a schedule gives each a round on one of as many machines as
//! that round has (Pinedo, Scheduling: identical machines in parallel, unit processing times, release dates and due
//! dates). Rounds are whole numbers below [`MAX_ROUNDS`].
#![tactic(auto)]

ghost use Rattle.std.specs.Prelude.{◌≡◌, ◌*◌, ℕ};
ghost use Rattle.edd_commands.specs.Capacity.{depth_at, carried, fixed};

mod faults;
mod steps;

pub use faults::{Beside, Fault, Told};
pub use steps::{Capacity, CapacityFault, MAX_DEPTH, Step};

/// Every due, scheduled and window round lies below this.
pub const MAX_ROUNDS: u64 = 1 << 41;

/// Every release of a command that a schedule is asked for lies below this. So each command has a round below
/// [`MAX_ROUNDS`] in the schedule, however many wait for one.
pub const MAX_RELEASES: u64 = 1 << 40;

/// The most commands that a schedule is asked for.
pub const MAX_COMMANDS: u64 = 1_000_000;

/// A unit of work: it takes one round, from `release` on, and ought to run by `due`. Pinedo's job with release date
/// r, due date d and processing time 1.
#[derive(Clone, Copy, Debug, PartialEq, Eq, PartialOrd, Ord)]
pub struct Command {
    /// Its name in faults.
    pub id: u64,
    /// The first round in which it may run.
    pub release: u64,
    /// The round by which it ought to run; it may lie before the release.
    pub due: u64,
}

/// Under one depth each round carries that depth, and n rounds carry n times as much.
///
/// A theorem: it does nothing at run time, and a caller has its clauses.
pub fn law_of_one_depth()
    ensures each { (depth x : ℕ) → depth_at (fixed depth) x ≡ depth }
    ensures sum { (depth start n : ℕ) → carried (fixed depth) start n ≡ depth * n }
{}

/// The name of a fault: its variant's, as text. The list has every variant with its payload, in any order, and an arrow gives another
/// text in place of a variant's name:
///
/// ```text
/// variant_name!(self: Why { Title, RepeatedId(_), Bio(fault) => fault.name() })
/// ```
#[macro_export]
macro_rules! variant_name {
    (@ $variant:ident) => { stringify!($variant) };
    (@ $variant:ident $name:expr) => { $name };
    ($fault:ident: $kind:ident { $($variant:ident $(($payload:pat))? $(=> $name:expr)?),* $(,)? }) => {
        match $fault {
            $($kind::$variant $(($payload))? => $crate::variant_name!(@ $variant $($name)?),)*
        }
    };
}
