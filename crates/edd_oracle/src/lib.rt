//! Schedules unit commands with the least greatest lateness, and shows by a window that it is least.
//!
//! The rule is earliest due date first, of what is released (Pinedo, Scheduling, on minimising Lmax). Jackson's and
//! Horn's rules are the same for one machine: Jackson's where all jobs are there from the beginning, Horn's where they
//! may be interrupted. The case here, unit commands with whole release rounds on identical machines whose number may
//! change from round to round, is proved in this crate.
#![tactic(auto)]

ghost use Rattle.std.specs.Prelude.{◌≡◌, ◌<◌, ◌↔◌, [], length, IfOk, IfErr, IfSome, IsNone, OnOk};
ghost use Rattle.edd_commands.specs.Schedule.{IsLegal, CommandsInRange, RoundsInRange};
ghost use Rattle.edd_check.specs.Window.{WindowInRange};
ghost use Rattle.edd_check.specs.OnTime.{CoverInRange};
ghost use Rattle.edd_oracle.specs.Names.{oracle_told};
ghost use Rattle.edd_oracle.specs.Input.{IsTaken, IsRefusal, HasDistinctIds};
ghost use Rattle.edd_oracle.specs.Priority.{IsEarliestDueFirst};
ghost use Rattle.edd_oracle.specs.OnTime.{IsOnTimeFirst, IsMostOf, HasPassedCover, IsCheckedOnTime};
ghost use Rattle.edd_oracle.specs.Answer.{IsBestAnswer, HasDueFirst, HasLatestWindow, IsChecked};

mod cover;
mod input;
mod queue;
mod window;

pub use cover::Served;
use edd_check::{Window, law_of_covers, law_of_crowded_windows, number_on_time};
use edd_commands::{Capacity, Command, Fault, Told, told};
use std::alloc::{AllocError, Allocator, Global};
use thiserror::Error;

/// Why a list is refused, in the order in which the reasons are looked for.
#[derive(Clone, Copy, Debug, PartialEq, Eq, Error)]
#[error("{}", self.name())]
pub enum OracleFault {
    /// There are more than [`MAX_COMMANDS`](edd_commands::MAX_COMMANDS) commands.
    TooMany,
    /// The id of the first command by place that is released at [`MAX_RELEASES`](edd_commands::MAX_RELEASES) or later or
    /// due at [`MAX_ROUNDS`](edd_commands::MAX_ROUNDS) or later.
    RoundRange(u64),
    /// The id of the first command by place whose id stood before.
    RepeatedId(u64),
    /// Memory ran out.
    Memory,
}

impl Fault for OracleFault {
    ghost told = { oracle_told };

    fn told(&self) -> Told {
        told!(self: OracleFault {
            TooMany,
            RoundRange(id) => Number(id),
            RepeatedId(id) => Number(id),
            Memory => Memory,
        })
    }
}

/// A schedule of least greatest lateness.
#[derive(Debug, Drop)]
pub struct Answer<A: Allocator = Global> {
    /// The round of each command, by place.
    pub rounds: Vec<u64, A>,
    /// The greatest lateness in rounds: a command's round less its due round.
    pub lateness: i64,
    /// A window that proves the lateness least. The commands released at its `from` or later and due at its `due` or sooner are more
    /// than the rounds carry in which all of them would have to run to be less late.
    pub window: Window,
}

/// Schedules the commands, no more of them in a round than it carries, so that the greatest lateness is least.
///
/// Round by round it takes, of the released commands that have no round yet, as many as the round carries with the
/// least due round, on a tie with the least id: earliest due date first (see Pinedo, Scheduling, on minimising Lmax).
/// The window's `due` is the due round of the latest command: of several that are as late, of the one in the earliest round, and
/// of those in one round, of the one of the least id. Its `from` is the earliest round from which every round before that command's
/// is full of commands due by `due`.
///
/// There is no answer exactly where there are no commands. Releases are rounds below [`edd_commands::MAX_RELEASES`] and due rounds
/// below [`edd_commands::MAX_ROUNDS`], as all rounds of the answer are. Refused are, in this order: more than
/// [`edd_commands::MAX_COMMANDS`] commands (`TooMany`), a release or due round out of range (`RoundRange`), an id that stands twice
/// (`RepeatedId`), and running out of memory (`Memory`), which may also come in place of `RepeatedId`.
///
/// The released commands wait in a heap, and rounds in which nothing is released and nothing waits are jumped over. So
/// the time grows as n log n in the number of commands, whatever their rounds.
pub fn solve<A: Allocator + Clone, B: Allocator>(
    alloc: A,
    commands: &[Command],
    capacity: &Capacity<B>,
) -> Result<Option<Answer<A>>, OracleFault>
    ensures taken { OnOk result (IsTaken commands.now) }
    ensures refused { IfErr result (IsRefusal commands.now) }
    ensures none { IfOk result (λ found. IsNone found ↔ (commands.now ≡ [])) }
    ensures best { IfOk result (λ found. IfSome found (IsBestAnswer commands.now capacity.now)) }
    ensures first { IfOk result (λ found. IfSome found (HasDueFirst commands.now capacity.now)) }
    ensures latest { IfOk result (λ found. IfSome found (HasLatestWindow commands.now capacity.now)) }
{
    if let Err(fault) = input::accept(&alloc, commands) {
        return Err(fault);
    }
    match solve_taken(alloc, commands, capacity) {
        Ok(found) => Ok(found),
        Err(_) => Err(OracleFault::Memory),
    }
}

/// Schedules commands that [`solve`] takes, as it does, without looking whether it takes them. Fails only when out of memory.
pub fn solve_taken<A: Allocator + Clone, B: Allocator>(
    alloc: A,
    commands: &[Command],
    capacity: &Capacity<B>,
) -> Result<Option<Answer<A>>, AllocError>
    requires { IsTaken commands.now }
    ensures none { IfOk result (λ found. IsNone found ↔ (commands.now ≡ [])) }
    ensures best { IfOk result (λ found. IfSome found (IsBestAnswer commands.now capacity.now)) }
    ensures first { IfOk result (λ found. IfSome found (HasDueFirst commands.now capacity.now)) }
    ensures latest { IfOk result (λ found. IfSome found (HasLatestWindow commands.now capacity.now)) }
{
    if commands.is_empty() {
        return Ok(None);
    }
    let Ok(alloc_window) = alloc.clone() else {
        return Err(AllocError);
    };
    let Ok(rounds) = queue::schedule(alloc, commands, capacity) else {
        return Err(AllocError);
    };
    let latest = window::latest_window(alloc_window, commands, rounds.as_slice(), capacity);
    let Ok((lateness, window)) = latest else {
        return Err(AllocError);
    };
    law_of_crowded_windows(commands, capacity, lateness, window);
    Ok(Some(Answer {
        rounds,
        lateness,
        window,
    }))
}

/// The separate check may be asked about an answer of [`solve`], and passes it: whatever [`check`](edd_check::check) says of it is Ok,
/// unless memory ran out.
///
/// A theorem: it does nothing at run time, and a caller has its clauses.
pub fn law_of_checks<A: Allocator, B: Allocator>(
    commands: &[Command],
    capacity: &Capacity<A>,
    answer: &Answer<B>,
)
    requires taken { IsTaken commands.now }
    requires best { IsBestAnswer commands.now capacity.now answer.now }
    ensures commands_in { CommandsInRange commands.now }
    ensures rounds_in { RoundsInRange answer.now.rounds.items }
    ensures window_in { WindowInRange answer.now.window }
    ensures passed { IsChecked commands.now capacity.now answer.now }
{
    // brings the prover the invariants of what the clauses speak of
    let _ = (commands.len(), capacity.at(0), answer.lateness);
}

/// A schedule that has as many commands on time as any can.
#[derive(Debug, Drop)]
pub struct MostOnTime<A: Allocator = Global> {
    /// The round of each command, by place.
    pub rounds: Vec<u64, A>,
    /// How many commands run no later than they are due.
    pub on_time: u64,
    /// What shows that no schedule has more on time: windows, `from` to `due`, that don't overlap, by rising rounds. `on_time` is what
    /// their rounds carry, and one for each command released by its due round that lies in none of them.
    pub cover: Vec<Window, A>,
}

/// Schedules the commands, no more of them in a round than it carries, so that as many as possible are on time, each by its due
/// round.
///
/// Round by round it takes of the released commands those with the least due round, on a tie with the least id, and passes
/// over those whose due round is past (Glover, Maximum matching in a convex bipartite graph; Pinedo, Scheduling, on the number
/// of tardy jobs). What is passed over, and what is released after its due round, is served from the round after the last
/// on-time command's on, earliest due date first with ties by id as [`solve`] has it.
///
/// The windows of the cover are those of the commands that are released by their due round and passed over. A window ends
/// with that due round, and begins one past the last round up to there in which fewer commands due by then run than it
/// carries, or in round 0; windows that overlap or touch are one.
///
/// Refused as [`solve`] refuses: more than [`edd_commands::MAX_COMMANDS`] commands (`TooMany`), a release or due round out of
/// range (`RoundRange`), an id that stands twice (`RepeatedId`), and running out of memory (`Memory`), which may also come in place
/// of `RepeatedId`. No command is no fault: then none is on time and there is no window.
///
/// The time grows as n log n in the number of commands, whatever their rounds.
pub fn most_on_time<A: Allocator + Clone, B: Allocator>(
    alloc: A,
    commands: &[Command],
    capacity: &Capacity<B>,
) -> Result<MostOnTime<A>, OracleFault>
    ensures taken { OnOk result (IsTaken commands.now) }
    ensures refused { IfErr result (IsRefusal commands.now) }
    // no legal schedule has more on time, by the cover
    ensures most { IfOk result (IsMostOf commands.now capacity.now) }
    ensures first { IfOk result (λ answer. IsOnTimeFirst commands.now answer.rounds.items capacity.now) }
    ensures cover { IfOk result (HasPassedCover commands.now capacity.now) }
{
    if let Err(fault) = input::accept(&alloc, commands) {
        return Err(fault);
    }
    match most_on_time_taken(alloc, commands, capacity) {
        Ok(answer) => Ok(answer),
        Err(_) => Err(OracleFault::Memory),
    }
}

/// Schedules commands that [`most_on_time`] takes, as it does, without looking whether it takes them. Fails only when out of memory.
pub fn most_on_time_taken<A: Allocator + Clone, B: Allocator>(
    alloc: A,
    commands: &[Command],
    capacity: &Capacity<B>,
) -> Result<MostOnTime<A>, AllocError>
    requires { IsTaken commands.now }
    ensures most { IfOk result (IsMostOf commands.now capacity.now) }
    ensures first { IfOk result (λ answer. IsOnTimeFirst commands.now answer.rounds.items capacity.now) }
    ensures cover { IfOk result (HasPassedCover commands.now capacity.now) }
{
    let Ok(alloc_cover) = alloc.clone() else {
        return Err(AllocError);
    };
    let Ok(rounds) = queue::schedule_on_time(alloc, commands, capacity) else {
        return Err(AllocError);
    };
    let Ok(cover) = cover::cover(alloc_cover, commands, rounds.as_slice(), capacity) else {
        return Err(AllocError);
    };
    let on_time = number_on_time(commands, rounds.as_slice());
    law_of_covers(commands, capacity, cover.as_slice());
    Ok(MostOnTime {
        rounds,
        on_time,
        cover,
    })
}

/// The separate check may be asked about an answer of [`most_on_time`], and passes it: whatever [`check_on_time`](edd_check::check_on_time) says
/// of it is Ok, unless memory ran out.
///
/// A theorem: it does nothing at run time, and a caller has its clauses.
pub fn law_of_on_time_checks<A: Allocator, B: Allocator>(
    commands: &[Command],
    capacity: &Capacity<A>,
    answer: &MostOnTime<B>,
)
    requires { IsMostOf commands.now capacity.now answer.now }
    ensures asked { CoverInRange answer.now.cover.items }
    ensures passed { IsCheckedOnTime commands.now capacity.now answer.now }
{
    // brings the prover the invariants of what the clauses speak of
    let _ = (commands.len(), capacity.at(0), answer.on_time);
}

/// There is one legal schedule by earliest due date first with ties by id, where no id stands twice.
///
/// A theorem: it does nothing at run time, and a caller has its clause.
pub fn law_of_one_schedule<A: Allocator>(
    commands: &[Command],
    capacity: &Capacity<A>,
    one: &[u64],
    other: &[u64],
)
    requires distinct { HasDistinctIds commands.now (length commands.now) }
    requires legal { IsLegal commands.now one.now capacity.now }
    requires first { IsEarliestDueFirst commands.now one.now capacity.now }
    requires other_legal { IsLegal commands.now other.now capacity.now }
    requires other_first { IsEarliestDueFirst commands.now other.now capacity.now }
    ensures { one.now ≡ other.now }
{
    // brings the prover the invariants of what the clause speaks of
    let _ = (commands.len(), capacity.at(0), one.len(), other.len());
}
