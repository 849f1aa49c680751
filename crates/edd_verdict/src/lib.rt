//! Why each late command of a schedule was late: by its own arrival, because the rounds that it could have had were full of
//! commands that were on time and had to run there, or for no such reason, so that it could have been on time too.
//!
//! Commands are unit jobs with release and due rounds on as many machines as a round has (Pinedo, Scheduling: the number of
//! tardy jobs). Which commands can be on time beside one another is a matching of commands and rounds, and what stands in the
//! way of one more is a window of rounds that are full (Hall's condition in a convex bipartite graph).
#![tactic(auto)]

ghost use Rattle.std.specs.Prelude.{ℕ, ◌≡◌, List, IfOk};
ghost use Rattle.edd_commands.specs.declared.Command.{Command};
ghost use Rattle.edd_commands.specs.declared.steps.Step.{Step};
ghost use Rattle.edd_commands.specs.Capacity.{IsCapacity};
ghost use Rattle.edd_commands.specs.Schedule.{IsLegal};
ghost use Rattle.edd_oracle.specs.Input.{IsTaken};
ghost use Rattle.edd_verdict.specs.Inside.Open.{on_time_of, AreFilled};
ghost use Rattle.edd_verdict.specs.Verdicts.{AreVerdicts};
ghost use Rattle.edd_verdict.specs.Laws.{OfEachLate, HasOneVerdict, SpareMeansFree, HaveVerdicts, OfVerdicts, KindsAddUp, SparesBoundMost, SpareMeansMore, MostKeepsOnTime};

mod around;
mod tight;

use around::verdicts_around;
use edd_check::Window;
use edd_commands::{Capacity, Command};
use edd_oracle::solve_taken;
use std::alloc::{AllocError, Allocator};

/// Why a late command was late, beside the commands of its schedule that were on time.
#[derive(Clone, Copy, Debug, PartialEq, Eq)]
pub enum Verdict {
    /// It was released after it was due.
    Arrival,
    /// Some legal schedule has it on time, and all those that are on time here.
    Spare,
    /// It is released and due in the rounds `from` to `due` of this window, and each place of these went to a command that was
    /// on time and is released and due in them. Of all such windows it is the one that ends first, and of those the one that
    /// begins first.
    Full(Window),
}

/// Each late command of a legal schedule has one verdict.
///
/// A theorem: it does nothing at run time, and a caller has its clauses.
pub fn law_of_verdicts()
    ensures one { (commands : List Command) → (rounds : List ℕ) → (steps : List Step)
        → OfEachLate HasOneVerdict commands rounds steps }
    // it is spare exactly where it could be on time at all and lies in no filled window
    ensures spare { (commands : List Command) → (rounds : List ℕ) → (steps : List Step)
        → OfEachLate SpareMeansFree commands rounds steps }
    // so that the commands of each legal schedule have verdicts
    ensures all { (commands : List Command) → (rounds : List ℕ) → (steps : List Step)
        → HaveVerdicts commands rounds steps }
{}

/// What the verdicts say of how many commands a schedule has late, beside how many any schedule has on time: `most - on_time` is
/// how many more could have been on time.
///
/// A theorem: it does nothing at run time, and a caller has its clauses.
pub fn law_of_spares()
    // the late ones are late on arrival, full or spare
    ensures kinds { (commands : List Command) → (rounds : List ℕ) → (steps : List Step)
        → OfVerdicts KindsAddUp commands rounds steps }
    // no more could have been on time than are spare
    ensures most { (commands : List Command) → (rounds : List ℕ) → (steps : List Step)
        → OfVerdicts SparesBoundMost commands rounds steps }
    // and some could have been where one is
    ensures some { (commands : List Command) → (rounds : List ℕ) → (steps : List Step)
        → OfVerdicts SpareMeansMore commands rounds steps }
    // and the most can be on time beside what is on time already
    ensures kept { (commands : List Command) → (rounds : List ℕ) → (steps : List Step)
        → MostKeepsOnTime commands rounds steps }
{}

/// A capacity carries some commands in each round.
///
/// A theorem: it does nothing at run time, and a caller has its clause.
fn law_of_capacities<A: Allocator>(capacity: &Capacity<A>)
    ensures { IsCapacity capacity.now }
{
    // brings the prover the capacity's invariant
    let _ = capacity.at(0);
}

/// The commands that run no later than they are due.
fn on_time<A: Allocator>(
    alloc: A,
    commands: &[Command],
    rounds: &[u64],
) -> Result<Vec<Command, A>, AllocError>
    ensures { IfOk result (λ v. v.items ≡ on_time_of commands.now rounds.now) }
{
    commands
        .iter()
        .zip(rounds)
        .filter(|(command, round)| **round <= command.due)
        .map(|(command, _)| *command)
        .collect(alloc)
}

/// The windows that the commands on time fill, by rising `due`: each filled window ends with one of these, which begins no later.
/// Whatever schedule has these commands on time, the windows are the same, and so they are found in that by earliest due date first.
fn filled_windows<A: Allocator + Clone, B: Allocator>(
    alloc: A,
    commands: &[Command],
    rounds: &[u64],
    capacity: &Capacity<B>,
) -> Result<Vec<Window, A>, AllocError>
    requires taken { IsTaken commands.now }
    requires legal { IsLegal commands.now rounds.now capacity.now }
    requires capacity { IsCapacity capacity.now }
    ensures { IfOk result (λ v. AreFilled commands.now rounds.now capacity.now v.items) }
{
    let commands_on_time = on_time(alloc.clone()?, commands, rounds)?;
    let on_time = commands_on_time.as_slice();
    let Some(answer) = solve_taken(alloc.clone()?, on_time, capacity)? else {
        return Ok(Vec::new(alloc));
    };
    let windows = tight::filled(alloc, on_time, answer.rounds.as_slice(), capacity)?;
    Ok(windows)
}

/// The verdict of each late command of a legal schedule, by place; a command that is on time has none.
///
/// The windows that the commands on time fill are found in their schedule by earliest due date first, in one pass over its full
/// rounds with a stack, and the first around each late command by halves. So the time grows as n log n in the number of commands.
/// Fails only when out of memory.
pub fn verdicts<A: Allocator + Clone, B: Allocator>(
    alloc: A,
    commands: &[Command],
    rounds: &[u64],
    capacity: &Capacity<B>,
) -> Result<Vec<Option<Verdict>, A>, AllocError>
    requires taken { IsTaken commands.now }
    requires legal { IsLegal commands.now rounds.now capacity.now }
    ensures { IfOk result (λ v. AreVerdicts commands.now rounds.now capacity.now v.items) }
{
    law_of_capacities(capacity);
    let windows = filled_windows(alloc.clone()?, commands, rounds, capacity)?;
    let verdicts = verdicts_around(alloc, commands, rounds, windows.as_slice())?;
    Ok(verdicts)
}
