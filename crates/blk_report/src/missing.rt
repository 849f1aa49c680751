//! How many commands of a trace were late, how many of them had to be, and what waits.

ghost use Rattle.std.specs.Prelude.{◌≡◌, ◌≤◌, ◌<◌, ◌↔◌, ◌++◌, IfOk, OnOk};
ghost use Rattle.blk_report.specs.Misses.{IsTallied, tally_parts, misses_parts};

use crate::outstaying::count_overdue;
use answer::names::{AVOIDABLE, COMMANDS, LATE, OVERDUE, SPARE, UNAVOIDABLE, WAITING};
use answer::{Answer, Value, member};
use blk_trace::Trace;
use edd_figures::answers::add_crowds;
use edd_figures::{Crowd, misses_of};
use std::alloc::{AllocError, Allocator, Global};

/// How many commands were late and how many had to be, and how many bios wait.
#[derive(Clone, Copy, Debug, PartialEq, Eq)]
pub struct Tally {
    /// How many commands were served.
    pub commands: u64,
    /// How many of them were issued after they were due.
    pub late: u64,
    /// The fewest that any schedule has late: some legal schedule of these commands has this many, and none has fewer.
    pub unavoidable: u64,
    /// The others: by how many a schedule could have had fewer late.
    pub avoidable: u64,
    /// How many of the late ones could each have been on time beside those that were: their verdict is [`Spare`](edd_verdict::Verdict::Spare).
    pub spare: u64,
    /// How many bios wait in the end. They are no commands, so no figure above speaks of them.
    pub waiting: u64,
    /// How many of them wait past the round in which their request is due.
    pub overdue: u64,
}

/// The tally of a trace's misses, and what proves it.
#[derive(Debug, Drop)]
pub struct Missed<A: Allocator = Global> {
    /// The numbers.
    pub tally: Tally,
    /// Disjoint windows, by rising rounds, which prove that no schedule has fewer late commands: of the commands that lie in a window,
    /// at most as many can be on time as its rounds carry.
    pub windows: Vec<Crowd, A>,
}

/// How many commands of a trace were late, how many of these had to be, under the trace's own capacity, and the windows that prove
/// it: no schedule of the same commands has fewer late, and some schedule has no more. It also counts the late commands that are
/// spare, the bios that wait, and of these the ones that wait past their due round. Fails only when out of memory. The time
/// grows as n log n in the number of commands and events.
pub fn misses<A: Allocator + Clone>(trace: &Trace<A>) -> Result<Missed<A>, AllocError>
    ensures tallied { IfOk result (λ m. IsTallied trace.now.setup trace.now.events m.tally m.windows.items) }
    // what could have been avoided is no more than what is spare, and is something exactly where something is spare
    ensures at_most { IfOk result (λ m. m.tally.avoidable ≤ m.tally.spare) }
    ensures some { IfOk result (λ m. (0 < m.tally.avoidable) ↔ (0 < m.tally.spare)) }
{
    let commands = trace.commands()?;
    let rounds = trace.rounds()?;
    let capacity = trace.capacity()?;
    let alloc = commands.allocator().clone()?;
    let missed = misses_of(alloc, commands.as_slice(), rounds.as_slice(), &capacity)?;
    let counts = missed.counts;
    let tally = Tally {
        commands: counts.commands,
        late: counts.late,
        unavoidable: counts.unavoidable,
        avoidable: counts.avoidable,
        spare: counts.spare,
        waiting: trace.bios_waiting(),
        overdue: count_overdue(trace),
    };
    Ok(Missed {
        tally,
        windows: missed.windows,
    })
}

/// Adds the numbers of what was late.
fn add_tally(answer: &mut Answer, tally: &Tally) -> Result<(), AllocError>
    ensures { OnOk result (answer.new ≡ answer.old ++ tally_parts tally.now) }
{
    answer.add(member(COMMANDS, Value::Count(tally.commands)))?;
    answer.add(member(LATE, Value::Count(tally.late)))?;
    answer.add(member(UNAVOIDABLE, Value::Count(tally.unavoidable)))?;
    answer.add(member(AVOIDABLE, Value::Count(tally.avoidable)))?;
    answer.add(member(SPARE, Value::Count(tally.spare)))?;
    answer.add(member(WAITING, Value::Count(tally.waiting)))?;
    answer.add(member(OVERDUE, Value::Count(tally.overdue)))
}

/// What is said of misses: the members `commands`, `late`, `unavoidable`, `avoidable`, `spare`, `waiting` and `overdue`, and the windows that
/// prove how many had to be late. Fails only when out of memory.
pub fn misses_answer<A: Allocator>(alloc: Global, missed: &Missed<A>) -> Result<Answer, AllocError>
    ensures { IfOk result (λ answer. answer ≡ misses_parts missed.now.tally missed.now.windows.items) }
{
    let mut answer = Answer::new(alloc);
    add_tally(&mut answer, &missed.tally)?;
    add_crowds(&mut answer, alloc, missed.windows.as_slice())?;
    Ok(answer)
}
