//! The commands of a trace that were late, what the rounds that they waited went to, and why they were late.

ghost use Rattle.std.specs.Prelude.{◌≡◌, ◌≤◌, ◌<◌, IfOk, All, filter, length, map};
ghost use Rattle.std.specs.List.{filter_map};
ghost use Rattle.edd_commands.specs.declared.TheConstants.{MAX_ROUNDS};
ghost use Rattle.edd_commands.specs.Schedule.{IsLegal};
ghost use Rattle.edd_verdict.specs.Verdicts.{AreVerdicts};
ghost use Rattle.blk_trace.specs.declared.trace.TheConstants.{MAX_EVENTS};
ghost use Rattle.blk_report.specs.Services.{command_in, AreWithinLimits, AreInIssueOrder};
ghost use Rattle.blk_report.specs.Inside.Services.{issues_in};
ghost use Rattle.blk_report.specs.Late.{is_late_service, AreAllLate, AreLateIn, late_row, late_parts};
ghost use Rattle.blk_report.specs.Inside.Waited.{IsFrom, AskForAll, AreCarried, CanWait, CanAllWait, late_command, AreLateCommands};
ghost use Rattle.blk_bio.specs.Letters.{direction_text};

use crate::below::{CountAsk, count_below};
use crate::serving::{Service, services};
use answer::names::{
    DIR, DUE, FIRST, FROM, ID, IDLE, ISSUE, LATE, LATENESS, LATER, READS, RELEASE, SECTORS, SOONER,
    UNTIL, VERDICT, WRITES,
};
use answer::{Answer, Part, Row, Rows, Value, Word, record_columns};
use blk_bio::Dir;
use blk_trace::Trace;
use edd_commands::Capacity;
use edd_figures::answers::{from_value, until_value, verdict_value};
use edd_verdict::{Verdict, law_of_verdicts, verdicts};
use std::alloc::{AllocError, Allocator, Global};

/// A command that was issued after it was due, and what the rounds that it waited were used for: those from its release up to, but
/// not including, that of its Issue. Where `later` and `idle` are 0, earliest due first would have let it wait too.
#[derive(Clone, Copy, Debug, PartialEq, Eq)]
pub struct LateCommand {
    /// The command, and its request as it was issued.
    pub service: Service,
    /// How many rounds after its due round it was issued.
    pub lateness: u64,
    /// How many places of these rounds went to commands due no later than it.
    pub sooner: u64,
    /// How many went to commands due later.
    pub later: u64,
    /// How many went to none.
    pub idle: u64,
    /// Why it was late, beside the commands that were on time.
    pub verdict: Verdict,
}

/// The place of the first command that was issued in a round or later. It is found by halves.
fn place_from(services: &[Service], round: u64) -> usize
    requires { AreInIssueOrder services.now }
    ensures { IsFrom services.now round result }
{
    services.partition_point(|service| service.issue < round)
}

/// The commands that are late.
fn late_ones<A: Allocator>(alloc: A, services: &[Service]) -> Result<Vec<Service, A>, AllocError>
    ensures { IfOk result (λ v. v.items ≡ filter is_late_service services.now) }
{
    services
        .iter()
        .copied()
        .filter(|service| service.due < service.issue)
        .collect(alloc)
}

/// The verdicts of those commands that have one, in their order.
fn known_verdicts<A: Allocator>(
    alloc: A,
    verdicts: &[Option<Verdict>],
) -> Result<Vec<Verdict, A>, AllocError>
    ensures { IfOk result (λ v. v.items ≡ filter_map (λ o. o) verdicts.now) }
{
    verdicts
        .iter()
        .filter_map(|verdict| *verdict)
        .collect(alloc)
}

/// Their due rounds.
fn dues<A: Allocator>(alloc: A, services: &[Service]) -> Result<Vec<u64, A>, AllocError>
    ensures { IfOk result (λ v. v.items ≡ map (λ s. s.due) services.now) }
{
    services.iter().map(|service| service.due).collect(alloc)
}

/// A round that is later than each of these.
fn after_all(rounds: &[u64]) -> u64
    requires { All (λ x. x < MAX_ROUNDS) rounds.now }
    ensures { All (λ x. x < result) rounds.now }
{
    match rounds.iter().copied().max() {
        Some(last) => last + 1,
        None => 0,
    }
}

/// For each round up to a last one, how many commands the rounds before it carry together.
fn sums_upto<A: Allocator, B: Allocator>(
    alloc: A,
    capacity: &Capacity<B>,
    last: u64,
) -> Result<Vec<u64, A>, AllocError>
    requires { last ≤ MAX_EVENTS }
    ensures { IfOk result (λ v. AreCarried capacity.now last v.items) }
{
    let mut sums = Vec::new(alloc);
    let mut sum = 0;
    for round in 0..last {
        sums.push(sum)?;
        sum += capacity.at(round);
    }
    sums.push(sum)?;
    Ok(sums)
}

/// A question for each late command, still to be answered: how many of the commands issued while it waited were due no later.
fn asks<A: Allocator>(
    alloc: A,
    services: &[Service],
    late: &[Service],
) -> Result<Vec<CountAsk, A>, AllocError>
    requires rising { AreInIssueOrder services.now }
    requires in_time { All (λ s. s.due < MAX_ROUNDS) late.now }
    ensures each { IfOk result (λ v. length v.items ≡ length late.now) }
    ensures asks { IfOk result (λ v. AskForAll services.now late.now v.items) }
{
    let mut asks = Vec::new(alloc);
    for service in late {
        asks.push(CountAsk {
            start: place_from(services, service.release),
            end: place_from(services, service.issue),
            bound: service.due + 1,
            count: 0,
        })?;
    }
    Ok(asks)
}

/// The last round in which a command was issued, or 0 where none was.
fn last_issue(services: &[Service]) -> u64
    requires timed { AreWithinLimits services.now }
    requires rising { AreInIssueOrder services.now }
    ensures within { result ≤ MAX_EVENTS }
    ensures last { All (λ s. s.issue ≤ result) services.now }
{
    let count = services.len();
    if count == 0 {
        0
    } else {
        services[count - 1].issue
    }
}

/// A late command with its verdict. Of the places in the rounds that it waited, `places` went to commands, `sooner` of these to
/// commands due no later than it; the places beyond these stayed idle.
fn late_command(
    service: Service,
    places: u64,
    sooner: u64,
    verdict: Verdict,
    sums: &[u64],
) -> LateCommand
    requires { CanWait sums.now service places sooner }
    ensures { result ≡ late_command sums.now service places sooner verdict }
{
    let carried = sums[service.issue as usize] - sums[service.release as usize];
    LateCommand {
        service,
        lateness: service.issue - service.due,
        sooner,
        later: places - sooner,
        idle: carried - places,
        verdict,
    }
}

/// Each late command with its verdict, and with what the rounds that it waited were used for.
fn late_commands<A: Allocator>(
    alloc: A,
    late: &[Service],
    told: &[Verdict],
    asks: &[CountAsk],
    counted: &[CountAsk],
    sums: &[u64],
) -> Result<Vec<LateCommand, A>, AllocError>
    requires told { length told.now ≡ length late.now }
    requires asked { length asks.now ≡ length late.now }
    requires counted { length counted.now ≡ length late.now }
    requires forward { All (λ a. a.start ≤ a.end) asks.now }
    requires each { CanAllWait sums.now late.now asks.now counted.now }
    ensures each { IfOk result (λ v. length v.items ≡ length late.now) }
    ensures rows { IfOk result (λ v. AreLateCommands sums.now late.now asks.now counted.now told.now v.items) }
{
    let mut rows = Vec::new(alloc);
    for (place, service) in late.iter().enumerate() {
        let places = (asks[place].end - asks[place].start) as u64;
        let sooner = counted[place].count as u64;
        rows.push(late_command(*service, places, sooner, told[place], sums))?;
    }
    Ok(rows)
}

/// The late commands among these, by the verdicts of all of them.
fn delays<A: Allocator + Clone, B: Allocator>(
    alloc: A,
    services: &[Service],
    verdicts: &[Option<Verdict>],
    capacity: &Capacity<B>,
) -> Result<Vec<LateCommand, A>, AllocError>
    requires timed { AreWithinLimits services.now }
    requires rising { AreInIssueOrder services.now }
    requires legal { IsLegal (map command_in services.now) (issues_in services.now) capacity.now }
    requires judged { AreVerdicts (map command_in services.now) (issues_in services.now) capacity.now verdicts.now }
    ensures { IfOk result (λ v. AreAllLate services.now capacity.now v.items) }
{
    law_of_verdicts();
    // brings the prover the capacity's invariant
    let _ = capacity.at(0);
    let last = last_issue(services);
    let sums = sums_upto(alloc.clone()?, capacity, last)?;
    let late = late_ones(alloc.clone()?, services)?;
    let told = known_verdicts(alloc.clone()?, verdicts)?;
    let asks = asks(alloc.clone()?, services, late.as_slice())?;
    let dues = dues(alloc.clone()?, services)?;
    let limit = after_all(dues.as_slice());
    let counted = count_below(dues, asks.as_slice(), limit)?;
    let rows = late_commands(
        alloc,
        late.as_slice(),
        told.as_slice(),
        asks.as_slice(),
        counted.as_slice(),
        sums.as_slice(),
    )?;
    Ok(rows)
}

/// The commands of a trace that were issued after they were due, in the order of these Issues. Each says of the rounds that it waited,
/// those from its release up to, but not including, that of its Issue, how many of their places went to commands due no later than it,
/// how many to commands due later, and how many to none: together they are what these rounds carry. And each has the one verdict that
/// is right of it, beside the commands that were on time. An Issue that was requeued doesn't count. Fails only when out of memory. The
/// time grows as the number of events times its binary digits, or times those of the last due round if that has more.
pub fn late<A: Allocator + Clone>(trace: &Trace<A>) -> Result<Vec<LateCommand, A>, AllocError>
    ensures { IfOk result (λ v. AreLateIn trace.now.setup trace.now.events v.items) }
{
    let services = services(trace)?;
    let commands = trace.commands()?;
    let rounds = trace.rounds()?;
    let capacity = trace.capacity()?;
    let verdicts = verdicts(
        rounds.allocator().clone()?,
        commands.as_slice(),
        rounds.as_slice(),
        &capacity,
    )?;
    let found = delays(
        rounds.allocator().clone()?,
        services.as_slice(),
        verdicts.as_slice(),
        &capacity,
    )?;
    Ok(found)
}

/// The word of a direction.
fn dir_word(dir: Dir) -> Word
    ensures { result ≡ direction_text dir }
{
    match dir {
        Dir::Read => Word::new(READS),
        Dir::Write => Word::new(WRITES),
    }
}

/// The row of a late command.
#[tactic(auto, unfolding(crate::specs::Late::late_row))]
fn late_row(alloc: Global, late: &LateCommand) -> Result<Row, AllocError>
    ensures { IfOk result (λ row. row ≡ late_row late.now) }
{
    let service = &late.service;
    let values = Vec::from_array(
        alloc,
        [
            Value::Count(service.id),
            Value::Text(dir_word(service.dir)),
            Value::Count(service.first),
            Value::Count(service.sectors),
            Value::Count(service.release),
            Value::Count(service.due),
            Value::Count(service.issue),
            Value::Count(late.lateness),
            Value::Count(late.sooner),
            Value::Count(late.later),
            Value::Count(late.idle),
            verdict_value(late.verdict),
            from_value(late.verdict),
            until_value(late.verdict),
        ],
    )?;
    Ok(Row::new(values))
}

/// The rows of late commands.
fn late_rows(alloc: Global, late: &[LateCommand]) -> Result<Vec<Row>, AllocError>
    ensures { IfOk result (λ rows. rows.items ≡ map (λ l. late_row l) late.now) }
{
    let mut rows = Vec::new(alloc);
    for command in late {
        rows.push(late_row(alloc, command)?)?;
    }
    Ok(rows)
}

/// What is said of late commands: a row for each, in their order. The direction is `R` or `W`; sectors and rounds are as in the trace. The
/// verdict is `arrival` or `spare` with no window, or `full` with the first and the last round of its window. Fails only when out of memory.
pub fn late_answer(alloc: Global, late: &[LateCommand]) -> Result<Answer, AllocError>
    ensures { IfOk result (λ answer. answer ≡ late_parts late.now) }
{
    let names = [
        ID, DIR, FIRST, SECTORS, RELEASE, DUE, ISSUE, LATENESS, SOONER, LATER, IDLE, VERDICT, FROM,
        UNTIL,
    ];
    let columns = record_columns(alloc, &names)?;
    let rows = late_rows(alloc, late)?;
    let mut answer = Answer::new(alloc);
    answer.add(Part::Rows(Rows::new(LATE, columns, true, rows)))?;
    Ok(answer)
}
