//! The program under the scheduler that hands out what is due first: of what it writes of a script by rounds it reports no
//! shortfall, and with late last no avoidable miss.
#![tactic(auto)]

ghost use Rattle.std.specs.Prelude.{◌≡◌, false, true, IfOk, map, string_bytes};
ghost use Rattle.text_output.specs.Outputs.{stream_of};
ghost use Rattle.blk_online_cli.specs.Told.{ReportsNoShortfall, CountsNoneAvoidable, OfTwoRuns, OfItsTrace, earliest_run, figures_in_lines};
ghost use Rattle.blk_online_cli.specs.Inside.Words.{sim_words, report_words, misses_words};

mod simulating;

pub use crate::simulating::{
    law_of_no_shortfall, law_of_none_avoidable, law_of_rounds_under_earliest, simulate_earliest,
};
use blk_args::FiguresAsked;
use blk_args::asking::plain_lines;
use blk_cli::{Ended, answer, run};
use blk_records::Records;
use blk_schedulers::Loads;
use std::alloc::{AllocError, Global};
use std::io::{Read, Write};
use std::sync::Wait;
use std::thread::Threads;
use text_output::Output;
use turns::Quiet;

/// Where a script's steps are bios, flushes, drains, depths and runs alone, what `sim --sched earliest` writes is a trace of which
/// `oracle --trace` reports the shortfall 0, or no commands. It says nothing of joins, hardware queues, limits, depths, or of what
/// waits at the end: these are free.
///
/// A theorem of [`run`]: it does nothing at run time, and a caller has its clause.
pub fn law_of_reports()
    ensures { OfTwoRuns (earliest_run false) (figures_in_lines FiguresAsked.Report) ReportsNoShortfall }
{}

/// What `sim --sched earliest --late-last` writes of such a script is a trace of which `misses` says that none is avoidable.
///
/// A theorem of [`run`]: it does nothing at run time, and a caller has its clause.
pub fn law_of_misses()
    ensures { OfTwoRuns (earliest_run true) (figures_in_lines FiguresAsked.Misses) CountsNoneAvoidable }
{}

/// The words for a simulation under `earliest`, with `--late-last` or without it.
fn to_simulate(alloc: Global, late_last: bool) -> Result<Vec<String>, AllocError>
    ensures { IfOk result (λ words. map string_bytes words.items ≡ sim_words late_last) }
{
    let mut words = Vec::new(alloc);
    words.push(String::from_str(alloc, "blk")?)?;
    words.push(String::from_str(alloc, "sim")?)?;
    words.push(String::from_str(alloc, "--sched")?)?;
    words.push(String::from_str(alloc, "earliest")?)?;
    if late_last {
        words.push(String::from_str(alloc, "--late-last")?)?;
    }
    Ok(words)
}

/// The words for the report of a trace.
fn to_report(alloc: Global) -> Result<Vec<String>, AllocError>
    ensures { IfOk result (λ words. map string_bytes words.items ≡ report_words) }
{
    let mut words = Vec::new(alloc);
    words.push(String::from_str(alloc, "blk")?)?;
    words.push(String::from_str(alloc, "oracle")?)?;
    words.push(String::from_str(alloc, "--trace")?)?;
    Ok(words)
}

/// The words for the misses of a trace.
fn to_count(alloc: Global) -> Result<Vec<String>, AllocError>
    ensures { IfOk result (λ words. map string_bytes words.items ≡ misses_words) }
{
    let mut words = Vec::new(alloc);
    words.push(String::from_str(alloc, "blk")?)?;
    words.push(String::from_str(alloc, "misses")?)?;
    Ok(words)
}

/// `blk sim --sched earliest`, and `blk oracle --trace` on what that answers: of a script by rounds the report has the shortfall 0, or
/// there are no commands. Answers how the second run ended, or the first where it has no text, and fails when out of memory for the
/// words.
pub fn report_of_earliest<L: Loads, T: Threads + Wait + Sync, R: Read + Drop, W: Write, F: Write>(
    loads: &L,
    rt: &T,
    alloc: Global,
    records: &mut Records<R>,
    out: &mut Output<W>,
    faults: &mut Output<F>,
) -> Result<Ended, AllocError>
    requires { records.old.at ≡ 0 }
    ensures { OfItsTrace ReportsNoShortfall records.old.left (stream_of W.contents out.old) (stream_of W.contents out.new) result }
{
    plain_lines();
    let first = to_simulate(alloc, false)?;
    let second = to_report(alloc)?;
    let traced = match answer(loads, rt, alloc, first.as_slice(), records, &mut Quiet) {
        Ok(traced) => traced,
        Err(none) => return Ok(none.say(faults)),
    };
    let mut read = Records::new(alloc, traced.text.as_slice());
    Ok(run(
        loads,
        rt,
        alloc,
        second.as_slice(),
        &mut read,
        out,
        faults,
        &mut Quiet,
    ))
}

/// `blk sim --sched earliest --late-last`, and `blk misses` on what that answers: of a script by rounds none of the misses is
/// avoidable. Answers as [`report_of_earliest`] does.
pub fn misses_of_late_last<L: Loads, T: Threads + Wait + Sync, R: Read + Drop, W: Write, F: Write>(
    loads: &L,
    rt: &T,
    alloc: Global,
    records: &mut Records<R>,
    out: &mut Output<W>,
    faults: &mut Output<F>,
) -> Result<Ended, AllocError>
    requires { records.old.at ≡ 0 }
    ensures { OfItsTrace CountsNoneAvoidable records.old.left (stream_of W.contents out.old) (stream_of W.contents out.new) result }
{
    plain_lines();
    let first = to_simulate(alloc, true)?;
    let second = to_count(alloc)?;
    let traced = match answer(loads, rt, alloc, first.as_slice(), records, &mut Quiet) {
        Ok(traced) => traced,
        Err(none) => return Ok(none.say(faults)),
    };
    let mut read = Records::new(alloc, traced.text.as_slice());
    Ok(run(
        loads,
        rt,
        alloc,
        second.as_slice(),
        &mut read,
        out,
        faults,
        &mut Quiet,
    ))
}
