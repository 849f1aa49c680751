//! The schedulers beside one another.

ghost use Rattle.std.specs.Prelude.{◌≡◌, IfOk, IfErr, All, map, length};
ghost use Rattle.blk_text.specs.Script.{IsScript, scripted};
ghost use Rattle.blk_schedulers.specs.Made.{IsMade};
ghost use Rattle.blk_schedulers.specs.Scheds.{name_of, in_turn};
ghost use Rattle.blk_report.specs.Table.{IsTable};
ghost use Rattle.blk_runs.specs.Runs.{IsRunFault};
ghost use Rattle.blk_runs.specs.Firsts.{AreUnrun};
ghost use Rattle.blk_cli.specs.Comparing.{IsReportUnder, AreReports, IsCompareFailure, IsComparedText};

use crate::failure::Failure;
use crate::forms::written;
use answer::Answer;
use blk_args::Form;
use blk_report::{Report, report, table_answer};
use blk_runs::{RunFault, traced, unmade};
use blk_schedulers::{ComparedScheds, Sched};
use blk_text::Script;
use std::alloc::{AllocError, Global};

/// The report of the trace of a script under a scheduler.
fn report_under(alloc: Global, sched: Sched, script: &Script) -> Result<Report, RunFault>
    requires { IsScript (scripted script.now) }
    ensures report { IfOk result (IsReportUnder sched (scripted script.now)) }
    ensures unrun { IfErr result (IsRunFault sched (scripted script.now)) }
{
    let trace = match traced(alloc, sched, script) {
        Ok(trace) => trace,
        Err(fault) => return Err(fault),
    };
    match report(&trace) {
        Ok(report) => Ok(report),
        Err(_) => Err(RunFault::Memory),
    }
}

/// The reports of a script under each of these schedulers, which run it in turn: once a step is refused, the later ones don't run it.
fn reports_of(alloc: Global, scheds: &[Sched], script: &Script) -> Result<Vec<Report>, RunFault>
    requires script { IsScript (scripted script.now) }
    requires made { All IsMade scheds.now }
    ensures reports { IfOk result (λ all. AreReports scheds.now (scripted script.now) all.items) }
    ensures uncompared { IfErr result (AreUnrun scheds.now (scripted script.now)) }
{
    let mut all = Vec::new(alloc);
    for i in 0..scheds.len() {
        let report = match report_under(alloc, scheds[i], script) {
            Ok(report) => report,
            Err(fault) => return Err(fault),
        };
        let Ok(()) = all.push(report) else {
            return Err(RunFault::Memory);
        };
    }
    Ok(all)
}

/// The reports of a script under each of these schedulers, once all of them are made of their settings.
fn compared(alloc: Global, scheds: &[Sched], script: &Script) -> Result<Vec<Report>, RunFault>
    requires { IsScript (scripted script.now) }
    ensures reports { IfOk result (λ all. AreReports scheds.now (scripted script.now) all.items) }
    ensures uncompared { IfErr result (AreUnrun scheds.now (scripted script.now)) }
{
    match unmade(scheds) {
        Some(fault) => Err(RunFault::Sched(fault)),
        None => reports_of(alloc, scheds, script),
    }
}

/// The names of schedulers, as bytes.
pub fn names_of<'a>(alloc: Global, scheds: &[Sched]) -> Result<Vec<&'a [u8]>, AllocError>
    ensures { IfOk result (λ names. map (λ name. name.now) names.items ≡ map name_of scheds.now) }
{
    let mut names = Vec::new(alloc);
    for i in 0..scheds.len() {
        names.push(scheds[i].name().as_bytes())?;
    }
    Ok(names)
}

/// The names of schedulers, as texts.
fn titles_of(alloc: Global, scheds: &[Sched]) -> Result<Vec<&'static str>, AllocError>
    ensures { IfOk result (λ names. map (λ name. name.now) names.items ≡ map name_of scheds.now) }
{
    let mut names = Vec::new(alloc);
    for i in 0..scheds.len() {
        names.push(scheds[i].name())?;
    }
    Ok(names)
}

/// What is said of reports, each under its scheduler's name.
fn table_under(alloc: Global, scheds: &[Sched], reports: &[Report]) -> Result<Answer, AllocError>
    requires { length scheds.now ≡ length reports.now }
    ensures { IfOk result (IsTable (map name_of scheds.now) reports.now) }
{
    match titles_of(alloc, scheds) {
        Ok(names) => table_answer(alloc, names.as_slice(), reports),
        Err(refused) => Err(refused),
    }
}

/// The table of the reports of a script under each scheduler of a lineup.
pub fn table_of(
    alloc: Global,
    lineup: ComparedScheds,
    form: Form,
    script: &Script,
) -> Result<Vec<u8>, Failure>
    requires { IsScript (scripted script.now) }
    ensures text { IfOk result (λ text. IsComparedText lineup form (scripted script.now) text.items) }
    ensures uncompared { IfErr result (IsCompareFailure (in_turn lineup) (scripted script.now)) }
{
    let Ok(scheds) = lineup.in_turn(alloc) else {
        return Err(Failure::Memory);
    };
    let rows = scheds.as_slice();
    let reports = match compared(alloc, rows, script) {
        Ok(reports) => reports,
        Err(fault) => return Err(Failure::Run(fault)),
    };
    let Ok(answer) = table_under(alloc, rows, reports.as_slice()) else {
        return Err(Failure::Memory);
    };
    match written(alloc, form, &answer) {
        Ok(text) => Ok(text),
        Err(_) => Err(Failure::Memory),
    }
}
