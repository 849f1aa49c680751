//! The answers on a trace's figures, an arm for each.

ghost use Rattle.std.specs.Prelude.{IfOk};
ghost use Rattle.blk_cli.specs.Figures.{IsLateText, IsMissesText, IsSpreadText, IsReportText, IsFiguresText};

use crate::forms::written;
use blk_args::{FiguresAsked, Form};
use blk_report::{
    late, late_answer, misses, misses_answer, report, report_answer, services, spread,
    spread_answer,
};
use blk_trace::Trace;
use std::alloc::{AllocError, Global};

/// What is written of the late commands of a trace.
fn late_text(alloc: Global, form: Form, trace: &Trace) -> Result<Vec<u8>, AllocError>
    ensures { IfOk result (λ v. IsLateText form trace.now v.items) }
{
    let late = late(trace)?;
    let answer = late_answer(alloc, late.as_slice())?;
    written(alloc, form, &answer)
}

/// What is written of its misses.
fn misses_text(alloc: Global, form: Form, trace: &Trace) -> Result<Vec<u8>, AllocError>
    ensures { IfOk result (λ v. IsMissesText form trace.now v.items) }
{
    let missed = misses(trace)?;
    let answer = misses_answer(alloc, &missed)?;
    written(alloc, form, &answer)
}

/// What is written of how its waits and latenesses are spread.
fn spread_text(alloc: Global, form: Form, trace: &Trace) -> Result<Vec<u8>, AllocError>
    ensures { IfOk result (λ v. IsSpreadText form trace.now v.items) }
{
    let services = services(trace)?;
    let spreads = spread(alloc, services.as_slice())?;
    let answer = spread_answer(alloc, &spreads)?;
    written(alloc, form, &answer)
}

/// What is written of its report.
fn report_text(alloc: Global, form: Form, trace: &Trace) -> Result<Vec<u8>, AllocError>
    ensures { IfOk result (λ v. IsReportText form trace.now v.items) }
{
    let report = report(trace)?;
    let answer = report_answer(alloc, &report)?;
    written(alloc, form, &answer)
}

/// These figures of a trace, in lines or as JSON: what is written of its late commands, its misses, its waits by quantiles, or its report.
/// Fails only when out of memory.
pub fn figures_text(
    alloc: Global,
    asked: FiguresAsked,
    form: Form,
    trace: &Trace,
) -> Result<Vec<u8>, AllocError>
    ensures { IfOk result (λ v. IsFiguresText asked form trace.now v.items) }
{
    match asked {
        FiguresAsked::Late => late_text(alloc, form, trace),
        FiguresAsked::Misses => misses_text(alloc, form, trace),
        FiguresAsked::Spread => spread_text(alloc, form, trace),
        FiguresAsked::Report => report_text(alloc, form, trace),
    }
}
