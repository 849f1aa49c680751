//! The jobs over a trace.

ghost use Rattle.std.specs.Prelude.{◌≡◌, IfOk, IfErr};
ghost use Rattle.blk_text.specs.TraceForm.{SpellsTrace, TraceTextFault};
ghost use Rattle.blk_text.specs.TraceRecords.{IsTrace};
ghost use Rattle.blk_cli.specs.Inputs.{Of, FailsOver};
ghost use Rattle.blk_cli.specs.OfTraces.{IsTellingText, IsTraceOutputFailure};

use crate::failure::Failure;
use crate::figures::figures_text;
use blk_args::TraceOutput;
use blk_picture::picture;
use blk_records::{Records, commands_text};
use blk_text::{read_trace, trace_text};
use blk_trace::Trace;
use std::alloc::Global;
use std::io::Read;

/// The command list of a trace, which has one where no event sets a depth.
fn list_of(alloc: Global, trace: &Trace) -> Result<Vec<u8>, Failure>
    requires { IsTrace trace.now }
    ensures text { IfOk result (λ text. IsTellingText TraceOutput.Commands trace.now text.items) }
    ensures untold { IfErr result (IsTraceOutputFailure TraceOutput.Commands trace.now) }
{
    if !trace.is_fixed() {
        return Err(Failure::NotFixed);
    }
    let Ok(commands) = trace.commands() else {
        return Err(Failure::Memory);
    };
    let setup = trace.setup();
    let depth = setup.depth();
    match commands_text(alloc, depth, commands.as_slice()) {
        Ok(text) => Ok(text),
        Err(_) => Err(Failure::Memory),
    }
}

/// The trace itself.
fn whole_of(alloc: Global, trace: &Trace) -> Result<Vec<u8>, Failure>
    ensures text { IfOk result (λ text. IsTellingText TraceOutput.Whole trace.now text.items) }
    ensures untold { IfErr result (IsTraceOutputFailure TraceOutput.Whole trace.now) }
{
    match trace_text(alloc, trace) {
        Ok(text) => Ok(text),
        Err(_) => Err(Failure::Memory),
    }
}

/// The picture of a trace.
fn picture_of(alloc: Global, trace: &Trace) -> Result<Vec<u8>, Failure>
    ensures text { IfOk result (λ text. IsTellingText TraceOutput.Picture trace.now text.items) }
    ensures untold { IfErr result (IsTraceOutputFailure TraceOutput.Picture trace.now) }
{
    match picture(alloc, trace) {
        Ok(text) => Ok(text),
        Err(_) => Err(Failure::Memory),
    }
}

/// What is said about a trace.
fn told_of(alloc: Global, telling: TraceOutput, trace: &Trace) -> Result<Vec<u8>, Failure>
    requires { IsTrace trace.now }
    ensures text { IfOk result (λ text. IsTellingText telling trace.now text.items) }
    ensures untold { IfErr result (IsTraceOutputFailure telling trace.now) }
{
    match telling {
        TraceOutput::Whole => whole_of(alloc, trace),
        TraceOutput::Commands => list_of(alloc, trace),
        TraceOutput::Picture => picture_of(alloc, trace),
        TraceOutput::Figures(asked, form) => match figures_text(alloc, asked, form, trace) {
            Ok(text) => Ok(text),
            Err(_) => Err(Failure::Memory),
        },
    }
}

/// Reads a trace, and gives what is asked about it.
pub fn over_trace<R: Read + Drop>(
    alloc: Global,
    telling: TraceOutput,
    records: &mut Records<R>,
) -> Result<Vec<u8>, Failure>
    requires { records.old.at ≡ 0 }
    ensures text { IfOk result (λ text. Of SpellsTrace (IsTellingText telling) records.old.left text.items) }
    ensures fails { IfErr result (FailsOver SpellsTrace TraceTextFault (IsTraceOutputFailure telling) records.old.left records.new.failed) }
{
    let trace = match read_trace(alloc, records) {
        Ok(trace) => trace,
        Err(fault) => return Err(Failure::Text(fault)),
    };
    told_of(alloc, telling, &trace)
}
