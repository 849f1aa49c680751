//! The jobs over a script: its trace under a scheduler, and the schedulers beside one another.

ghost use Rattle.std.specs.Prelude.{◌≡◌, IfOk, IfErr};
ghost use Rattle.blk_text.specs.Script.{IsScript, SpellsScript, ScriptFault, scripted};
ghost use Rattle.blk_cli.specs.Inputs.{Of, FailsOver};
ghost use Rattle.blk_cli.specs.Scripts.{IsSimText, FailsToRun};
ghost use Rattle.blk_cli.specs.Comparing.{IsRunText, HasNoRunText, TellsRun};
ghost use Rattle.blk_cli.specs.Said.{said_of};

use crate::Answered;
use crate::comparing::table_of;
use crate::failure::Failure;
use crate::picturing::pictures_of;
use crate::unflushed::with_plugs;
use blk_args::Running;
use blk_records::Records;
use blk_runs::traced;
use blk_schedulers::Sched;
use blk_text::{Script, read_script, trace_text};
use std::alloc::Global;
use std::io::Read;

/// The text of the trace of a script under a scheduler.
fn simulated(alloc: Global, sched: Sched, script: &Script) -> Result<Vec<u8>, Failure>
    requires { IsScript (scripted script.now) }
    ensures text { IfOk result (λ text. IsSimText sched (scripted script.now) text.items) }
    ensures unrun { IfErr result (FailsToRun sched (scripted script.now)) }
{
    let trace = match traced(alloc, sched, script) {
        Ok(trace) => trace,
        Err(fault) => return Err(Failure::Run(fault)),
    };
    match trace_text(alloc, &trace) {
        Ok(text) => Ok(text),
        Err(_) => Err(Failure::Memory),
    }
}

/// What is written of a script.
fn run_text(alloc: Global, running: Running, script: &Script) -> Result<Vec<u8>, Failure>
    requires { IsScript (scripted script.now) }
    ensures text { IfOk result (λ text. IsRunText running (scripted script.now) text.items) }
    ensures none { IfErr result (HasNoRunText running (scripted script.now)) }
{
    match running {
        Running::One(sched) => simulated(alloc, sched, script),
        Running::Each(lineup, form) => table_of(alloc, lineup, form, script),
        Running::Drawn(lineup) => pictures_of(alloc, lineup, script),
    }
}

/// What is said beside the text that was made of a script.
fn beside(
    alloc: Global,
    running: Running,
    text: Vec<u8>,
    script: &Script,
) -> Result<Answered, Failure>
    requires { IsScript (scripted script.now) }
    ensures text { IfOk result (λ a. (said_of a).text ≡ text.items) }
    ensures beside { IfOk result (λ a. TellsRun running (scripted script.now) (said_of a)) }
    ensures memory { IfErr result (λ f. f ≡ Failure.Memory) }
{
    match running {
        Running::One(_) | Running::Each(_, _) => Ok(Answered::alone(text)),
        Running::Drawn(_) => with_plugs(alloc, text, script),
    }
}

/// What is answered to a script.
fn run_answer(alloc: Global, running: Running, script: &Script) -> Result<Answered, Failure>
    requires { IsScript (scripted script.now) }
    ensures text { IfOk result (λ a. IsRunText running (scripted script.now) (said_of a).text) }
    ensures beside { IfOk result (λ a. TellsRun running (scripted script.now) (said_of a)) }
    ensures none { IfErr result (HasNoRunText running (scripted script.now)) }
{
    let text = match run_text(alloc, running, script) {
        Ok(text) => text,
        Err(failure) => return Err(failure),
    };
    match beside(alloc, running, text, script) {
        Ok(answer) => Ok(answer),
        Err(failure) => Err(failure),
    }
}

/// Reads a script, and runs it.
pub fn over_script<R: Read + Drop>(
    alloc: Global,
    running: Running,
    records: &mut Records<R>,
) -> Result<Answered, Failure>
    requires { records.old.at ≡ 0 }
    ensures text { IfOk result (λ a. Of SpellsScript (IsRunText running) records.old.left (said_of a).text) }
    ensures beside { IfOk result (λ a. Of SpellsScript (TellsRun running) records.old.left (said_of a)) }
    ensures fails { IfErr result (FailsOver SpellsScript ScriptFault (HasNoRunText running) records.old.left records.new.failed) }
{
    let script = match read_script(alloc, records) {
        Ok(script) => script,
        Err(fault) => return Err(Failure::Text(fault)),
    };
    run_answer(alloc, running, &script)
}
