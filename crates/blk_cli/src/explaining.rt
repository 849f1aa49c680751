//! The job over a text of any form: what it is, with the subcommands that take it, or what is wrong with it.

ghost use Rattle.std.specs.Prelude.{◌≡◌, false, None, IfOk, IfErr};
ghost use Rattle.blk_explain.specs.Findings.{rows_of};
ghost use Rattle.blk_text.specs.Script.{IsScript, SpellsScript, scripted};
ghost use Rattle.blk_cli.specs.Said.{said_of};
ghost use Rattle.blk_cli.specs.Explaining.{IsScriptRun, IsStepIn, AreRowsExplained, IsPrintedExplained, IsTextExplained, IsExplainFailure};

use crate::Answered;
use crate::failure::Failure;
use blk_args::{TextKind, takers_text};
use blk_capture_text::form_taken;
use blk_core::{BackFault, CoreFault, DepthFault, IssueFault, TickFault};
use blk_explain::{RefusedStep, StepState, TextForm, explain, explain_lines, explain_step};
use blk_queues::PlugFault;
use blk_recorders::{CaptureForm, Recorder};
use blk_records::{Records, read_commands};
use blk_runs::{RunFault, traced};
use blk_schedulers::setting::MAX_SETTINGS;
use blk_schedulers::{Sched, SchedKind};
use blk_sim::{SimFault, SimReason};
use blk_text::{Script, read_script, read_trace};
use edd_commands::{Beside, Capacity, Fault};
use edd_oracle::{OracleFault, solve};
use std::alloc::{AllocError, Global};
use std::io::Read;

/// Which of the subcommands that take a kind of text refuses one that reads well.
#[derive(Clone, Copy, Debug, PartialEq, Eq)]
pub enum Refuser {
    /// None of them.
    Nobody,
    /// `commands`, a trace that sets a depth.
    Commands,
    /// `oracle`, a command list in which this id stands twice.
    Oracle(u64),
}

/// What a text of a form is to the subcommands.
fn text_kind(form: TextForm) -> TextKind {
    match form {
        TextForm::Commands => TextKind::Commands,
        TextForm::Certificate | TextForm::OnTime => TextKind::Certificate,
        TextForm::Schedule => TextKind::Schedule,
        TextForm::Capture => TextKind::Capture,
        TextForm::Script => TextKind::Script,
        TextForm::Trace => TextKind::Trace,
    }
}

/// Which subcommand refuses a trace.
fn trace_refuser(alloc: Global, bytes: &[u8]) -> Result<Refuser, AllocError> {
    match read_trace(alloc, &mut Records::new(alloc, bytes)) {
        Ok(trace) => {
            if trace.is_fixed() {
                Ok(Refuser::Nobody)
            } else {
                Ok(Refuser::Commands)
            }
        }
        Err(_) => Err(AllocError),
    }
}

/// Which subcommand refuses a command list.
fn list_refuser(alloc: Global, bytes: &[u8]) -> Result<Refuser, AllocError> {
    let Ok((depth, commands)) = read_commands(alloc, &mut Records::new(alloc, bytes)) else {
        return Err(AllocError);
    };
    let Ok(capacity) = Capacity::fixed(alloc, depth) else {
        return Err(AllocError);
    };
    match solve(alloc, commands.as_slice(), &capacity) {
        Ok(_) => Ok(Refuser::Nobody),
        Err(OracleFault::RepeatedId(id)) => Ok(Refuser::Oracle(id)),
        Err(_) => Err(AllocError),
    }
}

/// Which subcommand refuses a text of a form that reads well.
fn refuser_of(alloc: Global, bytes: &[u8], form: Option<TextForm>) -> Result<Refuser, AllocError> {
    match form {
        Some(TextForm::Trace) => trace_refuser(alloc, bytes),
        Some(TextForm::Commands) => list_refuser(alloc, bytes),
        _ => Ok(Refuser::Nobody),
    }
}

/// The line that names the subcommands that take a kind of text, but this one.
fn names_line(alloc: Global, kind: TextKind, but: &str) -> Result<String, AllocError> {
    let takers = takers_text(alloc, kind, but)?;
    let names = takers.as_str();
    format!(in alloc; "taken by {names}\n")
}

/// The line that names the subcommands which take texts of a form, or the one that refuses it.
fn takers_line(alloc: Global, form: TextForm, refuser: Refuser) -> Result<String, AllocError> {
    match refuser {
        Refuser::Nobody => names_line(alloc, text_kind(form), ""),
        Refuser::Commands => names_line(alloc, text_kind(form), "commands"),
        Refuser::Oracle(id) => format!(in alloc; "refused by oracle: RepeatedId {id}\n"),
    }
}

/// A text with that line behind it, where it is of a form.
fn with_takers(
    alloc: Global,
    told: Vec<u8>,
    form: Option<TextForm>,
    refuser: Refuser,
) -> Result<Vec<u8>, AllocError> {
    let mut text = told;
    if let Some(form) = form {
        let line = takers_line(alloc, form, refuser)?;
        text.extend_from_slice(line.as_bytes())?;
    }
    Ok(text)
}

/// What is said about the lines of a recorder, with the subcommands that take them where none is wrong.
fn lines_about(alloc: Global, recorder: Recorder, bytes: &[u8]) -> Result<Answered, AllocError>
    ensures { IfOk result (λ answer. IsPrintedExplained recorder bytes.now (said_of answer)) }
{
    let explained = explain_lines(alloc, recorder, bytes)?;
    match explained.fault {
        None => {
            let mut text = explained.text;
            let line = names_line(alloc, TextKind::Capture, "")?;
            text.extend_from_slice(line.as_bytes())?;
            Ok(Answered::alone(text))
        }
        Some(_) => Ok(Answered {
            text: explained.text,
            note: None,
            good: false,
        }),
    }
}

/// What refuses a step: of most what the step has to be instead.
fn state_of(why: SimReason) -> StepState {
    StepState::Other(match why {
        SimReason::SoftFull(overflow) => {
            return StepState::Full(overflow.holds, overflow.room, overflow.brings);
        }
        SimReason::Release(CoreFault::Repeated(id)) => return StepState::Entered(id),
        SimReason::Plug(PlugFault::Full) => "a flush of the plug before",
        SimReason::Issue(IssueFault::TagRange) => "a tag below the depth of the round",
        SimReason::Issue(IssueFault::SlotUsed) => "a tag that was not issued in this round",
        SimReason::NotIssued | SimReason::Back(BackFault::NotIssued) => {
            "a tag with a command in flight"
        }
        SimReason::Tick(TickFault::InFlight(_)) => "no command in flight at the end of a round",
        SimReason::Depth(DepthFault::DepthRange) => "a depth of 1 to that of the title",
        // a script's hardware queues are its title's, and where memory ran out nothing is said of a step
        _ => "no more events than a trace may have",
    })
}

/// Whether memory ran out at a step.
fn is_memory(fault: SimFault) -> bool {
    matches!(fault.told().beside, Beside::Memory)
}

/// The script that these bytes spell.
fn script_in(alloc: Global, bytes: &[u8]) -> Result<Script, AllocError>
    ensures spells { IfOk result (λ script. SpellsScript (rows_of bytes.now) (scripted script)) }
    ensures in_range { IfOk result (λ script. IsScript (scripted script)) }
{
    match read_script(alloc, &mut Records::new(alloc, bytes)) {
        Ok(script) => Ok(script),
        Err(_) => Err(AllocError),
    }
}

/// The step of a script that a run under the scheduler `none` refuses, if it refuses one.
fn refused_in(alloc: Global, bytes: &[u8]) -> Result<Option<SimFault>, AllocError>
    ensures { IfOk result (IsScriptRun (rows_of bytes.now)) }
{
    let script = script_in(alloc, bytes)?;
    let none = Sched {
        kind: SchedKind::None,
        values: [0; MAX_SETTINGS],
    };
    match traced(alloc, none, &script) {
        Ok(_) => Ok(None),
        Err(RunFault::Step(fault)) => {
            if is_memory(fault) {
                return Err(AllocError);
            }
            Ok(Some(fault))
        }
        Err(_) => Err(AllocError),
    }
}

/// The step that is refused of records of this form, which have no fault.
fn step_in(
    alloc: Global,
    bytes: &[u8],
    form: Option<TextForm>,
) -> Result<Option<SimFault>, AllocError>
    ensures { IfOk result (IsStepIn form (rows_of bytes.now)) }
{
    match form {
        Some(TextForm::Script) => refused_in(alloc, bytes),
        _ => Ok(None),
    }
}

/// What is said of a refused step.
fn refused_about(alloc: Global, bytes: &[u8], fault: SimFault) -> Result<Answered, AllocError>
    ensures bad { IfOk result (λ answer. (said_of answer).good ≡ false) }
    ensures quiet { IfOk result (λ answer. (said_of answer).note ≡ None) }
{
    let step = RefusedStep {
        at: fault.at,
        why: fault.why.name(),
        state: state_of(fault.why),
    };
    let text = explain_step(alloc, bytes, step)?;
    Ok(Answered {
        text,
        note: None,
        good: false,
    })
}

/// What is said about the records of these bytes, with the subcommands that take them.
fn rows_about(alloc: Global, bytes: &[u8]) -> Result<Answered, AllocError>
    ensures { IfOk result (λ answer. AreRowsExplained bytes.now (said_of answer)) }
{
    let explained = explain(alloc, bytes)?;
    let form = explained.finding.form();
    if let Some(fault) = step_in(alloc, bytes, form)? {
        let answer = refused_about(alloc, bytes, fault)?;
        return Ok(answer);
    }
    let refuser = refuser_of(alloc, bytes, form)?;
    let text = with_takers(alloc, explained.text, form, refuser)?;
    Ok(Answered {
        text,
        note: None,
        good: form.is_some(),
    })
}

/// What is said about these bytes, with the subcommands that take them.
fn said_about(alloc: Global, bytes: &[u8]) -> Result<Answered, AllocError>
    ensures { IfOk result (λ answer. IsTextExplained (Some bytes.now) (said_of answer)) }
{
    match form_taken(alloc, None, bytes)? {
        CaptureForm::Printed(recorder) => lines_about(alloc, recorder, bytes),
        CaptureForm::Records => rows_about(alloc, bytes),
    }
}

/// Reads all of the input, and tells what text it is, or which record breaks which rule. Both are answers, and the second isn't good.
pub fn over_bytes<R: Read + Drop>(
    alloc: Global,
    records: &mut Records<R>,
) -> Result<Answered, Failure>
    ensures answers { IfOk result (λ answer. IsTextExplained records.old.bytes (said_of answer)) }
    ensures fails { IfErr result (IsExplainFailure records.new.failed) }
{
    let bytes = match records.bytes(alloc) {
        Ok(bytes) => bytes,
        Err(why) => return Err(Failure::Text(records.fault(why))),
    };
    match said_about(alloc, bytes.as_slice()) {
        Ok(answer) => Ok(answer),
        Err(_) => Err(Failure::Memory),
    }
}
