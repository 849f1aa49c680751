//! The job over a script that tries it under each setting of a grid.

ghost use Rattle.std.specs.Prelude.{◌≡◌, IfOk, IfErr, map, string_bytes};
ghost use Rattle.blk_text.specs.Script.{IsScript, SpellsScript, scripted};
ghost use Rattle.blk_schedulers.specs.Wanted.{as_wanted};
ghost use Rattle.blk_runs.specs.Firsts.{AreUnrun};
ghost use Rattle.blk_cli.specs.Inputs.{Of};
ghost use Rattle.blk_cli.specs.Said.{said_of};
ghost use Rattle.blk_cli.specs.Unflushed.{TellsPlugs};
ghost use Rattle.blk_cli.specs.Tuning.{IsTunedIn, IsTrial, IsTuneFailure, FailsToTry};

use crate::Answered;
use crate::failure::Failure;
use crate::forms::written;
use crate::unflushed::with_plugs;
use blk_args::{Form, Tuning, grid_asked};
use blk_records::Records;
use blk_runs::RunFault;
use blk_schedulers::TrialAsked;
use blk_text::{Script, read_script};
use blk_tune::{rows, trial_answer};
use std::alloc::Global;
use std::io::Read;
use std::thread::Threads;
use turns::Progress;

/// What is said of a trial, in a form.
fn tuned_in<T: Threads + Sync, P: Progress>(
    rt: &T,
    alloc: Global,
    form: Form,
    asked: &TrialAsked,
    script: &Script,
    progress: &mut P,
) -> Result<Vec<u8>, RunFault>
    requires { IsScript (scripted script.now) }
    ensures text { IfOk result (λ text. IsTunedIn form (as_wanted asked.now) (scripted script.now) text.items) }
    ensures unrun { IfErr result (AreUnrun (as_wanted asked.now).grid (scripted script.now)) }
{
    let rows = match rows(rt, alloc, asked, script, progress) {
        Ok(rows) => rows,
        Err(fault) => return Err(fault),
    };
    let Ok(answer) = trial_answer(alloc, asked.by, asked.top, rows.as_slice()) else {
        return Err(RunFault::Memory);
    };
    match written(alloc, form, &answer) {
        Ok(text) => Ok(text),
        Err(_) => Err(RunFault::Memory),
    }
}

/// The rows of a script under each setting of the grid that the arguments ask for.
fn trial_of<T: Threads + Sync, P: Progress>(
    rt: &T,
    alloc: Global,
    words: &[String],
    tuning: Tuning,
    script: &Script,
    progress: &mut P,
) -> Result<Vec<u8>, Failure>
    requires { IsScript (scripted script.now) }
    ensures text { IfOk result (λ text. IsTrial (map string_bytes words.now) tuning (scripted script.now) text.items) }
    ensures untried { IfErr result (IsTuneFailure (map string_bytes words.now) (scripted script.now)) }
{
    // `choose` found a trial in these arguments, so they ask for a grid, and only memory can run out.
    let Ok(grid) = grid_asked(alloc, words) else {
        return Err(Failure::Memory);
    };
    let asked = TrialAsked {
        grid,
        by: tuning.by,
        top: tuning.top,
        threads: tuning.threads,
    };
    match tuned_in(rt, alloc, tuning.form, &asked, script, progress) {
        Ok(text) => Ok(text),
        Err(fault) => Err(Failure::Run(fault)),
    }
}

/// What is answered to a trial: its rows, and beside them bios that stay in their plugs.
fn answer_trial<T: Threads + Sync, P: Progress>(
    rt: &T,
    alloc: Global,
    words: &[String],
    tuning: Tuning,
    script: &Script,
    progress: &mut P,
) -> Result<Answered, Failure>
    requires { IsScript (scripted script.now) }
    ensures text { IfOk result (λ a. IsTrial (map string_bytes words.now) tuning (scripted script.now) (said_of a).text) }
    ensures beside { IfOk result (λ a. TellsPlugs (scripted script.now) (said_of a)) }
    ensures untried { IfErr result (IsTuneFailure (map string_bytes words.now) (scripted script.now)) }
{
    let text = match trial_of(rt, alloc, words, tuning, script, progress) {
        Ok(text) => text,
        Err(failure) => return Err(failure),
    };
    match with_plugs(alloc, text, script) {
        Ok(answer) => Ok(answer),
        Err(failure) => Err(failure),
    }
}

/// Reads a script, and tries it under each setting of the grid that the arguments ask for, on the threads of `rt`. `progress` hears
/// how far it has come.
pub fn over_trial<T: Threads + Sync, R: Read + Drop, P: Progress>(
    rt: &T,
    alloc: Global,
    words: &[String],
    tuning: Tuning,
    records: &mut Records<R>,
    progress: &mut P,
) -> Result<Answered, Failure>
    requires { records.old.at ≡ 0 }
    ensures text { IfOk result (λ a. Of SpellsScript (IsTrial (map string_bytes words.now) tuning) records.old.left (said_of a).text) }
    ensures beside { IfOk result (λ a. Of SpellsScript TellsPlugs records.old.left (said_of a)) }
    ensures fails { IfErr result (FailsToTry (map string_bytes words.now) records.old.left records.new.failed) }
{
    let script = match read_script(alloc, records) {
        Ok(script) => script,
        Err(fault) => return Err(Failure::Text(fault)),
    };
    answer_trial(rt, alloc, words, tuning, &script, progress)
}
