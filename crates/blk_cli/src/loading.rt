//! A load on the running layer.

ghost use Rattle.std.specs.Prelude.{◌≡◌, IfOk, IfErr};
ghost use Rattle.blk_cli.specs.Forms.{written_in};
ghost use Rattle.blk_cli.specs.Loading.{IsLoadText, IsLoadOf, IsTextOfRun, IsFailureOfRun, IsLoadFailure, SaysTimes, load_parts};
ghost use Rattle.blk_cli.specs.Said.{said_of};

use crate::Answered;
use crate::failure::Failure;
use crate::forms::written;
use answer::names::{ACCEPTED, LEFT, SERVED};
use answer::{Answer, Value, member};
use blk_args::{Form, ShownLoad};
use blk_schedulers::{Load, Loaded, Loads, Sched, Settled};
use blk_text::trace_text;
use std::alloc::{AllocError, Global};
use std::sync::Wait;
use std::thread::Threads;
use text_output::Draft;

/// What came of a load: the members `accepted`, `served` and `left`, in bios.
fn load_answer(alloc: Global, settled: Settled) -> Result<Answer, AllocError>
    ensures { IfOk result (λ answer. answer ≡ load_parts settled) }
{
    let mut answer = Answer::new(alloc);
    answer.add(member(ACCEPTED, Value::Count(settled.accepted)))?;
    answer.add(member(SERVED, Value::Count(settled.served)))?;
    answer.add(member(LEFT, Value::Count(settled.left)))?;
    Ok(answer)
}

/// The same in this form.
fn account_text(alloc: Global, form: Form, settled: Settled) -> Result<Vec<u8>, AllocError>
    ensures { IfOk result (λ text. text.items ≡ written_in form (load_parts settled)) }
{
    let answer = load_answer(alloc, settled)?;
    written(alloc, form, &answer)
}

/// The text that is asked for, of a load.
fn loaded_text(alloc: Global, shown: ShownLoad, loaded: &Loaded) -> Result<Vec<u8>, AllocError>
    ensures { IfOk result (λ text. IsLoadText shown loaded.now.trace loaded.now.settled text.items) }
{
    match shown {
        ShownLoad::Account(form) => account_text(alloc, form, loaded.settled),
        ShownLoad::Trace => trace_text(alloc, &loaded.trace),
    }
}

/// Adds a time in milliseconds, of which the microseconds are given.
fn push_millis(draft: &mut Draft, micros: u64) -> Result<(), AllocError> {
    draft.number(micros / 1000)?;
    draft.text(b".")?;
    draft.number(micros % 1000 / 100)?;
    draft.text(b" ms")
}

/// The line on how long serving took, and settling, where that is known.
fn times_line(alloc: Global, loaded: &Loaded) -> Result<Option<Vec<u8>>, AllocError> {
    let Some(times) = loaded.times else {
        return Ok(None);
    };
    let mut draft = Draft::new(alloc);
    draft.text(b"blk: served ")?;
    draft.number(loaded.settled.served)?;
    draft.text(b" in ")?;
    push_millis(&mut draft, times.serving)?;
    draft.text(b", settled in ")?;
    push_millis(&mut draft, times.settling)?;
    draft.text(b"\n")?;
    Ok(Some(draft.finish()?))
}

/// The same text, with that line beside it where it is asked for.
fn loaded_answer(
    alloc: Global,
    shown: ShownLoad,
    times: bool,
    loaded: &Loaded,
) -> Result<Answered, AllocError>
    ensures text { IfOk result (λ a. IsLoadText shown loaded.now.trace loaded.now.settled (said_of a).text) }
    ensures beside { IfOk result (λ a. SaysTimes times (said_of a)) }
{
    let note = if times {
        times_line(alloc, loaded)?
    } else {
        None
    };
    Ok(Answered {
        text: loaded_text(alloc, shown, loaded)?,
        note,
        good: true,
    })
}

/// Runs a load under a scheduler, and gives the text that is asked for; with how long it took beside it, where that is.
pub fn run_load<L: Loads, R: Threads + Wait + Sync>(
    loads: &L,
    rt: &R,
    alloc: Global,
    sched: Sched,
    amounts: Load,
    shown: ShownLoad,
    times: bool,
) -> Result<Answered, Failure>
    ensures text { IfOk result (λ a. IsLoadOf sched shown amounts (said_of a).text) }
    ensures beside { IfOk result (λ a. SaysTimes times (said_of a)) }
    ensures unloaded { IfErr result (IsLoadFailure sched amounts) }
    ensures ran { IfOk result (λ a. IsTextOfRun L.ends_as sched amounts shown (said_of a).text) }
    ensures failed { IfErr result (IsFailureOfRun L.ends_as sched amounts) }
{
    match loads.run(rt, alloc, sched, amounts) {
        Ok(loaded) => match loaded_answer(alloc, shown, times, &loaded) {
            Ok(answer) => Ok(answer),
            Err(_) => Err(Failure::Memory),
        },
        Err(fault) => Err(Failure::Load(fault)),
    }
}
