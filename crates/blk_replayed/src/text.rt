//! Replays as text.

ghost use Rattle.std.specs.Prelude.{◌≡◌, ◌≤◌, IfOk, IfErr, length};
ghost use Rattle.edd_commands.specs.declared.TheConstants.{MAX_COMMANDS};
ghost use Rattle.blk_capture.specs.Requests.{AreTimed};
ghost use Rattle.blk_replayed.specs.Replays.{AreUnreplayed};
ghost use Rattle.blk_replayed.specs.Text.{replays_told, wanted_of, IsReplaysText};

use crate::answers::replays_answer;
use crate::replays::{Replays, ReplaysAsked, replay_plans};
use answer::{json, lines};
use blk_capture::CapturedRequest;
use blk_schedulers::{Form, SchedFault};
use std::alloc::{AllocError, Global};
use std::thread::Threads;
use turns::Progress;

/// What is said of replays, as it is asked.
fn text_in(
    alloc: Global,
    asked: &ReplaysAsked<'_>,
    replays: &Replays,
) -> Result<Vec<u8>, AllocError>
    ensures { IfOk result (λ text. text.items ≡ replays_told (wanted_of asked.now) replays.now.captured replays.now.replayed.items) }
{
    let answer = replays_answer(alloc, asked.expiries, asked.top, replays)?;
    match asked.form {
        Form::Lines => lines(alloc, &answer),
        Form::Json => json(alloc, &answer),
    }
}

/// What is said of the requests of a capture as they went and in replays: what [`replays_answer`] says of [`replay_plans`], in a form. It is refused as
/// [`replay_plans`] is.
pub fn replays_text<T: Threads + Sync, P: Progress>(
    rt: &T,
    alloc: Global,
    asked: &ReplaysAsked<'_>,
    requests: &[CapturedRequest],
    progress: &mut P,
) -> Result<Vec<u8>, SchedFault>
    requires timed { AreTimed requests.now }
    requires few { length requests.now ≤ MAX_COMMANDS }
    ensures text { IfOk result (λ text. IsReplaysText (wanted_of asked.now) requests.now text.items) }
    ensures unmade { IfErr result (AreUnreplayed asked.now.plans.now) }
{
    let all = match replay_plans(rt, alloc, asked, requests, progress) {
        Ok(all) => all,
        Err(fault) => return Err(fault),
    };
    match text_in(alloc, asked, &all) {
        Ok(text) => Ok(text),
        Err(_) => Err(SchedFault::Memory),
    }
}
