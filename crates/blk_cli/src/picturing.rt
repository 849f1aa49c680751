//! The pictures of a script under several schedulers.

ghost use Rattle.std.specs.Prelude.{IfOk, IfErr, All};
ghost use Rattle.blk_text.specs.Script.{IsScript, scripted};
ghost use Rattle.blk_schedulers.specs.Made.{IsMade};
ghost use Rattle.blk_schedulers.specs.Scheds.{in_turn};
ghost use Rattle.blk_runs.specs.Firsts.{AreUnrun};
ghost use Rattle.blk_cli.specs.Comparing.{AreTraces, IsCompareFailure, AreDrawn};

use crate::comparing::names_of;
use crate::failure::Failure;
use blk_picture::pictures;
use blk_runs::{RunFault, traced, unmade};
use blk_schedulers::{ComparedScheds, Sched};
use blk_text::Script;
use blk_trace::Trace;
use std::alloc::Global;

/// The traces of a script under each of these schedulers, which run it in turn: once a step is refused, the later ones don't run it.
fn traces_of(alloc: Global, scheds: &[Sched], script: &Script) -> Result<Vec<Trace>, RunFault>
    requires script { IsScript (scripted script.now) }
    requires made { All IsMade scheds.now }
    ensures traces { IfOk result (λ all. AreTraces scheds.now (scripted script.now) all.items) }
    ensures uncompared { IfErr result (AreUnrun scheds.now (scripted script.now)) }
{
    let mut all = Vec::new(alloc);
    for i in 0..scheds.len() {
        let trace = match traced(alloc, scheds[i], script) {
            Ok(trace) => trace,
            Err(fault) => return Err(fault),
        };
        let Ok(()) = all.push(trace) else {
            return Err(RunFault::Memory);
        };
    }
    Ok(all)
}

/// The same, once all of them are made of their settings.
fn drawn_under(alloc: Global, scheds: &[Sched], script: &Script) -> Result<Vec<Trace>, RunFault>
    requires { IsScript (scripted script.now) }
    ensures traces { IfOk result (λ all. AreTraces scheds.now (scripted script.now) all.items) }
    ensures uncompared { IfErr result (AreUnrun scheds.now (scripted script.now)) }
{
    match unmade(scheds) {
        Some(fault) => Err(RunFault::Sched(fault)),
        None => traces_of(alloc, scheds, script),
    }
}

/// The pictures of a script under each scheduler of a lineup, as one.
pub fn pictures_of(
    alloc: Global,
    lineup: ComparedScheds,
    script: &Script,
) -> Result<Vec<u8>, Failure>
    requires { IsScript (scripted script.now) }
    ensures drawn { IfOk result (λ text. AreDrawn lineup (scripted script.now)) }
    ensures uncompared { IfErr result (IsCompareFailure (in_turn lineup) (scripted script.now)) }
{
    let Ok(scheds) = lineup.in_turn(alloc) else {
        return Err(Failure::Memory);
    };
    let rows = scheds.as_slice();
    let traces = match drawn_under(alloc, rows, script) {
        Ok(traces) => traces,
        Err(fault) => return Err(Failure::Run(fault)),
    };
    let Ok(names) = names_of(alloc, rows) else {
        return Err(Failure::Memory);
    };
    match pictures(alloc, names.as_slice(), traces.as_slice()) {
        Ok(text) => Ok(text),
        Err(_) => Err(Failure::Memory),
    }
}
