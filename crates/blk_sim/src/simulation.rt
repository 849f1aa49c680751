//! A script's steps, run one after the other over plugs, software queues and the core.

ghost use Rattle.std.specs.Prelude.{◌≡◌, ◌<◌, ◌≤◌, [], replicate, IfOk, OnOk, IfErr, length, sum_by, IsPermutation};
ghost use Rattle.blk_bio.specs.declared.limits.TheConstants.{MAX_SOFT_DEPTH};
ghost use Rattle.blk_sched.specs.Meaning.{at_start};
ghost use Rattle.blk_trace.specs.Events.{entered, round_of};
ghost use Rattle.blk_trace.specs.Legal.{IsLegalTrace};
ghost use Rattle.blk_text.specs.Script.{IsScript, LineFits, scripted};
ghost use Rattle.blk_sim.specs.Simulation.{released_bios, ticks_of};
ghost use Rattle.blk_sim.specs.State.{SimState, start_of, empty_queue};
ghost use Rattle.blk_sim.specs.Runs.{Steps, LeadsTo};
ghost use Rattle.blk_sim.specs.Refusals.{IsSimFault, IsStepRefused};
ghost use Rattle.blk_sim.specs.Simulated.{IsReady};

use crate::refusal::{SimFault, SimReason};
use crate::rounds::run;
use crate::steps::{add, back, done, drain, flush, issue, set_depth, tick};
use blk_bio::Limits;
use blk_core::Core;
use blk_queues::{MAX_BIOS, Plug, SoftQueue};
use blk_sched::Scheduler;
use blk_text::{Line, Script};
use blk_trace::Trace;
use std::alloc::{AllocError, Allocator};
use std::marker::Model;

/// The record of a script's setup, from 1 on: the title is before it.
pub const SETUP_RECORD: u64 = 2;

/// The record of a script's first step, from 1 on: those before it are the title and the setup.
pub const FIRST_STEP: u64 = 3;

/// A script between two of its steps: the plugs and the software queues, one of each for a submitter, and the core.
#[derive(Drop)]
struct Simulation<S: Scheduler> {
    plugs: Vec<Plug<S::A>, S::A>,
    queues: Vec<SoftQueue<S::A>, S::A>,
    core: Core<S>,
}

impl<S: Scheduler> Model for Simulation<S> {
    ghost use Rattle.blk_sim.specs.Inside.Codes.{sim_code};
    ghost use Rattle.blk_sim.specs.State.{SimState};

    ghost Value = { SimState };

    ghost coded = { sim_code };

    ghost view = { λ s. record { plugs = s.plugs.items; queues = s.queues.items; core = s.core } };
}

/// `count` plugs without requests.
fn new_plugs<A: Allocator + Clone>(
    alloc: A,
    count: u64,
    limits: Limits,
) -> Result<Vec<Plug<A>, A>, AllocError>
    ensures { IfOk result (λ plugs. plugs.items ≡ replicate count (record { limits = limits; requests = [] })) }
{
    let mut plugs = Vec::new(alloc.clone()?);
    for _ in 0..count {
        let plug = Plug::new(alloc.clone()?, limits)?;
        let Ok(()) = plugs.push(plug) else {
            return Err(AllocError);
        };
    }
    Ok(plugs)
}

/// `count` software queues without requests.
fn new_queues<A: Allocator + Clone>(
    alloc: A,
    count: u64,
    depth: u64,
    limits: Limits,
) -> Result<Vec<SoftQueue<A>, A>, AllocError>
    requires { (1 ≤ depth) × (depth ≤ MAX_SOFT_DEPTH) }
    ensures { IfOk result (λ queues. queues.items ≡ replicate count (empty_queue depth limits)) }
{
    let mut queues = Vec::new(alloc.clone()?);
    for _ in 0..count {
        let queue = SoftQueue::new(alloc.clone()?, depth, limits)?;
        let Ok(()) = queues.push(queue) else {
            return Err(AllocError);
        };
    }
    Ok(queues)
}

impl<S: Scheduler> Simulation<S> {
    /// A script before its first step.
    fn new(alloc: S::A, script: &Script, scheduler: S) -> Result<Simulation<S>, AllocError>
        requires script { IsScript (scripted script.now) }
        requires start { S.meaning scheduler ≡ at_start (S.meaning scheduler).front }
        ensures { IfOk result (λ s. s ≡ start_of (scripted script.now) (S.meaning scheduler) (S.kept scheduler)) }
    {
        let limits = script.setup.limits();
        let count = script.submitters;
        let plugs = new_plugs(alloc.clone()?, count, limits)?;
        let queues = new_queues(alloc.clone()?, count, script.soft_depth, limits)?;
        match Core::new(alloc, script.setup, scheduler) {
            Ok(core) => Ok(Simulation {
                plugs,
                queues,
                core,
            }),
            Err(_) => Err(AllocError),
        }
    }

    /// What happened.
    fn into_trace(self) -> Trace<S::A>
        ensures setup { result.setup ≡ self.core.setup }
        ensures events { result.events ≡ self.core.events }
        ensures legal { IsLegalTrace self.core.setup self.core.events }
    {
        let Simulation {
            plugs: _plugs,
            queues: _queues,
            core,
        } = self;
        core.into_trace()
    }

    /// Runs one step.
    fn step(&mut self, line: Line) -> Result<(), SimReason>
        requires ready { IsReady MAX_BIOS self.old }
        requires fits { LineFits self.old.core.setup.hw (length self.old.plugs) line }
        ensures stepped { OnOk result (Steps S.policy self.old line self.new) }
        ensures refused { IfErr result (λ w. IsStepRefused S.policy self.old line w) }
    {
        match line {
            Line::Bio(bio) => {
                add(&mut self.plugs, bio)?;
                Ok(())
            }
            Line::Flush(submitter) => {
                flush(&mut self.plugs, &mut self.queues, submitter)?;
                Ok(())
            }
            Line::Drain { hw } => {
                drain(&mut self.core, &mut self.queues, hw)?;
                Ok(())
            }
            Line::Issue { hw, tag } => {
                issue(&mut self.core, hw, tag)?;
                Ok(())
            }
            Line::Done(tag) => {
                done(&mut self.core, tag)?;
                Ok(())
            }
            Line::Back(tag) => {
                back(&mut self.core, tag)?;
                Ok(())
            }
            Line::Depth(depth) => {
                set_depth(&mut self.core, depth)?;
                Ok(())
            }
            Line::Tick => {
                tick(&mut self.core)?;
                Ok(())
            }
            Line::Run(count) => {
                run(&mut self.core, &mut self.queues, count)?;
                Ok(())
            }
        }
    }
}

/// The trace of a script under a scheduler in which nothing waits: its steps are run in their order, each bio going
/// from its submitter's plug through its software queue into the core, as in Linux's blk-mq. The first step that is
/// refused ends it, as the fault says, and so does running out of memory.
pub fn simulate<S: Scheduler>(
    alloc: S::A,
    script: &Script,
    scheduler: S,
) -> Result<Trace<S::A>, SimFault>
    requires script { IsScript (scripted script.now) }
    requires start { S.meaning scheduler ≡ at_start (S.meaning scheduler).front }
    // the trace is that of a simulation to which all steps lead, from the start
    ensures ran { IfOk result (λ t. LeadsTo S.policy (scripted script.now) (S.meaning scheduler) (S.kept scheduler) t.setup t.events) }
    ensures setup { IfOk result (λ trace. trace.setup ≡ script.now.setup) }
    ensures legal { IfOk result (λ trace. IsLegalTrace trace.setup trace.events) }
    ensures bios { IfOk result (λ trace. IsPermutation (entered trace.events) (released_bios script.now.setup.hw script.now.lines.items)) }
    ensures ticks { IfOk result (λ trace. round_of trace.events ≡ sum_by ticks_of script.now.lines.items) }
    ensures fault { IfErr result (IsSimFault S.policy (scripted script.now) (S.meaning scheduler) (S.kept scheduler)) }
{
    let Ok(mut simulation) = Simulation::new(alloc, script, scheduler) else {
        return Err(SimFault {
            at: SETUP_RECORD,
            why: SimReason::Memory,
        });
    };
    for (place, line) in script.lines.iter().enumerate() {
        if let Err(why) = simulation.step(*line) {
            return Err(SimFault {
                at: place as u64 + FIRST_STEP,
                why,
            });
        }
    }
    Ok(simulation.into_trace())
}
