//! Laws of the definitions of a simulation.

ghost use Rattle.std.specs.Prelude.{◌≡◌, ◌+◌, ◌↔◌, ℕ, List};
ghost use Rattle.blk_text.specs.declared.script.Line.{Line};
ghost use Rattle.blk_sim.specs.Simulation.{Where, Plugged, Released, place_after, IsFlushedAndMoved, MovesOn, ticks_of};
ghost use Rattle.blk_sim.specs.State.{SimState};
ghost use Rattle.blk_sim.specs.Runs.{Steps, KeepsBook, TakesRounds};
ghost use Rattle.blk_sim.specs.Simulated.{IsReady};

use blk_sched::Scheduler;

/// A bio is released by just those steps that have a flush of its submitter, and after it a drain of its hardware
/// queue or a run.
pub fn released_by_flush_and_move()
    ensures { (hw s : ℕ) → (steps : List Line)
        → (place_after hw s Plugged steps ≡ Released) ↔ IsFlushedAndMoved hw s steps }
{}

/// One more step moves each bio on by itself.
pub fn one_more_step()
    ensures { (hw s : ℕ) (w : Where) (steps : List Line) (l : Line) → MovesOn hw s w steps l }
{}

/// Under each scheduler, an accepted step leaves each bio where the step moves it, ends as many rounds as it says, and changes neither the setup
/// nor how many plugs and software queues there are.
pub fn each_step_keeps<S: Scheduler>()
    ensures stands { (old : SimState) (l : Line) (new : SimState) → KeepsBook S.policy old l new }
    ensures ready { (n : ℕ) (old : SimState) (l : Line) (new : SimState) → Steps S.policy old l new → IsReady n old → IsReady (n + 1) new }
    ensures rounds { (old : SimState) (l : Line) (new : SimState) → Steps S.policy old l new → TakesRounds (ticks_of l) old new }
    ensures setup { (old : SimState) (l : Line) (new : SimState) → Steps S.policy old l new → new.core.setup ≡ old.core.setup }
{}
