//! Simulations under the scheduler that hands out what is due first: they never fall short of the best schedule of their
//! commands.

ghost use Rattle.std.specs.Prelude.{◌≡◌, Bool, true, false, List, IfOk, All};
ghost use Rattle.blk_trace.specs.Happened.{Happened};
ghost use Rattle.blk_trace.specs.Setups.{Setup};
ghost use Rattle.blk_trace.specs.Legal.{IsLegalTrace};
ghost use Rattle.blk_text.specs.declared.script.Line.{Line};
ghost use Rattle.blk_text.specs.Script.{Scripted, IsScript, scripted};
ghost use Rattle.blk_sim.specs.State.{SimState};
ghost use Rattle.blk_online.specs.Ticks.{AtTicks};
ghost use Rattle.blk_online.specs.Best.{HasLeastLateness, IsOneSchedule, HasMostOnTime};
ghost use Rattle.blk_report.specs.declared.figures.Report.{Report};
ghost use Rattle.blk_report.specs.Shortfall.{IsReport};
ghost use Rattle.blk_online_cli.specs.Shortfalls.{HasNoShortfall, HasNoneAvoidable};
ghost use Rattle.blk_online_cli.specs.ByRounds.{IsByRounds, HoldsNow, HoldsByRounds};

use blk_earliest::Earliest;
use blk_sim::{SETUP_RECORD, SimFault, SimReason, simulate};
use blk_text::Script;
use blk_trace::Trace;
use std::alloc::Allocator;

/// Where a script runs its rounds as a whole, with no issue, done, back or tick by hand, what goes out in a round comes before all
/// that waits as it ends, and the round is full if anything waits; with `late_last` so of what is due in the round or later.
///
/// A theorem: it does nothing at run time, and a caller has its clause.
pub fn law_of_rounds_under_earliest()
    ensures { (late_last : Bool) (script : Scripted) (steps : List Line) (end : SimState) → HoldsByRounds late_last script steps end }
{}

/// The report of a trace that is least late has the shortfall 0, or there are no commands.
///
/// A theorem: it does nothing at run time, and a caller has its clause.
pub fn law_of_no_shortfall()
    ensures { (s : Setup) (es : List Happened) (r : Report) → HasLeastLateness s es → IsReport s es r → HasNoShortfall s es r }
{}

/// None of the misses of a legal trace that has the most on time is avoidable.
///
/// A theorem: it does nothing at run time, and a caller has its clause.
pub fn law_of_none_avoidable()
    ensures { (s : Setup) (es : List Happened) → IsLegalTrace s es → HasMostOnTime s es → HasNoneAvoidable s es }
{}

/// The trace of a script under [`Earliest`], as [`simulate`] runs it. Where the script has bios, flushes, drains, depths and runs
/// alone, no legal schedule of the trace's own commands has a smaller greatest lateness, and with `late_last` none keeps more due
/// rounds. Where memory runs out before the scheduler is made, the fault is at the setup's record.
pub fn simulate_earliest<A: Allocator + Clone>(
    alloc: A,
    script: &Script,
    late_last: bool,
) -> Result<Trace<A>, SimFault>
    requires { IsScript (scripted script.now) }
    ensures setup { IfOk result (λ trace. trace.setup ≡ script.now.setup) }
    ensures legal { IfOk result (λ trace. IsLegalTrace trace.setup trace.events) }
    ensures rounds { IfOk result (λ t. All IsByRounds script.now.lines.items → AtTicks (HoldsNow late_last t.setup) t.events) }
    ensures least { IfOk result (λ t. late_last ≡ false → All IsByRounds script.now.lines.items → HasLeastLateness t.setup t.events) }
    ensures one { IfOk result (λ t. late_last ≡ false → All IsByRounds script.now.lines.items → IsOneSchedule t.setup t.events) }
    ensures most { IfOk result (λ t. late_last ≡ true → All IsByRounds script.now.lines.items → HasMostOnTime t.setup t.events) }
{
    // brings the prover the setup's ranges, which the laws of rounds ask for
    let _ = script.setup.hw();
    let Ok(spare) = alloc.clone() else {
        return Err(SimFault {
            at: SETUP_RECORD,
            why: SimReason::Memory,
        });
    };
    let Ok(scheduler) = Earliest::new(spare, late_last) else {
        return Err(SimFault {
            at: SETUP_RECORD,
            why: SimReason::Memory,
        });
    };
    simulate(alloc, script, scheduler)
}
