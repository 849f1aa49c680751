//! Laws of schedules that are decided online: round by round, by what is there, with nothing known of what is to come.
//!
//! A scheduler that serves what is due first is never later than it has to be, and one that first serves what can still be
//! on time has as much on time as can be. The rules are Jackson's and Horn's for the greatest lateness and Glover's for the number
//! of jobs on time (Pinedo, Scheduling, on Lmax and on the number of tardy jobs), here for unit commands with
//! release rounds on equal places whose number may change from round to round.
#![tactic(auto)]

ghost use Rattle.std.specs.Prelude.{List};
ghost use Rattle.edd_commands.specs.declared.Command.{Command};
ghost use Rattle.edd_commands.specs.declared.steps.Step.{Step};
ghost use Rattle.blk_trace.specs.Happened.{Happened};
ghost use Rattle.blk_trace.specs.Setups.{Setup, IsSetup};
ghost use Rattle.blk_trace.specs.Legal.{IsLegalTrace};
ghost use Rattle.blk_online.specs.Ticks.{IsEarliestTrace, IsOnTimeFirstTrace};
ghost use Rattle.blk_online.specs.Best.{EarliestDueFirstIsLeastLate, OnTimeFirstHasMostOnTime, RunsEarliestFirst, RunsOnTimeFirst, IsOneSchedule, HasLeastLateness, IsLaterThanLeast, HasMostOnTime};
ghost use Rattle.blk_online.specs.DueFirst.{DueFirstIsLeastLate, OnTimeDueFirstHasMost};
ghost use Rattle.blk_online.specs.Issues.{IsEarliestAtIssues, ServesOnTimeAtIssues, one_tag, read_too_late};

/// A legal schedule by earliest due date first is least late.
///
/// A theorem: it does nothing at run time, and a caller has its clause.
pub fn law_of_earliest_due_first()
    ensures { (commands : List Command) → (steps : List Step) → EarliestDueFirstIsLeastLate commands steps }
{}

/// A legal schedule that first serves what can still be on time has the most on time, in whatever order it serves the rest.
///
/// A theorem: it does nothing at run time, and a caller has its clause.
pub fn law_of_on_time_first()
    ensures { (commands : List Command) → (steps : List Step) → OnTimeFirstHasMostOnTime commands steps }
{}

/// Ties may be broken in any way: where, of what waits, what is due first goes first, of two that are due in one round either, a legal schedule
/// is least late; and where what can still be on time goes so before the rest, it has the most on time.
///
/// A theorem: it does nothing at run time, and a caller has its clauses.
pub fn law_of_ties()
    ensures least { (commands : List Command) → (steps : List Step) → DueFirstIsLeastLate commands steps }
    ensures most { (commands : List Command) → (steps : List Step) → OnTimeDueFirstHasMost commands steps }
{}

/// Where, as each round of a legal trace ends, what went out in it comes before all that waits, and the round is full if
/// anything waits, the trace's rounds are those of the one schedule of its commands by earliest due date first, and so are
/// least late. What waits is read as the round ends: what came in after an Issue of the round counts too. The last round, which
/// no Tick ends, is free.
///
/// A theorem: it does nothing at run time, and a caller has its clauses.
pub fn law_of_earliest_traces()
    ensures first { (setup : Setup) → (events : List Happened)
        → IsEarliestTrace setup events → RunsEarliestFirst setup events }
    // the oracle's schedule is such a one
    ensures one { (setup : Setup) → (events : List Happened)
        → IsSetup setup → IsEarliestTrace setup events → IsOneSchedule setup events }
    ensures least { (setup : Setup) → (events : List Happened)
        → IsEarliestTrace setup events → HasLeastLateness setup events }
{}

/// Where that holds of what waits and is due in the round or later, with what went out due then too, the trace has as many
/// commands on time as any legal schedule of them.
///
/// A theorem: it does nothing at run time, and a caller has its clauses.
pub fn law_of_late_last_traces()
    ensures first { (setup : Setup) → (events : List Happened)
        → IsOnTimeFirstTrace setup events → RunsOnTimeFirst setup events }
    ensures most { (setup : Setup) → (events : List Happened)
        → IsOnTimeFirstTrace setup events → HasMostOnTime setup events }
{}

/// If what waits were read as each command goes out, and not as its round ends, both laws would be false. In a legal trace a
/// write goes out while nothing else waits, and then a read comes in that is due sooner. Each command came first of what waited as it
/// went out, and the round was full as it ended; but the read is a round late, and it need not have been.
///
/// A theorem: it does nothing at run time, and a caller has its clauses.
pub fn law_of_issues()
    ensures legal { IsSetup one_tag × IsLegalTrace one_tag read_too_late }
    ensures earliest { IsEarliestAtIssues one_tag read_too_late }
    ensures late { IsLaterThanLeast one_tag read_too_late }
    ensures on_time_first { ServesOnTimeAtIssues one_tag read_too_late }
    ensures missed { HasMostOnTime one_tag read_too_late → ⊥ }
{}
