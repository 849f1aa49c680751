//! The state that a list of events leaves, by a fold, and its laws, each the contract of a function that does nothing.
#![tactic(auto)]

ghost use Rattle.std.specs.Prelude.{ℕ, ◌≡◌, ◌↔◌, List, IsTrue, IfOk, count_by, is_some, not, map, filter, reverse};
ghost use Rattle.blk_trace.specs.Happened.{Happened};
ghost use Rattle.blk_trace.specs.Kinds.{completes};
ghost use Rattle.blk_trace.specs.Setups.{Setup};
ghost use Rattle.blk_trace.specs.Events.{request_of, open_count, IsReleased, IsIssued, AreRequeued, IsOpen, IsUsed};
ghost use Rattle.blk_trace.specs.Issues.{issues_of};
ghost use Rattle.blk_trace.specs.Meaning.{commands_of, rounds_of, waiting_ids, waiting_of};
ghost use Rattle.blk_trace.specs.Waits.{waits_at};
ghost use Rattle.blk_picture.specs.Boxes.{boxes_of};
ghost use Rattle.blk_report.specs.Services.{service_of, services_of};
ghost use Rattle.blk_report.specs.Overdue.{is_overdue};
ghost use Rattle.blk_trace_state.specs.Reports.{service_now, services_now, overdue_now};
ghost use Rattle.blk_trace_state.specs.State.{has_entry, has_issue, is_out, is_open, is_used, flying_now, done_now, request_now, commands_now, rounds_now, waits_now, waiting_now, waiting_bios_now};
ghost use Rattle.blk_trace_state.specs.Replay.{replay};
ghost use Rattle.blk_trace_state.specs.Laws.{AnswersWhereLegal, AnswersFirstIllegal, TellsFirstBroken, TellsUnbroken, GivesNext, Leaves, IsStateOf};
ghost use Rattle.blk_trace_state.specs.Rows.{small, long, RowsHold, LateRowsHold, LongLeaves};

/// Replay answers a state exactly where the list is legal. Where it isn't, it answers the place of the first event that
/// breaks a rule, and the first rule that it breaks.
///
/// A theorem: it does nothing at run time, and a caller has its clauses.
pub fn law_of_replay()
    ensures legal { (setup : Setup) → (events : List Happened) → AnswersWhereLegal setup events }
    ensures refused { (setup : Setup) → (events : List Happened) → AnswersFirstIllegal setup events }
{}

/// The state alone tells what one more event breaks, and what it leaves.
///
/// A theorem: it does nothing at run time, and a caller has its clauses.
pub fn law_of_steps()
    ensures broken { Leaves TellsFirstBroken }
    ensures unbroken { Leaves TellsUnbroken }
    ensures next { Leaves GivesNext }
{}

/// The state of a legal list, field by field, in terms of the list's places.
///
/// A theorem: it does nothing at run time, and a caller has its clauses.
pub fn law_of_states()
    ensures { Leaves IsStateOf }
{}

/// What is read off the state of a legal list is what the list says.
///
/// A theorem: it does nothing at run time, and a caller has its clauses.
pub fn law_of_projections()
    ensures commands { Leaves (λ setup events s. commands_now s ≡ commands_of setup events) }
    ensures rounds { Leaves (λ setup events s. rounds_now s ≡ rounds_of events) }
    ensures issues { Leaves (λ setup events s. s.issued ≡ issues_of events) }
    ensures requests { Leaves (λ setup events s. map (service_now s) s.issued ≡ map (service_of setup events) (issues_of events)) }
    ensures services { Leaves (λ setup events s. services_now s ≡ services_of setup events) }
    ensures overdue { Leaves (λ setup events s. (id : ℕ) → overdue_now s id ≡ is_overdue setup events id) }
    ensures waits { Leaves (λ setup events s. (id : ℕ) → waits_now s id ≡ waits_at setup events id) }
    ensures waiting { Leaves (λ setup events s. waiting_now s ≡ waiting_ids events) }
    ensures bios { Leaves (λ setup events s. waiting_bios_now s ≡ waiting_of events) }
    ensures request { Leaves (λ setup events s. (id : ℕ) → request_now s id ≡ request_of events id) }
    ensures flying { Leaves (λ setup events s. flying_now s ≡ open_count events) }
    ensures done { Leaves (λ setup events s. done_now s ≡ count_by (λ e. is_some (completes e)) events) }
    ensures released { Leaves (λ setup events s. (id : ℕ) → IsTrue (has_entry s id) ↔ IsReleased events id) }
    ensures issued { Leaves (λ setup events s. (id : ℕ) → IsTrue (has_issue s id) ↔ IsIssued events id) }
    ensures gone { Leaves (λ setup events s. (id : ℕ) → IsTrue (is_out s id) ↔ (AreRequeued events id → ⊥)) }
    ensures opened { Leaves (λ setup events s. (tag : ℕ) → IsTrue (is_open s tag) ↔ IsOpen events tag) }
    ensures used { Leaves (λ setup events s. (tag : ℕ) → IsTrue (is_used s tag) ↔ IsUsed events tag) }
{}

/// The boxes of a picture are the Issues with their requests, the last one first; those that were not requeued are what a report serves.
///
/// A theorem: it does nothing at run time, and a caller has its clauses.
pub fn law_of_boxes()
    ensures issues { (setup : Setup) → (events : List Happened) → reverse (boxes_of setup events) ≡ map (service_of setup events) (issues_of events) }
    ensures services { (setup : Setup) → (events : List Happened) → filter (λ b. not b.back) (reverse (boxes_of setup events)) ≡ services_of setup events }
{}

/// Worked rows, which the checker computes: legal lists, lists that break each rule in each way, and what a long one
/// leaves.
///
/// A theorem: it does nothing at run time, and a caller has its clauses.
pub fn worked_rows()
    ensures rows { RowsHold }
    ensures late { LateRowsHold }
    ensures long { IfOk (replay small long) LongLeaves }
{}
