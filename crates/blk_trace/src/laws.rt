//! Laws of lists of events, each the contract of a function that does nothing.

ghost use Rattle.std.specs.Prelude.{ℕ, ◌↔◌, List};
ghost use Rattle.blk_trace.specs.Happened.{Happened};
ghost use Rattle.blk_trace.specs.Meaning.{IsTimed, StandsInRound};
ghost use Rattle.blk_trace.specs.Setups.{Setup};
ghost use Rattle.blk_trace.specs.Depths.{LastDepthIsInForce, SetupDepthIsInForce};

/// The rounds by which commands are released, due and issued are those of the places in the list: each event is timed by
/// how many Ticks stand before it.
pub fn timed_by_the_ticks_before()
    ensures { (events : List Happened) → (k round : ℕ) → (e : Happened)
        → IsTimed events k round e ↔ StandsInRound events k round e }
{}

/// A round's depth is that of the last Depth in a round before it, or the setup's where there is none.
pub fn depths_by_places()
    ensures set { (setup : Setup) → (events : List Happened) → LastDepthIsInForce setup events }
    ensures none { (setup : Setup) → (events : List Happened) → SetupDepthIsInForce setup events }
{}
