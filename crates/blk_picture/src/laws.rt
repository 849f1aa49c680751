//! Theorems on pictures, each the contract of a function that does nothing.

ghost use Rattle.std.specs.Prelude.{ℕ, ◌≡◌, ◌<◌, ◌∷◌, [], List, take, drop};
ghost use Rattle.blk_trace.specs.Traces.{Traced};
ghost use Rattle.blk_trace.specs.Happened.{Happened};
ghost use Rattle.blk_trace.specs.Setups.{Setup};
ghost use Rattle.blk_trace.specs.Events.{round_of};
ghost use Rattle.blk_trace.specs.Legal.{IsLegalTrace};
ghost use Rattle.blk_picture.specs.Pictures.{rounds_shown, most_rounds};
ghost use Rattle.blk_picture.specs.Sums.{HoldsScaled, ShowsAll, ShowsAllOfEach, WhereAllIsShown, ReadsAddUp, WritesAddUp, LatesAddUp, BacksAddUp, BoxesAddUp, RoomsAddUp, ColumnsFit, IdlePlacesAddUp};
ghost use Rattle.blk_picture.specs.declared.around.TheConstants.{MAX_CROWDS, MAX_LABELLED};
ghost use Rattle.blk_picture.specs.declared.parts.TheConstants.{MAX_TRACES};
ghost use Rattle.blk_picture.specs.declared.scale.TheConstants.{LEFT, MAX_AXIS_STEPS, MAX_COLUMNS, MAX_COLUMN_WIDE, MAX_STEP, MAX_TAG_TALL, MAX_TALL, MAX_WIDE, MIN_TAG_TALL, STEPS, TOP};

/// How many columns, windows and traces a picture has at most, how large it is, and by how many rounds its axis counts, by their numbers.
pub fn law_of_limits()
    ensures columns { MAX_COLUMNS ≡ 400 }
    ensures windows { MAX_CROWDS ≡ 400 }
    ensures labelled { MAX_LABELLED ≡ 12 }
    ensures traces { MAX_TRACES ≡ 1000 }
    ensures left { LEFT ≡ 64 }
    ensures above { TOP ≡ 182 }
    ensures wide { (MAX_WIDE ≡ 1200) × (MAX_COLUMN_WIDE ≡ 40) }
    ensures tall { (MAX_TALL ≡ 384) × (MIN_TAG_TALL ≡ 3) × (MAX_TAG_TALL ≡ 24) }
    ensures few { take 7 STEPS ≡ 1 ∷ 2 ∷ 5 ∷ 10 ∷ 20 ∷ 50 ∷ 100 ∷ [] }
    ensures many { drop 7 STEPS ≡ 200 ∷ 500 ∷ 1000 ∷ 2000 ∷ 5000 ∷ 10_000 ∷ 20_000 ∷ 50_000 ∷ [] }
    ensures axis { (MAX_AXIS_STEPS ≡ 24) × (MAX_STEP ≡ 100_000) }
{}

/// The columns of the scale of a number of rounds stand for all that was issued before the last of them, however many rounds a column stands
/// for, also where that does not divide their number, and whichever are drawn. So do those of the one scale of several traces for each of them.
///
/// A theorem: it does nothing at run time, and a caller has its clauses.
pub fn law_of_scales()
    ensures rounds { (events : List Happened) → (rounds : ℕ) → round_of events < rounds → HoldsScaled rounds (ShowsAll events) }
    ensures own { (t : Traced) → HoldsScaled (rounds_shown t) (ShowsAll t.events) }
    ensures several { (traces : List Traced) → HoldsScaled (most_rounds traces) (ShowsAllOfEach traces) }
{}

/// On such a scale the numbers of all columns add up to those of the trace: the boxes of each kind, and all boxes; and the rooms to
/// what the rounds that are shown carry. In a legal trace no column has more boxes than room, and the idle places add up to what the
/// rounds carry less the boxes.
///
/// A theorem: it does nothing at run time, and a caller has its clauses.
pub fn law_of_columns()
    ensures reads { (setup : Setup) → (events : List Happened) → WhereAllIsShown ReadsAddUp setup events }
    ensures writes { (setup : Setup) → (events : List Happened) → WhereAllIsShown WritesAddUp setup events }
    ensures lates { (setup : Setup) → (events : List Happened) → WhereAllIsShown LatesAddUp setup events }
    ensures backs { (setup : Setup) → (events : List Happened) → WhereAllIsShown BacksAddUp setup events }
    // each box is of one of these kinds
    ensures all { (setup : Setup) → (events : List Happened) → WhereAllIsShown BoxesAddUp setup events }
    ensures rooms { (setup : Setup) → (events : List Happened) → WhereAllIsShown RoomsAddUp setup events }
    ensures fits { (setup : Setup) → (events : List Happened)
        → IsLegalTrace setup events → WhereAllIsShown ColumnsFit setup events }
    ensures idle { (setup : Setup) → (events : List Happened)
        → IsLegalTrace setup events → WhereAllIsShown IdlePlacesAddUp setup events }
{}
