//! A theorem on what recorders print, as the contract of a function that does nothing.

ghost use Rattle.std.specs.Prelude.{◌≡◌};
ghost use Rattle.blk_recorders.specs.declared.detect.TheConstants.{FIRST_LINES};
ghost use Rattle.blk_recorders.specs.declared.steps.TheConstants.{MAX_STEPS};

/// How many steps are read, and in how many lines a recorder is looked for, by their numbers.
pub fn law_of_limits()
    ensures steps { MAX_STEPS ≡ 16_000_000 }
    ensures lines { FIRST_LINES ≡ 100 }
{}
