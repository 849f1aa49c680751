//! A theorem on the scripts of captures, as the contract of a function that does nothing.

ghost use Rattle.std.specs.Prelude.{◌≡◌};
ghost use Rattle.blk_arrivals.specs.declared.terms.TheConstants.{USUAL_DEPTH, USUAL_SECTORS, USUAL_SEGMENTS, USUAL_SOFT_DEPTH};

/// What a script of a capture has where nobody says otherwise, by its numbers.
pub fn law_of_limits()
    ensures tags { USUAL_DEPTH ≡ 64 }
    ensures sectors { USUAL_SECTORS ≡ 2560 }
    ensures segments { USUAL_SEGMENTS ≡ 128 }
    ensures room_of_a_software_queue { USUAL_SOFT_DEPTH ≡ 64 }
{}
