//! Laws of what a person sets, each the contract of a function that does nothing.

ghost use Rattle.std.specs.Prelude.{◌≡◌};
ghost use Rattle.blk_schedulers.specs.declared.given.TheConstants.{MAX_LISTED, MAX_SHORT};
ghost use Rattle.blk_schedulers.specs.declared.numbers.TheConstants.{MAX_LOAD_SUBMITTERS, MAX_LOAD_WORKERS, MAX_LOAD_BIOS, MAX_LOAD_DEPTH, MAX_LOAD_SERVICE};
ghost use Rattle.blk_schedulers.specs.declared.rows.kyber.TheConstants.{MAX_TARGET};
ghost use Rattle.blk_schedulers.specs.declared.settling.TheConstants.{LOAD_READ_EXPIRE, LOAD_WRITE_EXPIRE, LOAD_MAX_SECTORS};

/// The limits of lists, of settings and of loads, by their numbers.
pub fn law_of_limits()
    ensures listed { MAX_LISTED ≡ 64 }
    ensures batches { MAX_SHORT ≡ 65_535 }
    ensures targets { MAX_TARGET ≡ 1_000_000 }
    ensures submitters { MAX_LOAD_SUBMITTERS ≡ 64 }
    ensures workers { MAX_LOAD_WORKERS ≡ 16 }
    ensures bios { MAX_LOAD_BIOS ≡ 2000 }
    ensures tags { MAX_LOAD_DEPTH ≡ 256 }
    ensures service { MAX_LOAD_SERVICE ≡ 1_000_000 }
    ensures reads { LOAD_READ_EXPIRE ≡ 5 }
    ensures writes { LOAD_WRITE_EXPIRE ≡ 50 }
    ensures sectors { LOAD_MAX_SECTORS ≡ 256 }
{}
