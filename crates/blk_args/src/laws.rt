//! A theorem on the command line, as the contract of a function that does nothing.

ghost use Rattle.std.specs.Prelude.{◌≡◌};
ghost use Rattle.blk_args.specs.declared.table.TheConstants.{MAX_BUSY, MAX_TAGS, MAX_THREADS, MAX_TOP};

/// The limits of the options of the command line alone, by their numbers.
pub fn law_of_limits()
    ensures busy { MAX_BUSY ≡ 1_000_000 }
    ensures rows { MAX_TOP ≡ 1_000_000 }
    ensures threads { MAX_THREADS ≡ 256 }
    ensures tags { MAX_TAGS ≡ 1_000_000 }
{}
