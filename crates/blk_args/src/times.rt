//! Times on the command line.

ghost use Rattle.std.specs.Prelude.{◌≡◌};
ghost use Rattle.blk_args.specs.Times.{in_unit, time_of};

use crate::lists::plain_number;

/// The nanoseconds of a number with this unit, which is one of `nanoseconds`; or of other units, what that stands for.
pub(crate) fn in_unit(text: &str, unit: &str, nanoseconds: u64) -> Option<u64>
    ensures { result ≡ in_unit unit.now nanoseconds text.now }
{
    match text.strip_suffix(unit) {
        Some(number) => match plain_number(number, u64::MAX) {
            Some(count) => count.checked_mul(nanoseconds),
            None => None,
        },
        None => None,
    }
}

/// The nanoseconds of a time, a number in decimal digits, without a sign or a leading zero, and its unit: `ns`, `us`, `ms` or `s`. None where the text is no time, or one of
/// 2^64 nanoseconds or more, some 584 years.
pub fn time_of(text: &str) -> Option<u64>
    ensures { result ≡ time_of text.now }
{
    let nanoseconds = in_unit(text, "ns", 1);
    let microseconds = in_unit(text, "us", 1_000);
    let milliseconds = in_unit(text, "ms", 1_000_000);
    let seconds = in_unit(text, "s", 1_000_000_000);
    nanoseconds.or(microseconds).or(milliseconds).or(seconds)
}
