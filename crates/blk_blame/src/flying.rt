//! How many requests were at the device when one went out.

ghost use Rattle.std.specs.Prelude.{ℕ, ◌≡◌, count_by, nat_le};
ghost use Rattle.std.specs.List.Sorted.{IsNonDecreasingBy};
ghost use Rattle.blk_capture.specs.Requests.{AreTimed};
ghost use Rattle.blk_capture.specs.Summaries.{back_by};
ghost use Rattle.blk_blame.specs.Flying.{in_flight_from};

use blk_capture::{CapturedRequest, in_flight_at};

/// How many requests were at the device at the time of the dispatch of a number, counted from 1: they went out by then, and weren't completed.
/// Before the first dispatch none was. `completions` are those of [`blk_capture::completions_of`].
pub(crate) fn in_flight_from(requests: &[CapturedRequest], completions: &[u64], number: u64) -> u64
    requires timed { AreTimed requests.now }
    requires sorted { IsNonDecreasingBy (λ x. x) completions.now }
    requires counted { (t : ℕ) → count_by (λ x. nat_le x t) completions.now ≡ count_by (back_by t) requests.now }
    ensures { result ≡ in_flight_from requests.now number }
{
    if number == 0 {
        return 0;
    }
    match requests.get((number - 1) as usize) {
        Some(request) => in_flight_at(requests, completions, request.dispatched),
        None => 0,
    }
}
