//! How long at least one request waited.

ghost use Rattle.std.specs.Prelude.{◌≡◌};
ghost use Rattle.blk_capture.specs.Requests.{AreTimed};
ghost use Rattle.blk_blame.specs.Waited.{last_dispatch, waited_of};

use blk_capture::CapturedRequest;

/// When the last of the requests went out, 0 where there are none.
fn last_dispatch(requests: &[CapturedRequest]) -> u64
    ensures { result ≡ last_dispatch requests.now }
{
    match requests.last() {
        Some(last) => last.dispatched,
        None => 0,
    }
}

/// How long, in nanoseconds, at least one of the requests waited: it had come in, and had not gone out. The requests are in the order of their
/// dispatches. The time grows as n.
pub(crate) fn waited_of(requests: &[CapturedRequest]) -> u64
    requires { AreTimed requests.now }
    ensures { result ≡ waited_of requests.now }
{
    let last = last_dispatch(requests);
    let mut waited = 0;
    // when the first of the later ones came in: from then until this one went out one of them waited
    let mut first = last;
    for place in (0..requests.len()).rev() {
        let request = &requests[place];
        waited += request.dispatched.min(first).saturating_sub(request.entry);
        first = request.entry.min(first);
    }
    waited
}
