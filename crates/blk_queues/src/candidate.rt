//! The search for the request that a bio joins.

ghost use Rattle.std.specs.Prelude.{◌∷◌, [], IfNone, IfSome, true};
ghost use Rattle.blk_bio.specs.Requests.{IsJoinCandidate};
ghost use Rattle.blk_queues.specs.Plugs.{HasNoPlugCandidate};

use blk_bio::{Bio, Limits, Request, Side};
use std::alloc::Allocator;
use std::collections::VecDeque;

/// The place of the newest request that the bio fits, and the side, in a slice of requests.
fn candidate_of<A: Allocator + Clone>(
    requests: &[Request<A>],
    bio: &Bio,
    limits: &Limits,
) -> Option<(usize, Side)>
    ensures some { IfSome result (λ found. IsJoinCandidate limits.now true requests.now (bio.now ∷ []) found.0 found.1) }
    ensures none { IfNone result (HasNoPlugCandidate limits.now requests.now (bio.now ∷ [])) }
{
    let mut place = requests.len();
    while place > 0 {
        place -= 1;
        if let Some(side) = requests[place].fits_bio(bio, limits) {
            return Some((place, side));
        }
    }
    None
}

/// The place of the newest request that the bio fits, and the side, in requests listed from the oldest to the newest.
pub fn candidate<A: Allocator + Clone>(
    requests: &VecDeque<Request<A>, A>,
    bio: &Bio,
    limits: &Limits,
) -> Option<(usize, Side)>
    ensures some { IfSome result (λ found. IsJoinCandidate limits.now true requests.now.items (bio.now ∷ []) found.0 found.1) }
    ensures none { IfNone result (HasNoPlugCandidate limits.now requests.now.items (bio.now ∷ [])) }
{
    let (older, newer) = requests.as_slices();
    if let Some((place, side)) = candidate_of(newer, bio, limits) {
        return Some((older.len() + place, side));
    }
    candidate_of(older, bio, limits)
}
