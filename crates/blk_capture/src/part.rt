//! A part of what was matched.

ghost use Rattle.std.specs.Prelude.{◌≡◌, ◌≤◌, ◌<◌, ◌+◌, ◌^◌, IfOk, length, map, take, drop};
ghost use Rattle.blk_capture.specs.Requests.{AreTimed};
ghost use Rattle.blk_capture.specs.Parting.{gone_before, part, place_in, bio_in, fate_in, part_bios, part_fates};
ghost use Rattle.blk_capture.specs.Matched.{all_unmerged};

use crate::fates::Fate;
use crate::requests::{CapturedBio, CapturedRequest, Matched};
use std::alloc::{AllocError, Allocator};

/// How many of the requests went out before a time. It is found by halves.
fn count_before(requests: &[CapturedRequest], begin: u64) -> usize
    requires { AreTimed requests.now }
    ensures value { result ≡ gone_before begin requests.now }
    ensures bound { result ≤ length requests.now }
{
    requests.partition_point(|request| request.dispatched < begin)
}

/// The place among the taken ones, which are `count` from place `from` on.
pub(crate) fn place_in(from: usize, count: usize, place: Option<usize>) -> Option<usize>
    ensures { result ≡ place_in from count place }
{
    match place {
        Some(place) if place >= from && place - from < count => Some(place - from),
        _ => None,
    }
}

/// A bio whose request may or may not be taken.
fn bio_in(from: usize, count: usize, bio: &CapturedBio) -> CapturedBio
    ensures { result ≡ bio_in from count bio.now }
{
    CapturedBio {
        request: place_in(from, count, bio.request),
        ..*bio
    }
}

/// A fate, where the request may be taken or not.
fn fate_in(from: usize, count: usize, fate: Fate) -> Fate
    ensures { result ≡ fate_in from count fate }
{
    match fate {
        Fate::Taken(place) => match place_in(from, count, Some(place)) {
            Some(place) => Fate::Taken(place),
            None => Fate::LeftOut,
        },
        Fate::LeftOut | Fate::Unmatched | Fate::PassedOver(_) => fate,
    }
}

/// `count` of the requests, from a place on. The first ones are not copied.
fn requests_in<A: Allocator>(
    alloc: A,
    requests: Vec<CapturedRequest, A>,
    from: usize,
    count: usize,
) -> Result<Vec<CapturedRequest, A>, AllocError>
    requires { from + count ≤ length requests.items }
    ensures { IfOk result (λ v. v.items ≡ take count (drop from requests.items)) }
{
    if from == 0 {
        let mut first = requests;
        first.truncate(count);
        return Ok(first);
    }
    let rest = &requests.as_slice()[from..];
    rest[..count].iter().copied().collect(alloc)
}

/// Says of each bio whether its request is taken.
fn bios_in(bios: &mut [CapturedBio], from: usize, count: usize)
    ensures { bios.new ≡ map (bio_in from count) bios.old }
{
    for bio in bios.iter_mut() {
        *bio = bio_in(from, count, bio);
    }
}

/// Says of each fate whether its request is taken.
fn fates_in(fates: &mut [Fate], from: usize, count: usize)
    ensures { fates.new ≡ map (fate_in from count) fates.old }
{
    for fate in fates.iter_mut() {
        *fate = fate_in(from, count, *fate);
    }
}

/// Of the requests those that went out at `begin` or later, and of these at most `first`, those that went out first: what `--skip` and
/// `--first` leave. The others are left out, with their bios and records. Fails only when out of memory, of which it needs some only where
/// requests went out before `begin`.
pub fn part_of<A: Allocator + Clone>(
    alloc: A,
    matched: Matched<A>,
    begin: u64,
    first: u64,
) -> Result<Matched<A>, AllocError>
    requires timed { AreTimed matched.requests.items }
    requires few { length matched.requests.items + matched.left_out < 2 ^ 64 }
    ensures requests { IfOk result (λ m. m.requests.items ≡ part begin first matched.requests.items) }
    ensures bios { IfOk result (λ m. m.bios.items ≡ part_bios begin (length m.requests.items) matched) }
    ensures fates { IfOk result (λ m. m.fates.items ≡ part_fates begin (length m.requests.items) matched) }
    ensures absorbed { IfOk result (λ m. m.absorbed ≡ matched.absorbed) }
    ensures left_out { IfOk result (λ m. all_unmerged m ≡ all_unmerged matched) }
    ensures timed { IfOk result (λ m. AreTimed m.requests.items) }
{
    let Matched {
        requests,
        bios,
        fates,
        absorbed,
        left_out,
    } = matched;
    let (mut bios, mut fates) = (bios, fates);
    let all = requests.len();
    let from = count_before(requests.as_slice(), begin);
    let count = (all - from).min(first as usize);
    bios_in(bios.as_mut_slice(), from, count);
    fates_in(fates.as_mut_slice(), from, count);
    let part = requests_in(alloc, requests, from, count)?;
    Ok(Matched {
        requests: part,
        bios,
        fates,
        absorbed,
        left_out: left_out + (all - count) as u64,
    })
}
