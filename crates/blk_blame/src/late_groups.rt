//! The processes, or the processors, whose requests were late, and how many of each were.

ghost use Rattle.std.specs.Prelude.{ℕ, ◌≡◌, ◌≤◌, IfOk, Contains, count_by, nat_le, nat_lt, map};
ghost use Rattle.std.specs.List.{filter_map};
ghost use Rattle.std.specs.List.Sorted.{IsNonDecreasingBy, IsPermutation, IsStrictlyIncreasing};
ghost use Rattle.blk_blame.specs.LateGroups.{late_group_key, late_group_keys, late_group_by, AreLateGroup};

use crate::grouped::GroupedBy;
use blk_capture::CapturedRequest;
use std::alloc::{AllocError, Global};

/// A process, or a processor, whose requests were late.
#[derive(Clone, Copy, Debug, PartialEq, Eq)]
pub struct LateGroup {
    /// Its number.
    pub key: u64,
    /// How many of the requests that were opened by it, or on it, were late.
    pub late: u64,
}

/// That of a request, if it was late.
fn late_group_key(by: GroupedBy, request: &CapturedRequest) -> Option<u64>
    ensures { result ≡ late_group_key by request.now }
{
    if request.deadline < request.dispatched {
        Some(by.group_key(request))
    } else {
        None
    }
}

/// Those of the late ones of the requests, in the order of these.
fn late_group_keys(
    alloc: Global,
    by: GroupedBy,
    requests: &[CapturedRequest],
) -> Result<Vec<u64>, AllocError>
    ensures { IfOk result (λ v. v.items ≡ late_group_keys by requests.now) }
{
    requests
        .iter()
        .filter_map(|request| late_group_key(by, request))
        .collect(alloc)
}

/// Puts numbers in order, each once.
fn once_each(numbers: &mut Vec<u64>)
    ensures rises { IsStrictlyIncreasing numbers.new.items }
    ensures keeps { (x : ℕ) → Contains numbers.old.items x → Contains numbers.new.items x }
    ensures adds_none { (x : ℕ) → Contains numbers.new.items x → Contains numbers.old.items x }
{
    numbers.sort_unstable();
    numbers.dedup();
}

/// How many of the numbers, in their order, are below one. It is found by halves.
fn count_below(numbers: &[u64], bound: u64) -> usize
    requires { IsNonDecreasingBy (λ x. x) numbers.now }
    ensures { result ≡ count_by (λ x. nat_lt x bound) numbers.now }
{
    numbers.partition_point(|number| *number < bound)
}

/// How many are no greater.
fn count_upto(numbers: &[u64], bound: u64) -> usize
    requires { IsNonDecreasingBy (λ x. x) numbers.now }
    ensures { result ≡ count_by (λ x. nat_le x bound) numbers.now }
{
    numbers.partition_point(|number| *number <= bound)
}

/// One and how many late requests it has, by those of all late ones, in their order.
fn late_group_of(by: GroupedBy, requests: &[CapturedRequest], sorted: &[u64], key: u64) -> LateGroup
    requires rising { IsNonDecreasingBy (λ x. x) sorted.now }
    requires same { IsPermutation (late_group_keys by requests.now) sorted.now }
    ensures { result ≡ late_group_by by requests.now key }
{
    // `by` and `requests` only tell the clauses whose numbers these are
    let _ = by;
    let _ = requests;
    LateGroup {
        key,
        late: (count_upto(sorted, key) - count_below(sorted, key)) as u64,
    }
}

/// These and how many late requests each has.
fn late_groups_by(
    alloc: Global,
    by: GroupedBy,
    requests: &[CapturedRequest],
    sorted: &[u64],
    keys: &[u64],
) -> Result<Vec<LateGroup>, AllocError>
    requires rising { IsNonDecreasingBy (λ x. x) sorted.now }
    requires same { IsPermutation (late_group_keys by requests.now) sorted.now }
    ensures { IfOk result (λ v. v.items ≡ map (late_group_by by requests.now) keys.now) }
{
    let mut late_groups = Vec::with_capacity(alloc, keys.len())?;
    for key in keys {
        late_groups.push(late_group_of(by, requests, sorted, *key))?;
    }
    Ok(late_groups)
}

/// The processes, or the processors, that have late requests, by rising numbers, and how many of each. Fails only when out of memory. The time
/// grows as n log n.
pub fn late_groups_of(
    alloc: Global,
    by: GroupedBy,
    requests: &[CapturedRequest],
) -> Result<Vec<LateGroup>, AllocError>
    ensures { IfOk result (λ v. AreLateGroup by requests.now v.items) }
{
    let mut keys = late_group_keys(alloc, by, requests)?;
    once_each(&mut keys);
    let mut sorted = late_group_keys(alloc, by, requests)?;
    sorted.sort_unstable();
    let late_groups = late_groups_by(alloc, by, requests, sorted.as_slice(), keys.as_slice())?;
    Ok(late_groups)
}
