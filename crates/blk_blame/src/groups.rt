//! What the late requests of processes, or of processors, are blamed on.

ghost use Rattle.std.specs.Prelude.{ℕ, ◌≡◌, ◌≤◌, ◌==◌, ◌&&◌, IfOk, count_by, filter, length, zip};
ghost use Rattle.std.specs.List.{filter_map};
ghost use Rattle.edd_commands.specs.Capacity.{fixed};
ghost use Rattle.edd_commands.specs.declared.TheConstants.{MAX_COMMANDS};
ghost use Rattle.blk_capture.specs.Summaries.{ArePercentiles};
ghost use Rattle.edd_blame.specs.Parts.{ArePlaces};
ghost use Rattle.blk_blame.specs.Account.{IsBlameAccount};
ghost use Rattle.blk_blame.specs.Groups.{own_places, was_stall, was_arrival, wait_in, overrun_in, is_stall_of, is_arrival_of, IsGroup};

use crate::account::Account;
use crate::grouped::GroupedBy;
use crate::late_groups::LateGroup;
use crate::percentiles::percentiles_of;
use crate::totals::overrun_of;
use blk_capture::{CapturedRequest, Percentiles};
use edd_blame::{Cause, least_late_at, most_saved_at};
use edd_commands::Capacity;
use std::alloc::{AllocError, Global};

/// A process, or a processor, with late requests. Times are in nanoseconds.
#[derive(Clone, Copy, Debug, PartialEq, Eq)]
pub struct Group {
    /// Its number.
    pub key: u64,
    /// How many requests were opened by it, or on it.
    pub requests: u64,
    /// How many of these were late.
    pub late: u64,
    /// How many of the late ones stalled.
    pub stalled: u64,
    /// How many of them came in after their deadlines.
    pub arrivals: u64,
    /// The fewest late ones of it in any order of the dispatches, whatever becomes of the others.
    pub least: u64,
    /// The most of its late ones that can be on time beside all that were.
    pub savable: u64,
    /// How long its requests waited, from when each came in to its dispatch.
    pub wait: Percentiles,
    /// By how much its late ones were late.
    pub overrun: Percentiles,
}

/// The places of its requests.
fn own_places(
    alloc: Global,
    by: GroupedBy,
    requests: &[CapturedRequest],
    key: u64,
) -> Result<Vec<usize>, AllocError>
    ensures value { IfOk result (λ v. v.items ≡ own_places by requests.now key) }
    ensures places { IfOk result (λ v. ArePlaces (length requests.now) v.items) }
{
    let mut places = Vec::new(alloc);
    for (place, request) in requests.iter().enumerate() {
        if by.group_key(request) == key {
            places.push(place)?;
        }
    }
    Ok(places)
}

/// Whether a request of it stalled.
fn is_stall_of(by: GroupedBy, key: u64, request: &CapturedRequest, cause: &Option<Cause>) -> bool
    ensures { result ≡ is_stall_of by key (request.now, cause.now) }
{
    by.group_key(request) == key && matches!(cause, Some(Cause::Stall))
}

/// Whether it came in after its deadline.
fn is_arrival_of(by: GroupedBy, key: u64, request: &CapturedRequest, cause: &Option<Cause>) -> bool
    ensures { result ≡ is_arrival_of by key (request.now, cause.now) }
{
    by.group_key(request) == key && matches!(cause, Some(Cause::Arrival))
}

/// How many requests of it stalled.
fn count_stalls(
    by: GroupedBy,
    key: u64,
    requests: &[CapturedRequest],
    causes: &[Option<Cause>],
) -> u64
    ensures { result ≡ count_by (is_stall_of by key) (zip requests.now causes.now) }
{
    requests
        .iter()
        .zip(causes)
        .filter(|(request, cause)| is_stall_of(by, key, request, cause))
        .count() as u64
}

/// How many came in after their deadlines.
fn count_arrivals(
    by: GroupedBy,
    key: u64,
    requests: &[CapturedRequest],
    causes: &[Option<Cause>],
) -> u64
    ensures { result ≡ count_by (is_arrival_of by key) (zip requests.now causes.now) }
{
    requests
        .iter()
        .zip(causes)
        .filter(|(request, cause)| is_arrival_of(by, key, request, cause))
        .count() as u64
}

/// How long a request waited, if it is of it.
fn wait_in(by: GroupedBy, key: u64, request: &CapturedRequest) -> Option<u64>
    ensures { result ≡ wait_in by key request.now }
{
    if by.group_key(request) == key {
        Some(request.dispatched.saturating_sub(request.entry))
    } else {
        None
    }
}

/// By how much it was late, if it is of it and was.
fn overrun_in(by: GroupedBy, key: u64, request: &CapturedRequest) -> Option<u64>
    ensures { result ≡ overrun_in by key request.now }
{
    if by.group_key(request) == key {
        overrun_of(request)
    } else {
        None
    }
}

/// How long its requests waited, one by one.
fn waits_in(
    alloc: Global,
    by: GroupedBy,
    requests: &[CapturedRequest],
    key: u64,
) -> Result<Vec<u64>, AllocError>
    ensures { IfOk result (λ v. v.items ≡ filter_map (wait_in by key) requests.now) }
{
    requests
        .iter()
        .filter_map(|request| wait_in(by, key, request))
        .collect(alloc)
}

/// By how much its late ones were late, one by one.
fn overruns_in(
    alloc: Global,
    by: GroupedBy,
    requests: &[CapturedRequest],
    key: u64,
) -> Result<Vec<u64>, AllocError>
    ensures { IfOk result (λ v. v.items ≡ filter_map (overrun_in by key) requests.now) }
{
    requests
        .iter()
        .filter_map(|request| overrun_in(by, key, request))
        .collect(alloc)
}

/// How long its requests waited.
#[tactic(auto, using(crate::proofs::Few::few_of))]
fn waits(
    alloc: Global,
    by: GroupedBy,
    requests: &[CapturedRequest],
    key: u64,
) -> Result<Percentiles, AllocError>
    requires { length requests.now ≤ MAX_COMMANDS }
    ensures { IfOk result (ArePercentiles (filter_map (wait_in by key) requests.now)) }
{
    let mut values = waits_in(alloc, by, requests, key)?;
    Ok(percentiles_of(values.as_mut_slice()))
}

/// By how much its late ones were late.
#[tactic(auto, using(crate::proofs::Few::few_of))]
fn overruns(
    alloc: Global,
    by: GroupedBy,
    requests: &[CapturedRequest],
    key: u64,
) -> Result<Percentiles, AllocError>
    requires { length requests.now ≤ MAX_COMMANDS }
    ensures { IfOk result (ArePercentiles (filter_map (overrun_in by key) requests.now)) }
{
    let mut values = overruns_in(alloc, by, requests, key)?;
    Ok(percentiles_of(values.as_mut_slice()))
}

/// What the late requests of a process, or of a processor, are blamed on. Fails only when out of memory. The time grows as n log n.
pub fn group_of(
    alloc: Global,
    by: GroupedBy,
    requests: &[CapturedRequest],
    account: &Account,
    late_group: LateGroup,
) -> Result<Group, AllocError>
    requires account { IsBlameAccount requests.now account.now }
    requires few { length requests.now ≤ MAX_COMMANDS }
    ensures { IfOk result (IsGroup by requests.now account.now late_group) }
{
    let commands = account.counted.commands.as_slice();
    let rounds = account.counted.rounds.as_slice();
    let causes = account.causes.as_slice();
    let capacity = Capacity::fixed(alloc, 1)?;
    let places = own_places(alloc, by, requests, late_group.key)?;
    Ok(Group {
        key: late_group.key,
        requests: places.len() as u64,
        late: late_group.late,
        stalled: count_stalls(by, late_group.key, requests, causes),
        arrivals: count_arrivals(by, late_group.key, requests, causes),
        least: least_late_at(alloc, commands, &capacity, places.as_slice())?,
        savable: most_saved_at(alloc, commands, rounds, &capacity, places.as_slice())?,
        wait: waits(alloc, by, requests, late_group.key)?,
        overrun: overruns(alloc, by, requests, late_group.key)?,
    })
}
