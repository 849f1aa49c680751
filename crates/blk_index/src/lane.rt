//! Requests by their ids.

ghost use Rattle.std.specs.Prelude.{◌≡◌, ◌<◌, ◌≤◌, ◌+◌, [], IsSome, None, Some, length, slice_get, IfOk, OnOk, OnErr, IfSome, IfNone};
ghost use Rattle.std.specs.Bool.{OnTrue, OnFalse};
ghost use Rattle.std.specs.Option.{option_copied};
ghost use Rattle.std.specs.VecDeque.{deque_len, deque_capacity};
ghost use Rattle.blk_index.specs.Inside.Spots.{Becomes};
ghost use Rattle.blk_index.specs.Inside.Lanes.{at_id, run_of, run_at, entries_of, found_in, IsLeastOrNone, AreInRange, IsRun};

use crate::ids::lesser;
use blk_sched::Queued;
use std::alloc::{AllocError, Allocator, Global};
use std::collections::{BTreeMap, VecDeque};

/// How many places a run may get at once, so that no ids make a request dear.
const MAX_PASSED: usize = 512;

/// Requests by their ids. Those of a run of rising ids stand in a list that has a place for each id from its first one on, so that one is found at
/// once; the others stand in an ordered map. Requests mostly enter by rising ids, of which each direction of a hardware queue gets one in a few.
#[derive(Drop)]
pub struct Lane<A: Allocator = Global> {
    /// The id of the run's first place.
    pub from: u64,
    /// The request of each id of the run, if it waits.
    pub run: VecDeque<Option<Queued>, A>,
    /// The requests of other ids.
    pub others: BTreeMap<u64, Queued, A>,
}

impl<A: Allocator + Clone> Lane<A> {
    /// No requests. It takes no memory but for the allocators.
    pub fn new(alloc: A) -> Result<Lane<A>, AllocError>
        ensures none { IfOk result (λ p. entries_of p ≡ []) }
        ensures run { IfOk result IsRun }
    {
        Ok(Lane {
            from: 0,
            run: VecDeque::new(alloc.clone()?),
            others: BTreeMap::new(alloc),
        })
    }

    /// The request of an id.
    #[inline(always)]
    pub fn get(&self, id: u64) -> Option<&Queued>
        ensures { option_copied result ≡ found_in self.now id }
    {
        match in_run(&self.run, self.from, id) {
            Some(queued) => Some(queued),
            None => in_others(&self.others, id),
        }
    }

    /// The least id.
    #[inline(always)]
    pub fn first(&self) -> Option<u64>
        ensures { IsRun self.now → IsLeastOrNone (found_in self.now) result }
    {
        lesser(
            first_of_run(&self.run, self.from),
            first_of_others(&self.others),
        )
    }

    /// Adds a request whose id isn't there. The run gets no more places than `most` for it. On a refusal nothing is changed.
    #[inline(always)]
    pub fn insert(&mut self, queued: Queued, most: usize) -> Result<(), AllocError>
        requires { found_in self.old queued.id ≡ None }
        ensures ok { OnOk result (Becomes (found_in self.old) queued.id (Some queued) (found_in self.new)) }
        ensures same { OnErr result (entries_of self.new ≡ entries_of self.old) }
        ensures run { IsRun self.old → IsRun self.new }
    {
        self.begin_at(queued.id);
        let most = most.min(self.run.len().saturating_add(MAX_PASSED));
        if pass_over(&mut self.run, self.from, queued.id, most) {
            self.run.push_back_reserved(Some(queued));
            return Ok(());
        }
        put_other(&mut self.others, queued)
    }

    /// Lets an empty run begin with this id.
    #[inline(always)]
    fn begin_at(&mut self, id: u64)
        ensures same { entries_of self.new ≡ entries_of self.old }
        ensures run { IsRun self.old → IsRun self.new }
    {
        if self.run.is_empty() {
            self.from = id;
        }
    }

    /// Puts a request in the place of that of its id, which is there. It takes no memory.
    pub fn set(&mut self, queued: &Queued)
        requires { IsSome (found_in self.old queued.now.id) }
        ensures is_set { Becomes (found_in self.old) queued.now.id (Some queued.now) (found_in self.new) }
        ensures run { IsRun self.old → IsRun self.new }
    {
        if !set_in_run(&mut self.run, self.from, queued) {
            set_other(&mut self.others, queued);
        }
    }

    /// Takes out the request of an id, if it is there. It takes no memory.
    #[inline(always)]
    pub fn remove(&mut self, id: u64) -> Option<Queued>
        ensures value { result ≡ found_in self.old id }
        ensures taken { Becomes (found_in self.old) id None (found_in self.new) }
        ensures run { IsRun self.old → IsRun self.new }
    {
        let found = take_of_run(&mut self.run, self.from, id);
        let other = take_other(&mut self.others, id);
        self.drop_gone();
        found.or(other)
    }

    /// Lets the run begin with an id whose request waits.
    #[inline(always)]
    fn drop_gone(&mut self)
        ensures same { entries_of self.new ≡ entries_of self.old }
        ensures run { IsRun self.old → IsRun self.new }
    {
        while let Some(next) = after_gone(&self.run, self.from) {
            let _ = self.run.pop_front();
            self.from = next;
        }
    }
}

/// The id after the first of a run, where the request of that one doesn't wait.
#[inline(always)]
fn after_gone<A: Allocator + Clone>(run: &VecDeque<Option<Queued>, A>, from: u64) -> Option<u64>
    ensures next { IfSome result (λ next. next ≡ from + 1) }
    ensures gone { IfSome result (λ _. slice_get run.now.items 0 ≡ Some None) }
{
    let Some(first) = run.front() else {
        return None;
    };
    match *first {
        Some(_) => None,
        None => from.checked_add(1),
    }
}

/// The place of an id in a run, if it has one.
#[inline(always)]
fn place_of<A: Allocator + Clone>(
    run: &VecDeque<Option<Queued>, A>,
    from: u64,
    id: u64,
) -> Option<usize>
    ensures place { IfSome result (λ i. id ≡ from + i) }
    ensures short { IfSome result (λ i. i < length run.now.items) }
    ensures none { IfNone result (run_at from run.now.items id ≡ None) }
{
    if id < from {
        return None;
    }
    let index = (id - from) as usize;
    if index >= run.len() {
        return None;
    }
    Some(index)
}

/// The request of an id in a run.
#[inline(always)]
fn in_run<A: Allocator + Clone>(
    run: &VecDeque<Option<Queued>, A>,
    from: u64,
    id: u64,
) -> Option<&Queued>
    ensures { option_copied result ≡ run_at from run.now.items id }
{
    let Some(index) = place_of(run, from, id) else {
        return None;
    };
    run[index].as_ref()
}

/// Lengthens a run by places without a request until an id comes next after it, for which it has room, and answers whether it does: not where the id has a place, or would
/// need more places than these, and not when out of memory.
#[inline(always)]
fn pass_over<A: Allocator + Clone>(
    run: &mut VecDeque<Option<Queued>, A>,
    from: u64,
    id: u64,
    most: usize,
) -> bool
    ensures next { OnTrue result (id ≡ from + length run.new.items) }
    ensures room { OnTrue result (deque_len run.new < deque_capacity run.new) }
    ensures same { run_of from run.new.items ≡ run_of from run.old.items }
    ensures run { AreInRange from run.old.items → AreInRange from run.new.items }
{
    if id < from {
        return false;
    }
    let index = (id - from) as usize;
    if index < run.len() || index >= most {
        return false;
    }
    let Ok(()) = run.reserve(index + 1 - run.len()) else {
        return false;
    };
    while run.len() < index {
        run.push_back_reserved(None);
    }
    true
}

/// Puts a request in the place of that of its id in a run, if it is there, and answers whether it is.
fn set_in_run<A: Allocator + Clone>(
    run: &mut VecDeque<Option<Queued>, A>,
    from: u64,
    queued: &Queued,
) -> bool
    ensures yes { OnTrue result (Becomes (run_at from run.old.items) queued.now.id (Some queued.now) (run_at from run.new.items)) }
    ensures no { OnFalse result ((run.new.items ≡ run.old.items) × (run_at from run.old.items queued.now.id ≡ None)) }
    ensures len { length run.new.items ≡ length run.old.items }
{
    let Some(index) = place_of(run, from, queued.id) else {
        return false;
    };
    let waits = run[index].is_some();
    if waits {
        run[index] = Some(*queued);
    }
    waits
}

/// Takes out the request of an id in a run.
#[inline(always)]
fn take_of_run<A: Allocator + Clone>(
    run: &mut VecDeque<Option<Queued>, A>,
    from: u64,
    id: u64,
) -> Option<Queued>
    ensures value { result ≡ run_at from run.old.items id }
    ensures taken { Becomes (run_at from run.old.items) id None (run_at from run.new.items) }
    ensures len { length run.new.items ≡ length run.old.items }
{
    let Some(index) = place_of(run, from, id) else {
        return None;
    };
    let found = run[index];
    run[index] = None;
    found
}

/// The first id of a run whose request waits: mostly the first of all.
#[inline(always)]
fn first_of_run<A: Allocator + Clone>(run: &VecDeque<Option<Queued>, A>, from: u64) -> Option<u64>
    ensures { AreInRange from run.now.items → IsLeastOrNone (run_at from run.now.items) result }
{
    let mut index = 0;
    while index < run.len() {
        if run[index].is_some() {
            return from.checked_add(index as u64);
        }
        index += 1;
    }
    None
}

/// The least id of an ordered map.
#[inline(always)]
fn first_of_others<A: Allocator + Clone>(others: &BTreeMap<u64, Queued, A>) -> Option<u64>
    ensures { IsLeastOrNone (at_id others.now.entries) result }
{
    match others.first_key_value() {
        Some((id, _)) => Some(*id),
        None => None,
    }
}

/// The request of an id in an ordered map.
#[inline(always)]
fn in_others<A: Allocator + Clone>(others: &BTreeMap<u64, Queued, A>, id: u64) -> Option<&Queued>
    ensures { option_copied result ≡ at_id others.now.entries id }
{
    if others.is_empty() {
        return None;
    }
    others.get(&id)
}

/// Puts a request into an ordered map. On a refusal nothing is changed.
fn put_other<A: Allocator + Clone>(
    others: &mut BTreeMap<u64, Queued, A>,
    queued: Queued,
) -> Result<(), AllocError>
    ensures ok { OnOk result (Becomes (at_id others.old.entries) queued.id (Some queued) (at_id others.new.entries)) }
    ensures same { OnErr result (others.new.entries ≡ others.old.entries) }
{
    match others.insert(queued.id, queued) {
        Ok(_) => Ok(()),
        Err(_) => Err(AllocError),
    }
}

/// Takes the request of an id out of an ordered map.
#[inline(always)]
fn take_other<A: Allocator + Clone>(
    others: &mut BTreeMap<u64, Queued, A>,
    id: u64,
) -> Option<Queued>
    ensures value { result ≡ at_id others.old.entries id }
    ensures taken { Becomes (at_id others.old.entries) id None (at_id others.new.entries) }
{
    if others.is_empty() {
        return None;
    }
    others.remove(&id)
}

/// Puts a request in the place of that of its id in an ordered map, which is there.
fn set_other<A: Allocator + Clone>(others: &mut BTreeMap<u64, Queued, A>, queued: &Queued)
    requires { IsSome (at_id others.old.entries queued.now.id) }
    ensures { Becomes (at_id others.old.entries) queued.now.id (Some queued.now) (at_id others.new.entries) }
{
    let Some(kept) = others.get_mut(&queued.id) else {
        unreachable!()
    };
    *kept = *queued;
}
