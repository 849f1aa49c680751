//! How many commands each round carries.

ghost use Rattle.std.specs.Prelude.{◌≡◌, ◌≤◌, ◌<◌, ◌-◌, ◌*◌, List, IfOk, IfErr, IfNone, IfSome, OnOk};
ghost use Rattle.edd_commands.specs.Capacity.{depth_at, carried, fixed, IsCapacity, IsFault};
ghost use Rattle.edd_commands.specs.Inside.InForce.{IsInForce};

use crate::MAX_ROUNDS;
use std::alloc::{AllocError, Allocator, Global};
use std::marker::Model;
use thiserror::Error;

/// The most commands that a round carries, and the most tags of a device.
pub const MAX_DEPTH: u64 = 256;

/// From the round `from` on, until the next step, a round carries `depth` commands.
#[derive(Clone, Copy, Debug, PartialEq, Eq)]
pub struct Step {
    /// The first round of this depth.
    pub from: u64,
    /// The most commands of a round.
    pub depth: u64,
}

/// Why steps are no capacity: the first reason by place, and at a place in this order.
#[derive(Clone, Copy, Debug, PartialEq, Eq, Error)]
#[error("{:?}", self)]
pub enum CapacityFault {
    /// There is no step, or the first doesn't begin in round 0.
    Start,
    /// The step at this place doesn't begin after the one before it.
    #[error("Rising")]
    Rising(usize),
    /// The depth at this place is 0 or above [`MAX_DEPTH`].
    #[error("Depth")]
    Depth(usize),
    /// The step at this place begins at [`MAX_ROUNDS`] or later.
    #[error("Round")]
    Round(usize),
}

/// How many commands each round carries: a depth from round 0 on, and each round from which it is another. It is seen as
/// the list of its steps.
#[derive(Debug, Drop)]
pub struct Capacity<A: Allocator = Global> {
    /// By rising `from`, the first from round 0 on.
    steps: Vec<Step, A>,
}

impl<A: Allocator> Model for Capacity<A> {
    ghost use Rattle.std.specs.Prelude.{List};
    ghost use Rattle.edd_commands.specs.declared.steps.Step.{Step};
    ghost use Rattle.edd_commands.specs.Capacity.{IsCapacity};

    ghost Value = { List Step };

    ghost view = { λ c. c.steps.items };

    ghost invariant = { λ c. IsCapacity c.steps.items };
}

/// The first fault of the steps, by place.
fn first_fault(steps: &[Step]) -> Option<CapacityFault>
    ensures none { IfNone result (IsCapacity steps.now) }
    ensures first { IfSome result (IsFault steps.now) }
{
    if steps.is_empty() || steps[0].from != 0 {
        return Some(CapacityFault::Start);
    }
    for (place, step) in steps.iter().enumerate() {
        if place > 0 && step.from <= steps[place - 1].from {
            return Some(CapacityFault::Rising(place));
        }
        if step.depth == 0 || step.depth > MAX_DEPTH {
            return Some(CapacityFault::Depth(place));
        }
        if step.from >= MAX_ROUNDS {
            return Some(CapacityFault::Round(place));
        }
    }
    None
}

/// The place of the step in force in the round, which is found by halves.
fn place_at(steps: &[Step], round: u64) -> usize
    requires { IsCapacity steps.now }
    ensures { IsInForce steps.now result round }
{
    let mut low = 0;
    let mut high = steps.len();
    while high - low > 1 {
        let middle = low + (high - low) / 2;
        if steps[middle].from <= round {
            low = middle;
        } else {
            high = middle;
        }
    }
    low
}

/// The capacities of the rounds from `from` on and before `until`, step by step.
fn sum_of(steps: &[Step], from: u64, until: u64) -> u64
    requires capacity { IsCapacity steps.now }
    requires small { until < 2 * MAX_ROUNDS }
    ensures { result ≡ carried steps.now from (until - from) }
{
    let mut place = place_at(steps, from);
    let mut start = from;
    let mut total = 0;
    while start < until {
        let end = if place + 1 < steps.len() {
            steps[place + 1].from.min(until)
        } else {
            until
        };
        total += steps[place].depth * (end - start);
        start = end;
        place += 1;
    }
    total
}

impl<A: Allocator> Capacity<A> {
    /// The capacity of these steps. Refused, in this order and the first by place, as `Start`, `Rising`, `Depth` and
    /// `Round`, as [`CapacityFault`] says.
    pub fn new(steps: Vec<Step, A>) -> Result<Capacity<A>, CapacityFault>
        ensures holds { IfOk result (λ c. c ≡ steps.items) }
        ensures taken { OnOk result (IsCapacity steps.items) }
        ensures refused { IfErr result (IsFault steps.items) }
    {
        match first_fault(steps.as_slice()) {
            Some(fault) => Err(fault),
            None => Ok(Capacity { steps }),
        }
    }

    /// The same depth, 1 to [`MAX_DEPTH`], in every round.
    pub fn fixed(alloc: A, depth: u64) -> Result<Capacity<A>, AllocError>
        requires some { 0 < depth }
        requires most { depth ≤ MAX_DEPTH }
        ensures { IfOk result (λ c. c ≡ fixed depth) }
    {
        let mut steps = Vec::with_capacity(alloc, 1)?;
        let Ok(()) = steps.push(Step { from: 0, depth }) else {
            return Err(AllocError);
        };
        Ok(Capacity { steps })
    }

    /// How many commands the round carries. The step in force is found by halves.
    pub fn at(&self, round: u64) -> u64
        ensures value { result ≡ depth_at self.now round }
        ensures some { 0 < result }
        ensures most { result ≤ MAX_DEPTH }
        ensures steps { IsCapacity self.now }
    {
        let steps = self.steps.as_slice();
        steps[place_at(steps, round)].depth
    }

    /// How many commands the rounds from `from` on and before `until`, which is below 2^42, carry; 0 where there are none.
    /// It takes as long as there are steps in between.
    pub fn sum(&self, from: u64, until: u64) -> u64
        requires { until < 2 * MAX_ROUNDS }
        ensures value { result ≡ carried self.now from (until - from) }
        ensures steps { IsCapacity self.now }
    {
        sum_of(self.steps.as_slice(), from, until)
    }
}
