//! How many commands each round of a trace carries.

ghost use Rattle.std.specs.Prelude.{ℕ, ◌≡◌, ◌<◌, ◌↔◌, is_some, IsTrue, IfOk, OnOk, length};
ghost use Rattle.std.specs.List.{list_any};
ghost use Rattle.edd_commands.specs.Capacity.{fixed};
ghost use Rattle.blk_trace.specs.Kinds.{sets_depth};
ghost use Rattle.blk_trace.specs.Legal.{IsLegalTrace};
ghost use Rattle.blk_trace.specs.Depths.{IsFixed, CarriesEachDepth, capacity_of};
ghost use Rattle.blk_trace.specs.Inside.Changing.{with_change};

use crate::event::Event;
use crate::setup::Setup;
use crate::trace::Trace;
use blk_bio::Request;
use edd_commands::{Capacity, Step};
use std::alloc::{AllocError, Allocator};

impl<A: Allocator + Clone> Trace<A> {
    /// How many commands each round carries: as many as there are tags from round 0 on, and as many as each Depth sets from
    /// the round after its own on. Of several in one round the last stands. Fails only when out of memory.
    pub fn capacity(&self) -> Result<Capacity<A>, AllocError>
        ensures steps { IfOk result (λ c. c ≡ capacity_of self.now.setup self.now.events) }
        // each round has the depth of the last Depth in a round before it, or the setup's
        ensures each { CarriesEachDepth self.now.setup self.now.events }
    {
        let alloc = self.events.allocator().clone()?;
        let steps = steps_of(alloc, self.setup, self.events.as_slice())?;
        match Capacity::new(steps) {
            Ok(capacity) => Ok(capacity),
            Err(_) => unreachable!(),
        }
    }

    /// Whether no Depth was set, so that each round carries as many commands as there are tags.
    pub fn is_fixed(&self) -> bool
        ensures exactly { IsTrue result ↔ IsFixed self.now.events }
        ensures one_depth { IsTrue result → capacity_of self.now.setup self.now.events ≡ fixed self.now.setup.depth }
    {
        !any_sets(self.events.as_slice())
    }
}

/// Whether one of the events sets a depth.
fn any_sets<A: Allocator>(events: &[Event<Request<A>>]) -> bool
    ensures { result ≡ list_any (λ e. is_some (sets_depth e)) events.now }
{
    events.iter().any(|event| event.sets_depth().is_some())
}

/// The steps by which the depths of the rounds change.
fn steps_of<A: Allocator + Clone>(
    alloc: A,
    setup: Setup,
    events: &[Event<Request<A>>],
) -> Result<Vec<Step, A>, AllocError>
    requires { IsLegalTrace setup events.now }
    ensures { IfOk result (λ v. v.items ≡ capacity_of setup events.now) }
{
    let depth = setup.depth();
    let mut steps = Vec::new(alloc);
    steps.push(Step { from: 0, depth })?;
    let mut round = 0;
    for event in events {
        if event.is_tick() {
            round += 1;
        } else if let Some(depth) = event.sets_depth() {
            let from = round + 1;
            change(&mut steps, Step { from, depth })?;
        }
    }
    Ok(steps)
}

/// Adds a step that begins no sooner than the last one, or puts it in place of the last one where both begin in one round.
fn change<A: Allocator>(steps: &mut Vec<Step, A>, step: Step) -> Result<(), AllocError>
    requires { 0 < length steps.old.items }
    ensures { OnOk result (steps.new.items ≡ with_change steps.old.items step) }
{
    let last = steps.len() - 1;
    if step.from == steps[last].from {
        steps[last] = step;
        return Ok(());
    }
    match steps.push(step) {
        Ok(()) => Ok(()),
        Err(_) => Err(AllocError),
    }
}
