//! Whole lists of events as traces, and what a trace means.

ghost use Rattle.std.specs.Prelude.{◌≡◌, IfOk, IsOkUnless};
ghost use Rattle.blk_trace.specs.Events.{IsIssued};
ghost use Rattle.blk_trace.specs.Inside.Issues.{command_in};
ghost use Rattle.blk_trace.specs.Legal.{IsLegalTrace};
ghost use Rattle.blk_trace.specs.Meaning.{commands_of, rounds_of};
ghost use Rattle.blk_trace.specs.Laws.{IsScheduled, AreBounded};
ghost use Rattle.blk_trace.specs.Traces.{IsFromEventsAnswer};

use crate::event::Event;
use crate::issued::Issued;
use crate::rule::{PushFault, TraceFault};
use crate::setup::Setup;
use crate::trace::Trace;
use blk_bio::Request;
use edd_commands::Command;
use std::alloc::{AllocError, Allocator};

impl<A: Allocator + Clone> Trace<A> {
    /// The trace of these events, or the first of them that breaks a rule, with its place, counted from 0, and the first
    /// rule that it breaks; `Memory` where memory ran out before such an event came. Nothing is prepared in it.
    pub fn from_events(
        alloc: A,
        setup: Setup,
        events: Vec<Event<Request<A>>, A>,
    ) -> Result<Trace<A>, TraceFault>
        ensures answer { IsFromEventsAnswer setup events.items result }
        ensures accepts { IsLegalTrace setup events.items → IsOkUnless result TraceFault.Memory }
    {
        let Ok(mut trace) = Trace::empty(alloc, setup) else {
            return Err(TraceFault::Memory);
        };
        for event in events {
            let at = trace.len();
            match trace.push(event) {
                Ok(()) => {}
                Err((_, PushFault::Rule(rule))) => return Err(TraceFault::Rule { at, rule }),
                Err((_, PushFault::Memory)) => return Err(TraceFault::Memory),
            }
        }
        Ok(trace)
    }

    /// The requests that were issued and not requeued since, in the order of their last Issues: each released in the last round in
    /// which it was released or joined, and due in the first in which one of its bios is. Fails only when out of memory.
    pub fn commands(&self) -> Result<Vec<Command, A>, AllocError>
        ensures commands { IfOk result (λ v. v.items ≡ commands_of self.now.setup self.now.events) }
        // in the rounds of `rounds` they are a legal schedule
        ensures scheduled { IsScheduled self.now.setup self.now.events }
        // there are few of them, each id stands once, and their releases and dues are small
        ensures bounded { AreBounded (commands_of self.now.setup self.now.events) (rounds_of self.now.events) }
    {
        let alloc = self.events.allocator().clone()?;
        all_commands(alloc, self)
    }

    /// The rounds of these requests' last Issues, in their order. Fails only when out of memory.
    pub fn rounds(&self) -> Result<Vec<u64, A>, AllocError>
        ensures rounds { IfOk result (λ v. v.items ≡ rounds_of self.now.events) }
        ensures scheduled { IsScheduled self.now.setup self.now.events }
        ensures bounded { AreBounded (commands_of self.now.setup self.now.events) (rounds_of self.now.events) }
    {
        let alloc = self.events.allocator().clone()?;
        all_rounds(alloc, self)
    }
}

/// The command of an Issue, unless it was requeued.
fn command_in<A: Allocator + Clone>(trace: &Trace<A>, issue: &Issued) -> Option<Command>
    requires { IsIssued trace.now.events issue.now.id }
    ensures { result ≡ command_in trace.now.setup trace.now.events issue.now }
{
    if issue.was_requeued() {
        return None;
    }
    let Some(entry) = trace.request(issue.id) else {
        unreachable!()
    };
    Some(Command {
        id: issue.id,
        release: entry.release,
        due: entry.due,
    })
}

/// The commands of the Issues that were not requeued.
fn all_commands<A: Allocator + Clone>(
    alloc: A,
    trace: &Trace<A>,
) -> Result<Vec<Command, A>, AllocError>
    ensures { IfOk result (λ v. v.items ≡ commands_of trace.now.setup trace.now.events) }
{
    let mut commands = Vec::new(alloc);
    for issue in trace.issues() {
        if let Some(command) = command_in(trace, issue) {
            commands.push(command)?;
        }
    }
    Ok(commands)
}

/// Their rounds.
fn all_rounds<A: Allocator + Clone>(alloc: A, trace: &Trace<A>) -> Result<Vec<u64, A>, AllocError>
    ensures { IfOk result (λ v. v.items ≡ rounds_of trace.now.events) }
{
    let mut rounds = Vec::new(alloc);
    for issue in trace.issues() {
        if !issue.was_requeued() {
            rounds.push(issue.round)?;
        }
    }
    Ok(rounds)
}
