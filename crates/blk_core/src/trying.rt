//! A try for a command, which ends a round that is full.

ghost use Rattle.std.specs.Prelude.{◌≡◌, ◌<◌, Some, IfOk, IfErr};
ghost use Rattle.blk_core.specs.Calls.{Issues};
ghost use Rattle.blk_core.specs.Tries.{IsNoneIssued, issued_now};

use crate::calls::Core;
use crate::refusals::{IssueFault, TickFault};
use blk_bio::Request;
use blk_sched::Scheduler;
use blk_trace::Event;
use edd_commands::Command;
use std::alloc::Allocator;

/// Why a try issues no command.
#[derive(Clone, Copy, Debug, PartialEq, Eq)]
pub enum NoneIssued {
    /// There is none for the hardware queue.
    Nothing,
    /// [`Core::issue`] is refused so; where the tag is used up in the round, that carries more commands under others.
    Issue(IssueFault),
    /// The round is full, and its end is refused so.
    Tick(TickFault),
    /// The round was full, and has ended.
    Ended,
}

impl<S: Scheduler> Core<S> {
    /// Issues for a hardware queue under a tag, as [`Core::issue`] does; but where the tag is used up in its round and that is full,
    /// ends the round unless a command is in flight in it. A round is full where as many commands were issued in it as it carries.
    /// The hardware queue and the tag are the setup's.
    ///
    /// Nothing is issued, by the first of these that applies: as `Issue` where [`Core::issue`] is refused, but for a tag that is used up
    /// in a full round; as `Ended` or `Tick` there; and as `Nothing` where [`Core::issue`] gives no command.
    pub fn try_issue(&mut self, hw: u8, tag: u16) -> Result<Command, NoneIssued>
        requires queue { hw < self.old.setup.hw }
        requires range { tag < self.old.setup.depth }
        ensures issued { IfOk result (λ command. Issues S.policy.serves S.policy.chooses self.old hw tag (Some command) self.new) }
        ensures fault { IfErr result (λ why. IsNoneIssued S.policy.serves S.policy.chooses S.policy.told_tick self.old hw tag why self.new) }
    {
        let why = match self.issue(hw, tag) {
            Ok(Some(command)) => return Ok(command),
            Ok(None) => return Err(NoneIssued::Nothing),
            Err(why) => why,
        };
        let is_used_up = matches!(why, IssueFault::TagRange | IssueFault::SlotUsed);
        let trace = self.trace();
        if !is_used_up || issued_now(trace.events()) < trace.depth_now() {
            return Err(NoneIssued::Issue(why));
        }
        match self.tick() {
            Ok(_) => Err(NoneIssued::Ended),
            Err(why) => Err(NoneIssued::Tick(why)),
        }
    }
}

/// How many commands were issued in the current round. It looks back over the events to where that began.
fn issued_now<A: Allocator + Clone>(events: &[Event<Request<A>>]) -> u64
    ensures { result ≡ issued_now events.now }
{
    let mut count = 0;
    for place in 0..events.len() {
        let event = &events[events.len() - 1 - place];
        if event.is_tick() {
            return count;
        }
        if event.issues().is_some() {
            count += 1;
        }
    }
    count
}
