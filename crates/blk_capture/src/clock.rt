//! The time of a capture, and which request went out to the device when.

ghost use Rattle.std.specs.Prelude.{◌≡◌, ◌≤◌, ◌↔◌, ◌++◌, ◌∷◌, [], IsTrue, All, IfOk, OnOk, length};
ghost use Rattle.std.specs.Bool.{OnTrue};
ghost use Rattle.std.specs.List.Sorted.{IsNonDecreasingBy};
ghost use Rattle.blk_capture.specs.Rules.{sent_at};

use std::alloc::{AllocError, Allocator, Global};

/// A dispatch: a request went out to the device.
#[derive(Clone, Copy, Debug)]
pub(crate) struct Dispatch {
    /// The request's number.
    pub(crate) request: usize,
    /// When.
    pub(crate) time: u64,
}

/// The current time, which never falls, and the dispatches so far.
#[derive(Drop)]
pub(crate) struct Clock<A: Allocator = Global> {
    /// The current time.
    pub(crate) now: u64,
    /// The dispatches, in their order.
    pub(crate) dispatches: Vec<Dispatch, A>,
    ghost past: { All (λ x. x.time ≤ now) dispatches.items },
    ghost rising: { IsNonDecreasingBy (λ x. x.time) dispatches.items },
}

impl<A: Allocator + Clone> Clock<A> {
    /// At 0, with no dispatch.
    pub(crate) fn new(alloc: A) -> Clock<A>
        ensures now { result.now ≡ 0 }
        ensures none { result.dispatches.items ≡ [] }
    {
        Clock {
            now: 0,
            dispatches: Vec::new(alloc),
        }
    }

    /// Sets the time; false where it would fall.
    pub(crate) fn set(&mut self, time: u64) -> bool
        ensures value { IsTrue result ↔ (self.old.now ≤ time) }
        ensures now { OnTrue result (self.new.now ≡ time) }
        ensures same { self.new.dispatches.items ≡ self.old.dispatches.items }
    {
        if time < self.now {
            return false;
        }
        self.now = time;
        true
    }

    /// A request goes out now. Answers the dispatch's number.
    pub(crate) fn dispatch(&mut self, request: usize) -> Result<usize, AllocError>
        ensures now { self.new.now ≡ self.old.now }
        ensures value { IfOk result (λ n. n ≡ length self.old.dispatches.items) }
        ensures more { OnOk result (self.new.dispatches.items ≡ self.old.dispatches.items ++ sent_at request self.old.now ∷ []) }
    {
        let number = self.dispatches.len();
        self.dispatches.push(Dispatch {
            request,
            time: self.now,
        })?;
        Ok(number)
    }
}
