//! A software queue: a bounded queue of requests, first in, first out, that counts the bios that came and went.
//!
//! After the software staging queues of Linux blk-mq (`struct blk_mq_ctx`, one for each submitting processor): requests
//! stand in it after they left a plug and before they enter the scheduler of a hardware queue.

ghost use Rattle.std.specs.Prelude.{◌≡◌, ◌∷◌, [], ◌+◌, ◌≤◌, ◌<◌, ◌^◌, ◌⊎◌, ◌↔◌, IsErr, IfOk, IfErr, OnOk, OnErr, IfSome, IfNone, length, slice_get};
ghost use Rattle.std.specs.Option.{option_copied};
ghost use Rattle.blk_bio.specs.Requests.{IsWithin};
ghost use Rattle.blk_queues.specs.Queues.{with_last, Queue, IsQueue};
ghost use Rattle.blk_bio.specs.declared.limits.TheConstants.{MAX_SOFT_DEPTH};

use blk_bio::{Limits, Request};
use circular_buffer::HeapCircularBuffer;
use std::alloc::{AllocError, Allocator, Global};
use std::marker::Model;

/// The most bios that a software queue takes in over its life.
pub const MAX_BIOS: u64 = 1 << 40;

/// At most as many requests as its depth, in the order in which they came, each within the queue's limits, and how many
/// bios came and went since it was made. All its memory is taken when it is made.
#[derive(Drop)]
pub struct SoftQueue<A: Allocator = Global> {
    limits: Limits,
    ring: HeapCircularBuffer<Request<A>, A>,
    bios_in: u64,
    bios_out: u64,
}

impl<A: Allocator> Model for SoftQueue<A> {
    ghost use Rattle.blk_queues.specs.Queues.{Queue, IsQueue, soft_queue_of};

    ghost Value = { Queue };

    ghost view = { λ q. soft_queue_of q.ring.capacity q.limits q.ring.items q.bios_in q.bios_out };

    ghost invariant = { λ q. IsQueue (soft_queue_of q.ring.capacity q.limits q.ring.items q.bios_in q.bios_out) };
}

impl<A: Allocator + Clone> SoftQueue<A> {
    /// A queue of no requests with room for `depth`, 1 to [`blk_bio::MAX_SOFT_DEPTH`]. Fails only when memory runs out.
    pub fn new(alloc: A, depth: u64, limits: Limits) -> Result<SoftQueue<A>, AllocError>
        requires { (1 ≤ depth) × (depth ≤ MAX_SOFT_DEPTH) }
        ensures { IfOk result (λ q. q ≡ record { depth = depth; limits = limits; requests = []; bios_in = 0; bios_out = 0 }) }
    {
        let ring = HeapCircularBuffer::with_capacity(alloc, depth as usize)?;
        Ok(SoftQueue {
            limits,
            ring,
            bios_in: 0,
            bios_out: 0,
        })
    }

    /// Puts a request, which must be within the queue's limits, at the back. Refused exactly where the queue is full, or where
    /// more than [`MAX_BIOS`] bios would have come; the request comes back then, and the queue is as it was. It takes no memory.
    pub fn put(&mut self, request: Request<A>) -> Result<(), Request<A>>
        requires within { IsWithin self.old.limits request }
        ensures ok { OnOk result (self.new ≡ with_last self.old request) }
        ensures err { IfErr result (λ r. r ≡ request) }
        ensures same { OnErr result (self.new ≡ self.old) }
        ensures refused { IsErr result ↔ ((length self.old.requests ≡ self.old.depth) ⊎ (MAX_BIOS < self.old.bios_in + length request)) }
    {
        let count = request.bios().len() as u64;
        if self.ring.len() >= self.ring.capacity() || count > MAX_BIOS - self.bios_in {
            return Err(request);
        }
        let _none = self.ring.push_back(request);
        self.bios_in += count;
        Ok(())
    }

    /// Takes out the request that came first. There is none exactly where the queue has no requests.
    pub fn take_first(&mut self) -> Option<Request<A>>
        ensures some { IfSome result (λ r. self.old.requests ≡ r ∷ self.new.requests) }
        ensures counted { IfSome result (λ r. self.new.bios_out ≡ self.old.bios_out + length r) }
        ensures within { IfSome result (λ r. IsWithin self.old.limits r) }
        ensures none { IfNone result ((self.old.requests ≡ []) × (self.new ≡ self.old)) }
        ensures depth { self.new.depth ≡ self.old.depth }
        ensures limits { self.new.limits ≡ self.old.limits }
        ensures bios_in { self.new.bios_in ≡ self.old.bios_in }
    {
        let first = self.ring.pop_front()?;
        self.bios_out += first.bios().len() as u64;
        Some(first)
    }

    /// Puts a request back at the front, where it came from. The queue is not full, the request is within its limits, and
    /// at least as many bios as the request has went out; they no longer count as gone. It takes no memory.
    pub fn put_first(&mut self, request: Request<A>)
        requires room { length self.old.requests < self.old.depth }
        requires counted { length request ≤ self.old.bios_out }
        requires within { IsWithin self.old.limits request }
        ensures requests { self.new.requests ≡ request ∷ self.old.requests }
        ensures counted { self.new.bios_out + length request ≡ self.old.bios_out }
        ensures depth { self.new.depth ≡ self.old.depth }
        ensures limits { self.new.limits ≡ self.old.limits }
        ensures bios_in { self.new.bios_in ≡ self.old.bios_in }
    {
        self.bios_out -= request.bios().len() as u64;
        let _none = self.ring.push_front(request);
    }

    /// How many requests it has, 0 to its depth.
    pub fn len(&self) -> usize
        ensures value { result ≡ length self.now.requests }
        ensures is_queue { IsQueue self.now }
    {
        self.ring.len()
    }

    /// The request at a place, counted from 0 at the front. There is none exactly from the number of requests on.
    pub fn get(&self, place: usize) -> Option<&Request<A>>
        ensures { option_copied result ≡ slice_get self.now.requests place }
    {
        // Reads nothing that counts: the prover gets the queue's view.
        let _ = self.bios_in;
        self.ring.get(place)
    }

    /// How many bios came since it was made, 0 to [`MAX_BIOS`]; those that went or that it holds.
    pub fn bios_in(&self) -> u64
        ensures value { result ≡ self.now.bios_in }
        ensures is_queue { IsQueue self.now }
    {
        self.bios_in
    }

    /// How many bios went since it was made and did not come back to the front.
    pub fn bios_out(&self) -> u64
        ensures value { result ≡ self.now.bios_out }
        ensures is_queue { IsQueue self.now }
    {
        self.bios_out
    }

    /// The limits of its requests.
    pub fn limits(&self) -> Limits
        ensures { result ≡ self.now.limits }
    {
        self.limits
    }

    /// How many requests it has room for, 1 to [`blk_bio::MAX_SOFT_DEPTH`].
    pub fn depth(&self) -> u64
        ensures value { result ≡ self.now.depth }
        ensures is_queue { IsQueue self.now }
    {
        self.ring.capacity() as u64
    }
}
