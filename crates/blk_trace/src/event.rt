//! What can happen in a block layer: the events of Linux's blktrace that this model has.

ghost use Rattle.std.specs.Prelude.{◌≡◌, option_map};
ghost use Rattle.blk_trace.specs.Kinds.{releases, joins, enters, issues, ends, completes, requeues, sets_depth, is_tick, bare, bios_of};

use blk_bio::{Bio, Request};
use std::alloc::Allocator;

/// Every tag lies below this: tags are the numbers of 16 bits.
pub const MAX_TAGS: u64 = 1 << 16;

/// One thing that happened. `R` is what is known of a request that enters: the request itself, in a trace.
#[derive(Debug, Drop)]
pub enum Event<R> {
    /// A round ends. A command takes one round.
    Tick,
    /// A request enters the scheduler under a new id (an insert).
    Release {
        /// Its id, under which no request was released before.
        id: u64,
        /// Its bios.
        request: R,
    },
    /// A request joins the one that entered under the id, at its back or front (a merge).
    Join {
        /// The id of the request that is joined, which waits and was never issued.
        id: u64,
        /// The bios that join it.
        request: R,
    },
    /// The request of the id goes to the device under the tag (an issue, named by blk-mq's tag).
    Issue {
        /// The id of the request, which waits: it was not issued, or was requeued.
        id: u64,
        /// The tag, below the depth of the round, that no request was issued under in this round.
        tag: u16,
    },
    /// The command under the tag has completed, and the tag is free from the next round on.
    Done {
        /// The tag of a command that is in flight.
        tag: u16,
    },
    /// The request under the tag is requeued, since the device was busy: it waits again, was not served, and the tag is free
    /// from the next round on.
    Back {
        /// The tag of a command that is in flight.
        tag: u16,
    },
    /// From the next round on the device takes as many commands in a round, until another Depth (blk-mq's queue
    /// depth, set while it runs). Of several in one round the last stands.
    Depth {
        /// How many: at least 1, and no more than the setup's depth.
        depth: u64,
    },
}

impl<R> Event<R> {
    /// The id under which a request enters as a new one, with the request.
    pub fn releases(&self) -> Option<(u64, &R)>
        ensures { option_map (λ p. (p.0, p.1.now)) result ≡ releases self.now }
    {
        match self {
            Event::Release { id, request } => Some((*id, request)),
            _ => None,
        }
    }

    /// The id of the request that another joins, with that other.
    pub fn joins(&self) -> Option<(u64, &R)>
        ensures { option_map (λ p. (p.0, p.1.now)) result ≡ joins self.now }
    {
        match self {
            Event::Join { id, request } => Some((*id, request)),
            _ => None,
        }
    }

    /// The id under which a request enters, new or joined, with that request.
    pub fn enters(&self) -> Option<(u64, &R)>
        ensures { option_map (λ p. (p.0, p.1.now)) result ≡ enters self.now }
    {
        match self {
            Event::Release { id, request } => Some((*id, request)),
            Event::Join { id, request } => Some((*id, request)),
            _ => None,
        }
    }

    /// The id of the request that goes to the device, with its tag.
    pub fn issues(&self) -> Option<(u64, u16)>
        ensures { result ≡ issues self.now }
    {
        match self {
            Event::Issue { id, tag } => Some((*id, *tag)),
            _ => None,
        }
    }

    /// The tag whose Issue ends.
    pub fn ends(&self) -> Option<u16>
        ensures { result ≡ ends self.now }
    {
        match self {
            Event::Done { tag } => Some(*tag),
            Event::Back { tag } => Some(*tag),
            _ => None,
        }
    }

    /// The tag whose command has completed.
    pub fn completes(&self) -> Option<u16>
        ensures { result ≡ completes self.now }
    {
        match self {
            Event::Done { tag } => Some(*tag),
            _ => None,
        }
    }

    /// The tag whose request is requeued.
    pub fn requeues(&self) -> Option<u16>
        ensures { result ≡ requeues self.now }
    {
        match self {
            Event::Back { tag } => Some(*tag),
            _ => None,
        }
    }

    /// The depth that is set, for the rounds after this one.
    pub fn sets_depth(&self) -> Option<u64>
        ensures { result ≡ sets_depth self.now }
    {
        match self {
            Event::Depth { depth } => Some(*depth),
            _ => None,
        }
    }

    /// Whether a round ends.
    pub fn is_tick(&self) -> bool
        ensures { result ≡ is_tick self.now }
    {
        matches!(self, Event::Tick)
    }

    /// The same event, where no request enters by it.
    pub fn bare<Q>(&self) -> Option<Event<Q>>
        ensures { result ≡ bare self.now }
    {
        match self {
            Event::Release { .. } | Event::Join { .. } => None,
            Event::Tick => Some(Event::Tick),
            Event::Issue { id, tag } => Some(Event::Issue { id: *id, tag: *tag }),
            Event::Done { tag } => Some(Event::Done { tag: *tag }),
            Event::Back { tag } => Some(Event::Back { tag: *tag }),
            Event::Depth { depth } => Some(Event::Depth { depth: *depth }),
        }
    }
}

impl<A: Allocator + Clone> Event<Request<A>> {
    /// The bios that enter by it: none where no request does.
    pub fn bios(&self) -> &[Bio]
        ensures { result.now ≡ bios_of self.now }
    {
        match self.enters() {
            Some((_, request)) => request.bios(),
            None => &[],
        }
    }
}
