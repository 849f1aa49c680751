//! Adding an event that breaks no rule, and for which there is room.

ghost use Rattle.std.specs.Prelude.{ℕ, ◌≡◌, ◌≤◌, ◌<◌, ◌+◌, Some, IsSome, option_map, vec_capacity, ◌++◌, ◌∷◌, [], length, slice_get, ◌||◌};
ghost use Rattle.blk_ids.specs.Given.{Gives};
ghost use Rattle.blk_ids.specs.ById.{kept_at};
ghost use Rattle.blk_ids.specs.ById as by_id;
ghost use Rattle.blk_ids.specs.IdSet.{set_has};
ghost use Rattle.blk_ids.specs.IdSet as id_set;
ghost use Rattle.blk_bio.specs.declared.bio.BioId.{BioId as Name};
ghost use Rattle.blk_trace.specs.Happened.{Tick, Release, Join, Issue, Done, Back, Depth};
ghost use Rattle.blk_trace.specs.Legal.{IsLegalTrace};
ghost use Rattle.blk_trace.specs.Rules.{BreaksNoRule};
ghost use Rattle.blk_trace.specs.Traces.{IsPreparedFor, extended};
ghost use Rattle.blk_trace.specs.Events.{IsOpen};
ghost use Rattle.blk_trace.specs.Issues.{issues_of};
ghost use Rattle.blk_trace.specs.Inside.Kept.{at_stage, IsFlyingAt, has_named, has_bio_id};

use crate::event::Event;
use crate::issued::{Issued, Outcome};
use crate::known::{Entry, Known, Stage};
use crate::trace::{Prepared, Trace};
use blk_bio::{Bio, Request};
use blk_ids::{ById, IdSet};
use std::alloc::Allocator;

impl<A: Allocator + Clone> Trace<A> {
    /// Adds an event that breaks no rule, and for which there is room: `prepare` made it, or it is a Done or a Back, for
    /// which its Issue did. It looks for no fault and takes no memory.
    #[inline(always)]
    pub fn add(&mut self, event: Event<Request<A>>)
        requires unbroken { BreaksNoRule self.old.setup self.old.events event }
        requires prepared { IsPreparedFor self.old.prepared event }
        ensures added { self.new ≡ extended self.old event }
        ensures legal { IsLegalTrace self.old.setup (self.old.events ++ event ∷ []) }
    {
        // brings the prover the trace's invariant
        let _ = &self.round;
        match event {
            Event::Tick => self.add_tick(),
            Event::Release { id, request } => self.add_release(id, request),
            Event::Join { id, request } => self.add_join(id, request),
            Event::Issue { id, tag } => self.add_issue(id, tag),
            Event::Done { tag } => self.add_done(tag),
            Event::Back { tag } => self.add_back(tag),
            Event::Depth { depth } => self.add_depth(depth),
        }
    }

    /// Adds a Tick: no tag is used in the round that begins, and the last depth that was set is in force. It writes no tag: the
    /// last Issue under each is of a round before.
    fn add_tick(&mut self)
        requires unbroken { BreaksNoRule self.old.setup self.old.events Tick }
        requires prepared { IsPreparedFor self.old.prepared Tick }
        ensures added { self.new ≡ extended self.old Tick }
        ensures legal { IsLegalTrace self.old.setup (self.old.events ++ Tick ∷ []) }
    {
        self.round += 1;
        self.depth = self.next_depth;
        self.unused_from = 0;
        append(&mut self.events, Event::Tick);
        self.prepared = Prepared::Nothing;
    }

    /// Adds a Release: the request waits under its id.
    #[inline(always)]
    fn add_release(&mut self, id: u64, request: Request<A>)
        requires unbroken { BreaksNoRule self.old.setup self.old.events (Release id request) }
        requires prepared { IsPreparedFor self.old.prepared (Release id request) }
        ensures added { self.new ≡ extended self.old (Release id request) }
        ensures legal { IsLegalTrace self.old.setup (self.old.events ++ Release id request ∷ []) }
    {
        let expire = self.setup.expire(request.dir());
        let entry = Entry::entered(&request, self.round, expire);
        let stage = Stage::Waits;
        self.known.insert(id, Known { stage, entry });
        insert_ids(&mut self.ids, request.bios());
        append(&mut self.events, Event::Release { id, request });
        self.prepared = Prepared::Nothing;
    }

    /// Adds a Join: the request that waits under the id has these bios too.
    fn add_join(&mut self, id: u64, request: Request<A>)
        requires unbroken { BreaksNoRule self.old.setup self.old.events (Join id request) }
        requires prepared { IsPreparedFor self.old.prepared (Join id request) }
        ensures added { self.new ≡ extended self.old (Join id request) }
        ensures legal { IsLegalTrace self.old.setup (self.old.events ++ Join id request ∷ []) }
    {
        let Some(old) = self.request(id) else {
            unreachable!();
        };
        let Some(entry) = old.joined(&request, self.round, &self.setup.limits()) else {
            unreachable!();
        };
        let stage = Stage::Waits;
        self.known.set(id, Known { stage, entry });
        insert_ids(&mut self.ids, request.bios());
        append(&mut self.events, Event::Join { id, request });
        self.prepared = Prepared::Nothing;
    }

    /// Adds an Issue: the request waits no more.
    #[inline(always)]
    fn add_issue(&mut self, id: u64, tag: u16)
        requires unbroken { BreaksNoRule self.old.setup self.old.events (Issue id tag) }
        requires prepared { IsPreparedFor self.old.prepared (Issue id tag) }
        ensures added { self.new ≡ extended self.old (Issue id tag) }
        ensures legal { IsLegalTrace self.old.setup (self.old.events ++ Issue id tag ∷ []) }
    {
        moved(&mut self.known, id, Stage::Gone);
        let place = self.issued.len();
        let round = self.round;
        let outcome = Outcome::Flying;
        append(
            &mut self.issued,
            Issued {
                round,
                id,
                tag,
                outcome,
            },
        );
        self.tags[tag as usize] = Some(place);
        self.unused_from = past(self.unused_from, tag);
        self.open += 1;
        append(&mut self.events, Event::Issue { id, tag });
        self.prepared = Prepared::Nothing;
    }

    /// Adds a Done: the tag's Issue is no longer open.
    fn add_done(&mut self, tag: u16)
        requires unbroken { BreaksNoRule self.old.setup self.old.events (Done tag) }
        ensures added { self.new ≡ extended self.old (Done tag) }
        ensures legal { IsLegalTrace self.old.setup (self.old.events ++ Done tag ∷ []) }
    {
        let place = self.open_place(tag);
        let issue = self.issued[place];
        let outcome = Outcome::Done;
        self.issued[place] = Issued { outcome, ..issue };
        self.open -= 1;
        append(&mut self.events, Event::Done { tag });
        self.prepared = Prepared::Nothing;
    }

    /// The place of the open Issue of a tag.
    fn open_place(&self, tag: u16) -> usize
        requires { IsOpen self.now.events tag }
        ensures { IsFlyingAt (issues_of self.now.events) result tag }
    {
        // brings the prover the trace's invariant
        let _ = &self.round;
        let Some(place) = self.tags[tag as usize] else {
            unreachable!()
        };
        place
    }

    /// Adds a Back: the tag's Issue is no longer open, and its request waits again.
    fn add_back(&mut self, tag: u16)
        requires unbroken { BreaksNoRule self.old.setup self.old.events (Back tag) }
        ensures added { self.new ≡ extended self.old (Back tag) }
        ensures legal { IsLegalTrace self.old.setup (self.old.events ++ Back tag ∷ []) }
    {
        let place = self.open_place(tag);
        let issue = self.issued[place];
        let outcome = Outcome::Back;
        self.issued[place] = Issued { outcome, ..issue };
        moved(&mut self.known, issue.id, Stage::Requeued);
        self.open -= 1;
        append(&mut self.events, Event::Back { tag });
        self.prepared = Prepared::Nothing;
    }

    /// Adds a Depth: the rounds after the current one carry `depth` commands.
    fn add_depth(&mut self, depth: u64)
        requires unbroken { BreaksNoRule self.old.setup self.old.events (Depth depth) }
        requires prepared { IsPreparedFor self.old.prepared (Depth depth) }
        ensures added { self.new ≡ extended self.old (Depth depth) }
        ensures legal { IsLegalTrace self.old.setup (self.old.events ++ Depth depth ∷ []) }
    {
        self.next_depth = depth;
        append(&mut self.events, Event::Depth { depth });
        self.prepared = Prepared::Nothing;
    }
}

/// Notes how far the request of an id has come.
fn moved<A: Allocator + Clone>(known: &mut ById<Known, A>, id: u64, stage: Stage)
    requires { IsSome (kept_at known.old id) }
    ensures stage { Gives (kept_at known.old) id (option_map (at_stage stage) (kept_at known.old id)) (kept_at known.new) }
    ensures room { by_id.spare known.new ≡ by_id.spare known.old }
{
    let Some(kept) = known.get(id) else {
        unreachable!()
    };
    let entry = kept.entry;
    known.set(id, Known { stage, entry });
}

/// Adds a value at the end of a list that has room for it.
fn append<T: Drop, A: Allocator>(list: &mut Vec<T, A>, value: T)
    requires { length list.old.items < vec_capacity list.old }
    ensures items { list.new.items ≡ list.old.items ++ value ∷ [] }
    ensures room { vec_capacity list.old ≤ vec_capacity list.new }
{
    list.push_reserved(value);
}

/// Adds the ids of the bios, for which there is room.
#[inline(always)]
fn insert_ids<A: Allocator + Clone>(ids: &mut IdSet<A>, bios: &[Bio])
    requires { length bios.now ≤ id_set.spare ids.old }
    ensures ids { (x : Name) → has_named (set_has ids.new) x ≡ has_named (set_has ids.old) x || has_bio_id bios.now x }
    ensures room { id_set.spare ids.old ≤ id_set.spare ids.new + length bios.now }
{
    for bio in bios {
        let id = bio.id();
        ids.insert(id.submitter, id.serial);
    }
}

/// The least bound that is no lower and past a tag.
fn past(bound: usize, tag: u16) -> usize
    ensures higher { bound ≤ result }
    ensures past { tag < result }
    ensures least { (n : ℕ) → bound ≤ n → tag < n → result ≤ n }
{
    let tag = tag as usize;
    if tag < bound { bound } else { tag + 1 }
}
