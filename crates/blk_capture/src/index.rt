//! Requests, found by where they wait and where they stand on the device.

ghost use Rattle.std.specs.Prelude.{◌≡◌, ◌<◌, ◌^◌, Bool, List, Some, true, false, IfSome, IfNone, IfOk, OnOk, slice_get, slice_set};
ghost use Rattle.blk_capture.specs.Inside.LookupKeys.{has, whole_key, edge_key, seat, PutsIf, TakesIf, MovesTo, IsOldestUnder, IsNewestUnder, IsEmptyAt, IsUnusedAt};
ghost use Rattle.blk_capture.specs.Inside.Indexes.{IndexPart, part_of, Lists, Unlists, AreIndexed, keep_first, facing, abutting_key};
ghost use Rattle.blk_capture.specs.declared.lookup.Seat.{Seat};

use crate::lookup::{KeyIndex, LookupKey, is_same};
use crate::opened::{Opened, Stage};
use crate::record::Range;
use blk_bio::Side;
use std::alloc::{AllocError, Allocator, Global};

/// Requests by their whole ranges, and by where they begin and end together with who owns them.
#[derive(Drop)]
pub(crate) struct MergeIndex<A: Allocator = Global> {
    /// By their ranges.
    pub(crate) wholes: KeyIndex<A>,
    /// By where they begin.
    pub(crate) firsts: KeyIndex<A>,
    /// By where they end.
    pub(crate) ends: KeyIndex<A>,
}

impl<A: Allocator + Clone> MergeIndex<A> {
    /// None.
    pub(crate) fn new(alloc: A) -> Result<MergeIndex<A>, AllocError>
        ensures wholes { IfOk result (λ e. (q : Seat) → has e.wholes q ≡ false) }
        ensures firsts { IfOk result (λ e. (q : Seat) → has e.firsts q ≡ false) }
        ensures ends { IfOk result (λ e. (q : Seat) → has e.ends q ≡ false) }
    {
        Ok(MergeIndex {
            wholes: KeyIndex::new(alloc.clone()?),
            firsts: KeyIndex::new(alloc.clone()?),
            ends: KeyIndex::new(alloc),
        })
    }

    /// Puts a request in, owned by `pid`, or by none at 0.
    pub(crate) fn insert(
        &mut self,
        range: Range,
        pid: u64,
        age: u64,
        place: usize,
    ) -> Result<(), AllocError>
        ensures wholes { OnOk result (PutsIf true (seat (whole_key range) age place) (has self.old.wholes) (has self.new.wholes)) }
        ensures firsts { OnOk result (PutsIf true (seat (edge_key range range.first pid) age place) (has self.old.firsts) (has self.new.firsts)) }
        ensures ends { OnOk result (PutsIf true (seat (edge_key range range.end pid) age place) (has self.old.ends) (has self.new.ends)) }
    {
        self.wholes.put(LookupKey::whole(range), age, place)?;
        self.firsts
            .put(LookupKey::edge(range, range.first, pid), age, place)?;
        self.ends
            .put(LookupKey::edge(range, range.end, pid), age, place)
    }

    /// Takes it out.
    pub(crate) fn remove(&mut self, range: Range, pid: u64, age: u64, place: usize)
        ensures wholes { TakesIf true (seat (whole_key range) age place) (has self.old.wholes) (has self.new.wholes) }
        ensures firsts { TakesIf true (seat (edge_key range range.first pid) age place) (has self.old.firsts) (has self.new.firsts) }
        ensures ends { TakesIf true (seat (edge_key range range.end pid) age place) (has self.old.ends) (has self.new.ends) }
    {
        self.wholes.take(LookupKey::whole(range), age, place);
        self.firsts
            .take(LookupKey::edge(range, range.first, pid), age, place);
        self.ends
            .take(LookupKey::edge(range, range.end, pid), age, place);
    }

    /// Lists a request by another range that begins where its range does.
    pub(crate) fn move_end(
        &mut self,
        old: Range,
        new: Range,
        pid: u64,
        age: u64,
        place: usize,
    ) -> Result<(), AllocError>
        ensures wholes { OnOk result (MovesTo (seat (whole_key old) age place) (seat (whole_key new) age place) (has self.old.wholes) (has self.new.wholes)) }
        ensures firsts { self.new.firsts ≡ self.old.firsts }
        ensures ends { OnOk result (MovesTo (seat (edge_key old old.end pid) age place) (seat (edge_key new new.end pid) age place) (has self.old.ends) (has self.new.ends)) }
    {
        self.wholes
            .shift(LookupKey::whole(old), LookupKey::whole(new), age, place)?;
        let end = LookupKey::edge(old, old.end, pid);
        self.ends
            .shift(end, LookupKey::edge(new, new.end, pid), age, place)
    }

    /// The oldest that a newcomer at a side abuts.
    pub(crate) fn oldest(&self, newcomer: Range, side: Side, pid: u64) -> Option<usize>
        ensures some { IfSome result (IsOldestUnder (facing side self.now) (abutting_key newcomer side pid)) }
        ensures none { IfNone result (IsEmptyAt (facing side self.now) (abutting_key newcomer side pid)) }
    {
        match side {
            Side::Back => self
                .ends
                .oldest(LookupKey::edge(newcomer, newcomer.first, pid)),
            Side::Front => self
                .firsts
                .oldest(LookupKey::edge(newcomer, newcomer.end, pid)),
        }
    }

    /// The newest that a newcomer at a side abuts.
    pub(crate) fn newest(&self, newcomer: Range, side: Side, pid: u64) -> Option<usize>
        ensures some { IfSome result (IsNewestUnder (facing side self.now) (abutting_key newcomer side pid)) }
        ensures none { IfNone result (IsUnusedAt (facing side self.now) (abutting_key newcomer side pid)) }
    {
        match side {
            Side::Back => self
                .ends
                .newest(LookupKey::edge(newcomer, newcomer.first, pid)),
            Side::Front => self
                .firsts
                .newest(LookupKey::edge(newcomer, newcomer.end, pid)),
        }
    }
}

/// Requests that wait or are at the device, each found by the rest of it.
#[derive(Drop)]
pub(crate) struct RequestIndex<A: Allocator = Global> {
    /// Those that were opened and not inserted, by who opened them.
    pub(crate) opened: MergeIndex<A>,
    /// The same by where they begin, no matter who opened them.
    pub(crate) starts: KeyIndex<A>,
    /// Those that were inserted and did not go out, or were requeued.
    pub(crate) inserted: MergeIndex<A>,
    /// Those at the device.
    pub(crate) in_flight: KeyIndex<A>,
}

/// Whether a request was opened and not inserted before and after, and begins where it did: then it goes on where it is listed by its first
/// sector.
fn keeps_first(old: &Opened, new: &Opened) -> bool
    ensures { result ≡ keep_first old.now new.now }
{
    let first = LookupKey::edge(old.left, old.left.first, old.pid);
    let next = LookupKey::edge(new.left, new.left.first, new.pid);
    old.is_opened() && new.is_opened() && old.age == new.age && is_same(first, next)
}

impl<A: Allocator + Clone> RequestIndex<A> {
    /// None.
    pub(crate) fn new(alloc: A) -> Result<RequestIndex<A>, AllocError>
        ensures { IfOk result (λ e. (part : IndexPart) (q : Seat) → part_of part e q ≡ false) }
    {
        Ok(RequestIndex {
            opened: MergeIndex::new(alloc.clone()?)?,
            starts: KeyIndex::new(alloc.clone()?),
            inserted: MergeIndex::new(alloc.clone()?)?,
            in_flight: KeyIndex::new(alloc),
        })
    }

    /// Lists the request of a number where it waits.
    pub(crate) fn put(&mut self, place: usize, request: &Opened) -> Result<(), AllocError>
        ensures { OnOk result (Lists place request.now self.old self.new) }
    {
        let left = request.left;
        match request.stage {
            Stage::Opened => {
                let start = LookupKey::edge(left, left.first, 0);
                self.starts.put(start, request.age, place)?;
                self.opened.insert(left, request.pid, request.age, place)
            }
            Stage::Inserted => self.inserted.insert(left, 0, request.age, place),
            Stage::InFlight(_) => self
                .in_flight
                .put(LookupKey::whole(left), request.age, place),
            Stage::Completed(_) | Stage::Absorbed => Ok(()),
        }
    }

    /// Takes it off the list where it waits.
    pub(crate) fn take(&mut self, place: usize, request: &Opened)
        ensures { Unlists place request.now self.old self.new }
    {
        let left = request.left;
        match request.stage {
            Stage::Opened => {
                let start = LookupKey::edge(left, left.first, 0);
                self.starts.take(start, request.age, place);
                self.opened.remove(left, request.pid, request.age, place);
            }
            Stage::Inserted => self.inserted.remove(left, 0, request.age, place),
            Stage::InFlight(_) => {
                self.in_flight
                    .take(LookupKey::whole(left), request.age, place)
            }
            Stage::Completed(_) | Stage::Absorbed => {}
        }
    }

    /// Lists the request of a number in another state, where it waits then.
    pub(crate) fn change(
        &mut self,
        place: usize,
        old: &Opened,
        new: &Opened,
    ) -> Result<(), AllocError>
        ensures { OnOk result ((qs : List Opened) → AreIndexed qs self.old → slice_get qs place ≡ Some old.now → AreIndexed (slice_set qs place new.now) self.new) }
    {
        // so are most: a bio is merged at the back
        let first = keeps_first(old, new);
        if first {
            return self
                .opened
                .move_end(old.left, new.left, old.pid, old.age, place);
        }
        self.take(place, old);
        self.put(place, new)
    }
}
