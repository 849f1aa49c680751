//! What waits, found by where it stands on the device, the oldest or the newest there.

ghost use Rattle.std.specs.Prelude.{◌≡◌, ◌<◌, ◌^◌, true, false, IfSome, IfNone, OnOk};
ghost use Rattle.std.specs.Ordering.{is_eq};
ghost use Rattle.blk_capture.specs.Inside.LookupKeys.{lookup_cmp, seat, has, whole_key, edge_key, PutsIf, TakesIf, MovesTo, IsOldestUnder, IsNewestUnder, IsEmptyAt, IsUnusedAt, IsShortestOver, IsEmptyOver};
ghost use Rattle.blk_capture.specs.declared.lookup.Seat.{Seat};

use crate::record::Range;
use ordered::Ordered;
use std::alloc::{AllocError, Allocator, Global};

/// The key of a search; a part that isn't searched by is 0.
#[derive(Clone, Copy, Debug, PartialEq, Eq, PartialOrd, Ord)]
pub(crate) struct LookupKey {
    /// A sector, the first one or the one after the last. It comes first, since it tells most keys apart.
    pub(crate) sector: u64,
    /// Whether it is written.
    pub(crate) write: bool,
    /// The process that owns it.
    pub(crate) pid: u64,
    /// Where it ends.
    pub(crate) end: u64,
}

impl LookupKey {
    /// By its whole range.
    pub(crate) fn whole(range: Range) -> LookupKey
        ensures { result ≡ whole_key range }
    {
        LookupKey {
            pid: 0,
            write: range.is_write(),
            sector: range.first,
            end: range.end,
        }
    }

    /// By its direction and one sector, and by who owns it, or 0.
    pub(crate) fn edge(range: Range, sector: u64, pid: u64) -> LookupKey
        ensures { result ≡ edge_key range sector pid }
    {
        LookupKey {
            pid,
            write: range.is_write(),
            sector,
            end: 0,
        }
    }
}

/// What stands under a key: the number of a bio or a request, and how old it is.
#[derive(Clone, Copy, Debug, PartialEq, Eq, PartialOrd, Ord)]
pub(crate) struct Seat {
    pub(crate) key: LookupKey,
    pub(crate) age: u64,
    pub(crate) place: usize,
}

/// Whether two keys are equal.
pub(crate) fn is_same(a: LookupKey, b: LookupKey) -> bool
    ensures { result ≡ is_eq (lookup_cmp a b) }
{
    a.cmp(&b).is_eq()
}

/// Bios or requests by keys, and of one key by age: the number of a record.
#[derive(Drop)]
pub(crate) struct KeyIndex<A: Allocator = Global> {
    /// By keys, ages and places.
    pub(crate) seats: Ordered<Seat, A>,
}

impl<A: Allocator + Clone> KeyIndex<A> {
    /// None. It takes no memory.
    pub(crate) fn new(alloc: A) -> KeyIndex<A>
        ensures { (q : Seat) → has result q ≡ false }
    {
        KeyIndex {
            seats: Ordered::new(alloc),
        }
    }

    /// Puts one in.
    pub(crate) fn put(&mut self, key: LookupKey, age: u64, place: usize) -> Result<(), AllocError>
        ensures { OnOk result (PutsIf true (seat key age place) (has self.old) (has self.new)) }
    {
        self.seats.put(Seat { key, age, place })
    }

    /// Takes one out, if it is there.
    pub(crate) fn take(&mut self, key: LookupKey, age: u64, place: usize)
        ensures { TakesIf true (seat key age place) (has self.old) (has self.new) }
    {
        self.seats.take(Seat { key, age, place });
    }

    /// Takes one out, if it is there, and puts it under another key.
    pub(crate) fn shift(
        &mut self,
        old: LookupKey,
        new: LookupKey,
        age: u64,
        place: usize,
    ) -> Result<(), AllocError>
        ensures { OnOk result (MovesTo (seat old age place) (seat new age place) (has self.old) (has self.new)) }
    {
        self.take(old, age, place);
        self.put(new, age, place)
    }

    /// The oldest under a key.
    pub(crate) fn oldest(&self, key: LookupKey) -> Option<usize>
        ensures some { IfSome result (IsOldestUnder (has self.now) key) }
        ensures none { IfNone result (IsEmptyAt (has self.now) key) }
    {
        let lower = Seat {
            key,
            age: 0,
            place: 0,
        };
        let found = self.seats.from(lower)?;
        let same = is_same(found.key, key);
        if same { Some(found.place) } else { None }
    }

    /// The newest under a key.
    pub(crate) fn newest(&self, key: LookupKey) -> Option<usize>
        ensures some { IfSome result (IsNewestUnder (has self.now) key) }
        ensures none { IfNone result (IsUnusedAt (has self.now) key) }
    {
        let upper = Seat {
            key,
            age: u64::MAX,
            place: usize::MAX,
        };
        let found = self.seats.upto(upper)?;
        let same = is_same(found.key, key);
        if same { Some(found.place) } else { None }
    }

    /// What begins where this range does and ends after it: the one that ends first, of several the oldest.
    pub(crate) fn longer(&self, range: Range) -> Option<usize>
        requires { range.end < 2 ^ 63 }
        ensures some { IfSome result (IsShortestOver (has self.now) range) }
        ensures none { IfNone result (IsEmptyOver (has self.now) range) }
    {
        let key = LookupKey::whole(range);
        let lower = Seat {
            key: LookupKey {
                end: range.end + 1,
                ..key
            },
            age: 0,
            place: 0,
        };
        let found = self.seats.from(lower)?;
        let end = found.key.end;
        let same = is_same(found.key, LookupKey { end, ..key });
        if same { Some(found.place) } else { None }
    }
}
