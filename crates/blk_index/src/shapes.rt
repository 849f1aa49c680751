//! The requests of places that several share, by how many bios and how many sectors they have.

ghost use Rattle.std.specs.Prelude.{◌≡◌, ◌<◌, ◌≤◌, ◌^◌, ◌/◌, ℕ, true, false, OnOk, IfSome, IfNone};
ghost use Rattle.std.specs.Bool.{OnTrue};
ghost use Rattle.std.specs.Ordering.{eq_by_cmp};
ghost use Rattle.ordered.specs.Ordered.{listed};
ghost use Rattle.blk_index.specs.Inside.Spots.{IsBelow, place_cmp};
ghost use Rattle.blk_index.specs.Inside.Entries.{Key, sized_cmp, block_cmp, entry_cmp};
ghost use Rattle.blk_index.specs.Inside.Shapes.{entries_in, entry_at, IsInClass, IsIn, IsSpan, IsUnit, Spares, upper_of, StandsBetween};

use crate::entry::Entry;
use crate::ids::greater;
use ordered::Ordered;
use std::alloc::{AllocError, Allocator, Global};

/// A direction, as whether it writes, and a sector.
pub type Place = (bool, u64);

/// How many bios, and how many sectors, a request has.
pub type Shape = (u64, u64);

/// The requests at a place whose bios fill so many whole blocks of one size, which stands before.
pub type Class = ((Place, u64), u64);

/// Of a class those whose sectors fill so many whole blocks of one size, which stands before.
pub type Block = ((Class, u64), u64);

/// How many blocks of one size make one of the next.
const STEP: u64 = 16;

/// The largest block of bios, and of sectors.
const MOST_BIOS: u64 = 16;

const MOST_SECTORS: u64 = 4096;

/// Requests by their places, bios and sectors: each stands in a block of one bio and in one of 16, those that it fills last, and in each of these
/// in four blocks of sectors, of 1, 16, 256 and 4,096. So those that have no more than 127 bios and so many sectors are the ones of 22 blocks of
/// bios at most, and in each of 60 blocks of sectors.
#[derive(Drop)]
pub struct Shapes<A: Allocator = Global> {
    entries: Ordered<Entry, A>,
}

impl<A: Allocator + Clone> Shapes<A> {
    /// No requests. It takes no memory.
    pub fn new(alloc: A) -> Shapes<A>
        ensures { (e : Key) → entries_in result e ≡ false }
    {
        Shapes {
            entries: Ordered::new(alloc),
        }
    }

    /// Whether there is none.
    #[inline(always)]
    pub fn is_empty(&self) -> bool
        ensures { OnTrue result ((e : Key) → entries_in self.now e ≡ false) }
    {
        self.entries.is_empty()
    }

    /// Adds a request. Where memory is refused, part of it may stand there.
    pub fn put(&mut self, place: Place, shape: Shape, id: u64) -> Result<(), AllocError>
        ensures ok { OnOk result (IsIn (entries_in self.new) place shape id) }
        ensures kept { (e : Key) → entries_in self.old e ≡ true → entries_in self.new e ≡ true }
    {
        put_in(&mut self.entries, place, 1, shape, id)?;
        put_in(&mut self.entries, place, 16, shape, id)
    }

    /// Takes a request out, but for what another shape of it, if there is one, has in common with this one. It takes no memory.
    pub fn take(&mut self, place: Place, shape: Shape, id: u64, but: Option<Shape>)
        ensures kept { (e : Key) → (e.0.0.0.0.0 ≡ place → e.1 ≡ id → ⊥) → entries_in self.old e ≡ true → entries_in self.new e ≡ true }
        ensures spared { IfSome but (Spares place id (entries_in self.old) (entries_in self.new)) }
    {
        take_in(&mut self.entries, place, 1, shape, id, but);
        take_in(&mut self.entries, place, 16, shape, id, but);
    }

    /// The newest request at a place that has no more sectors and bios than these, by its id, below a bound if there is one. It looks at the
    /// blocks that these bios fill: at those of one bio after the last of 16, and at those of 16.
    pub fn newest(&self, place: Place, sectors: u64, bios: u64, below: Option<u64>) -> Option<u64>
        requires sectors { sectors < 65535 }
        requires bios { bios < 2 ^ 63 }
        ensures low { IfSome result (IsBelow below) }
        ensures newest { (k s b : ℕ) → StandsBetween below result k → IsIn (entries_in self.now) place (b, s) k → s ≤ sectors → b ≤ bios → ⊥ }
    {
        let mut best = None;
        let mut span = 1;
        let mut end = bios + 1;
        while end > 0 {
            if span < MOST_BIOS && end % STEP == 0 {
                end /= STEP;
                span *= STEP;
            } else {
                end -= 1;
                let class = ((place, span), end);
                best = greater(best, newest_of_class(&self.entries, class, sectors, below));
            }
        }
        best
    }
}

/// The block of two sizes that a request fills last.
fn block_of(place: Place, span: u64, unit: u64, shape: Shape) -> Block
    requires span { IsSpan span }
    requires unit { IsUnit unit }
    ensures { (id : ℕ) → (result, id) ≡ entry_at place shape id span unit }
{
    ((((place, span), shape.0 / span), unit), shape.1 / unit)
}

/// The entry of a request.
fn entry_of(block: Block, id: u64) -> Entry
    ensures { result ≡ (block, id) }
{
    let ((((place, span), bios), unit), sectors) = block;
    Entry {
        write: place.0,
        sector: place.1,
        span,
        bios,
        unit,
        sectors,
        id,
    }
}

/// Its block.
fn block_at(entry: Entry) -> Block
    ensures { result ≡ entry.0 }
{
    let place = (entry.write, entry.sector);
    (
        (((place, entry.span), entry.bios), entry.unit),
        entry.sectors,
    )
}

/// Puts a request in its blocks of one size of bios.
fn put_in<A: Allocator + Clone>(
    entries: &mut Ordered<Entry, A>,
    place: Place,
    span: u64,
    shape: Shape,
    id: u64,
) -> Result<(), AllocError>
    requires { IsSpan span }
    ensures ok { OnOk result ((unit : ℕ) → IsUnit unit → listed entry_cmp entries.new (entry_at place shape id span unit) ≡ true) }
    ensures kept { (e : Key) → listed entry_cmp entries.old e ≡ true → listed entry_cmp entries.new e ≡ true }
{
    put_entry(entries, block_of(place, span, 1, shape), id)?;
    put_entry(entries, block_of(place, span, 16, shape), id)?;
    put_entry(entries, block_of(place, span, 256, shape), id)?;
    put_entry(entries, block_of(place, span, 4096, shape), id)
}

/// Puts an entry in. On a refusal nothing is changed.
fn put_entry<A: Allocator + Clone>(
    entries: &mut Ordered<Entry, A>,
    block: Block,
    id: u64,
) -> Result<(), AllocError>
    ensures ok { OnOk result (listed entry_cmp entries.new (block, id) ≡ true) }
    ensures kept { (e : Key) → listed entry_cmp entries.old e ≡ true → listed entry_cmp entries.new e ≡ true }
{
    entries.put(entry_of(block, id))
}

/// Takes a request out of its blocks of one size of bios, but for those of another shape of it.
fn take_in<A: Allocator + Clone>(
    entries: &mut Ordered<Entry, A>,
    place: Place,
    span: u64,
    shape: Shape,
    id: u64,
    but: Option<Shape>,
)
    requires { IsSpan span }
    ensures kept { (e : Key) → (e.0.0.0.0.0 ≡ place → e.1 ≡ id → ⊥) → listed entry_cmp entries.old e ≡ true → listed entry_cmp entries.new e ≡ true }
    ensures spared { IfSome but (Spares place id (listed entry_cmp entries.old) (listed entry_cmp entries.new)) }
{
    take_entry(entries, place, span, 1, shape, id, but);
    take_entry(entries, place, span, 16, shape, id, but);
    take_entry(entries, place, span, 256, shape, id, but);
    take_entry(entries, place, span, 4096, shape, id, but);
}

/// Takes an entry out, but for one of another shape.
fn take_entry<A: Allocator + Clone>(
    entries: &mut Ordered<Entry, A>,
    place: Place,
    span: u64,
    unit: u64,
    shape: Shape,
    id: u64,
    but: Option<Shape>,
)
    requires span { IsSpan span }
    requires unit { IsUnit unit }
    ensures kept { (e : Key) → (e.0.0.0.0.0 ≡ place → e.1 ≡ id → ⊥) → listed entry_cmp entries.old e ≡ true → listed entry_cmp entries.new e ≡ true }
    ensures spared { IfSome but (Spares place id (listed entry_cmp entries.old) (listed entry_cmp entries.new)) }
{
    let block = block_of(place, span, unit, shape);
    if let Some(other) = but {
        if is_block(block_of(place, span, unit, other), block) {
            return;
        }
    }
    entries.take(entry_of(block, id));
}

/// Whether two places are equal.
pub fn is_place(one: Place, other: Place) -> bool
    ensures { result ≡ eq_by_cmp place_cmp one other }
{
    one.0 == other.0 && one.1 == other.1
}

/// Whether two blocks are equal.
fn is_block(one: Block, other: Block) -> bool
    ensures { result ≡ eq_by_cmp block_cmp one other }
{
    is_sized(one.0, other.0) && one.1 == other.1
}

/// The newest request of a block, by its id, below a bound if there is one.
fn newest_in<A: Allocator + Clone>(
    entries: &Ordered<Entry, A>,
    block: Block,
    below: Option<u64>,
) -> Option<u64>
    requires { block.1 < 2 ^ 63 }
    ensures low { IfSome result (IsBelow below) }
    ensures newest { (k : ℕ) → StandsBetween below result k → listed entry_cmp entries.now (block, k) ≡ true → ⊥ }
{
    let found = entries.below(upper_of(block, below))?;
    if is_block(block_at(found), block) {
        Some(found.id)
    } else {
        None
    }
}

/// The entry above those of a block whose ids are below a bound, if there is one.
fn upper_of(block: Block, below: Option<u64>) -> Entry
    requires { block.1 < 2 ^ 63 }
    ensures { result ≡ upper_of block below }
{
    match below {
        Some(id) => entry_of(block, id),
        None => entry_of((block.0, block.1 + 1), 0),
    }
}

/// Whether two classes are equal, and two sizes of blocks of sectors.
fn is_sized(one: (Class, u64), other: (Class, u64)) -> bool
    ensures { result ≡ eq_by_cmp sized_cmp one other }
{
    let ((place, span), bios) = one.0;
    is_place(place, other.0.0.0) && span == other.0.0.1 && bios == other.0.1 && one.1 == other.1
}

/// Of the blocks of a class and a size in which requests are, the last below `end`, and the newest there, by its id.
fn last_below<A: Allocator + Clone>(
    entries: &Ordered<Entry, A>,
    sized: (Class, u64),
    end: u64,
) -> Option<(u64, u64)>
    ensures low { IfSome result (λ found. found.0 < end) }
    ensures last { IfSome result (λ found. (n k : ℕ) → n < end → listed entry_cmp entries.now ((sized, n), k) ≡ true → n ≤ found.0) }
    ensures newest { IfSome result (λ found. (k : ℕ) → found.1 < k → listed entry_cmp entries.now ((sized, found.0), k) ≡ true → ⊥) }
    ensures none { IfNone result ((n k : ℕ) → n < end → listed entry_cmp entries.now ((sized, n), k) ≡ true → ⊥) }
{
    let found = entries.below(entry_of((sized, end), 0))?;
    let (of, last) = block_at(found);
    if is_sized(of, sized) {
        Some((last, found.id))
    } else {
        None
    }
}

/// The newest request of a block whose newest one is known, by its id, below a bound if there is one.
fn newest_under<A: Allocator + Clone>(
    entries: &Ordered<Entry, A>,
    block: Block,
    newest: u64,
    below: Option<u64>,
) -> Option<u64>
    requires block { block.1 < 2 ^ 63 }
    requires newest { (k : ℕ) → newest < k → listed entry_cmp entries.now (block, k) ≡ true → ⊥ }
    ensures low { IfSome result (IsBelow below) }
    ensures newest { (k : ℕ) → StandsBetween below result k → listed entry_cmp entries.now (block, k) ≡ true → ⊥ }
{
    match below {
        Some(_) => newest_in(entries, block, below),
        None => Some(newest),
    }
}

/// The newest request of a class that has no more sectors than these, by its id, below a bound if there is one. Of the blocks that these sectors
/// fill it looks at those in which requests are: at those of one sector after the last of 16, at those of 16 after the last of 256, and so on.
fn newest_of_class<A: Allocator + Clone>(
    entries: &Ordered<Entry, A>,
    class: Class,
    sectors: u64,
    below: Option<u64>,
) -> Option<u64>
    requires { sectors < 65535 }
    ensures low { IfSome result (IsBelow below) }
    ensures newest { (k s : ℕ) → StandsBetween below result k → IsInClass (listed entry_cmp entries.now) class s k → s ≤ sectors → ⊥ }
{
    let mut best = None;
    let mut unit = 1;
    let mut end = sectors + 1;
    while end > 0 {
        if unit < MOST_SECTORS && end % STEP == 0 {
            end /= STEP;
            unit *= STEP;
        } else {
            let Some((last, newest)) = last_below(entries, (class, unit), end) else {
                return best;
            };
            end = last;
            best = greater(
                best,
                newest_under(entries, ((class, unit), end), newest, below),
            );
        }
    }
    best
}
