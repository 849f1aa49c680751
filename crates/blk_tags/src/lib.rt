//! Tags that threads take and give back without a lock.
//!
//! After the driver tags of Linux blk-mq (`struct sbitmap_queue` of a `struct blk_mq_tags`): a request at the device is named
//! by a tag below the queue's depth, which comes back when it is done and is used again. A set has its tags as the bits of
//! four words, that of tag t in word t / 64. A take is one `fetch_or` on a word and a give one `fetch_and`, so no thread ever
//! waits for another. Each taker has a seat, which remembers what it holds; no two seats hold one tag.
#![tactic(auto)]

pub mod laws;
mod seat_tags;

ghost use Rattle.std.specs.Prelude.{◌≡◌, ◌<◌, ◌≤◌, ◌+◌, ◌-◌, ◌/◌, ◌%◌, ◌^◌, ◌++◌, ◌∷◌, [], ◌⊎◌, ◌↔◌, ℕ, List, length, replicate, true, false, None, Some, Err, IsTrue, IfOk, IfSome, IfNone, Contains};
ghost use Rattle.std.specs.Bool.{OnTrue, OnFalse};
ghost use Rattle.blk_tags.specs.Tags.{IsSet, IsSeat, count_of, no_tags, tag_or_first, stepped_for, tag_after, with_tag, TriesUpTo, without};
ghost use Rattle.blk_tags.specs.Steps.{TagsAreHeldOnce};
ghost use Rattle.blk_tags.specs.Inside.{took, gave};

use crate::seat_tags::SeatTags;
use atomic_table::{Join, Play, Seat, Split, Table, TableRule};
use edd_commands::MAX_DEPTH;
use std::alloc::{AllocError, Allocator, Global};
use std::marker::Model;
use thiserror::Error;

/// The most tags of a set: as many as a round carries commands at most. The four words have no room for more.
pub const MAX_TAG_DEPTH: u64 = MAX_DEPTH;

/// Why a set is not made, in the order in which the reasons are looked for.
#[derive(Clone, Copy, Debug, PartialEq, Eq, Error)]
#[error("{:?}", self)]
pub enum TagFault {
    /// The depth is 0 or above [`MAX_TAG_DEPTH`].
    Depth,
    /// Memory ran out.
    Memory,
}

/// What is true of the words and of what all seats hold, between any two steps.
struct TagRule;

impl TableRule<u8, SeatTags, u16> for TagRule {
    ghost holds = { λ depth s. TagsAreHeldOnce depth s };

    ghost first = { λ _. no_tags };
}

/// What a take does to the seat.
struct Take;

impl Play<u8, SeatTags> for Take {
    ghost then = { took };
}

/// What a give does to the seat.
struct Give;

impl Play<u8, SeatTags> for Give {
    ghost then = { gave };
}

/// A seat keeps what it holds, and a new one holds none.
struct Cut;

impl Split<SeatTags> for Cut {
    ghost left = { λ v. v };

    ghost right = { λ _. no_tags };
}

/// A seat keeps what it holds, and the one that goes holds none.
struct Whole;

impl Join<SeatTags> for Whole {
    ghost both = { λ v _. v };

    ghost spent = { no_tags };
}

/// A set of 1 to [`MAX_TAG_DEPTH`] tags, numbered from 0. Threads share it by `&`.
#[derive(Drop)]
pub struct TagSet<A: Allocator = Global> {
    table: Table<u8, SeatTags, u16, TagRule, A>,
    depth: u16,
}

impl<A: Allocator> Model for TagSet<A> {
    ghost use Rattle.blk_tags.specs.Tags.{Set, tag_set_of};
    ghost use Rattle.blk_tags.specs.Inside.{IsSetTable};

    ghost Value = { Set };

    ghost view = { λ s. tag_set_of s.table.shared.table_id s.depth };

    ghost invariant = { λ s. IsSetTable s.table.shared.table_id s.table.shared.key s.depth };
}

/// A seat at a set: the tags that it holds, and the one that it took last. One thread at a time takes and gives with it.
/// What a seat that is dropped still holds is never given back.
#[derive(Drop)]
pub struct TagSeat<A: Allocator = Global> {
    seat: Seat<u8, SeatTags>,
    marks: Vec<bool, A>,
    last: Option<u16>,
}

impl<A: Allocator> Model for TagSeat<A> {
    ghost use Rattle.blk_tags.specs.Tags.{Seat as SeatFields, tag_seat_of};
    ghost use Rattle.blk_tags.specs.Inside.{IsMarkedSeat};

    ghost Value = { SeatFields };

    ghost view = { λ s. tag_seat_of s.seat.table_id s.marks.items s.seat.me.0 s.last };

    ghost invariant = { λ s. IsMarkedSeat s.seat.table_id s.marks.items s.seat.me.0 s.seat.me.1 s.last };
}

impl<A: Allocator + Clone> TagSet<A> {
    /// A set of `depth` tags, 1 to [`MAX_TAG_DEPTH`], none of them taken, with its first seat. Refused as `Depth` where the depth
    /// is out of its range, and then as `Memory` when memory runs out.
    pub fn new(alloc: A, depth: u64) -> Result<(TagSet<A>, TagSeat<A>), TagFault>
        ensures depth { IfOk result (λ p. p.0.depth ≡ depth) }
        ensures seat { IfOk result (λ p. p.1 ≡ record { of_set = p.0; tags = []; last = None; steps = [] }) }
        ensures refused { (result ≡ Err TagFault.Depth) ↔ ((depth < 1) ⊎ (MAX_TAG_DEPTH < depth)) }
    {
        if depth < 1 || depth > MAX_TAG_DEPTH {
            return Err(TagFault::Depth);
        }
        let Ok(marks) = no_marks(&alloc, depth as usize) else {
            return Err(TagFault::Memory);
        };
        let depth = depth as u16;
        let Ok((table, seat)) = Table::of_words(alloc, &[0; 4], &depth) else {
            return Err(TagFault::Memory);
        };
        let seat = TagSeat {
            seat,
            marks,
            last: None,
        };
        Ok((TagSet { table, depth }, seat))
    }

    /// A new seat, which holds no tag; the seat that is handed in must be one of this set, and stays as it is. Fails only when
    /// memory runs out.
    pub fn split(&self, seat: &mut TagSeat<A>) -> Result<TagSeat<A>, AllocError>
        requires { seat.old.of_set ≡ self.now }
        ensures ok { IfOk result (λ s. s ≡ record { of_set = self.now; tags = []; last = None; steps = [] }) }
        ensures same { seat.new ≡ seat.old }
    {
        let marks = no_marks(seat.marks.allocator(), usize::from(self.depth))?;
        Ok(TagSeat {
            seat: self.table.shared.split_seat::<Cut>(&mut seat.seat),
            marks,
            last: None,
        })
    }
}

/// `count` marks, none of them set.
fn no_marks<A: Allocator + Clone>(alloc: &A, count: usize) -> Result<Vec<bool, A>, AllocError>
    ensures { IfOk result (λ v. v.items ≡ replicate count false) }
{
    vec![in alloc.clone()?; false; count]
}

impl<A: Allocator> TagSet<A> {
    /// Gives back each tag that a seat of this set still holds, by one step each, and answers the emptied seat. It takes no
    /// memory.
    pub fn join(&self, other: TagSeat<A>) -> TagSeat<A>
        requires { other.of_set ≡ self.now }
        ensures emptied { result ≡ record other { tags = []; steps = result.steps } }
        ensures steps { length result.steps ≡ length other.steps + length other.tags }
    {
        let mut other = other;
        for tag in 0..self.depth {
            if other.holds(tag) {
                self.give(&mut other, tag);
            }
        }
        // Answers nothing that counts: the prover gets that the seat is one of a set.
        let _ = other.holds(0);
        other
    }

    /// Drops a seat that holds no tag, by joining it into one that stays as it is; both are seats of this set.
    pub fn let_go(&self, seat: &mut TagSeat<A>, other: TagSeat<A>)
        requires of_set { seat.old.of_set ≡ self.now }
        requires other_of_set { other.of_set ≡ self.now }
        requires none { other.tags ≡ [] }
        ensures { seat.new ≡ seat.old }
    {
        let TagSeat {
            seat: gone,
            marks: _,
            last: _,
        } = other;
        self.table.shared.join_seat::<Whole>(&mut seat.seat, gone);
    }

    /// Takes a tag that no seat holds, for a seat of this set. Tries each tag at most once, by one step each, in rising order from
    /// the one after the seat's last, from 0 at first, and goes on at 0 after the greatest. There is none where each try found
    /// its tag taken. It neither waits nor takes memory.
    pub fn get(&self, seat: &mut TagSeat<A>) -> Option<u16>
        requires { seat.old.of_set ≡ self.now }
        ensures some { IfSome result (λ t. seat.new ≡ with_tag seat.old t seat.new.steps) }
        ensures free { IfSome result (λ t. ¬ Contains seat.old.tags t) }
        ensures held { IfSome result (Contains seat.new.tags) }
        ensures below { IfSome result (λ t. t < self.now.depth) }
        ensures none { IfNone result (seat.new ≡ record seat.old { steps = seat.new.steps }) }
        ensures steps { TriesUpTo self.now.depth (tag_or_first self.now.depth (tag_after seat.old.last)) result seat.old.steps seat.new.steps }
    {
        let from = seat.next();
        self.get_from(seat, from)
    }

    /// Takes a tag as [`TagSet::get`] does, but tries from the given one on, or from 0 where that is none of the set's.
    pub fn get_from(&self, seat: &mut TagSeat<A>, from: u16) -> Option<u16>
        requires { seat.old.of_set ≡ self.now }
        ensures some { IfSome result (λ t. seat.new ≡ with_tag seat.old t seat.new.steps) }
        ensures free { IfSome result (λ t. ¬ Contains seat.old.tags t) }
        ensures held { IfSome result (Contains seat.new.tags) }
        ensures below { IfSome result (λ t. t < self.now.depth) }
        ensures none { IfNone result (seat.new ≡ record seat.old { steps = seat.new.steps }) }
        ensures steps { TriesUpTo self.now.depth (tag_or_first self.now.depth from) result seat.old.steps seat.new.steps }
    {
        let mut tag = self.or_first(from);
        for _ in 0..self.depth {
            if self.take(seat, tag) {
                return Some(tag);
            }
            tag = self.or_first(tag + 1);
        }
        None
    }

    /// The tag itself where it is one of the set's, and otherwise 0.
    fn or_first(&self, tag: u16) -> u16
        ensures value { result ≡ tag_or_first self.now.depth tag }
        ensures is_set { IsSet self.now }
    {
        if tag < self.depth { tag } else { 0 }
    }

    /// Tries to take a tag, by one step.
    fn take(&self, seat: &mut TagSeat<A>, tag: u16) -> bool
        requires of_set { seat.old.of_set ≡ self.now }
        requires below { tag < self.now.depth }
        ensures won { OnTrue result (seat.new ≡ with_tag seat.old tag seat.new.steps) }
        ensures free { OnTrue result (¬ Contains seat.old.tags tag) }
        ensures held { OnTrue result (Contains seat.new.tags tag) }
        ensures lost { OnFalse result (seat.new ≡ record seat.old { steps = seat.new.steps }) }
        ensures steps { seat.new.steps ≡ seat.old.steps ++ tag ∷ [] }
    {
        if !self.set_bit(&mut seat.seat, tag) {
            return false;
        }
        seat.marks[usize::from(tag)] = true;
        seat.last = Some(tag);
        true
    }

    /// Sets a tag's bit, and says whether it was clear.
    fn set_bit(&self, seat: &mut Seat<u8, SeatTags>, tag: u16) -> bool
        requires table { seat.old.table_id ≡ self.now.name }
        requires below { tag < self.now.depth }
        ensures won { OnTrue result (seat.new.me.0 ≡ stepped_for tag seat.old.me.0 (seat.old.me.0.tags ++ tag ∷ [])) }
        ensures free { OnTrue result (count_of tag seat.old.me.0.tags ≡ 0) }
        ensures lost { OnFalse result (seat.new.me.0 ≡ stepped_for tag seat.old.me.0 seat.old.me.0.tags) }
        ensures slots { seat.new.me.1 ≡ seat.old.me.1 }
        ensures same { seat.new.table_id ≡ seat.old.table_id }
    {
        let bit = bit_of(tag);
        let found = self.table.shared.fetch_or::<Take>(seat, word_of(tag), bit);
        found & bit == 0
    }

    /// Gives back a tag that the seat, which is one of this set, holds, by one step. It neither waits nor takes memory.
    pub fn give(&self, seat: &mut TagSeat<A>, tag: u16)
        requires of_set { seat.old.of_set ≡ self.now }
        requires holds { Contains seat.old.tags tag }
        ensures { seat.new ≡ record seat.old { tags = without tag seat.old.tags; steps = seat.old.steps ++ tag ∷ [] } }
    {
        self.clear_bit(&mut seat.seat, tag);
        seat.marks[usize::from(tag)] = false;
    }

    /// Clears the bit of a tag that the seat holds.
    fn clear_bit(&self, seat: &mut Seat<u8, SeatTags>, tag: u16)
        requires table { seat.old.table_id ≡ self.now.name }
        requires below { tag < self.now.depth }
        requires holds { 0 < count_of tag seat.old.me.0.tags }
        ensures gave { seat.new.me.0 ≡ stepped_for tag seat.old.me.0 (without tag seat.old.me.0.tags) }
        ensures slots { seat.new.me.1 ≡ seat.old.me.1 }
        ensures same { seat.new.table_id ≡ seat.old.table_id }
    {
        let _found = self
            .table
            .shared
            .fetch_and::<Give>(seat, word_of(tag), !bit_of(tag));
    }

    /// How many tags it has, 1 to [`MAX_TAG_DEPTH`].
    pub fn depth(&self) -> u64
        ensures value { result ≡ self.now.depth }
        ensures is_set { IsSet self.now }
    {
        u64::from(self.depth)
    }
}

impl<A: Allocator> TagSeat<A> {
    /// Whether it holds a tag. It takes no memory.
    pub fn holds(&self, tag: u16) -> bool
        ensures value { IsTrue result ↔ Contains self.now.tags tag }
        ensures is_seat { IsSeat self.now }
    {
        usize::from(tag) < self.marks.len() && self.marks[usize::from(tag)]
    }

    /// The tag that its next take tries first, or the depth where it took the last one.
    pub fn next(&self) -> u16
        ensures value { result ≡ tag_after self.now.last }
        ensures few { result ≤ self.now.of_set.depth }
    {
        match self.last {
            Some(last) => last + 1,
            None => 0,
        }
    }
}

/// The word that a tag's bit is in.
fn word_of(tag: u16) -> usize
    ensures { result ≡ tag / 64 }
{
    usize::from(tag / 64)
}

/// A tag's bit in its word.
fn bit_of(tag: u16) -> u64
    ensures { result ≡ 2 ^ (tag % 64) }
{
    1 << (tag % 64)
}
