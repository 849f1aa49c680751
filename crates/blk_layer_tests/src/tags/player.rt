//! A set and a seat of it, side by side, and calls that say no more than what they answer.

ghost use Rattle.std.specs.Prelude.{◌≡◌};

use blk_tags::{TagSeat, TagSet};
use std::alloc::Allocator;

/// A seat beside its set.
#[derive(Drop)]
pub struct Player<'a> {
    set: &'a TagSet,
    seat: TagSeat,
    ghost of_set: { seat.of_set ≡ set.now },
}

impl<'a> Player<'a> {
    /// A seat of this set.
    pub fn new(set: &'a TagSet, seat: TagSeat) -> Player<'a>
        requires { seat.of_set ≡ set.now }
    {
        Player { set, seat }
    }

    /// One more seat of the same set. There is none where memory ran out.
    pub fn another(&mut self) -> Option<Player<'a>> {
        let seat = self.set.split(&mut self.seat).ok()?;
        Some(Player {
            set: self.set,
            seat,
        })
    }

    /// Takes a tag.
    pub fn get(&mut self) -> Option<u16> {
        self.set.get(&mut self.seat)
    }

    /// Takes a tag, from the given one on.
    pub fn get_from(&mut self, from: u16) -> Option<u16> {
        self.set.get_from(&mut self.seat, from)
    }

    /// Gives a tag back where it is held, and says whether it is.
    pub fn give(&mut self, tag: u16) -> bool {
        if !self.seat.holds(tag) {
            return false;
        }
        self.set.give(&mut self.seat, tag);
        true
    }

    /// Whether it holds a tag.
    pub fn holds(&self, tag: u16) -> bool {
        self.seat.holds(tag)
    }
}

/// Takes a tag for a seat of the set.
pub fn take<A: Allocator>(set: &TagSet<A>, seat: &mut TagSeat<A>) -> Option<u16>
    requires { seat.old.of_set ≡ set.now }
    ensures { seat.new.of_set ≡ seat.old.of_set }
{
    set.get(seat)
}

/// Gives a tag of a seat back where it is held, and says whether it is.
pub fn give<A: Allocator>(set: &TagSet<A>, seat: &mut TagSeat<A>, tag: u16) -> bool
    requires { seat.old.of_set ≡ set.now }
    ensures { seat.new.of_set ≡ seat.old.of_set }
{
    if !seat.holds(tag) {
        return false;
    }
    set.give(seat, tag);
    true
}
