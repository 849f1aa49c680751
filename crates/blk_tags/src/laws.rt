//! What the rule of a set's words says of its bits and its seats, and that each kind of step keeps it; each law is the
//! contract of a function that does nothing. The set takes no other step: its table is made with its first seat, split,
//! joined with a seat that holds none, taken from by a `fetch_or`, given back to by a `fetch_and`, and closed.

ghost use Rattle.std.specs.Prelude.{ℕ, ◌≡◌, ◌+◌, ◌*◌, ◌<◌, List, [], ◌∷◌, slice_index};
ghost use Rattle.std.specs.Int.{bit_at};
ghost use Rattle.atomic_table.specs.Table.{State, opening};
ghost use Rattle.blk_tags.specs.declared.TagSet.TheInside.{Inside as InsideOfSet};
ghost use Rattle.blk_tags.specs.declared.TagSeat.TheInside.{Inside as InsideOfSeat};
ghost use Rattle.blk_tags.specs.Tags.{Held, no_tags};
ghost use Rattle.blk_tags.specs.Steps.{TagsAreHeldOnce, bit_of, IsBitSet, IsHeld, IsOfOneSeat};
ghost use Rattle.blk_tags.specs.Kinds.{SplitsASeat, JoinsASeat, WinsATake, LosesATake, GivesBack, KeepsTheRule};

use std::alloc::Allocator;

/// Each bit of the words is the bit of a tag, and of no other one.
pub fn each_bit_is_a_tags()
    ensures { (words : List ℕ) → (word k : ℕ) → k < 64 → bit_of words (word * 64 + k) ≡ bit_at (slice_index words word) k }
{}

/// Each set bit is a tag below the depth that exactly one seat holds, and each tag that a seat holds has its bit set. So no
/// two seats hold one tag.
pub fn each_tag_is_one_seats()
    ensures below { (depth : ℕ) → (s : State ℕ Held) → (tag : ℕ) → TagsAreHeldOnce depth s
        → IsBitSet s.words tag → tag < depth }
    ensures held { (depth : ℕ) → (s : State ℕ Held) → (tag : ℕ) → TagsAreHeldOnce depth s
        → IsBitSet s.words tag → IsHeld s.views tag }
    ensures once { (depth : ℕ) → (s : State ℕ Held) → (tag : ℕ) → TagsAreHeldOnce depth s
        → IsOfOneSeat s.views tag }
    ensures set { (depth : ℕ) → (s : State ℕ Held) → (tag : ℕ) → TagsAreHeldOnce depth s
        → IsHeld s.views tag → IsBitSet s.words tag }
{}

/// Each kind of step on the words or the seats keeps the rule: the opening of the table with its first seat, the splitting
/// off of a seat that holds none, the joining of one that holds none, a take that wins, a take that loses, and a give. (A
/// closing takes the seats away.)
pub fn each_kind_of_step_keeps_the_rule()
    ensures opening { (depth : ℕ) → TagsAreHeldOnce depth (opening {S = ℕ} (0 ∷ 0 ∷ 0 ∷ 0 ∷ []) [] no_tags) }
    ensures splitting { (depth : ℕ) → (s after : State ℕ Held) → SplitsASeat s after → KeepsTheRule depth s after }
    ensures joining { (depth : ℕ) → (s after : State ℕ Held) → JoinsASeat s after → KeepsTheRule depth s after }
    ensures winning { (depth : ℕ) → (s after : State ℕ Held) → WinsATake depth s after → KeepsTheRule depth s after }
    ensures losing { (depth : ℕ) → (s after : State ℕ Held) → LosesATake depth s after → KeepsTheRule depth s after }
    ensures giving { (depth : ℕ) → (s after : State ℕ Held) → GivesBack depth s after → KeepsTheRule depth s after }
{}

/// A set is its words and its depth, and a seat is what it has at the words, its marks and its last tag: nothing lies beside
/// them, such as a lock, by which one thread could hold up another.
fn nothing_lies_beside_the_words<A: Allocator>()
    ensures set { (s : InsideOfSet A) → s ≡ record { table = s.table; depth = s.depth } }
    ensures seat { (s : InsideOfSeat A) → s ≡ record { seat = s.seat; marks = s.marks; last = s.last } }
{}
