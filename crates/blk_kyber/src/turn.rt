//! Whose turn it is at a hardware queue.

ghost use Rattle.std.specs.Prelude.{◌≡◌, Some, true, false};
ghost use Rattle.blk_kyber.specs.Choice.{first_turn, turn_by, other_of, cap_of};

use blk_bio::Dir;

/// How many reads go in one turn, as in a batch of kyber's.
pub const READ_BATCH: u8 = 16;

/// How many writes go in one turn.
pub const WRITE_BATCH: u8 = 8;

/// The direction whose turn it is at a hardware queue, and how many of its requests went in this turn.
#[derive(Clone, Copy, Debug, PartialEq, Eq)]
pub struct Turn {
    /// The direction.
    pub dir: Dir,
    /// How many went.
    pub taken: u8,
}

impl Turn {
    /// The turn of reads, before any went.
    pub fn first() -> Turn
        ensures { result ≡ first_turn }
    {
        Turn {
            dir: Dir::Read,
            taken: 0,
        }
    }

    /// A turn of a direction, once its first request went.
    pub fn of(dir: Dir) -> Turn
        ensures { result ≡ record { dir = dir; taken = 1 } }
    {
        Turn { dir, taken: 1 }
    }

    /// The turn once one more of its requests went: past its cap it begins again.
    pub fn next(self) -> Turn
        ensures { Some result ≡ turn_by self true false }
    {
        if self.taken < cap(self.dir) {
            Turn {
                dir: self.dir,
                taken: self.taken + 1,
            }
        } else {
            Turn::of(self.dir)
        }
    }
}

/// The other direction.
pub fn other(dir: Dir) -> Dir
    ensures { result ≡ other_of dir }
{
    match dir {
        Dir::Read => Dir::Write,
        Dir::Write => Dir::Read,
    }
}

/// How many requests of a direction go in one turn.
pub fn cap(dir: Dir) -> u8
    ensures { result ≡ cap_of dir }
{
    match dir {
        Dir::Read => READ_BATCH,
        Dir::Write => WRITE_BATCH,
    }
}
