//! The numbers of one submitter's bios.

ghost use Rattle.std.specs.Prelude.{◌≡◌, ◌==◌, ◌<◌, ◌||◌, ℕ, false, IfOk, OnOk, OnErr, length, slice_index_or};
ghost use Rattle.std.specs.Bool.{OnTrue, OnFalse};
ghost use Rattle.blk_ids.specs.Serials.{has_serial};

use std::alloc::{AllocError, Allocator, Global};
use std::collections::BTreeSet;

/// No list of flags gets longer than this.
const MAX_FLAGS: u64 = 1 << 40;

/// A set of numbers: a flag for each of the first ones, and an ordered set for the others. There are at most sixteen times as many
/// flags as numbers marked, and some hundred more. So numbers that count up go into a list of flags, in whatever order they come.
#[derive(Drop)]
pub struct Serials<A: Allocator = Global> {
    /// Whether each number from 0 on is in the set.
    pub flags: Vec<bool, A>,
    /// How many numbers were marked there.
    pub marked: u64,
    /// The other numbers.
    pub others: BTreeSet<u64, A>,
}

impl<A: Allocator + Clone> Serials<A> {
    /// No number. It takes no memory but for the allocators.
    pub fn new(alloc: A) -> Result<Serials<A>, AllocError>
        ensures { IfOk result (λ s. (n : ℕ) → has_serial s n ≡ false) }
    {
        Ok(Serials {
            flags: Vec::new(alloc.clone()?),
            marked: 0,
            others: BTreeSet::new(alloc),
        })
    }

    /// Whether the number is in the set.
    #[inline(always)]
    pub fn contains(&self, serial: u64) -> bool
        ensures { result ≡ has_serial self.now serial }
    {
        let index = serial as usize;
        if index < self.flags.len() && self.flags[index] {
            return true;
        }
        self.others.contains(&serial)
    }

    /// Puts a number in that has a flag, and says whether it has one. It takes no memory.
    #[inline(always)]
    pub fn mark(&mut self, serial: u64) -> bool
        ensures marked { OnTrue result ((n : ℕ) → has_serial self.new n ≡ has_serial self.old n || (serial == n)) }
        ensures same { OnFalse result ((n : ℕ) → has_serial self.new n ≡ has_serial self.old n) }
    {
        let index = serial as usize;
        if index >= self.flags.len() {
            return false;
        }
        self.flags[index] = true;
        self.marked = self.marked.saturating_add(1);
        true
    }

    /// Puts a number in. On a refusal the set is as it was.
    pub fn put(&mut self, serial: u64) -> Result<(), AllocError>
        ensures ok { OnOk result ((n : ℕ) → has_serial self.new n ≡ has_serial self.old n || (serial == n)) }
        ensures same { OnErr result ((n : ℕ) → has_serial self.new n ≡ has_serial self.old n) }
    {
        if self.may_have_flag(serial) {
            lengthen(&mut self.flags, serial)?;
            if self.mark(serial) {
                return Ok(());
            }
        }
        match self.others.insert(serial) {
            Ok(_) => Ok(()),
            Err(_) => Err(AllocError),
        }
    }

    /// Whether there may be flags up to the number, by how many numbers are marked.
    fn may_have_flag(&self, serial: u64) -> bool {
        serial / 8 <= self.marked.saturating_add(8)
    }
}

/// Makes a list of flags longer, so that the number has one, with twice as many at least; a list that is long enough, or would
/// be longer than [`MAX_FLAGS`], stays.
fn lengthen<A: Allocator + Clone>(flags: &mut Vec<bool, A>, serial: u64) -> Result<(), AllocError>
    ensures { (n : ℕ) → slice_index_or flags.new.items n false ≡ slice_index_or flags.old.items n false }
{
    let index = serial as usize;
    if index < flags.len() || serial >= MAX_FLAGS {
        return Ok(());
    }
    flags.resize(2 * index + 64, false)
}
