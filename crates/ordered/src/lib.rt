//! Keys in order, each with the id of what it is of.
#![tactic(auto)]

ghost use Rattle.std.specs.Prelude.{◌≡◌, true, false, OnOk, OnErr, IfSome, IfNone};
ghost use Rattle.std.specs.Bool.{OnTrue, OnFalse};
ghost use Rattle.ordered.specs.Ordered.{listed, Adds, Takes, Keeps, IsLeast, IsLeastAbove, IsLeastFrom, IsGreatestBelow, IsGreatestUpTo, NoneAbove, NoneFrom, NoneBelow, NoneUpTo};

use std::alloc::{AllocError, Allocator, Global};
use std::collections::BTreeSet;
use std::ops::Bound;

/// Keys in order, each with the id of what it is of as its last part: a request by its first sector, by its due round or by where it ends.
#[derive(Drop)]
pub struct Ordered<K: Ord, A: Allocator = Global> {
    /// The keys.
    pub keys: BTreeSet<K, A>,
}

impl<K: Ord + Copy, A: Allocator + Clone> Ordered<K, A> {
    /// None. It takes no memory.
    pub fn new(alloc: A) -> Ordered<K, A>
        ensures { (q : K) → listed K.cmp result q ≡ false }
    {
        Ordered {
            keys: BTreeSet::new(alloc),
        }
    }

    /// Whether there is none.
    #[inline(always)]
    pub fn is_empty(&self) -> bool
        ensures none { OnTrue result ((q : K) → listed K.cmp self.now q ≡ false) }
        ensures some { OnFalse result ((q : K) × (listed K.cmp self.now q ≡ true)) }
    {
        self.first().is_none()
    }

    /// Puts a key in. Fails only when out of memory: nothing is changed then.
    #[inline(always)]
    pub fn put(&mut self, key: K) -> Result<(), AllocError>
        ensures ok { OnOk result (Adds K.cmp (listed K.cmp self.old) key (listed K.cmp self.new)) }
        ensures same { OnErr result (Keeps (listed K.cmp self.old) (listed K.cmp self.new)) }
    {
        self.keys.insert(key)?;
        Ok(())
    }

    /// Takes a key out. It takes no memory.
    #[inline(always)]
    pub fn take(&mut self, key: K)
        ensures { Takes K.cmp (listed K.cmp self.old) key (listed K.cmp self.new) }
    {
        let _ = self.keys.remove(&key);
    }

    /// The least.
    #[inline(always)]
    pub fn first(&self) -> Option<K>
        ensures some { IfSome result (IsLeast K.cmp (listed K.cmp self.now)) }
        ensures none { IfNone result ((q : K) → listed K.cmp self.now q ≡ false) }
    {
        self.keys.first().copied()
    }

    /// The least above another.
    #[inline(always)]
    pub fn above(&self, lower: K) -> Option<K>
        ensures some { IfSome result (IsLeastAbove K.cmp (listed K.cmp self.now) lower) }
        ensures none { IfNone result (NoneAbove K.cmp (listed K.cmp self.now) lower) }
    {
        let range = (Bound::Excluded(lower), Bound::Unbounded);
        let found = self.keys.range(range).next()?;
        Some(*found)
    }

    /// The least at another or above it.
    #[inline(always)]
    pub fn from(&self, lower: K) -> Option<K>
        ensures some { IfSome result (IsLeastFrom K.cmp (listed K.cmp self.now) lower) }
        ensures none { IfNone result (NoneFrom K.cmp (listed K.cmp self.now) lower) }
    {
        let found = self.keys.range(lower..).next()?;
        Some(*found)
    }

    /// The greatest below another.
    #[inline(always)]
    pub fn below(&self, upper: K) -> Option<K>
        ensures some { IfSome result (IsGreatestBelow K.cmp (listed K.cmp self.now) upper) }
        ensures none { IfNone result (NoneBelow K.cmp (listed K.cmp self.now) upper) }
    {
        let found = self.keys.range(..upper).next_back()?;
        Some(*found)
    }

    /// The greatest at another or below it.
    #[inline(always)]
    pub fn upto(&self, upper: K) -> Option<K>
        ensures some { IfSome result (IsGreatestUpTo K.cmp (listed K.cmp self.now) upper) }
        ensures none { IfNone result (NoneUpTo K.cmp (listed K.cmp self.now) upper) }
    {
        let found = self.keys.range(..=upper).next_back()?;
        Some(*found)
    }
}
