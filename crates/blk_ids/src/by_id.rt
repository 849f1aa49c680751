//! A value under each of some ids.

ghost use Rattle.std.specs.Prelude.{◌≡◌, ◌≤◌, ℕ, None, Some, IfOk, OnOk, IsSome};
ghost use Rattle.std.specs.Ordering.{nat_cmp};
ghost use Rattle.std.specs.BTreeMap.{get};
ghost use Rattle.blk_ids.specs.Given.{Gives};
ghost use Rattle.blk_ids.specs.ById.{kept_at, beside, room_beside, spare};

use std::alloc::{AllocError, Allocator, Global};
use std::collections::BTreeMap;

/// A value under each of some ids. Those of the ids 0, 1, 2 and so on, as far as these come in order, stand in a list, where one
/// is found at once, and the others in an ordered map. What comes last waits beside the map, so that putting it in takes no memory
/// where room was made.
#[derive(Drop)]
pub struct ById<V, A: Allocator = Global> {
    /// The values of the ids from 0 on, as far as they came in order.
    pub counted: Vec<V, A>,
    /// The last entry that is out of order, held here until room is made for it in the map.
    pub last: Option<(u64, V)>,
    /// The values of other ids.
    pub others: BTreeMap<u64, V, A>,
}

impl<V: Copy + Drop, A: Allocator + Clone> ById<V, A> {
    /// Nothing is kept. It takes no memory but for the allocators.
    pub fn new(alloc: A) -> Result<ById<V, A>, AllocError>
        ensures { IfOk result (λ m. (id : ℕ) → kept_at m id ≡ None) }
    {
        Ok(ById {
            counted: Vec::new(alloc.clone()?),
            last: None,
            others: BTreeMap::new(alloc),
        })
    }

    /// What is kept under the id.
    #[inline(always)]
    pub fn get(&self, id: u64) -> Option<V>
        ensures { result ≡ kept_at self.now id }
    {
        match self.counted.as_slice().get(id as usize) {
            Some(value) => Some(*value),
            None => value_beside(&self.last, &self.others, id),
        }
    }

    /// Makes room for one id more. What is kept stays, also where memory runs out.
    #[inline(always)]
    pub fn make_room(&mut self) -> Result<(), AllocError>
        ensures same { (id : ℕ) → kept_at self.new id ≡ kept_at self.old id }
        ensures ok { OnOk result (1 ≤ spare self.new) }
        ensures room { spare self.old ≤ spare self.new }
    {
        settle(&mut self.last, &mut self.others)?;
        self.counted.reserve(1)
    }

    /// Keeps a value under an id that has none, where there is room. It takes no memory.
    #[inline(always)]
    pub fn insert(&mut self, id: u64, value: V)
        requires new { kept_at self.old id ≡ None }
        requires room { 1 ≤ spare self.old }
        ensures { Gives (kept_at self.old) id (Some value) (kept_at self.new) }
    {
        if id as usize == self.counted.len() {
            self.counted.push_reserved(value);
        } else {
            self.last = Some((id, value));
        }
    }

    /// Keeps another value under an id that has one. It takes no memory, and the room stays.
    #[inline(always)]
    pub fn set(&mut self, id: u64, value: V)
        requires { IsSome (kept_at self.old id) }
        ensures value { Gives (kept_at self.old) id (Some value) (kept_at self.new) }
        ensures room { spare self.new ≡ spare self.old }
    {
        let index = id as usize;
        if index < self.counted.len() {
            self.counted[index] = value;
        } else {
            set_beside(&mut self.last, &mut self.others, id, value);
        }
    }
}

/// What is kept under an id outside of the list.
fn value_beside<V: Copy + Drop, A: Allocator + Clone>(
    last: &Option<(u64, V)>,
    others: &BTreeMap<u64, V, A>,
    id: u64,
) -> Option<V>
    ensures { result ≡ beside last.now others.now id }
{
    if let Some((named, value)) = *last {
        if named == id {
            return Some(value);
        }
    }
    others.get(&id).copied()
}

/// Puts the id that came last among the others. On a refusal nothing is changed.
fn settle<V: Copy + Drop, A: Allocator + Clone>(
    last: &mut Option<(u64, V)>,
    others: &mut BTreeMap<u64, V, A>,
) -> Result<(), AllocError>
    ensures same { (id : ℕ) → beside last.new others.new id ≡ beside last.old others.old id }
    ensures ok { OnOk result (last.new ≡ None) }
    ensures room { (n : ℕ) → room_beside last.old n ≤ room_beside last.new n }
{
    let Some((id, value)) = *last else {
        return Ok(());
    };
    if others.insert(id, value).is_err() {
        return Err(AllocError);
    }
    *last = None;
    Ok(())
}

/// Keeps another value under an id outside of the list that has one.
fn set_beside<V: Copy + Drop, A: Allocator + Clone>(
    last: &mut Option<(u64, V)>,
    others: &mut BTreeMap<u64, V, A>,
    id: u64,
    value: V,
)
    requires { IsSome (beside last.old others.old id) }
    ensures value { Gives (beside last.old others.old) id (Some value) (beside last.new others.new) }
    ensures room { (n : ℕ) → room_beside last.new n ≡ room_beside last.old n }
{
    if let Some((named, _)) = *last {
        if named == id {
            *last = Some((id, value));
            return;
        }
    }
    let Some(kept) = others.get_mut(&id) else {
        unreachable!()
    };
    *kept = value;
}
