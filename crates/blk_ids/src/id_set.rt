//! Ids of two numbers: who submitted, and which of theirs.

ghost use Rattle.std.specs.Prelude.{◌≡◌, ◌≤◌, ◌<◌, ◌+◌, ◌==◌, ◌&&◌, ◌||◌, ℕ, false, IfOk, OnOk, OnErr, length};
ghost use Rattle.std.specs.Bool.{OnTrue, OnFalse};
ghost use Rattle.std.specs.List.{list_any};
ghost use Rattle.blk_ids.specs.IdSet.{set_has, in_lists, is_pair, spare};
ghost use Rattle.blk_ids.specs.Inside.Lists.{HasTheSame, HasOneMore, HasAll, LosesNone};

use crate::serials::Serials;
use std::alloc::{AllocError, Allocator, Global};

/// A set of ids of two numbers. Each submitter's have a set of their own; an id that has no place there waits in a list
/// until room is made for others, so that putting it in takes no memory where room was made.
#[derive(Drop)]
pub struct IdSet<A: Allocator = Global> {
    /// For each submitter from 0 on, the numbers of its ids.
    pub lists: Vec<Serials<A>, A>,
    /// The ids that came since room was made and had no place there.
    pub late: Vec<(u8, u64), A>,
}

impl<A: Allocator + Clone> IdSet<A> {
    /// No id. It takes no memory but for the allocators.
    pub fn new(alloc: A) -> Result<IdSet<A>, AllocError>
        ensures { IfOk result (λ x. (s n : ℕ) → set_has x s n ≡ false) }
    {
        Ok(IdSet {
            lists: Vec::new(alloc.clone()?),
            late: Vec::new(alloc),
        })
    }

    /// Whether the id is in the set.
    #[inline(always)]
    pub fn contains(&self, submitter: u8, serial: u64) -> bool
        ensures { result ≡ set_has self.now submitter serial }
    {
        is_listed(self.lists.as_slice(), submitter, serial)
            || is_late(self.late.as_slice(), submitter, serial)
    }

    /// Puts an id in, where there is room. It takes no memory.
    #[inline(always)]
    pub fn insert(&mut self, submitter: u8, serial: u64)
        requires { 1 ≤ spare self.old }
        ensures ids { (s n : ℕ) → set_has self.new s n ≡ set_has self.old s n || ((submitter == s) && (serial == n)) }
        ensures room { spare self.old ≤ spare self.new + 1 }
    {
        if !mark(&mut self.lists, submitter, serial) {
            self.late.push_reserved((submitter, serial));
        }
    }

    /// Makes room for as many ids more. The set stays, also where memory runs out.
    #[inline(always)]
    pub fn make_room(&mut self, ids: usize) -> Result<(), AllocError>
        ensures same { (s n : ℕ) → set_has self.new s n ≡ set_has self.old s n }
        ensures ok { OnOk result (ids ≤ spare self.new) }
        ensures room { spare self.old ≤ spare self.new }
    {
        if !self.late.is_empty() {
            put_all(&mut self.lists, self.late.as_slice())?;
            self.late.clear();
        }
        self.late.reserve(ids)
    }
}

/// Whether a submitter's list has the number.
#[inline(always)]
fn is_listed<A: Allocator + Clone>(lists: &[Serials<A>], submitter: u8, serial: u64) -> bool
    ensures { result ≡ in_lists lists.now submitter serial }
{
    match lists.get(submitter as usize) {
        Some(list) => list.contains(serial),
        None => false,
    }
}

/// Whether the id is one of those that have no place in a list yet.
fn is_late(late: &[(u8, u64)], submitter: u8, serial: u64) -> bool
    ensures { result ≡ list_any (λ p. is_pair p submitter serial) late.now }
{
    late.iter().any(|id| id.0 == submitter && id.1 == serial)
}

/// Sets the id's flag where its submitter's list reaches that far, and answers whether it does.
#[inline(always)]
fn mark<A: Allocator + Clone>(lists: &mut Vec<Serials<A>, A>, submitter: u8, serial: u64) -> bool
    ensures marked { OnTrue result (HasOneMore lists.old.items (submitter, serial) lists.new.items) }
    ensures same { OnFalse result (HasTheSame lists.old.items lists.new.items) }
{
    let index = submitter as usize;
    if index >= lists.len() {
        return false;
    }
    lists[index].mark(serial)
}

/// Puts the ids into their submitters' lists. On a refusal some may be there that weren't, and none is lost.
fn put_all<A: Allocator + Clone>(
    lists: &mut Vec<Serials<A>, A>,
    late: &[(u8, u64)],
) -> Result<(), AllocError>
    ensures same { LosesNone lists.old.items late.now lists.new.items }
    ensures ok { OnOk result (HasAll lists.old.items late.now lists.new.items) }
{
    for id in late {
        put(lists, id.0, id.1)?;
    }
    Ok(())
}

/// Puts an id into its submitter's list. On a refusal the lists have what they had.
fn put<A: Allocator + Clone>(
    lists: &mut Vec<Serials<A>, A>,
    submitter: u8,
    serial: u64,
) -> Result<(), AllocError>
    ensures ok { OnOk result (HasOneMore lists.old.items (submitter, serial) lists.new.items) }
    ensures same { OnErr result (HasTheSame lists.old.items lists.new.items) }
{
    reach(lists, submitter)?;
    lists[submitter as usize].put(serial)
}

/// Makes lists up to the submitter's, where there are fewer.
fn reach<A: Allocator + Clone>(
    lists: &mut Vec<Serials<A>, A>,
    submitter: u8,
) -> Result<(), AllocError>
    ensures same { HasTheSame lists.old.items lists.new.items }
    ensures ok { OnOk result (submitter < length lists.new.items) }
{
    while lists.len() <= submitter as usize {
        let list = Serials::new(lists.allocator().clone()?)?;
        if lists.push(list).is_err() {
            return Err(AllocError);
        }
    }
    Ok(())
}
