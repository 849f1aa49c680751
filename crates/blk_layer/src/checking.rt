//! Lists that are checked off against accounts.

ghost use Rattle.std.specs.Prelude.{◌≡◌, ◌∷◌, [], false, IsTrue, IfSome, IsPermutation};
ghost use Rattle.blk_layer.specs.Inside.Closing.{IsExact, all_left};

use std::alloc::Allocator;
use std::marker::Model;

/// What is left of an account while it is checked off.
#[derive(Drop)]
pub(crate) struct Unchecked<'a, T> {
    left: &'a [T],
}

impl<'a, T> Model for Unchecked<'a, T> {
    ghost use Rattle.std.specs.Prelude.{List};

    ghost Value = { List T };

    ghost view = { λ u. u.left.now };
}

impl<'a, T: Eq> Unchecked<'a, T> {
    /// All of an account.
    pub(crate) fn of(account: &'a [T]) -> Unchecked<'a, T>
        ensures { result ≡ account.now }
    {
        Unchecked { left: account }
    }

    /// Whether an element is the next of the account; if so, it is checked off.
    fn check(&mut self, element: &T) -> bool
        requires exact { IsExact T.eq }
        ensures off { IsTrue result → self.old ≡ element.now ∷ self.new }
        ensures same { result ≡ false → self.new ≡ self.old }
    {
        match self.left.split_first() {
            Some((next, rest)) if *next == *element => {
                self.left = rest;
                true
            }
            _ => false,
        }
    }

    /// Whether all was checked off.
    fn is_over(&self) -> bool
        ensures { IsTrue result → self.now ≡ [] }
    {
        self.left.is_empty()
    }
}

/// Whether the accounts have the elements of the list and no others, each account its own in their order.
pub(crate) fn is_checked_off<'a, T: Eq, A: Allocator>(
    mut accounts: Vec<Unchecked<'a, T>, A>,
    list: &[T],
) -> bool
    requires { IsExact T.eq }
    ensures { IsTrue result → IsPermutation (all_left accounts.entry.items) list.now }
{
    let mut from = 0;
    for element in list {
        match check_one(accounts.as_mut_slice(), from, element) {
            Some(place) => from = place,
            None => return false,
        }
    }
    are_over(accounts.as_slice())
}

/// Checks an element off in the first account whose next it is, and answers its place. The account at `from` is asked first, then those
/// behind it, and then those before it.
pub(crate) fn check_one<'a, T: Eq>(
    accounts: &mut [Unchecked<'a, T>],
    from: usize,
    element: &T,
) -> Option<usize>
    requires { IsExact T.eq }
    ensures { IfSome result (λ _. IsPermutation (all_left accounts.old) (element.now ∷ all_left accounts.new)) }
{
    let mut place = from;
    for _ in 0..accounts.len() {
        if place >= accounts.len() {
            place = 0;
        }
        if accounts[place].check(element) {
            return Some(place);
        }
        place += 1;
    }
    None
}

/// Whether all of all accounts was checked off.
pub(crate) fn are_over<'a, T: Eq>(accounts: &[Unchecked<'a, T>]) -> bool
    ensures { IsTrue result → all_left accounts.now ≡ [] }
{
    for account in accounts {
        if !account.is_over() {
            return false;
        }
    }
    true
}
