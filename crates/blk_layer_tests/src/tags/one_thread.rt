//! What one thread sees, and what is refused.

use crate::tags::player::{Player, give, take};
use blk_tags::{TagFault, TagSet};
use refusing::Refusing;

#[test]
fn tag_set_of_two(rt: HostRuntime) {
    let (set, seat) = TagSet::new(rt.alloc(), 2).expect(&rt, "a set");
    let mut player = Player::new(&set, seat);
    let taken = [player.get(), player.get(), player.get()];
    let held = [player.holds(1), player.holds(2)];
    let given = [player.give(1), player.holds(1)];
    let again = player.get();
    assert_eq!(rt; set.depth(), 2);
    assert_eq!(rt; taken, [Some(0), Some(1), None]);
    assert_eq!(rt; held, [true, false]);
    assert_eq!(rt; given, [true, false]);
    assert_eq!(rt; again, Some(1));
}

#[test]
fn two_seats_of_a_set_of_one(rt: HostRuntime) {
    let (set, mut a) = TagSet::new(rt.alloc(), 1).expect(&rt, "a set");
    let mut b = set.split(&mut a).expect(&rt, "a seat");
    let first = [take(&set, &mut a), take(&set, &mut b)];
    let given = give(&set, &mut a, 0);
    let second = [take(&set, &mut b), take(&set, &mut a)];
    let emptied = set.join(b);
    let held = emptied.holds(0);
    set.let_go(&mut a, emptied);
    let third = take(&set, &mut a);
    assert!(rt; given && !held);
    assert!(rt; (first, second, third) == ([Some(0), None], [Some(0), None], Some(0)));
}

// A take begins one after the seat's last tag, also where lower ones are free, and goes round.
#[test]
fn upward_and_round(rt: HostRuntime) {
    let (set, seat) = TagSet::new(rt.alloc(), 3).expect(&rt, "a set");
    let mut player = Player::new(&set, seat);
    let first = [player.get(), player.get()];
    let given = player.give(0);
    let second = [player.get(), player.get()];
    let again = player.give(1);
    let mut other = player.another().expect(&rt, "a seat");
    let third = other.get();
    assert!(rt; given && again);
    assert_eq!(rt;
        (first, second, third),
        ([Some(0), Some(1)], [Some(2), Some(0)], Some(1))
    );
}

// A take may begin elsewhere: at the given tag, upward and then from 0 on, or at 0 where there is none of that number.
#[test]
fn from_a_tag(rt: HostRuntime) {
    let (set, seat) = TagSet::new(rt.alloc(), 3).expect(&rt, "a set");
    let mut player = Player::new(&set, seat);
    let taken = [player.get_from(2), player.get_from(2), player.get_from(9)];
    let none = player.get_from(0);
    assert_eq!(rt; taken, [Some(2), Some(0), Some(1)]);
    assert_eq!(rt; none, None);
}

#[test]
fn two_hundred_and_fifty_six(rt: HostRuntime) {
    let (set, seat) = TagSet::new(rt.alloc(), 256).expect(&rt, "a set");
    let mut player = Player::new(&set, seat);
    for tag in 0..256 {
        assert_eq!(rt; player.get(), Some(tag));
    }
    assert_eq!(rt; player.get(), None);
    assert!(rt; player.give(200));
    assert_eq!(rt; player.get(), Some(200));
    assert_eq!(rt; player.get(), None);
}

#[test]
fn depths_refused(rt: HostRuntime) {
    for depth in [0, 257, u64::MAX] {
        assert!(rt; matches!(TagSet::new(rt.alloc(), depth), Err(TagFault::Depth)));
    }
}

// Each allocation is refused in turn: `new` and `split` fail as long as one was refused, and then answer as ever.
#[test]
fn memory_refused(rt: HostRuntime) {
    let heap = Refusing::new(rt.alloc());
    for n in 1..4 {
        heap.refuse(n);
        assert!(rt; matches!(TagSet::new(&heap, 2), Err(TagFault::Memory)));
        assert!(rt; !heap.is_armed());
    }
    let (set, mut a) = TagSet::new(&heap, 2).expect(&rt, "a set");
    heap.refuse(1);
    assert!(rt; set.split(&mut a).is_err());
    let mut b = set.split(&mut a).expect(&rt, "a seat");
    // no other call takes memory
    heap.refuse(1);
    let taken = [take(&set, &mut a), take(&set, &mut b)];
    let given = give(&set, &mut a, 0);
    let emptied = set.join(b);
    set.let_go(&mut a, emptied);
    let last = take(&set, &mut a);
    assert!(rt; given && heap.is_armed());
    assert!(rt; (taken, last) == ([Some(0), Some(1)], Some(1)));
}
