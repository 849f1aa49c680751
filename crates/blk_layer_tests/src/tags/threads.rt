//! Threads that take and give at once.

use crate::tags::player::Player;
use blk_tags::TagSet;
use std::alloc::{AllocError, Global};
use std::process::Abort;
use std::sync::atomic::{AtomicU64, Ordering};
use std::thread;
use std::thread::Threads;

/// How many tags each thread takes.
const TAKES: u64 = 10_000;

/// How often it tries at most.
const TRIES: u64 = 1_000_000_000;

/// What one thread saw: how many tags it took of each word, and how often a tag that it held was another's too or was not its own.
#[derive(Clone, Copy, Debug, PartialEq, Eq)]
struct Seen {
    words: [u64; 4],
    wrong: u64,
}

impl Seen {
    /// How many tags it took.
    fn taken(&self) -> u64 {
        self.words
            .iter()
            .fold(0, |sum: u64, word| sum.wrapping_add(*word))
    }
}

/// Takes and gives as many tags as it is to, and marks each tag as owned while it holds it.
fn take_and_give(player: Player, owners: &[AtomicU64]) -> Seen {
    let mut player = player;
    let mut seen = Seen {
        words: [0; 4],
        wrong: 0,
    };
    for _ in 0..TRIES {
        if seen.taken() >= TAKES {
            break;
        }
        let Some(tag) = player.get() else {
            continue;
        };
        if let Some(word) = seen.words.get_mut(usize::from(tag / 64)) {
            *word = word.wrapping_add(1);
        }
        if !is_owned_alone(owners, tag) || !player.give(tag) {
            seen.wrong = seen.wrong.wrapping_add(1);
        }
    }
    seen
}

/// Marks a tag and takes the mark off again. It is false where another mark stood there meanwhile, or there is no such tag.
fn is_owned_alone(owners: &[AtomicU64], tag: u16) -> bool {
    let Some(owner) = owners.get(usize::from(tag)) else {
        return false;
    };
    let before = owner.fetch_add(1, Ordering::SeqCst);
    let after = owner.fetch_sub(1, Ordering::SeqCst);
    before == 0 && after == 1
}

/// Lets each player take and give in a thread of its own.
fn in_threads<R: Threads + Sync>(
    rt: &R,
    players: Vec<Player>,
    owners: &[AtomicU64],
) -> Result<Vec<Seen>, AllocError> {
    thread::map_vec(rt, players, &|player| take_and_give(player, owners))
}

/// As many counters as there are tags, all 0.
fn counters(rt: &impl Abort, alloc: Global, depth: u16) -> Vec<AtomicU64> {
    let mut all = Vec::new(alloc);
    for _ in 0..depth {
        all.push(AtomicU64::new(0)).expect(rt, "room");
    }
    all
}

/// What four threads see that take tags of a set of this depth. Each takes as many as it is to and none that another holds, and all
/// tags are back then.
fn four_threads<R: Abort + Threads + Sync>(rt: &R, alloc: Global, depth: u16) -> Vec<Seen> {
    let (set, seat) = TagSet::new(alloc, u64::from(depth)).expect(rt, "a set");
    let mut spare = Player::new(&set, seat);
    let mut players = Vec::new(alloc);
    for _ in 0..4 {
        let player = spare.another().expect(rt, "a seat");
        players.push(player).expect(rt, "room");
    }
    let owners = counters(rt, alloc, depth);
    let all = in_threads(rt, players, owners.as_slice()).expect(rt, "four threads");
    assert_eq!(rt; all.len(), 4);
    for seen in &all {
        assert_eq!(rt; (seen.taken(), seen.wrong), (TAKES, 0));
    }
    for tag in 0..depth {
        assert_eq!(rt; spare.get(), Some(tag));
    }
    assert_eq!(rt; spare.get(), None);
    all
}

// Fewer tags than threads, so that takes lose.
#[test]
fn four_threads_never_share_a_tag(rt: HostRuntime) {
    let all = four_threads(&rt, rt.alloc(), 3);
    assert!(rt; all.iter().all(|seen| seen.words == [TAKES, 0, 0, 0]));
}

// As many tags as there are, of all four words.
#[test]
fn four_threads_take_from_all_words(rt: HostRuntime) {
    let all = four_threads(&rt, rt.alloc(), 256);
    for seen in &all {
        assert!(rt; seen.words.iter().all(|taken| *taken > TAKES / 8));
    }
}
