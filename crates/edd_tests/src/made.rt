//! Values that the tests are made of.

use edd_check::{CheckFault, Crowding, Window, check, in_range};
use edd_commands::{Capacity, Command, Step};
use std::alloc::{Allocator, Global};
use std::process::Abort;

/// A command of that id, release round and due round.
pub fn command(id: u64, release: u64, due: u64) -> Command {
    Command { id, release, due }
}

/// A window of those rounds.
pub fn window(from: u64, due: u64) -> Window {
    Window { from, due }
}

/// The same depth in every round.
pub fn fixed(rt: &impl Abort, alloc: Global, depth: u64) -> Capacity {
    assert!(rt; depth > 0 && depth <= 256);
    Capacity::fixed(alloc, depth).expect(rt, "out of memory")
}

/// The capacity of these steps, each a round and the depth from it on.
pub fn steps(rt: &impl Abort, alloc: Global, list: &[(u64, u64)]) -> Vec<Step> {
    let mut steps = Vec::new(alloc);
    for (from, depth) in list {
        let step = Step {
            from: *from,
            depth: *depth,
        };
        steps.push(step).expect(rt, "out of memory");
    }
    steps
}

/// The check's answer to a claim whose numbers are seen to be in range.
pub fn checked<A: Allocator, B: Allocator>(
    rt: &impl Abort,
    alloc: A,
    capacity: &Capacity<B>,
    commands: &[Command],
    lateness: i64,
    rounds: &[u64],
    window: Window,
) -> Result<Crowding, CheckFault> {
    assert!(rt; in_range(commands, rounds, window));
    check(alloc, commands, capacity, lateness, rounds, window)
}
