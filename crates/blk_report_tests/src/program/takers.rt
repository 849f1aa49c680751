//! Which subcommands take a kind of text.

use blk_args::{TextKind, takers_text, takes_what_it_reads};
use std::alloc::Global;
use std::process::Abort;

/// Whether these subcommands take a kind of text, in this order.
fn is_taken_by(rt: &impl Abort, alloc: Global, kind: TextKind, names: &str) -> bool {
    takers_text(alloc, kind, "").expect(rt, "memory").as_str() == names
}

#[test]
fn takers_of_each_kind(rt: HostRuntime) {
    takes_what_it_reads();
    let takers = [
        (TextKind::Script, "sim, compare, picture --script, tune"),
        (TextKind::Commands, "oracle"),
        (TextKind::Certificate, "check"),
        (TextKind::Schedule, "picture --schedule, judge"),
        (TextKind::Capture, "import, blame, replay"),
    ];
    for (kind, names) in takers {
        assert!(rt; is_taken_by(&rt, rt.alloc(), kind, names));
    }
}
