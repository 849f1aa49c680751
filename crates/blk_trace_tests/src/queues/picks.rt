//! The counts of picks that are open and of those that are requeued.

use blk_bio::Dir;
use blk_sched::OpenPicks;

/// A read is picked, requeued, issued again and done; a write is picked meanwhile.
#[test]
fn requeued_and_issued_again(rt: HostRuntime) {
    let mut picks = OpenPicks::none();
    picks.open(Dir::Read);
    picks.open(Dir::Write);
    assert_eq!(rt; (picks.of(Dir::Read), picks.requeued(Dir::Read)), (1, 0));
    picks.requeue(Dir::Read);
    assert_eq!(rt; (picks.of(Dir::Read), picks.requeued(Dir::Read)), (0, 1));
    assert_eq!(rt; (picks.of(Dir::Write), picks.requeued(Dir::Write)), (1, 0));
    picks.reopen(Dir::Read);
    assert_eq!(rt; (picks.of(Dir::Read), picks.requeued(Dir::Read)), (1, 0));
    picks.close(Dir::Read);
    assert_eq!(rt; (picks.of(Dir::Read), picks.requeued(Dir::Read)), (0, 0));
    assert_eq!(rt; (picks.of(Dir::Write), picks.requeued(Dir::Write)), (1, 0));
}
