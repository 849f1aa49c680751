//! What a worker does after a pass.

use blk_layer::{After, Passed, after_pass};

/// What is done after a pass that found these.
fn after(finishing: bool, moved: u64, served: u64, pending: u64) -> After {
    after_pass(Passed {
        finishing,
        moved,
        served,
        pending,
    })
}

#[test]
fn after_each_pass(rt: HostRuntime) {
    assert_eq!(rt; after(true, 0, 0, 0), After::Finish);
    assert_eq!(rt; after(true, 0, 5, 0), After::Finish);
    assert_eq!(rt; after(true, 1, 5, 0), After::Again);
    assert_eq!(rt; after(true, 0, 5, 2), After::Again);
    assert_eq!(rt; after(true, 0, 0, 2), After::Yield);
    assert_eq!(rt; after(false, 0, 0, 0), After::Yield);
    assert_eq!(rt; after(false, 0, 3, 0), After::Again);
    assert_eq!(rt; after(false, 2, 0, 0), After::Again);
}
