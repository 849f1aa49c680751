//! The laws of the core: each can be called.

use blk_core::laws::{listed_issues_are_open, open_picks_are_open_issues};

#[test]
fn laws_hold() {
    listed_issues_are_open();
    open_picks_are_open_issues();
}
