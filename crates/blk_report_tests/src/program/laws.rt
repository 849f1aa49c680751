//! The laws of the program: each can be called.

use blk_args::asking::plain_lines;
use blk_cli::laws::{each_step_keeps, one_more_step, released_by_flush_and_move};
use blk_none::NoneSched;
use blk_online_cli::{law_of_misses, law_of_reports};

#[test]
fn laws_hold() {
    plain_lines();
    law_of_reports();
    law_of_misses();
    released_by_flush_and_move();
    one_more_step();
    each_step_keeps::<NoneSched>();
}
