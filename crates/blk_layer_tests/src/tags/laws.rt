//! The laws of the rule of a set's words: each is a call that does nothing.

use blk_tags::laws::{each_bit_is_a_tags, each_kind_of_step_keeps_the_rule, each_tag_is_one_seats};

#[test]
fn each_law_is_a_call() {
    each_bit_is_a_tags();
    each_tag_is_one_seats();
    each_kind_of_step_keeps_the_rule();
}
