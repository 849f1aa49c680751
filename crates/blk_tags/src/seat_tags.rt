//! What a seat knows, for the proofs alone.

use std::marker::Model;

/// The tags that a seat holds, and its steps. No value of it is made: it is the view of a seat at the table of words.
#[derive(Drop)]
pub struct SeatTags {}

impl Model for SeatTags {
    ghost use Rattle.blk_tags.specs.Tags.{Held, no_tags};

    ghost Value = { Held };

    ghost view = { λ _. no_tags };
}
