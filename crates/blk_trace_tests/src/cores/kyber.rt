//! The kyber scheduler under a core, by the rows of its rule.

mod given;
mod refusals;
mod rows;
