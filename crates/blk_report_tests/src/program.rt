//! Tests of the program where its reader or one of its writers fails, of its laws, of which subcommands take a text, and of what a load is asked
//! for.

mod earliest;
mod failing;
mod given;
mod laws;
mod loads;
mod takers;
