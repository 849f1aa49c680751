//! Tests of the tags.

mod laws;
mod one_thread;
mod player;
mod threads;
