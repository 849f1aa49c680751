//! Laws and tests of replays under the schedulers.

pub mod laws;
#[cfg(test)]
mod replays;
