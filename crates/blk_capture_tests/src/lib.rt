//! Tests of captures, matched and counted.
#![tactic(auto)]

#[cfg(test)]
mod arrivals;
#[cfg(test)]
mod counting;
#[cfg(test)]
mod given;
#[cfg(test)]
mod matching;
#[cfg(test)]
mod numbers;
#[cfg(test)]
mod refusals;
pub mod replay;
#[cfg(test)]
mod running;
#[cfg(test)]
mod tallies;
#[cfg(test)]
mod text;
