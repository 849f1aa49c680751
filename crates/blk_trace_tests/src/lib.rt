//! Tests of setups and traces.
#![tactic(auto)]

#[cfg(test)]
mod cores;
#[cfg(test)]
mod depths;
#[cfg(test)]
mod given;
#[cfg(test)]
mod looks;
#[cfg(test)]
mod queues;
#[cfg(test)]
mod refusals;
#[cfg(test)]
mod rules;
#[cfg(test)]
mod traces;
