//! Tests of reports.
#![tactic(auto)]

#[cfg(test)]
mod comparison;
#[cfg(test)]
mod delays;
#[cfg(test)]
mod given;
#[cfg(test)]
mod missing;
#[cfg(test)]
mod names;
#[cfg(test)]
mod online;
#[cfg(test)]
mod pictures;
#[cfg(test)]
mod program;
#[cfg(test)]
mod refusals;
#[cfg(test)]
mod reports;
#[cfg(test)]
mod serving;
#[cfg(test)]
mod spreads;
