//! Tests of the check and of the oracle, through their public calls.
#![tactic(auto)]

#[cfg(test)]
mod blames;
#[cfg(test)]
mod capacities;
#[cfg(test)]
mod claims;
#[cfg(test)]
mod covers;
#[cfg(test)]
mod made;
#[cfg(test)]
mod memory;
#[cfg(test)]
mod most;
#[cfg(test)]
mod schedules;
#[cfg(test)]
mod verdicts;
