//! Tests of the texts: what is read of them, what is written, and where a reader or a writer fails.
#![tactic(auto)]

#[cfg(test)]
mod first_faults;
#[cfg(test)]
mod forms;
#[cfg(test)]
mod kinds;
#[cfg(test)]
mod laws;
#[cfg(test)]
mod on_time;
#[cfg(test)]
mod schedules;
#[cfg(test)]
mod streams;
#[cfg(test)]
mod texts;
#[cfg(test)]
mod traces;
#[cfg(test)]
mod writers;
