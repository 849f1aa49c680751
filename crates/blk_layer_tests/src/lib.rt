//! Tests of the layer.
#![tactic(auto)]

#[cfg(test)]
mod asked;
#[cfg(test)]
mod calls;
#[cfg(test)]
mod closed;
#[cfg(test)]
mod dice;
#[cfg(test)]
mod drawn;
#[cfg(test)]
mod flushed;
#[cfg(test)]
mod full;
#[cfg(test)]
mod gates;
#[cfg(test)]
mod given;
#[cfg(test)]
mod listed;
#[cfg(test)]
mod made;
#[cfg(test)]
mod many;
#[cfg(test)]
mod moved;
#[cfg(test)]
mod names;
#[cfg(test)]
mod passed;
#[cfg(test)]
mod plain;
#[cfg(test)]
mod refused;
#[cfg(test)]
mod seen;
#[cfg(test)]
mod served;
#[cfg(test)]
mod tags;
#[cfg(test)]
mod told;
#[cfg(test)]
mod worked;
