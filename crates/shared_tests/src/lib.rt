//! Tests of the supply with two limits, and of the bank for two callers.
#![tactic(auto)]

#[cfg(test)]
mod desk;
#[cfg(test)]
mod moves;
#[cfg(test)]
mod rounds;
#[cfg(test)]
mod shares;
#[cfg(test)]
mod turns;
pub mod wide;
