//! Tests of the crates below the map, at their limits.
#![tactic(auto)]

#[cfg(test)]
mod choices;
#[cfg(test)]
mod keys_and_search;
#[cfg(test)]
mod nodes;
#[cfg(test)]
mod supplies;
