//! Tests of the map.
#![tactic(auto)]

#[cfg(test)]
mod lookup;
