//! Tests of the spare check, over each supply.
#![tactic(auto)]

#[cfg(test)]
mod checks;
#[cfg(test)]
mod supplies;
