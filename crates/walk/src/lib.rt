//! A tree taken off entry by entry, from both ends: each node goes back to the supply as it is left behind.
#![tactic(auto)]

pub mod climb;
pub mod laws;
pub mod walks;
