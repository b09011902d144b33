//! The calls on the places of a bank, their rules, and what they mean.
#![tactic(auto)]

pub mod calls;
pub mod laws;
pub mod refusals;
