//! The places of a bank, and the books that stand in them.
#![tactic(auto)]

pub mod places;
