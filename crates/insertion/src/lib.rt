//! Insertion into a tree that stands in the tables.
#![tactic(auto)]

pub mod descent;
pub mod root;
