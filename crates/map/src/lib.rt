//! Insertion, lookup and the least entry of a query in a tree that stands in the tables.
#![tactic(auto)]

pub mod insert;
pub mod laws;
pub mod least;
pub mod search;
