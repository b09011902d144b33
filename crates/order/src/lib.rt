//! The order of keys, the queries that are placed among them, the search from the front of a row, and the types of keys and values.

#![tactic(auto)]

pub mod blend;
pub mod day;
pub mod keys;
pub mod mark;
pub mod rows;
pub mod search;
pub mod stamp;
pub mod values;
