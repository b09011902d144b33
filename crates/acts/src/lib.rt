//! What each call does at one place: the answer, and what stands there afterwards.
#![tactic(auto)]

pub mod cutting;
pub mod inserting;
pub mod looking;
pub mod walking;
