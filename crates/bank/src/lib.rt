//! A bank of sixteen ordered books, whose nodes share the tables of its caller.
#![tactic(auto)]

pub mod bank;
mod gate;
pub mod perform;
