//! A bank of 32-bit keys and values over a chain of node numbers, for callers in C and in languages that speak to C.
#![tactic(auto)]

pub mod exports;
pub mod laws;
pub mod plain;
pub mod replies;
