//! A tree in the caller's tables cut in two.
#![tactic(auto)]

pub mod descent;
pub mod spine;
pub mod split;
