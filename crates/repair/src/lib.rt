//! The border of a tree repaired after a cut.
#![tactic(auto)]

pub mod border;
pub mod joint;
pub mod top;
