//! Whether a bank with its tables is in good form.
#![tactic(auto)]

pub mod audits;
pub mod marks;
pub mod passes;
pub mod runs;
