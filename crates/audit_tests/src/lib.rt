//! Tests of the audit.
#![tactic(auto)]

#[cfg(test)]
mod banks;
