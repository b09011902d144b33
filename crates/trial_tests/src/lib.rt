//! Tests of the supply for trials: its lists, and a bank over it.
#![tactic(auto)]

#[cfg(test)]
mod desk;
#[cfg(test)]
mod dice;
#[cfg(test)]
mod layouts;
#[cfg(test)]
mod lists;
#[cfg(test)]
mod orders;
#[cfg(test)]
mod trees;
