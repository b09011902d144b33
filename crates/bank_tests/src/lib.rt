//! Tests of the bank, through its calls alone.
#![tactic(auto)]

#[cfg(test)]
mod days;
#[cfg(test)]
mod desk;
#[cfg(test)]
mod forms;
#[cfg(test)]
mod gates;
#[cfg(test)]
mod layouts;
#[cfg(test)]
mod lots;
#[cfg(test)]
mod trees;
