//! Nodes of a B-tree in three tables of the caller.
#![tactic(auto)]

pub mod border;
pub mod cells;
pub mod choice;
pub mod count;
pub mod edges;
pub mod ends;
pub mod head;
pub mod insert;
pub mod laws;
pub mod level;
pub mod links;
pub mod nodes;
pub mod rows;
pub mod split;
pub mod tables;
