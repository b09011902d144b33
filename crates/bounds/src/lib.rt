//! How many nodes a tree has at least, and how many a cut of a bank needs at most: each function stands for the theorems that its contract names.
#![tactic(auto)]

ghost use Rattle.bounds.specs.Bounds.{NodesLeast, NodesWithin, TreesLow, CutNeeds};

/// A formed tree of height h, at least 1, has at least 1 + (5^h - 1) / 2 nodes; so one among 4,096 nodes is no higher than 5.
pub fn nodes_stand<E>()
    ensures least { NodesLeast E }
    ensures within { NodesWithin E }
{}

/// In good form no tree is higher than 5, so that a cut declined for nodes names at most 6.
pub fn cut_stands<K, V>()
    ensures low { TreesLow K V }
    ensures needs { CutNeeds K V }
{}
