//! The rules of insertion on trees: each function stands for the theorems that its contract names.
#![tactic(auto)]

ghost use Rattle.rules.specs.Cases.{WorkedTrees};
ghost use Rattle.rules.specs.Held.{HeldStands};
ghost use Rattle.rules.specs.Levels.{LevelsStand};
ghost use Rattle.rules.specs.Laws.{WayParts, InsertFormed, InsertFlat, InsertNumbers, InsertSize, InsertSorted, GrowAgrees};

/// The way of a search parts the entries.
pub fn way_stands<E>()
    ensures { WayParts E }
{}

/// An insertion keeps a tree formed, adds its entry where the way parts the others, keeps it sorted, and takes the fresh nodes that it needs.
pub fn insertion_stands<E>()
    ensures formed { InsertFormed E }
    ensures gains { InsertFlat E }
    ensures numbers { InsertNumbers E }
    ensures size { InsertSize E }
    ensures sorted { InsertSorted E }
    ensures agrees { GrowAgrees E }
{}

/// The worked trees of insertion.
pub fn cases_stand()
    ensures { WorkedTrees }
{}

/// Tables hold a tree where they hold its root with its children.
pub fn held_stands<K, V>()
    ensures { HeldStands K V }
{}

/// A new root leaf holds nothing; a root put above another has it for its only child.
pub fn levels_stand<K, V>()
    ensures { LevelsStand K V }
{}
