//! Theorems on trees and on the tables that hold them: each function stands for those that its contract names.

ghost use Rattle.node.specs.Balance.{FrameBeside};
ghost use Rattle.node.specs.Cases.{WorkedCases};
ghost use Rattle.node.specs.Sorted.{SortedRises, IndexParts};
ghost use Rattle.node.specs.Laws.{Frame, FrameChanged, FrameApart, HeldInside, HeightBound, ManyNodes, FewNodes, Low, HeldLow, Recount, EndsStand};

/// Tables that agree on the nodes of a tree hold the same tree; a change elsewhere leaves it, as a change within another tree that is apart from it, or within a part of what is out.
pub fn frame_stands<K, V>()
    ensures agreed { Frame K V }
    ensures changed { FrameChanged K V }
    ensures apart { FrameApart K V }
    ensures beside { FrameBeside K V }
    ensures inside { HeldInside K V }
{}

/// A formed tree of height h that is not empty has at least 2 · 5^h - 1 entries.
pub fn height_stands<E>()
    ensures { HeightBound E }
{}

/// A formed tree whose distinct numbers are below N, at most 4096, has at most N nodes and a height of at most 5.
pub fn number_stands<E>()
    ensures many { ManyNodes E }
    ensures few { FewNodes E }
    ensures low { Low E }
{}

/// A formed tree of distinct numbers in tables that fit together has a height of at most 5.
pub fn low_stands<K, V>()
    ensures { HeldLow K V }
{}

/// The entries counted under a held tree are as many as it has in order.
pub fn recount_stands<K, V>()
    ensures { Recount K V }
{}

/// The first and the last edges lead to the first and the last leaf of a held tree.
pub fn ends_stand<K, V>()
    ensures { EndsStand K V }
{}

/// Sorted entries rise, and the index of a query parts them.
pub fn sorted_stands<E>()
    ensures rises { SortedRises E }
    ensures parts { IndexParts E }
{}

/// The worked cases of a split, a merge and entries moved over.
pub fn cases_stand()
    ensures { WorkedCases }
{}
