//! Theorems on lookup and replacement: each function stands for those that its contract names.

ghost use Rattle.map.specs.Lookup.{LookupFinds, LookupAlone, LookupBound};
ghost use Rattle.map.specs.Least.{LeastStands};
ghost use Rattle.map.specs.Replacing.{AmendList, AmendFormed};

/// In a formed tree in order a lookup finds the entry whose key is the same as the query, or there is none; where the query stands at one place, there is no other.
pub fn lookup_stands<K, V, Q>()
    ensures finds { LookupFinds K V Q }
    ensures alone { LookupAlone K V Q }
{}

/// A lookup in a formed tree of height h makes at most 11 · (h + 1) comparisons.
pub fn bound_stands<E>()
    ensures { LookupBound E }
{}

/// A replacement changes the entry that the lookup finds, and nothing else in the list; a formed tree stays formed, of the same nodes.
pub fn replacement_stands<E>()
    ensures list { AmendList E }
    ensures formed { AmendFormed E }
{}

/// Of entries in order, the first that is the same as a query is the least: all before it are below.
pub fn least_stands<K, V, Q>()
    ensures { LeastStands K V Q }
{}
