//! A search from the front of a row of keys.

ghost use Rattle.std.specs.Prelude.{◌≡◌, ◌+◌, ◌≤◌, min, length};
ghost use Rattle.order.specs.Found.{first_not_below, found_at, comparisons, searched, index_of, is_found, Stopped, Parted, Strict};
ghost use Rattle.order.specs.Laws.{Pointed};
ghost use Rattle.order.specs.Rising.{Rising};

use crate::keys::{KeyOrder, Placing, Query};
use std::cmp::Ordering;

/// Where a query stands in a node: at the key with this index, or at the edge with this index, where the search goes down.
#[derive(Clone, Copy, PartialEq, Eq, Debug)]
pub enum SearchResult {
    Found(usize),
    GoDown(usize),
}

/// The index of the first key that is not below the query, with a flag that says whether the two are the same; or the number of
/// keys. It compares up to the key that stops it: one comparison more than the index, or one for each key where none stops it.
/// `first`, `found`, `made` and `stopped` hold of a row in any order.
pub fn search_linear<K: KeyOrder, Q: Query<K>>(keys: &[K], query: &Q) -> (usize, bool)
    ensures first { result.0 ≡ first_not_below (Q.Placing.places query.now) keys.now }
    ensures found { result.1 ≡ found_at (Q.Placing.places query.now) keys.now }
    ensures made { comparisons (Q.Placing.places query.now) keys.now ≡ min (result.0 + 1) (length keys.now) }
    ensures stopped { Stopped Q.Placing.places keys.now query.now result.0 result.1 }
    ensures parted { Rising K.KeyOrder.compares keys.now → Parted Q.Placing.places keys.now query.now result.0 result.1 }
    ensures strict { Pointed K.KeyOrder.compares Q.Placing.places → Rising K.KeyOrder.compares keys.now → Strict Q.Placing.places keys.now query.now result.0 }
{
    for (i, k) in keys.iter().enumerate() {
        let placed = query.place(k);
        if placed.is_le() {
            return (i, placed.is_eq());
        }
    }
    (keys.len(), false)
}

/// The same as one result, and the number of comparisons made.
pub fn search_node<K: KeyOrder, Q: Query<K>>(keys: &[K], query: &Q) -> (SearchResult, usize)
    ensures result { result.0 ≡ searched (Q.Placing.places query.now) keys.now }
    ensures made { result.1 ≡ comparisons (Q.Placing.places query.now) keys.now }
    ensures most { result.1 ≤ length keys.now }
    ensures stopped { Stopped Q.Placing.places keys.now query.now (index_of result.0) (is_found result.0) }
    ensures parted { Rising K.KeyOrder.compares keys.now → Parted Q.Placing.places keys.now query.now (index_of result.0) (is_found result.0) }
    ensures strict { Pointed K.KeyOrder.compares Q.Placing.places → Rising K.KeyOrder.compares keys.now → Strict Q.Placing.places keys.now query.now (index_of result.0) }
{
    let (index, found) = search_linear(keys, query);
    let made = index.saturating_add(1).min(keys.len());
    let result = if found {
        SearchResult::Found(index)
    } else {
        SearchResult::GoDown(index)
    };
    (result, made)
}
