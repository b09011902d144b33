//! The least entry that is the same as a query: from the root down to the leaves.

ghost use Rattle.std.specs.Prelude.{◌≡◌, ◌≤◌, MatchResult};
ghost use Rattle.node.specs.Operations.{Strange};
ghost use Rattle.map.specs.Least.{Hits, FindsLeast};

use crate::search::search_in;
use node::count::MAX_HEIGHT;
use node::head::CAPACITY;
use node::nodes::{ForceResult, NodeRef};
use node::tables::Tables;
use order::keys::{KeyOrder, Placing, Query};
use order::search::SearchResult;
use supply::Fault;

/// The index where the search in `node` stops, and the entry there, if its key is the same as the query.
fn hit_in<K: KeyOrder, V: Copy, Q: Query<K>>(
    tables: &Tables<'_, K, V>,
    node: u16,
    query: &Q,
) -> Result<(usize, Option<(K, V)>), Fault>
    ensures { MatchResult result (λ p. Hits (Q.Placing.places query.now) tables.now node p.0 p.1) (λ _. Strange tables.now node) }
{
    let (found, _) = search_in(tables, node, query)?;
    match found {
        SearchResult::Found(idx) => {
            let at = CAPACITY * node as usize + idx;
            Ok((idx, Some((tables.keys[at], tables.values[at]))))
        }
        SearchResult::GoDown(idx) => Ok((idx, None)),
    }
}

/// Looks in `root`, and again and again in the child at the index where the search stopped, down to the leaves: what is the same as the query
/// lies there before what was met above.
fn least_under<K: KeyOrder, V: Copy, Q: Query<K>>(
    tables: &Tables<'_, K, V>,
    root: NodeRef,
    query: &Q,
) -> Result<Option<(K, V)>, Fault>
    ensures { FindsLeast K.KeyOrder.compares (Q.Placing.places query.now) tables.now root.height root.node result }
{
    let mut node = root;
    let mut least = None;
    loop {
        let (idx, hit) = hit_in(tables, node.node, query)?;
        least = hit.or(least);
        match node.force() {
            ForceResult::Leaf(_) => return Ok(least),
            ForceResult::Internal(inner) => {
                node = inner.child(tables.heads[inner.node as usize].edges[idx]);
            }
        }
    }
}

/// The entry of the least key that is the same as the query, if there is one.
pub fn search_least<K: KeyOrder, V: Copy, Q: Query<K>>(
    tables: &Tables<'_, K, V>,
    root: NodeRef,
    query: &Q,
) -> Result<Option<(K, V)>, Fault>
    ensures { root.height ≤ 5 → FindsLeast K.KeyOrder.compares (Q.Placing.places query.now) tables.now root.height root.node result }
{
    if root.height > MAX_HEIGHT {
        return Err(Fault::Breach);
    }
    least_under(tables, root, query)
}
