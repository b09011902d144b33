//! Lookup: from the root down, by a search in each node.

ghost use Rattle.std.specs.Prelude.{◌≡◌, ◌+◌, ◌*◌, ◌≤◌, length, IfOk, MatchResult};
ghost use Rattle.node.specs.Operations.{Strange};
ghost use Rattle.map.specs.Lookup.{Seeks, SearchedIn};

use node::count::MAX_HEIGHT;
use node::head::CAPACITY;
use node::nodes::{ForceResult, NodeRef};
use node::tables::Tables;
use order::keys::{KeyOrder, Placing, Query};
use order::search::{SearchResult, search_node};
use supply::Fault;

/// Where the query stands among the keys of `node`, and the comparisons made.
pub fn search_in<K: KeyOrder, V, Q: Query<K>>(
    tables: &Tables<'_, K, V>,
    node: u16,
    query: &Q,
) -> Result<(SearchResult, usize), Fault>
    ensures { MatchResult result (λ p. SearchedIn (Q.Placing.places query.now) tables.now node p.0 p.1) (λ _. Strange tables.now node) }
{
    let len = tables.len_in(node)?;
    let start = CAPACITY * node as usize;
    Ok(search_node(&tables.keys[start..start + len], query))
}

/// Looks in `root`, and again and again in the child at the index where the search stopped.
fn seek_under<K: KeyOrder, V: Copy, Q: Query<K>>(
    tables: &Tables<'_, K, V>,
    root: NodeRef,
    query: &Q,
) -> Result<(Option<V>, usize), Fault>
    ensures bound { IfOk result (λ p. p.1 ≤ 11 * (root.height + 1)) }
    ensures seeks { Seeks (Q.Placing.places query.now) tables.now root.height root.node result }
{
    let mut node = root;
    let mut made = 0;
    loop {
        let (found, count) = search_in(tables, node.node, query)?;
        made += count;
        match found {
            SearchResult::Found(idx) => {
                let value = tables.values[CAPACITY * node.node as usize + idx];
                return Ok((Some(value), made));
            }
            SearchResult::GoDown(idx) => match node.force() {
                ForceResult::Leaf(_) => return Ok((None, made)),
                ForceResult::Internal(inner) => {
                    node = inner.child(tables.heads[inner.node as usize].edges[idx]);
                }
            },
        }
    }
}

/// The value under the key that is the same as the query, if there is one, and the comparisons made.
pub fn search_tree<K: KeyOrder, V: Copy, Q: Query<K>>(
    tables: &Tables<'_, K, V>,
    root: NodeRef,
    query: &Q,
) -> Result<(Option<V>, usize), Fault>
    ensures bound { IfOk result (λ p. p.1 ≤ 11 * (root.height + 1)) }
    ensures seeks { root.height ≤ 5 → Seeks (Q.Placing.places query.now) tables.now root.height root.node result }
{
    if root.height > MAX_HEIGHT {
        return Err(Fault::Breach);
    }
    seek_under(tables, root, query)
}
