//! The descent of a cut: in each node of the way, what is not below the query goes over to an empty node.

ghost use Rattle.std.specs.Prelude.{◌+◌, ◌*◌, ◌≤◌, IfOk, MatchResult};
ghost use Rattle.node.specs.Operations.{Strange};
ghost use Rattle.node.specs.Store.{tables};
ghost use Rattle.cut.specs.Descent.{Stops, Cuts};

use map::search::search_in;
use node::head::Head;
use node::nodes::{ForceResult, NodeRef};
use node::tables::Tables;
use order::keys::{KeyOrder, Placing, Query};
use order::search::SearchResult;
use repair::joint::edge_of;
use supply::Fault;

/// Searches in `node`: the index of the first key that is not below the query, and the comparisons made.
fn stop_in<K: KeyOrder, V, Q: Query<K>>(
    tables: &Tables<'_, K, V>,
    node: u16,
    query: &Q,
) -> Result<(usize, usize), Fault>
    ensures { MatchResult result (λ p. Stops (Q.Placing.places query.now) tables.now node p.0 p.1) (λ _. Strange tables.now node) }
{
    let (found, count) = search_in(tables, node, query)?;
    match found {
        SearchResult::Found(idx) => Ok((idx, count)),
        SearchResult::GoDown(idx) => Ok((idx, count)),
    }
}

/// Moves what is not below the query from the tree under `node` to the spine under `right`, and answers the comparisons made.
pub(crate) fn cut_under<K: KeyOrder, V: Copy, Q: Query<K>>(
    heads: &mut [Head],
    keys: &mut [K],
    values: &mut [V],
    node: NodeRef,
    right: u16,
    query: &Q,
) -> Result<usize, Fault>
    ensures bound { IfOk result (λ n. n ≤ 11 * (node.height + 1)) }
    ensures cuts { Cuts (Q.Placing.places query.now) (tables heads.old keys.old values.old) (tables heads.new keys.new values.new) node.height node.node right result }
{
    let shown = Tables {
        heads,
        keys,
        values,
    };
    let (idx, count) = stop_in(&shown, node.node, query)?;
    node.move_suffix(heads, keys, values, idx, right)?;
    let ForceResult::Internal(inner) = node.force() else {
        return Ok(count);
    };
    let child = edge_of(heads, inner.node, idx)?;
    let beside = edge_of(heads, right, 0)?;
    let below = cut_under(heads, keys, values, inner.child(child), beside, query)?;
    Ok(count + below)
}
