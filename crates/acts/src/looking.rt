//! A key looked up in the book of a place, and the least entry that is the same as a query.

ghost use Rattle.acts.specs.Acts.{LooksIn, LeastsIn};

use books::places::Place;
use map::least::search_least;
use map::search::search_tree;
use node::tables::Tables;
use order::keys::{KeyOrder, Placing, Query};
use supply::Fault;

/// The value under the key that is the same as the query, in a bare place or a tree, and the comparisons made.
pub fn lookup_in<K: KeyOrder, V: Copy, Q: Query<K>>(
    tables: &Tables<'_, K, V>,
    here: Place,
    query: &Q,
) -> Result<(Option<V>, usize), Fault>
    ensures { LooksIn K.KeyOrder.compares tables.now here (Q.Placing.places query.now) result }
{
    let Some((root, _)) = here.tree() else {
        return Ok((None, 0));
    };
    search_tree(tables, root, query)
}

/// The least entry that is the same as the query, in a bare place or a tree, if there is one.
pub fn least_in<K: KeyOrder, V: Copy, Q: Query<K>>(
    tables: &Tables<'_, K, V>,
    here: Place,
    query: &Q,
) -> Result<Option<(K, V)>, Fault>
    ensures { LeastsIn K.KeyOrder.compares tables.now here (Q.Placing.places query.now) result }
{
    let Some((root, _)) = here.tree() else {
        return Ok(None);
    };
    search_least(tables, root, query)
}
